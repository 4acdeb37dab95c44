//! A verdict on a limit, and the verdicts on the limits of a room.
ghost use Rattle.std.specs.Prelude.{◌≡◌, ◌<◌, ◌≤◌, ◌↔◌, IsTrue, Some};
ghost use Rattle.limit_verdict.specs.Verdicts.{overall, verdict, verdict_word, SomeIs};

use std::fmt;

/// Whether a value reaches the least that is asked of it, where the value is known to lie between two printed ends.
#[derive(Clone, Copy, Debug, PartialEq, Eq)]
pub enum Verdict {
    /// It does, wherever it lies between them.
    Met,
    /// It doesn't, wherever it lies between them.
    Missed,
    /// The printed ends don't tell.
    Undecided,
}

impl fmt::Display for Verdict {
    ghost output = { λ v. Some (verdict_word v) };

    fn fmt<W: fmt::Write>(&self, f: &mut fmt::Formatter<W>) -> fmt::Result {
        match self {
            Verdict::Met => write!(f, "met"),
            Verdict::Missed => write!(f, "missed"),
            Verdict::Undecided => write!(f, "undecided"),
        }
    }
}

/// The verdict on a value between two printed ends of which at least `least` is asked, all three in the same unit.
pub fn judge(least: u128, lo: u128, hi: u128) -> Verdict
    requires in_order { lo ≤ hi }
    ensures verdict { result ≡ verdict least lo hi }
    ensures met { (result ≡ Verdict.Met) ↔ (least ≤ lo) }
    ensures missed { (result ≡ Verdict.Missed) ↔ (hi < least) }
    ensures undecided { (result ≡ Verdict.Undecided) ↔ (lo < least × least ≤ hi) }
{
    if lo >= least {
        Verdict::Met
    } else if hi < least {
        Verdict::Missed
    } else {
        Verdict::Undecided
    }
}

/// The verdicts on the limits of a room. There is none on a limit that isn't given.
#[derive(Clone, Copy, Debug, PartialEq, Eq)]
pub struct Verdicts {
    pub average: Option<Verdict>,
    pub uniformity: Option<Verdict>,
}

impl Verdicts {
    /// Whether there is this verdict among them.
    fn some_is(&self, verdict: Verdict) -> bool
        ensures { IsTrue result ↔ SomeIs verdict self.now }
    {
        self.average == Some(verdict) || self.uniformity == Some(verdict)
    }

    /// What they say together: missed where one is, else undecided where one is, else met. So without limits it is met.
    pub fn overall(&self) -> Verdict
        ensures overall { result ≡ overall self.now }
        ensures missed { (result ≡ Verdict.Missed) ↔ SomeIs Verdict.Missed self.now }
        ensures undecided { (result ≡ Verdict.Undecided) ↔ (SomeIs Verdict.Undecided self.now × ¬ SomeIs Verdict.Missed self.now) }
        ensures met { (result ≡ Verdict.Met) ↔ (¬ SomeIs Verdict.Missed self.now × ¬ SomeIs Verdict.Undecided self.now) }
    {
        if self.some_is(Verdict::Missed) {
            Verdict::Missed
        } else if self.some_is(Verdict::Undecided) {
            Verdict::Undecided
        } else {
            Verdict::Met
        }
    }
}
