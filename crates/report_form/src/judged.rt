//! What of a report is held against limits.
ghost use Rattle.std.specs.Prelude.{◌≡◌};
ghost use Rattle.report_form.specs.Judged.{ends_of, AreInOrder, CanBeJudged};

use crate::report::Report;

/// The printed ends of the average, in thousandths of a lux, and of the uniformity, in thousandths: lower and upper.
#[derive(Clone, Copy, Debug, PartialEq, Eq)]
pub struct Ends {
    pub average_lo: u128,
    pub average_hi: u128,
    pub uniformity: Option<(u32, u32)>,
}

impl Report {
    /// The ends that limits are held against.
    pub fn ends(&self) -> Ends
        requires { CanBeJudged self.now }
        ensures ends { result ≡ ends_of self.now }
        ensures in_order { AreInOrder result }
    {
        Ends {
            average_lo: self.average.lo * 10,
            average_hi: self.average.hi * 10,
            uniformity: self.uniformity.map(|u| (u.lo as u32, u.hi as u32)),
        }
    }
}
