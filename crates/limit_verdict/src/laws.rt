//! What holds of verdicts, each as the contract of a function that does nothing.
ghost use Rattle.limit_verdict.specs.Laws.{MetExactly, MetOverall, MissedExactly, MissedOverall, UndecidedExactly, UndecidedOverall};

/// A limit is met exactly where it is given and the whole printed interval reaches it.
pub fn met_exactly()
    ensures { MetExactly }
{}

/// A limit is missed exactly where it is given and nothing of the printed interval reaches it.
pub fn missed_exactly()
    ensures { MissedExactly }
{}

/// A limit is undecided exactly where it is given and the printed interval has both sides of it, or where no uniformity is printed.
pub fn undecided_exactly()
    ensures { UndecidedExactly }
{}

/// Missed is what verdicts say together exactly where one of them is.
pub fn missed_overall()
    ensures { MissedOverall }
{}

/// Undecided is what they say exactly where one of them is and none is missed.
pub fn undecided_overall()
    ensures { UndecidedOverall }
{}

/// Met is what they say exactly where each of them is; so also where there is none.
pub fn met_overall()
    ensures { MetOverall }
{}
