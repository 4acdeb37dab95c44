//! What holds of the definitions in `specs/`, each as the contract of a function that does nothing.

ghost use Rattle.fx_base.specs.Laws.{NearByMeeting, NearByMeetingOnCircle, QuotientIsSteady, RootIsGreatest, RootNarrows, RootNests};
ghost use Rattle.fx_base.specs.SpanLaws.{FractionHolds, ProductHolds, QuotientHolds, RootHolds, ScaledHolds, SumHolds};

/// An interval at most e wide that meets another lies within that other moved outward by e.
pub fn near_by_meeting()
    ensures { NearByMeeting }
{}

/// The same of angles, where meeting is up to whole turns.
#[tactic(auto, using(crate::proofs::Near::near_by_meeting_on_circle))]
pub fn near_by_meeting_on_circle()
    ensures { NearByMeetingOnCircle }
{}

/// A whole root is the greatest whole number whose square is at most that of which it is the root.
pub fn root_is_greatest()
    ensures { RootIsGreatest }
{}

/// Each enclosure of a square root lies within the one before, and none is empty.
#[tactic(auto, using(crate::proofs::RootLaws::root_nested))]
pub fn root_nests()
    ensures { RootNests }
{}

/// The enclosure of a root at depth n is 1 / 2^n wide.
#[tactic(auto, using(crate::proofs::RootLaws::root_narrow))]
pub fn root_narrows()
    ensures { RootNarrows }
{}

/// The lesser of 1 and a quotient changes little where what is divided and the divisor change little.
#[tactic(auto, using(crate::proofs::Quotient::quotient_steady))]
pub fn quotient_is_steady()
    ensures { QuotientIsSteady }
{}

/// The sum of two spans holds the sums of what they hold, also where an end or a member is below 0.
pub fn sum_holds()
    ensures { SumHolds }
{}

/// Their product, rounded outward, holds the products.
pub fn product_holds()
    ensures { ProductHolds }
{}

/// A span times a fraction, rounded outward, holds the multiples.
pub fn scaled_holds()
    ensures { ScaledHolds }
{}

/// The quotient by a positive span, rounded outward, holds the quotients.
pub fn quotient_holds()
    ensures { QuotientHolds }
{}

/// A fraction rounded down and up to a tick lies between the two.
pub fn fraction_holds()
    ensures { FractionHolds }
{}

/// Two ticks on either side of a root hold it, and meet its enclosure at every depth.
pub fn root_holds()
    ensures { RootHolds }
{}
