//! What holds of the definitions in `specs/`, each as the contract of a function that does nothing.
ghost use Rattle.grid_report.specs.BoundsLaws.{BoundsHoldLight, ShownHoldsLight, UnshownHasCause};
ghost use Rattle.grid_report.specs.Laws.{EndsAreTheReports, ReportIsRight, UniformityIsInOrder};

/// Where what is divided and the divisor change little, the lesser of 1 and their quotient does.
pub use fx_base::laws::quotient_is_steady;

/// The average of values in order is in order, and the values that a scene gives are those of its room.
pub use scene_system::laws::{average_is_in_order, values_are_points};

/// The uniformity of values in order is in order.
#[tactic(auto, using(crate::proofs::GridOrder::uniformity_order))]
pub fn uniformity_is_in_order()
    ensures { UniformityIsInOrder }
{}

/// The report of the values of a room's task points is right: it meets the exact values at each depth from 2, and is near the loose
/// ones.
pub fn report_is_right()
    ensures { ReportIsRight }
{}

/// Limits are held against the same ends whether these are taken from values or from their report.
pub fn ends_are_the_reports()
    ensures { EndsAreTheReports }
{}

/// The bounds that a scene of a room without a heavy row gives hold the light of the room's patches: at each depth from 2 they meet the
/// exact light, and are no more than 1/10,000 lux further out than the loose light.
pub fn bounds_hold_light()
    ensures { BoundsHoldLight }
{}

/// A claim that such a scene shows holds the light of the room's patches, whoever made it.
pub fn shown_holds_light()
    ensures { ShownHoldsLight }
{}

/// The first row at which such a scene doesn't show a claim is a patch of the room. There, by the loose ends of each depth from 2 and
/// with nothing rounded, a bound is past what the claim's own light gives, or short of it by less than one tick for each patch.
pub fn unshown_has_cause()
    ensures { UnshownHasCause }
{}
