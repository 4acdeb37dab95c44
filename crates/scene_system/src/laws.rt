//! What holds of the definitions in `specs/`, each as the contract of a function that does nothing.
ghost use Rattle.scene_system.specs.Laws.{RadiosityIsInOrder, TotalIsOfTables};
ghost use Rattle.scene_system.specs.ValueLaws.{AverageIsInOrder, ValuesArePoints};
ghost use Rattle.scene_system.specs.RowSums.{HeavyHasCause, MildIsServed, NoneIsShownHeavy, RowsStayBelowOne};

/// The enclosures of the coefficients and of the direct light of an accepted room whose files have exact tables aren't empty, at any
/// depth, in the exact and in the loose form.
pub fn radiosity_is_in_order()
    ensures { RadiosityIsInOrder }
{}

/// Where a row of the scene is heavy, that row's sum of coefficients is above 255/256 at each depth from 2, give or take 2^-32 for
/// each patch; no earlier row is shown to be above it, and the sum in thousandths encloses that of the coefficients as nearly.
pub fn heavy_has_cause()
    ensures { HeavyHasCause }
{}

/// Where no row of the scene is heavy, no row's sum of coefficients is shown to be above 255/256 at any depth.
pub fn none_is_shown_heavy()
    ensures { NoneIsShownHeavy }
{}

/// Where each row's sum of coefficients is shown at some depth from 2 to be at most 255/256 less the slack, no row of the scene is
/// heavy.
pub fn mild_is_served()
    ensures { MildIsServed }
{}

/// Where no row of the scene is heavy, the upper ends of the coefficients of each row add up to less than one at each depth from 2,
/// in the exact and in the loose form.
pub fn rows_stay_below_one()
    ensures { RowsStayBelowOne }
{}

/// The greatest intensities of all lamps add up to as many ticks by the program's tables as by the exact ones that were rounded to them.
pub fn total_is_of_tables()
    ensures { TotalIsOfTables }
{}

/// The average of values in order is in order.
#[tactic(auto, using(crate::proofs::MeanOrder::average_order))]
pub fn average_is_in_order()
    ensures { AverageIsInOrder }
{}

/// The values that a scene of a room without a heavy row gives, with bounds of the light of its patches, are those of the room: at each
/// depth from 2 they meet the exact values and lie within 2,048 ticks of the loose ones, which are in order.
pub fn values_are_points()
    ensures { ValuesArePoints }
{}
