//! What holds of the hull, each law as the contract of a function that does nothing.

ghost use Rattle.photo_table.specs.Laws.{HullContains, HullAtPoint, HullGrows, HullsMeet, HullsNear, PlanesGoRound, IntensityGoesRound};
ghost use Rattle.photo_table.specs.Exact.{RoundsToNextTick, RoundedStands, RoundedIsNarrow};

/// The hull contains the intensity in every direction of its two brackets.
pub fn hull_contains()
    ensures { HullContains }
{}

/// The hull over one direction is the intensity there.
pub fn hull_at_point()
    ensures { HullAtPoint }
{}

/// After the last plane comes the first one a turn later, and so on.
pub fn planes_go_round()
    ensures { PlanesGoRound }
{}

/// Whole turns later the intensity is the same.
pub fn intensity_goes_round()
    ensures { IntensityGoesRound }
{}

/// A bracket of C and one of gamma within wider ones, the first up to whole turns, have a hull within the wider hull.
pub fn hull_grows()
    ensures { HullGrows }
{}

/// The hull over brackets that meet others meets theirs, of a table and of the exact table that it stands for.
pub fn hulls_meet()
    ensures { HullsMeet }
{}

/// The hull over narrow brackets that meet others lies within a tick of the exact table's hull over those moved outward.
pub fn hulls_near()
    ensures { HullsNear }
{}

/// An end that is rounded to a tick is the next one on its side: one tick nearer would be past the exact number, or on it.
pub fn rounds_to_next_tick()
    ensures { RoundsToNextTick }
{}

/// A table that is rounded to ticks stands for its exact one, so that the laws of hulls hold of the two.
pub fn rounded_stands()
    ensures { RoundedStands }
{}

/// No intensity of a rounded table is wider than a tick.
pub fn rounded_is_narrow()
    ensures { RoundedIsNarrow }
{}
