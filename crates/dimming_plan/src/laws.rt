//! What holds of the definitions in `specs/`, each as the contract of a function that does nothing.
ghost use Rattle.dimming_plan.specs.Bracket.{PlansAreABracket};
ghost use Rattle.dimming_plan.specs.LightLaws.{PlanIsAverage, SumsOfMultiples};
ghost use Rattle.dimming_plan.specs.SameGeometry.{GeometryIsKept, LimitsAreKept};

/// The light of the patches for a sum of multiples of direct lights is the sum of the multiples of their light.
pub fn sums_of_multiples()
    ensures { SumsOfMultiples }
{}

/// The average of a room whose groups are dimmed is the sum of so many parts of the groups' averages.
pub fn plan_is_average()
    ensures { PlanIsAverage }
{}

/// Lamps change the direct light alone: with other lamps a room has the same patches, points, coefficients and row sums.
pub fn geometry_is_kept()
    ensures { GeometryIsKept }
{}

/// A room that is within its limits is so with some of its lamps.
pub fn limits_are_kept()
    ensures { LimitsAreKept }
{}

/// Plans of least power by averages in ticks are a bracket of the least power by the exact averages: the plan that is shown to reach the
/// limit may reach it, each plan that surely reaches it takes at least the power of the other one, and by the loose averages the two are
/// no further apart than a thousandth of a lux allows.
pub fn plans_are_a_bracket()
    ensures { PlansAreABracket }
{}
