//! The laws of the equations and of their bounds: a law is the contract of a function that does nothing.
ghost use Rattle.radiosity_solve.specs.Laws.{OneSolution, Comparison, OneFractionSolution, OneLight, FractionComparison, LightRises};
ghost use Rattle.radiosity_solve.specs.Composition.{LowerIsBelow, UpperIsAbove, LowerIsWithin, UpperIsWithin, RowsAreBelowOne, ShownClaimHolds};
ghost use Rattle.radiosity_solve.specs.Claim.{ShownClaimBounds};

/// Equations with row sums below one have exactly one solution, of either sign; it isn't negative where the light isn't.
pub fn one_solution()
    ensures { OneSolution }
{}

/// Larger coefficients and larger light give a larger solution.
pub fn comparison()
    ensures { Comparison }
{}

/// The same in fractions, each with a denominator of its own: the elimination gives the one solution.
pub fn one_fraction_solution()
    ensures { OneFractionSolution }
{}

/// Where the coefficients of each patch add up to less than one, there is one light by the lower ends and one by the upper ends, and
/// none beside.
pub fn one_light()
    ensures { OneLight }
{}

/// The solution in fractions rises with the coefficients and the light.
pub fn solutions_ordered()
    ensures { FractionComparison }
{}

/// Each solution in fractions of equations whose coefficients and light are at most those of others is at most each solution of theirs.
pub fn light_rises()
    ensures { LightRises }
{}

/// A lower claim shown by lower ends is at most the solution of any equations above those ends.
pub fn lower_below()
    ensures { LowerIsBelow }
{}

/// An upper claim shown by upper ends is at least the solution of any equations below those ends.
pub fn upper_above()
    ensures { UpperIsAbove }
{}

/// Lower bounds near the solution of their ticks are as near to the solution of any equations below them, or nearer.
pub fn lower_within()
    ensures { LowerIsWithin }
{}

/// Upper bounds near the solution of their ticks are as near to the solution of any equations above them, or nearer.
pub fn upper_within()
    ensures { UpperIsWithin }
{}

/// Where no row is heavy, the row sums of the lower and of the upper ends are below one.
pub fn rows_below_one()
    ensures { RowsAreBelowOne }
{}

/// A shown claim holds every solution of every system in the intervals, whoever made it.
pub fn shown_claim_holds()
    ensures { ShownClaimHolds }
{}

/// A claim of which `holds` answers Ok holds every solution of every system in the intervals, and its lower bounds aren't above its
/// upper ones.
pub fn shown_claim_bounds()
    ensures { ShownClaimBounds }
{}
