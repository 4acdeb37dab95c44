//! What holds of the definitions in `specs/` at every depth, each as the contract of a function that does nothing.
ghost use Rattle.form_factor.specs.Laws.{CoefficientNarrows, CoefficientNests, FrontsAreNear, KernelSpreads};

/// The product of the distances of two centres in front of each other's planes is at most the square of their distance.
pub fn fronts_are_near()
    ensures { FrontsAreNear }
{}

/// A coefficient changes no faster than pi.
pub fn kernel_spreads()
    ensures { KernelSpreads }
{}

/// Each enclosure of a coefficient lies within the one before, and its lower end is at most its upper one.
pub fn coefficient_nests()
    ensures { CoefficientNests }
{}

/// From depth 2 on the enclosures are at most 1 / 2,400,000 wide.
pub fn coefficient_narrows()
    ensures { CoefficientNarrows }
{}
