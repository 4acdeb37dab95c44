//! What holds of the table of all planes, each law as the contract of a function that does nothing.
ghost use Rattle.symmetry_expand.specs.AllRound.{AllRoundIsRounded};
ghost use Rattle.symmetry_expand.specs.Fold.{AllRoundIsFolded, PlanesAreFolded};

/// What is unfolded of intensities rounded to ticks is what is unfolded of the exact ones, rounded: so the table that a reader
/// hands on stands for the exact one of its file.
pub fn all_round_is_rounded()
    ensures { AllRoundIsRounded }
{}

/// The intensity of the table of all planes in each direction is the measured one at the angle that stands for it.
pub fn all_round_is_folded()
    ensures { AllRoundIsFolded }
{}

/// The half-planes of that table are the angles below 360 degrees for which a measured one stands, up to whole turns; with the same
/// all round it is the angle 0 alone.
pub fn planes_are_folded()
    ensures { PlanesAreFolded }
{}
