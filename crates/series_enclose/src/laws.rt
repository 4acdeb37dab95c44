//! What holds of the definitions in `specs/` at every depth, each as the contract of a function that does nothing. The laws of
//! square roots stand in `fx_base`.

ghost use Rattle.series_enclose.specs.Laws.{ArctanIsUncut, CosineIsUncut, CosineNarrows, CosineNests, PiIsUncut, PiNarrows, PiNests, SineIsUncut, SineNarrows, SineNests, SlantNests, SlantRises};

pub use fx_base::laws::{root_narrows, root_nests};

/// Each enclosure of pi lies within the one before.
#[tactic(auto, using(crate::proofs::PiLaws::pi_nested))]
pub fn pi_nests()
    ensures { PiNests }
{}

/// Each enclosure of a sine of 0 to 45 degrees lies within the one before.
#[tactic(auto, using(crate::proofs::Arcs::sine_nested))]
pub fn sine_nests()
    ensures { SineNests }
{}

/// Each enclosure of a cosine of 0 to 45 degrees lies within the one before.
#[tactic(auto, using(crate::proofs::Arcs::cosine_nested))]
pub fn cosine_nests()
    ensures { CosineNests }
{}

/// Each enclosure of the angle of a slope lies within the one before.
#[tactic(auto, using(crate::proofs::SlantLaws::slant_nested))]
pub fn slant_nests()
    ensures { SlantNests }
{}

/// An angle that is below a slope at one depth never passes one that is above it at any depth, since sines rise strictly.
#[tactic(auto, using(crate::proofs::SlantLaws::slant_any_depths))]
pub fn slant_rises()
    ensures { SlantRises }
{}

/// The enclosure of pi at depth n is at most `4 / 25^(2n + 1)` wide.
#[tactic(auto, using(crate::proofs::Widths::pi_width))]
pub fn pi_narrows()
    ensures { PiNarrows }
{}

/// That of a sine is at most `1 / (4n + 2)! + 1 / 25^(2n + 1)` wide.
#[tactic(auto, using(crate::proofs::Widths::sine_width))]
pub fn sine_narrows()
    ensures { SineNarrows }
{}

/// That of a cosine is at most `1 / (4n + 2)! + 1 / 25^(2n + 1)` wide.
#[tactic(auto, using(crate::proofs::Widths::cosine_width))]
pub fn cosine_narrows()
    ensures { CosineNarrows }
{}

/// What the sums of the arc tangents take away is at most what stands.
#[tactic(auto, using(crate::proofs::Uncut::arctan_uncut))]
pub fn arctan_is_uncut()
    ensures { ArctanIsUncut }
{}

/// So is what Machin's formula takes away.
pub fn pi_is_uncut()
    ensures { PiIsUncut }
{}

/// So is what the sums of a sine take away.
pub fn sine_is_uncut()
    ensures { SineIsUncut }
{}

/// So is what the sums of a cosine take away.
pub fn cosine_is_uncut()
    ensures { CosineIsUncut }
{}
