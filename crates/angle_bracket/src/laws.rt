//! What holds of the definitions in `specs/` at every depth, each as the contract of a function that does nothing.

ghost use Rattle.angle_bracket.specs.Laws.{CIsInOrder, GammaIsInOrder};

pub use fx_base::laws::near_by_meeting_on_circle;
pub use series_enclose::laws::{slant_nests, slant_rises};

/// The lower end of C is at most its upper end.
#[tactic(auto, using(crate::proofs::Ordered::c_in_order))]
pub fn c_is_in_order()
    ensures { CIsInOrder }
{}

/// The lower end of gamma is at most its upper end, where there is a direction.
#[tactic(auto, using(crate::proofs::Ordered::gamma_in_order))]
pub fn gamma_is_in_order()
    ensures { GammaIsInOrder }
{}
