//! Texts of pieces that stand one after the other.
ghost use Rattle.std.specs.Prelude.{◌≡◌, ◌<◌, ◌++◌, ℕ, List, IfOk, string_bytes};
ghost use Rattle.plan_drawing.specs.Pieces.{first};

use std::alloc::AllocError;

/// Things that are told by their index, and each of which has a piece of a text: `has` says which of them there are, or what else
/// their pieces want, and `piece` is the piece of each.
pub trait Pieces {
    ghost has: { Self → ℕ → Type 0 };

    ghost piece: { Self → ℕ → List ℕ };

    /// Adds the piece of the thing with this index.
    fn push_piece(&self, text: &mut String, index: usize) -> Result<(), AllocError>
        requires { has self.now index }
        ensures { IfOk result (λ _. string_bytes text.new ≡ string_bytes text.old ++ piece self.now index) };
}

/// Adds the pieces of the first `count` things, in the order of their indices.
pub fn push_pieces<P: Pieces>(text: &mut String, things: &P, count: usize) -> Result<(), AllocError>
    requires each { (k : ℕ) → k < count → P.has things.now k }
    ensures { IfOk result (λ _. string_bytes text.new ≡ string_bytes text.old ++ first count (P.piece things.now)) }
{
    for k in 0..count {
        things.push_piece(text, k)?;
    }
    Ok(())
}
