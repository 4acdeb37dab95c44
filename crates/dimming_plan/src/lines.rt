//! The lines of the two plans found.
ghost use Rattle.std.specs.Prelude.{◌≡◌, IfOk, Some, string_bytes};
ghost use Rattle.dimming_plan.specs.Lines.{found_text, plan_text, steps_text, tenths};

use crate::power::{Found, PowerBracket};
use fx_base::Memory;
use std::alloc::Global;
use std::fmt;

/// Tenths of a watt, spelled in watts with one decimal.
#[derive(Clone, Copy)]
struct Tenths(u64);

impl fmt::Display for Tenths {
    ghost output = { λ n. Some (tenths n.0) };

    fn fmt<W: fmt::Write>(&self, f: &mut fmt::Formatter<W>) -> fmt::Result {
        let whole = self.0 / 10;
        let rest = self.0 % 10;
        write!(f, "{whole}.{rest}")
    }
}

/// The steps of a plan, each after a space.
#[derive(Clone, Copy)]
struct Steps([u8; 6]);

impl fmt::Display for Steps {
    ghost output = { λ s. Some (steps_text s.0) };

    fn fmt<W: fmt::Write>(&self, f: &mut fmt::Formatter<W>) -> fmt::Result {
        let [a, b, c, d, e, g] = self.0;
        write!(f, " {a} {b} {c} {d} {e} {g}")
    }
}

/// A plan that was found, or that there is none.
#[derive(Clone, Copy)]
struct Told(Option<Found>);

impl fmt::Display for Told {
    ghost output = { λ t. Some (found_text t.0) };

    fn fmt<W: fmt::Write>(&self, f: &mut fmt::Formatter<W>) -> fmt::Result {
        match self.0 {
            None => write!(f, "none"),
            Some(found) => write!(f, "{}{}", Tenths(found.tenths), Steps(found.steps)),
        }
    }
}

/// The lines `met POWER S S S S S S` and `possible POWER S S S S S S`: the power of each plan in watts with one decimal and the step of
/// each group in tenths, or `none` in their place.
pub fn plan_text(alloc: Global, bracket: &PowerBracket) -> Result<String, Memory>
    ensures { IfOk result (λ s. string_bytes s ≡ plan_text bracket.now) }
{
    let met = Told(bracket.met);
    let possible = Told(bracket.possible);
    let text = format!(in alloc; "met {met}\npossible {possible}\n")?;
    Ok(text)
}
