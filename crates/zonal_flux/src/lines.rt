//! The lines of a flux.
ghost use Rattle.std.specs.Prelude.{◌≡◌, ◌≤◌, ◌++◌, codes, IfOk, Some, string_bytes};
ghost use Rattle.decimal_text.specs.Decimals.{hundredths};
ghost use Rattle.zonal_flux.specs.Printed.{flux_lines, printed_hi, printed_lo, IsPrintable};

use crate::fluxes::Flux;
use decimal_text::Hundredths;
use fx_base::{Memory, Span, ceil_cent, floor_cent};
use limit_verdict::judge;
use std::alloc::Global;
use std::fmt;

/// The ends of a span that are printed, in hundredths.
#[derive(Clone, Copy)]
struct Cents {
    lo: u128,
    hi: u128,
}

impl fmt::Display for Cents {
    ghost output = { λ p. Some (hundredths p.lo ++ codes " " ++ hundredths p.hi) };

    fn fmt<W: fmt::Write>(&self, f: &mut fmt::Formatter<W>) -> fmt::Result {
        write!(f, "{} {}", Hundredths(self.lo), Hundredths(self.hi))
    }
}

/// The span rounded outward to hundredths.
fn outward(span: Span) -> Cents
    requires { IsPrintable span }
    ensures low { result.lo ≡ printed_lo span }
    ensures high { result.hi ≡ printed_hi span }
    ensures in_order { result.lo ≤ result.hi }
{
    Cents {
        lo: floor_cent(span.lo()),
        hi: ceil_cent(span.hi()),
    }
}

/// The lines `down LO HI`, `up LO HI` and `flux LO HI` in lumens with two decimals, rounded outward, and `against LUMENS V`: met where
/// the printed total reaches so many lumens, missed where it lies below them, else undecided. Memory: none was left for the text.
pub fn flux_text(alloc: Global, flux: &Flux, lumens: u32) -> Result<String, Memory>
    requires down { IsPrintable flux.now.down }
    requires up { IsPrintable flux.now.up }
    requires total { IsPrintable flux.now.total }
    ensures text { IfOk result (λ s. string_bytes s ≡ flux_lines flux.now lumens) }
{
    let down = outward(flux.down);
    let up = outward(flux.up);
    let total = outward(flux.total);
    let verdict = judge(lumens as u128 * 100, total.lo, total.hi);
    let text = format!(in alloc;
        "down {down}\nup {up}\nflux {total}\nagainst {lumens} {verdict}\n"
    )?;
    Ok(text)
}
