//! The lines of the verdicts on the limits of a room.
ghost use Rattle.std.specs.Prelude.{◌≡◌, ◌≤◌, ◌++◌, IfOk, IfSome, string_bytes};
ghost use Rattle.limit_verdict.specs.Verdicts.{limit_line, verdict_lines};

use crate::limits::verdicts;
use crate::verdict::Verdict;
use decimal_text::Thousandths;
use fx_base::Memory;
use room_layout::Limits;
use std::alloc::Global;

/// The text with the line of a limit after it, where the limit is given. `least` is in thousandths.
fn with_limit(
    mut text: String,
    name: &str,
    least: Option<u64>,
    verdict: Option<Verdict>,
) -> Result<String, Memory>
    ensures { IfOk result (λ s. string_bytes s ≡ string_bytes text ++ limit_line name.now least verdict) }
{
    if let (Some(least), Some(verdict)) = (least, verdict) {
        let least = Thousandths(u128::from(least));
        write!(text, "limit {name} {least} {verdict}\n")?;
    }
    Ok(text)
}

/// A line for each limit that is given: that of the average, then that of the uniformity, each with three decimals and its verdict by
/// the printed ends. These are in thousandths of a lux, and of the uniformity in thousandths, where one is printed.
pub fn verdict_text(
    alloc: Global,
    limits: &Limits,
    average_lo: u128,
    average_hi: u128,
    uniformity: Option<(u32, u32)>,
) -> Result<String, Memory>
    requires average_in_order { average_lo ≤ average_hi }
    requires uniformity_in_order { IfSome uniformity (λ e. e.0 ≤ e.1) }
    ensures text { IfOk result (λ s. string_bytes s ≡ verdict_lines limits.now average_lo average_hi uniformity) }
{
    let verdicts = verdicts(limits, average_lo, average_hi, uniformity);
    let text = with_limit(
        String::new(alloc),
        "average",
        limits.average,
        verdicts.average,
    )?;
    with_limit(
        text,
        "uniformity",
        limits.uniformity.map(u64::from),
        verdicts.uniformity,
    )
}
