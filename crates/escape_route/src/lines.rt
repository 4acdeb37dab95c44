//! The lines of a route, and what its limits come to.
ghost use Rattle.std.specs.Prelude.{◌≡◌, ◌≤◌, ◌++◌, IfOk, IfSome, Option, Some, string_bytes};
ghost use Rattle.limit_verdict.specs.Verdicts.{worse};
ghost use Rattle.escape_route.specs.Printed.{ends_text, light_lines, limit_line, printed_hi, printed_lo, ratio_text, ratio_verdict, IsRouteText};
ghost use Rattle.escape_route.specs.Ratios.{IsLight};

use crate::ends::Extremes;
use crate::most::judge_most;
use crate::quotient::ratio;
use decimal_text::{Hundredths, Thousandths};
use fx_base::{Memory, Span, ceil_cent, floor_cent};
use limit_verdict::{Verdict, judge};
use std::alloc::Global;
use std::fmt;

/// What is asked of a route: the least light in thousandths of a lux, and the most that the greatest light may be by the least.
#[derive(Clone, Copy, Debug, PartialEq, Eq)]
pub struct RouteLimits {
    pub least: u32,
    pub ratio: u32,
}

/// What is told of a route, and what its two verdicts say together.
#[derive(Debug, Drop)]
pub struct RouteReport {
    pub text: String,
    pub verdict: Verdict,
}

/// The ends of a ratio that are printed, in thousandths, where there is one.
#[derive(Clone, Copy)]
struct RatioEnds(Option<(u128, u128)>);

impl fmt::Display for RatioEnds {
    ghost output = { λ r. Some (ratio_text r.0) };

    fn fmt<W: fmt::Write>(&self, f: &mut fmt::Formatter<W>) -> fmt::Result {
        match self.0 {
            None => write!(f, "none"),
            Some((lo, hi)) => write!(f, "{} {}", Thousandths(lo), Thousandths(hi)),
        }
    }
}

/// The ends of a light that are printed, in hundredths of a lux.
#[derive(Clone, Copy)]
struct Cents {
    lo: u128,
    hi: u128,
}

impl fmt::Display for Cents {
    ghost output = { λ p. Some (ends_text (p.lo, p.hi)) };

    fn fmt<W: fmt::Write>(&self, f: &mut fmt::Formatter<W>) -> fmt::Result {
        write!(f, "{} {}", Hundredths(self.lo), Hundredths(self.hi))
    }
}

/// The light rounded outward to hundredths.
fn outward(span: Span) -> Cents
    requires { IsLight span }
    ensures low { result.lo ≡ printed_lo span }
    ensures high { result.hi ≡ printed_hi span }
    ensures in_order { result.lo ≤ result.hi }
{
    Cents {
        lo: floor_cent(span.lo()),
        hi: ceil_cent(span.hi()),
    }
}

/// The verdict on a ratio that is asked to be so many times at most. Where none is printed nothing is decided.
fn judge_ratio(most: u32, ratio: Option<(u128, u128)>) -> Verdict
    requires in_order { IfSome ratio (λ r. r.0 ≤ r.1) }
    ensures { result ≡ ratio_verdict most ratio }
{
    let Some((lo, hi)) = ratio else {
        return Verdict::Undecided;
    };
    judge_most(most as u128 * 1000, lo, hi)
}

/// The worse of two verdicts: missed, else undecided, else met.
fn worse(a: Verdict, b: Verdict) -> Verdict
    ensures { result ≡ worse a b }
{
    match (a, b) {
        (Verdict::Missed, _) | (_, Verdict::Missed) => Verdict::Missed,
        (Verdict::Undecided, _) | (_, Verdict::Undecided) => Verdict::Undecided,
        (Verdict::Met, Verdict::Met) => Verdict::Met,
    }
}

/// The lines of a route's light: how many points it has, the least and the greatest light, and the ratio.
fn light_lines(
    alloc: Global,
    points: usize,
    least: Cents,
    greatest: Cents,
    ratio: RatioEnds,
) -> Result<String, Memory>
    ensures { IfOk result (λ s. string_bytes s ≡ light_lines points (least.lo, least.hi) (greatest.lo, greatest.hi) ratio.0) }
{
    let mut text = format!(in alloc; "points {points}\n")?;
    write!(text, "least {least}\n")?;
    write!(text, "greatest {greatest}\n")?;
    write!(text, "ratio {ratio}\n")?;
    Ok(text)
}

/// The text with the line of a limit after it. What is asked is in thousandths.
fn with_limit(mut text: String, name: &str, asked: u128, verdict: Verdict) -> Result<String, Memory>
    ensures { IfOk result (λ s. string_bytes s ≡ string_bytes text ++ limit_line name.now asked verdict) }
{
    let asked = Thousandths(asked);
    write!(text, "limit {name} {asked} {verdict}\n")?;
    Ok(text)
}

/// The lines `points N`, `least LO HI` and `greatest LO HI` in lux with two decimals, rounded outward, `ratio LO HI` with three or
/// `ratio none`, and `limit least L V` and `limit ratio L V` with the verdicts by the printed ends. Memory: none was left for the text.
pub fn route_report(
    alloc: Global,
    points: usize,
    e: &Extremes,
    limits: &RouteLimits,
) -> Result<RouteReport, Memory>
    requires least { IsLight e.now.least }
    requires greatest { IsLight e.now.greatest }
    ensures { IfOk result (λ r. IsRouteText points e.now limits.now r.verdict (string_bytes r.text)) }
{
    let least = outward(e.least);
    let greatest = outward(e.greatest);
    let ratio = ratio(e);
    let (asked_least, asked_ratio) = (limits.least as u128, limits.ratio as u128 * 1000);
    let least_verdict = judge(asked_least, least.lo * 10, least.hi * 10);
    let ratio_verdict = judge_ratio(limits.ratio, ratio);
    let text = light_lines(alloc, points, least, greatest, RatioEnds(ratio))?;
    let text = with_limit(text, "least", asked_least, least_verdict)?;
    let text = with_limit(text, "ratio", asked_ratio, ratio_verdict)?;
    Ok(RouteReport {
        text,
        verdict: worse(least_verdict, ratio_verdict),
    })
}
