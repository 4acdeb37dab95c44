//! The cards of a page: the average, the uniformity, and each limit that is asked for with its verdict.
ghost use Rattle.std.specs.Prelude.{◌≡◌, ◌++◌, IfOk, Some, string_bytes};
ghost use Rattle.report_form.specs.Judged.{CanBeJudged};
ghost use Rattle.report_page.specs.Cards.{answered, asked_card, asked_for, cards, found_cards, limit_card, lux_text, page_verdicts, share_text, sign, signed_word};

use crate::fixed::push_fixed;
use decimal_text::{Hundredths, Thousandths};
use limit_verdict::{Verdict, Verdicts, verdicts};
use report_form::{Printed, Report};
use room_layout::Room;
use std::alloc::AllocError;
use std::fmt;

/// The printed ends of an illuminance.
#[derive(Clone, Copy)]
struct Lux(Printed);

impl fmt::Display for Lux {
    ghost output = { λ e. Some (lux_text e.0) };

    fn fmt<W: fmt::Write>(&self, f: &mut fmt::Formatter<W>) -> fmt::Result {
        write!(
            f,
            "{} to {} lx",
            Hundredths(self.0.lo),
            Hundredths(self.0.hi)
        )
    }
}

/// The printed ends of the uniformity, or that there are none.
#[derive(Clone, Copy)]
struct Share(Option<Printed>);

impl fmt::Display for Share {
    ghost output = { λ e. Some (share_text e.0) };

    fn fmt<W: fmt::Write>(&self, f: &mut fmt::Formatter<W>) -> fmt::Result {
        match self.0 {
            None => write!(f, "none: the average may be 0"),
            Some(e) => write!(f, "{} to {}", Thousandths(e.lo), Thousandths(e.hi)),
        }
    }
}

/// The sign of a verdict.
#[derive(Clone, Copy)]
struct Sign(Verdict);

impl fmt::Display for Sign {
    ghost output = { λ v. Some (sign v.0) };

    fn fmt<W: fmt::Write>(&self, f: &mut fmt::Formatter<W>) -> fmt::Result {
        match self.0 {
            Verdict::Met => write!(f, "&#10003;"),
            Verdict::Missed => write!(f, "&#10007;"),
            Verdict::Undecided => write!(f, "?"),
        }
    }
}

/// The sign and the word of a verdict.
#[derive(Clone, Copy)]
struct SignedWord(Verdict);

impl fmt::Display for SignedWord {
    ghost output = { λ v. Some (signed_word v.0) };

    #[tactic(auto, unfolding(crate::specs::Cards::signed_word))]
    fn fmt<W: fmt::Write>(&self, f: &mut fmt::Formatter<W>) -> fmt::Result {
        write!(f, "{} {}", Sign(self.0), self.0)
    }
}

/// Adds the cards of what was found.
fn push_found(text: &mut String, report: &Report) -> Result<(), AllocError>
    ensures { IfOk result (λ _. string_bytes text.new ≡ string_bytes text.old ++ found_cards report.now) }
{
    write!(
        text,
        "<div><dt>Average</dt><dd>{}</dd></div>\n<div><dt>Uniformity</dt><dd>{}</dd></div>\n",
        Lux(report.average),
        Share(report.uniformity)
    )
}

/// Adds the beginning of a limit's card.
#[tactic(auto, unfolding(crate::specs::Cards::asked_for))]
fn push_asked_for(text: &mut String, title: &str, verdict: Verdict) -> Result<(), AllocError>
    ensures { IfOk result (λ _. string_bytes text.new ≡ string_bytes text.old ++ asked_for title.now verdict) }
{
    write!(
        text,
        "<div class='{verdict}'><dt>{title} asked for: at least "
    )
}

/// Adds the end of a limit's card. `least` is in thousandths.
#[tactic(auto, unfolding(crate::specs::Cards::answered))]
fn push_answered(
    text: &mut String,
    unit: &str,
    least: Thousandths,
    verdict: Verdict,
) -> Result<(), AllocError>
    ensures { IfOk result (λ _. string_bytes text.new ≡ string_bytes text.old ++ answered unit.now least.0 verdict) }
{
    let word = SignedWord(verdict);
    write!(text, "{least}{unit}</dt><dd>{word}</dd></div>\n")
}

/// Adds the card of a limit. `least` is in thousandths.
#[tactic(auto, using(plan_drawing::proofs::Growth::after), unfolding(crate::specs::Cards::asked_card))]
fn push_asked(
    text: &mut String,
    title: &str,
    unit: &str,
    least: u64,
    verdict: Verdict,
) -> Result<(), AllocError>
    ensures { IfOk result (λ _. string_bytes text.new ≡ string_bytes text.old ++ asked_card title.now unit.now least verdict) }
{
    push_asked_for(text, title, verdict)?;
    push_answered(text, unit, Thousandths(u128::from(least)), verdict)
}

/// Adds the card of a limit, where it is given. `least` is in thousandths.
fn push_limit(
    text: &mut String,
    title: &str,
    unit: &str,
    least: Option<u64>,
    verdict: Option<Verdict>,
) -> Result<(), AllocError>
    ensures { IfOk result (λ _. string_bytes text.new ≡ string_bytes text.old ++ limit_card title.now unit.now least verdict) }
{
    if let (Some(least), Some(verdict)) = (least, verdict) {
        push_asked(text, title, unit, least, verdict)?;
    }
    Ok(())
}

/// The verdicts on the room's limits, by the printed ends of its report.
fn page_verdicts(room: &Room, report: &Report) -> Verdicts
    requires judged { CanBeJudged report.now }
    ensures { result ≡ page_verdicts room.now report.now }
{
    let ends = report.ends();
    verdicts(
        &room.limits,
        ends.average_lo,
        ends.average_hi,
        ends.uniformity,
    )
}

/// The least uniformity that is asked for, in thousandths.
fn uniformity_limit(room: &Room) -> Option<u64>
    ensures { result ≡ room.now.limits.uniformity }
{
    room.limits.uniformity.map(u64::from)
}

/// Adds all cards.
#[tactic(auto, using(plan_drawing::proofs::Growth::after), unfolding(crate::specs::Cards::cards))]
pub(crate) fn push_cards(text: &mut String, room: &Room, report: &Report) -> Result<(), AllocError>
    requires judged { CanBeJudged report.now }
    ensures { IfOk result (λ _. string_bytes text.new ≡ string_bytes text.old ++ cards room.now report.now) }
{
    let verdicts = page_verdicts(room, report);
    let (average, share) = (room.limits.average, uniformity_limit(room));
    push_fixed(text, "<dl>\n")?;
    push_found(text, report)?;
    push_limit(text, "Average", " lx", average, verdicts.average)?;
    push_limit(text, "Uniformity", "", share, verdicts.uniformity)?;
    push_fixed(text, "</dl>\n")?;
    Ok(())
}
