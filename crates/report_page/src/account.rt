//! What a page says of its numbers.
ghost use Rattle.std.specs.Prelude.{◌≡◌, ◌++◌, IfOk, string_bytes};
ghost use Rattle.report_page.specs.Account.{account, claim, model, model_edge, model_words, repetition};

use crate::escape::push_escaped;
use crate::fixed::push_fixed;
use plan_drawing::Metres;
use room_layout::Room;
use std::alloc::AllocError;

/// The kit by which this repository is proved, as its command `rt version` names it.
pub const KIT: &str = "rattle-kit-13f logic dac8208d650f15bf";

/// Adds what is proved, and what isn't.
#[tactic(auto, unfolding(crate::specs::Account::claim))]
fn push_claim(text: &mut String) -> Result<(), AllocError>
    ensures { IfOk result (λ _. string_bytes text.new ≡ string_bytes text.old ++ claim) }
{
    text.push_str(
        "<section class='account'>\n<h2>What the numbers are, and what is proved</h2>\n<p><b>Proved:</b> each printed interval meets, at every depth from 2, the enclosure of the exact value that the radiosity equations of this room give, and where these enclosures narrow to one number it holds that number; none is wider than stated amounts allow. No digit is off by rounding, by an iteration that stopped early or by floating point. A limit is met where the whole printed interval reaches it, missed where the whole interval lies below it, and else undecided; it is the designer's number and no standard's.</p>\n<p><b>Not proved:</b> that the layout describes the real room, that a real lamp shines as its number or its file says, and that the equations are the room's light.</p>\n",
    )
}

/// Adds how long the patches' edges are at most, in millimetres.
#[tactic(auto, unfolding(crate::specs::Account::model_edge))]
fn push_model_edge(text: &mut String, patch: u32) -> Result<(), AllocError>
    ensures { IfOk result (λ _. string_bytes text.new ≡ string_bytes text.old ++ model_edge patch) }
{
    write!(
        text,
        "<p>The equations are a model: surfaces are cut into patches with edges of at most {}",
        Metres(patch)
    )
}

/// Adds how near the equations come.
#[tactic(auto, unfolding(crate::specs::Account::model_words))]
fn push_model_words(text: &mut String) -> Result<(), AllocError>
    ensures { IfOk result (λ _. string_bytes text.new ≡ string_bytes text.old ++ model_words) }
{
    text.push_str(
        " m, each of one illuminance, which hand light on between their middles and reflect it evenly in all directions. Where lamps hang clear of the surfaces, averages came within 3 per cent of a path tracer's with coarse patches, and within 1 per cent with finer ones. Where a lamp shines on a surface from less than about a patch edge away, the numbers depend on where the patches lie: compare them with those of smaller patches.</p>\n",
    )
}

/// Adds how near the equations come to a room's light, by patches with edges of so many millimetres at most.
#[tactic(auto, using(plan_drawing::proofs::Growth::after), unfolding(crate::specs::Account::model))]
fn push_model(text: &mut String, patch: u32) -> Result<(), AllocError>
    ensures { IfOk result (λ _. string_bytes text.new ≡ string_bytes text.old ++ model patch) }
{
    push_model_edge(text, patch)?;
    push_model_words(text)
}

/// Adds what a reviewer calls.
#[tactic(auto, using(plan_drawing::proofs::Growth::after), unfolding(crate::specs::Account::repetition))]
fn push_repetition(text: &mut String, name: &str) -> Result<(), AllocError>
    ensures { IfOk result (λ _. string_bytes text.new ≡ string_bytes text.old ++ repetition name.now) }
{
    push_fixed(text, "<p>Checked with <code>")?;
    push_fixed(text, KIT)?;
    push_fixed(
        text,
        "</code>. To repeat it, with the room's file and its photometric files in one folder: <code>lux report ",
    )?;
    push_escaped(text, name)?;
    push_fixed(
        text,
        "</code> prints the same intervals, <code>lux certify ",
    )?;
    push_escaped(text, name)?;
    push_fixed(
        text,
        " &gt; claim.csv</code> writes bounds of the light of every patch, and <code>lux check ",
    )?;
    push_escaped(text, name)?;
    push_fixed(text, " claim.csv</code> checks them without solving.</p>\n")?;
    Ok(())
}

/// Adds what is proved of the numbers and what isn't, how near their equations come, and how to repeat them; and ends the page.
#[tactic(auto, using(plan_drawing::proofs::Growth::after), unfolding(crate::specs::Account::account))]
pub(crate) fn push_account(text: &mut String, name: &str, room: &Room) -> Result<(), AllocError>
    ensures { IfOk result (λ _. string_bytes text.new ≡ string_bytes text.old ++ account name.now room.now) }
{
    push_claim(text)?;
    push_model(text, room.patch)?;
    push_repetition(text, name)?;
    push_fixed(text, "</section>\n</body>\n</html>\n")?;
    Ok(())
}
