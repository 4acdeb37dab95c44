//! Text from outside.
ghost use Rattle.std.specs.Prelude.{◌≡◌, ◌++◌, IfOk, flat_map, string_bytes};
ghost use Rattle.std.specs.Char.{encode_utf8};
ghost use Rattle.report_page.specs.Escaped.{escape, escaped};

use std::alloc::AllocError;

/// Adds a character, or the reference that stands for it.
#[tactic(auto, using(crate::proofs::Escapes::as_it_is))]
fn push_character(text: &mut String, c: char) -> Result<(), AllocError>
    ensures { IfOk result (λ _. string_bytes text.new ≡ string_bytes text.old ++ flat_map escape (encode_utf8 c)) }
{
    if c == '&' {
        text.push_str("&amp;")
    } else if c == '<' {
        text.push_str("&lt;")
    } else if c == '>' {
        text.push_str("&gt;")
    } else if c == '"' {
        text.push_str("&quot;")
    } else if c == '\'' {
        text.push_str("&#39;")
    } else {
        text.push(c)
    }
}

/// Adds text from outside, with each character that could be taken for markup as a reference.
pub(crate) fn push_escaped(text: &mut String, outside: &str) -> Result<(), AllocError>
    ensures { IfOk result (λ _. string_bytes text.new ≡ string_bytes text.old ++ escaped outside.now) }
{
    for c in outside.chars() {
        push_character(text, c)?;
    }
    Ok(())
}
