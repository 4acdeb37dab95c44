//! Words that stand in every page.
ghost use Rattle.std.specs.Prelude.{◌≡◌, ◌++◌, IfOk, string_bytes};
ghost use Rattle.report_page.specs.Fixed.{fixed, table_end};

use std::alloc::AllocError;

/// Adds these words, as they are.
#[tactic(auto, unfolding(crate::specs::Fixed::fixed))]
pub(crate) fn push_fixed(text: &mut String, words: &str) -> Result<(), AllocError>
    ensures { IfOk result (λ _. string_bytes text.new ≡ string_bytes text.old ++ fixed words.now) }
{
    text.push_str(words)
}

/// Adds the end of a table.
pub(crate) fn push_table_end(text: &mut String) -> Result<(), AllocError>
    ensures { IfOk result (λ _. string_bytes text.new ≡ string_bytes text.old ++ table_end) }
{
    push_fixed(text, "</tbody>\n</table></div>\n")
}
