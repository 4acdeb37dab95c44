//! What holds of text from outside in a page, as the contract of a function that does nothing.
ghost use Rattle.report_page.specs.Escaped.{EscapedIsPlain};

/// Escaped text has none of `<`, `>`, `"` and `'`, and each `&` of it begins one of the five references, whatever the text was.
pub fn escaped_is_plain()
    ensures { EscapedIsPlain }
{}
