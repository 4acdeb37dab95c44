//! What holds of the definitions in `specs/`, each as the contract of a function that does nothing.
ghost use Rattle.eulumdat_read.specs.Grammar.{LdtIsFit};

/// The lines of a file are read for a lamp set exactly where they fit the grammar, and then to what they say. So lines that fit
/// say one thing.
pub fn ldt_is_fit()
    ensures { LdtIsFit }
{}
