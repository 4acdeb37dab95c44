//! What holds of the definitions in `specs/`, each as the contract of a function that does nothing.
ghost use Rattle.lm63_read.specs.Grammar.{FileIsFit, IesIsFit};

/// A file's items are read exactly where they fit the grammar, and then to what they say. So a file that fits says one thing.
pub fn ies_is_fit()
    ensures { IesIsFit }
{}

/// A whole file is read exactly where its first line, its `TILT=` line and its items fit, and then to what they say.
pub fn file_is_fit()
    ensures { FileIsFit }
{}
