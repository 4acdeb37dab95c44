//! What holds of the definitions in `specs/`, each as the contract of a function that does nothing.
ghost use Rattle.claim_file.specs.Fits.{ClaimIsRead, WrittenIsRead};

/// A text is read as a claim exactly where its records are a header and one record for each patch in order, as wide as the header: the
/// patch's number and its two bounds of at most 2^90 ticks, each in digits as it is written.
pub fn claim_is_read()
    ensures { ClaimIsRead }
{}

/// What is written of bounds is read again as the same bounds.
pub fn written_is_read()
    ensures { WrittenIsRead }
{}
