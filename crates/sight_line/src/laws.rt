//! The law of sight: the function's clause is the law, and the function does nothing.
ghost use Rattle.sight_line.specs.Laws.{SightIsDecided};

/// The test over pairs of faces is true exactly where some point of the closed segment lies in the open inside of the box.
pub fn sight_law()
    ensures { SightIsDecided }
{}
