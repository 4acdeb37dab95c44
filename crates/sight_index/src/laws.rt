//! What holds of the definitions in `specs/`, each as the contract of a function that does nothing.
ghost use Rattle.sight_index.specs.Laws.{AnswersAgree, MetIsNear};

/// A box that a segment between two points of the room meets is near it.
pub fn met_is_near()
    ensures { MetIsNear }
{}

/// With truth values that say which boxes the segment meets, as those of a `BlockProbe` do, the answer of an index is that of the plain
/// `sight_line::blocked_by`.
pub fn answers_agree()
    ensures { AnswersAgree }
{}
