//! Laws of the layout: each function's clause is the law, and the function does nothing.
ghost use Rattle.room_layout.specs.Kept.{KeepsAccepted};
ghost use Rattle.room_layout.specs.Laws.{GivesAccepted, GivesFiles, IgnoresOrder};

/// A room that the layout gives is within every range and limit.
pub fn gives_accepted()
    ensures { GivesAccepted }
{}

/// A room that the layout gives has each pair of file and lamp set that its lamps use once, in order of first use, and a lamp that
/// shines by a file has the name and the set that its table in the document gives.
pub fn gives_files()
    ensures { GivesFiles }
{}

/// Documents that are the same but for the order of their keys, at every level, give the same answer.
pub fn ignores_order()
    ensures { IgnoresOrder }
{}

/// With some of its lamps an accepted room is still accepted.
pub fn keeps_accepted()
    ensures { KeepsAccepted }
{}
