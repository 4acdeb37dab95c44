//! What holds of shares at every depth, each law as the contract of a function that does nothing.

ghost use Rattle.direct_light.specs.Laws.{ExactIsOrdered, LampShareIsInOrder, NarrowHasExact, SeenIsInOrder, ShareIsInOrder};

/// The exact table that a table stands for has intensities in order.
pub fn exact_is_ordered()
    ensures { ExactIsOrdered }
{}

/// The lower end of the intensity in which a place is seen is at most its upper end, and so it is in the loose form.
pub fn seen_is_in_order()
    ensures { SeenIsInOrder }
{}

/// The lower end of a share is at most its upper end where that of the intensity is, and so it is in the loose form.
pub fn share_is_in_order()
    ensures { ShareIsInOrder }
{}

/// The lower end of the share of a lamp as it shines is at most its upper end, and so it is in the loose form.
pub fn lamp_share_is_in_order()
    ensures { LampShareIsInOrder }
{}

/// A table of intensities whose ends are ticks, and that are no wider than one, is some exact table rounded down and up to a tick, so
/// that the clauses on exact tables say something of it.
pub fn narrow_has_exact()
    ensures { NarrowHasExact }
{}
