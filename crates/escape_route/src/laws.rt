//! What holds of the lines of a route, as the contract of a function that does nothing.
ghost use Rattle.escape_route.specs.Laws.{RouteTextIsRight};

/// The printed least, greatest and ratio meet the exact ones at every depth, and lie in the loose ones moved outward by what rounding
/// adds; a ratio is printed where the loose least light is above 0; and the verdicts are those on the printed ends.
pub fn route_text_is_right()
    ensures { RouteTextIsRight }
{}
