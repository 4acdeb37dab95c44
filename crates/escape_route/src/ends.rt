//! The light of a route.
use fx_base::Span;

/// The least and the greatest light along a route, in ticks of a lux.
#[derive(Clone, Copy, Debug)]
pub struct Extremes {
    pub least: Span,
    pub greatest: Span,
}
