//! The value at a task point.
use fx_base::Span;

/// The illuminance at a task point, in lux; 0 where a box covers the point.
#[derive(Clone, Copy, Debug)]
pub struct PointValue {
    pub covered: bool,
    pub value: Span,
}
