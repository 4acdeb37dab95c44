//! What is left of a segment between the planes of a box, in whole numbers. A point inside the segment is given by the ratio of its
//! weights at the two ends, so a point nearer the end has the larger ratio, and the ends themselves need no bound of their own: where
//! an end lies in the open inside of a box, so do points beside it.
ghost use Rattle.std.specs.Prelude.{◌≡◌, ◌+◌, ◌<◌, ◌≤◌};

/// The ratio of the weight at the end of a segment to the weight at its start, as `over` to `under`. A product of two such numbers is at
/// most 4 * 10^10, which 32 bits don't hold.
#[derive(Clone, Copy)]
pub struct WeightRatio {
    pub over: u64,
    pub under: u64,
    ghost small_over: { over ≤ 200000 },
    ghost small_under: { under ≤ 200000 },
}

/// The points whose ratio lies strictly between two bounds: `above` the first and `below` the second. Every ratio is below 1 to 0.
#[derive(Clone, Copy)]
pub struct Window {
    pub above: WeightRatio,
    pub below: WeightRatio,
}

/// How far the two ends of a segment lie inside a face of a box and how far outside, in half millimetres. Where they lie on different
/// sides of the face, their distances add up to what the segment runs along the axis.
#[derive(Clone, Copy)]
pub struct Side {
    pub from_in: u64,
    pub from_out: u64,
    pub to_in: u64,
    pub to_out: u64,
    ghost from_apart: { 0 < from_in → from_out ≡ 0 },
    ghost to_apart: { 0 < to_in → to_out ≡ 0 },
    ghost leaves: { 0 < from_in → to_in ≡ 0 → from_in + to_out ≤ 200000 },
    ghost enters: { 0 < to_in → from_in ≡ 0 → from_out + to_in ≤ 200000 },
}

/// The whole segment without its ends.
pub const WHOLE: Window = Window {
    above: WeightRatio { over: 0, under: 1 },
    below: WeightRatio { over: 1, under: 0 },
};
