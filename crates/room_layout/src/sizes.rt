//! Sizes and reflectances from the numbers of a key.
ghost use Rattle.std.specs.Prelude.{◌≡◌, ℕ, ◌<◌, ◌≤◌, slice_index};
ghost use Rattle.room_layout.specs.Layout.{size_from, reflects_from, fits_in, is_above};

use crate::{Reflects, Size};

/// The size along x, y and z, in mm.
pub fn size_from(numbers: [u32; 3]) -> Size
    ensures { result ≡ size_from numbers }
{
    Size {
        x: numbers[0],
        y: numbers[1],
        z: numbers[2],
    }
}

/// The reflectances of floor, ceiling, and the walls at either end of x and of y, in thousandths.
pub fn reflects_from(numbers: [u32; 6]) -> Reflects
    requires { (k : ℕ) → k < 6 → slice_index numbers k ≤ 950 }
    ensures { result ≡ reflects_from numbers }
{
    Reflects {
        floor: numbers[0] as u16,
        ceiling: numbers[1] as u16,
        x0: numbers[2] as u16,
        x1: numbers[3] as u16,
        y0: numbers[4] as u16,
        y1: numbers[5] as u16,
    }
}

/// Whether the first passes the second on no axis.
pub fn fits_in(first: Size, second: Size) -> bool
    ensures { result ≡ fits_in first second }
{
    first.x <= second.x && first.y <= second.y && first.z <= second.z
}

/// Whether the first is above the second on every axis.
pub fn is_above(first: Size, second: Size) -> bool
    ensures { result ≡ is_above first second }
{
    first.x > second.x && first.y > second.y && first.z > second.z
}
