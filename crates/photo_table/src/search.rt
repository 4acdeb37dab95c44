//! Angles as whole numbers, and how many of them are at most a given one.
ghost use Rattle.std.specs.Prelude.{◌≡◌, ℕ, ◌+◌, ◌-◌, ◌*◌, ◌/◌, ◌^◌, ◌<◌, ◌≤◌, ◌≤ℤ◌, pos, length, map, slice_index_or};
ghost use Rattle.fx_base.specs.declared.Micro.{Micro};
ghost use Rattle.fx_base.specs.Units.{natural};
ghost use Rattle.photo_table.specs.Kept.{angle_of};

use fx_base::Micro;

/// An angle in millionths of a degree.
pub fn angle(m: Micro) -> u64
    requires { pos 0 ≤ℤ m.0 }
    ensures { result ≡ natural m.0 }
{
    m.0 as u64
}

/// The angle i in millionths of a degree.
#[tactic(auto, using(crate::proofs::Lists::angle_read))]
pub fn angle_at(angles: &[Micro], i: usize) -> u64
    requires within { i < length angles.now }
    requires not_negative { (k : ℕ) (d : Micro) → k < length angles.now → pos 0 ≤ℤ (slice_index_or angles.now k d).0 }
    ensures { result ≡ slice_index_or (map angle_of angles.now) i 0 }
{
    angle(angles[i])
}

/// How many of the rising angles are at most x, by halves.
pub fn count_up_to(angles: &[Micro], x: u64) -> usize
    requires not_negative { (k : ℕ) (d : Micro) → k < length angles.now → pos 0 ≤ℤ (slice_index_or angles.now k d).0 }
    requires rising { (i j : ℕ) → i < j → j < length angles.now → slice_index_or (map angle_of angles.now) i 0 < slice_index_or (map angle_of angles.now) j 0 }
    ensures few { result ≤ length angles.now }
    ensures up_to { (i : ℕ) → i < result → slice_index_or (map angle_of angles.now) i 0 ≤ x }
    ensures above { (i : ℕ) → result ≤ i → i < length angles.now → x < slice_index_or (map angle_of angles.now) i 0 }
{
    let mut low = 0;
    let mut high = angles.len();
    while low < high {
        let middle = low + (high - low) / 2;
        if angle_at(angles, middle) <= x {
            low = middle + 1;
        } else {
            high = middle;
        }
    }
    low
}
