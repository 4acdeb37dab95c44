//! What a room must keep to so that it has a scene.
ghost use Rattle.std.specs.Prelude.{◌≡◌, ◌≤◌, All, IfOk, length, map, sum_by};
ghost use Rattle.room_layout.specs.Accepted.{IsAccepted, IsShine};
ghost use Rattle.scene_system.specs.Assembled.{open_points};
ghost use Rattle.scene_system.specs.Causes.{greatest_ticks, greatest_total, total_ticks};
ghost use Rattle.scene_system.specs.Tables.{AreKept, IsKeptTable, ticks_by};

use fx_base::{Memory, magnitude};
use patch_mesh::TaskPoint;
use photo_table::PhotoTable;
use room_layout::{Lamp, Room, Shine};
use std::alloc::Global;

/// The greatest upper end of a table, in ticks of a candela.
fn greatest_of(photo: &PhotoTable) -> u64
    ensures greatest { result ≡ greatest_ticks photo.now }
    ensures kept { IsKeptTable photo.now }
    ensures most { result ≤ greatest_total }
{
    magnitude(photo.greatest()) as u64
}

/// The greatest upper end of each table.
fn greatest_of_all(alloc: Global, photos: &[PhotoTable]) -> Result<Vec<u64>, Memory>
    ensures ticks { IfOk result (λ v. v.items ≡ map greatest_ticks photos.now) }
    ensures most { IfOk result (λ v. All (λ n. n ≤ greatest_total) v.items) }
    ensures kept { IfOk result (λ _. AreKept photos.now) }
{
    let mut all = Vec::new(alloc);
    for photo in photos {
        all.push(greatest_of(photo))?;
    }
    Ok(all)
}

/// The greatest intensity of a lamp, in ticks of a candela, by those of the room's files.
fn ticks_by(files: &[u64], lamp: &Lamp) -> u64
    requires shine { IsShine (length files.now) lamp.now.shine }
    requires most { All (λ n. n ≤ greatest_total) files.now }
    ensures ticks { result ≡ ticks_by files.now lamp.now }
    ensures most { result ≤ greatest_total }
{
    match lamp.shine {
        Shine::Even(candela) => candela as u64 * 68_719_476_736,
        Shine::File(number) => files[number as usize],
    }
}

/// The greatest intensities of all lamps together, in ticks of a candela, by those of the room's files.
fn total_by(files: &[u64], room: &Room) -> u128
    requires accepted { IsAccepted room.now }
    requires files { length files.now ≡ length room.now.files }
    requires most { All (λ n. n ≤ greatest_total) files.now }
    ensures { result ≡ sum_by (ticks_by files.now) room.now.lamps }
{
    let mut total = 0;
    for lamp in room.lamps.as_slice() {
        total += ticks_by(files, lamp) as u128;
    }
    total
}

/// The greatest intensities of all lamps together, in ticks of a candela, where `photos` are the tables of the room's files.
pub fn total_ticks(alloc: Global, room: &Room, photos: &[PhotoTable]) -> Result<u128, Memory>
    requires accepted { IsAccepted room.now }
    requires photos { length photos.now ≡ length room.now.files }
    ensures total { IfOk result (λ t. t ≡ total_ticks photos.now room.now) }
    ensures kept { IfOk result (λ _. AreKept photos.now) }
{
    let files = greatest_of_all(alloc, photos)?;
    let total = total_by(files.as_slice(), room);
    Ok(total)
}

/// How many task points no box covers.
pub fn open_points(points: &[TaskPoint]) -> usize
    ensures { result ≡ open_points points.now }
{
    let mut open = 0;
    for point in points {
        if !point.covered {
            open += 1;
        }
    }
    open
}
