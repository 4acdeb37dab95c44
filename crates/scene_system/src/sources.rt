//! What lights the places of a room.
use crate::lamps::LampPoints;
use crate::receiver::Receiver;
use patch_mesh::Patch;
use photo_table::PhotoTable;
use room_layout::Room;
use series_enclose::TangentTable;
use sight_index::SightIndex;

/// What lights the places of a room: its patches, and its lamps by the tables of its files.
#[derive(Drop)]
pub struct Sources<'a> {
    pub room: &'a Room,
    /// The index of the room's boxes.
    pub index: &'a SightIndex,
    pub patches: &'a [Patch],
    /// The patches as what is lit.
    pub lit: &'a [Receiver],
    /// The points of the lamps.
    pub lamps: &'a [LampPoints],
    pub table: &'a TangentTable,
    pub photos: &'a [PhotoTable],
}
