//! The numbers of a room.
use fx_base::Span;
use interval_system::{IntervalSystem, Row};
use patch_mesh::{Patch, TaskPoint};

/// A room in numbers: its patches and task points, the radiosity equations of the patches, and for each task point the weights with
/// which the patches light it and the light that the lamps send there, in ticks of 2^-36 lux.
#[derive(Debug, Drop)]
pub struct Scene {
    pub patches: Vec<Patch>,
    pub points: Vec<TaskPoint>,
    pub system: IntervalSystem,
    pub point_rows: Vec<Row>,
    pub point_direct: Vec<Span>,
}
