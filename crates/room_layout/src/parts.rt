//! Parts of a room as they are read.

use crate::version::Version;
use crate::{Face, FileUses, Lamps, Reflects, Size};

/// The layout's version, and what the table `room` says: the room's edges, its reflectances, and the longest edge of a patch in millimetres.
#[derive(Clone, Copy)]
pub struct Shell {
    pub version: Version,
    pub size: Size,
    pub reflect: Reflects,
    pub patch: u32,
}

/// What the keys of a lamp say of its light: its intensity in candela, the name of its file, and which lamp set of the file is used.
#[derive(Clone, Copy)]
pub struct Source<'a> {
    pub candela: Option<u32>,
    pub file: Option<&'a str>,
    pub set: u32,
}

/// How a lamp is put up: `turn` in degrees, `maintenance` in thousandths, its rectangle in millimetres, how many points
/// stand for it, and the face whose normal is its aim.
#[derive(Clone, Copy)]
pub struct Fitting {
    pub turn: u16,
    pub maintenance: u16,
    pub size_x: u32,
    pub size_y: u32,
    pub split_x: u32,
    pub split_y: u32,
    pub aim: Face,
}

/// The lamps, and the files that they use in order of first use.
#[derive(Drop)]
pub struct Lit {
    pub lamps: Lamps,
    pub files: FileUses,
}
