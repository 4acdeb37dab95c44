//! A room and what is in it. Its lists of boxes, lamps and files are of one type, which contracts see as a list.
ghost use Rattle.std.specs.Prelude.{◌≡◌, IfOk, length};

use crate::{Face, Size};
use std::alloc::{AllocError, Global};
use std::marker::Model;

/// A box, between its lowest and its highest corner in millimetres. `reflect` is in thousandths.
#[derive(Clone, Copy, Debug, PartialEq, Eq)]
pub struct Block {
    pub lo: Size,
    pub hi: Size,
    pub reflect: u16,
}

/// How a lamp shines: evenly in all directions with an intensity in candela, or as the file at an index of the room's files says.
#[derive(Clone, Copy, Debug, PartialEq, Eq)]
pub enum Shine {
    Even(u32),
    File(u32),
}

/// A lamp. Its middle is `at`, in millimetres; `turn` is in degrees and `maintenance` in thousandths. `aim` is the face whose normal is
/// the way in which gamma 0 leads: `Down` is the aim of a lamp that hangs. It shines from a rectangle of `size_x` by `size_y`
/// millimetres, which `split_x` by `split_y` points stand for; x and y stand here for the first and the second of the two axes across
/// the aim, in the order x, y, z.
#[derive(Clone, Copy, Debug, PartialEq, Eq)]
pub struct Lamp {
    pub at: Size,
    pub shine: Shine,
    pub turn: u16,
    pub maintenance: u16,
    pub size_x: u32,
    pub size_y: u32,
    pub split_x: u32,
    pub split_y: u32,
    pub aim: Face,
}

/// A file's name: 1 to 255 bytes of text without control characters. Contracts see its bytes.
#[derive(Debug, Drop)]
pub struct Name {
    text: String,
}

impl Model for Name {
    ghost use Rattle.std.specs.Prelude.{List, ℕ, string_bytes};

    ghost Value = { List ℕ };

    ghost view = { λ n. string_bytes n.text };
}

impl Name {
    /// A copy of the text.
    pub fn from_text(alloc: Global, text: &str) -> Result<Name, AllocError>
        ensures { IfOk result (λ n. n ≡ text.now) }
    {
        let text = String::from_str(alloc, text)?;
        Ok(Name { text })
    }

    /// The text.
    pub fn text(&self) -> &str
        ensures { result.now ≡ self.now }
    {
        self.text.as_str()
    }
}

/// A photometric file and which of its lamp sets is used, counted from 1.
#[derive(Debug, Drop)]
pub struct FileUse {
    pub name: Name,
    pub set: u32,
}

/// The reflectances of the room's own surfaces, in thousandths: floor, ceiling, and the walls at either end of x and of y.
#[derive(Clone, Copy, Debug, PartialEq, Eq)]
pub struct Reflects {
    pub floor: u16,
    pub ceiling: u16,
    pub x0: u16,
    pub x1: u16,
    pub y0: u16,
    pub y1: u16,
}

/// The grid of task points: `nx` by `ny` points in a rectangle at a height, in millimetres.
#[derive(Clone, Copy, Debug, PartialEq, Eq)]
pub struct TaskGrid {
    pub from_x: u32,
    pub from_y: u32,
    pub to_x: u32,
    pub to_y: u32,
    pub height: u32,
    pub nx: u32,
    pub ny: u32,
}

/// What is asked of the grid: the least average in thousandths of a lux, and the least uniformity in thousandths.
#[derive(Clone, Copy, Debug, PartialEq, Eq)]
pub struct Limits {
    pub average: Option<u64>,
    pub uniformity: Option<u32>,
}

/// A room. `patch` is the longest edge of a patch in millimetres. `files` has each pair of file and lamp set once, in order of first use.
#[derive(Debug, Drop)]
pub struct Room {
    pub size: Size,
    pub reflect: Reflects,
    pub patch: u32,
    pub blocks: Blocks,
    pub lamps: Lamps,
    pub files: FileUses,
    pub task: TaskGrid,
    pub limits: Limits,
}

/// Values in the order of the layout. Contracts see it as their list.
#[derive(Debug, Drop)]
pub struct Listed<T> {
    kept: Vec<T>,
}

impl<T> Model for Listed<T> {
    ghost use Rattle.std.specs.Prelude.{List};

    ghost Value = { List T };

    ghost view = { λ l. l.kept.items };
}

impl<T> Listed<T> {
    /// The list of these, in their order.
    pub fn from_vec(values: Vec<T>) -> Listed<T>
        ensures { result ≡ values.items }
    {
        Listed { kept: values }
    }

    /// What it lists, in order.
    pub fn into_vec(self) -> Vec<T>
        ensures { result.items ≡ self }
    {
        self.kept
    }

    /// What it lists, in order, without taking it away.
    pub fn as_slice(&self) -> &[T]
        ensures { result.now ≡ self.now }
    {
        self.kept.as_slice()
    }

    /// How many it lists.
    pub fn len(&self) -> usize
        ensures { result ≡ length self.now }
    {
        self.kept.len()
    }
}

/// The boxes of a room.
pub type Blocks = Listed<Block>;

/// The lamps of a room.
pub type Lamps = Listed<Lamp>;

/// The distinct pairs of file and lamp set that a room's lamps use, in order of first use.
pub type FileUses = Listed<FileUse>;
