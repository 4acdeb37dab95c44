//! What is refused in a layout, and where.
ghost use Rattle.std.specs.Prelude.{◌≡◌, IfOk, Some, string_bytes};
ghost use Rattle.room_layout.specs.Checks.{spot};
ghost use Rattle.room_layout.specs.declared.fault.RoomFault.TheVariants.{Memory};
ghost use Rattle.room_layout.specs.FaultText.{key_text, is_indexed, spot_text, fault_text};

use std::alloc::{AllocError, AllocFailed, Global};
use std::fmt;

/// A key of the layout, in the order of version 1; `LampAim` is one of version 2 alone.
#[derive(Clone, Copy, Debug, PartialEq, Eq)]
pub enum Key {
    Version,
    Room,
    RoomSize,
    RoomReflect,
    RoomPatch,
    Box,
    BoxLo,
    BoxHi,
    BoxReflect,
    Lamp,
    LampAt,
    LampCandela,
    LampFile,
    LampSet,
    LampTurn,
    LampMaintenance,
    LampSize,
    LampSplit,
    Task,
    TaskFrom,
    TaskTo,
    TaskHeight,
    TaskPoints,
    Limits,
    LimitsAverageMillilux,
    LimitsUniformityPermille,
    LampAim,
}

/// A key, and the index of its box or lamp counted from 0. The index is 0 outside boxes and lamps.
#[derive(Clone, Copy, Debug, PartialEq, Eq)]
pub struct Spot {
    pub key: Key,
    pub index: u32,
}

/// Why a layout is refused.
#[derive(Clone, Copy, Debug, PartialEq, Eq)]
pub enum RoomFault {
    /// The bytes aren't UTF-8, or the text isn't TOML.
    NotToml,
    /// `version` isn't there, or isn't the integer 1 or 2.
    Version,
    /// A key that has to be there isn't.
    Missing(Spot),
    /// A table has a key that the layout doesn't know. The spot is the table's, or `version` for the document.
    Unknown(Spot),
    /// A value is of another kind than its key asks for.
    Kind(Spot),
    /// A number or a text is outside its range.
    Range(Spot),
    /// A box, a lamp or the task leaves the room.
    Outside(Spot),
    /// There are more boxes, lamps, pairs of file and set, or task points than the layout allows.
    TooMany(Spot),
    /// Want of memory. This says nothing about the text.
    Memory,
}

impl Key {
    /// The key's name, with the name of its table before it.
    pub fn text(&self) -> &'static str
        ensures { result.now ≡ key_text self.now }
    {
        match self {
            Key::Version => "version",
            Key::Room => "room",
            Key::RoomSize => "room.size",
            Key::RoomReflect => "room.reflect",
            Key::RoomPatch => "room.patch",
            Key::Box => "box",
            Key::BoxLo => "box.lo",
            Key::BoxHi => "box.hi",
            Key::BoxReflect => "box.reflect",
            Key::Lamp => "lamp",
            Key::LampAt => "lamp.at",
            Key::LampCandela => "lamp.candela",
            Key::LampFile => "lamp.file",
            Key::LampSet => "lamp.set",
            Key::LampTurn => "lamp.turn",
            Key::LampMaintenance => "lamp.maintenance",
            Key::LampSize => "lamp.size",
            Key::LampSplit => "lamp.split",
            Key::Task => "task",
            Key::TaskFrom => "task.from",
            Key::TaskTo => "task.to",
            Key::TaskHeight => "task.height",
            Key::TaskPoints => "task.points",
            Key::Limits => "limits",
            Key::LimitsAverageMillilux => "limits.average_millilux",
            Key::LimitsUniformityPermille => "limits.uniformity_permille",
            Key::LampAim => "lamp.aim",
        }
    }
}

impl Key {
    /// Whether the key is one of a box or a lamp, of which there may be several.
    pub fn is_indexed(&self) -> bool
        ensures { result ≡ is_indexed self.now }
    {
        matches!(
            self,
            Key::Box
                | Key::BoxLo
                | Key::BoxHi
                | Key::BoxReflect
                | Key::Lamp
                | Key::LampAt
                | Key::LampCandela
                | Key::LampFile
                | Key::LampSet
                | Key::LampTurn
                | Key::LampMaintenance
                | Key::LampSize
                | Key::LampSplit
                | Key::LampAim
        )
    }
}

impl Spot {
    /// The spot of a key outside boxes and lamps.
    pub fn of(key: Key) -> Spot
        ensures { result ≡ spot key 0 }
    {
        Spot { key, index: 0 }
    }

    /// The spot of a key of the box or lamp at this index.
    pub fn at(key: Key, index: u32) -> Spot
        ensures { result ≡ spot key index }
    {
        Spot { key, index }
    }
}

impl fmt::Display for Key {
    ghost output = { λ k. Some (key_text k) };

    fn fmt<W: fmt::Write>(&self, f: &mut fmt::Formatter<W>) -> fmt::Result {
        write!(f, "{}", self.text())
    }
}

impl fmt::Display for Spot {
    ghost output = { λ s. Some (spot_text s) };

    fn fmt<W: fmt::Write>(&self, f: &mut fmt::Formatter<W>) -> fmt::Result {
        if self.key.is_indexed() {
            write!(f, "{} {}", self.key.text(), self.index)
        } else {
            write!(f, "{}", self.key.text())
        }
    }
}

impl fmt::Display for RoomFault {
    ghost output = { λ e. Some (fault_text e) };

    fn fmt<W: fmt::Write>(&self, f: &mut fmt::Formatter<W>) -> fmt::Result {
        match self {
            RoomFault::NotToml => write!(f, "1 NotToml"),
            RoomFault::Version => write!(f, "2 Version"),
            RoomFault::Missing(spot) => write!(f, "3 Missing {spot}"),
            RoomFault::Unknown(spot) => write!(f, "4 Unknown {spot}"),
            RoomFault::Kind(spot) => write!(f, "5 Kind {spot}"),
            RoomFault::Range(spot) => write!(f, "6 Range {spot}"),
            RoomFault::Outside(spot) => write!(f, "7 Outside {spot}"),
            RoomFault::TooMany(spot) => write!(f, "8 TooMany {spot}"),
            RoomFault::Memory => write!(f, "Memory"),
        }
    }
}

impl RoomFault {
    /// The fault's number and name, and where it has one its spot. Want of memory is no refusal and has no number.
    pub fn text(&self, alloc: Global) -> Result<String, AllocError>
        ensures { IfOk result (λ s. string_bytes s ≡ fault_text self.now) }
    {
        let text = format!(in alloc; "{self}")?;
        Ok(text)
    }
}

impl From<AllocError> for RoomFault {
    ghost from_gives = { λ _ e. e ≡ Memory };

    fn from(_e: AllocError) -> RoomFault {
        RoomFault::Memory
    }
}

impl<T: Drop> From<AllocFailed<T>> for RoomFault {
    ghost from_gives = { λ _ e. e ≡ Memory };

    fn from(_e: AllocFailed<T>) -> RoomFault {
        RoomFault::Memory
    }
}
