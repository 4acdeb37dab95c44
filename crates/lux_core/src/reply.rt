//! What a run answers.
ghost use Rattle.std.specs.Prelude.{◌≡◌, string_bytes};
ghost use Rattle.lux_core.specs.declared.reply.Halt.TheVariants as Halt;

use crate::status::Status;
use fx_base::Memory;
use std::alloc::AllocFailed;

/// How a run ends, and the text that it writes.
#[derive(Drop)]
pub struct Reply {
    pub status: Status,
    pub text: Vec<u8>,
}

impl Reply {
    /// The answer of this status, with this text.
    pub fn new(status: Status, text: String) -> Reply
        ensures status { result.status ≡ status }
        ensures text { result.text.items ≡ string_bytes text }
    {
        Reply {
            status,
            text: text.into_bytes(),
        }
    }

    /// The line of an input that is refused.
    pub fn refused(text: String) -> Reply
        ensures status { result.status ≡ Status.Refused }
        ensures text { result.text.items ≡ string_bytes text }
    {
        Reply::new(Status::Refused, text)
    }
}

/// Why what was read gives no value.
#[derive(Drop)]
pub enum Halt {
    /// A file stands in the way, and this is said of it.
    Said(Reply),
    /// No memory was left.
    Memory,
}

impl From<Memory> for Halt {
    ghost from_gives = { λ _ halt. halt ≡ Halt.Memory };

    fn from(_: Memory) -> Self {
        Halt::Memory
    }
}

impl<T: Drop> From<AllocFailed<T>> for Halt {
    ghost from_gives = { λ _ halt. halt ≡ Halt.Memory };

    fn from(_failed: AllocFailed<T>) -> Self {
        Halt::Memory
    }
}
