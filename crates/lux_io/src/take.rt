//! A whole file from a shelf.
ghost use Rattle.std.specs.Prelude.{◌≡◌, ◌≢◌, ◌↔◌, ◌+◌, ◌^◌, ◌<◌, ◌≤◌, length, vec_len, IfOk, IfSome, IsSomeAnd};
ghost use Rattle.lux_io.specs.Files.{bytes_of, Counted, Stood};

use crate::{OpenFault, ReadFailed, Shelf};
use std::alloc::{AllocError, Global};

/// Why a file can't be taken.
#[derive(Clone, Copy, Debug, PartialEq, Eq)]
pub enum TakeFault {
    /// There is no file of this name.
    Absent,
    /// The shelf failed.
    Failed,
    /// The file has more bytes than the limit.
    TooLong,
    /// No memory was left for the bytes.
    Memory,
}

impl From<OpenFault> for TakeFault {
    ghost use Rattle.lux_io.specs.Faults.{of_open};

    ghost from_gives = { λ fault result. result ≡ of_open fault };

    fn from(fault: OpenFault) -> Self {
        match fault {
            OpenFault::Absent => TakeFault::Absent,
            OpenFault::Failed => TakeFault::Failed,
        }
    }
}

impl From<ReadFailed> for TakeFault {
    ghost use Rattle.lux_io.specs.declared.take.TakeFault.TheVariants.{Failed};

    ghost from_gives = { λ _ result. result ≡ Failed };

    fn from(_: ReadFailed) -> Self {
        TakeFault::Failed
    }
}

impl From<AllocError> for TakeFault {
    ghost use Rattle.lux_io.specs.declared.take.TakeFault.TheVariants.{Memory};

    ghost from_gives = { λ _ result. result ≡ Memory };

    fn from(_: AllocError) -> Self {
        TakeFault::Memory
    }
}

/// How many bytes a read asks for at most.
const PIECE: usize = 4096;

/// The whole file of this name, if it has at most `limit` bytes. At most one byte more than that is taken.
pub fn take_file<S: Shelf>(
    alloc: Global,
    shelf: &mut S,
    name: &str,
    limit: usize,
) -> Result<Vec<u8>, TakeFault>
    requires { limit < 2 ^ 31 }
    ensures files { S.files shelf.new ≡ S.files shelf.old }
    ensures whole { IfOk result (λ bytes. vec_len bytes ≤ limit) }
    ensures taken { IfOk result (λ bytes. S.taken shelf.new ≡ vec_len bytes) }
    ensures told { IfOk result (λ bytes. IfSome (S.files shelf.old) (λ fs. bytes_of name.now fs ≡ Some bytes.items)) }

    // The file is too long exactly where one byte more than the limit was taken. With told files and no fault that is
    // exactly where the file is longer than the limit.
    ensures too_long { (result ≡ Err TakeFault.TooLong) ↔ (S.taken shelf.new ≡ limit + 1) }
    ensures too_long_told { result ≡ Err TakeFault.TooLong →
        IfSome (S.files shelf.old) (λ fs. IsSomeAnd (bytes_of name.now fs) (λ bytes. limit < length bytes)) }
    ensures too_long_found { result ≢ Err TakeFault.Memory → Stood (S.faults shelf.old) (S.faults shelf.new) →
        IfSome (S.files shelf.old) (λ fs. IfSome (bytes_of name.now fs) (λ bytes.
        limit < length bytes → result ≡ Err TakeFault.TooLong)) }
    ensures budget { S.taken shelf.new ≤ limit + 1 }

    // The name isn't in told files; and where it isn't and no fault came, this is the answer.
    ensures absent_told { result ≡ Err TakeFault.Absent →
        IfSome (S.files shelf.old) (λ fs. bytes_of name.now fs ≡ None) }
    ensures absent_found { Stood (S.faults shelf.old) (S.faults shelf.new) →
        IfSome (S.files shelf.old) (λ fs. bytes_of name.now fs ≡ None → result ≡ Err TakeFault.Absent) }

    ensures absences { Counted (S.absences shelf.old) (S.absences shelf.new) (result ≡ Err TakeFault.Absent) }
    ensures faults { Counted (S.faults shelf.old) (S.faults shelf.new) (result ≡ Err TakeFault.Failed) }
{
    shelf.open(name)?;
    let mut bytes = Vec::new(alloc);
    let mut piece = [0u8; PIECE];
    loop {
        let room = (limit + 1 - bytes.len()).min(PIECE);
        let count = shelf.read(&mut piece[..room])?;
        if count == 0 {
            return Ok(bytes);
        }
        // A file that is too long is told so before its bytes want memory.
        if count > limit - bytes.len() {
            return Err(TakeFault::TooLong);
        }
        bytes.extend_from_slice(&piece[..count])?;
    }
}
