//! Files from the shelf, and what is said of one that isn't taken from it.
ghost use Rattle.std.specs.Prelude.{IfOk};
ghost use Rattle.lux_core.specs.Untaken.{IsFaultAnswer};

use crate::reply::Reply;
use crate::status::Status;
use fx_base::Memory;
use lux_io::TakeFault;
use std::alloc::Global;

/// The greatest number of bytes of a file.
pub const LONGEST_FILE: usize = 16_777_216;

/// The answer to a file that wasn't taken.
pub fn reply_to_fault(alloc: Global, name: &str, fault: TakeFault) -> Result<Reply, Memory>
    ensures { IfOk result (λ r. IsFaultAnswer name.now fault r.status r.text.items) }
{
    match fault {
        TakeFault::Absent => {
            let text = format!(in alloc; "refused {name} Absent\n")?;
            Ok(Reply::refused(text))
        }
        TakeFault::TooLong => {
            let text = format!(in alloc; "refused {name} TooLong\n")?;
            Ok(Reply::refused(text))
        }
        TakeFault::Failed => {
            let text = format!(in alloc; "read fault {name}\n")?;
            Ok(Reply::new(Status::ReadFault, text))
        }
        TakeFault::Memory => Err(Memory),
    }
}
