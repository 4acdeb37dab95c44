//! A whole text into a sink.
ghost use Rattle.std.specs.Prelude.{◌≡◌, OnOk, OnErr};
ghost use Rattle.lux_io.specs.Files.{AddsPrefix, HasCause, with_bytes};

use crate::Sink;

/// The sink failed before all bytes were written.
#[derive(Clone, Copy, Debug, PartialEq, Eq)]
pub struct PutFault;

/// Writes all bytes, in order. After a fault some of the first bytes are written, and not all.
pub fn put_all<O: Sink>(sink: &mut O, bytes: &[u8]) -> Result<(), PutFault>
    ensures written { OnOk result (O.written sink.new ≡ with_bytes (O.written sink.old) bytes.now) }
    ensures cut_short { OnErr result (AddsPrefix (O.written sink.old) (O.written sink.new) bytes.now) }
    ensures faults { HasCause (O.faults sink.old) (O.faults sink.new) result }
{
    let mut done = 0;
    while done < bytes.len() {
        match sink.write(&bytes[done..]) {
            Ok(count) => done += count,
            Err(_) => return Err(PutFault),
        }
    }
    Ok(())
}
