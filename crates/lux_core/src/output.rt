//! A text that is written whole.
ghost use Rattle.std.specs.Prelude.{◌≡◌, ◌≢◌};
ghost use Rattle.lux_io.specs.Files.{with_bytes, AddsPrefix, Rose};

use crate::status::Status;
use lux_io::{Sink, put_all};

/// Writes a whole text; the status is the one given, or that the sink failed.
pub fn written<O: Sink>(out: &mut O, status: Status, text: &[u8]) -> Status
    requires { status ≢ Status.WriteFault }
    ensures whole { result ≢ Status.WriteFault → (result ≡ status) × (O.written out.new ≡ with_bytes (O.written out.old) text.now) }
    ensures cut_short { result ≡ Status.WriteFault → AddsPrefix (O.written out.old) (O.written out.new) text.now }
    ensures rose { result ≡ Status.WriteFault → Rose (O.faults out.old) (O.faults out.new) }
{
    match put_all(out, text) {
        Ok(()) => status,
        Err(_) => Status::WriteFault,
    }
}
