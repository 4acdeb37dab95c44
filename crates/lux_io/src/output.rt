//! Standard output.
ghost use Rattle.std.specs.Prelude.{◌≡◌, None};

use crate::count::count_one;
use crate::{Sink, WriteFailed};

///! Standard output. It doesn't tell what was written. A call that takes nothing of a piece that isn't empty is a fault.
#[derive(Drop)]
pub struct OutSink<'a, R: Print> {
    rt: &'a R,
    faults: u64,
}

impl<R: Print> OutSink<'_, R> {
    ghost use Rattle.lux_io.specs.Adapters.{output_faults};

    /// The output of this runtime.
    pub fn new(rt: &R) -> OutSink<'_, R>
        ensures faults { output_faults result ≡ 0 }
    {
        OutSink { rt, faults: 0 }
    }
}

impl<R: Print> Sink for OutSink<'_, R> {
    ghost use Rattle.lux_io.specs.Adapters.{output_faults};

    ghost written = { λ _. None };

    ghost faults = { λ sink. output_faults sink };

    fn write(&mut self, piece: &[u8]) -> Result<usize, WriteFailed> {
        if let Ok(count) = self.rt.write_some(piece) {
            if count > 0 || piece.is_empty() {
                return Ok(count);
            }
        }
        count_one(&mut self.faults);
        Err(WriteFailed)
    }
}
