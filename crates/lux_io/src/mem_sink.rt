//! A sink in memory, for tests: what was written is told, and it can be full or fail at chosen calls.
ghost use Rattle.std.specs.Prelude.{◌≡◌, ◌↔◌, ◌⊎◌, ◌+◌, ◌-◌, ◌^◌, ◌<◌, ◌≤◌, [], ◌++◌, length, take, min, Some, Contains, IfOk, OnOk, OnErr, IsErr, vec_len, vec_capacity};
ghost use Rattle.lux_io.specs.Files.{HasCause, one_more};

use crate::count::{count_one, next_call_fails};
use crate::{Sink, WriteFailed};
use fx_base::Memory;
use std::alloc::Global;

/// Bytes in memory. It tells them. Its writes are numbered from 0, and those with a number in a list fail, as do those that
/// find it full.
#[derive(Drop)]
pub struct MemSink {
    bytes: Vec<u8>,
    capacity: usize,
    failing: Vec<u64>,
    calls: u64,
    faults: u64,
    // There is room for all bytes from the start, so that a write wants no memory.
    ghost roomy: { capacity ≤ vec_capacity bytes },
    ghost within: { vec_len bytes ≤ capacity },
}

impl MemSink {
    ghost use Rattle.lux_io.specs.MemSink.{sink_bytes, sink_capacity, sink_failing, sink_calls, sink_faults};

    /// A sink without bytes that takes `capacity` bytes, and whose writes with these numbers fail.
    pub fn new(alloc: Global, capacity: usize, failing: &[u64]) -> Result<MemSink, Memory>
        ensures bytes { IfOk result (λ sink. sink_bytes sink ≡ []) }
        ensures capacity { IfOk result (λ sink. sink_capacity sink ≡ capacity) }
        ensures failing { IfOk result (λ sink. sink_failing sink ≡ failing.now) }
        ensures calls { IfOk result (λ sink. sink_calls sink ≡ 0) }
        ensures faults { IfOk result (λ sink. sink_faults sink ≡ 0) }
    {
        let failing = Vec::from_slice(alloc, failing)?;
        let bytes = Vec::with_capacity(alloc, capacity)?;
        Ok(MemSink {
            bytes,
            capacity,
            failing,
            calls: 0,
            faults: 0,
        })
    }

    /// The bytes written so far.
    pub fn bytes(&self) -> &[u8]
        ensures { result.now ≡ sink_bytes self.now }
    {
        &self.bytes
    }
}

impl Sink for MemSink {
    ghost use Rattle.lux_io.specs.MemSink.{sink_bytes, sink_capacity, sink_failing, sink_calls, sink_faults};

    ghost written = { λ sink. Some (sink_bytes sink) };

    ghost faults = { λ sink. sink_faults sink };

    fn write(&mut self, piece: &[u8]) -> Result<usize, WriteFailed>
        ensures bound { IfOk result (λ n. n ≤ length piece.now) }
        ensures some { 0 < length piece.now → IfOk result (λ n. 0 < n) }
        ensures bytes { IfOk result (λ n. sink_bytes self.new ≡ sink_bytes self.old ++ take n piece.now) }
        ensures none { OnErr result (sink_bytes self.new ≡ sink_bytes self.old) }

        // It fails exactly where the call's number is in the list or there is no room for a byte.
        ensures fails { IsErr result ↔ (Contains (sink_failing self.old) (sink_calls self.old)
            ⊎ ((sink_capacity self.old ≤ length (sink_bytes self.old)) × (0 < length piece.now))) }
        ensures faults { HasCause (sink_faults self.old) (sink_faults self.new) result }
        ensures capacity { sink_capacity self.new ≡ sink_capacity self.old }
        ensures failing { sink_failing self.new ≡ sink_failing self.old }
        ensures calls { sink_calls self.new ≡ one_more (sink_calls self.old) }
    {
        let count = piece.len().min(self.capacity - self.bytes.len());
        if next_call_fails(&self.failing, &mut self.calls) || (count == 0 && !piece.is_empty()) {
            count_one(&mut self.faults);
            return Err(WriteFailed);
        }
        if self.bytes.extend_from_slice(&piece[..count]).is_err() {
            unreachable!("there is room for all bytes from the start");
        }
        Ok(count)
    }
}
