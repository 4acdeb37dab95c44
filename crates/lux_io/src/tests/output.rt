//! Standard output, and outputs that take a piece at a time.
use crate::{OutSink, PutFault, Sink, put_all};
use std::cell::Cell;
use std::fmt::Display;
use std::io;
use std::test::Fail;

/// An output that takes up to `most` bytes at a call and `room` bytes in all: the next of the wanted ones, and no other.
#[derive(Drop)]
struct Output<'a> {
    wanted: &'a [u8],
    most: usize,
    room: usize,
    taken: Cell<usize>,
}

impl Print for Output<'_> {
    fn print<D: Display + Drop>(&self, _: D) -> io::Result<()> {
        Err(io::ErrorKind::Unsupported.into())
    }

    fn println<D: Display + Drop>(&self, _: D) -> io::Result<()> {
        Err(io::ErrorKind::Unsupported.into())
    }

    fn write_all(&self, _: &[u8]) -> io::Result<()> {
        Err(io::ErrorKind::Unsupported.into())
    }

    fn write_some(&self, bytes: &[u8]) -> io::Result<usize> {
        let taken = self.taken.get();
        let count = bytes
            .len()
            .min(self.most)
            .min(self.room.saturating_sub(taken));
        if !bytes.is_empty() && count == 0 || taken > self.wanted.len() {
            return Err(io::ErrorKind::BrokenPipe.into());
        }
        if !self.wanted[taken..].starts_with(&bytes[..count]) {
            return Err(io::ErrorKind::InvalidData.into());
        }
        self.taken.set(taken.saturating_add(count));
        Ok(count)
    }
}

/// What comes of writing all wanted bytes, and how many the output took.
fn written(wanted: &[u8], most: usize, room: usize) -> (Result<(), PutFault>, usize) {
    let to = Output {
        wanted,
        most,
        room,
        taken: Cell::new(0),
    };
    let mut out = OutSink::new(&to);
    let outcome = put_all(&mut out, wanted);
    (outcome, to.taken.get())
}

#[test]
fn standard_output_takes_bytes(rt: HostRuntime) {
    let mut out = OutSink::new(&rt);
    assert_eq!(rt; put_all(&mut out, b"a line on standard output\n"), Ok(()));
}

#[test]
fn all_bytes_are_written_whatever_the_pieces(rt: HostRuntime) -> Result<(), Fail> {
    let mut text = Vec::new(rt.alloc());
    for i in 0..20_000u32 {
        text.push((i & 0xff) as u8)?;
    }
    for most in [1, 7, 4_096, 4_097, 20_000] {
        assert_eq!(rt;
            written(&text, most, 20_000),
            (Ok(()), 20_000),
            "{most} at a call"
        );
    }
    Ok(())
}

#[test]
fn a_fault_at_any_piece_is_told(rt: HostRuntime) {
    let line = b"average 555.55 555.56\n";
    for most in [1, 10, 22] {
        for room in [0, 1, 9, 10, 11, 21] {
            assert_eq!(rt;
                written(line, most, room),
                (Err(PutFault), room),
                "{most} at a call, {room} in all"
            );
        }
        assert_eq!(rt; written(line, most, 22), (Ok(()), 22), "{most} at a call");
    }
}

#[test]
fn an_empty_piece_is_no_fault(rt: HostRuntime) {
    let to = Output {
        wanted: b"",
        most: 1,
        room: 0,
        taken: Cell::new(0),
    };
    let mut out = OutSink::new(&to);
    assert_eq!(rt; out.write(b""), Ok(0));
    assert_eq!(rt; put_all(&mut out, b""), Ok(()));
    assert_eq!(rt; out.write(b"more").is_err(), true);
}
