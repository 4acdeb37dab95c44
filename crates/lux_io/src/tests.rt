//! What no clause says: that calls succeed with ample memory, and that the adapters reach the real files and output.
mod folder;
mod output;

use crate::{MemShelf, MemSink, PutFault, TakeFault, put_all, take_file};
use std::test::Fail;

#[test]
fn a_file_is_taken_whole_up_to_the_limit(rt: HostRuntime) -> Result<(), Fail> {
    let alloc = rt.alloc();
    let long = vec![in alloc; 7u8; 9000]?;
    let mut shelf = MemShelf::new(alloc, &[])?;
    shelf.add("room.toml", b"version = 1")?;
    shelf.add("long.toml", &long)?;

    let bytes = take_file(alloc, &mut shelf, "room.toml", 11)?;
    assert_eq!(rt; bytes.as_slice(), b"version = 1".as_slice());
    let bytes = take_file(alloc, &mut shelf, "long.toml", 9000)?;
    assert_eq!(rt; bytes.as_slice(), long.as_slice());

    let short = take_file(alloc, &mut shelf, "room.toml", 10);
    assert_eq!(rt; short.err(), Some(TakeFault::TooLong));
    let missing = take_file(alloc, &mut shelf, "hall.toml", 11);
    assert_eq!(rt; missing.err(), Some(TakeFault::Absent));
    Ok(())
}

#[test]
fn the_chosen_calls_fail_and_no_other(rt: HostRuntime) -> Result<(), Fail> {
    let alloc = rt.alloc();
    let mut shelf = MemShelf::new(alloc, &[1, 2])?;
    shelf.add("room.toml", b"version = 1")?;
    // Call 0 opens the file and call 1 reads it. Call 2 opens it again.
    for call in ["the read", "the open"] {
        let failed = take_file(alloc, &mut shelf, "room.toml", 100);
        assert_eq!(rt; failed.err(), Some(TakeFault::Failed), "at {call}");
    }
    let bytes = take_file(alloc, &mut shelf, "room.toml", 100)?;
    assert_eq!(rt; bytes.as_slice(), b"version = 1".as_slice());
    Ok(())
}

#[test]
fn a_file_put_again_has_the_new_bytes(rt: HostRuntime) -> Result<(), Fail> {
    let alloc = rt.alloc();
    let mut shelf = MemShelf::new(alloc, &[])?;
    shelf.add("a", b"first")?;
    shelf.add("b", b"other")?;
    shelf.add("a", b"second")?;
    for (name, want) in [("a", b"second".as_slice()), ("b", b"other".as_slice())] {
        let bytes = take_file(alloc, &mut shelf, name, 100)?;
        assert_eq!(rt; bytes.as_slice(), want, "under {name}");
    }
    Ok(())
}

#[test]
fn a_sink_takes_bytes_up_to_its_capacity(rt: HostRuntime) -> Result<(), Fail> {
    let line = b"point 0 0 555.55 555.56\n";
    for (capacity, want) in [(0, b"".as_slice()), (10, b"point 0 0 ".as_slice())] {
        let mut sink = MemSink::new(rt.alloc(), capacity, &[])?;
        assert_eq!(rt; put_all(&mut sink, line), Err(PutFault));
        assert_eq!(rt; sink.bytes(), want);
    }
    let mut sink = MemSink::new(rt.alloc(), 24, &[1])?;
    assert_eq!(rt; put_all(&mut sink, line), Ok(()));
    assert_eq!(rt; sink.bytes(), line.as_slice());
    Ok(())
}

#[test]
fn a_chosen_write_fails(rt: HostRuntime) -> Result<(), Fail> {
    let mut sink = MemSink::new(rt.alloc(), 100, &[1])?;
    assert_eq!(rt; put_all(&mut sink, b"one\n"), Ok(()));
    assert_eq!(rt; put_all(&mut sink, b"two\n"), Err(PutFault));
    assert_eq!(rt; put_all(&mut sink, b"three\n"), Ok(()));
    assert_eq!(rt; sink.bytes(), b"one\nthree\n".as_slice());
    Ok(())
}
