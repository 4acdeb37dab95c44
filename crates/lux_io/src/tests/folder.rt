//! Real files, through the shelf over a folder.
use crate::{FolderShelf, OpenFault, Shelf, TakeFault, take_file};
use std::alloc::Global;
use std::fs::{self, Permissions};
use std::os::unix::fs::PermissionsExt;
use std::process;
use std::test::Fail;

/// A name in the folder for files that don't last, of this process alone; its last part has this many bytes.
fn passing_name(rt: &HostRuntime, size: usize) -> Result<String, Fail> {
    let id = process::id(rt.process());
    let mut name = format!(in rt.alloc(); "/tmp/lux_io_{id}_")?;
    for _ in name.len()..size.saturating_add("/tmp/".len()) {
        name.push('n')?;
    }
    Ok(name)
}

/// So many bytes, of all values and with no short period.
fn many_bytes(alloc: Global, count: usize) -> Result<Vec<u8>, Fail> {
    let mut bytes = Vec::new(alloc);
    for i in 0..count {
        bytes.push(((i % 65_521) * 31 % 257 % 256) as u8)?;
    }
    Ok(bytes)
}

#[test]
fn a_file_of_many_pieces_is_read_byte_by_byte(rt: HostRuntime) -> Result<(), Fail> {
    let alloc = rt.alloc();
    let name = passing_name(&rt, 40)?;
    let mut shelf = FolderShelf::new(&rt);
    // a read takes at most 4,096 bytes, and the kit's buffers 8,192 or 65,536
    for count in [0, 1, 4_095, 4_096, 4_097, 8_193, 65_537, 200_001] {
        let bytes = many_bytes(alloc, count)?;
        fs::write(&rt, name.as_str(), bytes.as_slice())?;
        let taken = take_file(alloc, &mut shelf, name.as_str(), count)?;
        assert!(rt; taken.as_slice() == bytes.as_slice(), "of {count} bytes");
        if count > 0 {
            let short = take_file(alloc, &mut shelf, name.as_str(), count - 1);
            assert_eq!(rt; short.err(), Some(TakeFault::TooLong), "of {count} bytes");
        }
    }
    fs::remove_file(&rt, name.as_str())?;
    Ok(())
}

#[test]
fn a_long_name_is_opened(rt: HostRuntime) -> Result<(), Fail> {
    let alloc = rt.alloc();
    let mut shelf = FolderShelf::new(&rt);
    for size in [64, 65, 128, 255] {
        let name = passing_name(&rt, size)?;
        assert_eq!(rt; name.len(), size.saturating_add(5));
        fs::write(&rt, name.as_str(), "version = 1")?;
        let bytes = take_file(alloc, &mut shelf, name.as_str(), 11)?;
        assert_eq!(rt;
            bytes.as_slice(),
            b"version = 1".as_slice(),
            "a name of {size} bytes"
        );
        fs::remove_file(&rt, name.as_str())?;
    }
    Ok(())
}

#[test]
fn a_file_is_opened_after_every_kind_of_refusal(rt: HostRuntime) -> Result<(), Fail> {
    let alloc = rt.alloc();
    let name = passing_name(&rt, 50)?;
    fs::write(&rt, name.as_str(), "version = 1")?;
    let mut shelf = FolderShelf::new(&rt);
    for (refused, fault) in [
        ("/tmp/lux_io_has_no_such_file", TakeFault::Absent),
        (
            "/tmp/lux_io_has_no_such_folder/room.toml",
            TakeFault::Absent,
        ),
        // a folder can be opened, and not read
        ("/tmp", TakeFault::Failed),
        // a part of this name is no folder
        ("/dev/null/room.toml", TakeFault::Failed),
    ] {
        let missing = take_file(alloc, &mut shelf, refused, 100);
        assert_eq!(rt; missing.err(), Some(fault), "{refused}");
        let bytes = take_file(alloc, &mut shelf, name.as_str(), 100)?;
        assert_eq!(rt;
            bytes.as_slice(),
            b"version = 1".as_slice(),
            "after {refused}"
        );
    }
    fs::remove_file(&rt, name.as_str())?;
    Ok(())
}

#[test]
fn a_file_that_must_not_be_read_is_not_absent(rt: HostRuntime) -> Result<(), Fail> {
    let alloc = rt.alloc();
    let name = passing_name(&rt, 45)?;
    fs::write(&rt, name.as_str(), "version = 1")?;
    fs::set_permissions(&rt, name.as_str(), Permissions::from_mode(0))?;
    let mut shelf = FolderShelf::new(&rt);
    let outcome = take_file(alloc, &mut shelf, name.as_str(), 100);
    fs::remove_file(&rt, name.as_str())?;
    match outcome {
        Ok(_) => println!(rt; "skipped: this user may read every file")?,
        Err(fault) => assert_eq!(rt; fault, TakeFault::Failed),
    }
    Ok(())
}

#[test]
fn an_empty_piece_takes_nothing(rt: HostRuntime) -> Result<(), Fail> {
    let name = passing_name(&rt, 35)?;
    fs::write(&rt, name.as_str(), "version = 1")?;
    let mut shelf = FolderShelf::new(&rt);
    assert_eq!(rt; shelf.open(name.as_str()), Ok(()));
    let mut nothing = [0u8; 0];
    assert_eq!(rt; shelf.read(&mut nothing), Ok(0));
    fs::remove_file(&rt, name.as_str())?;
    Ok(())
}
