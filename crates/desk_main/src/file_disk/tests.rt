use crate::file_disk::FileDisk;
use disk_model::{Disk, Failed};
use std::fs::{self, File};
use std::os::unix::fs::{MetadataExt, symlink};
use std::test::Fail;

fn is_send<T: Send>() {}

// Each call fails and is counted.
fn is_closed(disk: &mut FileDisk) -> bool {
    let before = disk.faults();
    let mut room = [0; 4];
    disk.len() == Err(Failed)
        && disk.read(0, &mut room) == Err(Failed)
        && disk.write_at(0, b"x") == Err(Failed)
        && disk.sync() == Err(Failed)
        && disk.faults().checked_sub(before) == Some(4)
}

#[test]
fn a_file_keeps_its_bytes(rt: HostRuntime) -> Result<(), Fail> {
    is_send::<FileDisk>();
    fs::create_dir(&rt, "kept.tmp")?;
    let path = "kept.tmp/journal";
    let mut disk = FileDisk::open(&rt, path);
    assert_eq!(rt; fs::metadata(&rt, path)?.mode() & 0o777, 0o600);
    assert_eq!(rt; disk.len(), Ok(0));
    for (at, bytes, length) in [
        (0, b"abc".as_slice(), 3),
        (3, b"de".as_slice(), 5),
        (1, b"xy".as_slice(), 5),
        (7, b"z".as_slice(), 8),
        (8, b"".as_slice(), 8),
    ] {
        assert_eq!(rt; disk.write_at(at, bytes), Ok(()));
        assert_eq!(rt; disk.sync(), Ok(()));
        assert_eq!(rt; disk.len(), Ok(length));
    }
    drop(disk);
    let mut disk = FileDisk::open(&rt, path);
    for (at, size, found) in [
        (0, 8, b"axyde\0\0z".as_slice()),
        (0, 3, b"axy".as_slice()),
        (4, 8, b"e\0\0z".as_slice()),
        (8, 8, b"".as_slice()),
        (100, 8, b"".as_slice()),
        (2, 0, b"".as_slice()),
    ] {
        let mut room = [0; 8];
        assert_eq!(rt; disk.read(at, &mut room[..size]), Ok(found.len()));
        assert_eq!(rt; &room[..found.len()], found);
    }
    assert_eq!(rt; disk.faults(), 0);
    fs::remove_dir_all(&rt, "kept.tmp")?;
    Ok(())
}

// Whatever path leads to it; a link to a file that is missing makes the file.
#[test]
fn a_file_has_one_disk_at_a_time(rt: HostRuntime) -> Result<(), Fail> {
    fs::create_dir(&rt, "held.tmp")?;
    symlink(&rt, "journal", "held.tmp/link")?;
    let (path, link) = ("held.tmp/journal", "held.tmp/link");
    for (first, second) in [(link, path), (path, link), (path, path)] {
        let mut holder = FileDisk::open(&rt, first);
        let mut other = FileDisk::open(&rt, second);
        assert!(rt; is_closed(&mut other));
        assert_eq!(rt; holder.write_at(0, b"x"), Ok(()));
        assert_eq!(rt; holder.faults(), 0);
        drop(holder);
        assert!(rt; is_closed(&mut other));
        assert_eq!(rt; FileDisk::open(&rt, second).len(), Ok(1));
    }
    fs::remove_dir_all(&rt, "held.tmp")?;
    Ok(())
}

#[test]
fn what_is_no_file_is_no_disk(rt: HostRuntime) -> Result<(), Fail> {
    for path in [
        "none.tmp/journal",
        "",
        ".",
        "/dev/null",
        "/dev/full",
        "a\0b",
    ] {
        assert!(rt; is_closed(&mut FileDisk::open(&rt, path)));
    }
    assert!(rt; is_closed(&mut FileDisk::new(None)));
    Ok(())
}

// The null device reads as an empty file and can't be synced.
#[test]
fn a_sync_that_failed_is_the_last_call(rt: HostRuntime) -> Result<(), Fail> {
    let mut disk = FileDisk::new(File::open(&rt, "/dev/null").ok());
    assert_eq!(rt; disk.read(0, &mut [0; 4]), Ok(0));
    assert_eq!(rt; disk.write_at(0, b"x"), Err(Failed));
    assert_eq!(rt; disk.len(), Ok(0));
    assert_eq!(rt; disk.sync(), Err(Failed));
    assert_eq!(rt; disk.faults(), 2);
    assert!(rt; is_closed(&mut disk));
    Ok(())
}
