use crate::adapters::{FileSource, WallClock};
use crate::journal_disk;
use disk_model::{Clock, Disk, Failed, Source};
use std::io::{Error, ErrorKind, Read};
use std::test::Fail;
use std::{fs, io};

// From 2020 to 2125.
#[test]
fn the_clock_tells_seconds_since_1970(rt: HostRuntime) -> Result<(), Fail> {
    let moment = WallClock::new(&rt).now();
    assert!(rt; moment > 1_577_000_000 && moment < 4_900_000_000);
    Ok(())
}

#[test]
fn a_file_that_is_not_there_is_not_read(rt: HostRuntime) -> Result<(), Fail> {
    let mut source = FileSource::new(None::<fs::File>);
    let mut room = [0; 4];
    assert!(rt; source.read(&mut room).is_err());
    assert!(rt; source.read(&mut room).is_err());
    Ok(())
}

/// Gives four bytes, and then fails.
#[derive(Drop)]
struct Broken {
    is_read: bool,
}

impl Read for Broken {
    fn read(&mut self, room: &mut [u8]) -> io::Result<usize> {
        if self.is_read || room.len() < 4 {
            return Err(Error::from(ErrorKind::Other));
        }
        self.is_read = true;
        Ok(4)
    }
}

#[test]
fn a_file_that_fails_in_the_middle_has_not_ended(rt: HostRuntime) -> Result<(), Fail> {
    let mut source = FileSource::new(Some(Broken { is_read: false }));
    let mut room = [0; 4];
    assert!(rt; source.read(&mut room) == Ok(4));
    assert!(rt; source.read(&mut room).is_err());
    assert!(rt; source.read(&mut room).is_err());
    Ok(())
}

// A program's words.
fn words(rt: &HostRuntime, text: &str) -> Result<Vec<String>, Fail> {
    let mut words = Vec::new(rt.alloc());
    for word in text.split(' ') {
        words.push(String::from_str(rt.alloc(), word)?)?;
    }
    Ok(words)
}

#[test]
fn the_journal_is_the_file_that_the_words_name(rt: HostRuntime) -> Result<(), Fail> {
    let mut none = journal_disk(&rt, &words(&rt, "check --tables named.tmp")?);
    assert_eq!(rt; none.len(), Err(Failed));
    let answer = words(&rt, "answer --tables T --journal named.tmp")?;
    let mut disk = journal_disk(&rt, &answer);
    assert_eq!(rt; disk.write_at(0, b"x"), Ok(()));
    // A second program on the same journal.
    let mark = words(
        &rt,
        "suspend --tables T --journal named.tmp 70b3d57ed0001021",
    )?;
    let mut second = journal_disk(&rt, &mark);
    assert_eq!(rt; second.len(), Err(Failed));
    assert_eq!(rt; second.faults(), 1);
    drop(disk);
    assert_eq!(rt; journal_disk(&rt, &mark).len(), Ok(1));
    fs::remove_file(&rt, "named.tmp")?;
    Ok(())
}
