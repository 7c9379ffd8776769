ghost use Rattle.std.specs.Prelude.{◌+◌, ◌≤◌, ◌^◌, length};
ghost use Rattle.disk_journal.specs.Journals.{journal_end, Holds, Rests};

use crate::hollow::lying;
use disk_journal::{Journal, JournalFault};
use disk_model::{Disk, FuseDisk, MemoryDisk};
use std::alloc::Global;
use std::test::Fail;

// Two records: the bytes ab, and the byte c.
const TWO: [u8; 30] = *b"LWDESK-JOURNAL-1\x01\0\0\0\x02ab\x01\0\0\0\x01c\0";

const FOREIGN: [u8; 100] = [0x58; 100];

// More records than a journal keeps the places of.
const MANY: u64 = 2100;

fn is_send<T: Send>() {}

// Whether the records of a journal are the first of those that stand in these bytes.
fn shows<D: Disk>(alloc: Global, journal: &mut Journal<D>, bytes: &[u8; 30]) -> bool
    requires { Holds D.seen journal.old }
{
    let mut out = Vec::new(alloc);
    'records: for k in 0..journal.count() {
        if k >= journal.count() {
            return false;
        }
        let want = if k == 0 {
            &bytes[21..23]
        } else {
            &bytes[28..29]
        };
        if journal.read(k, &mut out).is_err() || out.as_slice() != want {
            return false;
        }
    }
    true
}

// How many records the journal of a disk of these bytes has, or None where they are others than
// those of `whole`.
fn opened(alloc: Global, disk: &[u8], whole: &[u8; 30]) -> Result<Option<u64>, JournalFault> {
    let size = disk.len().max(17);
    let Ok(disk) = MemoryDisk::new(alloc, disk, size, 99, Vec::new(alloc)) else {
        return Err(JournalFault::Memory);
    };
    match Journal::open(alloc, disk) {
        Err(held) => Err(held.fault),
        Ok(mut journal) => Ok(shows(alloc, &mut journal, whole).then_some(journal.count())),
    }
}

// Reads the records of a long journal in order and then backwards. Whether each is the one byte
// that was written for its number.
fn reads_both_ways<D: Disk>(alloc: Global, journal: &mut Journal<D>) -> bool
    requires { Holds D.seen journal.old }
{
    let mut out = Vec::new(alloc);
    'records: for i in 0..2 * MANY {
        let k = if i < MANY { i } else { 2 * MANY - 1 - i };
        if k >= journal.count() || journal.read(k, &mut out).is_err() {
            return false;
        }
        if out.as_slice() != [byte_of(k)].as_slice() {
            return false;
        }
    }
    journal.count() == MANY
}

fn byte_of(k: u64) -> u8 {
    (k % 251) as u8
}

// Appends, and after a fault reads again until the disk answers. Whether the record counts.
fn adds<D: Disk>(journal: &mut Journal<D>, bytes: &[u8]) -> bool
    requires rests { Rests D.seen D.images journal.old }
    requires fits { journal_end journal.old + length bytes.now + 6 ≤ 2 ^ 28 }
{
    match journal.append(bytes) {
        Ok(()) => true,
        Err(JournalFault::DiskFault) => {
            'tries: for _ in 0..3 {
                if let Ok(found) = journal.reopen(bytes) {
                    return found;
                }
            }
            false
        }
        Err(_) => false,
    }
}

#[test]
fn cut_at_each_length(rt: HostRuntime) -> Result<(), Fail> {
    let alloc = rt.alloc();
    is_send::<Journal<MemoryDisk>>();
    for length in 0..31 {
        let want = match length {
            0..=23 => 0,
            24..=29 => 1,
            _ => 2,
        };
        assert_eq!(rt; opened(alloc, &TWO[..length], &TWO), Ok(Some(want)));
    }
    Ok(())
}

#[test]
fn each_byte_turned(rt: HostRuntime) -> Result<(), Fail> {
    let alloc = rt.alloc();
    for place in 0..30 {
        let mut bytes = TWO;
        bytes[place] = !bytes[place];
        let want = match place {
            0..=15 => Err(JournalFault::NotAJournal {
                place: place as u64,
            }),
            16..=20 => Ok(Some(0)),
            23..=27 => Ok(Some(1)),
            _ => Ok(Some(2)),
        };
        assert_eq!(rt; opened(alloc, &bytes, &bytes), want);
    }
    Ok(())
}

// A stop after so many calls of an opening, which makes four, and an append.
#[test]
fn stopped_after_each_call(rt: HostRuntime) -> Result<(), Fail> {
    let alloc = rt.alloc();
    for calls in 0..11 {
        let disk = MemoryDisk::new(alloc, b"", 99, 99, Vec::new(alloc))?;
        let stopped = match Journal::open(alloc, FuseDisk::new(disk, calls)) {
            Err(held) => held.object,
            Ok(mut journal) => {
                assert_eq!(rt; journal.append(&TWO[21..23]).is_ok(), calls == 10);
                journal.into_disk()
            }
        };
        let want = if calls < 9 { 0 } else { 1 };
        let left = stopped.into_disk();
        assert_eq!(rt; opened(alloc, left.content(), &TWO), Ok(Some(want)));
    }
    Ok(())
}

// Two calls fail of an opening that closes a gate, an append, and the reading again behind it.
#[test]
fn each_call_fails(rt: HostRuntime) -> Result<(), Fail> {
    let alloc = rt.alloc();
    for first in 0..12 {
        for second in first + 1..18 {
            let failing = vec![in alloc; first, second]?;
            let disk = MemoryDisk::new(alloc, &TWO[..29], 99, 99, failing)?;
            let (want, left) = match Journal::open(alloc, disk) {
                Err(held) => (1, held.object),
                Ok(mut journal) => {
                    assert!(rt; journal.end() == 23);
                    let want = if adds(&mut journal, &TWO[28..29]) {
                        2
                    } else {
                        1
                    };
                    (want, journal.into_disk())
                }
            };
            assert_eq!(rt; opened(alloc, left.content(), &TWO), Ok(Some(want)));
        }
    }
    Ok(())
}

#[test]
fn many_records(rt: HostRuntime) -> Result<(), Fail> {
    let alloc = rt.alloc();
    let mut bytes = Vec::new(alloc);
    bytes.extend_from_slice(b"LWDESK-JOURNAL-1")?;
    for k in 0..MANY {
        bytes.extend_from_slice(&[1, 0, 0, 0, 1, byte_of(k)])?;
    }
    bytes.extend_from_slice(&[0])?;
    let disk = MemoryDisk::new(alloc, &bytes, bytes.len(), 20_000, Vec::new(alloc))?;
    let Ok(mut journal) = Journal::open(alloc, disk) else {
        return Err(Fail::new("no journal"));
    };
    assert!(rt; reads_both_ways(alloc, &mut journal));
    Ok(())
}

#[test]
fn ends_and_refusals(rt: HostRuntime) -> Result<(), Fail> {
    let alloc = rt.alloc();
    let foreign = Err(JournalFault::NotAJournal { place: 0 });
    assert_eq!(rt; opened(alloc, &FOREIGN, &TWO), foreign);
    assert_eq!(rt; opened(alloc, &FOREIGN[..5], &TWO), Ok(Some(0)));
    for (length, shown, ends) in [
        (0u32, 16, [16, 31]),
        (268435419, 21, [268435440, 268435455]),
    ] {
        let mut head = *b"LWDESK-JOURNAL-1\x01\0\0\0\0";
        head[17..].copy_from_slice(&length.to_be_bytes());
        let Ok(mut journal) = Journal::open(alloc, lying(head, shown, 1 << 28, u64::MAX)) else {
            return Err(Fail::new("no journal"));
        };
        assert_eq!(rt; journal.end(), ends[0]);
        if length > 0 {
            assert_eq!(rt; journal.append(&FOREIGN[..11]), Err(JournalFault::Full));
        }
        assert_eq!(rt; journal.append(&FOREIGN[..10]), Ok(()));
        assert_eq!(rt; journal.end(), ends[1]);
    }
    Ok(())
}

#[test]
fn disks_that_lie(rt: HostRuntime) -> Result<(), Fail> {
    let alloc = rt.alloc();
    let head = *b"LWDESK-JOURNAL-1\x01\0\0\0\x02";
    let mut out = Vec::new(alloc);
    // Behind its end another record stands than was tried.
    let Ok(mut journal) = Journal::open(alloc, lying(head, 16, 1 << 28, 4)) else {
        return Err(Fail::new("no journal"));
    };
    match journal.append(b"x") {
        Err(JournalFault::DiskFault) => {
            assert!(rt; journal.end() == 16);
            let changed = Err(JournalFault::Changed { place: 16 });
            assert_eq!(rt; journal.reopen(b"x"), changed);
        }
        _ => return Err(Fail::new("no fault")),
    }
    // A record is no longer shown.
    let Ok(mut journal) = Journal::open(alloc, lying(head, 21, 30, 4)) else {
        return Err(Fail::new("no journal"));
    };
    for (want, bytes) in [
        (Err(JournalFault::DiskFault), b"".as_slice()),
        (Ok(()), b"".as_slice()),
    ] {
        assert!(rt; journal.count() == 1);
        assert_eq!(rt; journal.read(0, &mut out), want);
        assert_eq!(rt; out.as_slice(), bytes);
    }
    Ok(())
}
