ghost use Rattle.std.specs.Prelude.{IsTrue};

use crate::hollow::lying;
use disk_model::{FuseDisk, MemoryDisk};
use keepers::{JournalKeeper, KeepReadFault, Keeper, KeeperFault, MemoryKeeper, ReadyFault};
use std::alloc::Global;
use std::test::Fail;

const RECORDS: [&[u8]; 3] = [b"ab", b"", b"c"];

// A journal of the three records.
const THREE: [u8; 35] = *b"LWDESK-JOURNAL-1\x01\0\0\0\x02ab\x01\0\0\0\0\x01\0\0\0\x01c\0";

const HEAD: [u8; 21] = *b"LWDESK-JOURNAL-1\x01\0\0\0\x02";

fn is_send<T: Send>() {}

// Makes room and adds, and after a fault asks until the keeper answers. Whether the record counts.
fn adds<K: Keeper>(keeper: &mut K, bytes: &[u8]) -> bool
    requires { K.rests keeper.old }
    ensures { IsTrue result → K.rests keeper.new }
{
    if keeper.ready(1, bytes.len() as u64) != Ok(()) {
        return false;
    }
    if keeper.append(bytes) == Ok(()) {
        return true;
    }
    'tries: for _ in 0..3 {
        if let Ok(found) = keeper.reopen(bytes) {
            return found;
        }
    }
    false
}

// Adds the three records up to the first that doesn't count, and says how many do.
fn adds_all<K: Keeper>(keeper: &mut K) -> usize
    requires { K.rests keeper.old }
{
    'records: for k in 0..RECORDS.len() {
        if !adds(keeper, RECORDS[k]) {
            return k;
        }
    }
    RECORDS.len()
}

// How many records a keeper has, or None where they aren't the first of the three.
fn counted<K: Keeper>(alloc: Global, keeper: &mut K) -> Option<u64>
    requires { K.readable keeper.old }
{
    let mut out = Vec::new(alloc);
    'records: for k in 0..keeper.count() {
        if k >= keeper.count() || keeper.read(k, &mut out) != Ok(()) {
            return None;
        }
        if RECORDS.get(k as usize) != Some(&out.as_slice()) {
            return None;
        }
    }
    Some(keeper.count())
}

// The same of the journal in these bytes.
fn kept(alloc: Global, bytes: &[u8]) -> Result<Option<u64>, Fail> {
    let disk = MemoryDisk::new(alloc, bytes, bytes.len().max(17), 99, Vec::new(alloc))?;
    match JournalKeeper::open(alloc, disk) {
        Ok(mut keeper) => Ok(counted(alloc, &mut keeper)),
        Err(_) => Err(Fail::new("no journal")),
    }
}

#[test]
fn room(rt: HostRuntime) -> Result<(), Fail> {
    let alloc = rt.alloc();
    // The length of the one record, if there is one, and where the journal ends; what is asked for,
    // and whether there is room.
    for (length, end, count, bytes, has_room) in [
        (0u32, 16, 1, 268435434, true),
        (0, 16, 1, 268435435, false),
        (0, 16, 3, 268435424, true),
        (0, 16, 3, 268435425, false),
        (0, 16, 0, 268435439, true),
        (0, 16, 0, 268435440, false),
        (0, 16, u32::MAX, 0, false),
        (0, 16, 1, u64::MAX, false),
        (268435419, 268435440, 1, 10, true),
        (268435419, 268435440, 1, 11, false),
        (268435419, 268435440, 2, 5, true),
        (268435419, 268435440, 2, 6, false),
    ] {
        let mut head = HEAD;
        head[17..].copy_from_slice(&length.to_be_bytes());
        let shown = if length > 0 { 21 } else { 16 };
        let Ok(mut keeper) = JournalKeeper::open(alloc, lying(head, shown, 1 << 28, u64::MAX))
        else {
            return Err(Fail::new("no journal"));
        };
        assert_eq!(rt; keeper.end(), end);
        let want = if has_room {
            Ok(())
        } else {
            Err(ReadyFault::Full)
        };
        assert_eq!(rt; keeper.ready(count, bytes), want);
    }
    Ok(())
}

// A stop after so many calls of an opening, which makes four, and of three records, six calls each.
#[test]
fn stopped_after_each_call(rt: HostRuntime) -> Result<(), Fail> {
    let alloc = rt.alloc();
    for calls in 0..23 {
        let disk = MemoryDisk::new(alloc, b"", 99, 99, Vec::new(alloc))?;
        let (added, left) = match JournalKeeper::open(alloc, FuseDisk::new(disk, calls)) {
            Err(held) => (0, held.object),
            Ok(mut keeper) => (adds_all(&mut keeper), keeper.into_disk()),
        };
        let left = left.into_disk();
        let (answered, want) = match calls {
            0..=8 => (0, 0),
            9 => (0, 1),
            10..=14 => (1, 1),
            15 => (1, 2),
            16..=20 => (2, 2),
            21 => (2, 3),
            _ => (3, 3),
        };
        assert_eq!(rt; added, answered);
        assert_eq!(rt; kept(alloc, left.content())?, Some(want));
        if want == 3 {
            assert_eq!(rt; left.content(), THREE.as_slice());
        }
    }
    Ok(())
}

// Two calls fail of an opening and of three records, each looked for behind a fault.
#[test]
fn each_call_fails(rt: HostRuntime) -> Result<(), Fail> {
    let alloc = rt.alloc();
    for first in 4..22 {
        for second in first + 1..26 {
            let failing = vec![in alloc; first, second]?;
            let disk = MemoryDisk::new(alloc, b"", 99, 99, failing)?;
            let Ok(mut keeper) = JournalKeeper::open(alloc, disk) else {
                return Err(Fail::new("no journal"));
            };
            let added = adds_all(&mut keeper) as u64;
            let left = keeper.into_disk();
            assert_eq!(rt; kept(alloc, left.content())?, Some(added));
        }
    }
    Ok(())
}

#[test]
fn kept_in_memory(rt: HostRuntime) -> Result<(), Fail> {
    let alloc = rt.alloc();
    is_send::<MemoryKeeper>();
    is_send::<JournalKeeper<MemoryDisk>>();
    let mut keeper = MemoryKeeper::new(alloc);
    assert_eq!(rt; counted(alloc, &mut keeper), Some(0));
    assert_eq!(rt; adds_all(&mut keeper), 3);
    assert_eq!(rt; counted(alloc, &mut keeper), Some(3));
    Ok(())
}

#[test]
fn disks_that_lie(rt: HostRuntime) -> Result<(), Fail> {
    let alloc = rt.alloc();
    // Behind its end another record stands than was tried.
    let Ok(mut keeper) = JournalKeeper::open(alloc, lying(HEAD, 16, 1 << 28, 4)) else {
        return Err(Fail::new("no journal"));
    };
    assert!(rt; !adds(&mut keeper, b"x"));
    assert_eq!(rt; keeper.end(), 16);
    // A record is no longer shown.
    let Ok(mut keeper) = JournalKeeper::open(alloc, lying(HEAD, 21, 30, 4)) else {
        return Err(Fail::new("no journal"));
    };
    let mut out = Vec::new(alloc);
    for want in [Err(KeepReadFault::KeeperFault), Ok(())] {
        assert!(rt; keeper.count() == 1);
        assert_eq!(rt; keeper.read(0, &mut out), want);
        assert_eq!(rt; out.as_slice(), b"".as_slice());
    }
    Ok(())
}
