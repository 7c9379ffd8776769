//! What openings read, over a keeper that notes it.

use crate::lives::{Given, lived};
use crate::noting_keeper::NotingKeeper;
use book::BookFault;
use keepers::{Keeper, MemoryKeeper};
use std::alloc::Global;
use std::test::Fail;

// The records of two lives: the tables' text, an opening, two joins, a suspend, an opening.
fn records_of_lives(alloc: Global) -> Result<Vec<Vec<u8>>, Fail> {
    let (_, keeper) = lived(alloc, MemoryKeeper::new(alloc))?;
    let (_, mut keeper) = lived(alloc, keeper)?;
    let mut records = Vec::new(alloc);
    for k in 0..keeper.count() {
        let mut record = Vec::new(alloc);
        if k >= keeper.count() || keeper.read(k, &mut record) != Ok(()) {
            return Err(Fail::from("no record"));
        }
        records.push(record).or(Err("memory"))?;
    }
    Ok(records)
}

// A keeper of the records at these places.
fn keeper_of(alloc: Global, records: &[Vec<u8>], places: &[usize]) -> Result<MemoryKeeper, Fail> {
    let mut keeper = MemoryKeeper::new(alloc);
    for place in places {
        let Some(record) = records.get(*place) else {
            return Err(Fail::from("no record"));
        };
        if keeper.ready(1, record.len() as u64) != Ok(()) {
            return Err(Fail::from("memory"));
        }
        if keeper.append(record.as_slice()) != Ok(()) {
            return Err(Fail::from("memory"));
        }
    }
    Ok(keeper)
}

// A life over the records at these places, and the places that it read of them.
fn noted(alloc: Global, records: &[Vec<u8>], places: &[usize]) -> Result<(Given, Vec<u64>), Fail> {
    let keeper = keeper_of(alloc, records, places)?;
    let (given, keeper) = lived(alloc, NotingKeeper::new(alloc, keeper))?;
    Ok((given, keeper.into_reads()))
}

// An opening reads each record once, in their order, up to the first that it refuses; where it
// refuses none it has counted as many steps. Nothing is read after it.
#[test]
fn each_record_is_read_once(rt: HostRuntime) -> Result<(), Fail> {
    let alloc = rt.alloc();
    let records = records_of_lives(alloc)?;
    // The places of the records, what their opening gives, and how many it reads.
    for (places, opening, count) in [
        ([].as_slice(), Ok(0), 0),
        (&[0], Ok(1), 1),
        (&[0, 1], Ok(2), 2),
        (&[0, 1, 2], Ok(3), 3),
        (&[0, 1, 2, 3], Ok(4), 4),
        (&[0, 1, 2, 3, 4], Ok(5), 5),
        (&[0, 1, 2, 3, 4, 5], Ok(6), 6),
        (&[0, 1, 1, 2, 1, 3, 4, 5, 5], Ok(9), 9),
        // The first is no tables' text; the text comes again; so does a join; an earlier one does.
        (&[1, 2, 3], Err(BookFault::BadEntry { number: 0 }), 1),
        (&[0, 0, 1], Err(BookFault::BadEntry { number: 1 }), 2),
        (&[0, 1, 2, 2, 3], Err(BookFault::BadEntry { number: 3 }), 4),
        (&[0, 1, 3, 2], Err(BookFault::BadEntry { number: 3 }), 4),
    ] {
        let (given, reads) = noted(alloc, &records, places)?;
        assert_eq!(rt; given.opening, opening);
        assert!(rt; reads.iter().copied().eq(0..count));
    }
    Ok(())
}
