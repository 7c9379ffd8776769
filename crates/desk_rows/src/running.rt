ghost use Rattle.std.specs.Prelude.{◌≡◌, ◌<◌, None, IfOk, length};

use crate::case::{DiskCalls, Given, Outcome, Reads};
use crate::journal::journal_in;
use desk_top::run;
use disk_model::{
    ClosedLink, Failed, FixedClock, FuseDisk, MemoryDisk, MemorySink, MemorySource, Ran, Source,
    Steps,
};
use std::alloc::{AllocError, Global};
use std::marker::Brand;
use std::sync::ledger::{Blank, Ledger};
use wire_ids::Memory;

// How many bytes a disk takes beside those that it holds before the run, and how many calls.
const DISK_ROOM: usize = 1 << 20;

const DISK_CALLS: usize = 1 << 14;

/// Bytes in memory, and behind them maybe one byte without end. It tells nothing.
#[derive(Drop)]
struct Feed {
    bytes: MemorySource,
    endless: Option<u8>,
}

impl Source for Feed {
    ghost use Rattle.disk_model.specs.Memory.{source_faults};

    ghost left = { λ feed. None };

    ghost faults = { λ feed. source_faults feed.bytes };

    fn read(&mut self, room: &mut [u8]) -> Result<usize, Failed> {
        let count = self.bytes.read(room)?;
        match self.endless {
            Some(byte) if count == 0 => {
                room.fill(byte);
                Ok(room.len())
            }
            _ => Ok(count),
        }
    }
}

// The source of these bytes.
fn source(bytes: Vec<u8>, reads: Reads) -> MemorySource {
    MemorySource::with(bytes, reads.most.get(), reads.passes, reads.fails)
}

// The moments of a clock: these, or 0 alone where there are none.
fn moments_of(alloc: Global, moments: Vec<u64>) -> Result<Vec<u64>, AllocError>
    ensures { IfOk result (λ moments. 0 < length moments.items) }
{
    if moments.is_empty() {
        return vec![in alloc; 0; 1];
    }
    Ok(moments)
}

// The numbers of the calls that fail, where so many pass before them.
fn failing(alloc: Global, passes: u64, fails: u64) -> Result<Vec<u64>, AllocError> {
    let mut calls = Vec::new(alloc);
    for call in passes..passes.saturating_add(fails) {
        calls.push(call)?;
    }
    Ok(calls)
}

// The disk of a run: it holds this, and its calls go so.
fn disk_of(
    alloc: Global,
    content: &[u8],
    calls: DiskCalls,
) -> Result<FuseDisk<MemoryDisk>, Memory> {
    let failing = failing(alloc, calls.passes, calls.fails)?;
    let room = content.len().saturating_add(DISK_ROOM);
    let disk = MemoryDisk::new(alloc, content, room, DISK_CALLS, failing)?;
    Ok(FuseDisk::new(disk, calls.stops))
}

fn counted<G: Ledger>(
    alloc: Global,
    given: Given,
    left: &[u8],
    blank: Blank,
) -> Result<Outcome, Memory>
    requires name { blank.name ≡ G.name }
    requires parts { blank.parts ≡ G.parts }
    requires some { 0 < blank.parts }
{
    let Given {
        words,
        tables,
        tables_reads,
        input,
        input_reads,
        endless,
        moments,
        room,
        disk,
        disk_calls,
    } = given;
    let disk = disk_of(alloc, disk.as_deref().unwrap_or(left), disk_calls)?;
    let mut feed = Feed {
        bytes: source(input, input_reads),
        endless,
    };
    let mut out = MemorySink::new(alloc, room)?;
    let Ran { status, disks } = run(
        alloc,
        &words,
        &mut source(tables, tables_reads),
        &mut feed,
        &mut out,
        disk,
        &mut ClosedLink::new(),
        &mut FixedClock::new(moments_of(alloc, moments)?),
        &mut Steps::<G>::new(blank),
    );
    let disk = disks.into_disk();
    Ok(Outcome {
        status,
        output: out.written().to_vec(alloc)?,
        disk: disk.content().to_vec(alloc)?,
        journal: journal_in(alloc, disk.content())?,
    })
}

/// How the program ends where it is given this, and the run before left these bytes on the disk.
pub(crate) fn outcome_of(alloc: Global, given: Given, left: &[u8]) -> Result<Outcome, Memory> {
    counted::<Brand>(alloc, given, left, Blank::new(1))
}
