ghost use Rattle.std.specs.Prelude.{◌≡◌, ◌↔◌, ◌+◌, ◌≤◌, ◌<◌, [], ◌++◌, length, take, min, Some};
ghost use Rattle.std.specs.Prelude.{IfOk};
ghost use Rattle.std.specs.Prelude.{IsErr, OnOk};
ghost use Rattle.std.specs.Io.{ReadsAtMost, WritesAtMost};
ghost use Rattle.std.specs.Io.KnownBytes.{ReadConsumes, WriteAppends};
ghost use Rattle.wire_ids.specs.Causes.{HasCause};

use crate::faults::one_more;
use crate::plan::Plan;
use crate::{Failed, Sink, Source};
use std::alloc::Global;
use wire_ids::Memory;

/// A source that lies in memory and tells what it has left. It gives at most `most` bytes a call.
/// It passes `passes` calls, and then fails `fails` calls.
#[derive(Drop)]
pub struct MemorySource {
    bytes: Vec<u8>,
    at: usize,
    most: usize,
    plan: Plan,
    ghost within: { at ≤ length bytes.items },
    ghost some: { 1 ≤ most },
}

impl MemorySource {
    ghost use Rattle.disk_model.specs.Memory.{source_faults, source_left};
    ghost use Rattle.disk_model.specs.Plan.{HasPlan};

    /// A source of these bytes, none of whose calls fails.
    pub fn new(bytes: Vec<u8>) -> MemorySource
        ensures left { source_left result ≡ bytes.items }
        ensures faults { source_faults result ≡ 0 }
        ensures plan { HasPlan result.plan 0 0 }
    {
        MemorySource::with(bytes, usize::MAX, 0, 0)
    }

    /// A source of these bytes that gives at most `most` a call. Its first `passes` calls succeed,
    /// the next `fails` calls fail, and those after them succeed.
    pub fn with(bytes: Vec<u8>, most: usize, passes: u64, fails: u64) -> MemorySource
        requires { 1 ≤ most }
        ensures left { source_left result ≡ bytes.items }
        ensures faults { source_faults result ≡ 0 }
        ensures plan { HasPlan result.plan passes fails }
        ensures most { result.most ≡ most }
    {
        MemorySource {
            bytes,
            at: 0,
            most,
            plan: Plan::new(passes, fails),
        }
    }

    /// How often it has failed.
    pub fn faults(&self) -> u64
        ensures { result ≡ source_faults self.now }
    {
        self.plan.faults
    }

    // Gives the next bytes.
    fn give(&mut self, room: &mut [u8]) -> usize
        ensures bound { result ≤ length room.new }
        ensures most { result ≤ self.old.most }
        ensures bytes { source_left self.old ≡ take result room.new ++ source_left self.new }
        ensures end { result ≡ 0 → 0 < length room.new → source_left self.new ≡ [] }
        ensures plan { self.new.plan ≡ self.old.plan }
    {
        let count = fill(room, &self.bytes[self.at..], self.most);
        self.at += count;
        count
    }
}

impl Source for MemorySource {
    ghost use Rattle.disk_model.specs.Memory.{source_faults, source_left};
    ghost use Rattle.disk_model.specs.Plan.{FollowsPlan, IsFailing};

    ghost left = { λ s. Some (source_left s) };

    ghost faults = { source_faults };

    fn read(&mut self, room: &mut [u8]) -> Result<usize, Failed>
        ensures bound { ReadsAtMost result room.new }
        ensures bytes { ReadConsumes (Some (source_left self.old)) (Some (source_left self.new))
            result room.new }
        ensures cause { HasCause (source_faults self.old) (source_faults self.new) result }
        ensures stays { OnOk result (source_faults self.new ≡ source_faults self.old) }
        ensures fails { IsErr result ↔ IsFailing self.old.plan }
        ensures plan { FollowsPlan self.old.plan self.new.plan }
        ensures most { IfOk result (λ n. n ≤ self.old.most) }
    {
        self.plan.call()?;
        Ok(self.give(room))
    }
}

// Copies the front of the piece into the room, at most `most` bytes, and says how many.
fn fill(room: &mut [u8], piece: &[u8], most: usize) -> usize
    ensures within { result ≤ length piece.now }
    ensures fits { result ≤ length room.new }
    ensures front { take result room.new ≡ take result piece.now }
    ensures most { result ≤ most }
    ensures some { 0 < most → 0 < length piece.now → 0 < length room.new → 0 < result }
{
    let count = room.len().min(most).min(piece.len());
    room[..count].copy_from_slice(&piece[..count]);
    count
}

/// A sink that lies in memory and tells what was written. Its room is made with it, and a piece
/// that finds none left is a fault.
#[derive(Drop)]
pub struct MemorySink {
    room: Vec<u8>,
    used: usize,
    faults: u64,
    ghost within: { used ≤ length room.items },
}

impl MemorySink {
    ghost use Rattle.disk_model.specs.Memory.{sink_faults, sink_room, sink_written};

    /// A sink with room for `size` bytes.
    pub fn new(alloc: Global, size: usize) -> Result<MemorySink, Memory>
        ensures written { IfOk result (λ s. sink_written s ≡ []) }
        ensures room { IfOk result (λ s. sink_room s ≡ size) }
        ensures faults { IfOk result (λ s. sink_faults s ≡ 0) }
    {
        Ok(MemorySink {
            room: vec![in alloc; 0; size]?,
            used: 0,
            faults: 0,
        })
    }

    /// All that was written, in order.
    pub fn written(&self) -> &[u8]
        ensures { result.now ≡ sink_written self.now }
    {
        &self.room[..self.used]
    }

    /// How often it has failed.
    pub fn faults(&self) -> u64
        ensures { result ≡ sink_faults self.now }
    {
        self.faults
    }
}

impl Sink for MemorySink {
    ghost use Rattle.disk_model.specs.Memory.{sink_faults, sink_room, sink_written};

    ghost written = { λ s. Some (sink_written s) };

    ghost faults = { sink_faults };

    fn write(&mut self, piece: &[u8]) -> Result<usize, Failed>
        ensures bound { WritesAtMost result piece.now }
        ensures some { IfOk result (λ n. 0 < length piece.now → 0 < n) }
        ensures bytes { WriteAppends (Some (sink_written self.old)) (Some (sink_written self.new))
            result piece.now }
        ensures cause { HasCause (sink_faults self.old) (sink_faults self.new) result }
        ensures stays { OnOk result (sink_faults self.new ≡ sink_faults self.old) }
        ensures full { IsErr result ↔ ((sink_room self.old ≡ 0) × (0 < length piece.now)) }
        ensures count { IfOk result (λ n. n ≡ min (length piece.now) (sink_room self.old)) }
        ensures room { IfOk result (λ n. sink_room self.new + n ≡ sink_room self.old) }
    {
        let count = piece.len().min(self.room.len() - self.used);
        if count == 0 && !piece.is_empty() {
            self.faults = one_more(self.faults);
            return Err(Failed);
        }
        self.room[self.used..self.used + count].copy_from_slice(&piece[..count]);
        self.used += count;
        Ok(count)
    }
}
