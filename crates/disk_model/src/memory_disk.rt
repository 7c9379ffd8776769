ghost use Rattle.std.specs.Prelude.{◌≡◌, ◌+◌, ◌-◌, ◌<◌, ◌≤◌, ◌⊎◌, ◌↔◌, ◌++◌, ◌∷◌, [], ℕ, List};
ghost use Rattle.std.specs.Prelude.{length, take, min, Some, IfOk, IsErr, OnOk, OnErr, IsTrue};
ghost use Rattle.std.specs.Prelude.{vec_capacity, IsFalse};
ghost use Rattle.wire_ids.specs.Causes.{HasCause};
ghost use Rattle.disk_model.specs.Calls.{content_at, IsRecorded};
ghost use Rattle.disk_model.specs.Disk.{Overwrites};

use crate::faults::one_more;
use crate::{Disk, Failed};
use std::alloc::Global;
use std::snapshot::Snapshot;
use wire_ids::Memory;

/// A call that a disk has had.
#[derive(Drop)]
pub enum Call {
    /// It wrote nothing and made nothing last: a `len`, a `read`, or a `sync` that failed.
    Looked,
    /// A write of so many bytes at a place, which may have failed. Behind it a read gives the first
    /// `used` bytes of the room.
    Wrote {
        at: usize,
        count: usize,
        room: Snapshot<Vec<u8>>,
        used: usize,
    },
    /// A sync that succeeded.
    Synced,
}

/// A disk that lies in memory. Its images follow from what it held at first and from the record of
/// its calls. The rooms for its bytes and for the record are made with it, and a call that finds
/// none left is a fault.
#[derive(Drop)]
pub struct MemoryDisk {
    room: Vec<u8>,
    used: usize,
    first: Snapshot<Vec<u8>>,
    first_used: usize,
    calls: Vec<Call>,
    failing: Vec<u64>,
    faults: u64,
    ghost within: { used ≤ length room.items },
    ghost recorded: { content_at calls.items (take first_used first.value.items)
        ≡ take used room.items },
}

impl MemoryDisk {
    ghost use Rattle.disk_model.specs.Disk.{Counts, Elapses, Follows, Includes, NoneNew, Torn};
    ghost use Rattle.disk_model.specs.MemoryDisks.{disk_calls, disk_content, disk_faults};
    ghost use Rattle.disk_model.specs.MemoryDisks.{call_fails, disk_first, disk_size};
    ghost use Rattle.disk_model.specs.MemoryDisks.{disk_images, disk_images_since, disk_moment};
    ghost use Rattle.disk_model.specs.declared.memory_disk.Call.TheVariants.{Looked, Synced};

    /// Holds these bytes, and no other image. It has room for `size` bytes and for a record of
    /// `calls` calls. Those calls fail whose numbers, from 0 on, are in `failing`.
    pub fn new(
        alloc: Global,
        bytes: &[u8],
        size: usize,
        calls: usize,
        failing: Vec<u64>,
    ) -> Result<MemoryDisk, Memory>
        requires { length bytes.now ≤ size }
        ensures content { IfOk result (λ d. disk_content d ≡ bytes.now) }
        ensures first { IfOk result (λ d. disk_first d ≡ bytes.now) }
        ensures calls { IfOk result (λ d. disk_calls d ≡ []) }
        ensures faults { IfOk result (λ d. disk_faults d ≡ 0) }
        ensures size { IfOk result (λ d. disk_size d ≡ size) }
        ensures record { IfOk result (λ d. calls ≤ vec_capacity d.calls) }
        ensures failing { IfOk result (λ d. d.failing ≡ failing) }
    {
        let mut room = vec![in alloc; 0; size]?;
        let used = put(&mut room, 0, 0, bytes);
        let first = Snapshot::of(&room);
        Ok(MemoryDisk {
            room,
            used,
            first,
            first_used: used,
            calls: Vec::with_capacity(alloc, calls)?,
            failing,
            faults: 0,
        })
    }

    /// What a read gives.
    pub fn content(&self) -> &[u8]
        ensures { result.now ≡ disk_content self.now }
    {
        &self.room[..self.used]
    }

    /// The calls that it has had, in order.
    pub fn calls(&self) -> &[Call]
        ensures { result.now ≡ disk_calls self.now }
    {
        self.calls.as_slice()
    }

    /// How often it has failed.
    pub fn faults(&self) -> u64
        ensures { result ≡ disk_faults self.now }
    {
        self.faults
    }

    // Whether the next call is to fail.
    fn is_failing(&self) -> bool
        ensures { result ≡ call_fails self.now }
    {
        self.calls.len() == self.calls.capacity()
            || self.failing.contains(&(self.calls.len() as u64))
    }

    // Records a call that writes nothing, or the fault of one that is to fail.
    fn note(&mut self, call: Call) -> Result<(), Failed>
        requires quiet { (call ≡ Looked) ⊎ (call ≡ Synced) }
        ensures fails { IsErr result ↔ IsTrue (call_fails self.old) }
        ensures ok { OnOk result (disk_calls self.new ≡ disk_calls self.old ++ call ∷ []) }
        ensures first { disk_first self.new ≡ disk_first self.old }
        ensures room { self.new.room ≡ self.old.room }
        ensures used { self.new.used ≡ self.old.used }
        ensures failing { self.new.failing ≡ self.old.failing }
        ensures crash { NoneNew (disk_images self.old) (disk_images self.new) }
        ensures time { Elapses (disk_moment self.old) (disk_moment self.new)
            (disk_images_since self.old) (disk_images_since self.new) (disk_images self.new) }
        ensures counts { Counts (disk_moment self.old) (disk_moment self.new) result }
        ensures stays { OnOk result (disk_faults self.new ≡ disk_faults self.old) }
        ensures cause { HasCause (disk_faults self.old) (disk_faults self.new) result }
    {
        if self.is_failing() {
            record(&mut self.calls, Call::Looked);
            self.faults = one_more(self.faults);
            return Err(Failed);
        }
        self.calls.push_reserved(call);
        Ok(())
    }

    // Puts a front of the bytes of a write there, and records the write.
    fn put(&mut self, at: usize, piece: &[u8], count: usize)
        requires at { at ≤ self.old.used }
        requires fits { at + length piece.now ≤ length self.old.room.items }
        requires front { length piece.now ≤ count }
        requires room { length self.old.calls.items < vec_capacity self.old.calls }
        ensures content { Overwrites at piece.now (disk_content self.old) (disk_content self.new) }
        ensures torn { Torn at count (disk_content self.old) (disk_content self.new) }
        ensures size { length self.new.room.items ≡ length self.old.room.items }
        ensures first { disk_first self.new ≡ disk_first self.old }
        ensures failing { self.new.failing ≡ self.old.failing }
        ensures faults { disk_faults self.new ≡ disk_faults self.old }
        ensures crash { Follows (Torn at count) (disk_images self.old) (disk_images self.new) }
        ensures all { Includes (Torn at count) (disk_images self.old) (disk_images self.new) }
        ensures time { Elapses (disk_moment self.old) (disk_moment self.new)
            (disk_images_since self.old) (disk_images_since self.new) (disk_images self.new) }
        ensures moment { disk_moment self.new ≡ disk_moment self.old + 1 }
    {
        self.used = put(&mut self.room, self.used, at, piece);
        self.calls.push_reserved(Call::Wrote {
            at,
            count,
            room: Snapshot::of(&self.room),
            used: self.used,
        });
    }
}

impl Disk for MemoryDisk {
    ghost use Rattle.std.specs.Prelude.{drop};
    ghost use Rattle.disk_model.specs.Disk.{Becomes, Counts, Elapses, Follows, NoneNew, Only};
    ghost use Rattle.disk_model.specs.Disk.{Includes, Torn, WhereTold};
    ghost use Rattle.disk_model.specs.CallLaws.{disk_seen_is_image, now_is_since, since_is_now};
    ghost use Rattle.disk_model.specs.MemoryDisks.{disk_calls, disk_content, disk_faults};
    ghost use Rattle.disk_model.specs.MemoryDisks.{call_fails, disk_first, disk_size};
    ghost use Rattle.disk_model.specs.MemoryDisks.{disk_images, disk_images_since, disk_moment};
    ghost use Rattle.disk_model.specs.declared.memory_disk.Call.TheVariants.{Looked, Synced};

    ghost seen = { λ d. Some (disk_content d) };

    ghost images = { disk_images };

    ghost moment = { disk_moment };

    ghost images_since = { disk_images_since };

    ghost faults = { disk_faults };

    ghost seen_is_image = { disk_seen_is_image };

    ghost now_is_since = { λ d. now_is_since (disk_first d) (disk_calls d) };

    ghost since_is_now = { λ d. since_is_now (disk_first d) (disk_calls d) };

    fn len(&mut self) -> Result<u64, Failed>
        ensures length { IfOk result
            (λ n. WhereTold (Some (disk_content self.old)) (λ c. n ≡ length c)) }
        ensures seen { Some (disk_content self.new) ≡ Some (disk_content self.old) }
        ensures crash { NoneNew (disk_images self.old) (disk_images self.new) }
        ensures time { Elapses (disk_moment self.old) (disk_moment self.new)
            (disk_images_since self.old) (disk_images_since self.new) (disk_images self.new) }
        ensures counts { Counts (disk_moment self.old) (disk_moment self.new) result }
        ensures cause { HasCause (disk_faults self.old) (disk_faults self.new) result }
        ensures fails { IsErr result ↔ IsTrue (call_fails self.old) }
        ensures stays { OnOk result (disk_faults self.new ≡ disk_faults self.old) }
    {
        self.note(Call::Looked)?;
        Ok(self.used as u64)
    }

    fn read(&mut self, at: u64, room: &mut [u8]) -> Result<usize, Failed>
        ensures bound { IfOk result (λ n. n ≤ length room.new) }
        ensures count { IfOk result (λ n. WhereTold (Some (disk_content self.old))
            (λ c. n ≡ min (length room.new) (length c - at))) }
        ensures bytes { IfOk result (λ n. WhereTold (Some (disk_content self.old))
            (λ c. take n room.new ≡ take n (drop at c))) }
        ensures seen { Some (disk_content self.new) ≡ Some (disk_content self.old) }
        ensures crash { NoneNew (disk_images self.old) (disk_images self.new) }
        ensures time { Elapses (disk_moment self.old) (disk_moment self.new)
            (disk_images_since self.old) (disk_images_since self.new) (disk_images self.new) }
        ensures counts { Counts (disk_moment self.old) (disk_moment self.new) result }
        ensures cause { HasCause (disk_faults self.old) (disk_faults self.new) result }
        ensures fails { IsErr result ↔ IsTrue (call_fails self.old) }
        ensures stays { OnOk result (disk_faults self.new ≡ disk_faults self.old) }
    {
        self.note(Call::Looked)?;
        let from = (at as usize).min(self.used);
        Ok(fill(room, &self.room[from..self.used]))
    }

    fn write_at(&mut self, at: u64, bytes: &[u8]) -> Result<(), Failed>
        requires within { at ≤ length (disk_content self.old) }
        ensures written { OnOk result (Becomes (Some (disk_content self.old))
            (Some (disk_content self.new)) (Overwrites at bytes.now)) }
        ensures failed { OnErr result (Becomes (Some (disk_content self.old))
            (Some (disk_content self.new)) (Torn at (length bytes.now))) }
        ensures crash { Follows (Torn at (length bytes.now))
            (disk_images self.old) (disk_images self.new) }
        ensures time { Elapses (disk_moment self.old) (disk_moment self.new)
            (disk_images_since self.old) (disk_images_since self.new) (disk_images self.new) }
        ensures counts { Counts (disk_moment self.old) (disk_moment self.new) result }
        ensures cause { HasCause (disk_faults self.old) (disk_faults self.new) result }
        ensures fails { IsErr result ↔ (IsTrue (call_fails self.old)
            ⊎ (disk_size self.old < at + length bytes.now)) }
        // A call that is recorded may leave all that the model allows of a torn write.
        ensures all { disk_moment self.old < disk_moment self.new
            → Includes (Torn at (length bytes.now)) (disk_images self.old) (disk_images self.new) }
        ensures stays { OnOk result (disk_faults self.new ≡ disk_faults self.old) }
    {
        if self.calls.len() == self.calls.capacity() {
            self.faults = one_more(self.faults);
            return Err(Failed);
        }
        let at = at as usize;
        let left = self.room.len() - at;
        let fails = self.is_failing() || bytes.len() > left;
        self.put(at, part(bytes, left, fails), bytes.len());
        if fails {
            self.faults = one_more(self.faults);
            return Err(Failed);
        }
        Ok(())
    }

    fn sync(&mut self) -> Result<(), Failed>
        ensures lasts { OnOk result
            (WhereTold (Some (disk_content self.old)) (Only (disk_images self.new))) }
        ensures seen { Some (disk_content self.new) ≡ Some (disk_content self.old) }
        ensures crash { NoneNew (disk_images self.old) (disk_images self.new) }
        ensures time { Elapses (disk_moment self.old) (disk_moment self.new)
            (disk_images_since self.old) (disk_images_since self.new) (disk_images self.new) }
        ensures counts { Counts (disk_moment self.old) (disk_moment self.new) result }
        ensures cause { HasCause (disk_faults self.old) (disk_faults self.new) result }
        ensures fails { IsErr result ↔ IsTrue (call_fails self.old) }
        ensures stays { OnOk result (disk_faults self.new ≡ disk_faults self.old) }
    {
        self.note(Call::Synced)
    }
}

// Adds a call to the record, where there is room for it.
fn record(calls: &mut Vec<Call>, call: Call)
    ensures { IsRecorded calls.old call calls.new.items }
{
    if calls.len() < calls.capacity() {
        calls.push_reserved(call);
    }
}

// What a write puts there: all of its bytes, or the first half of what there is room for.
fn part(bytes: &[u8], left: usize, fails: bool) -> &[u8]
    requires { IsFalse fails → length bytes.now ≤ left }
    ensures whole { IsFalse fails → result.now ≡ bytes.now }
    ensures fits { length result.now ≤ left }
    ensures within { length result.now ≤ length bytes.now }
{
    if fails {
        &bytes[..bytes.len().min(left) / 2]
    } else {
        bytes
    }
}

// Puts a piece into the room at a place of its used part, and says how much is used then.
fn put(room: &mut Vec<u8>, used: usize, at: usize, piece: &[u8]) -> usize
    requires used { used ≤ length room.old.items }
    requires at { at ≤ used }
    requires fits { at + length piece.now ≤ length room.old.items }
    ensures within { result ≤ length room.new.items }
    ensures size { length room.new.items ≡ length room.old.items }
    ensures content { Overwrites at piece.now (take used room.old.items)
        (take result room.new.items) }
{
    overwrite(room, at, piece);
    used.max(at + piece.len())
}

// Puts a piece over what stands at a place.
fn overwrite(room: &mut [u8], at: usize, piece: &[u8])
    requires { at + length piece.now ≤ length room.old }
    ensures { Overwrites at piece.now room.old room.new }
{
    room[at..at + piece.len()].copy_from_slice(piece);
}

// Copies the front of the piece into the room, and says how many bytes.
fn fill(room: &mut [u8], piece: &[u8]) -> usize
    ensures count { result ≡ min (length room.new) (length piece.now) }
    ensures front { take result room.new ≡ take result piece.now }
{
    let count = room.len().min(piece.len());
    room[..count].copy_from_slice(&piece[..count]);
    count
}
