ghost use Rattle.std.specs.Prelude.{◌≡◌, ◌≢◌, ◌+◌, ◌^◌, ◌<◌, ◌≤◌, ◌∷◌, [], ℕ, length, drop, IfOk};
ghost use Rattle.std.specs.Prelude.{IfErr, OnOk, OnErr, IsErrOf};
ghost use Rattle.std.specs.Io.KnownBytes.{Consumes, Keeps, IsAtEnd, ReadConsumes};
ghost use Rattle.wire_ids.specs.Causes.{HasCause, Rose};
ghost use Rattle.line_reader.specs.Ahead.{Progress, TakesCount};
ghost use Rattle.line_reader.specs.declared.fault.LineFault.TheVariants.{TooMuch};

use crate::LineFault;
use disk_model::{Failed, Source};
use std::alloc::Global;
use std::marker::Model;
use wire_ids::Memory;

/// Among how many bytes of an input the ends of its lines are looked for.
pub const INPUT_LIMIT: u64 = 1 << 30;

/// How many bytes a read may give.
const ROOM: usize = 65_536;

/// Bytes that were taken from a source and are still to be used.
#[derive(Drop)]
pub struct Ahead {
    room: Vec<u8>,
    from: usize,
    to: usize,
    taken: u64,
    limit: u64,
}

impl Model for Ahead {
    ghost use Rattle.std.specs.Prelude.{◌-◌, ◌≤◌, ◌<◌, ◌≡◌, ◌+◌, ◌^◌, length, take, drop};
    ghost use Rattle.line_reader.specs.Ahead.{Progress};

    ghost Value = { Progress };

    ghost view = { λ a. record {
      pending = take (a.to - a.from) (drop a.from a.room.items);
      taken = a.taken;
      limit = a.limit;
    } };

    ghost invariant = { λ a. (a.from ≤ a.to) × (a.to ≤ length a.room.items)
        × (length a.room.items ≡ 65536) × (a.taken ≤ a.limit + 1) × (a.limit < 2 ^ 63) };
}

impl Ahead {
    /// Nothing is taken yet, and the limit is `INPUT_LIMIT`.
    pub fn new(alloc: Global) -> Result<Ahead, Memory>
        ensures pending { IfOk result (λ a. a.pending ≡ []) }
        ensures taken { IfOk result (λ a. a.taken ≡ 0) }
        ensures limit { IfOk result (λ a. a.limit ≡ 2 ^ 30) }
    {
        Ahead::with_limit(alloc, INPUT_LIMIT)
    }

    /// Nothing is taken yet, and the limit is this one.
    pub fn with_limit(alloc: Global, limit: u64) -> Result<Ahead, Memory>
        requires { limit < 2 ^ 63 }
        ensures pending { IfOk result (λ a. a.pending ≡ []) }
        ensures taken { IfOk result (λ a. a.taken ≡ 0) }
        ensures limit { IfOk result (λ a. a.limit ≡ limit) }
    {
        Ok(Ahead {
            room: vec![in alloc; 0; ROOM]?,
            from: 0,
            to: 0,
            taken: 0,
            limit,
        })
    }

    // The bytes that are there.
    pub(crate) fn piece(&self) -> &[u8]
        ensures { result.now ≡ self.now.pending }
    {
        &self.room[self.from..self.to]
    }

    // Uses up the first `count` bytes that are there.
    pub(crate) fn pass(&mut self, count: usize)
        requires { count ≤ length self.old.pending }
        ensures pending { self.new.pending ≡ drop count self.old.pending }
        ensures taken { self.new.taken ≡ self.old.taken }
        ensures limit { self.new.limit ≡ self.old.limit }
    {
        self.from += count;
    }

    // Takes more from the source, where nothing is there, and nothing past the limit but the byte
    // that shows that there is too much. No more is there afterwards only at the source's end.
    pub(crate) fn take<T: Source>(&mut self, source: &mut T) -> Result<(), LineFault>
        requires none { self.old.pending ≡ [] }
        requires allowed { self.old.taken ≤ self.old.limit }

        ensures ok { OnOk result
            (Consumes (T.left source.old) (T.left source.new) self.new.pending) }
        ensures end { OnOk result (self.new.pending ≡ [] → IsAtEnd (T.left source.new)) }
        ensures taken { OnOk result (self.new.taken ≡ self.old.taken + length self.new.pending) }
        ensures within { OnOk result (self.new.taken ≤ self.new.limit) }
        ensures limit { self.new.limit ≡ self.old.limit }

        ensures failed { IsErrOf result LineFault.Failed
            → Rose (T.faults source.old) (T.faults source.new) }
        ensures too_much { IsErrOf result LineFault.TooMuch → self.new.taken ≡ self.new.limit + 1 }
        ensures keeps { IfErr result
            (λ e. e ≢ TooMuch → Keeps (T.left source.old) (T.left source.new)) }
        ensures same { IfErr result (λ e. e ≢ TooMuch → self.new ≡ self.old) }
        ensures one_more { IsErrOf result LineFault.TooMuch → (byte : ℕ)
            × Consumes (T.left source.old) (T.left source.new) (byte ∷ [])
            × (self.new.taken ≡ self.old.taken + 1) }
        ensures count { T.faults source.old ≤ T.faults source.new }
    {
        self.from = 0;
        self.to = 0;
        if self.taken == self.limit {
            return self.probe(source);
        }
        let most = (self.limit - self.taken).min(ROOM as u64) as usize;
        let Ok(count) = read_most(source, self.room.as_mut_slice(), most) else {
            return Err(LineFault::Failed);
        };
        self.to = count;
        self.taken += count as u64;
        Ok(())
    }

    // Looks whether there is more than the limit allows.
    fn probe<T: Source>(&mut self, source: &mut T) -> Result<(), LineFault>
        requires none { self.old.pending ≡ [] }
        requires full { self.old.taken ≡ self.old.limit }

        ensures pending { self.new.pending ≡ [] }
        ensures limit { self.new.limit ≡ self.old.limit }
        ensures end { OnOk result (IsAtEnd (T.left source.new)) }
        ensures same { IfErr result (λ e. e ≢ TooMuch → self.new.taken ≡ self.old.taken) }
        ensures taken { OnOk result (self.new.taken ≡ self.old.taken) }
        ensures keeps { IfErr result
            (λ e. e ≢ TooMuch → Keeps (T.left source.old) (T.left source.new)) }
        ensures ok { OnOk result (Consumes (T.left source.old) (T.left source.new) []) }
        ensures failed { IsErrOf result LineFault.Failed
            → Rose (T.faults source.old) (T.faults source.new) }
        ensures one_more { IsErrOf result LineFault.TooMuch → (byte : ℕ)
            × Consumes (T.left source.old) (T.left source.new) (byte ∷ [])
            × (self.new.taken ≡ self.old.taken + 1) }
        ensures count { T.faults source.old ≤ T.faults source.new }
    {
        self.from = 0;
        self.to = 0;
        match read_most(source, self.room.as_mut_slice(), 1) {
            Ok(0) => Ok(()),
            Ok(_) => {
                self.taken += 1;
                Err(LineFault::TooMuch)
            }
            Err(Failed) => Err(LineFault::Failed),
        }
    }
}

// Reads at most `most` bytes into the front of the room.
fn read_most<T: Source>(source: &mut T, room: &mut [u8], most: usize) -> Result<usize, Failed>
    requires some { 0 < most }
    requires fits { most ≤ length room.old }
    ensures bound { IfOk result (λ n. n ≤ most) }
    ensures len { length room.new ≡ length room.old }
    ensures bytes { ReadConsumes (T.left source.old) (T.left source.new) result room.new }
    ensures cause { HasCause (T.faults source.old) (T.faults source.new) result }
{
    source.read(&mut room[..most])
}
