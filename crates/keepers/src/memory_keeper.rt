ghost use Rattle.std.specs.Prelude.{◌≡◌, ◌+◌, ◌≤◌, ◌<◌, ◌^◌, [], ℕ, List, Some, length, take, drop};
ghost use Rattle.std.specs.Prelude.{sum, vec_len, vec_capacity};

use crate::{KeepReadFault, Keeper, KeeperFault, ReadyFault};
use std::alloc::Global;

/// Keeps its records in memory, one behind another. Its images hold the one list that it has. It is
/// never full, and no call of it fails but for want of memory.
#[derive(Drop)]
pub struct MemoryKeeper {
    text: Vec<u8>,
    lengths: Vec<usize>,
    spare_records: u64,
    spare_bytes: u64,
    ghost sums: { sum lengths.items ≡ length text.items },
    ghost places: { vec_len lengths + spare_records ≤ vec_capacity lengths },
    ghost room: { vec_len text + spare_bytes ≤ vec_capacity text },
}

impl MemoryKeeper {
    ghost use Rattle.keepers.specs.MemoryKeepers.{memory_records};

    /// Keeps nothing yet. Takes no memory.
    pub fn new(alloc: Global) -> MemoryKeeper
        ensures { memory_records result ≡ [] }
    {
        MemoryKeeper {
            text: Vec::new(alloc),
            lengths: Vec::new(alloc),
            spare_records: 0,
            spare_bytes: 0,
        }
    }
}

impl Keeper for MemoryKeeper {
    ghost use Rattle.std.proofs.Common.{arith, refl};
    ghost use Rattle.keepers.specs.Memory.{HadSince};
    ghost use Rattle.keepers.specs.MemoryKeepers.{memory_records};
    ghost use Rattle.keepers.specs.MemoryLaws.{count_is, had_now, now_had, only_records};
    ghost use Rattle.keepers.specs.MemoryLaws.{with_or_without};

    ghost records = { λ k. Some (memory_records k) };

    ghost holds = { λ k image. image ≡ Some (memory_records k) };

    ghost moment = { λ k. length (memory_records k) };

    ghost held_since = { λ k. HadSince (memory_records k) };

    ghost faults = { λ k. 0 };

    ghost changes = { λ k. 0 };

    ghost counted = { λ k. length k.lengths.items };

    ghost readable = { λ k. Unit {0} };

    ghost rests = { λ k. Unit {0} };

    ghost doubts = { λ k tried. Unit {0} };

    ghost spare_records = { λ k. k.spare_records };

    ghost spare_bytes = { λ k. k.spare_bytes };

    ghost is_full = { λ k n bytes. ⊥ };

    ghost fills = { λ r n bytes. ⊥ };

    ghost now_is_since = { λ k. now_had (memory_records k) };

    ghost since_is_now = { λ k. had_now (memory_records k) };

    ghost rest_is_readable = { λ k rests. rests };

    ghost doubt_is_readable = { λ k tried doubts. doubts };

    ghost changes_are_faults = { λ k. omega arith };

    ghost told_unchanged = { λ k readable r told. refl };

    ghost counts = { λ k readable. count_is k.lengths.items k.text.items };

    ghost full_of = { λ k n bytes readable r told. ((λ full. full), (λ full. full)) };

    ghost rest_holds = { λ k rests. only_records (memory_records k) };

    ghost doubt_holds = { λ k tried doubts. with_or_without (memory_records k) tried };

    fn count(&self) -> u64 {
        self.lengths.len() as u64
    }

    fn ready(&mut self, count: u32, bytes: u64) -> Result<(), ReadyFault> {
        if self.lengths.reserve(count as usize).is_err()
            || self.text.reserve(bytes as usize).is_err()
        {
            return Err(ReadyFault::Memory);
        }
        self.spare_records = u64::from(count);
        self.spare_bytes = bytes;
        Ok(())
    }

    fn append(&mut self, bytes: &[u8]) -> Result<(), KeeperFault> {
        let Ok(()) = self.text.extend_from_slice(bytes) else {
            return Err(KeeperFault);
        };
        self.lengths.push_reserved(bytes.len());
        self.spare_records -= 1;
        self.spare_bytes -= bytes.len() as u64;
        Ok(())
    }

    fn reopen(&mut self, _tried: &[u8]) -> Result<bool, KeeperFault> {
        Ok(false)
    }

    fn read(&mut self, k: u64, out: &mut Vec<u8>) -> Result<(), KeepReadFault> {
        let at = start(&self.lengths, k as usize);
        let record = piece(&self.text, at, self.lengths[k as usize]);
        out.clear();
        match out.extend_from_slice(record) {
            Ok(()) => Ok(()),
            Err(_) => Err(KeepReadFault::Memory),
        }
    }
}

// Where the k-th of these lengths begins.
fn start(lengths: &[usize], k: usize) -> usize
    requires within { k < length lengths.now }
    requires fits { sum (take k lengths.now) < 2 ^ 64 }
    ensures { result ≡ sum (take k lengths.now) }
{
    lengths[..k].iter().sum()
}

// So many bytes of a text from a place on.
fn piece(text: &[u8], at: usize, size: usize) -> &[u8]
    requires { at + size ≤ length text.now }
    ensures { result.now ≡ take size (drop at text.now) }
{
    &text[at..at + size]
}
