use keepers::{KeepReadFault, Keeper, KeeperFault, ReadyFault};
use std::alloc::Global;

/// A keeper that notes the places of its records that are read, in the order of the reads.
#[derive(Drop)]
pub struct NotingKeeper<K> {
    keeper: K,
    reads: Vec<u64>,
}

impl<K: Keeper + Drop> NotingKeeper<K> {
    /// One that has noted nothing yet.
    pub fn new(alloc: Global, keeper: K) -> NotingKeeper<K> {
        NotingKeeper {
            keeper,
            reads: Vec::new(alloc),
        }
    }

    /// The places that were read.
    pub fn into_reads(self) -> Vec<u64> {
        let NotingKeeper { reads, .. } = self;
        reads
    }
}

impl<K: Keeper> Keeper for NotingKeeper<K> {
    ghost records = { λ n. K.records n.keeper };

    ghost holds = { λ n. K.holds n.keeper };

    ghost moment = { λ n. K.moment n.keeper };

    ghost held_since = { λ n. K.held_since n.keeper };

    ghost faults = { λ n. K.faults n.keeper };

    ghost changes = { λ n. K.changes n.keeper };

    ghost counted = { λ n. K.counted n.keeper };

    ghost readable = { λ n. K.readable n.keeper };

    ghost rests = { λ n. K.rests n.keeper };

    ghost doubts = { λ n. K.doubts n.keeper };

    ghost spare_records = { λ n. K.spare_records n.keeper };

    ghost spare_bytes = { λ n. K.spare_bytes n.keeper };

    ghost is_full = { λ n. K.is_full n.keeper };

    ghost fills = { K.fills };

    ghost now_is_since = { λ n. K.now_is_since n.keeper };

    ghost since_is_now = { λ n. K.since_is_now n.keeper };

    ghost rest_is_readable = { λ n. K.rest_is_readable n.keeper };

    ghost doubt_is_readable = { λ n. K.doubt_is_readable n.keeper };

    ghost changes_are_faults = { λ n. K.changes_are_faults n.keeper };

    ghost told_unchanged = { λ n. K.told_unchanged n.keeper };

    ghost counts = { λ n. K.counts n.keeper };

    ghost full_of = { λ n. K.full_of n.keeper };

    ghost rest_holds = { λ n. K.rest_holds n.keeper };

    ghost doubt_holds = { λ n. K.doubt_holds n.keeper };

    fn count(&self) -> u64 {
        self.keeper.count()
    }

    fn ready(&mut self, count: u32, bytes: u64) -> Result<(), ReadyFault> {
        self.keeper.ready(count, bytes)
    }

    fn append(&mut self, bytes: &[u8]) -> Result<(), KeeperFault> {
        self.keeper.append(bytes)
    }

    fn reopen(&mut self, tried: &[u8]) -> Result<bool, KeeperFault> {
        self.keeper.reopen(tried)
    }

    fn read(&mut self, k: u64, out: &mut Vec<u8>) -> Result<(), KeepReadFault> {
        let Ok(()) = self.reads.push(k) else {
            return Err(KeepReadFault::Memory);
        };
        self.keeper.read(k, out)
    }
}
