ghost use Rattle.std.specs.Prelude.{◌≡◌, ◌+◌, ◌*◌, ◌≤◌, ◌<◌, ◌^◌, ◌↔◌, ℕ, List, Some, length};
ghost use Rattle.std.specs.Prelude.{option_map, IfOk, IfErr};
ghost use Rattle.wire_ids.specs.Causes.{Rose};
ghost use Rattle.disk_model.specs.Disk.{LeavesOnly, WhereTold};
ghost use Rattle.disk_journal.specs.Format.{journal_of};
ghost use Rattle.disk_journal.specs.Journal.{IsOneOf};
ghost use Rattle.disk_journal.specs.Journals.{journal_end, IsOpeningFault};
ghost use Rattle.disk_journal.specs.Walked.{IsForeign, IsFresh};

use crate::{KeepReadFault, Keeper, KeeperFault, ReadyFault};
use disk_journal::{Journal, JournalFault};
use disk_model::{Disk, Held};
use std::alloc::Global;

/// Keeps its records in a journal on a disk.
#[derive(Drop)]
pub struct JournalKeeper<D> {
    journal: Journal<D>,
    changed: u64,
    spare_records: u64,
    spare_bytes: u64,
    ghost room: { 1 ≤ spare_records
        → journal_end journal + spare_bytes + 5 * spare_records + 1 ≤ 2 ^ 28 },
}

impl<D: Disk> JournalKeeper<D> {
    ghost use Rattle.keepers.specs.JournalKeepers.{keeper_changed, keeper_count, keeper_disk};
    ghost use Rattle.keepers.specs.JournalKeepers.{keeper_disk_after, keeper_end};
    ghost use Rattle.keepers.specs.JournalKeepers.{keeper_records, KeeperRests};

    /// Syncs the disk, and keeps the records of the journal that it holds. A disk of at most 17
    /// bytes that isn't a fresh journal is made one; on a longer one the gate behind the records is
    /// closed where it stands open. Takes all memory before its first call of the disk.
    pub fn open(alloc: Global, disk: D) -> Result<JournalKeeper<D>, Held<D, JournalFault>>
        ensures rests { IfOk result (KeeperRests D.seen D.images) }
        ensures reads { IfOk result
            (λ k. WhereTold (D.seen disk) (λ c. keeper_records D.seen k ≡ journal_of c)) }
        ensures count { IfOk result (λ k. WhereTold (D.seen disk)
            (λ c. Some (keeper_count k) ≡ option_map length (journal_of c))) }
        ensures after { IfOk result (λ k. WhereTold (D.seen disk)
            (λ c. (x : List ℕ) → D.images (keeper_disk k) x → journal_of x ≡ journal_of c)) }
        ensures changed { IfOk result (λ k. keeper_changed k ≡ 0) }
        // More than 17 bytes that begin otherwise are no journal, and nothing else isn't.
        ensures own { IfOk result
            (λ k. WhereTold (D.seen disk) (λ c. (place : ℕ) → IsForeign place c → ⊥)) }
        ensures foreign { IfErr result
            (λ h. (place : ℕ) → h.fault ≡ JournalFault.NotAJournal place
            → WhereTold (D.seen disk) (IsForeign place) × (D.seen h.object ≡ D.seen disk)) }
        // A fresh journal is left as it is.
        ensures left { WhereTold (D.seen disk)
            (λ c. IsFresh c → D.seen (keeper_disk_after result) ≡ Some c) }
        ensures memory { IfErr result (λ h. h.fault ≡ JournalFault.Memory → h.object ≡ disk) }
        ensures faults { IfErr result (λ h. IsOpeningFault h.fault) }
        ensures cause { IfErr result
            (λ h. h.fault ≡ JournalFault.DiskFault → Rose (D.faults disk) (D.faults h.object)) }
        ensures later { D.faults disk ≤ D.faults (keeper_disk_after result) }
        // At each moment the journal of each image is that of an image at the start.
        ensures any_moment { WhereTold (D.seen disk) (λ c. LeavesOnly D.moment D.images_since
            disk (keeper_disk_after result) (IsOneOf (D.images disk))) }
    {
        Ok(JournalKeeper {
            journal: Journal::open(alloc, disk)?,
            changed: 0,
            spare_records: 0,
            spare_bytes: 0,
        })
    }

    /// Where its journal ends.
    pub fn end(&self) -> u64
        ensures { result ≡ keeper_end self.now }
    {
        self.journal.end()
    }

    /// The disk that it stands on. While it rests the journal of the disk is what it keeps.
    pub fn into_disk(self) -> D
        ensures disk { result ≡ keeper_disk self }
        ensures journal { KeeperRests D.seen D.images self
            → WhereTold (D.seen result) (λ c. journal_of c ≡ keeper_records D.seen self) }
    {
        let JournalKeeper { journal, .. } = self;
        journal.into_disk()
    }
}

impl<D: Disk> Keeper for JournalKeeper<D> {
    ghost use Rattle.std.proofs.Common.{arith};
    ghost use Rattle.keepers.specs.JournalKeepers.{end_of, keeper_changed, keeper_count};
    ghost use Rattle.keepers.specs.JournalKeepers.{keeper_disk, keeper_end, keeper_faults};
    ghost use Rattle.keepers.specs.JournalKeepers.{keeper_records, IsPastLimit, Journals};
    ghost use Rattle.keepers.specs.JournalKeepers.{KeeperDoubts, KeeperReads};
    ghost use Rattle.keepers.specs.JournalKeepers.{KeeperRests};
    ghost use Rattle.keepers.specs.JournalLaws.{count_is, doubt_journals, doubt_reads};
    ghost use Rattle.keepers.specs.JournalLaws.{past_limit, rest_only, rest_reads};

    ghost records = { keeper_records D.seen };

    ghost holds = { λ k. Journals (D.images (keeper_disk k)) };

    ghost moment = { λ k. D.moment (keeper_disk k) };

    ghost held_since = { λ k t. Journals (D.images_since (keeper_disk k) t) };

    ghost faults = { keeper_faults D.faults };

    ghost changes = { keeper_changed };

    ghost counted = { keeper_count };

    ghost readable = { KeeperReads D.seen };

    ghost rests = { KeeperRests D.seen D.images };

    ghost doubts = { KeeperDoubts D.seen D.images };

    ghost spare_records = { λ k. k.spare_records };

    ghost spare_bytes = { λ k. k.spare_bytes };

    ghost is_full = { λ k. IsPastLimit (keeper_end k) };

    ghost fills = { λ r. IsPastLimit (end_of r) };

    ghost now_is_since = { λ k t image le now.
        (now.0, D.now_is_since (keeper_disk k) t now.0 le now.1, now.2) };

    ghost since_is_now = { λ k image since.
        (since.0, D.since_is_now (keeper_disk k) since.0 since.1, since.2) };

    ghost rest_is_readable = { rest_reads D.seen D.images };

    ghost doubt_is_readable = { doubt_reads D.seen D.images };

    ghost changes_are_faults = { λ k. omega arith };

    ghost told_unchanged = { λ k readable. readable.0 };

    ghost counts = { λ k. count_is D.seen D.images k };

    ghost full_of = { λ k. past_limit D.seen D.images k };

    ghost rest_holds = { λ k. rest_only D.seen D.images k (D.seen_is_image (keeper_disk k)) };

    ghost doubt_holds = { doubt_journals D.seen D.images };

    fn count(&self) -> u64 {
        self.journal.count()
    }

    fn ready(&mut self, count: u32, bytes: u64) -> Result<(), ReadyFault> {
        if !self.journal.has_room(count, bytes) {
            return Err(ReadyFault::Full);
        }
        self.spare_records = u64::from(count);
        self.spare_bytes = bytes;
        Ok(())
    }

    fn append(&mut self, bytes: &[u8]) -> Result<(), KeeperFault> {
        self.spare_records -= 1;
        self.spare_bytes -= bytes.len() as u64;
        match self.journal.append(bytes) {
            Ok(()) => Ok(()),
            Err(_) => Err(KeeperFault),
        }
    }

    fn reopen(&mut self, tried: &[u8]) -> Result<bool, KeeperFault> {
        self.spare_records = 0;
        match self.journal.reopen(tried) {
            Ok(found) => Ok(found),
            Err(JournalFault::Changed { .. }) => {
                self.changed = self.changed.saturating_add(1);
                Err(KeeperFault)
            }
            Err(_) => Err(KeeperFault),
        }
    }

    fn read(&mut self, k: u64, out: &mut Vec<u8>) -> Result<(), KeepReadFault> {
        match self.journal.read(k, out) {
            Ok(()) => Ok(()),
            Err(JournalFault::DiskFault) => Err(KeepReadFault::KeeperFault),
            Err(_) => Err(KeepReadFault::Memory),
        }
    }
}
