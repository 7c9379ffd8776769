ghost use Rattle.std.specs.Prelude.{◌≡◌, ◌+◌, ◌<◌, ◌≤◌, ◌^◌, ◌++◌, ◌⊎◌, ◌↔◌, [], ◌∷◌, List, ℕ};
ghost use Rattle.std.specs.Prelude.{◌*◌, Some, IsTrue};
ghost use Rattle.std.specs.Prelude.{None, length, take, OnOk, OnErr, IfOk, IfErr, IsErrOf, vec_len};
ghost use Rattle.std.specs.Prelude.{if◌then◌else◌, option_map, slice_get, true, false};
ghost use Rattle.wire_ids.specs.Causes.{HasCause, Rose};
ghost use Rattle.disk_model.specs.Disk.{LeavesOnly, WhereTold};

use crate::JournalFault;
use crate::behind::{Behind, look_behind};
use crate::gate::{HEAD, set_gate};
use crate::read::{Bookmark, read_far, record_at};
use crate::steps::stage;
use disk_model::{Disk, Failed};

// No record ends past it, the gate behind it included.
const LIMIT: u64 = 1 << 28;

/// The place of the first gate.
pub const START: u64 = 16;

/// Of so many records, the last ones, the places are kept.
pub const KEPT: u64 = 2048;

/// Records on a disk, in order. It keeps where they end and how many they are, where the last ones
/// stand, and a bookmark behind an older one that was read.
#[derive(Drop)]
pub struct Journal<D> {
    pub(crate) disk: D,
    pub(crate) end: u64,
    pub(crate) count: u64,
    pub(crate) places: Vec<u64>,
    pub(crate) bookmark: Bookmark,
    ghost few: { count ≤ end },
    ghost ring: { vec_len places ≡ 2048 },
}

impl<D: Disk> Journal<D> {
    ghost use Rattle.disk_journal.specs.Format.{journal_of};
    ghost use Rattle.disk_journal.specs.Journal.{IsStaged, WithOrWithout};
    ghost use Rattle.disk_journal.specs.Journals.{journal_count, journal_disk, journal_end};
    ghost use Rattle.disk_journal.specs.Journals.{records_of, Doubts, Last, MayGrow, Rests};

    /// Adds a record. After Ok it is on the disk. After a `DiskFault` the next call that writes is
    /// `reopen`. Takes no memory.
    pub fn append(&mut self, bytes: &[u8]) -> Result<(), JournalFault>
        requires { Rests D.seen D.images self.old }
        ensures added { OnOk result (records_of D.seen self.new
            ≡ option_map (λ records. records ++ bytes.now ∷ []) (records_of D.seen self.old)) }
        ensures rests { OnOk result (Rests D.seen D.images self.new) }
        ensures end { OnOk result (journal_end self.new
            ≡ journal_end self.old + length bytes.now + 5) }
        ensures count { OnOk result (journal_count self.new ≡ journal_count self.old + 1) }
        ensures faults { IfErr result
            (λ e. (e ≡ JournalFault.DiskFault) ⊎ (e ≡ JournalFault.Full)) }
        // A record without room is refused before any call of the disk.
        ensures full { IsErrOf result JournalFault.Full
            ↔ (2 ^ 28 < journal_end self.old + length bytes.now + 6) }
        ensures full_same { IsErrOf result JournalFault.Full → self.new ≡ self.old }
        ensures doubt { IsErrOf result JournalFault.DiskFault
            → Doubts D.seen D.images bytes.now self.new }
        ensures kept { OnErr result (records_of D.seen self.new ≡ records_of D.seen self.old) }
        ensures kept_count { OnErr result (journal_count self.new ≡ journal_count self.old) }
        ensures kept_end { OnErr result (journal_end self.new ≡ journal_end self.old) }
        ensures cause { IsErrOf result JournalFault.DiskFault
            → Rose (D.faults (journal_disk self.old)) (D.faults (journal_disk self.new)) }
        ensures later { D.faults (journal_disk self.old) ≤ D.faults (journal_disk self.new) }
        // Six calls, and from the fourth on the record stands whole behind its gate.
        ensures calls { OnOk result (D.moment (journal_disk self.new)
            ≡ D.moment (journal_disk self.old) + 6) }
        ensures four { OnOk result (WhereTold (D.seen (journal_disk self.old)) (λ c. (x : List ℕ)
            → D.images_since (journal_disk self.new) (D.moment (journal_disk self.old) + 4) x
            → IsStaged (take (journal_end self.old) c) bytes.now x)) }
        // At each moment each image is a journal of the records before, with the new one or
        // without it, and after Ok with it.
        ensures any_moment { WhereTold (records_of D.seen self.old)
            (λ records. LeavesOnly D.moment D.images_since (journal_disk self.old)
            (journal_disk self.new) (WithOrWithout records bytes.now)) }
        ensures after { OnOk result (WhereTold (records_of D.seen self.old)
            (λ records. (x : List ℕ) → D.images (journal_disk self.new) x
            → journal_of x ≡ Some (records ++ bytes.now ∷ []))) }
    {
        if !self.has_room(1, bytes.len() as u64) {
            return Err(JournalFault::Full);
        }
        self.put(bytes)?;
        Ok(())
    }

    // Adds a record that has room.
    fn put(&mut self, bytes: &[u8]) -> Result<(), Failed>
        requires rests { Last D.seen D.images self.old }
        requires fits { self.old.end + length bytes.now + 6 ≤ 2 ^ 28 }
        ensures added { OnOk result (records_of D.seen self.new
            ≡ option_map (λ records. records ++ bytes.now ∷ []) (records_of D.seen self.old)) }
        ensures rests { OnOk result (Last D.seen D.images self.new) }
        ensures end { OnOk result (self.new.end ≡ self.old.end + length bytes.now + 5) }
        ensures count { OnOk result (self.new.count ≡ self.old.count + 1) }
        ensures doubt { OnErr result (MayGrow D.seen D.images bytes.now self.new) }
        ensures kept { OnErr result (records_of D.seen self.new ≡ records_of D.seen self.old) }
        ensures kept_count { OnErr result (self.new.count ≡ self.old.count) }
        ensures kept_end { OnErr result (self.new.end ≡ self.old.end) }
        ensures bookmark { self.new.bookmark ≡ self.old.bookmark }
        ensures cause { HasCause (D.faults self.old.disk) (D.faults self.new.disk) result }
        ensures calls { OnOk result (D.moment self.new.disk ≡ D.moment self.old.disk + 6) }
        ensures four { OnOk result (WhereTold (D.seen self.old.disk) (λ c. (x : List ℕ)
            → D.images_since self.new.disk (D.moment self.old.disk + 4) x
            → IsStaged (take self.old.end c) bytes.now x)) }
        ensures any_moment { WhereTold (records_of D.seen self.old)
            (λ records. LeavesOnly D.moment D.images_since self.old.disk self.new.disk
            (WithOrWithout records bytes.now)) }
        ensures after { OnOk result (WhereTold (records_of D.seen self.old)
            (λ records. (x : List ℕ) → D.images self.new.disk x
            → journal_of x ≡ Some (records ++ bytes.now ∷ []))) }
    {
        stage(&mut self.disk, self.end, bytes)?;
        set_gate(&mut self.disk, self.end, 1)?;
        self.places[(self.count % KEPT) as usize] = self.end;
        self.end += bytes.len() as u64 + 5;
        self.count += 1;
        Ok(())
    }
}

impl<D: Disk> Journal<D> {
    ghost use Rattle.disk_journal.specs.Format.{journal_of};
    ghost use Rattle.disk_journal.specs.Journal.{WithIf, WithOrWithout};
    ghost use Rattle.disk_journal.specs.Journals.{journal_count, journal_disk, journal_end};
    ghost use Rattle.disk_journal.specs.Journals.{records_of, Doubts, Rests};

    /// Reads the journal again from its kept end on, after an `append` of `tried` failed: true
    /// where that one record now stands there, which then counts, and false where none does. After
    /// a fault it is called again. Takes no memory.
    pub fn reopen(&mut self, tried: &[u8]) -> Result<bool, JournalFault>
        requires doubt { Doubts D.seen D.images tried.now self.old }
        requires fits { journal_end self.old + length tried.now + 6 ≤ 2 ^ 28 }
        ensures found { IfOk result (λ r. records_of D.seen self.new
            ≡ option_map (λ records. WithIf r records tried.now) (records_of D.seen self.old)) }
        ensures rests { OnOk result (Rests D.seen D.images self.new) }
        ensures count { IfOk result (λ r. journal_count self.new
            ≡ (if r then journal_count self.old + 1 else journal_count self.old)) }
        ensures end { IfOk result (λ r. journal_end self.new
            ≡ (if r then journal_end self.old + length tried.now + 5 else journal_end self.old)) }
        ensures faults { IfErr result (λ e. (e ≡ JournalFault.DiskFault)
            ⊎ (e ≡ JournalFault.Changed (journal_end self.old))) }
        // An honest disk never gives `Changed`.
        ensures honest { (c : List ℕ) → D.seen (journal_disk self.old) ≡ Some c
            → IsErrOf result (JournalFault.Changed (journal_end self.old)) → ⊥ }
        ensures doubt { OnErr result (Doubts D.seen D.images tried.now self.new) }
        ensures kept { OnErr result (records_of D.seen self.new ≡ records_of D.seen self.old) }
        ensures kept_count { OnErr result (journal_count self.new ≡ journal_count self.old) }
        ensures kept_end { OnErr result (journal_end self.new ≡ journal_end self.old) }
        ensures cause { IsErrOf result JournalFault.DiskFault
            → Rose (D.faults (journal_disk self.old)) (D.faults (journal_disk self.new)) }
        ensures later { D.faults (journal_disk self.old) ≤ D.faults (journal_disk self.new) }
        // At each moment each image is a journal of the records before, with the tried one or
        // without it, and after Ok as the answer says.
        ensures any_moment { WhereTold (records_of D.seen self.old)
            (λ records. LeavesOnly D.moment D.images_since (journal_disk self.old)
            (journal_disk self.new) (WithOrWithout records tried.now)) }
        ensures after { IfOk result (λ r. WhereTold (records_of D.seen self.old)
            (λ records. (x : List ℕ) → D.images (journal_disk self.new) x
            → journal_of x ≡ Some (WithIf r records tried.now))) }
    {
        match look_behind(&mut self.disk, self.end, tried)? {
            Behind::Nothing => Ok(false),
            Behind::Tried => {
                self.places[(self.count % KEPT) as usize] = self.end;
                self.end += tried.len() as u64 + 5;
                self.count += 1;
                Ok(true)
            }
            Behind::Other => Err(JournalFault::Changed { place: self.end }),
        }
    }
}

impl<D: Disk> Journal<D> {
    ghost use Rattle.disk_journal.specs.Journals.{journal_count, journal_disk, journal_end};
    ghost use Rattle.disk_journal.specs.Journals.{records_of, Doubts, Holds, Rests};
    ghost use Rattle.disk_journal.specs.Keeps.{Quiet};

    /// Puts the bytes of the k-th record, from 0 on, in place of what `out` holds. It writes
    /// nothing. A record that a disk no longer shows, which an honest one always does, is given as
    /// no bytes. After an error what `out` holds isn't told.
    pub fn read(&mut self, k: u64, out: &mut Vec<u8>) -> Result<(), JournalFault>
        requires below { k < journal_count self.old }
        requires holds { Holds D.seen self.old }
        ensures gives { OnOk result (WhereTold (records_of D.seen self.old)
            (λ records. slice_get records k ≡ Some out.new.items)) }
        ensures holds { Holds D.seen self.new }
        ensures rests { Rests D.seen D.images self.old → Rests D.seen D.images self.new }
        ensures doubts { (tried : List ℕ) → Doubts D.seen D.images tried self.old
            → Doubts D.seen D.images tried self.new }
        ensures records { records_of D.seen self.new ≡ records_of D.seen self.old }
        ensures quiet { Quiet D.seen D.images D.moment D.images_since
            (journal_disk self.old) (journal_disk self.new) }
        ensures end { journal_end self.new ≡ journal_end self.old }
        ensures count { journal_count self.new ≡ journal_count self.old }
        ensures faults { IfErr result
            (λ e. (e ≡ JournalFault.DiskFault) ⊎ (e ≡ JournalFault.Memory)) }
        ensures cause { IsErrOf result JournalFault.DiskFault
            → Rose (D.faults (journal_disk self.old)) (D.faults (journal_disk self.new)) }
        ensures later { D.faults (journal_disk self.old) ≤ D.faults (journal_disk self.new) }
    {
        let len = self.disk.len()?;
        let behind = self.count - k;
        if behind <= KEPT {
            let at = self.places[(k % KEPT) as usize];
            return record_at(&mut self.disk, len, at, out);
        }
        self.bookmark = read_far(&mut self.disk, len, self.bookmark, k, out)?;
        Ok(())
    }

    /// Whether so many records more, of together so many bytes, lie below 2^28 with their gates and
    /// the one behind them.
    pub fn has_room(&self, records: u32, bytes: u64) -> bool
        ensures { IsTrue result
            ↔ (journal_end self.now + bytes + 5 * records + 1 ≤ 2 ^ 28) }
    {
        let heads = HEAD as u64 * u64::from(records);
        self.end.saturating_add(bytes).saturating_add(heads + 1) <= LIMIT
    }

    /// How many records it has.
    pub fn count(&self) -> u64
        ensures { result ≡ journal_count self.now }
    {
        self.count
    }

    /// Where its next gate stands.
    pub fn end(&self) -> u64
        ensures { result ≡ journal_end self.now }
    {
        self.end
    }

    /// The disk that it stands on.
    pub fn into_disk(self) -> D
        ensures { result ≡ journal_disk self }
    {
        let Journal { disk, .. } = self;
        disk
    }
}
