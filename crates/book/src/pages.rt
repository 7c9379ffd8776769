ghost use Rattle.std.specs.Prelude.{◌≡◌, ◌↔◌, ◌+◌, ◌≤◌, ◌∷◌, [], ℕ, List, length, map, IsTrue};
ghost use Rattle.std.specs.Prelude.{None, Some, OnOk, OnErr, IfSome, IsErrOf, is_none};
ghost use Rattle.wire_ids.specs.Causes.{Rose};
ghost use Rattle.disk_model.specs.Disk.{LeavesOnly, WhereTold};
ghost use Rattle.entries.specs.Entries.{encode_of};
ghost use Rattle.entry_codec.specs.Fits.{fits};
ghost use Rattle.entry_codec.specs.Replay.{AllFit};
ghost use Rattle.entry_codec.specs.State.{needs};
ghost use Rattle.entries.specs.declared.entry.Entry as an_entry;
ghost use Rattle.roam_core.specs.Desk.{desk_of, moment_of};
ghost use Rattle.keepers.specs.Keeper.{Image, OneMoreOrNot, Quiet};
ghost use Rattle.book.specs.Pages.{Adds, AddsSome, Doubts, HasRoom, IsPage, MendChanges, Mends};
ghost use Rattle.book.specs.Pages.{OneNeeds, Same, Stops, WhereNone, Writes};
ghost use Rattle.book.specs.Pages.{bytes_in, entry_in};

use crate::draft::Draft;
use crate::drafts::total;
use crate::faults::Mended;
use agreements::Tables;
use entry_codec::State;
use keepers::{Keeper, KeeperFault, ReadyFault};
use roam_core::laws::states_stay;
use std::marker::Model;
use std::snapshot::Snapshot;
use wire_ids::Moment;

/// Fewer entries than this leave a number for the next ones. No keeper comes near it.
pub(crate) const MOST_ENTRIES: u64 = 1 << 62;

/// What became of entries that were to be written.
pub(crate) enum Written {
    /// They are written.
    Done,
    /// The keeper failed at one of them.
    NotKept,
    /// The keeper has no room for them.
    NoRoom,
    /// Want of memory.
    NoMemory,
}

/// The entries that a keeper has, and the state that they make. After a fault of the keeper they
/// are broken, and keep the entry that may be written or not.
#[derive(Drop)]
pub(crate) struct Pages<K: Keeper> {
    pub(crate) tables: Tables,
    pub(crate) keeper: K,
    pub(crate) state: State,
    pub(crate) tried: Option<Draft>,
}

impl<K: Keeper> Model for Pages<K> {
    ghost use Rattle.book.specs.Pages.{IsPage, Page, page};

    ghost Value = { Page K };

    ghost view = { λ p. page K.records K.faults p.keeper p.tables p.state p.tried };

    ghost invariant = { λ p. IsPage K.records K.counted K.rests K.doubts
        (page K.records K.faults p.keeper p.tables p.state p.tried) };
}

impl<K: Keeper> Pages<K> {
    /// Whether no entry is in doubt.
    pub(crate) fn is_whole(&self) -> bool
        ensures { result ≡ is_none self.now.tried }
    {
        self.tried.is_none()
    }

    /// The tables.
    pub(crate) fn tables(&self) -> &Tables
        ensures { result.now ≡ self.now.config }
    {
        &self.tables
    }

    /// The state that the entries make.
    pub(crate) fn state(&self) -> &State
        ensures { desk_of result.now ≡ self.now.desk }
    {
        &self.state
    }

    /// The moment that an event uses where the clock reads `now`: at most 2^53, and not before that
    /// of the last entry.
    pub(crate) fn moment(&self, now: Moment) -> Moment
        ensures { result.0 ≡ moment_of now.0 self.now.desk.now }
    {
        Moment(now.0.min(1 << 53).max(self.state.moment().0))
    }

    // Adds an entry for which all room was made.
    fn put(&mut self, draft: Draft) -> Result<(), KeeperFault>
        requires whole { self.old.tried ≡ None }
        requires fit { IsTrue (fits self.old.desk.now draft.entry) }
        requires room { needs draft.entry.event ≤ self.old.spare }
        requires one { 1 ≤ K.spare_records self.old.keeper }
        requires bytes { length (encode_of draft.entry) ≤ K.spare_bytes self.old.keeper }
        ensures added { OnOk result (Adds (draft.entry ∷ []) None self.old self.new) }
        ensures records { OnOk result
            (K.spare_records self.new.keeper + 1 ≡ K.spare_records self.old.keeper) }
        ensures bytes { OnOk result (K.spare_bytes self.new.keeper
            + length (encode_of draft.entry) ≡ K.spare_bytes self.old.keeper) }
        ensures doubted { OnErr result (Doubts (Some draft.entry) self.old self.new) }
        ensures rose { OnErr result (Rose self.old.faults self.new.faults) }
        ensures changes { K.changes self.new.keeper ≡ K.changes self.old.keeper }
        ensures any_moment { WhereTold self.old.records
            (λ rs. LeavesOnly K.moment K.held_since self.old.keeper self.new.keeper
            (OneMoreOrNot rs (encode_of draft.entry))) }
    {
        states_stay();
        match self.keeper.append(draft.bytes.as_slice()) {
            Ok(()) => {
                self.state.apply(draft.entry);
                Ok(())
            }
            Err(fault) => {
                self.tried = Some(draft);
                Err(fault)
            }
        }
    }
}

impl<K: Keeper> Pages<K> {
    // Adds entries for which all room was made, in order.
    fn put_all(&mut self, drafts: Vec<Draft>) -> Result<(), KeeperFault>
        requires whole { self.old.tried ≡ None }
        requires fit { AllFit self.old.desk.now (map entry_in drafts.items) }
        requires room { HasRoom self.old.spare (map entry_in drafts.items) }
        requires records { length drafts.items ≤ K.spare_records self.old.keeper }
        requires bytes { bytes_in (map entry_in drafts.items)
            ≤ K.spare_bytes self.old.keeper }
        ensures added { OnOk result (Adds (map entry_in drafts.items) None self.old self.new) }
        ensures stops { OnErr result (Stops (map entry_in drafts.items) self.old self.new) }
        ensures changes { K.changes self.new.keeper ≡ K.changes self.old.keeper }
        ensures any_moment { WhereTold self.old.records
            (λ rs. LeavesOnly K.moment K.held_since self.old.keeper self.new.keeper
            (AddsSome rs (map entry_in drafts.items))) }
    {
        self.sound();
        for draft in drafts {
            self.put(draft)?;
        }
        Ok(())
    }

    // Makes room and memory for entries, and writes none of them.
    fn prepare(&mut self, drafts: &[Draft]) -> Result<(), ReadyFault>
        requires whole { self.old.tried ≡ None }
        requires one { OneNeeds (map entry_in drafts.now) }
        ensures same { Same self.old self.new }
        ensures room { OnOk result (HasRoom self.new.spare (map entry_in drafts.now)) }
        ensures records { OnOk result (K.spare_records self.new.keeper ≡ length drafts.now) }
        ensures bytes { OnOk result (K.spare_bytes self.new.keeper
            ≡ bytes_in (map entry_in drafts.now)) }
        ensures full { IsErrOf result ReadyFault.Full
            → K.is_full self.old.keeper (length drafts.now) (bytes_in (map entry_in drafts.now)) }
        ensures not_full { OnOk result (K.is_full self.old.keeper (length drafts.now)
            (bytes_in (map entry_in drafts.now)) → ⊥) }
        ensures changes { K.changes self.new.keeper ≡ K.changes self.old.keeper }
        ensures kept { K.records self.new.keeper ≡ K.records self.old.keeper }
        ensures holds { (image : Image) → K.holds self.new.keeper image
            ↔ K.holds self.old.keeper image }
        ensures time { K.moment self.new.keeper ≡ K.moment self.old.keeper }
        ensures since { (t : ℕ) (image : Image) → K.held_since self.new.keeper t image
            ↔ K.held_since self.old.keeper t image }
    {
        if let Some(first) = drafts.first() {
            if self.state.reserve(&first.entry).is_err() {
                return Err(ReadyFault::Memory);
            }
        }
        let Some(bytes) = total(drafts) else {
            return Err(ReadyFault::Memory);
        };
        let Ok(count) = u32::try_from(drafts.len()) else {
            return Err(ReadyFault::Memory);
        };
        self.keeper.ready(count, bytes)
    }

    /// Writes entries, each of which fits behind those before it. Room and memory for all of them
    /// come first, and nothing is new where there is none.
    pub(crate) fn write(&mut self, drafts: Vec<Draft>) -> Written
        requires whole { self.old.tried ≡ None }
        requires fit { AllFit self.old.desk.now (map entry_in drafts.items) }
        requires one { OneNeeds (map entry_in drafts.items) }
        ensures writes { Writes (K.is_full self.old.keeper) result (map entry_in drafts.items)
            self.old self.new }
        ensures changes { K.changes self.new.keeper ≡ K.changes self.old.keeper }
        ensures quiet { WhereNone (Quiet K.records K.holds K.moment K.held_since self.old.keeper
            self.new.keeper) result }
        ensures any_moment { WhereTold self.old.records
            (λ rs. LeavesOnly K.moment K.held_since self.old.keeper self.new.keeper
            (AddsSome rs (map entry_in drafts.items))) }
    {
        self.sound();
        match self.prepare(drafts.as_slice()) {
            Ok(()) => {}
            Err(ReadyFault::Full) => return Written::NoRoom,
            Err(ReadyFault::Memory) => return Written::NoMemory,
        }
        match self.put_all(drafts) {
            Ok(()) => Written::Done,
            Err(KeeperFault) => Written::NotKept,
        }
    }

    /// Finds out whether the entry that is in doubt is written, and takes it in where it is. Takes
    /// no memory.
    pub(crate) fn mend(&mut self) -> Mended
        ensures mends { Mends result self.old self.new }
        ensures changes { MendChanges result (K.changes self.old.keeper)
            (K.changes self.new.keeper) }
        ensures whole { self.old.tried ≡ None → Same self.old self.new }
        ensures any_moment { (e : an_entry.Entry) → self.old.tried ≡ Some e
            → WhereTold self.old.records
            (λ rs. LeavesOnly K.moment K.held_since self.old.keeper self.new.keeper
            (OneMoreOrNot rs (encode_of e))) }
    {
        states_stay();
        let Some(draft) = self.tried.take() else {
            return Mended::Whole;
        };
        match self.keeper.reopen(draft.bytes.as_slice()) {
            Ok(true) => {
                let place = self.state.entries();
                self.state.apply(draft.entry);
                Mended::Found { place }
            }
            Ok(false) => Mended::Whole,
            Err(_) => {
                self.tried = Some(draft);
                Mended::Fault
            }
        }
    }

    /// What holds of all pages.
    pub(crate) fn sound(&self)
        ensures page { IsPage K.records K.counted K.rests K.doubts self.now }
        ensures faults { K.faults self.now.keeper ≡ self.now.faults }
    {
        let _ = &self.keeper;
    }

    /// The keeper as it is now, for clauses alone.
    pub(crate) fn snapshot(&self) -> Snapshot<K>
        ensures value { result.value ≡ self.now.keeper }
        ensures faults { K.faults result.value ≡ self.now.faults }
    {
        Snapshot::of(&self.keeper)
    }

    /// The keeper.
    pub(crate) fn into_keeper(self) -> K
        ensures keeper { result ≡ self.keeper }
        ensures faults { K.faults result ≡ self.faults }
    {
        let Pages { keeper, .. } = self;
        keeper
    }
}
