ghost use Rattle.std.specs.Prelude.{◌≡◌, ◌↔◌, ◌≤◌, ◌<◌, ◌^◌, ◌∷◌, [], ℕ, List, IsTrue, None, Some};
ghost use Rattle.std.specs.Prelude.{is_none, map, IfOk};
ghost use Rattle.disk_model.specs.Disk.{LeavesOnly, WhereTold};
ghost use Rattle.entries.specs.Entries.{encode_of};
ghost use Rattle.entries.specs.declared.entry.Entry as an_entry;
ghost use Rattle.entry_codec.specs.Fits.{fits};
ghost use Rattle.keepers.specs.Keeper.{HoldsOnly, OneMoreOrNot};
ghost use Rattle.roam_core.specs.Desk.{desk_of, moment_of};
ghost use Rattle.roam_core.specs.Legal.{IsStep};
ghost use Rattle.book.specs.Pages.{IsPage, MendChanges, Mends, Same};
ghost use Rattle.book.specs.Results.{WritesOne, moment_in};
ghost use Rattle.book.specs.Sight.{IsBook};

use crate::drafts::drafts_of;
use crate::faults::Mended;
use crate::pages::{Pages, Written};
use agreements::Tables;
use entries::Entry;
use entry_codec::State;
use keepers::Keeper;
use key_vault::{BlockFn, Vault};
use std::alloc::Global;
use std::marker::Model;
use std::snapshot::Snapshot;
use wire_ids::{Memory, Moment};

/// The entries of one desk, the state that they make, and the keys to answer by. It is whole, or
/// broken after a fault of its keeper; then it keeps the entry that is written or not, and `mend`
/// comes before the next request.
#[derive(Drop)]
pub struct Book<K: Keeper, E: BlockFn, D: BlockFn> {
    pub(crate) pages: Pages<K>,
    pub(crate) vault: Vault<E, D>,
    // The keeper as its opening began, and as it ended.
    pub(crate) before: Snapshot<K>,
    pub(crate) opened: Snapshot<K>,
}

impl<K: Keeper, E: BlockFn, D: BlockFn> Model for Book<K, E, D> {
    ghost use Rattle.book.specs.Sight.{IsBook, Sight};

    ghost Value = { Sight K };

    ghost view = { λ b. record {
      page = b.pages;
      fixed = record {
        keys = b.vault;
        opened = K.counted b.before.value;
        opening_faults = K.faults b.opened.value;
      };
    } };

    ghost invariant = { λ b. IsBook (record {
      page = b.pages;
      fixed = record {
        keys = b.vault;
        opened = K.counted b.before.value;
        opening_faults = K.faults b.opened.value;
      };
    }) };
}

impl<K: Keeper, E: BlockFn, D: BlockFn> Book<K, E, D> {
    /// Whether it isn't broken.
    pub fn is_whole(&self) -> bool
        ensures { result ≡ is_none self.now.page.tried }
    {
        self.pages.is_whole()
    }

    /// The state that its entries make.
    pub fn state(&self) -> &State
        ensures { desk_of result.now ≡ self.now.page.desk }
    {
        self.pages.state()
    }

    /// Its tables.
    pub fn tables(&self) -> &Tables
        ensures { result.now ≡ self.now.page.config }
    {
        self.pages.tables()
    }

    /// The keeper of its entries.
    pub fn into_keeper(self) -> K
        ensures keeper { result ≡ self.page.keeper }
        ensures faults { K.faults result ≡ self.page.faults }
    {
        let Book { pages, .. } = self;
        pages.into_keeper()
    }

    /// The moment that an event uses where the clock reads `now`: at most 2^53, and not before that
    /// of the last entry.
    pub fn moment(&self, now: Moment) -> Moment
        ensures { result.0 ≡ moment_in self.now now.0 }
    {
        self.pages.moment(now)
    }

    /// What holds of every book.
    pub fn sound(&self)
        ensures page { IsPage K.records K.counted K.rests K.doubts self.now.page }
        ensures book { IsBook self.now }
        ensures faults { K.faults self.now.page.keeper ≡ self.now.page.faults }
        ensures held { self.now.page.tried ≡ None → WhereTold self.now.page.records
            (HoldsOnly (K.holds self.now.page.keeper)) }
    {
        self.pages.sound();
    }

    /// Finds out whether the entry that a broken book kept is written, and takes it in where it is.
    /// `Found` exactly where the book was broken and the keeper has the entry; `Whole` where it was
    /// whole, or the keeper doesn't have it. Takes no memory.
    pub fn mend(&mut self) -> Mended
        ensures mends { Mends result self.old.page self.new.page }
        ensures whole { self.old.page.tried ≡ None → Same self.old.page self.new.page }
        ensures fixed { self.new.fixed ≡ self.old.fixed }
        ensures changes { MendChanges result (K.changes self.old.page.keeper)
            (K.changes self.new.page.keeper) }
        // At each moment each image has the entries before, with the one in doubt or without it.
        ensures any_moment { (e : an_entry.Entry) → self.old.page.tried ≡ Some e
            → WhereTold self.old.page.records
            (λ rs. LeavesOnly K.moment K.held_since self.old.page.keeper self.new.page.keeper
            (OneMoreOrNot rs (encode_of e))) }
        // Whole again, it has what each image has.
        ensures held { self.new.page.tried ≡ None → WhereTold self.new.page.records
            (HoldsOnly (K.holds self.new.page.keeper)) }
    {
        self.pages.sound();
        let mended = self.pages.mend();
        self.sound();
        mended
    }

    // Writes one entry.
    pub(crate) fn enter(&mut self, alloc: Global, entry: Entry) -> Written
        requires whole { self.old.page.tried ≡ None }
        requires fit { IsTrue (fits self.old.page.desk.now entry) }
        requires step { IsStep self.old.page.config self.old.fixed.keys self.old.page.desk entry
            entry.event }
        ensures writes { WritesOne (K.is_full self.old.page.keeper) result entry self.old self.new }
        ensures changes { K.changes self.new.page.keeper ≡ K.changes self.old.page.keeper }
        ensures any_moment { WhereTold self.old.page.records
            (λ rs. LeavesOnly K.moment K.held_since self.old.page.keeper self.new.page.keeper
            (OneMoreOrNot rs (encode_of entry))) }
    {
        self.pages.sound();
        match drafts_of(alloc, entry) {
            Ok(drafts) => self.pages.write(drafts),
            Err(Memory) => Written::NoMemory,
        }
    }
}
