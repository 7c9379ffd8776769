ghost use Rattle.std.specs.Prelude.{◌≡◌, ◌+◌, ◌<◌, ◌≤◌, ◌^◌, length, map, IsErrOf, IfErr, IfOk};
ghost use Rattle.std.specs.Prelude.{OnOk, OnErr};
ghost use Rattle.std.specs.Prelude.{Err, None, Ok};
ghost use Rattle.wire_ids.specs.Causes.{Rose};
ghost use Rattle.agreements.specs.Walk.{tables_of};
ghost use Rattle.disk_model.specs.Disk.{LeavesOnly, WhereTold};
ghost use Rattle.std.specs.List.{AllByRecursion};
ghost use Rattle.entry_codec.specs.Replay.{AllFit};
ghost use Rattle.keepers.specs.Keeper.{HoldsOnly, Quiet};
ghost use Rattle.roam_core.specs.Desk.{moment_of};
ghost use Rattle.book.specs.Opening.{Begins, CountLeft, FailsToBegin, FailsToOpen, IsReadAgain};
ghost use Rattle.book.specs.Opening.{MayOpen, Opens, UnlessFailed, keeper_after, opening};
ghost use Rattle.book.specs.Opening.{opening_at};
ghost use Rattle.book.specs.Pages.{Adds, AddsSome, bytes_in, entry_in};
ghost use Rattle.book.specs.Replays.{Fails, IsRead};

use crate::book::Book;
use crate::draft::Draft;
use crate::faults::BookFault;
use crate::pages::{MOST_ENTRIES, Pages, Written};
use crate::replay::replay;
use agreements::Tables;
use disk_model::{Held, Steps};
use entries::{Entry, Event};
use keepers::Keeper;
use key_vault::{BlockFn, Vault};
use std::alloc::Global;
use std::snapshot::Snapshot;
use std::sync::ledger::Ledger;
use wire_ids::{LongText, Memory, Moment, Text};

// The entries of an opening, before the first of which comes the text of the tables.
fn drafts_at(alloc: Global, is_new: bool, text: Text, moment: Moment) -> Result<Vec<Draft>, Memory>
    requires { length text ≤ 4294967295 }
    ensures drafts { IfOk result (λ drafts. map entry_in drafts.items
        ≡ opening_at is_new text moment.0) }
    ensures again { IfOk result (λ _. AllByRecursion IsReadAgain
        (opening_at is_new text moment.0)) }
{
    let mut drafts = Vec::with_capacity(alloc, 2)?;
    let event = Event::Opened;
    let opened = Draft::new(alloc, Entry { moment, event })?;
    if !is_new {
        drafts.push_reserved(opened);
        return Ok(drafts);
    }
    let Some(text) = LongText::new(text.into_vec()) else {
        unreachable!()
    };
    let event = Event::Tables(text);
    let tables = Draft::new(alloc, Entry { moment, event })?;
    drafts.push_reserved(tables);
    drafts.push_reserved(opened);
    Ok(drafts)
}

impl<K: Keeper> Pages<K> {
    // The pages of a keeper's records, which begin with this tables text.
    fn read<L: Ledger>(
        alloc: Global,
        keeper: K,
        tables: Tables,
        text: &[u8],
        steps: &mut Steps<L>,
    ) -> Result<Pages<K>, Held<K, BookFault>>
        requires { K.rests keeper }
        ensures read { IfOk result (λ p. WhereTold (K.records keeper)
            (λ rs. IsRead tables text.now rs p.desk)) }
        ensures config { IfOk result (λ p. p.config ≡ tables) }
        ensures whole { IfOk result (λ p. p.tried ≡ None) }
        ensures entries { IfOk result (λ p. p.desk.now.entries ≡ K.counted keeper) }
        ensures quiet { IfOk result (λ p. Quiet K.records K.holds K.moment K.held_since keeper
            p.keeper) }
        ensures later { IfOk result (λ p. K.faults keeper ≤ p.faults) }
        ensures records { IfOk result (λ p. p.records ≡ K.records keeper) }
        ensures rests { IfOk result (λ p. K.rests p.keeper) }
        ensures changes { IfOk result (λ p. K.changes p.keeper ≡ K.changes keeper) }
        ensures fails { IfErr result (λ h. WhereTold (K.records keeper)
            (λ rs. Fails tables text.now rs h.fault)) }
        ensures quiet_err { IfErr result (λ h. Quiet K.records K.holds K.moment K.held_since keeper
            h.object) }
        ensures cause { IfErr result (λ h. h.fault ≡ BookFault.KeeperFault
            → Rose (K.faults keeper) (K.faults h.object)) }
        ensures later_err { IfErr result (λ h. K.faults keeper ≤ K.faults h.object) }
        ensures rests_err { IfErr result (λ h. K.rests h.object) }
        ensures counted_err { IfErr result (λ h. K.counted h.object ≡ K.counted keeper) }
        ensures changes_err { IfErr result (λ h. K.changes h.object ≡ K.changes keeper) }
        ensures not_full { IfErr result (λ h. h.fault ≡ BookFault.Full → ⊥) }
        ensures steps { IfOk result (λ _. steps.new ≡ steps.old + K.counted keeper) }
        ensures few_steps { steps.new ≤ steps.old + K.counted keeper }
    {
        let mut keeper = keeper;
        match replay(alloc, &mut keeper, &tables, text, steps) {
            Ok(state) => Ok(Pages {
                tables,
                keeper,
                state,
                tried: None,
            }),
            Err(fault) => Err(Held {
                object: keeper,
                fault,
            }),
        }
    }

    // Writes the entries of an opening, where the clock reads `now`.
    fn begin(&mut self, alloc: Global, text: Text, now: Moment) -> Result<(), BookFault>
        requires whole { self.old.tried ≡ None }
        requires text { tables_of text ≡ Ok self.old.config }
        ensures added { OnOk result (Adds (opening text now.0 self.old.desk) None self.old
            self.new) }
        ensures room { OnOk result (K.is_full self.old.keeper
            (length (opening text now.0 self.old.desk))
            (bytes_in (opening text now.0 self.old.desk)) → ⊥) }
        ensures again { OnOk result (AllByRecursion IsReadAgain
            (opening text now.0 self.old.desk)) }
        ensures fit { OnOk result (AllFit self.old.desk.now (opening text now.0 self.old.desk)) }
        ensures fails { IfErr result (λ f. FailsToBegin (K.is_full self.old.keeper)
            (opening text now.0 self.old.desk) f self.old self.new) }
        ensures left { IfErr result (UnlessFailed (Quiet K.records K.holds K.moment K.held_since
            self.old.keeper self.new.keeper)) }
        ensures count_left { IfErr result (CountLeft self.old.desk.now.entries
            self.new.desk.now.entries) }
        ensures later { self.old.faults ≤ self.new.faults }
        ensures changes { K.changes self.new.keeper ≡ K.changes self.old.keeper }
        ensures any_moment { WhereTold self.old.records
            (λ rs. LeavesOnly K.moment K.held_since self.old.keeper self.new.keeper
            (AddsSome rs (opening text now.0 self.old.desk))) }
    {
        self.sound();
        let entries = self.state().entries();
        if entries >= MOST_ENTRIES {
            return Err(BookFault::Memory);
        }
        let moment = self.moment(now);
        match drafts_at(alloc, entries == 0, text, moment) {
            Err(Memory) => Err(BookFault::Memory),
            Ok(drafts) => match self.write(drafts) {
                Written::Done => Ok(()),
                Written::NotKept => Err(BookFault::KeeperFault),
                Written::NoRoom => Err(BookFault::Full),
                Written::NoMemory => Err(BookFault::Memory),
            },
        }
    }
}

impl<K: Keeper, E: BlockFn, D: BlockFn> Book<K, E, D> {
    /// Opens the book of a keeper, where the clock reads `now`, on these tables, which are those of
    /// `text`, with a vault that has their keys. An empty keeper gets the text of the tables first;
    /// then comes the entry of the opening. It takes a step before each entry that it decodes. Of
    /// the causes of a refusal the first that holds: the first record is no entry that fits; it
    /// keeps another text; a later one is no entry that fits; there is no room for the entries of
    /// the opening. A fault of the keeper comes where its call failed.
    pub fn open<L: Ledger>(
        alloc: Global,
        keeper: K,
        tables: Tables,
        text: Text,
        vault: Vault<E, D>,
        now: Moment,
        steps: &mut Steps<L>,
    ) -> Result<Book<K, E, D>, Held<K, BookFault>>
        requires rests { K.rests keeper }
        requires text { tables_of text ≡ Ok tables }
        requires keys { length vault ≡ length tables.devices }
        ensures opens { IfOk result (λ b. WhereTold (K.records keeper)
            (λ rs. Opens (K.fills rs) tables text now.0 rs b.page)) }
        ensures begins { IfOk result (λ b. Begins tables text now.0 (K.records keeper)
            (K.counted keeper) b.page) }
        ensures config { IfOk result (λ b. b.page.config ≡ tables) }
        ensures keys { IfOk result (λ b. b.fixed.keys ≡ vault) }
        ensures opened { IfOk result (λ b. b.fixed.opened ≡ K.counted keeper) }
        ensures opening_faults { IfOk result (λ b. b.fixed.opening_faults ≡ b.page.faults) }
        ensures whole { IfOk result (λ b. b.page.tried ≡ None) }
        ensures fails { IfErr result (λ h. WhereTold (K.records keeper)
            (λ rs. FailsToOpen (K.fills rs) tables text now.0 rs h.fault)) }
        ensures cause { IfErr result (λ h. h.fault ≡ BookFault.KeeperFault
            → Rose (K.faults keeper) (K.faults h.object)) }
        // Where no call of the keeper failed nothing was written, and it rests.
        ensures left { IfErr result (λ h. UnlessFailed (Quiet K.records K.holds K.moment
            K.held_since keeper h.object) h.fault) }
        ensures rests_left { IfErr result (λ h. UnlessFailed (K.rests h.object) h.fault) }
        ensures count_left { IfErr result (λ h. CountLeft (K.counted keeper) (K.counted h.object)
            h.fault) }
        ensures later { K.faults keeper ≤ K.faults (keeper_after result) }
        ensures changes { K.changes (keeper_after result) ≡ K.changes keeper }
        ensures steps { IfOk result (λ _. steps.new ≡ steps.old + K.counted keeper) }
        ensures few_steps { steps.new ≤ steps.old + K.counted keeper }
        // At each moment each image has the records before, with none, the first or both of the
        // entries of the opening.
        ensures any_moment { WhereTold (K.records keeper) (λ rs. LeavesOnly K.moment K.held_since
            keeper (keeper_after result) (MayOpen tables text now.0 rs)) }
    {
        let before = Snapshot::of(&keeper);
        let mut pages = match Pages::read(alloc, keeper, tables, text.as_slice(), steps) {
            Ok(pages) => pages,
            Err(held) => return Err(held),
        };
        match pages.begin(alloc, text, now) {
            Ok(()) => {}
            Err(fault) => {
                pages.sound();
                return Err(Held {
                    object: pages.into_keeper(),
                    fault,
                });
            }
        }
        let opened = pages.snapshot();
        Ok(Book {
            pages,
            vault,
            before,
            opened,
        })
    }
}
