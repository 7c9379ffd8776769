ghost use Rattle.std.specs.Prelude.{◌≡◌, ◌≢◌, ◌+◌, ◌<◌, ◌≤◌, ◌^◌, IsTrue, IsFalse, IsErrOf};
ghost use Rattle.std.specs.Prelude.{IfErr, IfOk, OnOk, Some, [], get_or};
ghost use Rattle.wire_ids.specs.Causes.{Rose};
ghost use Rattle.disk_model.specs.Disk.{WhereTold};
ghost use Rattle.keepers.specs.Keeper.{Quiet};
ghost use Rattle.roam_core.specs.Desk.{IsStateOf, desk_of};
ghost use Rattle.book.specs.Histories.{tables_text};
ghost use Rattle.book.specs.Replays.{Fails, FewSteps, HasText, IsRead, TakesIn, TakesNext};

use crate::faults::BookFault;
use agreements::Tables;
use disk_model::Steps;
use entries::{Entry, Event, decode};
use entry_codec::State;
use keepers::{KeepReadFault, Keeper};
use roam_core::laws::states_stay;
use std::alloc::Global;
use std::sync::ledger::Ledger;

// Whether the entry keeps this tables text.
fn has_text(entry: &Entry, text: &[u8]) -> bool
    ensures yes { IsTrue result → tables_text entry.now.event ≡ Some text.now }
    ensures no { IsFalse result → tables_text entry.now.event ≢ Some text.now }
{
    match &entry.event {
        Event::Tables(kept) => kept.as_slice() == text,
        _ => false,
    }
}

// Whether the entry is the first one, and doesn't keep this tables text.
fn is_of_another(entry: &Entry, number: u64, text: &[u8]) -> bool
    ensures yes { IsTrue result → (number ≡ 0) × (tables_text entry.now.event ≢ Some text.now) }
    ensures no { IsFalse result → HasText text.now number entry.now }
{
    number == 0 && !has_text(entry, text)
}

// Takes in the entry that the bytes of this record spell.
fn take_in(
    alloc: Global,
    state: &mut State,
    number: u64,
    bytes: &[u8],
    text: &[u8],
) -> Result<(), BookFault>
    requires { state.old.now.entries ≡ number }
    ensures next { TakesNext text.now number bytes.now (desk_of state.old) (desk_of state.new)
        result }
    ensures no_fault { IsErrOf result BookFault.KeeperFault → ⊥ }
{
    let Some(entry) = decode(alloc, bytes)? else {
        return Err(BookFault::BadEntry { number });
    };
    if !state.fits(&entry) {
        return Err(BookFault::BadEntry { number });
    }
    if is_of_another(&entry, number, text) {
        return Err(BookFault::OtherTables);
    }
    state.reserve(&entry)?;
    state.apply(entry);
    Ok(())
}

// Reads the record of this number, and takes in the entry that it spells.
fn read_next<K: Keeper, L: Ledger>(
    alloc: Global,
    keeper: &mut K,
    state: &mut State,
    bytes: &mut Vec<u8>,
    text: &[u8],
    steps: &mut Steps<L>,
) -> Result<(), BookFault>
    requires rests { K.rests keeper.old }
    requires below { state.old.now.entries < K.counted keeper.old }
    ensures next { WhereTold (K.records keeper.old) (λ rs. TakesNext text.now
        state.old.now.entries (get_or rs state.old.now.entries []) (desk_of state.old)
        (desk_of state.new) result) }
    ensures taken { OnOk result (TakesIn text.now state.old.now.entries bytes.new.items
        (desk_of state.old) (desk_of state.new)) }
    ensures rests { K.rests keeper.new }
    ensures counted { K.counted keeper.new ≡ K.counted keeper.old }
    ensures quiet { Quiet K.records K.holds K.moment K.held_since keeper.old keeper.new }
    ensures cause { IsErrOf result BookFault.KeeperFault
        → Rose (K.faults keeper.old) (K.faults keeper.new) }
    ensures later { K.faults keeper.old ≤ K.faults keeper.new }
    ensures changes { K.changes keeper.new ≡ K.changes keeper.old }
    ensures steps { FewSteps result steps.old steps.new }
{
    let number = state.entries();
    match keeper.read(number, bytes) {
        Ok(()) => {}
        Err(KeepReadFault::KeeperFault) => return Err(BookFault::KeeperFault),
        Err(KeepReadFault::Memory) => return Err(BookFault::Memory),
    }
    steps.tick();
    take_in(alloc, state, number, bytes.as_slice(), text)
}

/// The state of the records of a keeper, which begin with this tables text; or of the causes, in
/// their order, the first that holds: the first record is no entry that fits; it keeps another
/// text; a later one is no entry that fits. It takes a step before each entry that it decodes.
pub(crate) fn replay<K: Keeper, L: Ledger>(
    alloc: Global,
    keeper: &mut K,
    tables: &Tables,
    text: &[u8],
    steps: &mut Steps<L>,
) -> Result<State, BookFault>
    requires { K.rests keeper.old }
    ensures read { IfOk result (λ state. WhereTold (K.records keeper.old)
        (λ rs. IsRead tables.now text.now rs (desk_of state))) }
    ensures fails { IfErr result (λ fault. WhereTold (K.records keeper.old)
        (λ rs. Fails tables.now text.now rs fault)) }
    ensures entries { IfOk result (λ state. state.now.entries ≡ K.counted keeper.old) }
    ensures time { IfOk result (λ state. state.now.moment ≤ 2 ^ 53) }
    ensures state { IfOk result (λ state. IsStateOf tables.now state.now) }
    ensures steps { IfOk result (λ state. steps.new ≡ steps.old + K.counted keeper.old) }
    ensures few_steps { steps.new ≤ steps.old + K.counted keeper.old }
    ensures rests { K.rests keeper.new }
    ensures counted { K.counted keeper.new ≡ K.counted keeper.old }
    ensures quiet { Quiet K.records K.holds K.moment K.held_since keeper.old keeper.new }
    ensures cause { IsErrOf result BookFault.KeeperFault
        → Rose (K.faults keeper.old) (K.faults keeper.new) }
    ensures later { K.faults keeper.old ≤ K.faults keeper.new }
    ensures changes { K.changes keeper.new ≡ K.changes keeper.old }
    ensures not_full { IsErrOf result BookFault.Full → ⊥ }
{
    states_stay();
    let count = keeper.count();
    let mut state = State::new(alloc, tables)?;
    let mut bytes = Vec::new(alloc);
    'records: while state.entries() < count {
        match read_next(alloc, keeper, &mut state, &mut bytes, text, steps) {
            Ok(()) => {}
            Err(fault) => return Err(fault),
        }
    }
    Ok(state)
}
