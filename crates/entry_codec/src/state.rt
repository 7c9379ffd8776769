ghost use Rattle.std.specs.Prelude.{◌≡◌, ◌≤◌, ◌<◌, ◌^◌, length, IsTrue, IfOk, IfSome, OnOk};
ghost use Rattle.std.specs.Option.{option_copied};
ghost use Rattle.entry_codec.specs.Addresses.{IsTable};
ghost use Rattle.entry_codec.specs.Empty.{empty, empty_kept};
ghost use Rattle.entry_codec.specs.Ends.{EndsFrom, event_end};
ghost use Rattle.entry_codec.specs.Fits.{can_hold, can_move, can_visit, fits};
ghost use Rattle.entry_codec.specs.Index.{IsIndex, names};
ghost use Rattle.entry_codec.specs.Kept.{AllFew, kept_answer};
ghost use Rattle.entry_codec.specs.LookUps.{at_home, is_asked, is_sender, is_taken, slots_of};
ghost use Rattle.entry_codec.specs.LookUps.{visitor_of};
ghost use Rattle.entry_codec.specs.Machine.{after, held_session, holder_of, lapse, open_ask};
ghost use Rattle.entry_codec.specs.Machine.{place_of, wake};
ghost use Rattle.entry_codec.specs.Sound.{IsSound};
ghost use Rattle.entry_codec.specs.State.{kept_after, needs};

use crate::KeptAnswers;
use crate::ends::event_end;
use crate::index::Index;
use crate::kept::keep;
use crate::made::empty_kept;
use crate::now::Now;
use address_table::AddressTable;
use agreements::Tables;
use entries::Entry;
use std::alloc::Global;
use std::marker::Model;
use wire_ids::{DevAddr, Memory, NetId, address_of};

/// What the desk keeps of its devices, visitors, held sessions and asks, and the answers that it
/// may have to give again. Nothing but entries changes it.
#[derive(Drop)]
pub struct State {
    pub(crate) current: Now,
    pub(crate) kept: Vec<KeptAnswers>,
    pub(crate) index: Index,
    // Who has which address.
    pub(crate) addresses: AddressTable,
    // Nothing ends before this moment.
    pub(crate) due: u64,
}

impl Model for State {
    ghost use Rattle.entry_codec.specs.Addresses.{IsTable};
    ghost use Rattle.entry_codec.specs.Ends.{EndsFrom};
    ghost use Rattle.entry_codec.specs.Index.{IsIndex, names};
    ghost use Rattle.entry_codec.specs.Kept.{AllFew};
    ghost use Rattle.entry_codec.specs.Sound.{IsSound};
    ghost use Rattle.entry_codec.specs.State.{Stored};

    ghost Value = { Stored };

    ghost view = { λ a. record {
      now = a.current.machine;
      kept = a.kept.items;
      spare = a.current.spare;
    } };

    ghost invariant = { λ a. IsSound a.current.machine
        × IsIndex a.index (names a.current.machine.devices)
        × EndsFrom a.due a.current.machine
        × AllFew a.kept.items
        × IsTable a.addresses a.current.machine };
}

// Lets what has ended go, if anything has.
fn lapse(now: &mut Now, table: &mut AddressTable, due: &mut u64, at: u64)
    requires ends { EndsFrom due.old now.old.machine }
    requires sound { IsSound now.old.machine }
    requires table { IsTable table.old now.old.machine }
    ensures machine { now.new.machine ≡ lapse at now.old.machine }
    ensures spare { now.old.spare ≤ now.new.spare }
    ensures due { EndsFrom due.new now.new.machine }
    ensures table { IsTable table.new now.new.machine }
{
    if at >= *due {
        now.take_ended(table, at);
        now.lapse(at);
        *due = now.least_end();
    }
}

// The first address of a network.
fn first_address(net: NetId) -> DevAddr {
    match address_of(net, 0) {
        Some(first) => first,
        None => DevAddr(0),
    }
}

impl State {
    /// The state of these tables before the first entry. The one error is want of memory.
    pub fn new(alloc: Global, tables: &Tables) -> Result<State, Memory>
        ensures now { IfOk result (λ state. state.now ≡ empty tables.now) }
        ensures kept { IfOk result (λ state. state.kept ≡ empty_kept tables.now) }
    {
        let current = Now::new(alloc, tables)?;
        let kept = empty_kept(alloc, tables)?;
        let index = Index::new(alloc, tables.devices())?;
        let addresses = AddressTable::new(alloc, first_address(tables.desk().net_id))?;
        Ok(State {
            current,
            kept,
            index,
            addresses,
            due: u64::MAX,
        })
    }

    // The table of addresses, while nothing has ended.
    pub(crate) fn table_at(&self, at: u64) -> Option<&AddressTable>
        ensures { IfSome result (λ t. IsTable t.now (lapse at self.now.now)) }
    {
        if at < self.due {
            Some(&self.addresses)
        } else {
            None
        }
    }

    /// What holds of every state.
    pub fn sound(&self)
        ensures sound { IsSound self.now.now }
        ensures kept { AllFew self.now.kept }
    {
        let _ = &self.current;
    }

    /// Makes room for what the entry adds. The one error is want of memory; all else stays.
    pub fn reserve(&mut self, entry: &Entry) -> Result<(), Memory>
        ensures now { self.new.now ≡ self.old.now }
        ensures kept { self.new.kept ≡ self.old.kept }
        ensures spare { OnOk result (needs entry.now.event ≤ self.new.spare) }
    {
        self.current.reserve(&entry.event)
    }

    /// Whether the entry fits: whether it may come next.
    pub fn fits(&self, entry: &Entry) -> bool
        ensures { result ≡ fits self.now.now entry.now }
    {
        self.current.fits(&self.index, entry)
    }

    /// What the entry makes of the state. It needs to fit, and room for what it adds; it is moved
    /// in, and takes no memory.
    pub fn apply(&mut self, entry: Entry)
        requires fits { IsTrue (fits self.old.now entry) }
        requires spare { needs entry.event ≤ self.old.spare }
        ensures now { self.new.now ≡ after self.old.now entry }
        ensures kept { self.new.kept ≡ kept_after self.old.now self.old.kept entry }
    {
        let Entry { moment, event } = entry;
        lapse(
            &mut self.current,
            &mut self.addresses,
            &mut self.due,
            moment.0,
        );
        let owners = self.current.touched(&self.index, &event);
        self.current.take_touched(&mut self.addresses, &owners);
        let who = self.current.wakes(&event);
        self.current.wake(who);
        self.due = self.due.min(event_end(&event));
        let kept = self.current.enter(&self.index, event);
        self.current.count(moment);
        self.current.put_touched(&mut self.addresses, &owners);
        keep(&mut self.kept, kept);
    }
}
