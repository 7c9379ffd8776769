//! The table of addresses, kept as the state changes: whom an event may change is taken out
//! before, and put in after.

ghost use Rattle.std.specs.List.{list_any};
ghost use Rattle.std.specs.Option.{option_copied};
ghost use Rattle.std.specs.Prelude.{◌≡◌, ◌&&◌, [], Some, find, option_map, true};
ghost use Rattle.address_table.specs.declared.owner.Owner.TheVariants as owner;
ghost use Rattle.wire_ids.specs.Lists.{holds_of};
ghost use Rattle.wire_ids.specs.declared.address.DevAddr as dev_addr;
ghost use Rattle.entry_codec.specs.Addresses.{IsTable, IsTableBut, PutIn, TakenOut, ask_ended};
ghost use Rattle.entry_codec.specs.Addresses.{guest_ended, has, has_ended, holder_by, one_has};
ghost use Rattle.entry_codec.specs.Addresses.{owner_by, touched_by};
ghost use Rattle.entry_codec.specs.Addresses.{touched_by_change, touched_by_effect, touches};
ghost use Rattle.entry_codec.specs.Index.{IsIndex, names};
ghost use Rattle.entry_codec.specs.LookUps.{asks_for, live_at, slot_has, slots_have};
ghost use Rattle.entry_codec.specs.Machine.{has_number, is_visitor, lapse};
ghost use Rattle.entry_codec.specs.Sound.{IsSound};

use crate::index::Index;
use crate::now::Now;
use crate::{Holder, LiveContext, OpenAsk, Visitor};
use address_table::{AddressTable, Owner};
use contexts::{Context, Slots};
use entries::{Change, Effect, Event};
use wire_ids::{DevAddr, Eui};

/// Whose addresses an event may change.
#[derive(Clone, Copy)]
pub(crate) struct Touched {
    holder: Option<Owner>,
    closed: Option<Owner>,
    asked: Option<Owner>,
    all_asks: bool,
}

// ---- the addresses of one owner

fn take_slot(table: &mut AddressTable, slot: &Option<Context>)
    ensures { TakenOut (λ (a : dev_addr.DevAddr). slot_has a slot.now) table.old table.new }
{
    if let Some(context) = slot {
        table.take_out(context.addr);
    }
}

fn take_slots(table: &mut AddressTable, slots: &Slots)
    ensures { TakenOut (λ (a : dev_addr.DevAddr). slots_have a slots.now) table.old table.new }
{
    take_slot(table, &slots.active);
    take_slot(table, &slots.pending);
}

fn take_ask(table: &mut AddressTable, ask: &OpenAsk)
    ensures { TakenOut (λ (a : dev_addr.DevAddr). asks_for a ask.now) table.old table.new }
{
    if let Some(addr) = ask.target.dev_addr {
        table.take_out(addr);
    }
}

fn put_slot(table: &mut AddressTable, slot: &Option<Context>, owner: Owner)
    ensures { PutIn (Some owner) (λ (a : dev_addr.DevAddr). slot_has a slot.now)
        table.old table.new }
{
    if let Some(context) = slot {
        table.put(context.addr, owner);
    }
}

fn put_slots(table: &mut AddressTable, slots: &Slots, owner: Owner)
    ensures { PutIn (Some owner) (λ (a : dev_addr.DevAddr). slots_have a slots.now)
        table.old table.new }
{
    put_slot(table, &slots.active, owner);
    put_slot(table, &slots.pending, owner);
}

fn put_ask(table: &mut AddressTable, ask: &OpenAsk, owner: Owner)
    ensures { PutIn (Some owner) (λ (a : dev_addr.DevAddr). asks_for a ask.now)
        table.old table.new }
{
    if let Some(addr) = ask.target.dev_addr {
        table.put(addr, owner);
    }
}

impl Now {
    fn guest(&self, dev: Eui) -> Option<&Visitor>
        ensures { option_copied result ≡ find (is_visitor dev) self.now.machine.visitors }
    {
        self.visitors
            .iter()
            .find(|visitor| visitor.dev_eui.0 == dev.0)
    }

    fn ask_numbered(&self, number: u64) -> Option<&OpenAsk>
        ensures { option_copied result ≡ find (has_number number) self.now.machine.asks }
    {
        self.asks.iter().find(|ask| ask.number == number)
    }

    // Takes out the addresses that one has.
    #[tactic(auto, unfolding(crate::specs::Addresses::has))]
    fn take_device(&self, table: &mut AddressTable, device: u32)
        ensures { TakenOut (λ (a : dev_addr.DevAddr). has (owner.Device device) a self.now.machine)
            table.old table.new }
    {
        if let Some(device) = self.devices.as_slice().get(device as usize) {
            take_slots(table, &device.slots);
        }
    }

    fn take_visitor(&self, table: &mut AddressTable, dev: Eui)
        requires { IsSound self.now.machine }
        ensures { TakenOut (λ (a : dev_addr.DevAddr). has (owner.Visitor dev) a self.now.machine)
            table.old table.new }
    {
        if let Some(visitor) = self.guest(dev) {
            take_slots(table, &visitor.slots);
        }
    }

    fn take_numbered(&self, table: &mut AddressTable, number: u64)
        requires { IsSound self.now.machine }
        ensures { TakenOut (λ (a : dev_addr.DevAddr). has (owner.Ask number) a self.now.machine)
            table.old table.new }
    {
        if let Some(ask) = self.ask_numbered(number) {
            take_ask(table, ask);
        }
    }

    fn take_own(&self, table: &mut AddressTable, owner: Option<Owner>)
        requires { IsSound self.now.machine }
        ensures { TakenOut (λ (a : dev_addr.DevAddr). one_has owner a self.now.machine)
            table.old table.new }
    {
        match owner {
            None => {}
            Some(Owner::Device(device)) => self.take_device(table, device),
            Some(Owner::Visitor(dev)) => self.take_visitor(table, dev),
            Some(Owner::Ask(number)) => self.take_numbered(table, number),
        }
    }

    // Puts in the addresses that one has.
    #[tactic(auto, unfolding(crate::specs::Addresses::has))]
    fn put_device(&self, table: &mut AddressTable, device: u32)
        ensures { PutIn (Some (owner.Device device))
            (λ (a : dev_addr.DevAddr). has (owner.Device device) a self.now.machine)
            table.old table.new }
    {
        if let Some(own) = self.devices.as_slice().get(device as usize) {
            put_slots(table, &own.slots, Owner::Device(device));
        }
    }

    fn put_visitor(&self, table: &mut AddressTable, dev: Eui)
        requires { IsSound self.now.machine }
        ensures { PutIn (Some (owner.Visitor dev))
            (λ (a : dev_addr.DevAddr). has (owner.Visitor dev) a self.now.machine)
            table.old table.new }
    {
        if let Some(visitor) = self.guest(dev) {
            put_slots(table, &visitor.slots, Owner::Visitor(dev));
        }
    }

    fn put_numbered(&self, table: &mut AddressTable, number: u64)
        requires { IsSound self.now.machine }
        ensures { PutIn (Some (owner.Ask number))
            (λ (a : dev_addr.DevAddr). has (owner.Ask number) a self.now.machine)
            table.old table.new }
    {
        if let Some(ask) = self.ask_numbered(number) {
            put_ask(table, ask, Owner::Ask(number));
        }
    }

    fn put_own(&self, table: &mut AddressTable, owner: Option<Owner>)
        requires { IsSound self.now.machine }
        ensures { PutIn owner (λ (a : dev_addr.DevAddr). one_has owner a self.now.machine)
            table.old table.new }
    {
        match owner {
            None => {}
            Some(Owner::Device(device)) => self.put_device(table, device),
            Some(Owner::Visitor(dev)) => self.put_visitor(table, dev),
            Some(Owner::Ask(number)) => self.put_numbered(table, number),
        }
    }
}

// ---- all asks, and what has ended

fn take_asks(table: &mut AddressTable, asks: &[OpenAsk])
    ensures { TakenOut (λ (a : dev_addr.DevAddr). list_any (asks_for a) asks.now)
        table.old table.new }
{
    for ask in asks {
        take_ask(table, ask);
    }
}

fn take_ended_guest(table: &mut AddressTable, visitor: &Visitor, at: u64)
    ensures { TakenOut (λ (a : dev_addr.DevAddr). guest_ended at a visitor.now)
        table.old table.new }
{
    if visitor.until.0 <= at {
        take_slots(table, &visitor.slots);
    }
}

fn take_ended_guests(table: &mut AddressTable, visitors: &[Visitor], at: u64)
    ensures { TakenOut (λ (a : dev_addr.DevAddr). list_any (guest_ended at a) visitors.now)
        table.old table.new }
{
    for visitor in visitors {
        take_ended_guest(table, visitor, at);
    }
}

fn take_ended_ask(table: &mut AddressTable, ask: &OpenAsk, at: u64)
    ensures { TakenOut (λ (a : dev_addr.DevAddr). ask_ended at a ask.now) table.old table.new }
{
    if ask.ends.0 <= at {
        take_ask(table, ask);
    }
}

fn take_ended_asks(table: &mut AddressTable, asks: &[OpenAsk], at: u64)
    ensures { TakenOut (λ (a : dev_addr.DevAddr). list_any (ask_ended at a) asks.now)
        table.old table.new }
{
    for ask in asks {
        take_ended_ask(table, ask, at);
    }
}

impl Now {
    /// Takes out the addresses of what ends at this moment, or ended before.
    pub(crate) fn take_ended(&self, table: &mut AddressTable, at: u64)
        ensures { TakenOut (λ (a : dev_addr.DevAddr). has_ended at a self.now.machine)
            table.old table.new }
    {
        take_ended_guests(table, self.visitors.as_slice(), at);
        take_ended_asks(table, self.asks.as_slice(), at);
    }

    fn take_all_asks(&self, table: &mut AddressTable, all: bool)
        ensures { TakenOut
            (λ (a : dev_addr.DevAddr). all && list_any (asks_for a) self.now.machine.asks)
            table.old table.new }
    {
        if all {
            take_asks(table, self.asks.as_slice());
        }
    }

    /// Takes out the addresses of those that an event touches.
    pub(crate) fn take_touched(&self, table: &mut AddressTable, touched: &Touched)
        requires { IsSound self.now.machine }
        ensures { IsTable table.old self.now.machine →
            IsTableBut (touches touched.now) table.new self.now.machine }
    {
        self.take_own(table, touched.holder);
        self.take_own(table, touched.closed);
        self.take_own(table, touched.asked);
        self.take_all_asks(table, touched.all_asks);
    }

    /// Puts in the addresses that they have after it.
    pub(crate) fn put_touched(&self, table: &mut AddressTable, touched: &Touched)
        requires sound { IsSound self.now.machine }
        requires asks { touched.now.all_asks ≡ true → self.now.machine.asks ≡ [] }
        ensures { IsTableBut (touches touched.now) table.old self.now.machine →
            IsTable table.new self.now.machine }
    {
        self.put_own(table, touched.holder);
        self.put_own(table, touched.closed);
        self.put_own(table, touched.asked);
    }
}

// ---- whom an event touches

fn owner_by(who: Option<Holder>) -> Option<Owner>
    ensures { result ≡ option_map owner_by who }
{
    match who {
        None => None,
        Some(Holder::Device(device)) => Some(Owner::Device(device)),
        Some(Holder::Visitor(dev)) => Some(Owner::Visitor(dev)),
    }
}

fn touched_by_effect(effect: &Effect) -> Option<Owner>
    ensures { result ≡ touched_by_effect effect.now }
{
    match effect {
        Effect::Visitor(new) => Some(Owner::Visitor(new.dev_eui)),
        _ => None,
    }
}

impl Now {
    fn touched_by_change(&self, index: &Index, change: &Change) -> Option<Owner>
        requires { IsIndex index.now (names self.now.machine.devices) }
        ensures { result ≡ touched_by_change change.now self.now.machine }
    {
        match change {
            Change::Join(join) if join.own.is_some() => Some(Owner::Device(join.device)),
            Change::Join(_) => None,
            Change::Rejoin(join) => Some(Owner::Device(join.device)),
            Change::Lent(lending) => Some(Owner::Device(lending.device)),
            Change::Up(up) if up.pending => owner_by(self.holder(index, up.dev_eui)),
            Change::Up(_) => None,
            Change::Passive(passive) => owner_by(self.holder(index, passive.up.dev_eui)),
            Change::Queue(_) => None,
            Change::Dropped(stopped) => Some(Owner::Visitor(stopped.dev_eui)),
        }
    }

    /// Whose addresses an event may change.
    #[tactic(auto, unfolding(crate::specs::Addresses::touched_by))]
    pub(crate) fn touched(&self, index: &Index, event: &Event) -> Touched
        requires { IsIndex index.now (names self.now.machine.devices) }
        ensures { result ≡ touched_by event.now self.now.machine }
    {
        let mut touched = Touched {
            holder: None,
            closed: None,
            asked: None,
            all_asks: false,
        };
        match event {
            Event::Opened => touched.all_asks = true,
            Event::Tables(_) => {}
            Event::Kept(_, change) => touched.holder = self.touched_by_change(index, change),
            Event::Asked(ask) => {
                touched.holder = ask.target.dev_eui.map(Owner::Visitor);
                touched.closed = ask.closes.map(Owner::Ask);
                touched.asked = Some(Owner::Ask(self.entries));
            }
            Event::Told(outcome) => {
                touched.holder = touched_by_effect(&outcome.effect);
                touched.closed = Some(Owner::Ask(outcome.ask));
            }
            Event::Suspend(device) => touched.holder = Some(Owner::Device(*device)),
            Event::Resume(device) => touched.holder = Some(Owner::Device(*device)),
        }
        touched
    }
}

// ---- look-ups

fn holder_by(owner: Option<Owner>) -> Option<Holder>
    ensures { result ≡ holder_by owner }
{
    match owner {
        None => None,
        Some(Owner::Device(device)) => Some(Holder::Device(device)),
        Some(Owner::Visitor(dev)) => Some(Holder::Visitor(dev)),
        Some(Owner::Ask(_)) => None,
    }
}

impl Now {
    /// The context with this address, of whom the table has under it.
    pub(crate) fn context_of(
        &self,
        owner: Option<Owner>,
        addr: DevAddr,
        at: u64,
    ) -> Option<LiveContext>
        ensures { result ≡ live_at addr (holder_by owner) (lapse at self.now.machine) }
    {
        match holder_by(owner) {
            None => None,
            Some(holder) => Some(LiveContext {
                holder,
                pending: !self.is_active_at(addr, holder, at),
            }),
        }
    }
}
