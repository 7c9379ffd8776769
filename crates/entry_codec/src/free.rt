//! The least free address of a network: the table has it, and where it doesn't, one pass over all
//! that have addresses finds it.

ghost use Rattle.std.specs.Prelude.{◌≡◌, ◌+◌, ◌<◌, ◌&&◌, ℕ, false, length, not};
ghost use Rattle.std.specs.Prelude.{IfSome, option_map, position, slice_index_or};
ghost use Rattle.std.specs.List.{list_any};
ghost use Rattle.wire_ids.specs.declared.address.DevAddr as dev_addr;
ghost use Rattle.entry_codec.specs.Free.{IsFirstFree, Marks, addr_of, ask_stays, free_address};
ghost use Rattle.entry_codec.specs.Addresses.{IsTable};
ghost use Rattle.entry_codec.specs.Free.{is_the, leaving, slots_leave, visitor_stays};
ghost use Rattle.entry_codec.specs.LookUps.{device_has, is_addr, is_taken, slot_has, slots_have};
ghost use Rattle.entry_codec.specs.Machine.{lapse, wake};
ghost use Rattle.entry_codec.specs.Sound.{IsSound};

use crate::now::Now;
use crate::{Device, Holder, OpenAsk, Visitor};
use address_table::AddressTable;
use contexts::{Context, Slots};
use wire_ids::{DevAddr, NetId, address_of};

// At most 8,192 contexts of devices, 2,048 of visitors and 64 asks have an address, so that one
// window of numbers has a free one, or the network has none.
const WINDOW: usize = 10_368;

fn mark(marks: &mut [bool], first: u32, addr: DevAddr)
    ensures { Marks first (is_the addr) marks.old marks.new }
{
    if first <= addr.0 {
        let at = (addr.0 - first) as usize;
        if at < marks.len() {
            marks[at] = true;
        }
    }
}

fn mark_slot(marks: &mut [bool], first: u32, slot: &Option<Context>)
    ensures { Marks first (λ (a : dev_addr.DevAddr). slot_has a slot.now) marks.old marks.new }
{
    if let Some(context) = slot {
        mark(marks, first, context.addr);
    }
}

fn mark_slots(marks: &mut [bool], first: u32, slots: &Slots)
    ensures { Marks first (λ (a : dev_addr.DevAddr). slots_have a slots.now) marks.old marks.new }
{
    mark_slot(marks, first, &slots.active);
    mark_slot(marks, first, &slots.pending);
}

fn mark_devices(marks: &mut [bool], first: u32, devices: &[Device])
    ensures { Marks first (λ (a : dev_addr.DevAddr). list_any (device_has a) devices.now)
        marks.old marks.new }
{
    for device in devices {
        mark_slots(marks, first, &device.slots);
    }
}

fn mark_visitor(marks: &mut [bool], first: u32, visitor: &Visitor, at: u64)
    ensures { Marks first (λ (a : dev_addr.DevAddr). visitor_stays at a visitor.now)
        marks.old marks.new }
{
    if at < visitor.until.0 {
        mark_slots(marks, first, &visitor.slots);
    }
}

fn mark_visitors(marks: &mut [bool], first: u32, visitors: &[Visitor], at: u64)
    ensures { Marks first (λ (a : dev_addr.DevAddr). list_any (visitor_stays at a) visitors.now)
        marks.old marks.new }
{
    for visitor in visitors {
        mark_visitor(marks, first, visitor, at);
    }
}

fn mark_ask(marks: &mut [bool], first: u32, ask: &OpenAsk, at: u64)
    ensures { Marks first (λ (a : dev_addr.DevAddr). ask_stays at a ask.now) marks.old marks.new }
{
    if at < ask.ends.0 {
        if let Some(addr) = ask.target.dev_addr {
            mark(marks, first, addr);
        }
    }
}

fn mark_asks(marks: &mut [bool], first: u32, asks: &[OpenAsk], at: u64)
    ensures { Marks first (λ (a : dev_addr.DevAddr). list_any (ask_stays at a) asks.now)
        marks.old marks.new }
{
    for ask in asks {
        mark_ask(marks, first, ask, at);
    }
}

// The address of the active context in whose place the pending one comes.
fn slots_leave(slots: &Slots) -> Option<DevAddr>
    ensures { result ≡ slots_leave slots.now }
{
    match &slots.active {
        Some(context) if slots.pending.is_some() => Some(context.addr),
        _ => None,
    }
}

fn unmark(marks: &mut [bool], first: u32, addr: Option<DevAddr>)
    ensures { (length marks.new ≡ length marks.old) × ((i : ℕ) → i < length marks.old →
        slice_index_or marks.new i false
        ≡ (not (is_addr (addr_of (first + i)) addr) && slice_index_or marks.old i false)) }
{
    if let Some(addr) = addr {
        if first <= addr.0 {
            let at = (addr.0 - first) as usize;
            if at < marks.len() {
                marks[at] = false;
            }
        }
    }
}

fn first_free(marks: &[bool]) -> Option<usize>
    ensures { result ≡ position not marks.now }
{
    marks.iter().position(|taken| !*taken)
}

impl Now {
    fn leaving(&self, who: Option<Holder>, at: u64) -> Option<DevAddr>
        ensures { result ≡ leaving who (lapse at self.now.machine) }
    {
        match self.slots(who, at) {
            None => None,
            Some(slots) => slots_leave(slots),
        }
    }

    // Marks the addresses of the window that are taken.
    fn mark_taken(&self, marks: &mut [bool], first: u32, at: u64)
        ensures { Marks first (λ (a : dev_addr.DevAddr). is_taken a (lapse at self.now.machine))
            marks.old marks.new }
    {
        mark_devices(marks, first, self.devices.as_slice());
        mark_visitors(marks, first, self.visitors.as_slice(), at);
        mark_asks(marks, first, self.asks.as_slice(), at);
    }

    // The first number of the window that is free, found in one pass.
    fn first_unmarked(&self, first: u32, who: Option<Holder>, at: u64) -> Option<usize>
        requires { IsSound self.now.machine }
        ensures { IsFirstFree first
            (λ (a : dev_addr.DevAddr). is_taken a (wake who (lapse at self.now.machine)))
            result }
    {
        let mut marks = [false; WINDOW];
        self.mark_taken(&mut marks, first, at);
        unmark(&mut marks, first, self.leaving(who, at));
        first_free(&marks)
    }

    // The same, by the table where it has this window.
    fn free_in_window(
        &self,
        table: Option<&AddressTable>,
        first: u32,
        who: Option<Holder>,
        at: u64,
    ) -> Option<usize>
        requires sound { IsSound self.now.machine }
        requires table { IfSome table (λ t. IsTable t.now (lapse at self.now.machine)) }
        ensures { IsFirstFree first
            (λ (a : dev_addr.DevAddr). is_taken a (wake who (lapse at self.now.machine)))
            result }
    {
        match table {
            Some(table) if table.first().0 == first => table.first_free(self.leaving(who, at)),
            _ => self.first_unmarked(first, who, at),
        }
    }

    /// The least address of the network that no context and no open ask has at a moment, once the
    /// pending context of `who` is active; none exactly where all are taken.
    pub(crate) fn free_address(
        &self,
        table: Option<&AddressTable>,
        net: NetId,
        who: Option<Holder>,
        at: u64,
    ) -> Option<DevAddr>
        requires sound { IsSound self.now.machine }
        requires table { IfSome table (λ t. IsTable t.now (lapse at self.now.machine)) }
        ensures { option_map (λ (a : dev_addr.DevAddr). a.0) result
            ≡ free_address net (wake who (lapse at self.now.machine)) }
    {
        // It has 24 bits, and so at most 2^25 addresses.
        let _ = net.get();
        let mut from = 0;
        while let Some(first) = address_of(net, from) {
            if let Some(n) = self.free_in_window(table, first.0, who, at) {
                return address_of(net, from + n as u32);
            }
            from += WINDOW as u32;
        }
        None
    }
}
