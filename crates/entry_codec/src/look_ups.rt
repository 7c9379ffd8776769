//! What decisions look for in a state, at a moment.

ghost use Rattle.std.specs.List.{filter, list_any};
ghost use Rattle.std.specs.Option.{option_copied};
ghost use Rattle.std.specs.Prelude.{◌||◌, ◌≡◌, length, nat_lt, option_map, slice_get};
ghost use Rattle.entry_codec.specs.Fits.{can_hold, can_move, can_visit};
ghost use Rattle.entry_codec.specs.Index.{IsIndex, names};
ghost use Rattle.entry_codec.specs.LookUps.{asks_for, at_home, device_has, device_named};
ghost use Rattle.entry_codec.specs.LookUps.{device_slots, has_visitor, is_network, is_sender};
ghost use Rattle.entry_codec.specs.LookUps.{is_taken, is_taken_beside, knows_peer, leaves, lives};
ghost use Rattle.entry_codec.specs.LookUps.{slot_has, slots_have, slots_of, visitor_has};
ghost use Rattle.entry_codec.specs.LookUps.{visitor_of};
ghost use Rattle.entry_codec.specs.Machine.{held_session, holder_of, is_other, lapse, open_ask};
ghost use Rattle.entry_codec.specs.Machine.{visitor_named, wake};
ghost use Rattle.entry_codec.specs.LookUps.{holder_with, is_active_at, is_asked, live_context};
ghost use Rattle.entry_codec.specs.LookUps.{visitor_with};
ghost use Rattle.wire_ids.specs.Lists.{holds_of};
ghost use Rattle.std.specs.Prelude.{◌≤◌, find, position, Some};
ghost use Rattle.entry_codec.specs.Sound.{IsSound};

use crate::held::{held_number, session_number};
use crate::index::Index;
use crate::kept::is_same_sender;
use crate::now::Now;
use crate::{Device, Holder, LiveContext, OpenAsk, Visitor};
use contexts::{Context, Slots};
use entries::HeldSession;
use wire_ids::{DevAddr, Eui, NetId, PeerId, Sender};

fn slot_has(slot: &Option<Context>, addr: DevAddr) -> bool
    ensures { result ≡ slot_has addr slot.now }
{
    match slot {
        None => false,
        Some(context) => context.addr.0 == addr.0,
    }
}

#[tactic(auto, unfolding(crate::specs::LookUps::slots_have))]
fn slots_have(slots: &Slots, addr: DevAddr) -> bool
    ensures { result ≡ slots_have addr slots.now }
{
    slot_has(&slots.active, addr) || slot_has(&slots.pending, addr)
}

pub(crate) fn asks_for(ask: &OpenAsk, addr: DevAddr) -> bool
    ensures { result ≡ asks_for addr ask.now }
{
    match ask.target.dev_addr {
        None => false,
        Some(own) => own.0 == addr.0,
    }
}

// ---- look-ups at a moment

impl Now {
    /// Whether the sender has a row.
    pub(crate) fn is_sender(&self, sender: Sender) -> bool
        ensures { result ≡ is_sender sender self.now.machine }
    {
        self.senders.iter().any(|own| is_same_sender(sender, *own))
    }

    /// Whether the network has a row.
    pub(crate) fn is_network(&self, net: NetId) -> bool
        ensures { result ≡ is_network net self.now.machine }
    {
        self.is_sender(Sender::Network(net))
    }

    pub(crate) fn knows_peer(&self, peer: PeerId) -> bool
        ensures { result ≡ knows_peer peer self.now.machine }
    {
        match peer {
            PeerId::Network(net) => self.is_network(net),
            PeerId::JoinServer(_) => true,
        }
    }

    /// The visitor of this name.
    #[tactic(auto, unfolding(crate::specs::Machine::lapse))]
    pub(crate) fn visitor(&self, dev: Eui, at: u64) -> Option<&Visitor>
        ensures { option_copied result ≡ visitor_of dev (lapse at self.now.machine) }
    {
        self.visitors
            .iter()
            .filter(|visitor| at < visitor.until.0)
            .find(|visitor| visitor.dev_eui.0 == dev.0)
    }

    #[tactic(auto, unfolding(crate::specs::Machine::lapse))]
    pub(crate) fn has_visitor(&self, dev: Eui, at: u64) -> bool
        ensures { result ≡ has_visitor dev (lapse at self.now.machine) }
    {
        self.visitors
            .iter()
            .filter(|visitor| at < visitor.until.0)
            .any(|visitor| visitor.dev_eui.0 == dev.0)
    }

    #[tactic(auto, unfolding(crate::specs::Machine::lapse))]
    pub(crate) fn count_visitors(&self, at: u64) -> usize
        ensures { result ≡ length (lapse at self.now.machine).visitors }
    {
        self.visitors
            .iter()
            .filter(|visitor| at < visitor.until.0)
            .count()
    }

    /// The open ask of this number.
    #[tactic(auto, unfolding(crate::specs::Machine::lapse))]
    pub(crate) fn open_ask(&self, number: u64, at: u64) -> Option<&OpenAsk>
        ensures { option_copied result ≡ open_ask number (lapse at self.now.machine) }
    {
        self.asks
            .iter()
            .filter(|ask| at < ask.ends.0)
            .find(|ask| ask.number == number)
    }

    /// The held session of this network and address.
    #[tactic(auto, unfolding(crate::specs::Machine::lapse))]
    pub(crate) fn held_session(&self, net: NetId, addr: DevAddr, at: u64) -> Option<&HeldSession>
        ensures { option_copied result ≡ held_session net addr (lapse at self.now.machine) }
    {
        let number = session_number(net, addr);
        self.held
            .iter()
            .filter(|held| at < held.until.0)
            .find(|held| held_number(held) == number)
    }

    #[tactic(auto, unfolding(crate::specs::Machine::lapse))]
    pub(crate) fn count_held(&self, at: u64) -> usize
        ensures { result ≡ length (lapse at self.now.machine).held }
    {
        self.held.iter().filter(|held| at < held.until.0).count()
    }

    fn device_has(&self, addr: DevAddr) -> bool
        ensures { result ≡ list_any (device_has addr) self.now.machine.devices }
    {
        self.devices
            .iter()
            .any(|device| slots_have(&device.slots, addr))
    }

    #[tactic(auto, using(crate::proofs::Ready::any_lapse))]
    fn has_own(&self, addr: DevAddr, at: u64) -> bool
        ensures { result ≡ list_any (device_has addr) (lapse at self.now.machine).devices }
    {
        self.device_has(addr)
    }

    #[tactic(auto, unfolding(crate::specs::Machine::lapse))]
    fn has_given(&self, addr: DevAddr, at: u64) -> bool
        ensures { result ≡ list_any (visitor_has addr) (lapse at self.now.machine).visitors }
    {
        self.visitors
            .iter()
            .filter(|visitor| at < visitor.until.0)
            .any(|visitor| slots_have(&visitor.slots, addr))
    }

    #[tactic(auto, unfolding(crate::specs::Machine::lapse))]
    fn has_asked(&self, addr: DevAddr, at: u64) -> bool
        ensures { result ≡ list_any (asks_for addr) (lapse at self.now.machine).asks }
    {
        self.asks
            .iter()
            .filter(|ask| at < ask.ends.0)
            .any(|ask| asks_for(ask, addr))
    }

    #[tactic(auto, unfolding(crate::specs::Machine::lapse))]
    fn has_asked_beside(&self, number: u64, addr: DevAddr, at: u64) -> bool
        ensures { result
            ≡ list_any (asks_for addr)
            (filter (is_other number) (lapse at self.now.machine).asks) }
    {
        self.asks
            .iter()
            .filter(|ask| at < ask.ends.0)
            .filter(|ask| ask.number != number)
            .any(|ask| asks_for(ask, addr))
    }

    #[tactic(auto, unfolding(crate::specs::LookUps::lives))]
    fn lives(&self, addr: DevAddr, at: u64) -> bool
        ensures { result ≡ lives addr (lapse at self.now.machine) }
    {
        self.has_own(addr, at) || self.has_given(addr, at)
    }

    /// Whether a context or an open ask has the address.
    #[tactic(auto, unfolding(crate::specs::LookUps::is_taken))]
    pub(crate) fn is_taken(&self, addr: DevAddr, at: u64) -> bool
        ensures { result ≡ is_taken addr (lapse at self.now.machine) }
    {
        self.lives(addr, at) || self.has_asked(addr, at)
    }

    #[tactic(auto, unfolding(crate::specs::LookUps::is_taken_beside))]
    pub(crate) fn is_taken_beside(&self, number: u64, addr: DevAddr, at: u64) -> bool
        ensures { result ≡ is_taken_beside number addr (lapse at self.now.machine) }
    {
        self.lives(addr, at) || self.has_asked_beside(number, addr, at)
    }

    fn device_slots(&self, device: u32) -> Option<&Slots>
        ensures { option_copied result
            ≡ option_map device_slots (slice_get self.now.machine.devices device) }
    {
        match self.devices.as_slice().get(device as usize) {
            None => None,
            Some(device) => Some(&device.slots),
        }
    }

    #[tactic(auto, using(crate::proofs::Ready::slots_lapse))]
    fn device_slots_at(&self, device: u32, at: u64) -> Option<&Slots>
        ensures { option_copied result
            ≡ option_map device_slots (slice_get (lapse at self.now.machine).devices device) }
    {
        self.device_slots(device)
    }

    /// The contexts of a device or a visitor.
    #[tactic(auto, unfolding(crate::specs::LookUps::slots_of))]
    pub(crate) fn slots(&self, who: Option<Holder>, at: u64) -> Option<&Slots>
        ensures { option_copied result ≡ slots_of who (lapse at self.now.machine) }
    {
        match who {
            None => None,
            Some(Holder::Device(device)) => self.device_slots_at(device, at),
            Some(Holder::Visitor(dev)) => match self.visitor(dev, at) {
                None => None,
                Some(visitor) => Some(&visitor.slots),
            },
        }
    }

    // Whether the address is that of an active context in whose place the pending one comes.
    #[tactic(auto, unfolding(crate::specs::LookUps::leaves))]
    fn leaves(&self, addr: DevAddr, who: Option<Holder>, at: u64) -> bool
        ensures { result ≡ leaves addr who (lapse at self.now.machine) }
    {
        match self.slots(who, at) {
            None => false,
            Some(slots) => slots.pending.is_some() && slot_has(&slots.active, addr),
        }
    }

    /// Whether a context or an open ask has the address, once the pending context of `who` is
    /// active.
    #[tactic(auto, using(crate::proofs::Ready::taken_awake, crate::proofs::Sound::sound_lapsed))]
    pub(crate) fn is_taken_awake(&self, addr: DevAddr, who: Option<Holder>, at: u64) -> bool
        requires { IsSound self.now.machine }
        ensures { result ≡ is_taken addr (wake who (lapse at self.now.machine)) }
    {
        !self.leaves(addr, who, at) && self.is_taken(addr, at)
    }

    #[tactic(auto, unfolding(crate::specs::Machine::lapse))]
    fn visitor_named_at(&self, dev: Eui, at: u64) -> Option<Holder>
        ensures { result ≡ visitor_named dev (lapse at self.now.machine).visitors }
    {
        if self.has_visitor(dev, at) {
            Some(Holder::Visitor(dev))
        } else {
            None
        }
    }

    pub(crate) fn device_named(&self, index: &Index, dev: Eui) -> Option<&Device>
        requires { IsIndex index.now (names self.now.machine.devices) }
        ensures { option_copied result ≡ device_named dev self.now.machine }
    {
        match self.place(index, dev) {
            None => None,
            Some(device) => self.devices.as_slice().get(device as usize),
        }
    }

    fn is_at_home(&self, index: &Index, dev: Eui) -> bool
        requires { IsIndex index.now (names self.now.machine.devices) }
        ensures { result ≡ at_home dev self.now.machine }
    {
        match self.device_named(index, dev) {
            None => false,
            Some(device) => device.is_home,
        }
    }

    /// Whether the device is at home here.
    #[tactic(auto, using(crate::proofs::Sound::home_lapse))]
    pub(crate) fn at_home(&self, index: &Index, dev: Eui, at: u64) -> bool
        requires { IsIndex index.now (names self.now.machine.devices) }
        ensures { result ≡ at_home dev (lapse at self.now.machine) }
    {
        self.is_at_home(index, dev)
    }

    /// Who has contexts by this name at a moment: a device at home here, or a visitor.
    #[tactic(auto, using(crate::proofs::Ready::holder_lapse))]
    pub(crate) fn holder_at(&self, index: &Index, dev: Eui, at: u64) -> Option<Holder>
        requires { IsIndex index.now (names self.now.machine.devices) }
        ensures { result ≡ holder_of dev (lapse at self.now.machine) }
    {
        if self.is_at_home(index, dev) {
            match self.place(index, dev) {
                None => None,
                Some(device) => Some(Holder::Device(device)),
            }
        } else {
            self.visitor_named_at(dev, at)
        }
    }

    #[tactic(auto, unfolding(crate::specs::Machine::lapse))]
    pub(crate) fn is_network_at(&self, net: NetId, at: u64) -> bool
        ensures { result ≡ is_network net (lapse at self.now.machine) }
    {
        self.is_network(net)
    }

    fn has_room_to_visit(&self, dev: Eui, at: u64) -> bool
        ensures { result
            ≡ (has_visitor dev (lapse at self.now.machine)
            || nat_lt (length (lapse at self.now.machine).visitors) 1024) }
    {
        self.has_visitor(dev, at) || self.count_visitors(at) < 1024
    }

    /// Whether the device may visit under the address of this ask.
    #[tactic(auto, unfolding(crate::specs::Fits::can_visit))]
    pub(crate) fn can_visit(
        &self,
        index: &Index,
        ask: u64,
        dev: Eui,
        addr: DevAddr,
        at: u64,
    ) -> bool
        requires { IsIndex index.now (names self.now.machine.devices) }
        ensures { result ≡ can_visit ask dev addr (lapse at self.now.machine) }
    {
        !self.at_home(index, dev, at)
            && !self.is_taken_beside(ask, addr, at)
            && self.has_room_to_visit(dev, at)
    }

    /// Whether a session may be held.
    #[tactic(auto, unfolding(crate::specs::Fits::can_hold))]
    pub(crate) fn can_hold(&self, net: NetId, addr: DevAddr, count: u32, at: u64) -> bool
        ensures { result ≡ can_hold net addr count (lapse at self.now.machine) }
    {
        match self.held_session(net, addr, at) {
            None => self.count_held(at) < 4096,
            Some(held) => held.count < count,
        }
    }

    /// Whether the count of a held session may be moved.
    #[tactic(auto, unfolding(crate::specs::Fits::can_move))]
    pub(crate) fn can_move(&self, net: NetId, addr: DevAddr, count: u32, at: u64) -> bool
        ensures { result ≡ can_move net addr count (lapse at self.now.machine) }
    {
        match self.held_session(net, addr, at) {
            None => false,
            Some(held) => held.count < count,
        }
    }

    fn device_with(&self, addr: DevAddr) -> Option<usize>
        ensures { result ≡ position (device_has addr) self.now.machine.devices }
    {
        self.devices
            .iter()
            .position(|device| slots_have(&device.slots, addr))
    }

    #[tactic(auto, using(crate::proofs::Ready::place_with))]
    fn device_with_at(&self, addr: DevAddr, at: u64) -> Option<usize>
        ensures { result ≡ position (device_has addr) (lapse at self.now.machine).devices }
    {
        self.device_with(addr)
    }

    #[tactic(auto, unfolding(crate::specs::Machine::lapse))]
    fn found_visitor(&self, addr: DevAddr, at: u64) -> Option<&Visitor>
        ensures { option_copied result
            ≡ find (visitor_has addr) (lapse at self.now.machine).visitors }
    {
        self.visitors
            .iter()
            .filter(|visitor| at < visitor.until.0)
            .find(|visitor| slots_have(&visitor.slots, addr))
    }

    fn visitor_with(&self, addr: DevAddr, at: u64) -> Option<Holder>
        ensures { result ≡ visitor_with addr (lapse at self.now.machine) }
    {
        match self.found_visitor(addr, at) {
            None => None,
            Some(visitor) => Some(Holder::Visitor(visitor.dev_eui)),
        }
    }

    // Who has the context with this address.
    #[tactic(auto, unfolding(crate::specs::LookUps::holder_with))]
    fn holder_with(&self, addr: DevAddr, at: u64) -> Option<Holder>
        requires { length self.now.machine.devices ≤ 4096 }
        ensures { result ≡ holder_with addr (lapse at self.now.machine) }
    {
        match self.device_with_at(addr, at) {
            None => self.visitor_with(addr, at),
            Some(device) => Some(Holder::Device(device as u32)),
        }
    }

    pub(crate) fn is_active_at(&self, addr: DevAddr, who: Holder, at: u64) -> bool
        ensures { result
            ≡ holds_of (is_active_at addr) (slots_of (Some who) (lapse at self.now.machine)) }
    {
        match self.slots(Some(who), at) {
            None => false,
            Some(slots) => slot_has(&slots.active, addr),
        }
    }

    /// The context with this address, in one pass over devices and visitors.
    #[tactic(auto, unfolding(crate::specs::LookUps::live_context))]
    pub(crate) fn live_context(&self, addr: DevAddr, at: u64) -> Option<LiveContext>
        requires { length self.now.machine.devices ≤ 4096 }
        ensures { result ≡ live_context addr (lapse at self.now.machine) }
    {
        match self.holder_with(addr, at) {
            None => None,
            Some(holder) => Some(LiveContext {
                holder,
                pending: !self.is_active_at(addr, holder, at),
            }),
        }
    }

    /// Whether an open ask has this body.
    #[tactic(auto, unfolding(crate::specs::Machine::lapse))]
    pub(crate) fn is_asked(&self, body: &[u8], at: u64) -> bool
        ensures { result ≡ is_asked body.now (lapse at self.now.machine) }
    {
        self.asks
            .iter()
            .filter(|ask| at < ask.ends.0)
            .any(|ask| ask.body.as_slice() == body)
    }
}
