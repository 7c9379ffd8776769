//! What is read from a state; no look-up takes memory.

ghost use Rattle.std.specs.Prelude.{◌≡◌, option_map};
ghost use Rattle.std.specs.Option.{option_copied};
ghost use Rattle.wire_ids.specs.declared.address.DevAddr as dev_addr;
ghost use Rattle.entry_codec.specs.Fits.{can_hold, can_move, can_visit};
ghost use Rattle.entry_codec.specs.Free.{free_address};
ghost use Rattle.entry_codec.specs.Kept.{kept_answer};
ghost use Rattle.entry_codec.specs.LookUps.{at_home, is_asked, is_sender, live_context, slots_of};
ghost use Rattle.entry_codec.specs.LookUps.{visitor_of};
ghost use Rattle.entry_codec.specs.Machine.{held_session, holder_of, lapse, open_ask, place_of};
ghost use Rattle.entry_codec.specs.Machine.{wake, wakes};

use crate::kept::kept_answer;
use crate::{Device, Holder, KeptAnswers, LiveContext, OpenAsk, State, Visitor};
use contexts::Slots;
use entries::{Event, HeldSession};
use wire_ids::{DevAddr, Eui, Moment, NetId, Sender, ShortText};

// ---- the parts

impl State {
    /// The devices of the tables, in their order.
    pub fn devices(&self) -> &[Device]
        ensures { result.now ≡ self.now.now.devices }
    {
        self.current.devices.as_slice()
    }

    /// The visitors, by DevEUI.
    pub fn visitors(&self) -> &[Visitor]
        ensures { result.now ≡ self.now.now.visitors }
    {
        self.current.visitors.as_slice()
    }

    /// The held passive sessions, by NetID and address.
    pub fn held(&self) -> &[HeldSession]
        ensures { result.now ≡ self.now.now.held }
    {
        self.current.held.as_slice()
    }

    /// The open asks, by number.
    pub fn asks(&self) -> &[OpenAsk]
        ensures { result.now ≡ self.now.now.asks }
    {
        self.current.asks.as_slice()
    }

    /// The answers that are kept, by sender in the order of their bytes.
    pub fn kept(&self) -> &[KeptAnswers]
        ensures { result.now ≡ self.now.kept }
    {
        self.kept.as_slice()
    }

    /// The moment of the last entry, 0 before the first.
    pub fn moment(&self) -> Moment
        ensures { result.0 ≡ self.now.now.moment }
    {
        Moment(self.current.moment)
    }

    /// How many entries there were.
    pub fn entries(&self) -> u64
        ensures { result ≡ self.now.now.entries }
    {
        self.current.entries
    }
}

// ---- look-ups at a moment: what has ended by then is gone

impl State {
    /// The number of the device of the tables with this DevEUI, in logarithmic time.
    pub fn place(&self, dev: Eui) -> Option<u32>
        ensures { result ≡ place_of dev self.now.now }
    {
        self.current.place(&self.index, dev)
    }

    /// Whether the sender has a row.
    pub fn is_sender(&self, sender: Sender) -> bool
        ensures { result ≡ is_sender sender self.now.now }
    {
        self.current.is_sender(sender)
    }

    /// The answer that is kept for a sender's body.
    pub fn kept_answer(&self, sender: Sender, body: &[u8]) -> Option<&ShortText>
        ensures { option_copied result ≡ kept_answer sender body.now self.now.kept }
    {
        kept_answer(self.kept.as_slice(), sender, body)
    }

    /// Whether an open ask has this body.
    pub fn is_asked(&self, body: &[u8], at: Moment) -> bool
        ensures { result ≡ is_asked body.now (lapse at.0 self.now.now) }
    {
        self.current.is_asked(body, at.0)
    }

    /// The open ask of this number.
    pub fn open_ask(&self, number: u64, at: Moment) -> Option<&OpenAsk>
        ensures { option_copied result ≡ open_ask number (lapse at.0 self.now.now) }
    {
        self.current.open_ask(number, at.0)
    }

    /// The visitor with this DevEUI.
    pub fn visitor(&self, dev: Eui, at: Moment) -> Option<&Visitor>
        ensures { option_copied result ≡ visitor_of dev (lapse at.0 self.now.now) }
    {
        self.current.visitor(dev, at.0)
    }

    /// The held session of this network and address.
    pub fn held_session(&self, net: NetId, addr: DevAddr, at: Moment) -> Option<&HeldSession>
        ensures { option_copied result ≡ held_session net addr (lapse at.0 self.now.now) }
    {
        self.current.held_session(net, addr, at.0)
    }

    /// Whether the device is at home here.
    pub fn at_home(&self, dev: Eui, at: Moment) -> bool
        ensures { result ≡ at_home dev (lapse at.0 self.now.now) }
    {
        self.current.at_home(&self.index, dev, at.0)
    }

    /// Who has contexts by this DevEUI: a device at home here, or else a visitor.
    pub fn holder(&self, dev: Eui, at: Moment) -> Option<Holder>
        ensures { result ≡ holder_of dev (lapse at.0 self.now.now) }
    {
        self.current.holder_at(&self.index, dev, at.0)
    }

    /// The contexts of a device or a visitor.
    pub fn slots(&self, who: Option<Holder>, at: Moment) -> Option<&Slots>
        ensures { option_copied result ≡ slots_of who (lapse at.0 self.now.now) }
    {
        self.current.slots(who, at.0)
    }

    /// The context with this address, found in one step.
    #[tactic(auto, using(crate::proofs::Tabled::context_known))]
    pub fn live_context(&self, addr: DevAddr, at: Moment) -> Option<LiveContext>
        ensures { result ≡ live_context addr (lapse at.0 self.now.now) }
    {
        match self.table_at(at.0) {
            Some(table) if table.knows(addr) => {
                self.current.context_of(table.owner(addr), addr, at.0)
            }
            _ => self.current.live_context(addr, at.0),
        }
    }

    /// Whose pending context an event of this moment makes active before it is looked at.
    pub fn wakes(&self, event: &Event, at: Moment) -> Option<Holder>
        ensures { result ≡ wakes event.now (lapse at.0 self.now.now) }
    {
        self.current.wakes_at(event, at.0)
    }

    /// The least address of the network that no context and no open ask has, once the pending
    /// context of `who` is active; none exactly where all are taken.
    pub fn free_address(&self, net: NetId, who: Option<Holder>, at: Moment) -> Option<DevAddr>
        ensures { option_map (λ (a : dev_addr.DevAddr). a.0) result
            ≡ free_address net (wake who (lapse at.0 self.now.now)) }
    {
        self.current
            .free_address(self.table_at(at.0), net, who, at.0)
    }

    /// Whether the device may visit under the address of this ask.
    pub fn can_visit(&self, ask: u64, dev: Eui, addr: DevAddr, at: Moment) -> bool
        ensures { result ≡ can_visit ask dev addr (lapse at.0 self.now.now) }
    {
        self.current.can_visit(&self.index, ask, dev, addr, at.0)
    }

    /// Whether a session of this network, address and count may be held.
    pub fn can_hold(&self, net: NetId, addr: DevAddr, count: u32, at: Moment) -> bool
        ensures { result ≡ can_hold net addr count (lapse at.0 self.now.now) }
    {
        self.current.can_hold(net, addr, count, at.0)
    }

    /// Whether the count of a held session may be moved to this one.
    pub fn can_move(&self, net: NetId, addr: DevAddr, count: u32, at: Moment) -> bool
        ensures { result ≡ can_move net addr count (lapse at.0 self.now.now) }
    {
        self.current.can_move(net, addr, count, at.0)
    }
}
