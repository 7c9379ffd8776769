ghost use Rattle.std.specs.Prelude.{◌≡◌, ◌≤◌, ◌<◌, ◌^◌, length, slice_get, IsTrue, OnOk};
ghost use Rattle.wire_ids.specs.Lists.{at_place, changed, holds_of};
ghost use Rattle.entry_codec.specs.Devices.{called_back, can_grant, lent_out, queued};
ghost use Rattle.entry_codec.specs.Devices.{with_grant};
ghost use Rattle.entry_codec.specs.Fits.{can_queue, fits_change, fits_event};
ghost use Rattle.entry_codec.specs.Index.{IsIndex, names};
ghost use Rattle.entry_codec.specs.Kept.{kept_by, told_of, told_request};
ghost use Rattle.entry_codec.specs.LookUps.{device_named};
ghost use Rattle.entry_codec.specs.Machine.{asked, change_wakes, entered, granted_by, heard_in};
ghost use Rattle.entry_codec.specs.Machine.{holder_of, is_home, item_of, lent_to, on_device};
ghost use Rattle.entry_codec.specs.Machine.{lapse, on_change, on_dropped, on_effect, on_event};
ghost use Rattle.entry_codec.specs.Machine.{on_passive, on_place, on_slots, on_told, on_up};
ghost use Rattle.entry_codec.specs.Machine.{open_ask, place_of, visitor_waking, wake, wakes};
ghost use Rattle.std.specs.List.{list_any};
ghost use Rattle.entry_codec.specs.Machine.{is_visitor, visitor_named, with_rejoin, without};
ghost use Rattle.entry_codec.specs.State.{CanGrant, HasRoomAt, HasRoomFor, effect_needs, needs};

use crate::index::Index;
use crate::{Device, Granted, Holder, LentTo, OpenAsk, Visitor, asks, devices, held, visitors};
use arrayvec::ArrayVec;
use contexts::Item;
use entries::{
    AskOutcome, Change, Effect, Event, HeldSession, Joined, Lending, NewAsk, PassiveUplink, Queued,
    RejoinCount, Request, RoamingKind, Stopped, Uplink,
};
use std::marker::Model;
use wire_ids::{Eui, Memory, Moment, Sender, ShortText};

/// What decisions read, without what holds of every state.
#[derive(Drop)]
pub(crate) struct Now {
    pub(crate) devices: Vec<Device>,
    pub(crate) visitors: Vec<Visitor>,
    pub(crate) held: Vec<HeldSession>,
    pub(crate) asks: Vec<OpenAsk>,
    pub(crate) senders: Vec<Sender>,
    pub(crate) moment: u64,
    pub(crate) entries: u64,
}

impl Model for Now {
    ghost use Rattle.std.specs.Prelude.{◌-◌, ◌≤◌, vec_capacity, vec_len};
    ghost use Rattle.entry_codec.specs.State.{Room};

    ghost Value = { Room };

    ghost view = { λ a. record {
      machine = record {
        devices = a.devices.items;
        visitors = a.visitors.items;
        held = a.held.items;
        asks = a.asks.items;
        senders = a.senders.items;
        moment = a.moment;
        entries = a.entries;
      };
      spare = vec_capacity a.visitors - vec_len a.visitors;
    } };

    ghost invariant = { λ a. (64 ≤ vec_capacity a.asks) × (4096 ≤ vec_capacity a.held) };
}

impl Now {
    /// What ends at this moment, or ended before, is gone.
    #[tactic(auto, unfolding(crate::specs::Machine::lapse))]
    pub(crate) fn lapse(&mut self, at: u64)
        ensures machine { self.new.machine ≡ lapse at self.old.machine }
        ensures spare { self.old.spare ≤ self.new.spare }
    {
        devices::lapse(&mut self.devices, at);
        visitors::lapse(&mut self.visitors, at);
        held::lapse(&mut self.held, at);
        asks::lapse(&mut self.asks, at);
    }

    // The place of this device in the tables.
    #[tactic(auto, using(crate::proofs::Names::place_by_name))]
    pub(crate) fn place(&self, index: &Index, dev: Eui) -> Option<u32>
        requires { IsIndex index.now (names self.now.machine.devices) }
        ensures { result ≡ place_of dev self.now.machine }
    {
        index.find(dev)
    }

    fn is_visitor(&self, dev: Eui) -> bool
        ensures { result ≡ list_any (is_visitor dev) self.now.machine.visitors }
    {
        self.visitors
            .iter()
            .any(|visitor| visitor.dev_eui.0 == dev.0)
    }

    fn visitor_named(&self, dev: Eui) -> Option<Holder>
        ensures { result ≡ visitor_named dev self.now.machine.visitors }
    {
        if self.is_visitor(dev) {
            Some(Holder::Visitor(dev))
        } else {
            None
        }
    }

    fn is_home(&self, device: u32) -> bool
        ensures { result ≡ holds_of is_home (slice_get self.now.machine.devices device) }
    {
        match self.devices.as_slice().get(device as usize) {
            None => false,
            Some(device) => device.is_home,
        }
    }

    /// Who has contexts by this name: a device at home here, or a visitor.
    #[tactic(auto, unfolding(crate::specs::Machine::holder_of))]
    pub(crate) fn holder(&self, index: &Index, dev: Eui) -> Option<Holder>
        requires { IsIndex index.now (names self.now.machine.devices) }
        ensures { result ≡ holder_of dev self.now.machine }
    {
        match self.place(index, dev) {
            None => self.visitor_named(dev),
            Some(device) => {
                if self.is_home(device) {
                    Some(Holder::Device(device))
                } else {
                    self.visitor_named(dev)
                }
            }
        }
    }

    fn change_wakes(&self, change: &Change) -> Option<Holder>
        ensures { result ≡ change_wakes change.now self.now.machine }
    {
        match change {
            Change::Rejoin(join) => match self.devices.as_slice().get(join.device as usize) {
                Some(device) if device.uses_pending(join.used) => {
                    Some(Holder::Device(join.device))
                }
                _ => None,
            },
            _ => None,
        }
    }

    /// Whose pending context an event makes active first.
    #[tactic(auto, unfolding(crate::specs::Machine::wakes))]
    pub(crate) fn wakes(&self, event: &Event) -> Option<Holder>
        ensures { result ≡ wakes event.now self.now.machine }
    {
        match event {
            Event::Kept(_, change) => self.change_wakes(change),
            Event::Asked(ask) => visitor_waking(ask.target.dev_eui, ask.target.rejoin),
            _ => None,
        }
    }

    /// Makes the pending context of a device or visitor active.
    pub(crate) fn wake(&mut self, who: Option<Holder>)
        ensures machine { self.new.machine ≡ wake who self.old.machine }
        ensures spare { self.old.spare ≤ self.new.spare }
    {
        match who {
            None => {}
            Some(Holder::Device(device)) => devices::wake(&mut self.devices, device),
            Some(Holder::Visitor(dev)) => visitors::wake(&mut self.visitors, dev),
        }
    }

    // An uplink of this device or visitor.
    fn hear_in(&mut self, who: Option<Holder>, up: &Uplink)
        requires { length up.now.frame ≤ 255 }
        ensures { self.new.machine ≡ heard_in up.now who self.old.machine }
    {
        let frame = up.frame.as_slice();
        match who {
            None => {}
            Some(Holder::Device(device)) => devices::hear(
                &mut self.devices,
                device,
                up.pending,
                up.count,
                frame,
                up.down,
            ),
            Some(Holder::Visitor(dev)) => visitors::hear(
                &mut self.visitors,
                dev,
                up.pending,
                up.count,
                frame,
                up.down,
            ),
        }
    }

    fn hear(&mut self, index: &Index, up: &Uplink)
        requires index { IsIndex index.now (names self.old.machine.devices) }
        requires frame { length up.now.frame ≤ 255 }
        ensures { self.new.machine ≡ on_up up.now self.old.machine }
    {
        let who = self.holder(index, up.dev_eui);
        self.hear_in(who, up);
    }

    // Grants a session of the device in this place.
    fn grant(&mut self, place: Option<u32>, new: Granted)
        requires { IsTrue (holds_of (can_grant new) (at_place self.old.machine.devices place)) }
        ensures { self.new.machine ≡ on_place place (with_grant new) self.old.machine }
    {
        if let Some(device) = place {
            devices::grant(&mut self.devices, device, new);
        }
    }

    fn hear_passive(&mut self, index: &Index, passive: &PassiveUplink)
        requires index { IsIndex index.now (names self.old.machine.devices) }
        requires frame { length passive.now.up.frame ≤ 255 }
        requires room { IsTrue (holds_of (can_grant (granted_by passive.now))
            (device_named passive.now.up.dev_eui self.old.machine)) }
        ensures { self.new.machine ≡ on_passive passive.now self.old.machine }
    {
        let who = self.holder(index, passive.up.dev_eui);
        let place = self.place(index, passive.up.dev_eui);
        let new = Granted {
            net: passive.net,
            until: passive.until,
        };
        self.grant(place, new);
        self.hear_in(who, &passive.up);
    }

    fn queue(&mut self, item: &Queued)
        requires payload { length item.now.payload ≤ 242 }
        requires room { IsTrue (holds_of (can_queue item.now.number)
            (slice_get self.old.machine.devices item.now.device)) }
        ensures { self.new.machine
            ≡ on_device item.now.device (queued (item_of item.now)) self.old.machine }
    {
        let mut payload = ArrayVec::new();
        let _ = payload.try_extend_from_slice(item.payload.as_slice());
        let new = Item {
            number: item.number,
            port: item.port,
            confirmed: item.confirmed,
            payload,
        };
        devices::push(&mut self.devices, item.device, new);
    }

    fn call_back(&mut self, place: Option<u32>)
        ensures { self.new.machine ≡ on_place place called_back self.old.machine }
    {
        if let Some(device) = place {
            devices::call_back(&mut self.devices, device);
        }
    }

    fn stop(&mut self, index: &Index, sender: Sender, stopped: Stopped)
        requires { IsIndex index.now (names self.old.machine.devices) }
        ensures { self.new.machine
            ≡ on_dropped stopped.what sender stopped.dev_eui self.old.machine }
    {
        match stopped.what {
            RoamingKind::Held => held::stop(&mut self.held, sender, stopped.dev_eui),
            RoamingKind::Lent => {
                let place = self.place(index, stopped.dev_eui);
                self.call_back(place);
            }
            RoamingKind::Visitor => visitors::leave(&mut self.visitors, stopped.dev_eui),
        }
    }

    // What a request that was answered with Success changes.
    #[tactic(auto, unfolding(crate::specs::Machine::on_change, crate::specs::Fits::fits_change))]
    fn change(&mut self, index: &Index, sender: Sender, change: Change)
        requires index { IsIndex index.now (names self.old.machine.devices) }
        requires fits { IsTrue (fits_change sender change self.old.machine) }
        requires granted { CanGrant change self.old.machine }
        ensures { self.new.machine ≡ on_change sender change self.old.machine }
    {
        match change {
            Change::Join(join) => devices::join(&mut self.devices, join),
            Change::Rejoin(join) => devices::rejoin(&mut self.devices, join),
            Change::Lent(lending) => lend(&mut self.devices, &lending),
            Change::Up(up) => self.hear(index, &up),
            Change::Passive(passive) => self.hear_passive(index, &passive),
            Change::Queue(queued) => self.queue(&queued),
            Change::Dropped(stopped) => self.stop(index, sender, stopped),
        }
    }

    fn count_rejoin(&mut self, dev: Option<Eui>, rejoin: Option<RejoinCount>)
        ensures { self.new.machine ≡ with_rejoin dev rejoin self.old.machine }
    {
        if let Some(dev) = dev {
            if let Some(rejoin) = rejoin {
                visitors::count(&mut self.visitors, dev, rejoin.count);
            }
        }
    }

    // Closes the ask in whose place another comes.
    fn close(&mut self, closes: Option<u64>)
        ensures { self.new.machine
            ≡ record self.old.machine { asks = without closes self.old.machine.asks } }
    {
        if let Some(number) = closes {
            asks::close(&mut self.asks, number);
        }
    }

    fn ask(&mut self, ask: NewAsk)
        requires { length (without ask.closes self.old.machine.asks) < 64 }
        ensures { self.new.machine
            ≡ with_rejoin ask.target.dev_eui ask.target.rejoin (asked ask self.old.machine) }
    {
        let NewAsk {
            closes,
            sender,
            body,
            target,
            ends,
        } = ask;
        let dev = target.dev_eui;
        let rejoin = target.rejoin;
        self.close(closes);
        self.asks.push_reserved(OpenAsk {
            number: self.entries,
            sender,
            body,
            target,
            ends,
        });
        self.count_rejoin(dev, rejoin);
    }

    // What a peer's answer makes.
    #[tactic(auto, unfolding(crate::specs::Machine::on_effect))]
    fn take_effect(&mut self, effect: &Effect)
        requires visitor { effect_needs effect.now ≤ self.old.spare }
        requires room { HasRoomFor effect.now self.old.machine }
        ensures { self.new.machine
            ≡ on_effect self.old.machine.entries effect.now self.old.machine }
    {
        match effect {
            Effect::Nothing => {}
            Effect::Visitor(new) => visitors::visit(&mut self.visitors, self.entries, new),
            Effect::Held(new) => held::hold(&mut self.held, new),
            Effect::Counter(moved) => held::move_count(&mut self.held, moved),
        }
    }

    // A peer's answer came, or none will.
    fn tell(&mut self, outcome: AskOutcome) -> Option<Request>
        requires visitor { effect_needs outcome.effect ≤ self.old.spare }
        requires room { HasRoomFor outcome.effect self.old.machine }
        ensures machine { self.new.machine ≡ on_told outcome self.old.machine }
        ensures kept { result ≡ told_of outcome (open_ask outcome.ask self.old.machine) }
    {
        let AskOutcome {
            ask,
            kept,
            answer,
            effect,
        } = outcome;
        let closed = asks::take_out(&mut self.asks, ask);
        self.take_effect(&effect);
        told_request(kept, answer, closed)
    }

    /// What an event makes of a state in which what has ended is gone, and its named context is
    /// active; and the request whose answer is kept.
    #[tactic(auto, unfolding(crate::specs::Machine::on_event, crate::specs::Fits::fits_event))]
    pub(crate) fn enter(&mut self, index: &Index, event: Event) -> Option<Request>
        requires index { IsIndex index.now (names self.old.machine.devices) }
        requires fits { IsTrue (fits_event event self.old.machine) }
        requires room { HasRoomAt event self.old.machine }
        requires spare { needs event ≤ self.old.spare }
        ensures machine { self.new.machine ≡ on_event event self.old.machine }
        ensures kept { result ≡ kept_by event self.old.machine }
    {
        match event {
            Event::Opened => {
                self.asks.clear();
                None
            }
            Event::Tables(_) => None,
            Event::Kept(request, change) => {
                self.change(index, request.sender, change);
                Some(request)
            }
            Event::Asked(ask) => {
                self.ask(ask);
                None
            }
            Event::Told(outcome) => self.tell(outcome),
            Event::Suspend(device) => {
                devices::mark(&mut self.devices, device, true);
                None
            }
            Event::Resume(device) => {
                devices::mark(&mut self.devices, device, false);
                None
            }
        }
    }

    /// Makes room for what an event adds.
    pub(crate) fn reserve(&mut self, event: &Event) -> Result<(), Memory>
        ensures machine { self.new.machine ≡ self.old.machine }
        ensures spare { OnOk result (needs event.now ≤ self.new.spare) }
    {
        match event {
            Event::Told(outcome) => match &outcome.effect {
                Effect::Visitor(_) => Ok(self.visitors.reserve(1)?),
                _ => Ok(()),
            },
            _ => Ok(()),
        }
    }

    /// Keeps an entry's moment, and counts it.
    pub(crate) fn count(&mut self, moment: Moment)
        requires { self.old.machine.entries < 2 ^ 63 }
        ensures machine { self.new.machine ≡ entered moment.0 self.old.machine }
        ensures spare { self.old.spare ≤ self.new.spare }
    {
        self.moment = moment.0;
        self.entries += 1;
    }
}

// The request that an ask's answer is kept for, where it is.
fn told_request(kept: bool, answer: ShortText, closed: Option<OpenAsk>) -> Option<Request>
    ensures { result ≡ told_request kept answer closed }
{
    match closed {
        Some(ask) if kept => Some(Request {
            sender: ask.sender,
            body: ask.body,
            answer,
        }),
        _ => None,
    }
}

fn visitor_waking(dev: Option<Eui>, rejoin: Option<RejoinCount>) -> Option<Holder>
    ensures { result ≡ visitor_waking dev rejoin }
{
    match dev {
        None => None,
        Some(dev) => match rejoin {
            Some(rejoin) if rejoin.pending => Some(Holder::Visitor(dev)),
            _ => None,
        },
    }
}

fn lend(devices: &mut Vec<Device>, lending: &Lending)
    ensures { devices.new.items
        ≡ changed lending.now.device
        (lent_out lending.now.used lending.now.counter lending.now.join_nonce
        (lent_to lending.now))
        devices.old.items }
{
    let to = LentTo {
        net: lending.net,
        until: lending.until,
    };
    devices::lend(
        devices,
        lending.device,
        lending.used,
        lending.counter,
        lending.join_nonce,
        to,
    );
}
