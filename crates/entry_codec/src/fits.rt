//! Which entries fit, looked at in the state before the lapse.

ghost use Rattle.std.specs.List.{filter, list_any};
ghost use Rattle.std.specs.Option.{option_copied};
ghost use Rattle.std.specs.Prelude.{◌&&◌, ◌==◌, ◌≡◌, length, nat_lt, slice_get};
ghost use Rattle.wire_ids.specs.Lists.{holds_of};
ghost use Rattle.contexts.specs.Slots.{woken};
ghost use Rattle.entry_codec.specs.Fits.{can_queue, closes_open, counts_before, fits, fits_asked};
ghost use Rattle.entry_codec.specs.Fits.{fits_change, fits_count, fits_dropped, fits_effect};
ghost use Rattle.entry_codec.specs.Fits.{fits_event, fits_join, fits_lending, fits_own};
ghost use Rattle.entry_codec.specs.Fits.{fits_passive, fits_rejoin, fits_step, fits_told, fits_up};
ghost use Rattle.entry_codec.specs.Fits.{fits_used, has_pending, is_above_count, is_counted_below};
ghost use Rattle.entry_codec.specs.Fits.{is_free, is_guest_of, is_lent_at, is_lent_by, is_marked};
ghost use Rattle.entry_codec.specs.Fits.{is_time, may_ask, names_there, pending_is_there};
ghost use Rattle.entry_codec.specs.Index.{IsIndex, names};
ghost use Rattle.entry_codec.specs.LookUps.{device_named, is_sender, knows_peer, visitor_of};
ghost use Rattle.entry_codec.specs.Machine.{change_wakes, is_held_for, is_other, lapse};
ghost use Rattle.entry_codec.specs.Machine.{visitor_waking, wake, wakes, without};
ghost use Rattle.entry_codec.specs.Sound.{IsSound};

use crate::held::{is_held_for, is_the_network};
use crate::index::Index;
use crate::look_ups::asks_for;
use crate::now::Now;
use crate::uplink::{fits_slots, is_above, takes};
use crate::{Device, Holder, OpenAsk, Visitor};
use contexts::{Context, Slots};
use entries::{
    AskOutcome, Change, Effect, Entry, Event, Joined, Lending, NewAsk, OwnContext, PassiveUplink,
    Queued, RejoinCount, Rejoined, RoamingKind, Stopped, Uplink, UsedSeed,
};
use wire_ids::{DevAddr, Eui, Sender};

// ---- joins and rejoins

impl Now {
    fn fits_own(
        &self,
        own: Option<OwnContext>,
        device: &Device,
        who: Option<Holder>,
        at: u64,
    ) -> bool
        requires { IsSound self.now.machine }
        ensures { result ≡ fits_own own device.now (wake who (lapse at self.now.machine)) }
    {
        match own {
            None => true,
            Some(own) => device.is_home && !self.is_taken_awake(own.dev_addr, who, at),
        }
    }

    fn can_join(&self, join: &Joined, device: &Device, at: u64) -> bool
        requires { IsSound self.now.machine }
        ensures { result ≡ fits_join join.now (lapse at self.now.machine) device.now }
    {
        is_above(join.counter, device.dev_nonce)
            && device.join_nonce.get() < join.join_nonce.get()
            && self.fits_own(join.own, device, None, at)
    }

    // The same, of the device as it is before.
    fn could_join(&self, join: &Joined, at: u64) -> bool
        requires { IsSound self.now.machine }
        ensures { result ≡ holds_of (fits_join join.now (lapse at self.now.machine))
            (slice_get self.now.machine.devices join.now.device) }
    {
        match self.devices.as_slice().get(join.device as usize) {
            None => false,
            Some(device) => self.can_join(join, device, at),
        }
    }

    #[tactic(auto, using(crate::proofs::Ready::join_lapse))]
    fn fits_join(&self, join: &Joined, at: u64) -> bool
        requires { IsSound self.now.machine }
        ensures { result
            ≡ holds_of (fits_join join.now (lapse at self.now.machine))
            (slice_get (lapse at self.now.machine).devices join.now.device) }
    {
        self.could_join(join, at)
    }

    fn can_rejoin(&self, join: &Rejoined, device: &Device, who: Option<Holder>, at: u64) -> bool
        requires { IsSound self.now.machine }
        ensures { result ≡ fits_rejoin join.now (wake who (lapse at self.now.machine)) device.now }
    {
        can_use(join.used, join.counter, device)
            && device.join_nonce.get() < join.join_nonce.get()
            && self.fits_own(join.own, device, who, at)
    }

    // The same, of the device as it is before.
    fn could_rejoin(&self, join: &Rejoined, who: Option<Holder>, at: u64) -> bool
        requires { IsSound self.now.machine }
        ensures { result
            ≡ holds_of (fits_rejoin join.now (wake who (lapse at self.now.machine)))
            (slice_get self.now.machine.devices join.now.device) }
    {
        match self.devices.as_slice().get(join.device as usize) {
            None => false,
            Some(device) => self.can_rejoin(join, device, who, at),
        }
    }

    #[tactic(auto, using(crate::proofs::Ready::rejoin_ready))]
    fn fits_rejoin(&self, join: &Rejoined, who: Option<Holder>, at: u64) -> bool
        requires { IsSound self.now.machine }
        ensures { result
            ≡ holds_of (fits_rejoin join.now (wake who (lapse at self.now.machine)))
            (slice_get (wake who (lapse at self.now.machine)).devices join.now.device) }
    {
        self.could_rejoin(join, who, at)
    }

    fn could_lend(&self, lending: &Lending) -> bool
        ensures { result ≡ holds_of (fits_lending lending.now)
            (slice_get self.now.machine.devices lending.now.device) }
    {
        match self.devices.as_slice().get(lending.device as usize) {
            None => false,
            Some(device) => {
                can_step(lending.used, lending.counter, device)
                    && device.join_nonce.get() < lending.join_nonce.get()
            }
        }
    }

    #[tactic(auto, using(crate::proofs::Ready::lending_lapse))]
    fn fits_lending(&self, lending: &Lending, at: u64) -> bool
        ensures { result ≡ holds_of (fits_lending lending.now)
            (slice_get (lapse at self.now.machine).devices lending.now.device) }
    {
        self.could_lend(lending)
    }
}

fn is_above_count(place: u8, n: u16, device: &Device) -> bool
    ensures { result ≡ holds_of (is_above_count n) (slice_get device.now.seeds.items place) }
{
    match device.seeds.as_slice().get(place as usize) {
        None => false,
        Some(kept) => is_above(n, kept.rj_count0),
    }
}

// Whether the used seed is there, and the counter is above the last one.
fn can_use(used: UsedSeed, n: u16, device: &Device) -> bool
    ensures { result ≡ fits_used used n device.now }
{
    match used {
        UsedSeed::Rejoin0(place) => is_above_count(place.get(), n, device),
        UsedSeed::Rejoin1 => is_above(n, device.rj_count1),
        UsedSeed::Rejoin2(place) => is_above_count(place.get(), n, device),
    }
}

fn can_step(used: Option<UsedSeed>, n: u16, device: &Device) -> bool
    ensures { result ≡ fits_step used n device.now }
{
    match used {
        None => is_above(n, device.dev_nonce),
        Some(used) => can_use(used, n, device),
    }
}

// ---- uplinks, queues and what is dropped

impl Now {
    fn fits_up(&self, index: &Index, up: &Uplink, at: u64) -> bool
        requires { IsIndex index.now (names self.now.machine.devices) }
        ensures { result ≡ fits_up up.now (lapse at self.now.machine) }
    {
        up.frame.len() <= 255
            && match self.slots(self.holder_at(index, up.dev_eui, at), at) {
                None => false,
                Some(slots) => fits_slots(slots, up.pending, up.count, up.down),
            }
    }

    fn fits_passive(&self, index: &Index, passive: &PassiveUplink, at: u64) -> bool
        requires { IsIndex index.now (names self.now.machine.devices) }
        ensures { result ≡ fits_passive passive.now (lapse at self.now.machine) }
    {
        self.is_network_at(passive.net, at)
            && self.at_home(index, passive.up.dev_eui, at)
            && self.fits_up(index, &passive.up, at)
    }

    #[tactic(auto, unfolding(crate::specs::Fits::can_queue))]
    fn can_queue(&self, queued: &Queued) -> bool
        ensures { result ≡ holds_of (can_queue queued.now.number)
            (slice_get self.now.machine.devices queued.now.device) }
    {
        match self.devices.as_slice().get(queued.device as usize) {
            None => false,
            Some(device) => match &device.slots.active {
                None => false,
                Some(context) => takes(context, queued.number),
            },
        }
    }

    #[tactic(auto, using(crate::proofs::Ready::queue_lapse))]
    fn fits_queue(&self, queued: &Queued, at: u64) -> bool
        ensures { result ≡ holds_of (can_queue queued.now.number)
            (slice_get (lapse at self.now.machine).devices queued.now.device) }
    {
        self.can_queue(queued)
    }

    #[tactic(auto, unfolding(crate::specs::Machine::lapse))]
    fn has_held_for(&self, sender: Sender, dev: Eui, at: u64) -> bool
        ensures { result ≡ list_any (is_held_for sender dev) (lapse at self.now.machine).held }
    {
        self.held
            .iter()
            .filter(|held| at < held.until.0)
            .any(|held| is_held_for(held, sender, dev))
    }

    // Whether the device is lent to the sender.
    fn is_lent_by(&self, index: &Index, sender: Sender, dev: Eui, at: u64) -> bool
        requires { IsIndex index.now (names self.now.machine.devices) }
        ensures { result ≡ holds_of (is_lent_at at sender) (device_named dev self.now.machine) }
    {
        match self.device_named(index, dev) {
            None => false,
            Some(device) => match device.lent {
                None => false,
                Some(lent) => at < lent.until.0 && is_the_network(sender, lent.net),
            },
        }
    }

    #[tactic(auto, using(crate::proofs::Ready::lent_lapse))]
    fn is_lent_to(&self, index: &Index, sender: Sender, dev: Eui, at: u64) -> bool
        requires { IsIndex index.now (names self.now.machine.devices) }
        ensures { result
            ≡ holds_of (is_lent_by sender) (device_named dev (lapse at self.now.machine)) }
    {
        self.is_lent_by(index, sender, dev, at)
    }

    fn is_guest_of(&self, sender: Sender, dev: Eui, at: u64) -> bool
        ensures { result
            ≡ holds_of (is_guest_of sender) (visitor_of dev (lapse at self.now.machine)) }
    {
        match self.visitor(dev, at) {
            None => false,
            Some(visitor) => is_the_network(sender, visitor.home),
        }
    }

    fn fits_dropped(&self, index: &Index, sender: Sender, stopped: &Stopped, at: u64) -> bool
        requires { IsIndex index.now (names self.now.machine.devices) }
        ensures { result
            ≡ fits_dropped stopped.now.what sender stopped.now.dev_eui
            (lapse at self.now.machine) }
    {
        match stopped.what {
            RoamingKind::Held => self.has_held_for(sender, stopped.dev_eui, at),
            RoamingKind::Lent => self.is_lent_to(index, sender, stopped.dev_eui, at),
            RoamingKind::Visitor => self.is_guest_of(sender, stopped.dev_eui, at),
        }
    }

    // A change that makes no context active first.
    #[tactic(auto, unfolding(crate::specs::Fits::fits_change))]
    fn fits_change(
        &self,
        index: &Index,
        sender: Sender,
        change: &Change,
        who: Option<Holder>,
        at: u64,
    ) -> bool
        requires sound { IsSound self.now.machine }
        requires index { IsIndex index.now (names self.now.machine.devices) }
        requires who { who ≡ change_wakes change.now (lapse at self.now.machine) }
        ensures { result ≡ fits_change sender change.now (wake who (lapse at self.now.machine)) }
    {
        match change {
            Change::Join(join) => self.fits_join(join, at),
            Change::Rejoin(join) => self.fits_rejoin(join, who, at),
            Change::Lent(lending) => {
                self.is_network_at(lending.net, at) && self.fits_lending(lending, at)
            }
            Change::Up(up) => self.fits_up(index, up, at),
            Change::Passive(passive) => self.fits_passive(index, passive, at),
            Change::Queue(queued) => queued.payload.len() <= 242 && self.fits_queue(queued, at),
            Change::Dropped(stopped) => self.fits_dropped(index, sender, stopped, at),
        }
    }
}

// ---- asks and what peers answer

// Whether the RJcount0 is above the last one of the context under which the rejoin was heard.
fn counts_above(slots: &Slots, count: RejoinCount) -> bool
    ensures { result
        ≡ holds_of (is_counted_below count.count) (woken count.pending slots.now).active }
{
    match awake(slots, count.pending) {
        None => false,
        Some(context) => is_above(count.count, context.rj0),
    }
}

// The context that is active once the pending one is, where that is named.
fn awake(slots: &Slots, pending: bool) -> Option<&Context>
    ensures { option_copied result ≡ (woken pending slots.now).active }
{
    if pending {
        match &slots.pending {
            Some(context) => Some(context),
            None => slots.active.as_ref(),
        }
    } else {
        slots.active.as_ref()
    }
}

impl Now {
    #[tactic(auto, unfolding(crate::specs::Machine::lapse))]
    fn count_asks(&self, at: u64) -> usize
        ensures { result ≡ length (lapse at self.now.machine).asks }
    {
        self.asks.iter().filter(|ask| at < ask.ends.0).count()
    }

    #[tactic(auto, unfolding(crate::specs::Machine::lapse))]
    fn count_others(&self, number: u64, at: u64) -> usize
        ensures { result ≡ length (filter (is_other number) (lapse at self.now.machine).asks) }
    {
        self.asks
            .iter()
            .filter(|ask| at < ask.ends.0)
            .filter(|ask| ask.number != number)
            .count()
    }

    fn count_without(&self, closes: Option<u64>, at: u64) -> usize
        ensures { result ≡ length (without closes (lapse at self.now.machine).asks) }
    {
        match closes {
            None => self.count_asks(at),
            Some(number) => self.count_others(number, at),
        }
    }

    fn closes_open(&self, closes: Option<u64>, at: u64) -> bool
        ensures { result ≡ closes_open closes (lapse at self.now.machine) }
    {
        match closes {
            None => true,
            Some(number) => self.open_ask(number, at).is_some(),
        }
    }

    fn is_free(&self, addr: Option<DevAddr>, who: Option<Holder>, at: u64) -> bool
        requires { IsSound self.now.machine }
        ensures { result ≡ is_free addr (wake who (lapse at self.now.machine)) }
    {
        match addr {
            None => true,
            Some(addr) => !self.is_taken_awake(addr, who, at),
        }
    }

    fn counts_before(&self, dev: Option<Eui>, rejoin: Option<RejoinCount>, at: u64) -> bool
        ensures { result ≡ counts_before dev rejoin (lapse at self.now.machine) }
    {
        match rejoin {
            None => true,
            Some(rejoin) => match dev {
                None => false,
                Some(dev) => match self.visitor(dev, at) {
                    None => false,
                    Some(visitor) => counts_above(&visitor.slots, rejoin),
                },
            },
        }
    }

    #[tactic(auto, using(crate::proofs::Ready::count_awake))]
    fn fits_count(&self, dev: Option<Eui>, rejoin: Option<RejoinCount>, at: u64) -> bool
        ensures { result
            ≡ fits_count dev rejoin
            (wake (visitor_waking dev rejoin) (lapse at self.now.machine)) }
    {
        self.counts_before(dev, rejoin, at)
    }

    #[tactic(auto, unfolding(crate::specs::Machine::lapse))]
    fn knows_asker(&self, ask: &NewAsk, at: u64) -> bool
        ensures { result
            ≡ (is_sender ask.now.sender (lapse at self.now.machine)
            && knows_peer ask.now.target.peer (lapse at self.now.machine)) }
    {
        self.is_sender(ask.sender) && self.knows_peer(ask.target.peer)
    }

    // What an ask needs beside its address and its visitor's context.
    #[tactic(auto, unfolding(crate::specs::Fits::may_ask))]
    fn may_ask(&self, ask: &NewAsk, at: u64) -> bool
        ensures { result ≡ may_ask ask.now (lapse at self.now.machine) }
    {
        self.knows_asker(ask, at)
            && self.closes_open(ask.closes, at)
            && self.count_without(ask.closes, at) < 64
    }

    #[tactic(auto, using(crate::proofs::Ready::may_ask_awake))]
    fn may_ask_awake(&self, ask: &NewAsk, who: Option<Holder>, at: u64) -> bool
        ensures { result ≡ may_ask ask.now (wake who (lapse at self.now.machine)) }
    {
        self.may_ask(ask, at)
    }

    #[tactic(auto, unfolding(crate::specs::Fits::fits_asked))]
    fn fits_asked(&self, ask: &NewAsk, who: Option<Holder>, at: u64) -> bool
        requires sound { IsSound self.now.machine }
        requires who { who ≡ visitor_waking ask.now.target.dev_eui ask.now.target.rejoin }
        ensures { result ≡ fits_asked ask.now (wake who (lapse at self.now.machine)) }
    {
        self.may_ask_awake(ask, who, at)
            && self.is_free(ask.target.dev_addr, who, at)
            && self.fits_count(ask.target.dev_eui, ask.target.rejoin, at)
    }

    #[tactic(auto, unfolding(crate::specs::Fits::fits_effect))]
    fn fits_effect(
        &self,
        index: &Index,
        number: u64,
        effect: &Effect,
        ask: &OpenAsk,
        at: u64,
    ) -> bool
        requires { IsIndex index.now (names self.now.machine.devices) }
        ensures { result ≡ fits_effect number effect.now (lapse at self.now.machine) ask.now }
    {
        match effect {
            Effect::Nothing => true,
            Effect::Visitor(new) => self.is_network_at(new.home, at)
                && asks_for(ask, new.dev_addr)
                && self.can_visit(index, number, new.dev_eui, new.dev_addr, at),
            Effect::Held(new) => self.is_network_at(new.net, at)
                && self.can_hold(new.net, new.dev_addr, new.count, at),
            Effect::Counter(moved) => self.is_network_at(moved.net, at)
                && self.can_move(moved.net, moved.dev_addr, moved.count, at),
        }
    }

    fn fits_told(&self, index: &Index, outcome: &AskOutcome, at: u64) -> bool
        requires { IsIndex index.now (names self.now.machine.devices) }
        ensures { result ≡ fits_told outcome.now (lapse at self.now.machine) }
    {
        match self.open_ask(outcome.ask, at) {
            None => false,
            Some(ask) => self.fits_effect(index, outcome.ask, &outcome.effect, ask, at),
        }
    }
}

// ---- all entries

impl Now {
    fn is_time(&self, at: u64) -> bool
        ensures { result ≡ is_time at self.now.machine }
    {
        self.moment <= at && at <= 0x20_0000_0000_0000 && self.entries < 0x8000_0000_0000_0000
    }

    fn has_pending(&self, dev: Eui, at: u64) -> bool
        ensures { result ≡ holds_of has_pending (visitor_of dev (lapse at self.now.machine)) }
    {
        match self.visitor(dev, at) {
            None => false,
            Some(visitor) => visitor.slots.pending.is_some(),
        }
    }

    fn pending_is_there(&self, dev: Option<Eui>, rejoin: Option<RejoinCount>, at: u64) -> bool
        ensures { result ≡ pending_is_there dev rejoin (lapse at self.now.machine) }
    {
        match dev {
            None => true,
            Some(dev) => match rejoin {
                None => true,
                Some(rejoin) => !rejoin.pending || self.has_pending(dev, at),
            },
        }
    }

    #[tactic(auto, unfolding(crate::specs::Fits::names_there))]
    fn names_there(&self, event: &Event, at: u64) -> bool
        ensures { result ≡ names_there event.now (lapse at self.now.machine) }
    {
        match event {
            Event::Asked(ask) => {
                self.pending_is_there(ask.target.dev_eui, ask.target.rejoin, at)
            }
            _ => true,
        }
    }

    // Whether the device is there, and suspended or not.
    fn is_marked(&self, device: u32, suspended: bool) -> bool
        ensures { result ≡ holds_of (is_marked suspended)
            (slice_get self.now.machine.devices device) }
    {
        match self.devices.as_slice().get(device as usize) {
            None => false,
            Some(device) => device.suspended == suspended,
        }
    }

    #[tactic(auto, using(crate::proofs::Ready::mark_lapse))]
    fn is_marked_at(&self, device: u32, suspended: bool, at: u64) -> bool
        ensures { result ≡ holds_of (is_marked suspended)
            (slice_get (lapse at self.now.machine).devices device) }
    {
        self.is_marked(device, suspended)
    }

    #[tactic(auto, using(crate::proofs::Ready::senders_then))]
    fn is_sender_awake(&self, sender: Sender, who: Option<Holder>, at: u64) -> bool
        ensures { result ≡ is_sender sender (wake who (lapse at self.now.machine)) }
    {
        self.is_sender(sender)
    }

    #[tactic(auto, using(crate::proofs::Ready::entries_then))]
    fn has_begun(&self, who: Option<Holder>, at: u64) -> bool
        ensures { result ≡ nat_lt 0 (wake who (lapse at self.now.machine)).entries }
    {
        self.entries > 0
    }

    #[tactic(auto, using(crate::proofs::Ready::entries_then))]
    fn is_empty(&self, who: Option<Holder>, at: u64) -> bool
        ensures { result ≡ ((wake who (lapse at self.now.machine)).entries == 0) }
    {
        self.entries == 0
    }

    #[tactic(auto, unfolding(crate::specs::Fits::fits_event, crate::specs::Machine::wakes))]
    fn fits_event(&self, index: &Index, event: &Event, who: Option<Holder>, at: u64) -> bool
        requires sound { IsSound self.now.machine }
        requires index { IsIndex index.now (names self.now.machine.devices) }
        requires who { who ≡ wakes event.now (lapse at self.now.machine) }
        ensures { result ≡ fits_event event.now (wake who (lapse at self.now.machine)) }
    {
        let begun = self.has_begun(who, at);
        match event {
            Event::Opened => begun,
            Event::Tables(_) => self.is_empty(who, at),
            Event::Kept(request, change) => begun
                && self.is_sender_awake(request.sender, who, at)
                && self.fits_change(index, request.sender, change, who, at),
            Event::Asked(ask) => begun && self.fits_asked(ask, who, at),
            Event::Told(outcome) => begun && self.fits_told(index, outcome, at),
            Event::Suspend(device) => begun && self.is_marked_at(*device, false, at),
            Event::Resume(device) => begun && self.is_marked_at(*device, true, at),
        }
    }

    #[tactic(auto, using(crate::proofs::Ready::wakes_lapse))]
    pub(crate) fn wakes_at(&self, event: &Event, at: u64) -> Option<Holder>
        ensures { result ≡ wakes event.now (lapse at self.now.machine) }
    {
        self.wakes(event)
    }

    /// Whether the entry fits.
    #[tactic(auto, unfolding(crate::specs::Fits::fits, crate::specs::Machine::ready))]
    pub(crate) fn fits(&self, index: &Index, entry: &Entry) -> bool
        requires sound { IsSound self.now.machine }
        requires index { IsIndex index.now (names self.now.machine.devices) }
        ensures { result ≡ fits self.now.machine entry.now }
    {
        let at = entry.moment.0;
        let who = self.wakes_at(&entry.event, at);
        self.is_time(at)
            && self.names_there(&entry.event, at)
            && self.fits_event(index, &entry.event, who, at)
    }
}
