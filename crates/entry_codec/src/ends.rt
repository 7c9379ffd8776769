//! When something ends for the first time.

ghost use Rattle.std.specs.Prelude.{◌≡◌, ◌≤◌};
ghost use Rattle.std.specs.List.{AllByRecursion};
ghost use Rattle.entry_codec.specs.Ends.{AskEndsFrom, DeviceEndsFrom, EndsFrom, HeldEndsFrom};
ghost use Rattle.entry_codec.specs.Ends.{IsGrantedFrom, IsLentFrom, VisitorEndsFrom};
ghost use Rattle.entry_codec.specs.Ends.{change_end, effect_end, event_end};

use crate::now::Now;
use crate::{Device, Granted, LentTo, OpenAsk, Visitor};
use entries::{Change, Effect, Event, HeldSession};

fn least_granted(granted: &[Granted], most: u64) -> u64
    ensures all { AllByRecursion (IsGrantedFrom result) granted.now }
    ensures most { result ≤ most }
{
    let mut least = most;
    for one in granted {
        least = least.min(one.until.0);
    }
    least
}

fn least_lent(lent: &Option<LentTo>, most: u64) -> u64
    ensures lent { IsLentFrom result lent.now }
    ensures most { result ≤ most }
{
    match lent {
        None => most,
        Some(lent) => most.min(lent.until.0),
    }
}

fn least_device(device: &Device, most: u64) -> u64
    ensures device { DeviceEndsFrom result device.now }
    ensures most { result ≤ most }
{
    least_granted(device.granted.as_slice(), least_lent(&device.lent, most))
}

fn least_devices(devices: &[Device], most: u64) -> u64
    ensures all { AllByRecursion (DeviceEndsFrom result) devices.now }
    ensures most { result ≤ most }
{
    let mut least = most;
    for device in devices {
        least = least_device(device, least);
    }
    least
}

fn least_visitors(visitors: &[Visitor], most: u64) -> u64
    ensures all { AllByRecursion (VisitorEndsFrom result) visitors.now }
    ensures most { result ≤ most }
{
    let mut least = most;
    for visitor in visitors {
        least = least.min(visitor.until.0);
    }
    least
}

fn least_held(held: &[HeldSession], most: u64) -> u64
    ensures all { AllByRecursion (HeldEndsFrom result) held.now }
    ensures most { result ≤ most }
{
    let mut least = most;
    for session in held {
        least = least.min(session.until.0);
    }
    least
}

fn least_asks(asks: &[OpenAsk], most: u64) -> u64
    ensures all { AllByRecursion (AskEndsFrom result) asks.now }
    ensures most { result ≤ most }
{
    let mut least = most;
    for ask in asks {
        least = least.min(ask.ends.0);
    }
    least
}

impl Now {
    /// A moment before which nothing ends: the least end, found in one pass.
    pub(crate) fn least_end(&self) -> u64
        ensures { EndsFrom result self.now.machine }
    {
        let devices = least_devices(self.devices.as_slice(), u64::MAX);
        let visitors = least_visitors(self.visitors.as_slice(), devices);
        let held = least_held(self.held.as_slice(), visitors);
        least_asks(self.asks.as_slice(), held)
    }
}

fn change_end(change: &Change) -> u64
    ensures { result ≡ change_end change.now }
{
    match change {
        Change::Lent(lending) => lending.until.0,
        Change::Passive(passive) => passive.until.0,
        _ => u64::MAX,
    }
}

fn effect_end(effect: &Effect) -> u64
    ensures { result ≡ effect_end effect.now }
{
    match effect {
        Effect::Visitor(new) => new.until.0,
        Effect::Held(new) => new.until.0,
        _ => u64::MAX,
    }
}

/// The end that an event adds, or the last moment that there is.
#[tactic(auto, unfolding(crate::specs::Ends::event_end))]
pub(crate) fn event_end(event: &Event) -> u64
    ensures { result ≡ event_end event.now }
{
    match event {
        Event::Kept(_, change) => change_end(change),
        Event::Asked(ask) => ask.ends.0,
        Event::Told(outcome) => effect_end(&outcome.effect),
        _ => u64::MAX,
    }
}
