//! What an uplink, its downlink and an item of the application do to a device's contexts.

ghost use Rattle.std.specs.Prelude.{◌≡◌, ◌≤◌, length, IsTrue, if◌then◌else◌};
ghost use Rattle.std.specs.Option.{option_copied};
ghost use Rattle.contexts.specs.Queue.{pushed};
ghost use Rattle.contexts.specs.Slots.{woken};
ghost use Rattle.entry_codec.specs.Devices.{answered, heard};
ghost use Rattle.entry_codec.specs.Fits.{can_answer, can_hear, fits_slots, is_above, takes};

use contexts::{Context, Item, Slots, accept_up, next_down, push_item, take_item};
use entries::Downlink;

// Draws or takes what the downlink sends.
fn answer(context: &mut Context, down: Downlink)
    ensures { context.new ≡ answered down context.old }
{
    match down {
        Downlink::Nothing => {}
        Downlink::Empty => {
            let _ = next_down(context);
        }
        Downlink::FirstItem => {
            let _ = take_item(context);
        }
    }
}

/// An uplink, under the pending context or the active one.
#[tactic(auto, unfolding(crate::specs::Devices::heard))]
pub(crate) fn hear(slots: &mut Slots, pending: bool, count: u32, frame: &[u8], down: Downlink)
    requires { length frame.now ≤ 255 }
    ensures { slots.new ≡ heard pending count frame.now down slots.old }
{
    accept_up(slots, pending, count, frame);
    if let Some(context) = &mut slots.active {
        answer(context, down);
    }
}

/// Puts an item last into the queue.
pub(crate) fn queue(context: &mut Context, item: Item)
    requires { IsTrue (takes item.number context.old) }
    ensures { context.new ≡ pushed item context.old }
{
    let _ = push_item(context, item);
}

pub(crate) fn is_above(n: u16, last: Option<u16>) -> bool
    ensures { result ≡ is_above n last }
{
    match last {
        None => true,
        Some(last) => last < n,
    }
}

fn can_answer(down: Downlink, context: &Context) -> bool
    ensures { result ≡ can_answer down context.now }
{
    match down {
        Downlink::Nothing => true,
        Downlink::Empty => context.next_n < 0x1_0000_0000,
        Downlink::FirstItem => context.queue.len() > 0,
    }
}

fn can_hear(count: u32, down: Downlink, context: &Context) -> bool
    ensures { result ≡ can_hear count down context.now }
{
    let above = match context.last {
        None => true,
        Some(last) => last < count,
    };
    above && can_answer(down, context)
}

// The context that an uplink names, where it is there.
fn named(slots: &Slots, pending: bool) -> Option<&Context>
    ensures { option_copied result ≡ (if pending then slots.now.pending else slots.now.active) }
{
    if pending {
        slots.pending.as_ref()
    } else {
        slots.active.as_ref()
    }
}

/// Whether the context that an uplink names is there, and can hear it.
#[tactic(auto, unfolding(crate::specs::Fits::fits_slots))]
pub(crate) fn fits_slots(slots: &Slots, pending: bool, count: u32, down: Downlink) -> bool
    ensures { result ≡ fits_slots pending count down slots.now }
{
    match named(slots, pending) {
        None => false,
        Some(context) => can_hear(count, down, context),
    }
}

/// Whether an item of this number may be put into the queue.
pub(crate) fn takes(context: &Context, number: u32) -> bool
    ensures { result ≡ takes number context.now }
{
    context.next_a <= u64::from(number) && context.queue.len() < 8
}
