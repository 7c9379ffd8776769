ghost use Rattle.std.specs.Prelude.{◌≡◌, ◌≤◌, length, None};
ghost use Rattle.contexts.specs.Contexts.{fresh_of};
ghost use Rattle.contexts.specs.Slots.{accepted, activated, offered};
ghost use Rattle.contexts.specs.Sound.{IsSoundContext, IsSoundSlots};

use crate::{Context, Origin};
use wire_ids::{DevAddr, Radio};

/// The contexts of one device.
#[derive(Drop)]
pub struct Slots {
    /// The context under which the device was heard last.
    pub active: Option<Context>,
    /// The context of the last accept, until the device is heard under it.
    pub pending: Option<Context>,
}

impl Slots {
    /// No context.
    pub fn new() -> Slots
        ensures { result ≡ record { active = None; pending = None } }
    {
        Slots {
            active: None,
            pending: None,
        }
    }
}

/// Makes this context the pending one, in place of the one that was.
pub fn offer(slots: &mut Slots, fresh: Context)
    ensures offered { slots.new ≡ offered fresh slots.old }
    ensures sound { IsSoundContext fresh → IsSoundSlots slots.old → IsSoundSlots slots.new }
{
    slots.pending = Some(fresh);
}

/// Makes a new context the pending one, as `offer` does with `Context::new`. Where one was, the new
/// one is laid over it, since whole contexts are large.
pub fn offer_new(slots: &mut Slots, addr: DevAddr, origin: Origin, radio: Radio)
    ensures offered { slots.new ≡ offered (fresh_of addr origin radio) slots.old }
    ensures sound { IsSoundSlots slots.old → IsSoundSlots slots.new }
{
    match &mut slots.pending {
        None => slots.pending = Some(Context::new(addr, origin, radio)),
        Some(context) => context.renew(addr, origin, radio),
    }
}

/// Makes the pending context the active one, in place of the one that was. Without a pending
/// context all stays.
pub fn activate(slots: &mut Slots)
    ensures activated { slots.new ≡ activated slots.old }
    ensures sound { IsSoundSlots slots.old → IsSoundSlots slots.new }
{
    if let Some(context) = slots.pending.take() {
        slots.active = Some(context);
    }
}

/// Keeps an uplink, of at most 255 bytes, as the last one of the active context, with its full
/// counter. Where it was heard under the pending context, that one becomes active before.
pub fn accept_up(slots: &mut Slots, pending: bool, count: u32, frame: &[u8])
    requires { length frame.now ≤ 255 }
    ensures accepted { slots.new ≡ accepted pending count frame.now slots.old }
    ensures sound { IsSoundSlots slots.old → IsSoundSlots slots.new }
{
    if pending {
        activate(slots);
    }
    if let Some(context) = &mut slots.active {
        context.last = Some(count);
        context.frame.clear();
        let _ = context.frame.try_extend_from_slice(frame);
    }
}
