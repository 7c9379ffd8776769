//! One device of all changed by a step; a number without a device changes nothing.

ghost use Rattle.std.specs.Prelude.{◌≡◌, ◌≤◌, length, map, IsTrue, slice_get};
ghost use Rattle.wire_ids.specs.Lists.{changed, holds_of};
ghost use Rattle.entry_codec.specs.Devices.{called_back, heard, in_slots, joined, lapsed, lent_out};
ghost use Rattle.contexts.specs.Slots.{activated};
ghost use Rattle.entry_codec.specs.Devices.{marked, queued, rejoined, with_grant, can_grant};
ghost use Rattle.entry_codec.specs.Fits.{can_queue};

use crate::uplink::hear as hear_in;
use crate::{Device, Granted, LentTo};
use contexts::{Item, activate};
use entries::{Downlink, Joined, Rejoined, UsedSeed};
use wire_ids::Nonce24;

/// What ends at this moment, or ended before, is gone in each.
pub(crate) fn lapse(devices: &mut Vec<Device>, at: u64)
    ensures { devices.new.items ≡ map (lapsed at) devices.old.items }
{
    let count = devices.len();
    for i in 0..count {
        let device = &mut devices[i];
        device.lapse(at);
    }
}

pub(crate) fn join(devices: &mut Vec<Device>, join: Joined)
    ensures { devices.new.items
        ≡ changed join.device (joined join.counter join.join_nonce join.own) devices.old.items }
{
    if (join.device as usize) < devices.len() {
        let device = &mut devices[join.device as usize];
        device.join(join.counter, join.join_nonce, join.own);
    }
}

pub(crate) fn rejoin(devices: &mut Vec<Device>, join: Rejoined)
    ensures { devices.new.items
        ≡ changed join.device (rejoined join.used join.counter join.join_nonce join.own)
        devices.old.items }
{
    if (join.device as usize) < devices.len() {
        let device = &mut devices[join.device as usize];
        device.rejoin(join.used, join.counter, join.join_nonce, join.own);
    }
}

pub(crate) fn lend(
    devices: &mut Vec<Device>,
    number: u32,
    used: Option<UsedSeed>,
    counter: u16,
    join_nonce: Nonce24,
    to: LentTo,
)
    ensures { devices.new.items
        ≡ changed number (lent_out used counter join_nonce to) devices.old.items }
{
    if (number as usize) < devices.len() {
        let device = &mut devices[number as usize];
        device.lend(used, counter, join_nonce, to);
    }
}

pub(crate) fn call_back(devices: &mut Vec<Device>, number: u32)
    ensures { devices.new.items ≡ changed number called_back devices.old.items }
{
    if (number as usize) < devices.len() {
        let device = &mut devices[number as usize];
        device.call_back();
    }
}

pub(crate) fn wake(devices: &mut Vec<Device>, number: u32)
    ensures { devices.new.items ≡ changed number (in_slots activated) devices.old.items }
{
    if (number as usize) < devices.len() {
        let device = &mut devices[number as usize];
        activate(&mut device.slots);
    }
}

pub(crate) fn mark(devices: &mut Vec<Device>, number: u32, suspended: bool)
    ensures { devices.new.items ≡ changed number (marked suspended) devices.old.items }
{
    if (number as usize) < devices.len() {
        let device = &mut devices[number as usize];
        device.mark(suspended);
    }
}

pub(crate) fn hear(
    devices: &mut Vec<Device>,
    number: u32,
    pending: bool,
    count: u32,
    frame: &[u8],
    down: Downlink,
)
    requires { length frame.now ≤ 255 }
    ensures { devices.new.items
        ≡ changed number (in_slots (heard pending count frame.now down)) devices.old.items }
{
    if (number as usize) < devices.len() {
        let device = &mut devices[number as usize];
        hear_in(&mut device.slots, pending, count, frame, down);
    }
}

/// Puts an item last into the queue of the active context.
#[tactic(auto, unfolding(crate::specs::Devices::queued, crate::specs::Fits::can_queue))]
pub(crate) fn push(devices: &mut Vec<Device>, number: u32, item: Item)
    requires { IsTrue (holds_of (can_queue item.number) (slice_get devices.old.items number)) }
    ensures { devices.new.items ≡ changed number (queued item) devices.old.items }
{
    let device = &mut devices[number as usize];
    device.push(item);
}

/// Grants a network a session of the device.
pub(crate) fn grant(devices: &mut Vec<Device>, number: u32, new: Granted)
    requires { IsTrue (holds_of (can_grant new) (slice_get devices.old.items number)) }
    ensures { devices.new.items ≡ changed number (with_grant new) devices.old.items }
{
    let device = &mut devices[number as usize];
    device.grant(new);
}
