//! The held passive sessions, by NetID and address.

ghost use Rattle.std.specs.Prelude.{◌≡◌, ◌≤◌, ◌<◌, ◌==◌, length, nat_le, not, position, slice_get};
ghost use Rattle.std.specs.Prelude.{vec_capacity, vec_len};
ghost use Rattle.std.specs.List.{filter};
ghost use Rattle.std.specs.Option.{option_copied};
ghost use Rattle.wire_ids.specs.Lists.{changed, holds_of};
ghost use Rattle.entry_codec.specs.Machine.{held_number, hold, is_held, is_held_for, is_session};
ghost use Rattle.entry_codec.specs.Machine.{is_the_network, move_count, session_number};
ghost use Rattle.entry_codec.specs.Ordered.{place_in};
ghost use Rattle.entries.specs.declared.ask.HeldSession as HeldSession_;

use crate::placing::put_at;
use entries::{HeldCount, HeldSession};
use wire_ids::{DevAddr, Eui, NetId, Sender};

// The number of a session, by which they stand.
pub(crate) fn session_number(net: NetId, addr: DevAddr) -> u64
    ensures { result ≡ session_number net addr.0 }
{
    u64::from(net.get()) * 0x1_0000_0000 + u64::from(addr.0)
}

pub(crate) fn held_number(held: &HeldSession) -> u64
    ensures { result ≡ held_number held.now }
{
    session_number(held.net, held.dev_addr)
}

fn first_from(held: &[HeldSession], number: u64) -> Option<usize>
    ensures { result
        ≡ position (λ (h : HeldSession_.HeldSession). nat_le number (held_number h)) held.now }
{
    held.iter().position(|held| number <= held_number(held))
}

#[tactic(auto, using(crate::proofs::Ordered::place_found, crate::proofs::Ordered::place_past))]
fn place(held: &[HeldSession], number: u64) -> usize
    ensures { result ≡ place_in held_number number held.now }
{
    match first_from(held, number) {
        Some(at) => at,
        None => held.len(),
    }
}

fn is_at(held: &[HeldSession], at: usize, number: u64) -> bool
    ensures { result
        ≡ holds_of (λ (h : HeldSession_.HeldSession). held_number h == number)
        (slice_get held.now at) }
{
    match held.get(at) {
        None => false,
        Some(held) => held_number(held) == number,
    }
}

fn replace(held: &mut Vec<HeldSession>, at: usize, new: &HeldSession)
    ensures items { held.new.items
        ≡ changed at (λ (old : HeldSession_.HeldSession). new.now) held.old.items }
    ensures capacity { vec_capacity held.new ≡ vec_capacity held.old }
{
    if at < held.len() {
        held[at] = *new;
    }
}

/// Holds a session, in place of the one of its network and address.
#[tactic(auto, unfolding(crate::specs::Machine::hold))]
pub(crate) fn hold(held: &mut Vec<HeldSession>, new: &HeldSession)
    requires { length (hold new.now held.old.items) ≤ vec_capacity held.old }
    ensures items { held.new.items ≡ hold new.now held.old.items }
    ensures capacity { vec_capacity held.new ≡ vec_capacity held.old }
{
    let number = held_number(new);
    let at = place(held.as_slice(), number);
    if is_at(held.as_slice(), at, number) {
        replace(held, at, new);
    } else {
        put_at(held, at, *new);
    }
}

fn place_of(held: &[HeldSession], net: NetId, addr: DevAddr) -> Option<usize>
    ensures { result ≡ position (is_session net addr) held.now }
{
    let number = session_number(net, addr);
    held.iter().position(|held| held_number(held) == number)
}

/// Moves the count of a held session.
#[tactic(auto, unfolding(crate::specs::Machine::move_count))]
pub(crate) fn move_count(held: &mut Vec<HeldSession>, moved: &HeldCount)
    ensures items { held.new.items ≡ move_count moved.now held.old.items }
    ensures capacity { vec_capacity held.new ≡ vec_capacity held.old }
{
    if let Some(at) = place_of(held.as_slice(), moved.net, moved.dev_addr) {
        let session = &mut held[at];
        session.count = moved.count;
    }
}

/// Those that end at this moment, or ended before, are gone.
pub(crate) fn lapse(held: &mut Vec<HeldSession>, at: u64)
    ensures items { held.new.items ≡ filter (is_held at) held.old.items }
    ensures capacity { vec_capacity held.new ≡ vec_capacity held.old }
{
    held.retain(|held| at < held.until.0);
}

/// Whether the sender is this network.
pub(crate) fn is_the_network(sender: Sender, net: NetId) -> bool
    ensures { result ≡ is_the_network sender net }
{
    match sender {
        Sender::Network(own) => net.get() == own.get(),
        Sender::Party(_) => false,
    }
}

pub(crate) fn is_held_for(held: &HeldSession, sender: Sender, dev: Eui) -> bool
    ensures { result ≡ is_held_for sender dev held.now }
{
    is_the_network(sender, held.net) && held.dev_eui.0 == dev.0
}

/// The sessions of a network for a device are gone.
pub(crate) fn stop(held: &mut Vec<HeldSession>, sender: Sender, dev: Eui)
    ensures items { held.new.items
        ≡ filter (λ (h : HeldSession_.HeldSession). not (is_held_for sender dev h))
        held.old.items }
    ensures capacity { vec_capacity held.new ≡ vec_capacity held.old }
{
    held.retain(|held| !is_held_for(held, sender, dev));
}
