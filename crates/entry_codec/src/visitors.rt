//! The visitors, by DevEUI; a name without a visitor changes nothing.

ghost use Rattle.std.specs.Prelude.{◌≡◌, ◌≤◌, ◌<◌, ◌==◌, length, nat_le, not, position, slice_get};
ghost use Rattle.std.specs.Prelude.{vec_capacity, vec_len};
ghost use Rattle.std.specs.List.{filter, insert};
ghost use Rattle.wire_ids.specs.Lists.{changed, changed_first, holds_of};
ghost use Rattle.contexts.specs.Slots.{activated, on_active};
ghost use Rattle.entry_codec.specs.Devices.{heard};
ghost use Rattle.entry_codec.specs.Machine.{given_context, in_visitor, is_visitor, new_visitor};
ghost use Rattle.entry_codec.specs.Machine.{renewed, visit};
ghost use Rattle.entry_codec.specs.Machine.{visitor_number, visits, with_count};
ghost use Rattle.entry_codec.specs.Ordered.{place_in};
ghost use Rattle.entry_codec.specs.declared.parties.Visitor as Visitor_;

use crate::Visitor;
use crate::placing::put_at;
use crate::uplink::hear as hear_in;
use contexts::{Context, Origin, Slots, activate, offer};
use entries::{Downlink, NewVisitor};
use wire_ids::Eui;

fn first_from(visitors: &[Visitor], dev: u64) -> Option<usize>
    ensures { result ≡ position (λ (v : Visitor_.Visitor). nat_le dev v.dev_eui.0) visitors.now }
{
    visitors.iter().position(|visitor| dev <= visitor.dev_eui.0)
}

#[tactic(auto, using(crate::proofs::Ordered::place_found, crate::proofs::Ordered::place_past))]
fn place(visitors: &[Visitor], dev: u64) -> usize
    ensures { result ≡ place_in visitor_number dev visitors.now }
{
    match first_from(visitors, dev) {
        Some(at) => at,
        None => visitors.len(),
    }
}

fn is_at(visitors: &[Visitor], at: usize, dev: u64) -> bool
    ensures { result
        ≡ holds_of (λ (v : Visitor_.Visitor). v.dev_eui.0 == dev) (slice_get visitors.now at) }
{
    match visitors.get(at) {
        None => false,
        Some(visitor) => visitor.dev_eui.0 == dev,
    }
}

fn given_context(number: u64, new: &NewVisitor) -> Context
    ensures { result ≡ given_context number new.now }
{
    let origin = Origin::Given {
        number,
        keys: new.keys,
    };
    Context::new(new.dev_addr, origin, new.radio)
}

fn new_visitor(number: u64, new: &NewVisitor) -> Visitor
    ensures { result ≡ new_visitor number new.now }
{
    Visitor {
        dev_eui: new.dev_eui,
        home: new.home,
        until: new.until,
        slots: Slots {
            active: None,
            pending: Some(given_context(number, new)),
        },
    }
}

fn renew(visitors: &mut Vec<Visitor>, at: usize, number: u64, new: &NewVisitor)
    ensures items { visitors.new.items ≡ changed at (renewed number new.now) visitors.old.items }
    ensures capacity { vec_capacity visitors.new ≡ vec_capacity visitors.old }
{
    if at < visitors.len() {
        let visitor = &mut visitors[at];
        visitor.home = new.home;
        visitor.until = new.until;
        offer(&mut visitor.slots, given_context(number, new));
    }
}

/// Makes or renews a visitor.
#[tactic(auto, unfolding(crate::specs::Machine::visit))]
pub(crate) fn visit(visitors: &mut Vec<Visitor>, number: u64, new: &NewVisitor)
    requires { vec_len visitors.old < vec_capacity visitors.old }
    ensures { visitors.new.items ≡ visit number new.now visitors.old.items }
{
    let dev = new.dev_eui.0;
    let at = place(visitors.as_slice(), dev);
    if is_at(visitors.as_slice(), at, dev) {
        renew(visitors, at, number, new);
    } else {
        put_at(visitors, at, new_visitor(number, new));
    }
}

/// Those whose stay ends at this moment, or ended before, are gone.
pub(crate) fn lapse(visitors: &mut Vec<Visitor>, at: u64)
    ensures items { visitors.new.items ≡ filter (visits at) visitors.old.items }
    ensures fewer { vec_len visitors.new ≤ vec_len visitors.old }
    ensures capacity { vec_capacity visitors.new ≡ vec_capacity visitors.old }
{
    visitors.retain(|visitor| at < visitor.until.0);
}

pub(crate) fn leave(visitors: &mut Vec<Visitor>, dev: Eui)
    ensures items { visitors.new.items
        ≡ filter (λ (v : Visitor_.Visitor). not (is_visitor dev v)) visitors.old.items }
    ensures fewer { vec_len visitors.new ≤ vec_len visitors.old }
    ensures capacity { vec_capacity visitors.new ≡ vec_capacity visitors.old }
{
    visitors.retain(|visitor| visitor.dev_eui.0 != dev.0);
}

fn place_of(visitors: &[Visitor], dev: Eui) -> Option<usize>
    ensures { result ≡ position (is_visitor dev) visitors.now }
{
    visitors
        .iter()
        .position(|visitor| visitor.dev_eui.0 == dev.0)
}

pub(crate) fn wake(visitors: &mut Vec<Visitor>, dev: Eui)
    ensures items { visitors.new.items
        ≡ changed_first (is_visitor dev) (in_visitor activated) visitors.old.items }
    ensures capacity { vec_capacity visitors.new ≡ vec_capacity visitors.old }
{
    if let Some(at) = place_of(visitors.as_slice(), dev) {
        let visitor = &mut visitors[at];
        activate(&mut visitor.slots);
    }
}

pub(crate) fn hear(
    visitors: &mut Vec<Visitor>,
    dev: Eui,
    pending: bool,
    count: u32,
    frame: &[u8],
    down: Downlink,
)
    requires { length frame.now ≤ 255 }
    ensures items { visitors.new.items
        ≡ changed_first (is_visitor dev) (in_visitor (heard pending count frame.now down))
        visitors.old.items }
    ensures capacity { vec_capacity visitors.new ≡ vec_capacity visitors.old }
{
    if let Some(at) = place_of(visitors.as_slice(), dev) {
        let visitor = &mut visitors[at];
        hear_in(&mut visitor.slots, pending, count, frame, down);
    }
}

fn keep_count(slots: &mut Slots, count: u16)
    ensures { slots.new ≡ on_active (with_count count) slots.old }
{
    if let Some(context) = &mut slots.active {
        context.rj0 = Some(count);
    }
}

/// Keeps the RJcount0 of a visitor's rejoin with its active context.
pub(crate) fn count(visitors: &mut Vec<Visitor>, dev: Eui, count: u16)
    ensures items { visitors.new.items
        ≡ changed_first (is_visitor dev) (in_visitor (on_active (with_count count)))
        visitors.old.items }
    ensures capacity { vec_capacity visitors.new ≡ vec_capacity visitors.old }
{
    if let Some(at) = place_of(visitors.as_slice(), dev) {
        let visitor = &mut visitors[at];
        keep_count(&mut visitor.slots, count);
    }
}
