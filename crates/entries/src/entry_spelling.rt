ghost use Rattle.std.specs.Prelude.{◌≡◌, ◌++◌, OnOk};
ghost use Rattle.entries.specs.Entries.{change_tag, entry, event_at, event_fields, event_tag};
ghost use Rattle.entries.specs.Entries.{FitsEvent, FitsKept, kept_at, kept_fields};
ghost use Rattle.entries.specs.Reads.{Reads};

use crate::ask_spelling::{ask_outcome_at, new_ask_at, put_ask_outcome, put_new_ask};
use crate::change_spelling::{
    joined_at, passive_uplink_at, put_joined, put_passive_uplink, put_queued, put_rejoined,
    put_stopped, put_uplink, queued_at, rejoined_at, stopped_at, uplink_at,
};
use crate::name_spelling::{moment_at, put_moment};
use crate::out::{put_long, put_u8, put_u32};
use crate::request_spelling::{lending_at, put_lending, put_request, request_at};
use crate::rest::Rest;
use crate::unread::Unread;
use crate::{Change, Entry, Event, Request};
use std::alloc::Global;
use wire_ids::Memory;

// ---- kept requests

// The change of a request that stands before its fields.
#[tactic(auto, unfolding(crate::specs::Entries::kept_at, wire_ids::specs::Forms::both))]
fn kept_at(alloc: Global, tag: u8, rest: &mut Rest) -> Result<Event, Unread>
    ensures { Reads result rest.new (kept_at tag rest.old) }
{
    match tag {
        3 => {
            let request = request_at(alloc, rest)?;
            Ok(Event::Kept(request, Change::Join(joined_at(rest)?)))
        }
        4 => {
            let request = request_at(alloc, rest)?;
            Ok(Event::Kept(request, Change::Rejoin(rejoined_at(rest)?)))
        }
        5 => {
            let (request, lending) = lending_at(alloc, rest)?;
            Ok(Event::Kept(request, Change::Lent(lending)))
        }
        6 => {
            let request = request_at(alloc, rest)?;
            Ok(Event::Kept(request, Change::Up(uplink_at(alloc, rest)?)))
        }
        7 => {
            let request = request_at(alloc, rest)?;
            Ok(Event::Kept(request, Change::Passive(passive_uplink_at(alloc, rest)?)))
        }
        8 => {
            let request = request_at(alloc, rest)?;
            Ok(Event::Kept(request, Change::Queue(queued_at(alloc, rest)?)))
        }
        11 => {
            let request = request_at(alloc, rest)?;
            Ok(Event::Kept(request, Change::Dropped(stopped_at(rest)?)))
        }
        _ => Err(Unread::NoEntry),
    }
}

#[tactic(auto, unfolding(wire_ids::specs::Forms::both))]
fn put_kept(out: &mut Vec<u8>, request: &Request, change: &Change) -> Result<(), Memory>
    ensures spelled { OnOk result
        (out.new.items ≡ out.old.items ++ kept_fields request.now change.now) }
    ensures fits { OnOk result (FitsKept request.now change.now) }
{
    match change {
        Change::Join(joined) => {
            put_request(out, request)?;
            put_joined(out, joined)
        }
        Change::Rejoin(rejoined) => {
            put_request(out, request)?;
            put_rejoined(out, rejoined)
        }
        Change::Lent(lending) => put_lending(out, request, lending),
        Change::Up(uplink) => {
            put_request(out, request)?;
            put_uplink(out, uplink)
        }
        Change::Passive(uplink) => {
            put_request(out, request)?;
            put_passive_uplink(out, uplink)
        }
        Change::Queue(queued) => {
            put_request(out, request)?;
            put_queued(out, queued)
        }
        Change::Dropped(stopped) => {
            put_request(out, request)?;
            put_stopped(out, stopped)
        }
    }
}

// ---- events

#[tactic(auto, unfolding(crate::specs::Entries::event_at))]
fn event_at(alloc: Global, tag: u8, rest: &mut Rest) -> Result<Event, Unread>
    ensures { Reads result rest.new (event_at tag rest.old) }
{
    match tag {
        1 => Ok(Event::Opened),
        2 => Ok(Event::Tables(rest.long(alloc)?)),
        9 => Ok(Event::Asked(new_ask_at(alloc, rest)?)),
        10 => Ok(Event::Told(ask_outcome_at(alloc, rest)?)),
        12 => Ok(Event::Suspend(rest.u32()?)),
        13 => Ok(Event::Resume(rest.u32()?)),
        _ => kept_at(alloc, tag, rest),
    }
}

fn change_tag(change: &Change) -> u8
    ensures { result ≡ change_tag change.now }
{
    match change {
        Change::Join(_) => 3,
        Change::Rejoin(_) => 4,
        Change::Lent(_) => 5,
        Change::Up(_) => 6,
        Change::Passive(_) => 7,
        Change::Queue(_) => 8,
        Change::Dropped(_) => 11,
    }
}

fn event_tag(event: &Event) -> u8
    ensures { result ≡ event_tag event.now }
{
    match event {
        Event::Opened => 1,
        Event::Tables(_) => 2,
        Event::Kept(_, change) => change_tag(change),
        Event::Asked(_) => 9,
        Event::Told(_) => 10,
        Event::Suspend(_) => 12,
        Event::Resume(_) => 13,
    }
}

fn put_event(out: &mut Vec<u8>, event: &Event) -> Result<(), Memory>
    ensures spelled { OnOk result (out.new.items ≡ out.old.items ++ event_fields event.now) }
    ensures fits { OnOk result (FitsEvent event.now) }
{
    match event {
        Event::Opened => Ok(()),
        Event::Tables(text) => put_long(out, text),
        Event::Kept(request, change) => put_kept(out, request, change),
        Event::Asked(ask) => put_new_ask(out, ask),
        Event::Told(outcome) => put_ask_outcome(out, outcome),
        Event::Suspend(device) => put_u32(out, *device),
        Event::Resume(device) => put_u32(out, *device),
    }
}

// ---- entries

#[tactic(auto, unfolding(crate::specs::Entries::entry))]
pub(crate) fn entry_at(alloc: Global, rest: &mut Rest) -> Result<Entry, Unread>
    ensures { Reads result rest.new (entry.read rest.old) }
{
    let tag = rest.u8()?;
    let moment = moment_at(rest)?;
    let event = event_at(alloc, tag, rest)?;
    Ok(Entry { moment, event })
}

#[tactic(auto, unfolding(crate::specs::Entries::entry, wire_ids::specs::Forms::u8))]
pub(crate) fn put_entry(out: &mut Vec<u8>, value: &Entry) -> Result<(), Memory>
    ensures spelled { OnOk result (out.new.items ≡ out.old.items ++ entry.spell value.now) }
    ensures fits { OnOk result (entry.Fits value.now) }
{
    put_u8(out, event_tag(&value.event))?;
    put_moment(out, &value.moment)?;
    put_event(out, &value.event)
}
