ghost use Rattle.std.specs.Prelude.{◌≡◌, ◌<◌, ◌^◌, Some, IfOk, IfSome, IfNone};
ghost use Rattle.entries.specs.Entries.{HasOneSpelling, HasSpelling, ReadsAgain};
ghost use Rattle.entries.specs.Entries.{decode_of, encode_of};
ghost use Rattle.entries.specs.Reads.{ReadsAll};
ghost use Rattle.entries.specs.declared.entry.Entry.{Entry as AnEntry};

use crate::entry_spelling::{entry_at, put_entry};
use crate::rest::Rest;
use crate::unread::Unread;
use crate::{Change, Entry, Event};
use std::alloc::Global;
use wire_ids::{Memory, Text};

/// More bytes than the fields of any entry have beside its texts.
const FIELDS: usize = 128;

// At least as many bytes as the entry of this event has.
fn room(event: &Event) -> usize
    ensures { result < 2 ^ 34 }
{
    FIELDS
        + match event {
            Event::Opened | Event::Suspend(_) | Event::Resume(_) => 0,
            Event::Tables(text) => text.len(),
            Event::Kept(request, change) => {
                request.body.len() + request.answer.len() + change_room(change)
            }
            Event::Asked(ask) => ask.body.len() + ask.target.frame.len(),
            Event::Told(outcome) => outcome.answer.len(),
        }
}

fn change_room(change: &Change) -> usize
    ensures { result < 2 ^ 16 }
{
    match change {
        Change::Up(uplink) => uplink.frame.len(),
        Change::Passive(passive) => passive.up.frame.len(),
        Change::Queue(queued) => queued.payload.len(),
        _ => 0,
    }
}

/// The one spelling of an entry, from which `decode` reads the entry again.
#[tactic(auto, unfolding(crate::specs::Entries::encode_of))]
pub fn encode(alloc: Global, entry: &Entry) -> Result<Text, Memory>
    ensures spelled { IfOk result (λ text. text ≡ encode_of entry.now) }
    ensures fits { IfOk result (λ text. HasSpelling entry.now) }
    ensures again { IfOk result (λ text. decode_of text ≡ Some entry.now) }
{
    let mut out = Vec::with_capacity(alloc, room(&entry.event))?;
    put_entry(&mut out, entry)?;
    Ok(Text::new(out))
}

#[tactic(auto, unfolding(crate::specs::Entries::decode_of))]
fn whole(alloc: Global, bytes: &[u8]) -> Result<Entry, Unread>
    ensures { ReadsAll result (decode_of bytes.now) }
{
    let mut rest = Rest::new(bytes);
    let entry = entry_at(alloc, &mut rest)?;
    if rest.is_empty() {
        Ok(entry)
    } else {
        Err(Unread::NoEntry)
    }
}

/// The entry that the bytes spell, None exactly where they are no entry's one spelling.
pub fn decode(alloc: Global, bytes: &[u8]) -> Result<Option<Entry>, Memory>
    ensures exact { IfOk result (λ read. read ≡ decode_of bytes.now) }
    ensures found { IfOk result (λ read. IfSome read (λ e.
        (bytes.now ≡ encode_of e) × HasSpelling e)) }
    ensures none { IfOk result (λ read. IfNone read (
        (e : AnEntry) → HasSpelling e → bytes.now ≡ encode_of e → ⊥)) }
{
    match whole(alloc, bytes) {
        Ok(entry) => Ok(Some(entry)),
        Err(Unread::NoEntry) => Ok(None),
        Err(Unread::Memory) => Err(Memory),
    }
}

/// Each entry is read again from its spelling, and no two texts are read as one entry.
pub fn entries_have_one_spelling()
    ensures again { ReadsAgain }
    ensures one { HasOneSpelling }
{}
