//! What a line comes to, which is one request: the bytes of its answer, and its entry.

ghost use Rattle.std.specs.Option.{option_copied};
ghost use Rattle.std.specs.Prelude.{◌≡◌, length, IfOk, IfSome, IsTrue, Some};
ghost use Rattle.wire_ids.specs.Decisions.{entry_of};
ghost use Rattle.backend_json.specs.Answers.{text_of};
ghost use Rattle.entry_codec.specs.Fits.{fits};
ghost use Rattle.roam_core.specs.Agreement.{Agrees};
ghost use Rattle.roam_core.specs.Desk.{desk_of};
ghost use Rattle.roam_core.specs.Entering.{CanEnter};
ghost use Rattle.roam_core.specs.Lines.{bad_answer, bad_member, line_decided, reaction};
ghost use Rattle.roam_core.specs.Lines.{text_in};
ghost use Rattle.roam_core.specs.Texts.{HasText, kept_text};

use crate::laws::{entries_fit, lines_agree};
use crate::{RoamDecision, roam_decide};
use agreements::Tables;
use backend_json::{Answer, Bad, Head, Refusal, answer_text, read_message};
use entries::{Entry, Event};
use entry_codec::State;
use js_core::refused;
use key_vault::{BlockFn, Vault};
use std::alloc::Global;
use wire_ids::{Decision, Memory, Moment, ShortText, Text};

/// What a line comes to: the bytes of its answer, and the entry that it makes, where it makes one.
#[derive(Drop)]
pub struct Reaction {
    pub answer: Text,
    pub entry: Option<Entry>,
}

// The answer to a message with a bad member.
fn bad_member(head: Option<Head>) -> Answer<'static>
    ensures { result ≡ bad_member head }
{
    match head {
        None => Answer::Headless,
        Some(head) => refused(head, Refusal::Message),
    }
}

// The answer to a body that is no readable message.
fn bad_answer(bad: Bad) -> Answer<'static>
    ensures { result ≡ bad_answer bad }
{
    match bad {
        Bad::NotJson | Bad::TooLong => Answer::Headless,
        Bad::Member { name: _, head } => bad_member(head),
        Bad::Version { head } => refused(head, Refusal::Version),
    }
}

// What a line is decided to come to.
#[tactic(auto, unfolding(crate::specs::Lines::line_decided))]
fn line_decided<'a, E: BlockFn, D: BlockFn>(
    alloc: Global,
    tables: &'a Tables,
    vault: &Vault<E, D>,
    state: &State,
    line: &[u8],
    now: Moment,
) -> Result<RoamDecision<'a>, Memory>
    requires keys { length vault.now ≡ length tables.now.devices }
    ensures value { IfOk result (λ d. d
        ≡ line_decided tables.now vault.now (desk_of state.now) line.now now.0) }
    ensures text { IfOk result HasText }
{
    match read_message(alloc, line)? {
        Ok(message) => roam_decide(alloc, tables, vault, state, message, line, now),
        Err(bad) => Ok(Decision::Reply(bad_answer(bad))),
    }
}

// The text of the answer that an entry keeps.
fn kept_text(event: &Event) -> Option<&ShortText>
    ensures { option_copied result ≡ kept_text event.now }
{
    match event {
        Event::Kept(request, _) => Some(&request.answer),
        _ => None,
    }
}

// A copy, with room for a line's end behind it.
fn copied(alloc: Global, bytes: &[u8]) -> Result<Text, Memory>
    ensures { IfOk result (λ t. t ≡ bytes.now) }
{
    let mut copy = Vec::with_capacity(alloc, bytes.len() + 1)?;
    copy.extend_from_slice(bytes)?;
    Ok(Text::new(copy))
}

// The bytes of the answer that comes with an entry, which has them.
fn entered_text(alloc: Global, answer: &Answer, entry: &Entry) -> Result<Text, Memory>
    requires { kept_text entry.now.event ≡ Some (text_of answer.now) }
    ensures { IfOk result (λ t. t ≡ text_of answer.now) }
{
    match kept_text(&entry.event) {
        Some(text) => copied(alloc, text.as_slice()),
        None => answer_text(alloc, answer),
    }
}

// The answer's bytes, and the entry.
fn reaction_of(alloc: Global, decision: RoamDecision) -> Result<Reaction, Memory>
    requires text { HasText decision }
    ensures answer { IfOk result (λ r. r.answer ≡ text_in decision.entry) }
    ensures entry { IfOk result (λ r. r.entry ≡ entry_of decision.entry) }
{
    match decision {
        Decision::Repeat(answer) => Ok(Reaction {
            answer,
            entry: None,
        }),
        Decision::Reply(answer) => Ok(Reaction {
            answer: answer_text(alloc, &answer)?,
            entry: None,
        }),
        Decision::Accept(answer, entry) => Ok(Reaction {
            answer: entered_text(alloc, &answer, &entry)?,
            entry: Some(entry),
        }),
        Decision::AskPeer(_, question, _) => match question {},
    }
}

/// What a line, which is one request, comes to at a moment: the bytes of its answer, and the entry
/// that it makes, where it makes one. The moment is from the last entry's to 2^53, and the history
/// has begun. The entry fits; the answer's keys are exactly those to which its receiver is
/// entitled in the state that the entry leaves, each wrapped under the KEK of its own label, and
/// a kept answer is given as it was. The one error is want of memory.
#[tactic(auto, unfolding(crate::specs::Lines::reaction))]
pub fn react<E: BlockFn, D: BlockFn>(
    alloc: Global,
    tables: &Tables,
    vault: &Vault<E, D>,
    state: &State,
    line: &[u8],
    now: Moment,
) -> Result<Reaction, Memory>
    requires keys { length vault.now ≡ length tables.now.devices }
    requires can { CanEnter tables.now state.now.now now.0 }
    ensures answer { IfOk result (λ r. r.answer
        ≡ (reaction tables.now vault.now (desk_of state.now) line.now now.0).answer) }
    ensures entry { IfOk result (λ r. r.entry
        ≡ (reaction tables.now vault.now (desk_of state.now) line.now now.0).entry) }
    ensures fits { IfOk result (λ r. IfSome r.entry (λ e. IsTrue (fits state.now.now e))) }
    ensures agrees { Agrees tables.now vault.now (desk_of state.now) now.0
        (line_decided tables.now vault.now (desk_of state.now) line.now now.0) }
{
    entries_fit();
    state.sound();
    tables.devices();
    lines_agree();
    reaction_of(alloc, line_decided(alloc, tables, vault, state, line, now)?)
}
