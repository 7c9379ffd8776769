//! The decision on a readable message, from the rule of its sender on.

ghost use Rattle.std.specs.Prelude.{◌≡◌, length, IfOk, Some};
ghost use Rattle.backend_json.specs.Answers.{text_of};
ghost use Rattle.entry_codec.specs.Kept.{kept_answer};
ghost use Rattle.entry_codec.specs.LookUps.{is_asked};
ghost use Rattle.entry_codec.specs.Machine.{lapse};
ghost use Rattle.key_vault.specs.Table.{app_at, nwk_at};
ghost use Rattle.backend_json.specs.declared.head.Head as heads;
ghost use Rattle.roam_core.specs.Decided.{by_part, decided, entry_in, is_home_network};
ghost use Rattle.roam_core.specs.Decided.{judged_at, with_entry};
ghost use Rattle.roam_core.specs.Desk.{desk_of};
ghost use Rattle.roam_core.specs.Texts.{HasText, kept_text};

use agreements::Tables;
use backend_json::{Answer, Head, Message, Refusal, Request, answer_text};
use entries::{Change, Entry, Event};
use entry_codec::State;
use js_core::{JsDecision, NoQuestion, is_known, js_decide, may_send, reaches, refused};
use key_vault::{BlockFn, Vault};
use ns_core::ns_decide;
use std::alloc::Global;
use wire_ids::{Decision, Memory, Moment, Sender, ShortText, Text};

/// What a request comes to: the answer that was kept for it, an answer, or an answer and the entry
/// that it makes. No peer is asked yet.
pub type RoamDecision<'a> = Decision<Answer<'a>, NoQuestion, Entry>;

// The text, as an entry holds it. An answer is far shorter than what it has room for.
fn short_text(text: Text) -> Result<ShortText, Memory>
    ensures { IfOk result (λ short. short ≡ text) }
{
    match ShortText::new(text.into_vec()) {
        Some(short) => Ok(short),
        None => Err(Memory),
    }
}

fn short_copy(alloc: Global, bytes: &[u8]) -> Result<ShortText, Memory>
    ensures { IfOk result (λ short. short ≡ bytes.now) }
{
    match ShortText::of_slice(alloc, bytes)? {
        Some(short) => Ok(short),
        None => Err(Memory),
    }
}

// The entry of a request that was answered with Success, with its answer's text.
fn entry_in(
    alloc: Global,
    sender: Sender,
    body: &[u8],
    now: Moment,
    answer: &Answer,
    change: Change,
) -> Result<Entry, Memory>
    ensures value { (head : heads.Head) → head.sender ≡ sender
        → IfOk result (λ e. e ≡ entry_in head body.now now.0 answer.now change) }
    ensures text { IfOk result (λ e. kept_text e.event ≡ Some (text_of answer.now)) }
{
    let answer = short_text(answer_text(alloc, answer)?)?;
    let body = short_copy(alloc, body)?;
    let request = entries::Request {
        sender,
        body,
        answer,
    };
    Ok(Entry {
        moment: now,
        event: Event::Kept(request, change),
    })
}

// The decision, with the entry of what it changes.
fn with_entry<'a>(
    alloc: Global,
    sender: Sender,
    body: &[u8],
    now: Moment,
    decision: JsDecision<'a>,
) -> Result<RoamDecision<'a>, Memory>
    ensures value { (head : heads.Head) → head.sender ≡ sender
        → IfOk result (λ d. d ≡ with_entry head body.now now.0 decision.entry) }
    ensures text { IfOk result HasText }
{
    match decision {
        Decision::Repeat(text) => Ok(Decision::Repeat(text)),
        Decision::Reply(answer) => Ok(Decision::Reply(answer)),
        Decision::Accept(answer, change) => {
            let entry = entry_in(alloc, sender, body, now, &answer, change)?;
            Ok(Decision::Accept(answer, entry))
        }
        Decision::AskPeer(_, question, _) => match question {},
    }
}

// Whether the home network decides it.
fn is_home_network(request: &Request) -> bool
    ensures { result ≡ is_home_network request.now }
{
    match request {
        Request::UplinkReq(_) | Request::XmitDataReq(_) => true,
        Request::JoinReq(_)
        | Request::RejoinReq(_)
        | Request::AppSKeyReq(_)
        | Request::HomeNSReq(_)
        | Request::XmitUplink(_)
        | Request::Unknown => false,
    }
}

// What the home network makes of what a gateway heard and of a payload, and the join server of any
// other request.
fn by_part<'a, E: BlockFn, D: BlockFn>(
    alloc: Global,
    tables: &'a Tables,
    vault: &Vault<E, D>,
    state: &State,
    message: Message,
    now: Moment,
) -> Result<JsDecision<'a>, Memory>
    requires keys { length vault.now ≡ length tables.now.devices }
    ensures { IfOk result (λ d. d ≡ by_part tables.now (nwk_at vault.now) (app_at vault.now)
        (lapse now.0 state.now.now) message.head message.request) }
{
    if is_home_network(&message.request) {
        return ns_decide(alloc, tables, vault, state, message, now);
    }
    js_decide(alloc, tables, vault, state, message, now)
}

// The answer, and what changes, where what has ended is gone.
#[tactic(auto, unfolding(crate::specs::Order::order))]
fn judged<'a, E: BlockFn, D: BlockFn>(
    alloc: Global,
    tables: &'a Tables,
    vault: &Vault<E, D>,
    state: &State,
    head: Head,
    request: Request,
    body: &[u8],
    now: Moment,
) -> Result<JsDecision<'a>, Memory>
    requires keys { length vault.now ≡ length tables.now.devices }
    ensures { IfOk result (λ d. d ≡ judged_at tables.now (nwk_at vault.now) (app_at vault.now)
        (lapse now.0 state.now.now) head request
        (kept_answer head.sender body.now state.now.kept)
        (is_asked body.now (lapse now.0 state.now.now))) }
{
    if !is_known(tables, head.sender) {
        return Ok(Decision::Reply(refused(head, Refusal::Sender)));
    }
    if !reaches(tables, head.message_type.receiver(), head.receiver) {
        return Ok(Decision::Reply(refused(head, Refusal::Receiver)));
    }
    if !may_send(tables, request.sender(), head.sender) {
        return Ok(Decision::Reply(refused(head, Refusal::Type)));
    }
    if let Some(kept) = state.kept_answer(head.sender, body) {
        return Ok(Decision::Repeat(Text::of_slice(alloc, kept.as_slice())?));
    }
    if state.is_asked(body, now) {
        return Ok(Decision::Reply(refused(head, Refusal::Asked)));
    }
    by_part(alloc, tables, vault, state, Message { head, request }, now)
}

/// What a message comes to at a moment, from the rule of its sender on: first what has ended by
/// then goes; then the first line of the order that holds gives the answer, among them the answer
/// that was kept for the sender's body; and else it succeeds, with the entry that it makes, which
/// has the moment, the sender, the body and the answer's text. `body` is the message's text. The
/// one error is want of memory.
#[tactic(auto, unfolding(crate::specs::Decided::decided))]
pub fn roam_decide<'a, E: BlockFn, D: BlockFn>(
    alloc: Global,
    tables: &'a Tables,
    vault: &Vault<E, D>,
    state: &State,
    message: Message,
    body: &[u8],
    now: Moment,
) -> Result<RoamDecision<'a>, Memory>
    requires keys { length vault.now ≡ length tables.now.devices }
    ensures value { IfOk result (λ d. d ≡ decided tables.now (nwk_at vault.now) (app_at vault.now)
        (desk_of state.now) message.head message.request body.now now.0) }
    // The entry has the answer's text.
    ensures text { IfOk result HasText }
{
    let Message { head, request } = message;
    let sender = head.sender;
    let decision = judged(alloc, tables, vault, state, head, request, body, now)?;
    with_entry(alloc, sender, body, now, decision)
}
