//! Payloads of applications for devices at home here, each of which waits for a downlink.

ghost use Rattle.std.specs.Prelude.{◌≡◌, IfErr, IfOk, None, Some};
ghost use Rattle.wire_ids.specs.Rules.{first_rule};
ghost use Rattle.entry_codec.specs.Machine.{lapse};
ghost use Rattle.js_core.specs.Found.{found_now, found_of};
ghost use Rattle.ns_core.specs.Payloads.{has_8, is_under, is_used, payload_decided};
ghost use Rattle.ns_core.specs.Payloads.{payload_rules, queue_of, queued_with, too_large};
ghost use Rattle.ns_core.specs.Payloads.{wrong_device, wrong_port};

use crate::reply::refusal_decision;
use crate::session::is_session;
use crate::text::short_copy;
use agreements::Tables;
use backend_json::{Answer, Head, Outcome, Refusal, XmitDataAnswer, XmitDataRequest};
use contexts::Context;
use entries::{Change, Queued};
use entry_codec::State;
use js_core::{FoundDevice, JsDecision, found_device, is_app};
use std::alloc::Global;
use wire_ids::{Decision, Memory, Moment};

// Whether FRMPayload is larger than that of any data rate.
fn too_large(request: &XmitDataRequest) -> bool
    ensures { result ≡ too_large request.now }
{
    request.frm_payload.as_slice().len() > 242
}

// Whether the device isn't at home here, or belongs to another application.
fn wrong_device(head: &Head, found: &FoundDevice<'_>) -> bool
    ensures { result ≡ wrong_device head.now (Some (found_now found.now)) }
{
    !found.kept.is_home || !is_app(found.row.app, head.sender)
}

// Whether FPort isn't one of applications.
fn wrong_port(request: &XmitDataRequest) -> bool
    ensures { result ≡ wrong_port request.now }
{
    request.f_port == 0 || request.f_port > 223
}

// Whether the context has this SessionKeyID.
fn is_under(request: &XmitDataRequest, context: &Context) -> bool
    ensures { result ≡ is_under request.now context.now }
{
    is_session(&request.session_key_id, request.dev_eui, &context.origin)
}

// Whether FCntDown is below the next AFCntDown number.
fn is_used(request: &XmitDataRequest, context: &Context) -> bool
    ensures { result ≡ is_used request.now context.now }
{
    u64::from(request.f_cnt_down) < context.next_a
}

// Whether as many items wait as may.
fn has_8(context: &Context) -> bool
    ensures { result ≡ has_8 context.now }
{
    context.queue.len() == 8
}

// The device for whose queue a payload is, or the first cause for which it is refused.
fn target<'a>(
    tables: &'a Tables,
    state: &'a State,
    head: &Head,
    request: &XmitDataRequest,
) -> Result<FoundDevice<'a>, Refusal>
    ensures refused { IfErr result (λ r. first_rule (payload_rules tables.now state.now.now
        head.now request.now) ≡ Some r) }
    ensures accepted { IfOk result (λ f. first_rule (payload_rules tables.now state.now.now
        head.now request.now) ≡ None) }
    ensures device { IfOk result (λ f. found_of tables.now state.now.now request.now.dev_eui
        ≡ Some (found_now f)) }
{
    if too_large(request) {
        return Err(Refusal::Size);
    }
    let Some(device) = found_device(tables, state, request.dev_eui) else {
        return Err(Refusal::Device);
    };
    if wrong_device(head, &device) {
        return Err(Refusal::Device);
    }
    if wrong_port(request) {
        return Err(Refusal::Port);
    }
    let Some(context) = &device.kept.slots.active else {
        return Err(Refusal::XmitSession);
    };
    if !is_under(request, context) {
        return Err(Refusal::XmitSession);
    }
    if is_used(request, context) {
        return Err(Refusal::XmitCounter);
    }
    if has_8(context) {
        return Err(Refusal::QueueFull);
    }
    Ok(device)
}

// The payload goes last in the device's queue.
fn queue_of(alloc: Global, request: &XmitDataRequest, device: u32) -> Result<Change, Memory>
    ensures { IfOk result (λ queue. queue ≡ queue_of request.now device) }
{
    let payload = short_copy(alloc, request.frm_payload.as_slice())?;
    Ok(Change::Queue(Queued {
        device,
        number: request.f_cnt_down,
        port: request.f_port,
        confirmed: request.confirmed,
        payload,
    }))
}

// What a payload comes to that is taken for the device of this number.
fn queued_with<'a>(
    alloc: Global,
    head: Head,
    request: &XmitDataRequest,
    device: u32,
) -> Result<JsDecision<'a>, Memory>
    ensures { IfOk result (λ d. d ≡ queued_with head request.now device) }
{
    let change = queue_of(alloc, request, device)?;
    let outcome = Outcome::XmitDataAns(XmitDataAnswer { phy_payload: None });
    Ok(Decision::Accept(Answer::Headed { head, outcome }, change))
}

// What a payload comes to in a state from which nothing has to lapse.
fn decision_now<'a>(
    alloc: Global,
    tables: &Tables,
    state: &State,
    head: Head,
    request: &XmitDataRequest,
) -> Result<JsDecision<'a>, Memory>
    ensures { IfOk result (λ d. d ≡ payload_decided tables.now state.now.now head request.now) }
{
    match target(tables, state, &head, request) {
        Err(refusal) => refusal_decision(head, refusal),
        Ok(device) => queued_with(alloc, head, request, device.number),
    }
}

/// What a payload for a device comes to in the state at this moment. Nothing that lapses is looked
/// at.
#[tactic(auto, using(crate::proofs::Payloads::lapse_unread))]
pub(crate) fn payload_decision<'a>(
    alloc: Global,
    tables: &Tables,
    state: &State,
    head: Head,
    request: &XmitDataRequest,
    now: Moment,
) -> Result<JsDecision<'a>, Memory>
    ensures { IfOk result (λ d. d ≡ payload_decided tables.now (lapse now.0 state.now.now) head
        request.now) }
{
    let _ = now;
    decision_now(alloc, tables, state, head, request)
}
