//! What a request of a gateway or an application comes to.

ghost use Rattle.std.specs.Prelude.{◌≡◌, length, IfOk};
ghost use Rattle.entry_codec.specs.Machine.{lapse};
ghost use Rattle.key_vault.specs.Table.{nwk_at};
ghost use Rattle.ns_core.specs.Replies.{ns_decided, uplink_decided};

use crate::activation::activation_decision;
use crate::payload::payload_decision;
use crate::reply::refusal_decision;
use crate::uplink::data_decision;
use agreements::Tables;
use backend_json::{Head, Message, Refusal, Request, UplinkRequest};
use entry_codec::State;
use exchanges::data_up;
use js_core::{JsDecision, join_up, wrong_size};
use key_vault::{BlockFn, Vault};
use std::alloc::Global;
use wire_ids::{Memory, Moment};

// What an UplinkReq comes to.
#[tactic(auto, unfolding(crate::specs::Replies::uplink_decided))]
fn uplink_decision<'a, E: BlockFn, D: BlockFn>(
    alloc: Global,
    tables: &Tables,
    vault: &Vault<E, D>,
    state: &State,
    head: Head,
    request: &UplinkRequest,
    now: Moment,
) -> Result<JsDecision<'a>, Memory>
    requires keys { length vault.now ≡ length tables.now.devices }
    ensures { IfOk result (λ d. d ≡ uplink_decided tables.now (nwk_at vault.now)
        (lapse now.0 state.now.now) head request.now) }
{
    let frame = request.phy_payload.as_slice();
    if wrong_size(frame) {
        return refusal_decision(head, Refusal::Size);
    }
    if let Some(up) = join_up(frame) {
        return activation_decision(alloc, tables, vault, state, head, request, &up, now);
    }
    match data_up(frame) {
        Some(up) => data_decision(alloc, tables, vault, state, head, request, &up, now),
        None => refusal_decision(head, Refusal::Frame),
    }
}

// What a request comes to by its type.
#[tactic(auto, unfolding(crate::specs::Replies::ns_decided))]
fn decide<'a, E: BlockFn, D: BlockFn>(
    alloc: Global,
    tables: &Tables,
    vault: &Vault<E, D>,
    state: &State,
    head: Head,
    request: &Request,
    now: Moment,
) -> Result<JsDecision<'a>, Memory>
    requires keys { length vault.now ≡ length tables.now.devices }
    ensures { IfOk result (λ d. d ≡ ns_decided tables.now (nwk_at vault.now)
        (lapse now.0 state.now.now) head request.now) }
{
    match request {
        Request::UplinkReq(request) => {
            uplink_decision(alloc, tables, vault, state, head, request, now)
        }
        Request::JoinReq(_) => refusal_decision(head, Refusal::Type),
        Request::RejoinReq(_) => refusal_decision(head, Refusal::Type),
        Request::AppSKeyReq(_) => refusal_decision(head, Refusal::Type),
        Request::HomeNSReq(_) => refusal_decision(head, Refusal::Type),
        Request::XmitDataReq(request) => {
            payload_decision(alloc, tables, state, head, request, now)
        }
        Request::XmitUplink(_) => refusal_decision(head, Refusal::Type),
        Request::Unknown => refusal_decision(head, Refusal::Type),
    }
}

/// What a request comes to from the rule of its size on, in the state at this moment: it is
/// refused for the first rule that holds, and else succeeds. A join- or rejoin-request of a device
/// at home here gives it a pending context, whose accept is in the answer; a valid data uplink is
/// kept as the last one of its context, and the downlink that answers it is in the answer; a
/// duplicate of that one changes nothing and has no downlink; a payload of an application goes last
/// in the queue of the device's active context. A request of a type that isn't a home network's is
/// refused. The one error is want of memory.
pub fn ns_decide<'a, E: BlockFn, D: BlockFn>(
    alloc: Global,
    tables: &Tables,
    vault: &Vault<E, D>,
    state: &State,
    message: Message,
    now: Moment,
) -> Result<JsDecision<'a>, Memory>
    requires keys { length vault.now ≡ length tables.now.devices }
    ensures { IfOk result (λ d. d ≡ ns_decided tables.now (nwk_at vault.now)
        (lapse now.0 state.now.now) message.head message.request) }
{
    let Message { head, request } = message;
    decide(alloc, tables, vault, state, head, &request, now)
}
