//! What a request comes to.

ghost use Rattle.std.specs.Prelude.{◌≡◌, ◌<◌, length, slice_get, Some, IfOk};
ghost use Rattle.wire_ids.specs.Rules.{first_rule};
ghost use Rattle.key_vault.specs.Table.{app_at, nwk_at};
ghost use Rattle.entitlement.specs.Keys.{entries_of};
ghost use Rattle.entry_codec.specs.Machine.{lapse};
ghost use Rattle.backend_json.specs.declared.refusal.Refusal.TheVariants.{«Type» as wrong_type};
ghost use Rattle.js_core.specs.Found.{found_of};
ghost use Rattle.js_core.specs.Replies.{accept_of, answer_kind, app_s_key_answer};
ghost use Rattle.js_core.specs.Replies.{app_s_key_success_at, entries_for, home_ns_success_at};
ghost use Rattle.js_core.specs.Replies.{join_members, join_success, js_decided, no_facts};
ghost use Rattle.js_core.specs.Replies.{outcome_of, refused, refuses, success_of};
ghost use Rattle.js_core.specs.Rules.{app_s_key_rules_at, by_rules, home_ns_rules_at, join_rules};
ghost use Rattle.js_core.specs.Rules.{rules_of};

use crate::found::found_device;
use crate::home::home_accept;
use crate::keys::{answer_keys, application_key};
use crate::rules::{JoinTarget, app_s_key_target, join_target};
use crate::step::change;
use crate::{Activation, NoQuestion};
use agreements::{DeviceRow, Tables};
use backend_json::{
    Answer, AppSKeyAnswer, AppSKeyRequest, Head, HomeNsAnswer, HomeNsRequest, JoinAnswer,
    JoinRequest, Message, Outcome, Refusal, Request, SessionKeyId,
};
use entitlement::{AnswerKind, Facts, KeySet, keys_for, role_of};
use entries::{Change, OwnContext};
use entry_codec::State;
use join_frames::{Accept, JoinUp, accept_bytes};
use key_vault::{BlockFn, Vault};
use std::alloc::Global;
use wire_ids::{Decision, Memory, Moment, Seed, Text};

/// What the join server makes of a request: it asks no peer, and where it accepts one, the answer
/// comes with what it changes.
pub type JsDecision<'a> = Decision<Answer<'a>, NoQuestion, Change>;

/// The answer to a request that is refused.
pub fn refused(head: Head, refusal: Refusal) -> Answer<'static>
    ensures { result ≡ refused head refusal }
{
    Answer::Headed {
        head,
        outcome: Outcome::Refused(refusal),
    }
}

// The roles of these answers' receivers stand in the device's row.
fn no_facts() -> Facts
    ensures { result ≡ no_facts }
{
    Facts {
        lent: None,
        granted: None,
        now: Moment(0),
    }
}

// The keys to which the sender of a request is entitled.
fn entitled_set(
    tables: &Tables,
    head: &Head,
    device: u32,
    row: &DeviceRow,
    asked: AnswerKind,
    lifetime: u32,
) -> KeySet
    requires device { device < length tables.now.devices }
    requires row { slice_get tables.now.devices device ≡ Some row.now }
    ensures { entries_of result ≡ entries_for row.now head.now.sender asked lifetime }
{
    let role = role_of(tables, &no_facts(), device, head.sender, asked);
    keys_for(asked, role, row.carry_app, lifetime)
}

// ---- joins and rejoins

fn accept_of(up: &JoinUp, request: &JoinRequest, row: &DeviceRow, seed: Seed) -> Accept
    ensures { result ≡ accept_of up.now request.now row.now seed }
{
    let own = OwnContext {
        dev_addr: request.dev_addr,
        radio: request.radio,
    };
    home_accept(up, row, seed, &own)
}

fn answer_kind(activation: Activation) -> AnswerKind
    ensures { result ≡ answer_kind activation }
{
    match activation {
        Activation::Join => AnswerKind::JoinAns,
        Activation::Rejoin => AnswerKind::RejoinAns,
    }
}

fn outcome_of<'a>(activation: Activation, members: JoinAnswer<'a>) -> Outcome<'a>
    ensures { result ≡ outcome_of activation members.entry }
{
    match activation {
        Activation::Join => Outcome::JoinAns(members),
        Activation::Rejoin => Outcome::RejoinAns(members),
    }
}

// The members of the answer to a join- or rejoin-request that is accepted.
#[tactic(auto, unfolding(crate::specs::Replies::join_members))]
fn join_members<'a, E: BlockFn, D: BlockFn>(
    alloc: Global,
    tables: &'a Tables,
    vault: &Vault<E, D>,
    activation: Activation,
    head: &Head,
    request: &JoinRequest,
    target: &JoinTarget<'_>,
) -> Result<JoinAnswer<'a>, Memory>
    requires keys { length vault.now ≡ length tables.now.devices }
    requires device { target.now.number < length tables.now.devices }
    requires row { slice_get tables.now.devices target.now.number ≡ Some target.now.row.now }
    ensures { IfOk result (λ members. members ≡ join_members tables.now
        (nwk_at vault.now target.now.number) (app_at vault.now target.now.number) activation
        head.now request.now target.now.up target.now.row.now target.now.step.seed) }
{
    let device = target.number;
    let row = target.row;
    let seed = target.step.seed;
    let frame = accept_bytes(vault, device, &accept_of(&target.up, request, row, seed));
    let phy_payload = Text::of_slice(alloc, frame.as_slice())?;
    let lifetime = tables.desk().lifetime_s;
    let set = entitled_set(tables, head, device, row, answer_kind(activation), lifetime);
    let keys = answer_keys(tables, vault, device, row, &seed, set);
    Ok(JoinAnswer {
        phy_payload,
        lifetime,
        keys,
        session_key_id: SessionKeyId {
            dev_eui: row.dev_eui,
            join_nonce: seed.nonce,
        },
    })
}

// What a JoinReq or a RejoinReq comes to.
#[tactic(auto, using(crate::proofs::Causes::first_said))]
fn join_decision<'a, E: BlockFn, D: BlockFn>(
    alloc: Global,
    tables: &'a Tables,
    vault: &Vault<E, D>,
    state: &State,
    activation: Activation,
    head: Head,
    request: &JoinRequest,
) -> Result<JsDecision<'a>, Memory>
    requires keys { length vault.now ≡ length tables.now.devices }
    ensures { IfOk result (λ d. d ≡ by_rules (refuses head)
        (join_rules tables.now (nwk_at vault.now) state.now.now activation head request.now)
        (join_success tables.now (nwk_at vault.now) (app_at vault.now) state.now.now activation
        head request.now)) }
{
    match join_target(tables, vault, state, activation, &head, request) {
        Err(refusal) => Ok(Decision::Reply(refused(head, refusal))),
        Ok(target) => {
            let members = join_members(alloc, tables, vault, activation, &head, request, &target)?;
            let outcome = outcome_of(activation, members);
            let change = change(target.number, &target.step, None);
            Ok(Decision::Accept(Answer::Headed { head, outcome }, change))
        }
    }
}

// ---- applications, and homes

// The answer to an application that asks for a key that it gets.
#[tactic(auto, unfolding(crate::specs::Replies::app_s_key_answer))]
fn app_s_key_answer<'a, E: BlockFn, D: BlockFn>(
    tables: &'a Tables,
    vault: &Vault<E, D>,
    head: Head,
    request: &AppSKeyRequest,
    device: u32,
    row: &DeviceRow,
    seed: &Seed,
) -> Answer<'a>
    requires keys { length vault.now ≡ length tables.now.devices }
    requires device { device < length tables.now.devices }
    requires row { slice_get tables.now.devices device ≡ Some row.now }
    ensures { result ≡ app_s_key_answer tables.now (app_at vault.now device) head request.now
        row.now seed.now }
{
    let set = entitled_set(tables, &head, device, row, AnswerKind::AppSKeyAns, 0);
    let app_s_key = application_key(tables, vault, device, row, seed, set);
    Answer::Headed {
        head,
        outcome: Outcome::AppSKeyAns(AppSKeyAnswer {
            dev_eui: request.dev_eui,
            app_s_key,
            session_key_id: request.session_key_id,
        }),
    }
}

// What an AppSKeyReq comes to.
fn app_s_key_decision<'a, E: BlockFn, D: BlockFn>(
    tables: &'a Tables,
    vault: &Vault<E, D>,
    state: &State,
    head: Head,
    request: &AppSKeyRequest,
) -> Result<JsDecision<'a>, Memory>
    requires keys { length vault.now ≡ length tables.now.devices }
    ensures { IfOk result (λ d. d ≡ by_rules (refuses head) (app_s_key_rules_at head request.now
        (found_of tables.now state.now.now request.now.dev_eui))
        (app_s_key_success_at tables.now (app_at vault.now) head request.now
        (found_of tables.now state.now.now request.now.dev_eui))) }
{
    match app_s_key_target(tables, state, &head, request) {
        Err(refusal) => Ok(Decision::Reply(refused(head, refusal))),
        Ok((found, kept)) => {
            let number = found.number;
            let row = found.row;
            let answer = app_s_key_answer(tables, vault, head, request, number, row, &kept.seed);
            Ok(Decision::Reply(answer))
        }
    }
}

// What a HomeNSReq comes to.
fn home_ns_decision<'a>(
    tables: &Tables,
    state: &State,
    head: Head,
    request: &HomeNsRequest,
) -> Result<JsDecision<'a>, Memory>
    ensures { IfOk result (λ d. d ≡ by_rules (refuses head)
        (home_ns_rules_at (found_of tables.now state.now.now request.now.dev_eui))
        (home_ns_success_at head (found_of tables.now state.now.now request.now.dev_eui))) }
{
    let Some(found) = found_device(tables, state, request.dev_eui) else {
        return Ok(Decision::Reply(refused(head, Refusal::Device)));
    };
    let h_net_id = found.row.home;
    let outcome = Outcome::HomeNSAns(HomeNsAnswer { h_net_id });
    Ok(Decision::Reply(Answer::Headed { head, outcome }))
}

// What a request comes to that isn't a join server's.
fn other_decision<'a>(head: Head) -> Result<JsDecision<'a>, Memory>
    ensures { IfOk result (λ d. d ≡ refuses head wrong_type) }
{
    Ok(Decision::Reply(refused(head, Refusal::Type)))
}

// ---- all requests

// What a request comes to in a state from which nothing has to lapse.
#[tactic(auto, unfolding(crate::specs::Replies::js_decided))]
fn decide<'a, E: BlockFn, D: BlockFn>(
    alloc: Global,
    tables: &'a Tables,
    vault: &Vault<E, D>,
    state: &State,
    head: Head,
    request: &Request,
) -> Result<JsDecision<'a>, Memory>
    requires keys { length vault.now ≡ length tables.now.devices }
    ensures { IfOk result (λ d. d ≡ js_decided tables.now (nwk_at vault.now) (app_at vault.now)
        state.now.now head request.now) }
{
    match request {
        Request::JoinReq(request) => {
            join_decision(alloc, tables, vault, state, Activation::Join, head, request)
        }
        Request::RejoinReq(request) => {
            join_decision(
                alloc,
                tables,
                vault,
                state,
                Activation::Rejoin,
                head,
                request,
            )
        }
        Request::AppSKeyReq(request) => { app_s_key_decision(tables, vault, state, head, request) }
        Request::HomeNSReq(request) => home_ns_decision(tables, state, head, request),
        Request::UplinkReq(_) | Request::XmitDataReq(_) | Request::XmitUplink(_) => {
            other_decision(head)
        }
        Request::Unknown => other_decision(head),
    }
}

/// What a request comes to from the rule of its frame's size on, in the state at this moment: it is
/// refused for the first rule that holds, and else succeeds. A request of a type that isn't a join
/// server's is refused. The one error is want of memory.
#[tactic(auto, using(crate::proofs::Lapsing::lapse_unread))]
pub fn js_decide<'a, E: BlockFn, D: BlockFn>(
    alloc: Global,
    tables: &'a Tables,
    vault: &Vault<E, D>,
    state: &State,
    message: Message,
    now: Moment,
) -> Result<JsDecision<'a>, Memory>
    requires keys { length vault.now ≡ length tables.now.devices }
    ensures { IfOk result (λ d. d ≡ js_decided tables.now (nwk_at vault.now) (app_at vault.now)
        (lapse now.0 state.now.now) message.head message.request) }
{
    let _ = now;
    let Message { head, request } = message;
    decide(alloc, tables, vault, state, head, &request)
}
