//! Joins and rejoins of devices at home here, which a gateway heard.

ghost use Rattle.std.specs.Prelude.{◌≡◌, ◌<◌, ℕ, length, IfOk, Some, false};
ghost use Rattle.entry_codec.specs.Machine.{lapse};
ghost use Rattle.js_core.specs.Frames.{frame_size, wrong_size};
ghost use Rattle.js_core.specs.Home.{home_found, sender_found};
ghost use Rattle.js_core.specs.Replies.{refuses};
ghost use Rattle.js_core.specs.Rules.{by_rules};
ghost use Rattle.key_vault.specs.Table.{nwk_at};
ghost use Rattle.ns_core.specs.Heard.{Join};
ghost use Rattle.ns_core.specs.Replies.{accept_members, success_at};
ghost use Rattle.ns_core.specs.Rules.{uplink_rules_at};

use crate::own::own_context;
use agreements::Tables;
use backend_json::{Answer, Head, Outcome, Refusal, SessionKeyId, UplinkAnswer, UplinkRequest};
use entries::OwnContext;
use entry_codec::State;
use join_frames::{JoinUp, accept_bytes};
use js_core::{HomeStep, JsDecision, change, home_accept, home_step, refused};
use key_vault::{BlockFn, Vault};
use std::alloc::Global;
use wire_ids::{Decision, Memory, Moment, Text};

// The members of the answer, with the accept.
#[tactic(auto, unfolding(crate::specs::Replies::accept_members))]
fn accept_members<E: BlockFn, D: BlockFn>(
    alloc: Global,
    vault: &Vault<E, D>,
    up: &JoinUp,
    step: &HomeStep<'_>,
    own: &OwnContext,
) -> Result<UplinkAnswer, Memory>
    requires { step.now.number < length vault.now }
    ensures { (at : ℕ) → IfOk result (λ members. members
        ≡ accept_members (nwk_at vault.now step.now.number) up.now (home_found at step.now)
        step.now.step own.now) }
{
    let row = step.row;
    let seed = step.step.seed;
    let session_key_id = SessionKeyId {
        dev_eui: row.dev_eui,
        join_nonce: seed.nonce,
    };
    let accept = accept_bytes(vault, step.number, &home_accept(up, row, seed, own));
    let phy_payload = Text::of_slice(alloc, accept.as_slice())?;
    Ok(UplinkAnswer {
        dev_eui: row.dev_eui,
        f_cnt_up: None,
        phy_payload: Some(phy_payload),
        session_key_id: Some(session_key_id),
    })
}

/// What a join- or rejoin-request comes to whose size is one of its type.
pub(crate) fn activation_decision<'a, E: BlockFn, D: BlockFn>(
    alloc: Global,
    tables: &Tables,
    vault: &Vault<E, D>,
    state: &State,
    head: Head,
    request: &UplinkRequest,
    up: &JoinUp,
    now: Moment,
) -> Result<JsDecision<'a>, Memory>
    requires keys { length vault.now ≡ length tables.now.devices }
    requires size { length request.now.phy_payload ≡ frame_size up.now }
    requires sized { wrong_size request.now.phy_payload ≡ false }
    ensures { IfOk result (λ d. let c = tables.now in let nwk = nwk_at vault.now in
        let m = lapse now.0 state.now.now in let heard = Join up.now (sender_found c m up.now) in
        d ≡ by_rules (refuses head) (uplink_rules_at c nwk m request.now heard)
        (success_at c nwk m head request.now heard)) }
{
    let frame = request.phy_payload.as_slice();
    let step = match home_step(tables, vault, state, up, frame, now) {
        Ok(step) => step,
        Err(refusal) => return Ok(Decision::Reply(refused(head, refusal))),
    };
    let Some(own) = own_context(tables, state, &step, now) else {
        return Ok(Decision::Reply(refused(head, Refusal::AddressesSpent)));
    };
    let members = accept_members(alloc, vault, up, &step, &own)?;
    let outcome = Outcome::UplinkAns(members);
    let change = change(step.number, &step.step, Some(own));
    Ok(Decision::Accept(Answer::Headed { head, outcome }, change))
}
