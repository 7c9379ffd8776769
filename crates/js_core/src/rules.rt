//! The rules by which requests are refused, each a test of its own.

ghost use Rattle.std.specs.Prelude.{◌≡◌, ◌<◌, ℕ, List, length, slice_get};
ghost use Rattle.std.specs.Prelude.{IfErr, IfOk, MatchOption, None, Some, true, false};
ghost use Rattle.std.specs.List.{find};
ghost use Rattle.std.specs.Option.{option_copied};
ghost use Rattle.wire_ids.specs.Rules.{first_rule};
ghost use Rattle.key_vault.specs.Table.{nwk_at};
ghost use Rattle.js_core.specs.Found.{found_now, found_of};
ghost use Rattle.js_core.specs.Frames.{frame_size, join_up_of};
ghost use Rattle.js_core.specs.Replies.{seed_with};
ghost use Rattle.js_core.specs.Rules.{app_s_key_rules_at, has_nonce, is_no_session};
ghost use Rattle.js_core.specs.Rules.{join_rules, step_rules, wrong_app, wrong_home};
ghost use Rattle.js_core.specs.Steps.{is_spent, step_of};
ghost use Rattle.entry_codec.specs.declared.device.Device.{Device};

use crate::Activation;
use crate::found::{FoundDevice, found_device};
use crate::frames::{fitting_frame, wrong_size};
use crate::parties::{is_app, is_net};
use crate::step::{JoinStep, checked_mic, low_counter, next_seed, used_seed, wrong_eui};
use agreements::{DeviceRow, Tables};
use backend_json::{AppSKeyRequest, Head, JoinRequest, Refusal};
use entry_codec::{Device, KeptSeed, State};
use join_frames::JoinUp;
use key_vault::{BlockFn, Vault};
use wire_ids::Nonce24;

// ---- joins and rejoins

// Whether the sender isn't the device's home network.
fn wrong_home(head: &Head, found: &FoundDevice<'_>) -> bool
    ensures { result ≡ wrong_home head.now (Some (found_now found.now)) }
{
    !is_net(found.row.home, head.sender)
}

/// The join step of a device for this frame, or the first cause against it. The MIC is looked at
/// once under each kept seed at most.
pub(crate) fn join_step<E: BlockFn, D: BlockFn>(
    vault: &Vault<E, D>,
    device: &FoundDevice<'_>,
    up: &JoinUp,
    frame: &[u8],
) -> Result<JoinStep, Refusal>
    requires device { device.now.number < length vault.now }
    requires size { length frame.now ≡ frame_size up.now }
    ensures refused { IfErr result (λ r. first_rule (step_rules (nwk_at vault.now) frame.now
        (Some up.now) (Some (found_now device.now))) ≡ Some r) }
    ensures accepted { IfOk result (λ _. first_rule (step_rules (nwk_at vault.now) frame.now
        (Some up.now) (Some (found_now device.now))) ≡ None) }
    ensures step { IfOk result (λ step. step
        ≡ step_of (nwk_at vault.now device.now.number) frame.now up.now device.now.kept.now) }
    ensures unspent { IfOk result (λ _. is_spent device.now.kept.now ≡ false) }
{
    if wrong_eui(up, device.row) {
        return Err(Refusal::Eui);
    }
    let Ok(place) = checked_mic(vault, device.number, device.row, device.kept, up, frame) else {
        return Err(Refusal::Mic);
    };
    if low_counter(&place, up, device.kept) {
        return Err(Refusal::Counter);
    }
    let Some(seed) = next_seed(up, device.kept) else {
        return Err(Refusal::Spent);
    };
    let used = used_seed(&place, up);
    Ok(JoinStep { used, seed })
}

/// What a join- or rejoin-request that isn't refused comes to: the device's number and row, the
/// frame, and the step.
#[derive(Clone, Copy)]
pub(crate) struct JoinTarget<'a> {
    pub number: u32,
    pub row: &'a DeviceRow,
    pub up: JoinUp,
    pub step: JoinStep,
}

/// The target of a JoinReq or a RejoinReq, or the first cause for which it is refused.
#[tactic(auto, unfolding(crate::specs::Rules::join_rules))]
pub(crate) fn join_target<'a, E: BlockFn, D: BlockFn>(
    tables: &'a Tables,
    vault: &Vault<E, D>,
    state: &'a State,
    activation: Activation,
    head: &Head,
    request: &JoinRequest,
) -> Result<JoinTarget<'a>, Refusal>
    requires keys { length vault.now ≡ length tables.now.devices }
    ensures refused { IfErr result (λ r. first_rule (join_rules tables.now (nwk_at vault.now)
        state.now.now activation head.now request.now) ≡ Some r) }
    ensures accepted { IfOk result (λ t. first_rule (join_rules tables.now (nwk_at vault.now)
        state.now.now activation head.now request.now) ≡ None) }
    ensures up { IfOk result (λ t. join_up_of request.now.phy_payload ≡ Some t.up) }
    ensures number { IfOk result (λ t. t.number < length tables.now.devices) }
    ensures row { IfOk result (λ t. slice_get tables.now.devices t.number ≡ Some t.row.now) }
    ensures step { IfOk result (λ t. (kept : Device)
        × (found_of tables.now state.now.now request.now.dev_eui
        ≡ Some (record { device = t.number; row = t.row.now; kept = kept }))
        × (is_spent kept ≡ false) × (t.step ≡ step_of (nwk_at vault.now t.number)
        request.now.phy_payload t.up kept)) }
{
    let frame = request.phy_payload.as_slice();
    if wrong_size(frame) {
        return Err(Refusal::Size);
    }
    let Some(up) = fitting_frame(activation, request) else {
        return Err(Refusal::Frame);
    };
    let Some(device) = found_device(tables, state, request.dev_eui) else {
        return Err(Refusal::Device);
    };
    if wrong_home(head, &device) {
        return Err(Refusal::Home);
    }
    if device.kept.suspended {
        return Err(Refusal::Suspended);
    }
    let step = match join_step(vault, &device, &up, frame) {
        Ok(step) => step,
        Err(refusal) => return Err(refusal),
    };
    Ok(JoinTarget {
        number: device.number,
        row: device.row,
        up,
        step,
    })
}

// ---- applications

// Whether the device doesn't belong to the application.
fn wrong_app(head: &Head, found: &FoundDevice<'_>) -> bool
    ensures { result ≡ wrong_app head.now (Some (found_now found.now)) }
{
    !is_app(found.row.app, head.sender)
}

// The first of the seeds with this JoinNonce.
fn seed_with(seeds: &[KeptSeed], nonce: Nonce24) -> Option<&KeptSeed>
    ensures { option_copied result ≡ find (has_nonce nonce) seeds.now }
{
    seeds
        .iter()
        .find(|kept| kept.seed.nonce.get() == nonce.get())
}

// The kept seed of the device with this SessionKeyID.
#[tactic(auto, using(crate::proofs::Sessions::session_found))]
fn session_seed<'a>(request: &AppSKeyRequest, kept: &'a Device) -> Option<&'a KeptSeed>
    ensures { MatchOption result (is_no_session request.now kept.now ≡ true)
        (λ s. (is_no_session request.now kept.now ≡ false)
        × (seed_with request.now.session_key_id.join_nonce kept.now ≡ Some s.now)) }
{
    if request.session_key_id.dev_eui.0 != request.dev_eui.0 {
        return None;
    }
    seed_with(kept.seeds.as_slice(), request.session_key_id.join_nonce)
}

/// The device of an AppSKeyReq, and the seed of its session, or the first cause for which it is
/// refused.
pub(crate) fn app_s_key_target<'a>(
    tables: &'a Tables,
    state: &'a State,
    head: &Head,
    request: &AppSKeyRequest,
) -> Result<(FoundDevice<'a>, &'a KeptSeed), Refusal>
    ensures refused { IfErr result (λ r. first_rule (app_s_key_rules_at head.now request.now
        (found_of tables.now state.now.now request.now.dev_eui)) ≡ Some r) }
    ensures accepted { IfOk result (λ t. first_rule (app_s_key_rules_at head.now request.now
        (found_of tables.now state.now.now request.now.dev_eui)) ≡ None) }
    ensures device { IfOk result (λ t. found_of tables.now state.now.now request.now.dev_eui
        ≡ Some (found_now t.0)) }
    ensures number { IfOk result (λ t. t.0.number < length tables.now.devices) }
    ensures row { IfOk result (λ t. slice_get tables.now.devices t.0.number ≡ Some t.0.row.now) }
    ensures seed { IfOk result (λ t. seed_with request.now.session_key_id.join_nonce t.0.kept.now
        ≡ Some t.1.now) }
{
    let Some(device) = found_device(tables, state, request.dev_eui) else {
        return Err(Refusal::Device);
    };
    if wrong_app(head, &device) {
        return Err(Refusal::Device);
    }
    let Some(seed) = session_seed(request, device.kept) else {
        return Err(Refusal::Session);
    };
    Ok((device, seed))
}
