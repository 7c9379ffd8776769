//! Joins and rejoins of devices that are at home here.

ghost use Rattle.std.specs.Prelude.{◌≡◌, ◌<◌, length, slice_get, IfErr, IfOk, None, Some};
ghost use Rattle.std.specs.Prelude.{is_some, true, false};
ghost use Rattle.entry_codec.specs.Machine.{lapse};
ghost use Rattle.key_vault.specs.Table.{nwk_at};
ghost use Rattle.wire_ids.specs.Rules.{first_rule};
ghost use Rattle.js_core.specs.Frames.{dev_eui_of, frame_size};
ghost use Rattle.js_core.specs.Home.{home_found, home_rules_at, sender_found, stepping};
ghost use Rattle.js_core.specs.Replies.{accept_kind, home_accept, rejoin_kind};
ghost use Rattle.js_core.specs.Steps.{is_spent, step_of};

use crate::found::found_device;
use crate::frames::dev_eui;
use crate::rules::join_step;
use crate::step::JoinStep;
use agreements::{DeviceRow, Tables};
use backend_json::Refusal;
use entries::OwnContext;
use entry_codec::{Device, State};
use join_frames::{Accept, AcceptKind, JoinUp};
use key_vault::{BlockFn, Vault};
use wire_ids::{Moment, Seed};

/// What a join- or rejoin-request of a device at home here comes to that nothing stands against:
/// the device's number, its row, what is kept of it, and the step.
#[derive(Clone, Copy)]
pub struct HomeStep<'a> {
    pub number: u32,
    pub row: &'a DeviceRow,
    pub kept: &'a Device,
    /// Whether a pending context waits for its first uplink.
    pub has_pending: bool,
    pub step: JoinStep,
}

// The step in the state as it is.
fn step_now<'a, E: BlockFn, D: BlockFn>(
    tables: &'a Tables,
    vault: &Vault<E, D>,
    state: &'a State,
    up: &JoinUp,
    frame: &[u8],
) -> Result<HomeStep<'a>, Refusal>
    requires keys { length vault.now ≡ length tables.now.devices }
    requires size { length frame.now ≡ frame_size up.now }
    ensures refused { IfErr result (λ r. first_rule (home_rules_at (nwk_at vault.now) frame.now
        (Some up.now) (sender_found tables.now state.now.now up.now)) ≡ Some r) }
    ensures accepted { IfOk result (λ s. first_rule (home_rules_at (nwk_at vault.now) frame.now
        (Some up.now) (sender_found tables.now state.now.now up.now)) ≡ None) }
    ensures found { IfOk result (λ s. sender_found tables.now state.now.now up.now
        ≡ Some (stepping s)) }
    ensures number { IfOk result (λ s. s.number < length tables.now.devices) }
    ensures row { IfOk result (λ s. slice_get tables.now.devices s.number ≡ Some s.row.now) }
    ensures kept { IfOk result (λ s. slice_get state.now.now.devices s.number ≡ Some s.kept.now) }
    ensures pending { IfOk result (λ s. s.has_pending ≡ is_some s.kept.now.slots.pending) }
    ensures home { IfOk result (λ s. s.kept.now.is_home ≡ true) }
    ensures step { IfOk result (λ s. s.step
        ≡ step_of (nwk_at vault.now s.number) frame.now up.now s.kept.now) }
    ensures unspent { IfOk result (λ s. is_spent s.kept.now ≡ false) }
{
    let Some(device) = found_device(tables, state, dev_eui(up)) else {
        return Err(Refusal::Device);
    };
    // It lies apart from the rest of the row, and is read beside it.
    let has_pending = device.kept.slots.pending.is_some();
    if !device.kept.is_home {
        return Err(Refusal::Device);
    }
    if device.kept.suspended {
        return Err(Refusal::Suspended);
    }
    match join_step(vault, &device, up, frame) {
        Ok(step) => Ok(HomeStep {
            number: device.number,
            row: device.row,
            kept: device.kept,
            has_pending,
            step,
        }),
        Err(refusal) => Err(refusal),
    }
}

/// The step of a device at home here in the state at this moment, or the first cause for which its
/// join- or rejoin-request is refused. Nothing that lapses is looked at.
pub fn home_step<'a, E: BlockFn, D: BlockFn>(
    tables: &'a Tables,
    vault: &Vault<E, D>,
    state: &'a State,
    up: &JoinUp,
    frame: &[u8],
    now: Moment,
) -> Result<HomeStep<'a>, Refusal>
    requires keys { length vault.now ≡ length tables.now.devices }
    requires size { length frame.now ≡ frame_size up.now }
    ensures refused { IfErr result (λ r. first_rule (home_rules_at (nwk_at vault.now) frame.now
        (Some up.now) (sender_found tables.now (lapse now.0 state.now.now) up.now)) ≡ Some r) }
    ensures accepted { IfOk result (λ s. first_rule (home_rules_at (nwk_at vault.now) frame.now
        (Some up.now) (sender_found tables.now (lapse now.0 state.now.now) up.now)) ≡ None) }
    ensures found { IfOk result (λ s. sender_found tables.now (lapse now.0 state.now.now) up.now
        ≡ Some (home_found now.0 s)) }
    ensures number { IfOk result (λ s. s.number < length tables.now.devices) }
    ensures row { IfOk result (λ s. slice_get tables.now.devices s.number ≡ Some s.row.now) }
    ensures kept { IfOk result (λ s. slice_get state.now.now.devices s.number ≡ Some s.kept.now) }
    ensures pending { IfOk result (λ s. s.has_pending ≡ is_some s.kept.now.slots.pending) }
    ensures home { IfOk result (λ s. s.kept.now.is_home ≡ true) }
    ensures step { IfOk result (λ s. s.step
        ≡ step_of (nwk_at vault.now s.number) frame.now up.now (home_found now.0 s).kept) }
    ensures unspent { IfOk result (λ s. is_spent (home_found now.0 s).kept ≡ false) }
{
    let _ = now;
    step_now(tables, vault, state, up, frame)
}

fn accept_kind(up: &JoinUp) -> AcceptKind
    ensures { result ≡ accept_kind up.now }
{
    match up {
        JoinUp::Join { .. } => AcceptKind::Join,
        JoinUp::Rejoin02 { kind, .. } => {
            if *kind == 0 {
                AcceptKind::Rejoin0
            } else {
                AcceptKind::Rejoin2
            }
        }
        JoinUp::Rejoin1 { .. } => AcceptKind::Rejoin1,
    }
}

/// The join-accept with the address and the radio parameters of this context, in the name of the
/// device's home.
pub fn home_accept(up: &JoinUp, row: &DeviceRow, seed: Seed, own: &OwnContext) -> Accept
    ensures { result ≡ home_accept up.now row.now seed own.now }
{
    Accept {
        kind: accept_kind(up),
        dev: row.dev_eui,
        seed,
        net: row.home,
        addr: own.dev_addr,
        radio: own.radio,
    }
}
