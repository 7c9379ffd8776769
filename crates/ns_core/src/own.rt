//! The context that the desk gives a device at home here: its address and its radio parameters.

ghost use Rattle.std.specs.Prelude.{◌≡◌, ℕ, is_some, option_map};
ghost use Rattle.std.specs.Option.{option_copied};
ghost use Rattle.wire_ids.specs.declared.address.DevAddr as dev_addr;
ghost use Rattle.entry_codec.specs.Machine.{lapse};
ghost use Rattle.js_core.specs.Home.{home_found};
ghost use Rattle.ns_core.specs.Own.{desk_radio, own_address, own_context, radio_by, radio_in};
ghost use Rattle.ns_core.specs.Own.{radio_under, waking};

use agreements::{DeskRow, Tables};
use contexts::{Context, Origin, Slots};
use entries::{OwnContext, UsedSeed};
use entry_codec::{Device, Holder, KeptSeed, State};
use js_core::HomeStep;
use wire_ids::{DevAddr, Moment, Radio};

// ---- radio parameters

fn desk_radio(desk: &DeskRow) -> Radio
    ensures { result ≡ desk_radio desk.now }
{
    Radio {
        dl: desk.dl_settings,
        rx_delay: desk.rx_delay,
        cf: desk.cf_list,
    }
}

// Those of this context, where it began with the seed, else these.
fn radio_in(kept: &KeptSeed, slot: &Option<Context>, radio: Radio) -> Radio
    ensures { result ≡ radio_in kept.now slot.now radio }
{
    let Some(context) = slot else {
        return radio;
    };
    match context.origin {
        Origin::Seeded(own)
            if own.nonce.get() == kept.seed.nonce.get()
                && own.join_eui.0 == kept.seed.join_eui.0
                && own.counter == kept.seed.counter => { context.radio }
        _ => radio,
    }
}

fn radio_under(slots: &Slots, radio: Radio, kept: Option<&KeptSeed>) -> Radio
    ensures { result ≡ radio_under slots.now radio (option_copied kept.entry) }
{
    match kept {
        None => radio,
        Some(kept) => radio_in(kept, &slots.pending, radio_in(kept, &slots.active, radio)),
    }
}

// After a rejoin of type 2 those of the live context whose seed was used, where there is one.
#[tactic(auto, unfolding(crate::specs::Own::radio_by))]
fn radio_by(used: &Option<UsedSeed>, device: &Device, radio: Radio) -> Radio
    ensures { result ≡ radio_by used.now device.now radio }
{
    match used {
        Some(UsedSeed::Rejoin2(place)) => radio_under(
            &device.slots,
            radio,
            device.seeds.as_slice().get(usize::from(place.get())),
        ),
        _ => radio,
    }
}

// ---- the address

// Whose pending context becomes active first, since its seed was used.
#[tactic(auto, using(crate::proofs::Lapsing::uses_lapsed, crate::proofs::Lapsing::none_wakes))]
fn waking(step: &HomeStep<'_>) -> Option<Holder>
    requires { step.now.has_pending ≡ is_some step.now.kept.now.slots.pending }
    ensures { (at : ℕ) → result ≡ waking step.now.step.used (home_found at step.now) }
{
    match step.step.used {
        Some(used) if step.has_pending && step.kept.uses_pending(used) => Some(Holder::Device(
            step.number,
        )),
        _ => None,
    }
}

// The least free address of the desk's network.
#[tactic(auto, unfolding(crate::specs::Own::own_address))]
fn own_address(tables: &Tables, state: &State, step: &HomeStep<'_>, now: Moment) -> Option<DevAddr>
    requires { step.now.has_pending ≡ is_some step.now.kept.now.slots.pending }
    ensures { option_map (λ (a : dev_addr.DevAddr). a.0) result
        ≡ own_address tables.now (lapse now.0 state.now.now) step.now.step.used
        (home_found now.0 step.now) }
{
    state.free_address(tables.desk().net_id, waking(step), now)
}

/// The context that the desk gives the device of a step, and None where no address is left.
#[tactic(auto, unfolding(crate::specs::Own::own_context), using(crate::proofs::Lapsing::radio_at))]
pub(crate) fn own_context(
    tables: &Tables,
    state: &State,
    step: &HomeStep<'_>,
    now: Moment,
) -> Option<OwnContext>
    requires { step.now.has_pending ≡ is_some step.now.kept.now.slots.pending }
    ensures { result ≡ own_context tables.now (lapse now.0 state.now.now) step.now.step.used
        (home_found now.0 step.now) }
{
    let Some(dev_addr) = own_address(tables, state, step, now) else {
        return None;
    };
    let radio = radio_by(&step.step.used, step.kept, desk_radio(tables.desk()));
    Some(OwnContext { dev_addr, radio })
}
