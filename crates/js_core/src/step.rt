//! The join step: what stands against a join- or rejoin-request of a device, and what it gives.

ghost use Rattle.std.specs.Prelude.{◌≡◌, ◌<◌, ◌⊎◌, length, position, true, false};
ghost use Rattle.std.specs.Prelude.{IfErr, IfOk, MatchOption};
ghost use Rattle.std.specs.Option.{option_copied};
ghost use Rattle.wire_ids.specs.Lists.{at_place};
ghost use Rattle.key_vault.specs.Table.{nwk_at};
ghost use Rattle.js_core.specs.Frames.{frame_size};
ghost use Rattle.js_core.specs.Steps.{change_of, has_mic, is_not_above, is_spent};
ghost use Rattle.js_core.specs.Steps.{is_valid_under, low_counter, low_counter_at, next_seed};
ghost use Rattle.js_core.specs.Steps.{rejoin_seed, seed_place, used_seed, used_seed_at};
ghost use Rattle.js_core.specs.Steps.{wrong_eui, wrong_mic};

use crate::frames::counter;
use agreements::DeviceRow;
use entries::{Change, Joined, OwnContext, Rejoined, SeedPlace, UsedSeed};
use entry_codec::{Device, KeptSeed};
use join_frames::{JoinUp, join_mic_ok, rejoin_mic_ok};
use key_vault::{BlockFn, Vault};
use wire_ids::{Nonce24, Seed};

/// What a join- or rejoin-request that nothing stands against gives: the place of the seed that
/// a rejoin-request uses, and the seed of the new session, with the request's counter.
#[derive(Clone, Copy)]
pub struct JoinStep {
    pub used: Option<UsedSeed>,
    pub seed: Seed,
}

/// Whether the frame's JoinEUI isn't that of the row, or its NetID not that of the row's home.
pub(crate) fn wrong_eui(up: &JoinUp, row: &DeviceRow) -> bool
    ensures { result ≡ wrong_eui up.now row.now }
{
    match up {
        JoinUp::Join { join_eui, .. } => join_eui.0 != row.join_eui.0,
        JoinUp::Rejoin02 { net, .. } => net.get() != row.home.get(),
        JoinUp::Rejoin1 { join_eui, .. } => join_eui.0 != row.join_eui.0,
    }
}

// ---- the MIC

// Whether the MIC of a join-request is valid.
fn is_join_valid<E: BlockFn, D: BlockFn>(vault: &Vault<E, D>, device: u32, frame: &[u8]) -> bool
    requires device { device < length vault.now }
    requires size { length frame.now ≡ 23 }
    ensures { result ≡ has_mic (nwk_at vault.now device) frame.now }
{
    let mut whole = [0; 23];
    whole.copy_from_slice(frame);
    join_mic_ok(vault, device, &whole)
}

// Whether the MIC of a rejoin-request is valid under this key.
fn is_rejoin_valid(key: &[u8; 16], frame: &[u8]) -> bool
    requires size { (length frame.now ≡ 19) ⊎ (length frame.now ≡ 24) }
    ensures { result ≡ has_mic key.now frame.now }
{
    rejoin_mic_ok(key, frame)
}

// Whether it is valid under SNwkSIntKey of this seed.
fn is_valid_under<E: BlockFn, D: BlockFn>(
    vault: &Vault<E, D>,
    device: u32,
    kept: &KeptSeed,
    frame: &[u8],
) -> bool
    requires device { device < length vault.now }
    requires size { (length frame.now ≡ 19) ⊎ (length frame.now ≡ 24) }
    ensures { result ≡ is_valid_under (nwk_at vault.now device) frame.now kept.now }
{
    let keys = vault.session_keys(device, &kept.seed);
    is_rejoin_valid(&keys.s, frame)
}

fn place_among<E: BlockFn, D: BlockFn>(
    vault: &Vault<E, D>,
    device: u32,
    seeds: &[KeptSeed],
    frame: &[u8],
) -> Option<usize>
    requires device { device < length vault.now }
    requires size { (length frame.now ≡ 19) ⊎ (length frame.now ≡ 24) }
    ensures { result ≡ position (is_valid_under (nwk_at vault.now device) frame.now) seeds.now }
{
    seeds
        .iter()
        .position(|seed| is_valid_under(vault, device, seed, frame))
}

// The place of the newest kept seed under which it is valid.
#[tactic(auto, unfolding(crate::specs::Steps::seed_place))]
fn seed_place<E: BlockFn, D: BlockFn>(
    vault: &Vault<E, D>,
    device: u32,
    kept: &Device,
    frame: &[u8],
) -> Option<SeedPlace>
    requires device { device < length vault.now }
    requires size { (length frame.now ≡ 19) ⊎ (length frame.now ≡ 24) }
    ensures { result ≡ seed_place (nwk_at vault.now device) frame.now kept.now }
{
    match place_among(vault, device, kept.seeds.as_slice(), frame) {
        Some(place) => SeedPlace::new(place as u8),
        None => None,
    }
}

/// The MIC of a frame isn't valid.
#[derive(Drop)]
pub(crate) struct WrongMic;

/// The place of the kept seed that a rejoin-request of type 0 or 2 uses, whose MIC is looked at
/// once under each kept seed at most; None for other frames. The error comes exactly where the MIC
/// isn't valid.
pub(crate) fn checked_mic<E: BlockFn, D: BlockFn>(
    vault: &Vault<E, D>,
    device: u32,
    row: &DeviceRow,
    kept: &Device,
    up: &JoinUp,
    frame: &[u8],
) -> Result<Option<SeedPlace>, WrongMic>
    requires device { device < length vault.now }
    requires size { length frame.now ≡ frame_size up.now }
    ensures wrong { IfErr result (λ _.
        wrong_mic (nwk_at vault.now device) frame.now up.now row.now kept.now ≡ true) }
    ensures valid { IfOk result (λ _.
        wrong_mic (nwk_at vault.now device) frame.now up.now row.now kept.now ≡ false) }
    ensures counter { IfOk result (λ place. low_counter_at place up.now kept.now
        ≡ low_counter (nwk_at vault.now device) frame.now up.now kept.now) }
    ensures used { IfOk result (λ place. used_seed_at place up.now
        ≡ used_seed (nwk_at vault.now device) frame.now up.now kept.now) }
{
    match up {
        JoinUp::Join { .. } => {
            if is_join_valid(vault, device, frame) {
                Ok(None)
            } else {
                Err(WrongMic)
            }
        }
        JoinUp::Rejoin02 { .. } => match seed_place(vault, device, kept, frame) {
            Some(place) => Ok(Some(place)),
            None => Err(WrongMic),
        },
        JoinUp::Rejoin1 { .. } => {
            if is_rejoin_valid(&vault.js_int(device, row.dev_eui), frame) {
                Ok(None)
            } else {
                Err(WrongMic)
            }
        }
    }
}

// ---- the counters

fn is_not_above(counter: u16, last: Option<u16>) -> bool
    ensures { result ≡ is_not_above counter last }
{
    match last {
        None => false,
        Some(last) => counter <= last,
    }
}

// The kept seed in this place.
fn seed_at<'a>(kept: &'a Device, place: &Option<SeedPlace>) -> Option<&'a KeptSeed>
    ensures { option_copied result ≡ at_place kept.now.seeds.items place.now }
{
    match place {
        None => None,
        Some(place) => kept.seeds.as_slice().get(usize::from(place.get())),
    }
}

/// Whether the counter of a frame that uses the kept seed in this place isn't above the last one.
pub(crate) fn low_counter(place: &Option<SeedPlace>, up: &JoinUp, kept: &Device) -> bool
    ensures { result ≡ low_counter_at place.now up.now kept.now }
{
    match up {
        JoinUp::Join { nonce, .. } => is_not_above(*nonce, kept.dev_nonce),
        JoinUp::Rejoin02 { count, .. } => match seed_at(kept, place) {
            None => false,
            Some(seed) => is_not_above(*count, seed.rj_count0),
        },
        JoinUp::Rejoin1 { count, .. } => is_not_above(*count, kept.rj_count1),
    }
}

// ---- what it gives

/// The seed of the new session, and None exactly where the last JoinNonce was given out.
pub(crate) fn next_seed(up: &JoinUp, kept: &Device) -> Option<Seed>
    ensures { MatchOption result (is_spent kept.now ≡ true)
        (λ s. (is_spent kept.now ≡ false) × (s ≡ next_seed up.now kept.now)) }
{
    let nonce = Nonce24::new(kept.join_nonce.get() + 1)?;
    Some(Seed {
        nonce,
        join_eui: kept.join_eui,
        counter: counter(up),
    })
}

fn rejoin_seed(kind: u8, place: SeedPlace) -> UsedSeed
    ensures { result ≡ rejoin_seed kind place }
{
    if kind == 0 {
        UsedSeed::Rejoin0(place)
    } else {
        UsedSeed::Rejoin2(place)
    }
}

/// The seed that a frame uses, which is the kept one in this place.
pub(crate) fn used_seed(place: &Option<SeedPlace>, up: &JoinUp) -> Option<UsedSeed>
    ensures { result ≡ used_seed_at place.now up.now }
{
    match up {
        JoinUp::Join { .. } => None,
        JoinUp::Rejoin02 { kind, .. } => match place {
            None => None,
            Some(place) => Some(rejoin_seed(*kind, *place)),
        },
        JoinUp::Rejoin1 { .. } => Some(UsedSeed::Rejoin1),
    }
}

/// What the step changes of the device with this number, which gets this context of the desk, or
/// none.
pub fn change(device: u32, step: &JoinStep, own: Option<OwnContext>) -> Change
    ensures { result ≡ change_of device step.now own }
{
    let JoinStep { used, seed } = *step;
    match used {
        None => Change::Join(Joined {
            device,
            counter: seed.counter,
            join_nonce: seed.nonce,
            own,
        }),
        Some(used) => Change::Rejoin(Rejoined {
            device,
            used,
            counter: seed.counter,
            join_nonce: seed.nonce,
            own,
        }),
    }
}
