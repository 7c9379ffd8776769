//! Who is heard under an address, and under which keys.

ghost use Rattle.std.specs.Prelude.{◌≡◌, ◌<◌, length, option_map, IfSome, Some};
ghost use Rattle.std.specs.Option.{option_copied};
ghost use Rattle.data_frames.specs.DataForms.{fields_of};
ghost use Rattle.entry_codec.specs.Machine.{lapse};
ghost use Rattle.key_vault.specs.Table.{nwk_at};
ghost use Rattle.exchanges.specs.Frames.{HasFields};
ghost use Rattle.ns_core.specs.Speakers.{HasRow, context_at, count_in, count_of, in_slot};
ghost use Rattle.ns_core.specs.Speakers.{is_duplicate, keys_of, name_of, speaker_now, speaker_of};

use agreements::Tables;
use contexts::{Context, Origin, Slots};
use data_frames::DataUp;
use entry_codec::{Holder, LiveContext, State};
use exchanges::{Count, up_valid};
use key_vault::{BlockFn, Vault};
use wire_ids::{DevAddr, Eui, Moment, SessionKeys};

/// A device of the tables or a visitor, with one of its contexts.
#[derive(Clone, Copy)]
pub(crate) struct Speaking<'a> {
    pub holder: Holder,
    pub dev_eui: Eui,
    /// Whether the context is the pending one.
    pub pending: bool,
    pub context: &'a Context,
}

fn name_of(tables: &Tables, holder: Holder) -> Option<Eui>
    ensures name { result ≡ name_of tables.now holder }
    ensures row { IfSome result (λ _. HasRow (length tables.now.devices) holder) }
{
    match holder {
        Holder::Device(device) => match tables.devices().get(device as usize) {
            None => None,
            Some(row) => Some(row.dev_eui),
        },
        Holder::Visitor(dev) => Some(dev),
    }
}

fn in_slot(slots: &Slots, pending: bool) -> Option<&Context>
    ensures { option_copied result ≡ in_slot pending slots.now }
{
    if pending {
        slots.pending.as_ref()
    } else {
        slots.active.as_ref()
    }
}

fn context_at(state: &State, live: LiveContext, now: Moment) -> Option<&Context>
    ensures { option_copied result ≡ context_at live (lapse now.0 state.now.now) }
{
    match state.slots(Some(live.holder), now) {
        None => None,
        Some(slots) => in_slot(slots, live.pending),
    }
}

/// Who has the live context with this address.
#[tactic(auto, unfolding(crate::specs::Speakers::speaker_of))]
pub(crate) fn speaker<'a>(
    tables: &Tables,
    state: &'a State,
    addr: DevAddr,
    now: Moment,
) -> Option<Speaking<'a>>
    ensures speaker { option_map speaker_now result
        ≡ speaker_of tables.now (lapse now.0 state.now.now) addr }
    ensures row { IfSome result (λ s. HasRow (length tables.now.devices) s.holder) }
{
    let Some(live) = state.live_context(addr, now) else {
        return None;
    };
    let Some(dev_eui) = name_of(tables, live.holder) else {
        return None;
    };
    match context_at(state, live, now) {
        None => None,
        Some(context) => Some(Speaking {
            holder: live.holder,
            dev_eui,
            pending: live.pending,
            context,
        }),
    }
}

// A device's keys are derived from its context's seed; a visitor's were given with the context.
fn keys_of<E: BlockFn, D: BlockFn>(
    vault: &Vault<E, D>,
    holder: Holder,
    origin: &Origin,
) -> Option<SessionKeys>
    requires { HasRow (length vault.now) holder }
    ensures { result ≡ keys_of (nwk_at vault.now) holder origin.now }
{
    match origin {
        Origin::Given { number: _, keys } => Some(*keys),
        Origin::Seeded(seed) => match holder {
            Holder::Device(device) => Some(vault.session_keys(device, seed)),
            Holder::Visitor(_) => None,
        },
    }
}

/// Whether the frame is the last one that was accepted under the speaker's context.
pub(crate) fn is_duplicate(frame: &[u8], speaker: &Speaking<'_>) -> bool
    ensures { result ≡ is_duplicate frame.now (speaker_now speaker.now) }
{
    speaker.context.frame.as_slice() == frame
}

/// What is valid of a frame: the keys of its session, its full counter and its channel.
#[derive(Clone, Copy)]
pub(crate) struct Valid {
    pub keys: SessionKeys,
    pub count: Count,
}

/// The session's keys, and the full counter and the channel of a frame of the speaker's, where it
/// is valid.
#[tactic(auto, unfolding(crate::specs::Speakers::count_of))]
pub(crate) fn valid_of<E: BlockFn, D: BlockFn>(
    vault: &Vault<E, D>,
    up: &DataUp<'_>,
    rate: u8,
    speaker: &Speaking<'_>,
) -> Option<Valid>
    requires row { HasRow (length vault.now) speaker.now.holder }
    requires fields { HasFields up.now.whole.now (fields_of up.now) }
    ensures count { option_map count_in result
        ≡ count_of (nwk_at vault.now) up.now.whole.now rate (speaker_now speaker.now) }
    ensures keys { IfSome result (λ v. keys_of (nwk_at vault.now) speaker.now.holder
        speaker.now.context.now.origin ≡ Some v.keys) }
{
    let Some(keys) = keys_of(vault, speaker.holder, &speaker.context.origin) else {
        return None;
    };
    match up_valid(&keys, speaker.context, up, rate) {
        Some(count) => Some(Valid { keys, count }),
        None => None,
    }
}
