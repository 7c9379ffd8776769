//! Which downlink answers an uplink, and its frame.

ghost use Rattle.std.specs.Prelude.{◌≡◌, ◌≤◌, length, option_map, IfOk, IfSome, None, Some};
ghost use Rattle.std.specs.Prelude.{[]};
ghost use Rattle.data_frames.specs.DataForms as data_forms;
ghost use Rattle.data_frames.specs.Downlinks.{downlink_of};
ghost use Rattle.exchanges.specs.Downlinks.{ack_of, down_of, fields_of, fits_at};
ghost use Rattle.exchanges.specs.Downlinks.{has_fitting_item, payload_limit, rx1_rate, text_under};
ghost use Rattle.exchanges.specs.Downlinks.{wants_downlink};
ghost use Rattle.exchanges.specs.Frames.{HasFields};

use contexts::{Context, Item, first_item};
use data_frames::{DataUp, Down, write_down};
use entries::Downlink;
use std::alloc::Global;
use wire_ids::{Memory, Radio, SessionKeys, Text};

// ---- which downlink

// The data rate of the first receive window behind an uplink at this one (EU868).
fn rx1_rate(radio: &Radio, rate: u8) -> u8
    ensures { result ≡ rx1_rate radio.now rate }
{
    let rx1_dr_offset = radio.dl / 16 % 8;
    rate.saturating_sub(rx1_dr_offset)
}

// The most bytes of FRMPayload at a data rate, without FOpts (EU868).
fn payload_limit(rate: u8) -> usize
    ensures { result ≡ payload_limit rate }
{
    match rate {
        0..=2 => 51,
        3 => 115,
        _ => 242,
    }
}

fn fits_at(rate: u8, item: &Item) -> bool
    ensures { result ≡ fits_at rate item.now }
{
    item.payload.len() <= payload_limit(rate)
}

// Whether the item that waits longest fits the first window behind an uplink at this rate.
fn has_fitting_item(context: &Context, rate: u8) -> bool
    ensures { result ≡ has_fitting_item context.now rate }
{
    match first_item(context) {
        Some(item) => fits_at(rx1_rate(&context.radio, rate), item),
        None => false,
    }
}

// Whether the device waits for a downlink.
fn wants_downlink(up: &DataUp<'_>) -> bool
    requires { HasFields up.now.whole.now (data_forms.fields_of up.now) }
    ensures { result ≡ wants_downlink up.now.whole.now }
{
    up.confirmed || up.adr_ack_req
}

/// Which downlink answers an uplink that was heard over this context at this rate.
#[tactic(auto, unfolding(crate::specs::Downlinks::down_of))]
pub fn down_of(context: &Context, up: &DataUp<'_>, rate: u8) -> Downlink
    requires { HasFields up.now.whole.now (data_forms.fields_of up.now) }
    ensures { result ≡ down_of context.now up.now.whole.now rate }
{
    if has_fitting_item(context, rate) {
        return Downlink::FirstItem;
    }
    if wants_downlink(up) && context.next_n < 1 << 32 {
        return Downlink::Empty;
    }
    Downlink::Nothing
}

// ---- its frame

// A confirmed uplink is acknowledged, by its full counter.
fn ack_of(up: &DataUp<'_>, count: u32) -> Option<u32>
    requires { HasFields up.now.whole.now (data_forms.fields_of up.now) }
    ensures { result ≡ ack_of up.now.whole.now count }
{
    if up.confirmed { Some(count) } else { None }
}

// The fields of a downlink that answers with this ACK; none where there is no downlink.
#[tactic(auto, using(crate::proofs::Downlinks::waits_behind, crate::proofs::Downlinks::waits_yet))]
fn fields_of(context: &Context, ack: Option<u32>, down: Downlink) -> Option<Down<'_>>
    ensures fields { option_map downlink_of result ≡ fields_of context.now ack down }
    ensures bare { IfSome result (λ d. d.port ≡ None → d.payload.now ≡ []) }
    ensures size { IfSome result (λ d. length d.payload.now ≤ 242) }
{
    match down {
        Downlink::Empty if context.next_n < 1 << 32 => Some(Down {
            addr: context.addr,
            confirmed: false,
            ack,
            pending: !context.queue.is_empty(),
            count: context.next_n as u32,
            port: None,
            payload: &[],
        }),
        Downlink::FirstItem => match first_item(context) {
            None => None,
            Some(item) => Some(Down {
                addr: context.addr,
                confirmed: item.confirmed,
                ack,
                pending: context.queue.len() > 1,
                count: item.number,
                port: Some(item.port),
                payload: item.payload.as_slice(),
            }),
        },
        _ => None,
    }
}

/// The frame of this downlink, which answers an uplink of this counter, under the session's keys;
/// none where there is no downlink. The one error is want of memory.
pub fn downlink_behind(
    alloc: Global,
    keys: &SessionKeys,
    context: &Context,
    up: &DataUp<'_>,
    count: u32,
    down: Downlink,
) -> Result<Option<Text>, Memory>
    requires { HasFields up.now.whole.now (data_forms.fields_of up.now) }
    ensures { IfOk result (λ frame. frame ≡ text_under (Some keys.now)
        (fields_of context.now (ack_of up.now.whole.now count) down)) }
{
    match fields_of(context, ack_of(up, count), down) {
        None => Ok(None),
        Some(fields) => {
            let frame = write_down(keys, &fields);
            Ok(Some(Text::of_slice(alloc, frame.as_slice())?))
        }
    }
}
