//! Data uplinks of live contexts, which a gateway heard.

ghost use Rattle.std.specs.Prelude.{◌≡◌, ℕ, List, length, IfOk, Some, false};
ghost use Rattle.data_frames.specs.DataForms.{fields_of};
ghost use Rattle.entry_codec.specs.Machine.{lapse};
ghost use Rattle.js_core.specs.Frames.{wrong_size};
ghost use Rattle.js_core.specs.Replies.{refuses};
ghost use Rattle.js_core.specs.Rules.{by_rules};
ghost use Rattle.key_vault.specs.Table.{nwk_at};
ghost use Rattle.exchanges.specs.Downlinks.{down_of};
ghost use Rattle.exchanges.specs.Frames.{HasFields};
ghost use Rattle.ns_core.specs.Heard.{Data};
ghost use Rattle.ns_core.specs.Replies.{counted_with, duplicate_with, heard_answer, success_at};
ghost use Rattle.ns_core.specs.Replies.{up_of};
ghost use Rattle.ns_core.specs.Rules.{uplink_rules_at};
ghost use Rattle.ns_core.specs.Speakers.{keys_of, speaker_now, speaker_of};

use crate::reply::refusal_decision;
use crate::session::session_of;
use crate::speaker::{Speaking, Valid, is_duplicate, speaker, valid_of};
use crate::text::short_copy;
use agreements::Tables;
use backend_json::{Answer, Head, Outcome, Refusal, UplinkAnswer, UplinkRequest};
use data_frames::DataUp;
use entries::{Change, Downlink, Uplink};
use entry_codec::State;
use exchanges::{Count, down_of, downlink_behind};
use js_core::JsDecision;
use key_vault::{BlockFn, Vault};
use std::alloc::Global;
use wire_ids::{Decision, Memory, Moment, Text};

// Whoever sent the frame is told the device and the full counter, and is given the downlink.
fn heard_answer(
    head: Head,
    speaker: &Speaking<'_>,
    count: Option<u32>,
    down: Option<Text>,
) -> Answer<'static>
    ensures { result ≡ heard_answer head (speaker_now speaker.now) count down }
{
    let dev_eui = speaker.dev_eui;
    let session_key_id = session_of(dev_eui, &speaker.context.origin);
    Answer::Headed {
        head,
        outcome: Outcome::UplinkAns(UplinkAnswer {
            dev_eui,
            f_cnt_up: count,
            phy_payload: down,
            session_key_id,
        }),
    }
}

// The uplink is the last one of its context, with which downlink answers it.
fn up_of(
    alloc: Global,
    speaker: &Speaking<'_>,
    request: &UplinkRequest,
    count: &Count,
    down: Downlink,
) -> Result<Change, Memory>
    requires { down
        ≡ down_of speaker.now.context.now request.now.phy_payload request.now.data_rate }
    ensures { IfOk result (λ up. up ≡ up_of (speaker_now speaker.now) request.now count.now) }
{
    let frame = short_copy(alloc, request.phy_payload.as_slice())?;
    Ok(Change::Up(Uplink {
        dev_eui: speaker.dev_eui,
        pending: speaker.pending,
        count: count.count,
        frame,
        channel: count.channel,
        down,
    }))
}

// A duplicate gets the same counter, and changes nothing.
fn duplicate_decision<'a>(head: Head, speaker: &Speaking<'_>) -> Result<JsDecision<'a>, Memory>
    ensures { IfOk result (λ d. d ≡ duplicate_with head (speaker_now speaker.now)) }
{
    let answer = heard_answer(head, speaker, speaker.context.last, None);
    Ok(Decision::Reply(answer))
}

// What a valid uplink comes to: its counter is told, and the downlink is sent that answers it.
#[tactic(auto, unfolding(crate::specs::Replies::down_behind))]
fn counted_with<'a>(
    alloc: Global,
    head: Head,
    request: &UplinkRequest,
    up: &DataUp<'_>,
    speaker: &Speaking<'_>,
    valid: &Valid,
    down: Downlink,
) -> Result<JsDecision<'a>, Memory>
    requires fields { HasFields request.now.phy_payload (fields_of up.now) }
    requires whole { up.now.whole.now ≡ request.now.phy_payload }
    requires down { down
        ≡ down_of speaker.now.context.now request.now.phy_payload request.now.data_rate }
    ensures { (nwk : ℕ → List ℕ) → keys_of nwk speaker.now.holder speaker.now.context.now.origin
        ≡ Some valid.now.keys → IfOk result (λ d. d ≡ counted_with nwk head request.now
        (speaker_now speaker.now) (Some valid.now.count)) }
{
    let Valid { keys, count } = valid;
    let frame = downlink_behind(alloc, keys, speaker.context, up, count.count, down)?;
    let change = up_of(alloc, speaker, request, count, down)?;
    let answer = heard_answer(head, speaker, Some(count.count), frame);
    Ok(Decision::Accept(answer, change))
}

/// What a data uplink comes to whose size is one of its type.
pub(crate) fn data_decision<'a, E: BlockFn, D: BlockFn>(
    alloc: Global,
    tables: &Tables,
    vault: &Vault<E, D>,
    state: &State,
    head: Head,
    request: &UplinkRequest,
    up: &DataUp<'_>,
    now: Moment,
) -> Result<JsDecision<'a>, Memory>
    requires keys { length vault.now ≡ length tables.now.devices }
    requires fields { HasFields request.now.phy_payload (fields_of up.now) }
    requires whole { up.now.whole.now ≡ request.now.phy_payload }
    requires sized { wrong_size request.now.phy_payload ≡ false }
    ensures { IfOk result (λ d. let c = tables.now in let nwk = nwk_at vault.now in
        let m = lapse now.0 state.now.now in let heard = Data (speaker_of c m up.now.addr) in
        d ≡ by_rules (refuses head) (uplink_rules_at c nwk m request.now heard)
        (success_at c nwk m head request.now heard)) }
{
    let Some(speaker) = speaker(tables, state, up.addr, now) else {
        return refusal_decision(head, Refusal::Address);
    };
    // It reads what lies apart from the rest of the context, beside what the next line reads.
    let down = down_of(speaker.context, up, request.data_rate);
    if is_duplicate(request.phy_payload.as_slice(), &speaker) {
        return duplicate_decision(head, &speaker);
    }
    match valid_of(vault, up, request.data_rate, &speaker) {
        Some(valid) => counted_with(alloc, head, request, up, &speaker, &valid, down),
        None => refusal_decision(head, Refusal::Mic),
    }
}
