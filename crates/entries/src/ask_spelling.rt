#![tactic(auto, // A record is spelled field by field.
unfolding(wire_ids::specs::Forms::named, wire_ids::specs::Forms::both), // one after another
using(std::proofs::Common::append_assoc))]

ghost use Rattle.std.specs.Prelude.{◌≡◌, ◌++◌, OnOk};
ghost use Rattle.wire_ids.specs.Forms.{optional, u64};
ghost use Rattle.entries.specs.Names.{eui, dev_addr, radio};
ghost use Rattle.entries.specs.Asks.{ask_kind, rejoin_count, target, new_ask, new_visitor};
ghost use Rattle.entries.specs.Asks.{held_session, held_count, effect, ask_outcome};
ghost use Rattle.entries.specs.Reads.{Reads};

use crate::name_spelling::{
    dev_addr_at, eui_at, moment_at, peer_at, put_dev_addr, put_eui, put_moment, put_peer,
    put_radio, put_sender, put_session_keys, radio_at, sender_at, session_keys_at,
};
use crate::out::{
    put, put_flag, put_net, put_short, put_sixteen, put_u8, put_u16, put_u32, put_u64,
};
use crate::rest::Rest;
use crate::unread::Unread;
use crate::{
    AskKind, AskOutcome, Effect, HeldCount, HeldSession, NewAsk, NewVisitor, RejoinCount, Target,
};
use std::alloc::Global;
use wire_ids::{DevAddr, Eui, Memory, Radio};

#[tactic(auto, unfolding(wire_ids::specs::Forms::optional, wire_ids::specs::Forms::sum))]
fn eui_option_at(rest: &mut Rest) -> Result<Option<Eui>, Unread>
    ensures { Reads result rest.new ((optional eui).read rest.old) }
{
    match rest.u8()? {
        0 => Ok(None),
        1 => Ok(Some(eui_at(rest)?)),
        _ => Err(Unread::NoEntry),
    }
}

#[tactic(auto, unfolding(wire_ids::specs::Forms::optional, wire_ids::specs::Forms::sum))]
fn put_eui_option(out: &mut Vec<u8>, value: &Option<Eui>) -> Result<(), Memory>
    ensures spelled { OnOk result
        (out.new.items ≡ out.old.items ++ (optional eui).spell value.now) }
    ensures fits { OnOk result ((optional eui).Fits value.now) }
{
    match value {
        None => put(out, &[0]),
        Some(value) => {
            put(out, &[1])?;
            put_eui(out, value)
        }
    }
}

#[tactic(auto, unfolding(wire_ids::specs::Forms::optional, wire_ids::specs::Forms::sum))]
fn dev_addr_option_at(rest: &mut Rest) -> Result<Option<DevAddr>, Unread>
    ensures { Reads result rest.new ((optional dev_addr).read rest.old) }
{
    match rest.u8()? {
        0 => Ok(None),
        1 => Ok(Some(dev_addr_at(rest)?)),
        _ => Err(Unread::NoEntry),
    }
}

#[tactic(auto, unfolding(wire_ids::specs::Forms::optional, wire_ids::specs::Forms::sum))]
fn put_dev_addr_option(out: &mut Vec<u8>, value: &Option<DevAddr>) -> Result<(), Memory>
    ensures spelled { OnOk result
        (out.new.items ≡ out.old.items ++ (optional dev_addr).spell value.now) }
    ensures fits { OnOk result ((optional dev_addr).Fits value.now) }
{
    match value {
        None => put(out, &[0]),
        Some(value) => {
            put(out, &[1])?;
            put_dev_addr(out, value)
        }
    }
}

#[tactic(auto, unfolding(wire_ids::specs::Forms::optional, wire_ids::specs::Forms::sum))]
fn radio_option_at(rest: &mut Rest) -> Result<Option<Radio>, Unread>
    ensures { Reads result rest.new ((optional radio).read rest.old) }
{
    match rest.u8()? {
        0 => Ok(None),
        1 => Ok(Some(radio_at(rest)?)),
        _ => Err(Unread::NoEntry),
    }
}

#[tactic(auto, unfolding(wire_ids::specs::Forms::optional, wire_ids::specs::Forms::sum))]
fn put_radio_option(out: &mut Vec<u8>, value: &Option<Radio>) -> Result<(), Memory>
    ensures spelled { OnOk result
        (out.new.items ≡ out.old.items ++ (optional radio).spell value.now) }
    ensures fits { OnOk result ((optional radio).Fits value.now) }
{
    match value {
        None => put(out, &[0]),
        Some(value) => {
            put(out, &[1])?;
            put_radio(out, value)
        }
    }
}

#[tactic(auto, unfolding(wire_ids::specs::Forms::optional, wire_ids::specs::Forms::sum))]
fn rejoin_count_option_at(rest: &mut Rest) -> Result<Option<RejoinCount>, Unread>
    ensures { Reads result rest.new ((optional rejoin_count).read rest.old) }
{
    match rest.u8()? {
        0 => Ok(None),
        1 => Ok(Some(rejoin_count_at(rest)?)),
        _ => Err(Unread::NoEntry),
    }
}

#[tactic(auto, unfolding(wire_ids::specs::Forms::optional, wire_ids::specs::Forms::sum))]
fn put_rejoin_count_option(out: &mut Vec<u8>, value: &Option<RejoinCount>) -> Result<(), Memory>
    ensures spelled { OnOk result
        (out.new.items ≡ out.old.items ++ (optional rejoin_count).spell value.now) }
    ensures fits { OnOk result ((optional rejoin_count).Fits value.now) }
{
    match value {
        None => put(out, &[0]),
        Some(value) => {
            put(out, &[1])?;
            put_rejoin_count(out, value)
        }
    }
}

#[tactic(auto, unfolding(wire_ids::specs::Forms::optional, wire_ids::specs::Forms::sum))]
fn number_option_at(rest: &mut Rest) -> Result<Option<u64>, Unread>
    ensures { Reads result rest.new ((optional u64).read rest.old) }
{
    match rest.u8()? {
        0 => Ok(None),
        1 => Ok(Some(rest.u64()?)),
        _ => Err(Unread::NoEntry),
    }
}

#[tactic(auto, unfolding(wire_ids::specs::Forms::optional, wire_ids::specs::Forms::sum))]
fn put_number_option(out: &mut Vec<u8>, value: &Option<u64>) -> Result<(), Memory>
    ensures spelled { OnOk result
        (out.new.items ≡ out.old.items ++ (optional u64).spell value.now) }
    ensures fits { OnOk result ((optional u64).Fits value.now) }
{
    match value {
        None => put(out, &[0]),
        Some(value) => {
            put(out, &[1])?;
            put_u64(out, *value)
        }
    }
}

#[tactic(auto, unfolding(crate::specs::Asks::ask_kind, wire_ids::specs::Forms::sum))]
pub(crate) fn ask_kind_at(rest: &mut Rest) -> Result<AskKind, Unread>
    ensures { Reads result rest.new (ask_kind.read rest.old) }
{
    match rest.u8()? {
        0 => Ok(AskKind::HomeNS),
        1 => Ok(AskKind::HRStart),
        2 => Ok(AskKind::PRStart),
        3 => Ok(AskKind::XmitData),
        _ => Err(Unread::NoEntry),
    }
}

#[tactic(auto, unfolding(crate::specs::Asks::ask_kind, wire_ids::specs::Forms::sum))]
pub(crate) fn put_ask_kind(out: &mut Vec<u8>, value: &AskKind) -> Result<(), Memory>
    ensures spelled { OnOk result (out.new.items ≡ out.old.items ++ ask_kind.spell value.now) }
    ensures fits { OnOk result (ask_kind.Fits value.now) }
{
    let byte = match value {
        AskKind::HomeNS => 0,
        AskKind::HRStart => 1,
        AskKind::PRStart => 2,
        AskKind::XmitData => 3,
    };
    put(out, &[byte])
}

pub(crate) fn rejoin_count_at(rest: &mut Rest) -> Result<RejoinCount, Unread>
    ensures { Reads result rest.new (rejoin_count.read rest.old) }
{
    let count = rest.u16()?;
    let pending = rest.flag()?;
    Ok(RejoinCount { count, pending })
}

pub(crate) fn put_rejoin_count(out: &mut Vec<u8>, value: &RejoinCount) -> Result<(), Memory>
    ensures spelled { OnOk result (out.new.items ≡ out.old.items ++ rejoin_count.spell value.now) }
    ensures fits { OnOk result (rejoin_count.Fits value.now) }
{
    put_u16(out, value.count)?;
    put_flag(out, value.pending)
}

pub(crate) fn target_at(alloc: Global, rest: &mut Rest) -> Result<Target, Unread>
    ensures { Reads result rest.new (target.read rest.old) }
{
    let kind = ask_kind_at(rest)?;
    let peer = peer_at(rest)?;
    let dev_eui = eui_option_at(rest)?;
    let dev_addr = dev_addr_option_at(rest)?;
    let radio = radio_option_at(rest)?;
    let rejoin = rejoin_count_option_at(rest)?;
    let frame = rest.short(alloc)?;
    let rate = rest.u8()?;
    Ok(Target {
        kind,
        peer,
        dev_eui,
        dev_addr,
        radio,
        rejoin,
        frame,
        rate,
    })
}

pub(crate) fn put_target(out: &mut Vec<u8>, value: &Target) -> Result<(), Memory>
    ensures spelled { OnOk result (out.new.items ≡ out.old.items ++ target.spell value.now) }
    ensures fits { OnOk result (target.Fits value.now) }
{
    put_ask_kind(out, &value.kind)?;
    put_peer(out, &value.peer)?;
    put_eui_option(out, &value.dev_eui)?;
    put_dev_addr_option(out, &value.dev_addr)?;
    put_radio_option(out, &value.radio)?;
    put_rejoin_count_option(out, &value.rejoin)?;
    put_short(out, &value.frame)?;
    put_u8(out, value.rate)
}

pub(crate) fn new_ask_at(alloc: Global, rest: &mut Rest) -> Result<NewAsk, Unread>
    ensures { Reads result rest.new (new_ask.read rest.old) }
{
    let closes = number_option_at(rest)?;
    let sender = sender_at(rest)?;
    let body = rest.short(alloc)?;
    let target = target_at(alloc, rest)?;
    let ends = moment_at(rest)?;
    Ok(NewAsk {
        closes,
        sender,
        body,
        target,
        ends,
    })
}

pub(crate) fn put_new_ask(out: &mut Vec<u8>, value: &NewAsk) -> Result<(), Memory>
    ensures spelled { OnOk result (out.new.items ≡ out.old.items ++ new_ask.spell value.now) }
    ensures fits { OnOk result (new_ask.Fits value.now) }
{
    put_number_option(out, &value.closes)?;
    put_sender(out, &value.sender)?;
    put_short(out, &value.body)?;
    put_target(out, &value.target)?;
    put_moment(out, &value.ends)
}

pub(crate) fn new_visitor_at(rest: &mut Rest) -> Result<NewVisitor, Unread>
    ensures { Reads result rest.new (new_visitor.read rest.old) }
{
    let dev_eui = eui_at(rest)?;
    let home = rest.net()?;
    let dev_addr = dev_addr_at(rest)?;
    let radio = radio_at(rest)?;
    let keys = session_keys_at(rest)?;
    let until = moment_at(rest)?;
    Ok(NewVisitor {
        dev_eui,
        home,
        dev_addr,
        radio,
        keys,
        until,
    })
}

pub(crate) fn put_new_visitor(out: &mut Vec<u8>, value: &NewVisitor) -> Result<(), Memory>
    ensures spelled { OnOk result (out.new.items ≡ out.old.items ++ new_visitor.spell value.now) }
    ensures fits { OnOk result (new_visitor.Fits value.now) }
{
    put_eui(out, &value.dev_eui)?;
    put_net(out, value.home)?;
    put_dev_addr(out, &value.dev_addr)?;
    put_radio(out, &value.radio)?;
    put_session_keys(out, &value.keys)?;
    put_moment(out, &value.until)
}

pub(crate) fn held_session_at(rest: &mut Rest) -> Result<HeldSession, Unread>
    ensures { Reads result rest.new (held_session.read rest.old) }
{
    let net = rest.net()?;
    let dev_addr = dev_addr_at(rest)?;
    let dev_eui = eui_at(rest)?;
    let f = rest.sixteen()?;
    let count = rest.u32()?;
    let until = moment_at(rest)?;
    Ok(HeldSession {
        net,
        dev_addr,
        dev_eui,
        f,
        count,
        until,
    })
}

pub(crate) fn put_held_session(out: &mut Vec<u8>, value: &HeldSession) -> Result<(), Memory>
    ensures spelled { OnOk result (out.new.items ≡ out.old.items ++ held_session.spell value.now) }
    ensures fits { OnOk result (held_session.Fits value.now) }
{
    put_net(out, value.net)?;
    put_dev_addr(out, &value.dev_addr)?;
    put_eui(out, &value.dev_eui)?;
    put_sixteen(out, &value.f)?;
    put_u32(out, value.count)?;
    put_moment(out, &value.until)
}

pub(crate) fn held_count_at(rest: &mut Rest) -> Result<HeldCount, Unread>
    ensures { Reads result rest.new (held_count.read rest.old) }
{
    let net = rest.net()?;
    let dev_addr = dev_addr_at(rest)?;
    let count = rest.u32()?;
    Ok(HeldCount {
        net,
        dev_addr,
        count,
    })
}

pub(crate) fn put_held_count(out: &mut Vec<u8>, value: &HeldCount) -> Result<(), Memory>
    ensures spelled { OnOk result (out.new.items ≡ out.old.items ++ held_count.spell value.now) }
    ensures fits { OnOk result (held_count.Fits value.now) }
{
    put_net(out, value.net)?;
    put_dev_addr(out, &value.dev_addr)?;
    put_u32(out, value.count)
}

#[tactic(auto, unfolding(crate::specs::Asks::effect, wire_ids::specs::Forms::sum))]
pub(crate) fn effect_at(rest: &mut Rest) -> Result<Effect, Unread>
    ensures { Reads result rest.new (effect.read rest.old) }
{
    match rest.u8()? {
        0 => Ok(Effect::Nothing),
        1 => Ok(Effect::Visitor(new_visitor_at(rest)?)),
        2 => Ok(Effect::Held(held_session_at(rest)?)),
        3 => Ok(Effect::Counter(held_count_at(rest)?)),
        _ => Err(Unread::NoEntry),
    }
}

#[tactic(auto, unfolding(crate::specs::Asks::effect, wire_ids::specs::Forms::sum))]
pub(crate) fn put_effect(out: &mut Vec<u8>, value: &Effect) -> Result<(), Memory>
    ensures spelled { OnOk result (out.new.items ≡ out.old.items ++ effect.spell value.now) }
    ensures fits { OnOk result (effect.Fits value.now) }
{
    match value {
        Effect::Nothing => put(out, &[0]),
        Effect::Visitor(visitor) => {
            put(out, &[1])?;
            put_new_visitor(out, visitor)
        }
        Effect::Held(session) => {
            put(out, &[2])?;
            put_held_session(out, session)
        }
        Effect::Counter(count) => {
            put(out, &[3])?;
            put_held_count(out, count)
        }
    }
}

pub(crate) fn ask_outcome_at(alloc: Global, rest: &mut Rest) -> Result<AskOutcome, Unread>
    ensures { Reads result rest.new (ask_outcome.read rest.old) }
{
    let ask = rest.u64()?;
    let kept = rest.flag()?;
    let answer = rest.short(alloc)?;
    let effect = effect_at(rest)?;
    Ok(AskOutcome {
        ask,
        kept,
        answer,
        effect,
    })
}

pub(crate) fn put_ask_outcome(out: &mut Vec<u8>, value: &AskOutcome) -> Result<(), Memory>
    ensures spelled { OnOk result (out.new.items ≡ out.old.items ++ ask_outcome.spell value.now) }
    ensures fits { OnOk result (ask_outcome.Fits value.now) }
{
    put_u64(out, value.ask)?;
    put_flag(out, value.kept)?;
    put_short(out, &value.answer)?;
    put_effect(out, &value.effect)
}
