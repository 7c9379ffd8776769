#![tactic(auto, // A record is spelled field by field.
unfolding(wire_ids::specs::Forms::named, wire_ids::specs::Forms::both), // one after another
using(std::proofs::Common::append_assoc))]

ghost use Rattle.std.specs.Prelude.{◌≡◌, ◌++◌, OnOk};
ghost use Rattle.wire_ids.specs.Forms.{below, mark, optional};
ghost use Rattle.entries.specs.Changes.{used_seed, own_context, joined, rejoined, downlink};
ghost use Rattle.entries.specs.Changes.{uplink, passive_uplink, queued, roaming_kind, stopped};
ghost use Rattle.entries.specs.Reads.{Reads};

use crate::name_spelling::{
    dev_addr_at, eui_at, moment_at, put_dev_addr, put_eui, put_moment, put_radio, radio_at,
};
use crate::out::{put, put_flag, put_join_nonce, put_net, put_short, put_u8, put_u16, put_u32};
use crate::rest::Rest;
use crate::unread::Unread;
use crate::{
    Downlink, Joined, OwnContext, PassiveUplink, Queued, Rejoined, RoamingKind, SeedPlace, Stopped,
    Uplink, UsedSeed,
};
use std::alloc::Global;
use wire_ids::Memory;

#[tactic(auto, unfolding(wire_ids::specs::Forms::below))]
fn seed_place_at(rest: &mut Rest) -> Result<SeedPlace, Unread>
    ensures { Reads result rest.new ((below 4).read rest.old) }
{
    match SeedPlace::new(rest.u8()?) {
        Some(place) => Ok(place),
        None => Err(Unread::NoEntry),
    }
}

#[tactic(auto, unfolding(wire_ids::specs::Forms::below))]
fn put_seed_place(out: &mut Vec<u8>, value: SeedPlace) -> Result<(), Memory>
    ensures spelled { OnOk result (out.new.items ≡ out.old.items ++ (below 4).spell value) }
    ensures fits { OnOk result ((below 4).Fits value) }
{
    put(out, &[value.get()])
}

#[tactic(auto, unfolding(wire_ids::specs::Forms::mark))]
fn no_place_at(rest: &mut Rest) -> Result<(), Unread>
    ensures { Reads result rest.new ((mark 255).read rest.old) }
{
    if rest.u8()? == 255 {
        Ok(())
    } else {
        Err(Unread::NoEntry)
    }
}

#[tactic(auto, unfolding(wire_ids::specs::Forms::mark))]
fn put_no_place(out: &mut Vec<u8>) -> Result<(), Memory>
    ensures spelled { OnOk result (out.new.items ≡ out.old.items ++ (mark 255).spell tt) }
    ensures fits { OnOk result ((mark 255).Fits tt) }
{
    put(out, &[255])
}

#[tactic(auto, unfolding(wire_ids::specs::Forms::optional, wire_ids::specs::Forms::sum))]
fn own_context_option_at(rest: &mut Rest) -> Result<Option<OwnContext>, Unread>
    ensures { Reads result rest.new ((optional own_context).read rest.old) }
{
    match rest.u8()? {
        0 => Ok(None),
        1 => Ok(Some(own_context_at(rest)?)),
        _ => Err(Unread::NoEntry),
    }
}

#[tactic(auto, unfolding(wire_ids::specs::Forms::optional, wire_ids::specs::Forms::sum))]
fn put_own_context_option(out: &mut Vec<u8>, value: &Option<OwnContext>) -> Result<(), Memory>
    ensures spelled { OnOk result
        (out.new.items ≡ out.old.items ++ (optional own_context).spell value.now) }
    ensures fits { OnOk result ((optional own_context).Fits value.now) }
{
    match value {
        None => put(out, &[0]),
        Some(value) => {
            put(out, &[1])?;
            put_own_context(out, value)
        }
    }
}

#[tactic(auto, unfolding(wire_ids::specs::Forms::optional, wire_ids::specs::Forms::sum))]
pub(crate) fn used_seed_option_at(rest: &mut Rest) -> Result<Option<UsedSeed>, Unread>
    ensures { Reads result rest.new ((optional used_seed).read rest.old) }
{
    match rest.u8()? {
        0 => Ok(None),
        1 => Ok(Some(used_seed_at(rest)?)),
        _ => Err(Unread::NoEntry),
    }
}

#[tactic(auto, unfolding(wire_ids::specs::Forms::optional, wire_ids::specs::Forms::sum))]
pub(crate) fn put_used_seed_option(
    out: &mut Vec<u8>,
    value: &Option<UsedSeed>,
) -> Result<(), Memory>
    ensures spelled { OnOk result
        (out.new.items ≡ out.old.items ++ (optional used_seed).spell value.now) }
    ensures fits { OnOk result ((optional used_seed).Fits value.now) }
{
    match value {
        None => put(out, &[0]),
        Some(value) => {
            put(out, &[1])?;
            put_used_seed(out, value)
        }
    }
}

#[tactic(auto, unfolding(crate::specs::Changes::used_seed, wire_ids::specs::Forms::sum))]
pub(crate) fn used_seed_at(rest: &mut Rest) -> Result<UsedSeed, Unread>
    ensures { Reads result rest.new (used_seed.read rest.old) }
{
    match rest.u8()? {
        0 => Ok(UsedSeed::Rejoin0(seed_place_at(rest)?)),
        1 => {
            no_place_at(rest)?;
            Ok(UsedSeed::Rejoin1)
        }
        2 => Ok(UsedSeed::Rejoin2(seed_place_at(rest)?)),
        _ => Err(Unread::NoEntry),
    }
}

#[tactic(auto, unfolding(crate::specs::Changes::used_seed, wire_ids::specs::Forms::sum))]
pub(crate) fn put_used_seed(out: &mut Vec<u8>, value: &UsedSeed) -> Result<(), Memory>
    ensures spelled { OnOk result (out.new.items ≡ out.old.items ++ used_seed.spell value.now) }
    ensures fits { OnOk result (used_seed.Fits value.now) }
{
    match value {
        UsedSeed::Rejoin0(place) => {
            put(out, &[0])?;
            put_seed_place(out, *place)
        }
        UsedSeed::Rejoin1 => {
            put(out, &[1])?;
            put_no_place(out)
        }
        UsedSeed::Rejoin2(place) => {
            put(out, &[2])?;
            put_seed_place(out, *place)
        }
    }
}

pub(crate) fn own_context_at(rest: &mut Rest) -> Result<OwnContext, Unread>
    ensures { Reads result rest.new (own_context.read rest.old) }
{
    let dev_addr = dev_addr_at(rest)?;
    let radio = radio_at(rest)?;
    Ok(OwnContext { dev_addr, radio })
}

pub(crate) fn put_own_context(out: &mut Vec<u8>, value: &OwnContext) -> Result<(), Memory>
    ensures spelled { OnOk result (out.new.items ≡ out.old.items ++ own_context.spell value.now) }
    ensures fits { OnOk result (own_context.Fits value.now) }
{
    put_dev_addr(out, &value.dev_addr)?;
    put_radio(out, &value.radio)
}

pub(crate) fn joined_at(rest: &mut Rest) -> Result<Joined, Unread>
    ensures { Reads result rest.new (joined.read rest.old) }
{
    let device = rest.u32()?;
    let counter = rest.u16()?;
    let join_nonce = rest.join_nonce()?;
    let own = own_context_option_at(rest)?;
    Ok(Joined {
        device,
        counter,
        join_nonce,
        own,
    })
}

pub(crate) fn put_joined(out: &mut Vec<u8>, value: &Joined) -> Result<(), Memory>
    ensures spelled { OnOk result (out.new.items ≡ out.old.items ++ joined.spell value.now) }
    ensures fits { OnOk result (joined.Fits value.now) }
{
    put_u32(out, value.device)?;
    put_u16(out, value.counter)?;
    put_join_nonce(out, value.join_nonce)?;
    put_own_context_option(out, &value.own)
}

pub(crate) fn rejoined_at(rest: &mut Rest) -> Result<Rejoined, Unread>
    ensures { Reads result rest.new (rejoined.read rest.old) }
{
    let device = rest.u32()?;
    let used = used_seed_at(rest)?;
    let counter = rest.u16()?;
    let join_nonce = rest.join_nonce()?;
    let own = own_context_option_at(rest)?;
    Ok(Rejoined {
        device,
        used,
        counter,
        join_nonce,
        own,
    })
}

pub(crate) fn put_rejoined(out: &mut Vec<u8>, value: &Rejoined) -> Result<(), Memory>
    ensures spelled { OnOk result (out.new.items ≡ out.old.items ++ rejoined.spell value.now) }
    ensures fits { OnOk result (rejoined.Fits value.now) }
{
    put_u32(out, value.device)?;
    put_used_seed(out, &value.used)?;
    put_u16(out, value.counter)?;
    put_join_nonce(out, value.join_nonce)?;
    put_own_context_option(out, &value.own)
}

#[tactic(auto, unfolding(crate::specs::Changes::downlink, wire_ids::specs::Forms::sum))]
pub(crate) fn downlink_at(rest: &mut Rest) -> Result<Downlink, Unread>
    ensures { Reads result rest.new (downlink.read rest.old) }
{
    match rest.u8()? {
        0 => Ok(Downlink::Nothing),
        1 => Ok(Downlink::Empty),
        2 => Ok(Downlink::FirstItem),
        _ => Err(Unread::NoEntry),
    }
}

#[tactic(auto, unfolding(crate::specs::Changes::downlink, wire_ids::specs::Forms::sum))]
pub(crate) fn put_downlink(out: &mut Vec<u8>, value: &Downlink) -> Result<(), Memory>
    ensures spelled { OnOk result (out.new.items ≡ out.old.items ++ downlink.spell value.now) }
    ensures fits { OnOk result (downlink.Fits value.now) }
{
    let byte = match value {
        Downlink::Nothing => 0,
        Downlink::Empty => 1,
        Downlink::FirstItem => 2,
    };
    put(out, &[byte])
}

pub(crate) fn uplink_at(alloc: Global, rest: &mut Rest) -> Result<Uplink, Unread>
    ensures { Reads result rest.new (uplink.read rest.old) }
{
    let dev_eui = eui_at(rest)?;
    let pending = rest.flag()?;
    let count = rest.u32()?;
    let frame = rest.short(alloc)?;
    let channel = rest.u8()?;
    let down = downlink_at(rest)?;
    Ok(Uplink {
        dev_eui,
        pending,
        count,
        frame,
        channel,
        down,
    })
}

pub(crate) fn put_uplink(out: &mut Vec<u8>, value: &Uplink) -> Result<(), Memory>
    ensures spelled { OnOk result (out.new.items ≡ out.old.items ++ uplink.spell value.now) }
    ensures fits { OnOk result (uplink.Fits value.now) }
{
    put_eui(out, &value.dev_eui)?;
    put_flag(out, value.pending)?;
    put_u32(out, value.count)?;
    put_short(out, &value.frame)?;
    put_u8(out, value.channel)?;
    put_downlink(out, &value.down)
}

pub(crate) fn passive_uplink_at(alloc: Global, rest: &mut Rest) -> Result<PassiveUplink, Unread>
    ensures { Reads result rest.new (passive_uplink.read rest.old) }
{
    let up = uplink_at(alloc, rest)?;
    let net = rest.net()?;
    let until = moment_at(rest)?;
    Ok(PassiveUplink { up, net, until })
}

pub(crate) fn put_passive_uplink(out: &mut Vec<u8>, value: &PassiveUplink) -> Result<(), Memory>
    ensures spelled { OnOk result
        (out.new.items ≡ out.old.items ++ passive_uplink.spell value.now) }
    ensures fits { OnOk result (passive_uplink.Fits value.now) }
{
    put_uplink(out, &value.up)?;
    put_net(out, value.net)?;
    put_moment(out, &value.until)
}

pub(crate) fn queued_at(alloc: Global, rest: &mut Rest) -> Result<Queued, Unread>
    ensures { Reads result rest.new (queued.read rest.old) }
{
    let device = rest.u32()?;
    let number = rest.u32()?;
    let port = rest.u8()?;
    let confirmed = rest.flag()?;
    let payload = rest.short(alloc)?;
    Ok(Queued {
        device,
        number,
        port,
        confirmed,
        payload,
    })
}

pub(crate) fn put_queued(out: &mut Vec<u8>, value: &Queued) -> Result<(), Memory>
    ensures spelled { OnOk result (out.new.items ≡ out.old.items ++ queued.spell value.now) }
    ensures fits { OnOk result (queued.Fits value.now) }
{
    put_u32(out, value.device)?;
    put_u32(out, value.number)?;
    put_u8(out, value.port)?;
    put_flag(out, value.confirmed)?;
    put_short(out, &value.payload)
}

#[tactic(auto, unfolding(crate::specs::Changes::roaming_kind, wire_ids::specs::Forms::sum))]
pub(crate) fn roaming_kind_at(rest: &mut Rest) -> Result<RoamingKind, Unread>
    ensures { Reads result rest.new (roaming_kind.read rest.old) }
{
    match rest.u8()? {
        0 => Ok(RoamingKind::Held),
        1 => Ok(RoamingKind::Lent),
        2 => Ok(RoamingKind::Visitor),
        _ => Err(Unread::NoEntry),
    }
}

#[tactic(auto, unfolding(crate::specs::Changes::roaming_kind, wire_ids::specs::Forms::sum))]
pub(crate) fn put_roaming_kind(out: &mut Vec<u8>, value: &RoamingKind) -> Result<(), Memory>
    ensures spelled { OnOk result (out.new.items ≡ out.old.items ++ roaming_kind.spell value.now) }
    ensures fits { OnOk result (roaming_kind.Fits value.now) }
{
    let byte = match value {
        RoamingKind::Held => 0,
        RoamingKind::Lent => 1,
        RoamingKind::Visitor => 2,
    };
    put(out, &[byte])
}

pub(crate) fn stopped_at(rest: &mut Rest) -> Result<Stopped, Unread>
    ensures { Reads result rest.new (stopped.read rest.old) }
{
    let dev_eui = eui_at(rest)?;
    let what = roaming_kind_at(rest)?;
    Ok(Stopped { dev_eui, what })
}

pub(crate) fn put_stopped(out: &mut Vec<u8>, value: &Stopped) -> Result<(), Memory>
    ensures spelled { OnOk result (out.new.items ≡ out.old.items ++ stopped.spell value.now) }
    ensures fits { OnOk result (stopped.Fits value.now) }
{
    put_eui(out, &value.dev_eui)?;
    put_roaming_kind(out, &value.what)
}
