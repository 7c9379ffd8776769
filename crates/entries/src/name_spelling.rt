#![tactic(auto, // A record is spelled field by field.
unfolding(wire_ids::specs::Forms::named, wire_ids::specs::Forms::both), // one after another
using(std::proofs::Common::append_assoc))]

ghost use Rattle.std.specs.Prelude.{◌≡◌, ◌++◌, OnOk};
ghost use Rattle.wire_ids.specs.Forms.{exactly, optional};
ghost use Rattle.entries.specs.Names.{eui, dev_addr, moment, radio, session_keys, sender, peer};
ghost use Rattle.entries.specs.Reads.{Reads};

use crate::out::{put, put_net, put_sixteen, put_u8, put_u32, put_u64};
use crate::rest::Rest;
use crate::unread::Unread;
use wire_ids::{DevAddr, Eui, Memory, Moment, PeerId, Radio, Sender, SessionKeys};

#[tactic(auto, unfolding(wire_ids::specs::Forms::optional, wire_ids::specs::Forms::sum))]
fn cf_list_option_at(rest: &mut Rest) -> Result<Option<[u8; 16]>, Unread>
    ensures { Reads result rest.new ((optional (exactly 16)).read rest.old) }
{
    match rest.u8()? {
        0 => Ok(None),
        1 => Ok(Some(rest.sixteen()?)),
        _ => Err(Unread::NoEntry),
    }
}

#[tactic(auto, unfolding(wire_ids::specs::Forms::optional, wire_ids::specs::Forms::sum))]
fn put_cf_list_option(out: &mut Vec<u8>, value: &Option<[u8; 16]>) -> Result<(), Memory>
    ensures spelled { OnOk result
        (out.new.items ≡ out.old.items ++ (optional (exactly 16)).spell value.now) }
    ensures fits { OnOk result ((optional (exactly 16)).Fits value.now) }
{
    match value {
        None => put(out, &[0]),
        Some(value) => {
            put(out, &[1])?;
            put_sixteen(out, value)
        }
    }
}

pub(crate) fn eui_at(rest: &mut Rest) -> Result<Eui, Unread>
    ensures { Reads result rest.new (eui.read rest.old) }
{
    Ok(Eui(rest.u64()?))
}

pub(crate) fn put_eui(out: &mut Vec<u8>, value: &Eui) -> Result<(), Memory>
    ensures spelled { OnOk result (out.new.items ≡ out.old.items ++ eui.spell value.now) }
    ensures fits { OnOk result (eui.Fits value.now) }
{
    put_u64(out, value.0)
}

pub(crate) fn dev_addr_at(rest: &mut Rest) -> Result<DevAddr, Unread>
    ensures { Reads result rest.new (dev_addr.read rest.old) }
{
    Ok(DevAddr(rest.u32()?))
}

pub(crate) fn put_dev_addr(out: &mut Vec<u8>, value: &DevAddr) -> Result<(), Memory>
    ensures spelled { OnOk result (out.new.items ≡ out.old.items ++ dev_addr.spell value.now) }
    ensures fits { OnOk result (dev_addr.Fits value.now) }
{
    put_u32(out, value.0)
}

pub(crate) fn moment_at(rest: &mut Rest) -> Result<Moment, Unread>
    ensures { Reads result rest.new (moment.read rest.old) }
{
    Ok(Moment(rest.u64()?))
}

pub(crate) fn put_moment(out: &mut Vec<u8>, value: &Moment) -> Result<(), Memory>
    ensures spelled { OnOk result (out.new.items ≡ out.old.items ++ moment.spell value.now) }
    ensures fits { OnOk result (moment.Fits value.now) }
{
    put_u64(out, value.0)
}

pub(crate) fn radio_at(rest: &mut Rest) -> Result<Radio, Unread>
    ensures { Reads result rest.new (radio.read rest.old) }
{
    let dl = rest.u8()?;
    let rx_delay = rest.u8()?;
    let cf = cf_list_option_at(rest)?;
    Ok(Radio { dl, rx_delay, cf })
}

pub(crate) fn put_radio(out: &mut Vec<u8>, value: &Radio) -> Result<(), Memory>
    ensures spelled { OnOk result (out.new.items ≡ out.old.items ++ radio.spell value.now) }
    ensures fits { OnOk result (radio.Fits value.now) }
{
    put_u8(out, value.dl)?;
    put_u8(out, value.rx_delay)?;
    put_cf_list_option(out, &value.cf)
}

pub(crate) fn session_keys_at(rest: &mut Rest) -> Result<SessionKeys, Unread>
    ensures { Reads result rest.new (session_keys.read rest.old) }
{
    let f = rest.sixteen()?;
    let s = rest.sixteen()?;
    let e = rest.sixteen()?;
    Ok(SessionKeys { f, s, e })
}

pub(crate) fn put_session_keys(out: &mut Vec<u8>, value: &SessionKeys) -> Result<(), Memory>
    ensures spelled { OnOk result (out.new.items ≡ out.old.items ++ session_keys.spell value.now) }
    ensures fits { OnOk result (session_keys.Fits value.now) }
{
    put_sixteen(out, &value.f)?;
    put_sixteen(out, &value.s)?;
    put_sixteen(out, &value.e)
}

#[tactic(auto, unfolding(crate::specs::Names::sender, wire_ids::specs::Forms::sum))]
pub(crate) fn sender_at(rest: &mut Rest) -> Result<Sender, Unread>
    ensures { Reads result rest.new (sender.read rest.old) }
{
    match rest.u8()? {
        0 => Ok(Sender::Network(rest.net()?)),
        1 => Ok(Sender::Party(eui_at(rest)?)),
        _ => Err(Unread::NoEntry),
    }
}

#[tactic(auto, unfolding(crate::specs::Names::sender, wire_ids::specs::Forms::sum))]
pub(crate) fn put_sender(out: &mut Vec<u8>, value: &Sender) -> Result<(), Memory>
    ensures spelled { OnOk result (out.new.items ≡ out.old.items ++ sender.spell value.now) }
    ensures fits { OnOk result (sender.Fits value.now) }
{
    match value {
        Sender::Network(net) => {
            put(out, &[0])?;
            put_net(out, *net)
        }
        Sender::Party(party) => {
            put(out, &[1])?;
            put_eui(out, party)
        }
    }
}

#[tactic(auto, unfolding(crate::specs::Names::peer, wire_ids::specs::Forms::sum))]
pub(crate) fn peer_at(rest: &mut Rest) -> Result<PeerId, Unread>
    ensures { Reads result rest.new (peer.read rest.old) }
{
    match rest.u8()? {
        0 => Ok(PeerId::Network(rest.net()?)),
        1 => Ok(PeerId::JoinServer(eui_at(rest)?)),
        _ => Err(Unread::NoEntry),
    }
}

#[tactic(auto, unfolding(crate::specs::Names::peer, wire_ids::specs::Forms::sum))]
pub(crate) fn put_peer(out: &mut Vec<u8>, value: &PeerId) -> Result<(), Memory>
    ensures spelled { OnOk result (out.new.items ≡ out.old.items ++ peer.spell value.now) }
    ensures fits { OnOk result (peer.Fits value.now) }
{
    match value {
        PeerId::Network(net) => {
            put(out, &[0])?;
            put_net(out, *net)
        }
        PeerId::JoinServer(server) => {
            put(out, &[1])?;
            put_eui(out, server)
        }
    }
}
