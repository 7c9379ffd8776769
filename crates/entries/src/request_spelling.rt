#![tactic(auto, // A record is spelled field by field.
unfolding(wire_ids::specs::Forms::named, wire_ids::specs::Forms::both), // one after another
using(std::proofs::Common::append_assoc))]

ghost use Rattle.std.specs.Prelude.{◌≡◌, ◌++◌, OnOk};
ghost use Rattle.entries.specs.Entries.{lending, request};
ghost use Rattle.entries.specs.Reads.{Reads};

use crate::change_spelling::{put_used_seed_option, used_seed_option_at};
use crate::name_spelling::{moment_at, put_moment, put_sender, sender_at};
use crate::out::{put_join_nonce, put_net, put_short, put_u16, put_u32};
use crate::rest::Rest;
use crate::unread::Unread;
use crate::{Lending, Request};
use std::alloc::Global;
use wire_ids::Memory;

pub(crate) fn request_at(alloc: Global, rest: &mut Rest) -> Result<Request, Unread>
    ensures { Reads result rest.new (request.read rest.old) }
{
    let sender = sender_at(rest)?;
    let body = rest.short(alloc)?;
    let answer = rest.short(alloc)?;
    Ok(Request {
        sender,
        body,
        answer,
    })
}

pub(crate) fn put_request(out: &mut Vec<u8>, value: &Request) -> Result<(), Memory>
    ensures spelled { OnOk result (out.new.items ≡ out.old.items ++ request.spell value.now) }
    ensures fits { OnOk result (request.Fits value.now) }
{
    put_sender(out, &value.sender)?;
    put_short(out, &value.body)?;
    put_short(out, &value.answer)
}

pub(crate) fn lending_at(alloc: Global, rest: &mut Rest) -> Result<(Request, Lending), Unread>
    ensures { Reads result rest.new (lending.read rest.old) }
{
    let used = used_seed_option_at(rest)?;
    let request = request_at(alloc, rest)?;
    let device = rest.u32()?;
    let counter = rest.u16()?;
    let join_nonce = rest.join_nonce()?;
    let net = rest.net()?;
    let until = moment_at(rest)?;
    Ok((
        request,
        Lending {
            used,
            device,
            counter,
            join_nonce,
            net,
            until,
        },
    ))
}

pub(crate) fn put_lending(
    out: &mut Vec<u8>,
    request: &Request,
    value: &Lending,
) -> Result<(), Memory>
    ensures spelled { OnOk result
        (out.new.items ≡ out.old.items ++ lending.spell (request.now, value.now)) }
    ensures fits { OnOk result (lending.Fits (request.now, value.now)) }
{
    put_used_seed_option(out, &value.used)?;
    put_request(out, request)?;
    put_u32(out, value.device)?;
    put_u16(out, value.counter)?;
    put_join_nonce(out, value.join_nonce)?;
    put_net(out, value.net)?;
    put_moment(out, &value.until)
}
