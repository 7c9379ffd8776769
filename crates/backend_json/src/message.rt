ghost use Rattle.std.specs.Prelude.{◌≡◌, IfOk, option_map};
ghost use Rattle.backend_json.specs.Seen.{seen};
ghost use Rattle.backend_json.specs.Messages.{GivesBad, json_of, message_of, with_head};

use crate::body::{is_object, json_value};
use crate::head::read_head;
use crate::member::Gap;
use crate::request::read_request;
use crate::{Head, Request};
use json::{Scratch, Value};
use std::alloc::Global;
use wire_ids::{Memory, Text};

/// A readable message.
#[derive(Drop)]
pub struct Message {
    pub head: Head,
    /// What it asks, of the head's type.
    pub request: Request,
}

/// Why a body is no readable message: the first cause in the order `TooLong`, `NotJson`, `Member`,
/// `Version`.
#[derive(Drop)]
pub enum Bad {
    /// It is no JSON text, or no object.
    NotJson,
    /// This member is the first that is missing or ill-formed. There is no head exactly where it is
    /// one of the head's.
    Member { name: Text, head: Option<Head> },
    /// ProtocolVersion is neither 1.0 nor 1.1.
    Version { head: Head },
    /// It has more than 8,192 bytes.
    TooLong,
}

// What is to be said of a gap in a message with this head.
fn bad_member(alloc: Global, gap: Gap, head: Option<Head>) -> Result<Bad, Memory>
    ensures { GivesBad result gap head }
{
    match gap {
        Gap::Member(key) => {
            let name = Text::of_slice(alloc, key.path().as_bytes())?;
            Ok(Bad::Member { name, head })
        }
        Gap::Memory => Err(Memory),
    }
}

// The message of a value whose head was read.
#[tactic(auto, unfolding(crate::specs::Messages::with_head))]
fn read_rest(alloc: Global, head: Head, value: &Value<'_>) -> Result<Result<Message, Bad>, Memory>
    ensures { IfOk result (λ found. found ≡ with_head head (seen value.now)) }
{
    let request = match read_request(alloc, head.message_type, value) {
        Ok(request) => request,
        Err(gap) => return Ok(Err(bad_member(alloc, gap, Some(head))?)),
    };
    let version = head.protocol_version.as_slice();
    if version != b"1.0".as_slice() && version != b"1.1".as_slice() {
        return Ok(Err(Bad::Version { head }));
    }
    Ok(Ok(Message { head, request }))
}

/// The message that a body of at most 8,192 bytes is, or why it is none (TS002, Messages and
/// Payloads).
///
/// Hexadecimal texts may begin with 0x or 0X and have digits of both cases. A whole number has
/// neither fraction nor exponent. Of a name that stands twice the last member counts. A member may
/// be missing only where it is optional, and is ill-formed where it is null.
#[tactic(auto, unfolding(crate::specs::Messages::message_of))]
pub fn read_message(alloc: Global, body: &[u8]) -> Result<Result<Message, Bad>, Memory>
    ensures { IfOk result (λ found. found ≡ message_of body.now) }
{
    if body.len() > 8192 {
        return Ok(Err(Bad::TooLong));
    }
    let mut scratch = Scratch::new(alloc);
    let Some(value) = json_value(alloc, body, &mut scratch)? else {
        return Ok(Err(Bad::NotJson));
    };
    if !is_object(&value) {
        return Ok(Err(Bad::NotJson));
    }
    match read_head(alloc, &value) {
        Ok(head) => read_rest(alloc, head, &value),
        Err(gap) => Ok(Err(bad_member(alloc, gap, None)?)),
    }
}
