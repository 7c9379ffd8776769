//! The JSON value of a body. It borrows the body's texts.

ghost use Rattle.std.specs.Prelude.{◌≡◌, is_some, option_and_then, option_map, IfOk};
ghost use Rattle.json.specs.Value.{items_view, members_view, value_view};
ghost use Rattle.serde_json.specs.Find.{as_bool, as_number, as_object, as_str, as_u64, get};
ghost use Rattle.serde_json.specs.Read.{of_json, read};
ghost use Rattle.backend_json.specs.Forms.{texts_now};
ghost use Rattle.backend_json.specs.Messages.{json_of};
ghost use Rattle.backend_json.specs.Seen.{is_ranged, items_ranged, members_ranged, seen};

use crate::number::number;
use json::{Error, Reader, Scratch, Value};
use simdutf8::compat::from_utf8;
use std::alloc::Global;
use wire_ids::Memory;

// Arrays and objects nest no deeper.
const MOST_DEPTH: usize = 127;

// Whether each number in a value has a value: as an integer of 64 bits, or as a float.
#[cycle(ranged)]
fn is_ranged(value: &Value<'_>) -> bool
    ensures { result ≡ is_ranged (value_view value.now) }
{
    match value {
        Value::Number(text) => number(text.as_bytes()).is_some(),
        Value::Array(items) => are_ranged(items),
        Value::Object(members) => members_ranged(members),
        _ => true,
    }
}

#[cycle(ranged)]
fn are_ranged(items: &Vec<Value<'_>>) -> bool
    ensures { result ≡ items_ranged (items_view items.now.items) }
{
    for item in items {
        if !is_ranged(item) {
            return false;
        }
    }
    true
}

#[cycle(ranged)]
fn members_ranged(members: &Vec<(&str, Value<'_>)>) -> bool
    ensures { result ≡ members_ranged (members_view members.now.items) }
{
    for member in members {
        if !is_ranged(&member.1) {
            return false;
        }
    }
    true
}

// ---- a value

// The value, where each number in it has one.
#[tactic(auto, using(crate::proofs::Seen::read_is))]
fn in_range(value: Value<'_>) -> Option<Value<'_>>
    ensures { option_map seen result ≡ of_json (value_view value.entry) }
{
    if is_ranged(&value) { Some(value) } else { None }
}

// The value of a text.
#[tactic(auto, using(crate::proofs::Seen::read_whole, crate::proofs::Seen::read_front))]
fn value_in<'a>(
    alloc: Global,
    text: &'a str,
    scratch: &'a mut Scratch,
) -> Result<Option<Value<'a>>, Memory>
    ensures { IfOk result (λ found. option_map seen found ≡ read text.now) }
{
    let Ok(mut reader) = Reader::new(text, scratch) else {
        return Err(Memory);
    };
    let value = match Value::read(alloc, &mut reader, MOST_DEPTH) {
        Ok(value) => value,
        Err(Error::OutOfMemory) => return Err(Memory),
        Err(_) => return Ok(None),
    };
    match reader.next() {
        Some(_) => Ok(None),
        None => Ok(in_range(value)),
    }
}

/// The value of a body, None where it is no JSON text. The scratch is lent to it, for the texts
/// that have escapes. The one error is want of memory.
pub(crate) fn json_value<'a>(
    alloc: Global,
    body: &'a [u8],
    scratch: &'a mut Scratch,
) -> Result<Option<Value<'a>>, Memory>
    ensures { IfOk result (λ found. option_map seen found ≡ json_of body.now) }
{
    match from_utf8(body) {
        Ok(text) => value_in(alloc, text, scratch),
        Err(_) => Ok(None),
    }
}

/// Whether it is an object.
pub(crate) fn is_object(value: &Value<'_>) -> bool
    ensures { result ≡ is_some (as_object (seen value.now)) }
{
    matches!(value, Value::Object(_))
}

/// The last member of this name, where it is an object that has one.
#[tactic(auto, using(crate::proofs::Seen::get_is))]
pub(crate) fn member_named<'v, 'a>(value: &'v Value<'a>, name: &str) -> Option<&'v Value<'a>>
    ensures { option_map (λ v. seen v.now) result ≡ get name.now (seen value.now) }
{
    value.get(name)
}

/// The text that it is.
#[tactic(auto, using(crate::proofs::Seen::as_str_is))]
pub(crate) fn as_text<'a>(value: &Value<'a>) -> Option<&'a str>
    ensures { texts_now result ≡ as_str (seen value.now) }
{
    value.as_str()
}

/// True or false, where it is one of them.
#[tactic(auto, using(crate::proofs::Seen::as_bool_is))]
pub(crate) fn as_bool(value: &Value<'_>) -> Option<bool>
    ensures { result ≡ as_bool (seen value.now) }
{
    value.as_bool()
}

/// The whole number below 2^64 that it is, written without minus, point and exponent.
#[tactic(auto, using(crate::proofs::Seen::as_number_is))]
pub(crate) fn as_whole(value: &Value<'_>) -> Option<u64>
    ensures { result ≡ option_and_then as_u64 (as_number (seen value.now)) }
{
    match value.as_number() {
        Some(text) => match number(text.as_bytes()) {
            Some(number) => number.as_u64(),
            None => None,
        },
        None => None,
    }
}
