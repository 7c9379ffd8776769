//! The values of the members that are written.

ghost use Rattle.std.specs.Prelude.{◌≡◌, ◌++◌, OnOk};
ghost use Rattle.serde_json.specs.Data.{string};
ghost use Rattle.serde_json.specs.Written.{compact_text};
ghost use Rattle.backend_json.specs.Answers.{key_data, peer_digits, result_data};
ghost use Rattle.backend_json.specs.Answers.{sender_digits, session_bytes};
ghost use Rattle.backend_json.specs.Writing.{part_data, value_data};

use crate::name::Name;
use crate::object::{Written, put_pair};
use crate::writing::{put_hex, put_number, put_string, put_strings};
use crate::{KeyEnvelope, ResultCode, SessionKeyId};
use std::alloc::AllocError;
use wire_ids::{Eui, NetId, PeerId, Sender};

/// A value of a member.
#[derive(Clone, Copy)]
pub(crate) enum Value<'a> {
    Text(&'a [u8]),
    /// Bytes, by their digits.
    Hex(&'a [u8]),
    Number(u32),
    Eui(Eui),
    Net(NetId),
    Session(SessionKeyId),
    Key(&'a KeyEnvelope<'a>),
    /// A Result: its ResultCode, the words of its Description, and what completes them.
    Result(ResultCode, &'a [u8], &'a [u8]),
}

impl Value<'_> {
    /// The name of a request's sender.
    pub(crate) fn sender(sender: Sender) -> Value<'static>
        ensures { value_data result ≡ string (sender_digits sender) }
    {
        match sender {
            Sender::Network(net) => Value::Net(net),
            Sender::Party(eui) => Value::Eui(eui),
        }
    }

    /// The name of a request's receiver.
    pub(crate) fn peer(peer: PeerId) -> Value<'static>
        ensures { value_data result ≡ string (peer_digits peer) }
    {
        match peer {
            PeerId::Network(net) => Value::Net(net),
            PeerId::JoinServer(eui) => Value::Eui(eui),
        }
    }
}

// The bytes of a SessionKeyID: those of the DevEUI, and then those of the JoinNonce.
#[tactic(auto, unfolding(crate::specs::Answers::session_bytes))]
fn session_bytes(id: SessionKeyId) -> [u8; 11]
    ensures { result ≡ session_bytes id }
{
    let d = id.dev_eui.0.to_be_bytes();
    let n = id.join_nonce.get();
    [
        d[0],
        d[1],
        d[2],
        d[3],
        d[4],
        d[5],
        d[6],
        d[7],
        (n / 65536 % 256) as u8,
        (n / 256 % 256) as u8,
        (n % 256) as u8,
    ]
}

// A value inside a KeyEnvelope or a Result.
#[derive(Clone, Copy)]
enum Part<'a> {
    /// A text, and what completes it.
    Text(&'a [u8], &'a [u8]),
    Hex(&'a [u8]),
}

impl Written for Part<'_> {
    ghost json = { part_data };

    fn put(&self, out: &mut Vec<u8>) -> Result<(), AllocError> {
        match self {
            Part::Text(text, more) => put_strings(out, *text, *more),
            Part::Hex(bytes) => put_hex(out, *bytes),
        }
    }
}

#[tactic(auto, unfolding(crate::specs::Answers::key_data))]
fn put_key(out: &mut Vec<u8>, key: &KeyEnvelope<'_>) -> Result<(), AllocError>
    ensures { OnOk result (out.new.items ≡ out.old.items ++ compact_text (key_data key.now)) }
{
    let aes_key = Part::Hex(&key.aes_key);
    let kek_label = Part::Text(key.kek_label.as_slice(), b"");
    put_pair(out, Name::AesKey, &aes_key, Name::KekLabel, &kek_label)
}

#[tactic(auto, unfolding(crate::specs::Answers::result_data))]
fn put_result<'a>(
    out: &mut Vec<u8>,
    code: ResultCode,
    words: &'a [u8],
    said: &'a [u8],
) -> Result<(), AllocError>
    ensures { OnOk result (out.new.items
        ≡ out.old.items ++ compact_text (result_data code (words.now ++ said.now))) }
{
    let description = Part::Text(words, said);
    let result_code = Part::Text(code.text().as_bytes(), b"");
    put_pair(
        out,
        Name::Description,
        &description,
        Name::ResultCode,
        &result_code,
    )
}

impl Written for Value<'_> {
    ghost json = { value_data };

    fn put(&self, out: &mut Vec<u8>) -> Result<(), AllocError> {
        match self {
            Value::Text(text) => put_string(out, *text),
            Value::Hex(bytes) => put_hex(out, *bytes),
            Value::Number(n) => put_number(out, *n),
            Value::Eui(eui) => put_string(out, &eui.to_hex()),
            Value::Net(net) => put_string(out, &net.to_hex()),
            Value::Session(id) => put_hex(out, &session_bytes(*id)),
            Value::Key(key) => put_key(out, *key),
            Value::Result(code, words, said) => put_result(out, *code, *words, *said),
        }
    }
}
