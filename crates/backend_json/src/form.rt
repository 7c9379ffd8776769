//! The forms in which the members of messages are written.

ghost use Rattle.std.specs.Prelude.{◌≡◌, ◌<◌, ◌^◌, IfOk, IfSome, Option, option_map};
ghost use Rattle.wire_ids.specs.Digits.{read_eui, read_net};
ghost use Rattle.serde_json.specs.Data.{Data};
ghost use Rattle.serde_json.specs.Find.{as_bool, as_str};
ghost use Rattle.backend_json.specs.Seen.{seen};
ghost use Rattle.backend_json.specs.Forms.{bytes_form, bytes_of, byte_form, cf_list_form};
ghost use Rattle.backend_json.specs.Forms.{cf_list_of, dev_addr_form, digits_in, eui_form};
ghost use Rattle.backend_json.specs.Forms.{peer_by, peer_form, sender_by, sender_form};
ghost use Rattle.backend_json.specs.Forms.{session_form, session_of};
ghost use Rattle.backend_json.specs.Forms.{texts_now, type_form, whole_form};

use crate::body::{as_bool, as_text, as_whole};
use crate::{MessageType, SessionKeyId};
use json::Value;
use std::alloc::Global;
use wire_ids::{DevAddr, Eui, Memory, NetId, Nonce24, PeerId, Sender, Text, without_prefix};

/// A form of a member.
pub(crate) trait Form: Sized + Drop {
    /// What a value is, where it has this form.
    ghost form: { Data → Option Self };

    /// What the value is.
    fn read(alloc: Global, value: &Value<'_>) -> Result<Option<Self>, Memory>
        ensures { IfOk result (λ found. found ≡ form (seen value.now)) };
}

/// A text of any bytes.
impl Form for Text {
    ghost form = { as_str };

    fn read(alloc: Global, value: &Value<'_>) -> Result<Option<Text>, Memory> {
        match as_text(value) {
            Some(text) => match Text::of_slice(alloc, text.as_bytes()) {
                Ok(text) => Ok(Some(text)),
                Err(memory) => Err(memory),
            },
            None => Ok(None),
        }
    }
}

/// True or false.
impl Form for bool {
    ghost form = { as_bool };

    fn read(_: Global, value: &Value<'_>) -> Result<Option<bool>, Memory> {
        Ok(as_bool(value))
    }
}

// ---- numbers

#[tactic(auto, unfolding(crate::specs::Forms::whole_form))]
fn whole(value: &Value<'_>, limit: u64) -> Option<u64>
    ensures value { result ≡ whole_form limit (seen value.now) }
    ensures bound { IfSome result (λ n. n < limit) }
{
    match as_whole(value) {
        Some(found) => if found < limit { Some(found) } else { None },
        None => None,
    }
}

/// A whole number below 2^32.
impl Form for u32 {
    ghost form = { whole_form (2 ^ 32) };

    fn read(_: Global, value: &Value<'_>) -> Result<Option<u32>, Memory> {
        Ok(match whole(value, 1 << 32) {
            Some(found) => Some(found as u32),
            None => None,
        })
    }
}

/// A whole number below 256.
impl Form for u8 {
    ghost form = { whole_form 256 };

    fn read(_: Global, value: &Value<'_>) -> Result<Option<u8>, Memory> {
        Ok(match whole(value, 256) {
            Some(found) => Some(found as u8),
            None => None,
        })
    }
}

/// A whole number below LIMIT.
#[derive(Drop)]
pub(crate) struct Below<const LIMIT: u8>(pub u8);

impl<const LIMIT: u8> Form for Below<LIMIT> {
    ghost form = { λ d. option_map (λ n. record { 0 = n }) (whole_form LIMIT d) };

    fn read(_: Global, value: &Value<'_>) -> Result<Option<Below<LIMIT>>, Memory> {
        Ok(match whole(value, LIMIT as u64) {
            Some(found) => Some(Below(found as u8)),
            None => None,
        })
    }
}

// ---- digits

// The digits of a text, without a 0x or 0X before them.
#[tactic(auto, unfolding(crate::specs::Forms::digits_in))]
fn digits_in<'a>(value: &Value<'a>) -> Option<&'a [u8]>
    ensures { texts_now result ≡ digits_in (seen value.now) }
{
    match as_text(value) {
        Some(text) => Some(without_prefix(text.as_bytes())),
        None => None,
    }
}

// The bytes of exactly 2 N digits.
fn bytes_of<const N: usize>(digits: &[u8]) -> Option<[u8; N]>
    ensures { result ≡ bytes_of N digits.now }
{
    let mut bytes = [0; N];
    match hex::decode_to_slice(digits, &mut bytes) {
        Ok(()) => Some(bytes),
        Err(_) => None,
    }
}

/// Any number of bytes, two digits each.
#[derive(Drop)]
pub(crate) struct Bytes(pub Text);

impl Form for Bytes {
    ghost form = { λ d. option_map (λ bytes. record { 0 = bytes }) (bytes_form d) };

    #[tactic(auto, unfolding(crate::specs::Forms::bytes_form))]
    fn read(alloc: Global, value: &Value<'_>) -> Result<Option<Bytes>, Memory> {
        let Some(digits) = digits_in(value) else {
            return Ok(None);
        };
        match hex::decode(alloc, digits) {
            Ok(found) => Ok(Some(Bytes(Text::new(found)))),
            Err(hex::FromHexError::OutOfMemory) => Err(Memory),
            Err(_) => Ok(None),
        }
    }
}

/// One byte in two digits.
#[derive(Drop)]
pub(crate) struct Byte(pub u8);

impl Form for Byte {
    ghost form = { λ d. option_map (λ byte. record { 0 = byte }) (byte_form d) };

    #[tactic(auto, unfolding(crate::specs::Forms::byte_form))]
    fn read(_: Global, value: &Value<'_>) -> Result<Option<Byte>, Memory> {
        Ok(match digits_in(value).and_then(bytes_of::<1>) {
            Some(bytes) => Some(Byte(bytes[0])),
            None => None,
        })
    }
}

/// A CFList of 16 bytes, or of none.
#[derive(Drop)]
pub(crate) struct CfList(pub Option<[u8; 16]>);

#[tactic(auto, unfolding(crate::specs::Forms::cf_list_of))]
fn cf_list_of(digits: &[u8]) -> Option<Option<[u8; 16]>>
    ensures { result ≡ cf_list_of digits.now }
{
    if digits.is_empty() {
        return Some(None);
    }
    match bytes_of::<16>(digits) {
        Some(bytes) => Some(Some(bytes)),
        None => None,
    }
}

impl Form for CfList {
    ghost form = { λ d. option_map (λ cf. record { 0 = cf }) (cf_list_form d) };

    #[tactic(auto, unfolding(crate::specs::Forms::cf_list_form))]
    fn read(_: Global, value: &Value<'_>) -> Result<Option<CfList>, Memory> {
        Ok(match digits_in(value).and_then(cf_list_of) {
            Some(cf_list) => Some(CfList(cf_list)),
            None => None,
        })
    }
}

#[tactic(auto, unfolding(crate::specs::Forms::session_of))]
fn session_of(digits: &[u8]) -> Option<SessionKeyId>
    ensures { result ≡ session_of digits.now }
{
    if digits.len() != 22 {
        return None;
    }
    let Some(dev_eui) = bytes_of::<8>(&digits[..16]) else {
        return None;
    };
    match bytes_of::<3>(&digits[16..]) {
        Some(join_nonce) => Some(SessionKeyId {
            dev_eui: Eui(u64::from_be_bytes(dev_eui)),
            join_nonce: Nonce24::from_be_bytes(join_nonce),
        }),
        None => None,
    }
}

impl Form for SessionKeyId {
    ghost form = { session_form };

    #[tactic(auto, unfolding(crate::specs::Forms::session_form))]
    fn read(_: Global, value: &Value<'_>) -> Result<Option<SessionKeyId>, Memory> {
        Ok(digits_in(value).and_then(session_of))
    }
}

// ---- identifiers

impl Form for Eui {
    ghost form = { eui_form };

    #[tactic(auto, unfolding(crate::specs::Forms::eui_form))]
    fn read(_: Global, value: &Value<'_>) -> Result<Option<Eui>, Memory> {
        Ok(match as_text(value) {
            Some(text) => Eui::from_hex(text.as_bytes()).ok(),
            None => None,
        })
    }
}

impl Form for DevAddr {
    ghost form = { dev_addr_form };

    #[tactic(auto, unfolding(crate::specs::Forms::dev_addr_form))]
    fn read(_: Global, value: &Value<'_>) -> Result<Option<DevAddr>, Memory> {
        Ok(match as_text(value) {
            Some(text) => DevAddr::from_hex(text.as_bytes()).ok(),
            None => None,
        })
    }
}

// A network by its NetID, or an application or a gateway by its EUI.
fn sender_by(text: &[u8]) -> Option<Sender>
    ensures { result ≡ sender_by (read_net text.now) (read_eui text.now) }
{
    match NetId::from_hex(text) {
        Ok(net) => Some(Sender::Network(net)),
        Err(_) => match Eui::from_hex(text) {
            Ok(eui) => Some(Sender::Party(eui)),
            Err(_) => None,
        },
    }
}

impl Form for Sender {
    ghost form = { sender_form };

    #[tactic(auto, unfolding(crate::specs::Forms::sender_form))]
    fn read(_: Global, value: &Value<'_>) -> Result<Option<Sender>, Memory> {
        Ok(match as_text(value) {
            Some(text) => sender_by(text.as_bytes()),
            None => None,
        })
    }
}

// A network by its NetID, or a join server by its JoinEUI.
fn peer_by(text: &[u8]) -> Option<PeerId>
    ensures { result ≡ peer_by (read_net text.now) (read_eui text.now) }
{
    match NetId::from_hex(text) {
        Ok(net) => Some(PeerId::Network(net)),
        Err(_) => match Eui::from_hex(text) {
            Ok(eui) => Some(PeerId::JoinServer(eui)),
            Err(_) => None,
        },
    }
}

impl Form for PeerId {
    ghost form = { peer_form };

    #[tactic(auto, unfolding(crate::specs::Forms::peer_form))]
    fn read(_: Global, value: &Value<'_>) -> Result<Option<PeerId>, Memory> {
        Ok(match as_text(value) {
            Some(text) => peer_by(text.as_bytes()),
            None => None,
        })
    }
}

/// A type by its name, any text.
impl Form for MessageType {
    ghost form = { type_form };

    #[tactic(auto, unfolding(crate::specs::Forms::type_form))]
    fn read(_: Global, value: &Value<'_>) -> Result<Option<MessageType>, Memory> {
        Ok(match as_text(value) {
            Some(name) => Some(MessageType::named(name.as_bytes())),
            None => None,
        })
    }
}
