//! The members of each answer, and the texts of answers.

ghost use Rattle.std.specs.Prelude.{◌≡◌, IfOk, map, option_map};
ghost use Rattle.backend_json.specs.declared.answer.Outcome.TheVariants.{AppSKeyAns, HomeNSAns};
ghost use Rattle.backend_json.specs.declared.answer.Outcome.TheVariants.{Refused, UplinkAns};
ghost use Rattle.backend_json.specs.declared.answer.Outcome.TheVariants.{XmitDataAns};
ghost use Rattle.backend_json.specs.Answers.{answer_members, answer_version, headed, headless};
ghost use Rattle.backend_json.specs.Answers.{hex_data, join_members, key_data, members_for, named};
ghost use Rattle.backend_json.specs.Answers.{number_data, of_type, session_data, success, text_of};
ghost use Rattle.backend_json.specs.Writing.{field_now, members_now, value_data};

use crate::name::Name;
use crate::object::{Member, put_object};
use crate::value::Value;
use crate::{
    Answer, AppSKeyAnswer, Head, HomeNsAnswer, JoinAnswer, KeyEnvelope, Outcome, Refusal,
    ResultCode, SessionKeyId, UplinkAnswer, XmitDataAnswer,
};
use std::alloc::Global;
use wire_ids::{Memory, Text};

// Every member that an answer may have, each where it is there.
#[derive(Clone, Copy)]
struct Members<'a> {
    app_s_key: Option<Value<'a>>,
    dev_eui: Option<Value<'a>>,
    f_cnt_up: Option<Value<'a>>,
    f_nwk_s_int_key: Option<Value<'a>>,
    h_net_id: Option<Value<'a>>,
    lifetime: Option<Value<'a>>,
    message_type: Option<Value<'a>>,
    nwk_s_enc_key: Option<Value<'a>>,
    phy_payload: Option<Value<'a>>,
    protocol_version: Option<Value<'a>>,
    receiver_id: Option<Value<'a>>,
    result: Option<Value<'a>>,
    s_nwk_s_int_key: Option<Value<'a>>,
    sender_id: Option<Value<'a>>,
    session_key_id: Option<Value<'a>>,
    transaction_id: Option<Value<'a>>,
}

impl<'a> Members<'a> {
    // By their names, in ascending byte order.
    #[tactic(auto, unfolding(crate::specs::Answers::named))]
    fn named(&'a self) -> [Member<'a, Value<'a>>; 16]
        ensures { map (field_now value_data) result ≡ named (members_now self.now) }
    {
        [
            Member(Name::AppSKey, &self.app_s_key),
            Member(Name::DevEui, &self.dev_eui),
            Member(Name::FCntUp, &self.f_cnt_up),
            Member(Name::FNwkSIntKey, &self.f_nwk_s_int_key),
            Member(Name::HNetId, &self.h_net_id),
            Member(Name::Lifetime, &self.lifetime),
            Member(Name::MessageType, &self.message_type),
            Member(Name::NwkSEncKey, &self.nwk_s_enc_key),
            Member(Name::PhyPayload, &self.phy_payload),
            Member(Name::ProtocolVersion, &self.protocol_version),
            Member(Name::ReceiverId, &self.receiver_id),
            Member(Name::Result, &self.result),
            Member(Name::SNwkSIntKey, &self.s_nwk_s_int_key),
            Member(Name::SenderId, &self.sender_id),
            Member(Name::SessionKeyId, &self.session_key_id),
            Member(Name::TransactionId, &self.transaction_id),
        ]
    }
}

// Of every answer, its MessageType.
fn of_type<'a>(message_type: &'static str) -> Members<'a>
    ensures { members_now result ≡ of_type message_type.now }
{
    Members {
        app_s_key: None,
        dev_eui: None,
        f_cnt_up: None,
        f_nwk_s_int_key: None,
        h_net_id: None,
        lifetime: None,
        message_type: Some(Value::Text(message_type.as_bytes())),
        nwk_s_enc_key: None,
        phy_payload: None,
        protocol_version: None,
        receiver_id: None,
        result: None,
        s_nwk_s_int_key: None,
        sender_id: None,
        session_key_id: None,
        transaction_id: None,
    }
}

// Of an answer to a request with this head, what it takes from the head.
fn headed<'a>(head: &Head, version: &'a [u8]) -> Members<'a>
    ensures { members_now result ≡ headed head.now version.now }
{
    Members {
        protocol_version: Some(Value::Text(version)),
        receiver_id: Some(Value::sender(head.sender)),
        sender_id: Some(Value::peer(head.receiver)),
        transaction_id: Some(Value::Number(head.transaction_id)),
        ..of_type(head.message_type.answer_name())
    }
}

// The request's version, but 1.1 where it is the cause of refusal.
fn answer_version<'a>(head: &'a Head, cause: &Refusal) -> &'a [u8]
    ensures { result.now ≡ answer_version head.now cause.now }
{
    match cause {
        Refusal::Version => b"1.1",
        _ => head.protocol_version.as_slice(),
    }
}

fn refused_members<'a>(head: &'a Head, cause: &'a Refusal) -> Members<'a>
    ensures { members_now result ≡ members_for head.now (Refused cause.now) }
{
    let result_text = Value::Result(cause.code(), cause.words().as_bytes(), cause.said());
    Members {
        result: Some(result_text),
        ..headed(head, answer_version(head, cause))
    }
}

fn success<'a>(head: &'a Head) -> Members<'a>
    ensures { members_now result ≡ success head.now }
{
    Members {
        result: Some(Value::Result(ResultCode::Success, b"", b"")),
        ..headed(head, head.protocol_version.as_slice())
    }
}

fn key<'a>(key: &'a Option<KeyEnvelope<'a>>) -> Option<Value<'a>>
    ensures { option_map value_data result ≡ option_map key_data key.now }
{
    match key {
        Some(key) => Some(Value::Key(key)),
        None => None,
    }
}

// Of a JoinAns and of a RejoinAns.
fn join_members<'a>(head: &'a Head, answer: &'a JoinAnswer<'a>) -> Members<'a>
    ensures { members_now result ≡ join_members head.now answer.now }
{
    Members {
        app_s_key: key(&answer.keys.app_s_key),
        f_nwk_s_int_key: key(&answer.keys.f_nwk_s_int_key),
        lifetime: Some(Value::Number(answer.lifetime)),
        nwk_s_enc_key: key(&answer.keys.nwk_s_enc_key),
        phy_payload: Some(Value::Hex(answer.phy_payload.as_slice())),
        s_nwk_s_int_key: key(&answer.keys.s_nwk_s_int_key),
        session_key_id: Some(Value::Session(answer.session_key_id)),
        ..success(head)
    }
}

fn app_s_key_members<'a>(head: &'a Head, answer: &'a AppSKeyAnswer<'a>) -> Members<'a>
    ensures { members_now result ≡ members_for head.now (AppSKeyAns answer.now) }
{
    Members {
        app_s_key: key(&answer.app_s_key),
        dev_eui: Some(Value::Eui(answer.dev_eui)),
        session_key_id: Some(Value::Session(answer.session_key_id)),
        ..success(head)
    }
}

fn home_ns_members<'a>(head: &'a Head, answer: &HomeNsAnswer) -> Members<'a>
    ensures { members_now result ≡ members_for head.now (HomeNSAns answer.now) }
{
    Members {
        h_net_id: Some(Value::Net(answer.h_net_id)),
        ..success(head)
    }
}

fn number<'a>(n: Option<u32>) -> Option<Value<'a>>
    ensures { option_map value_data result ≡ option_map number_data n }
{
    match n {
        Some(n) => Some(Value::Number(n)),
        None => None,
    }
}

fn bytes<'a>(bytes: &'a Option<Text>) -> Option<Value<'a>>
    ensures { option_map value_data result ≡ option_map hex_data bytes.now }
{
    match bytes {
        Some(bytes) => Some(Value::Hex(bytes.as_slice())),
        None => None,
    }
}

fn session<'a>(id: Option<SessionKeyId>) -> Option<Value<'a>>
    ensures { option_map value_data result ≡ option_map session_data id }
{
    match id {
        Some(id) => Some(Value::Session(id)),
        None => None,
    }
}

fn uplink_members<'a>(head: &'a Head, answer: &'a UplinkAnswer) -> Members<'a>
    ensures { members_now result ≡ members_for head.now (UplinkAns answer.now) }
{
    Members {
        dev_eui: Some(Value::Eui(answer.dev_eui)),
        f_cnt_up: number(answer.f_cnt_up),
        phy_payload: bytes(&answer.phy_payload),
        session_key_id: session(answer.session_key_id),
        ..success(head)
    }
}

fn xmit_data_members<'a>(head: &'a Head, answer: &'a XmitDataAnswer) -> Members<'a>
    ensures { members_now result ≡ members_for head.now (XmitDataAns answer.now) }
{
    Members {
        phy_payload: bytes(&answer.phy_payload),
        ..success(head)
    }
}

fn members_for<'a>(head: &'a Head, outcome: &'a Outcome<'a>) -> Members<'a>
    ensures { members_now result ≡ members_for head.now outcome.now }
{
    match outcome {
        Outcome::Refused(cause) => refused_members(head, cause),
        Outcome::JoinAns(answer) | Outcome::RejoinAns(answer) => join_members(head, answer),
        Outcome::AppSKeyAns(answer) => app_s_key_members(head, answer),
        Outcome::HomeNSAns(answer) => home_ns_members(head, answer),
        Outcome::UplinkAns(answer) => uplink_members(head, answer),
        Outcome::XmitDataAns(answer) => xmit_data_members(head, answer),
    }
}

// Of the answer to a body without a readable head.
fn headless_members() -> Members<'static>
    ensures { members_now result ≡ headless }
{
    let cause = Refusal::Message;
    Members {
        result: Some(Value::Result(cause.code(), cause.words().as_bytes(), b"")),
        ..of_type("ErrorNotif")
    }
}

#[tactic(auto, unfolding(crate::specs::Answers::answer_members))]
fn answer_members<'a>(answer: &'a Answer<'a>) -> Members<'a>
    ensures { members_now result ≡ answer_members answer.now }
{
    match answer {
        Answer::Headless => headless_members(),
        Answer::Headed { head, outcome } => members_for(head, outcome),
    }
}

/// The text of an answer: compact JSON, the members in the ascending byte order of their names,
/// EUIs, NetIDs and bytes in lower-case digits (TS002, Messages and Payloads).
///
/// A request with a head is answered by its MessageType with Ans for Req, or ErrorNotif where that
/// type isn't served, by its ProtocolVersion, or 1.1 where the version is refused, and by its
/// TransactionID, to its sender. Without a head the answer is an ErrorNotif with its Result alone.
pub fn answer_text(alloc: Global, answer: &Answer<'_>) -> Result<Text, Memory>
    ensures { IfOk result (λ text. text ≡ text_of answer.now) }
{
    let mut out = Vec::with_capacity(alloc, 1024)?;
    let members = answer_members(&*answer);
    put_object(&mut out, &members.named())?;
    Ok(Text::new(out))
}
