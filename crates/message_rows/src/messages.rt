//! What the program doesn't print: which member a fault names, and what a peer says.

use backend_json::{
    Answer, Bad, Head, Message, MessageType, Outcome, Refusal, answer_text, read_message,
};
use std::alloc::Global;
use std::test::Fail;
use wire_ids::{Eui, NetId, PeerId, Sender, Text};

fn is_send<T: Send>() {}

// Bodies, and the first member of each that is missing or ill-formed.
const LACKING: [(&[u8], &str); 19] = [
    (b"{\"SenderID\":\"000014\"}", "ProtocolVersion"),
    (
        b"{\"ProtocolVersion\":\"1.1\",\"SenderID\":\"0014\"}",
        "SenderID",
    ),
    (
        b"{\"ProtocolVersion\":\"1.1\",\"SenderID\":\"000014\",\"ReceiverID\":\"000013\",\
        \"TransactionID\":4294967296}",
        "TransactionID",
    ),
    (
        b"{\"ProtocolVersion\":\"1.1\",\"SenderID\":\"000014\",\"ReceiverID\":\"000013\",\
        \"TransactionID\":1,\"MessageType\":\"JoinReq\"}",
        "MACVersion",
    ),
    (
        b"{\"ProtocolVersion\":\"1.1\",\"SenderID\":\"000014\",\"ReceiverID\":\"000013\",\
        \"TransactionID\":1,\"MessageType\":\"JoinReq\",\"MACVersion\":\"1.1\",\
        \"PHYPayload\":\"00\",\"DevEUI\":\"0000000000000001\",\"DevAddr\":\"00000001\",\
        \"DLSettings\":\"80\",\"RxDelay\":16,\"CFList\":null}",
        "RxDelay",
    ),
    (
        b"{\"ProtocolVersion\":\"1.1\",\"SenderID\":\"000014\",\"ReceiverID\":\"000013\",\
        \"TransactionID\":1,\"MessageType\":\"AppSKeyReq\",\"DevEUI\":\"0000000000000001\"}",
        "SessionKeyID",
    ),
    (
        b"{\"ProtocolVersion\":\"1.1\",\"SenderID\":\"000014\",\"ReceiverID\":\"000013\",\
        \"TransactionID\":1,\"MessageType\":\"RejoinReq\",\"MACVersion\":\"1.1\",\
        \"PHYPayload\":\"0\"}",
        "PHYPayload",
    ),
    (
        b"{\"ProtocolVersion\":\"1.1\",\"SenderID\":\"000014\",\"ReceiverID\":\"000013\",\
        \"TransactionID\":1,\"MessageType\":\"HomeNSReq\",\"DevEUI\":1}",
        "DevEUI",
    ),
    (
        b"{\"ProtocolVersion\":\"1.1\",\"SenderID\":\"b000000000000001\",\
        \"ReceiverID\":\"000013\",\"TransactionID\":1,\"MessageType\":\"UplinkReq\",\
        \"PHYPayload\":\"\",\"DataRate\":8}",
        "DataRate",
    ),
    (
        b"{\"ProtocolVersion\":\"1.1\",\"SenderID\":\"b000000000000001\",\
        \"ReceiverID\":\"000013\",\"TransactionID\":1,\"MessageType\":\"UplinkReq\",\
        \"PHYPayload\":\"400\",\"DataRate\":5.0}",
        "PHYPayload",
    ),
    (
        b"{\"ProtocolVersion\":\"1.1\",\"SenderID\":\"a000000000000001\",\
        \"ReceiverID\":\"000013\",\"TransactionID\":1,\"MessageType\":\"XmitDataReq\",\
        \"FRMPayload\":\"0\",\"SessionKeyID\":1}",
        "FRMPayload",
    ),
    (
        b"{\"ProtocolVersion\":\"1.1\",\"SenderID\":\"a000000000000001\",\
        \"ReceiverID\":\"000013\",\"TransactionID\":1,\"MessageType\":\"XmitDataReq\",\
        \"FRMPayload\":\"\",\"SessionKeyID\":\"00000000000000010000\"}",
        "SessionKeyID",
    ),
    (
        b"{\"ProtocolVersion\":\"1.1\",\"SenderID\":\"a000000000000001\",\
        \"ReceiverID\":\"000013\",\"TransactionID\":1,\"MessageType\":\"XmitDataReq\",\
        \"FRMPayload\":\"\",\"SessionKeyID\":\"0000000000000001000001\"}",
        "DLMetaData.DevEUI",
    ),
    (
        b"{\"ProtocolVersion\":\"1.1\",\"SenderID\":\"a000000000000001\",\
        \"ReceiverID\":\"000013\",\"TransactionID\":1,\"MessageType\":\"XmitDataReq\",\
        \"FRMPayload\":\"\",\"SessionKeyID\":\"0000000000000001000001\",\
        \"DLMetaData\":\"0000000000000001\",\"DevEUI\":\"0000000000000001\"}",
        "DLMetaData.DevEUI",
    ),
    (
        b"{\"ProtocolVersion\":\"1.1\",\"SenderID\":\"a000000000000001\",\
        \"ReceiverID\":\"000013\",\"TransactionID\":1,\"MessageType\":\"XmitDataReq\",\
        \"FRMPayload\":\"\",\"SessionKeyID\":\"0000000000000001000001\",\
        \"DLMetaData\":{\"DevEUI\":\"0000000000000001\",\"FPort\":256}}",
        "DLMetaData.FPort",
    ),
    (
        b"{\"ProtocolVersion\":\"1.1\",\"SenderID\":\"a000000000000001\",\
        \"ReceiverID\":\"000013\",\"TransactionID\":1,\"MessageType\":\"XmitDataReq\",\
        \"FRMPayload\":\"\",\"SessionKeyID\":\"0000000000000001000001\",\
        \"DLMetaData\":{\"DevEUI\":\"0000000000000001\",\"FPort\":0,\"FCntDown\":4294967296}}",
        "DLMetaData.FCntDown",
    ),
    (
        b"{\"ProtocolVersion\":\"1.1\",\"SenderID\":\"a000000000000001\",\
        \"ReceiverID\":\"000013\",\"TransactionID\":1,\"MessageType\":\"XmitDataReq\",\
        \"FRMPayload\":\"\",\"SessionKeyID\":\"0000000000000001000001\",\
        \"DLMetaData\":{\"DevEUI\":\"0000000000000001\",\"FPort\":0,\"FCntDown\":0,\
        \"Confirmed\":null}}",
        "DLMetaData.Confirmed",
    ),
    (
        b"{\"ProtocolVersion\":\"1.1\",\"SenderID\":\"a000000000000001\",\
        \"ReceiverID\":\"000013\",\"TransactionID\":1,\"MessageType\":\"XmitDataReq\",\
        \"PHYPayload\":null,\"FRMPayload\":\"\"}",
        "PHYPayload",
    ),
    (
        b"{\"ProtocolVersion\":\"1.1\",\"SenderID\":\"a000000000000001\",\
        \"ReceiverID\":\"000013\",\"TransactionID\":1,\"MessageType\":\"XmitDataReq\",\
        \"PHYPayload\":\"\",\"DataRate\":0}",
        "ULMetaData.DataRate",
    ),
];

// The answers to requests that are refused for causes which the program doesn't print.
const ASKED: &[u8] = b"{\"MessageType\":\"JoinAns\",\"ProtocolVersion\":\"1.1\",\
    \"ReceiverID\":\"000014\",\"Result\":{\"Description\":\"asked\",\
    \"ResultCode\":\"Deferred\"},\"SenderID\":\"70b3d57ed0000001\",\"TransactionID\":7}";

const SUSPENDED: &[u8] = b"{\"MessageType\":\"RejoinAns\",\"ProtocolVersion\":\"1.1\",\
    \"ReceiverID\":\"000014\",\"Result\":{\"Description\":\"suspended\",\
    \"ResultCode\":\"ActivationDisallowed\"},\"SenderID\":\"70b3d57ed0000001\",\
    \"TransactionID\":7}";

const PEER_SAID: &[u8] = b"{\"MessageType\":\"HomeNSAns\",\"ProtocolVersion\":\"1.1\",\
    \"ReceiverID\":\"000014\",\"Result\":{\"Description\":\"peer said Busy9\",\
    \"ResultCode\":\"Other\"},\"SenderID\":\"70b3d57ed0000001\",\"TransactionID\":7}";

fn text_of(alloc: Global, message_type: MessageType, outcome: Outcome<'_>) -> Result<Text, Fail> {
    let head = Head {
        protocol_version: Text::of_slice(alloc, b"1.1").or(Err("memory"))?,
        sender: Sender::Network(NetId::new(0x14).ok_or("bits")?),
        receiver: PeerId::JoinServer(Eui(0x70b3d57ed0000001)),
        transaction_id: 7,
        message_type,
    };
    let answer = Answer::Headed { head, outcome };
    Ok(answer_text(alloc, &answer).or(Err("memory"))?)
}

#[test]
fn a_fault_names_the_first_bad_member(rt: HostRuntime) -> Result<(), Fail> {
    is_send::<Message>();
    is_send::<Bad>();
    is_send::<Answer<'static>>();
    for (body, want) in LACKING {
        let Ok(Err(Bad::Member { name, head: _ })) = read_message(rt.alloc(), body) else {
            return Err(Fail::from("no bad member"));
        };
        assert_eq!(rt; name.as_slice(), want.as_bytes());
    }
    Ok(())
}

#[test]
fn a_refusal_has_its_text(rt: HostRuntime) -> Result<(), Fail> {
    let alloc = rt.alloc();
    let code = Text::of_slice(alloc, b"Busy9").or(Err("memory"))?;
    for (message_type, cause, want) in [
        (MessageType::JoinReq, Refusal::Asked, ASKED),
        (MessageType::RejoinReq, Refusal::Suspended, SUSPENDED),
        (
            MessageType::HomeNSReq,
            Refusal::PeerSaid { code },
            PEER_SAID,
        ),
    ] {
        let outcome = Outcome::Refused(cause);
        assert_eq!(rt; text_of(alloc, message_type, outcome)?.as_slice(), want);
    }
    Ok(())
}
