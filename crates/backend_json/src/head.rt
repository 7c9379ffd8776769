ghost use Rattle.backend_json.specs.Seen.{seen};
ghost use Rattle.backend_json.specs.Members.{GivesMember};
ghost use Rattle.backend_json.specs.Requests.{head_in};

use crate::MessageType;
use crate::member::{Gap, Key, needed};
use json::Value;
use std::alloc::Global;
use wire_ids::{PeerId, Sender, Text};

/// The five members that every message has.
#[derive(Drop)]
pub struct Head {
    /// ProtocolVersion, any text.
    pub protocol_version: Text,
    /// SenderID: a NetID of 6 digits, or the EUI of an application or a gateway of 16.
    pub sender: Sender,
    /// ReceiverID: a NetID of 6 digits, or a JoinEUI of 16.
    pub receiver: PeerId,
    /// TransactionID.
    pub transaction_id: u32,
    /// MessageType.
    pub message_type: MessageType,
}

#[tactic(auto, unfolding(crate::specs::Requests::head_in))]
pub(crate) fn read_head(alloc: Global, value: &Value<'_>) -> Result<Head, Gap>
    ensures { GivesMember result (head_in (seen value.now)) }
{
    let protocol_version = needed(alloc, value, Key::ProtocolVersion)?;
    let sender = needed(alloc, value, Key::SenderId)?;
    let receiver = needed(alloc, value, Key::ReceiverId)?;
    let transaction_id = needed(alloc, value, Key::TransactionId)?;
    let message_type = needed(alloc, value, Key::MessageType)?;
    Ok(Head {
        protocol_version,
        sender,
        receiver,
        transaction_id,
        message_type,
    })
}
