//! The members of an object that is read.

ghost use Rattle.std.specs.Prelude.{◌≡◌, option_and_then, option_map};
ghost use Rattle.serde_json.specs.Find.{get};
ghost use Rattle.backend_json.specs.Seen.{seen};
ghost use Rattle.backend_json.specs.Members.{GivesMember, found_at, needed, optional};
ghost use Rattle.backend_json.specs.Members.{path_of, place_of};
ghost use Rattle.backend_json.specs.declared.member.Gap.TheVariants.{Memory as no_memory};

use crate::body::member_named;
use crate::form::Form;
use json::Value;
use std::alloc::Global;
use wire_ids::Memory;

/// A member that is read.
#[derive(Clone, Copy)]
pub(crate) enum Key {
    ProtocolVersion,
    SenderId,
    ReceiverId,
    TransactionId,
    MessageType,
    MacVersion,
    PhyPayload,
    DevEui,
    DevAddr,
    DlSettings,
    RxDelay,
    CfList,
    SessionKeyId,
    DataRate,
    UplinkDataRate,
    FrmPayload,
    DownlinkDevEui,
    FPort,
    FCntDown,
    Confirmed,
}

impl Key {
    /// The path by which a fault names it.
    #[tactic(auto, unfolding(crate::specs::Members::place_of))]
    pub(crate) fn path(self) -> &'static str
        ensures { result.now ≡ path_of self }
    {
        match self {
            Key::ProtocolVersion => "ProtocolVersion",
            Key::SenderId => "SenderID",
            Key::ReceiverId => "ReceiverID",
            Key::TransactionId => "TransactionID",
            Key::MessageType => "MessageType",
            Key::MacVersion => "MACVersion",
            Key::PhyPayload => "PHYPayload",
            Key::DevEui => "DevEUI",
            Key::DevAddr => "DevAddr",
            Key::DlSettings => "DLSettings",
            Key::RxDelay => "RxDelay",
            Key::CfList => "CFList",
            Key::SessionKeyId => "SessionKeyID",
            Key::DataRate => "DataRate",
            Key::UplinkDataRate => "ULMetaData.DataRate",
            Key::FrmPayload => "FRMPayload",
            Key::DownlinkDevEui => "DLMetaData.DevEUI",
            Key::FPort => "DLMetaData.FPort",
            Key::FCntDown => "DLMetaData.FCntDown",
            Key::Confirmed => "DLMetaData.Confirmed",
        }
    }

    /// What stands there in a message.
    #[tactic(auto, unfolding(crate::specs::Members::place_of))]
    pub(crate) fn find<'v, 'a>(self, message: &'v Value<'a>) -> Option<&'v Value<'a>>
        ensures { option_map (λ v. seen v.now) result
            ≡ found_at (place_of self) (seen message.now) }
    {
        match self {
            Key::UplinkDataRate => inside(message, "ULMetaData", "DataRate"),
            Key::DownlinkDevEui => inside(message, "DLMetaData", "DevEUI"),
            Key::FPort => inside(message, "DLMetaData", "FPort"),
            Key::FCntDown => inside(message, "DLMetaData", "FCntDown"),
            Key::Confirmed => inside(message, "DLMetaData", "Confirmed"),
            _ => member_named(message, self.path()),
        }
    }
}

// What stands under a name in an object of a message.
fn inside<'v, 'a>(message: &'v Value<'a>, object: &str, name: &str) -> Option<&'v Value<'a>>
    ensures { option_map (λ v. seen v.now) result
        ≡ option_and_then (get name.now) (get object.now (seen message.now)) }
{
    member_named(member_named(message, object)?, name)
}

/// Why a member isn't given.
#[derive(Clone, Copy)]
pub(crate) enum Gap {
    /// It is missing or ill-formed.
    Member(Key),
    Memory,
}

impl From<Memory> for Gap {
    ghost from_gives = { λ _ e. e ≡ no_memory };

    fn from(_: Memory) -> Self {
        Gap::Memory
    }
}

/// A member that must stand there.
pub(crate) fn needed<T: Form>(alloc: Global, message: &Value<'_>, key: Key) -> Result<T, Gap>
    ensures { GivesMember result (needed T.form key (seen message.now)) }
{
    let Some(value) = key.find(message) else {
        return Err(Gap::Member(key));
    };
    match T::read(alloc, value) {
        Ok(Some(found)) => Ok(found),
        Ok(None) => Err(Gap::Member(key)),
        Err(_) => Err(Gap::Memory),
    }
}

/// A member that may be missing. It is ill-formed where it stands there in another form, as null.
pub(crate) fn optional<T: Form>(
    alloc: Global,
    message: &Value<'_>,
    key: Key,
) -> Result<Option<T>, Gap>
    ensures { GivesMember result (optional T.form key (seen message.now)) }
{
    let Some(value) = key.find(message) else {
        return Ok(None);
    };
    match T::read(alloc, value) {
        Ok(Some(found)) => Ok(Some(found)),
        Ok(None) => Err(Gap::Member(key)),
        Err(_) => Err(Gap::Memory),
    }
}
