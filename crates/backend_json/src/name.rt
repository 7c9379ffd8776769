//! The names of the members that are written.

ghost use Rattle.std.specs.Prelude.{◌≡◌, ◌++◌, ◌∷◌, []};
ghost use Rattle.json.specs.Print.{quoted};
ghost use Rattle.backend_json.specs.Names.{name_text};

/// The name of a member.
#[derive(Clone, Copy)]
pub(crate) enum Name {
    AesKey,
    AppSKey,
    Description,
    DevEui,
    FCntUp,
    FNwkSIntKey,
    HNetId,
    KekLabel,
    Lifetime,
    MessageType,
    NwkSEncKey,
    PhyPayload,
    ProtocolVersion,
    ReceiverId,
    Result,
    ResultCode,
    SNwkSIntKey,
    SenderId,
    SessionKeyId,
    TransactionId,
}

impl Name {
    /// What stands before the member's value: the name as a string, and the colon.
    #[tactic(auto, unfolding(json::specs::Print::escape_byte))]
    pub(crate) fn lead(self) -> &'static str
        ensures { result.now ≡ quoted (name_text self) ++ 58 ∷ [] }
    {
        match self {
            Name::AesKey => "\"AESKey\":",
            Name::AppSKey => "\"AppSKey\":",
            Name::Description => "\"Description\":",
            Name::DevEui => "\"DevEUI\":",
            Name::FCntUp => "\"FCntUp\":",
            Name::FNwkSIntKey => "\"FNwkSIntKey\":",
            Name::HNetId => "\"HNetID\":",
            Name::KekLabel => "\"KEKLabel\":",
            Name::Lifetime => "\"Lifetime\":",
            Name::MessageType => "\"MessageType\":",
            Name::NwkSEncKey => "\"NwkSEncKey\":",
            Name::PhyPayload => "\"PHYPayload\":",
            Name::ProtocolVersion => "\"ProtocolVersion\":",
            Name::ReceiverId => "\"ReceiverID\":",
            Name::Result => "\"Result\":",
            Name::ResultCode => "\"ResultCode\":",
            Name::SNwkSIntKey => "\"SNwkSIntKey\":",
            Name::SenderId => "\"SenderID\":",
            Name::SessionKeyId => "\"SessionKeyID\":",
            Name::TransactionId => "\"TransactionID\":",
        }
    }
}
