ghost use Rattle.std.specs.Prelude.{◌≡◌, find, option_copied};
ghost use Rattle.backend_json.specs.Types.{answer_name, has_name, name_of, receiver_of};
ghost use Rattle.backend_json.specs.Types.{type_named, type_row};

/// Of which kind the senders of a message are.
#[derive(Clone, Copy, Debug, PartialEq, Eq)]
pub enum SenderKind {
    Network,
    Application,
    Gateway,
    /// No one sends it.
    Nobody,
}

/// By which of its names a message reaches the desk.
#[derive(Clone, Copy, Debug, PartialEq, Eq)]
pub enum ReceiverKind {
    /// One of its JoinEUIs.
    JoinServer,
    /// Its NetID.
    NetworkServer,
    /// Its NetID or one of its JoinEUIs.
    Any,
}

/// The MessageType of a request (TS002, Messages and Payloads).
#[derive(Clone, Copy, Debug, PartialEq, Eq)]
pub enum MessageType {
    JoinReq,
    RejoinReq,
    AppSKeyReq,
    HomeNSReq,
    UplinkReq,
    XmitDataReq,
    /// A type that isn't served.
    Unknown,
}

// The types that are served.
const SERVED: [MessageType; 6] = [
    MessageType::JoinReq,
    MessageType::RejoinReq,
    MessageType::AppSKeyReq,
    MessageType::HomeNSReq,
    MessageType::UplinkReq,
    MessageType::XmitDataReq,
];

// Of these types the first of this name.
fn among<'a>(types: &'a [MessageType], name: &[u8]) -> Option<&'a MessageType>
    ensures { option_copied result ≡ find (has_name name.now) types.now }
{
    types.iter().find(|kind| kind.name().as_bytes() == name)
}

impl MessageType {
    // The table of the types: name, the answer's name, and the kind of receiver.
    #[tactic(auto, unfolding(crate::specs::Types::type_row))]
    fn row(self) -> (&'static str, &'static str, ReceiverKind)
        ensures name { result.0.now ≡ (type_row self).name }
        ensures answer { result.1.now ≡ (type_row self).answer }
        ensures receiver { result.2 ≡ (type_row self).receiver }
    {
        use ReceiverKind::{Any, JoinServer, NetworkServer};
        match self {
            MessageType::JoinReq => ("JoinReq", "JoinAns", JoinServer),
            MessageType::RejoinReq => ("RejoinReq", "RejoinAns", JoinServer),
            MessageType::AppSKeyReq => ("AppSKeyReq", "AppSKeyAns", JoinServer),
            MessageType::HomeNSReq => ("HomeNSReq", "HomeNSAns", JoinServer),
            MessageType::UplinkReq => ("UplinkReq", "UplinkAns", NetworkServer),
            MessageType::XmitDataReq => ("XmitDataReq", "XmitDataAns", NetworkServer),
            MessageType::Unknown => ("", "ErrorNotif", Any),
        }
    }

    // As it is written, where it is served.
    fn name(self) -> &'static str
        ensures { result.now ≡ name_of self }
    {
        self.row().0
    }

    /// The type of this name, byte for byte, and Unknown where none that is served has it.
    pub fn named(name: &[u8]) -> MessageType
        ensures { result ≡ type_named name.now }
    {
        match among(&SERVED, name) {
            Some(kind) => *kind,
            None => MessageType::Unknown,
        }
    }

    /// The MessageType of its answers: its name with Ans for Req, and ErrorNotif where it isn't
    /// served.
    pub fn answer_name(self) -> &'static str
        ensures { result.now ≡ answer_name self }
    {
        self.row().1
    }

    /// By which of its names it reaches the desk.
    pub fn receiver(self) -> ReceiverKind
        ensures { result ≡ receiver_of self }
    {
        self.row().2
    }
}
