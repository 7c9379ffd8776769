ghost use Rattle.std.specs.Prelude.{◌≡◌};
ghost use Rattle.backend_json.specs.Refusals.{code_of, code_text, number_of, row_of, said_of};
ghost use Rattle.backend_json.specs.Refusals.{words_of};

use wire_ids::Text;

/// The ResultCode of an answer (TS002, Messages and Payloads).
#[derive(Clone, Copy, Debug, PartialEq, Eq)]
pub enum ResultCode {
    Success,
    MalformedRequest,
    InvalidProtocolVersion,
    UnknownSender,
    UnknownReceiver,
    Deferred,
    FrameSizeError,
    UnknownDevEui,
    UnknownDevAddr,
    ActivationDisallowed,
    JoinReqFailed,
    MicFailed,
    InvalidFPort,
    XmitFailed,
    Other,
}

impl ResultCode {
    /// As it is written.
    pub fn text(self) -> &'static str
        ensures { result.now ≡ code_text self }
    {
        match self {
            ResultCode::Success => "Success",
            ResultCode::MalformedRequest => "MalformedRequest",
            ResultCode::InvalidProtocolVersion => "InvalidProtocolVersion",
            ResultCode::UnknownSender => "UnknownSender",
            ResultCode::UnknownReceiver => "UnknownReceiver",
            ResultCode::Deferred => "Deferred",
            ResultCode::FrameSizeError => "FrameSizeError",
            ResultCode::UnknownDevEui => "UnknownDevEUI",
            ResultCode::UnknownDevAddr => "UnknownDevAddr",
            ResultCode::ActivationDisallowed => "ActivationDisallowed",
            ResultCode::JoinReqFailed => "JoinReqFailed",
            ResultCode::MicFailed => "MICFailed",
            ResultCode::InvalidFPort => "InvalidFPort",
            ResultCode::XmitFailed => "XmitFailed",
            ResultCode::Other => "Other",
        }
    }
}

/// Why a request is refused: the causes in the order in which they are tried, and then what the
/// peer that was asked for it comes to.
#[derive(Debug, PartialEq, Eq, Drop)]
pub enum Refusal {
    /// The body is no readable message.
    Message,
    /// ProtocolVersion is neither 1.0 nor 1.1.
    Version,
    /// The desk doesn't know who sends it.
    Sender,
    /// It isn't meant for this desk.
    Receiver,
    /// Such a sender doesn't send this MessageType.
    Type,
    /// An ask that isn't answered yet has the very body.
    Asked,
    /// PHYPayload has a length that no such frame has, or FRMPayload more bytes than a frame takes.
    Size,
    /// PHYPayload isn't a frame of the message's kind, or another member doesn't go with it.
    Frame,
    /// There is no such device.
    Device,
    /// No context has the frame's address.
    Address,
    /// The sender isn't the device's home.
    Home,
    /// The device is suspended.
    Suspended,
    /// The frame names another JoinEUI or NetID than the device's.
    Eui,
    /// The frame's MIC isn't valid.
    Mic,
    /// The frame's counter isn't above the last one.
    Counter,
    /// The device has no further JoinNonce.
    Spent,
    /// The network has no further address for the device.
    AddressesSpent,
    /// An application has no such FPort.
    Port,
    /// The device has no active context with this SessionKeyID.
    XmitSession,
    /// FCntDown is below the next one.
    XmitCounter,
    /// As many downlinks wait for the device as may.
    QueueFull,
    /// No session has this SessionKeyID.
    Session,
    /// The ask isn't open any more.
    PeerLate,
    /// The peer couldn't be asked.
    PeerFailed,
    /// What the peer said is no answer to the ask.
    PeerAnswer,
    /// The peer refused with this ResultCode, of ASCII letters and digits.
    PeerSaid { code: Text },
}

impl Refusal {
    // The table of the refusals: number, ResultCode, and the words of the Description.
    #[tactic(auto, unfolding(crate::specs::Refusals::row_of))]
    fn row(&self) -> (Option<u8>, ResultCode, &'static str)
        ensures number { result.0 ≡ (row_of self.now).number }
        ensures code { result.1 ≡ (row_of self.now).code }
        ensures words { result.2.now ≡ (row_of self.now).words }
    {
        match self {
            Refusal::Message => (Some(1), ResultCode::MalformedRequest, "message"),
            Refusal::Version => (Some(2), ResultCode::InvalidProtocolVersion, "version"),
            Refusal::Sender => (Some(3), ResultCode::UnknownSender, "sender"),
            Refusal::Receiver => (Some(4), ResultCode::UnknownReceiver, "receiver"),
            Refusal::Type => (Some(5), ResultCode::MalformedRequest, "type"),
            Refusal::Asked => (Some(7), ResultCode::Deferred, "asked"),
            Refusal::Size => (Some(8), ResultCode::FrameSizeError, "size"),
            Refusal::Frame => (Some(9), ResultCode::MalformedRequest, "frame"),
            Refusal::Device => (Some(10), ResultCode::UnknownDevEui, "device"),
            Refusal::Address => (Some(11), ResultCode::UnknownDevAddr, "address"),
            Refusal::Home => (Some(12), ResultCode::ActivationDisallowed, "home"),
            Refusal::Suspended => (Some(13), ResultCode::ActivationDisallowed, "suspended"),
            Refusal::Eui => (Some(18), ResultCode::JoinReqFailed, "eui"),
            Refusal::Mic => (Some(19), ResultCode::MicFailed, "mic"),
            Refusal::Counter => (Some(20), ResultCode::JoinReqFailed, "counter"),
            Refusal::Spent => (Some(21), ResultCode::JoinReqFailed, "spent"),
            Refusal::AddressesSpent => (Some(22), ResultCode::Other, "addresses spent"),
            Refusal::Port => (Some(23), ResultCode::InvalidFPort, "port"),
            Refusal::XmitSession => (Some(24), ResultCode::XmitFailed, "session"),
            Refusal::XmitCounter => (Some(25), ResultCode::XmitFailed, "counter"),
            Refusal::QueueFull => (Some(26), ResultCode::XmitFailed, "queue full"),
            Refusal::Session => (Some(27), ResultCode::Other, "session"),
            Refusal::PeerLate => (None, ResultCode::Other, "peer late"),
            Refusal::PeerFailed => (None, ResultCode::Other, "peer failed"),
            Refusal::PeerAnswer => (None, ResultCode::Other, "peer answer"),
            Refusal::PeerSaid { code: _ } => (None, ResultCode::Other, "peer said "),
        }
    }

    /// Its place in the order of refusals: of several causes the least number is answered. None
    /// where a peer was asked.
    pub fn number(&self) -> Option<u8>
        ensures { result ≡ number_of self.now }
    {
        self.row().0
    }

    /// Its ResultCode.
    pub fn code(&self) -> ResultCode
        ensures { result ≡ code_of self.now }
    {
        self.row().1
    }

    /// The words of its Description, which [`said`](Refusal::said) completes.
    pub fn words(&self) -> &'static str
        ensures { result.now ≡ words_of self.now }
    {
        self.row().2
    }

    /// What its Description has behind the words: the ResultCode that a peer said, and nothing at
    /// any other cause.
    pub fn said(&self) -> &[u8]
        ensures { result.now ≡ said_of self.now }
    {
        match self {
            Refusal::PeerSaid { code } => code.as_slice(),
            _ => &[],
        }
    }
}
