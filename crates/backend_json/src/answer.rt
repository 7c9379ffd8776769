use crate::{Head, Refusal, SessionKeyId};
use std::marker::Model;
use wire_ids::{Eui, NetId, Text};

/// An answer to a body.
#[derive(Drop)]
pub enum Answer<'a> {
    /// The body has no readable head, and is refused as no readable message.
    Headless,
    /// To a request with this head.
    Headed { head: Head, outcome: Outcome<'a> },
}

/// What a request came to.
#[derive(Drop)]
pub enum Outcome<'a> {
    Refused(Refusal),
    JoinAns(JoinAnswer<'a>),
    RejoinAns(JoinAnswer<'a>),
    AppSKeyAns(AppSKeyAnswer<'a>),
    HomeNSAns(HomeNsAnswer),
    UplinkAns(UplinkAnswer),
    XmitDataAns(XmitDataAnswer),
}

/// The label of a KEK, as it stands in the tables. Contracts see its bytes.
#[derive(Drop)]
pub struct KekLabel<'a> {
    label: &'a Text,
}

impl<'a> Model for KekLabel<'a> {
    ghost use Rattle.std.specs.Prelude.{List, ℕ};

    ghost Value = { List ℕ };

    ghost view = { λ l. l.label.now };
}

ghost use Rattle.std.specs.Prelude.{◌≡◌};

impl<'a> KekLabel<'a> {
    pub fn new(label: &'a Text) -> KekLabel<'a>
        ensures { result ≡ label.now }
    {
        KekLabel { label }
    }

    /// Its bytes.
    pub fn as_slice(&self) -> &[u8]
        ensures { result.now ≡ self.now }
    {
        self.label.as_slice()
    }
}

/// A key under the KEK of this label, wrapped by RFC 3394.
#[derive(Drop)]
pub struct KeyEnvelope<'a> {
    pub kek_label: KekLabel<'a>,
    pub aes_key: [u8; 24],
}

/// The keys of a session that an answer carries.
#[derive(Drop)]
pub struct AnswerKeys<'a> {
    pub f_nwk_s_int_key: Option<KeyEnvelope<'a>>,
    pub s_nwk_s_int_key: Option<KeyEnvelope<'a>>,
    pub nwk_s_enc_key: Option<KeyEnvelope<'a>>,
    pub app_s_key: Option<KeyEnvelope<'a>>,
}

/// The members of a JoinAns or a RejoinAns of Success.
#[derive(Drop)]
pub struct JoinAnswer<'a> {
    /// PHYPayload: the join-accept.
    pub phy_payload: Text,
    /// Lifetime, in seconds.
    pub lifetime: u32,
    pub keys: AnswerKeys<'a>,
    pub session_key_id: SessionKeyId,
}

/// The members of an AppSKeyAns of Success.
#[derive(Drop)]
pub struct AppSKeyAnswer<'a> {
    pub dev_eui: Eui,
    pub app_s_key: Option<KeyEnvelope<'a>>,
    pub session_key_id: SessionKeyId,
}

/// The members of a HomeNSAns of Success.
#[derive(Clone, Copy)]
pub struct HomeNsAnswer {
    /// HNetID: the NetID of the device's home.
    pub h_net_id: NetId,
}

/// The members of an UplinkAns of Success.
#[derive(Drop)]
pub struct UplinkAnswer {
    pub dev_eui: Eui,
    /// FCntUp: the full counter of an uplink; a join- or rejoin-request has none.
    pub f_cnt_up: Option<u32>,
    /// PHYPayload: the join-accept or the downlink, where there is one.
    pub phy_payload: Option<Text>,
    /// SessionKeyID, where the session began with a join- or rejoin-request to this desk.
    pub session_key_id: Option<SessionKeyId>,
}

/// The members of an XmitDataAns of Success.
#[derive(Drop)]
pub struct XmitDataAnswer {
    /// PHYPayload: the downlink to an uplink that was passed on, where there is one. An
    /// application, whose downlink waits for an uplink, is given none.
    pub phy_payload: Option<Text>,
}
