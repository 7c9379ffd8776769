ghost use Rattle.std.specs.Prelude.{◌≡◌};
ghost use Rattle.backend_json.specs.Seen.{seen};
ghost use Rattle.backend_json.specs.Members.{GivesMember};
ghost use Rattle.backend_json.specs.Requests.{app_s_key_req_in, home_ns_req_in, join_req_in};
ghost use Rattle.backend_json.specs.Requests.{radio_in, request_in, uplink_req_in};
ghost use Rattle.backend_json.specs.Requests.{xmit_data_req_in, xmit_in, xmit_uplink_in};
ghost use Rattle.backend_json.specs.Types.{sender_of};

use crate::form::{Below, Byte, Bytes, CfList};
use crate::member::{Gap, Key, needed, optional};
use crate::{MessageType, SenderKind, SessionKeyId};
use json::Value;
use std::alloc::Global;
use wire_ids::{DevAddr, Eui, Radio, Text};

/// The members of a JoinReq or a RejoinReq.
#[derive(Drop)]
pub struct JoinRequest {
    /// MACVersion, any text.
    pub mac_version: Text,
    /// PHYPayload, of any number of bytes.
    pub phy_payload: Text,
    pub dev_eui: Eui,
    pub dev_addr: DevAddr,
    /// DLSettings, any byte; RxDelay, from 0 to 15; and the CFList, where the member stands there
    /// and has digits.
    pub radio: Radio,
}

/// The members of an AppSKeyReq.
#[derive(Clone, Copy)]
pub struct AppSKeyRequest {
    pub dev_eui: Eui,
    pub session_key_id: SessionKeyId,
}

/// The members of a HomeNSReq.
#[derive(Clone, Copy)]
pub struct HomeNsRequest {
    pub dev_eui: Eui,
}

/// The members of an UplinkReq.
#[derive(Drop)]
pub struct UplinkRequest {
    /// PHYPayload, of any number of bytes.
    pub phy_payload: Text,
    /// DataRate, from 0 to 7.
    pub data_rate: u8,
}

/// The members of an XmitDataReq of an application: a downlink for its device.
#[derive(Drop)]
pub struct XmitDataRequest {
    /// FRMPayload, of any number of bytes, as the application encrypted it.
    pub frm_payload: Text,
    /// SessionKeyID, of the AppSKey under which it did so.
    pub session_key_id: SessionKeyId,
    /// DLMetaData.DevEUI.
    pub dev_eui: Eui,
    /// DLMetaData.FPort, any byte.
    pub f_port: u8,
    /// DLMetaData.FCntDown, the AFCntDown with which it did so.
    pub f_cnt_down: u32,
    /// DLMetaData.Confirmed, and false where the member is missing.
    pub confirmed: bool,
}

/// The members of an XmitDataReq with PHYPayload: an uplink that a network passes on.
#[derive(Drop)]
pub struct XmitUplinkRequest {
    /// PHYPayload, of any number of bytes.
    pub phy_payload: Text,
    /// ULMetaData.DataRate, from 0 to 7.
    pub data_rate: u8,
}

/// What a message asks: the members that its type has beside the head.
#[derive(Drop)]
pub enum Request {
    JoinReq(JoinRequest),
    RejoinReq(JoinRequest),
    AppSKeyReq(AppSKeyRequest),
    HomeNSReq(HomeNsRequest),
    UplinkReq(UplinkRequest),
    /// An XmitDataReq without PHYPayload.
    XmitDataReq(XmitDataRequest),
    /// An XmitDataReq with PHYPayload, whatever its value.
    XmitUplink(XmitUplinkRequest),
    /// Of a type that isn't served no further member was read.
    Unknown,
}

impl Request {
    /// Of which kind the senders of such a request are. An XmitDataReq with PHYPayload is a
    /// network's, and isn't served yet.
    #[tactic(auto, unfolding(crate::specs::Types::sender_of))]
    pub fn sender(&self) -> SenderKind
        ensures { result ≡ sender_of self.now }
    {
        match self {
            Request::JoinReq(_) | Request::RejoinReq(_) => SenderKind::Network,
            Request::AppSKeyReq(_) => SenderKind::Application,
            Request::HomeNSReq(_) => SenderKind::Network,
            Request::UplinkReq(_) => SenderKind::Gateway,
            Request::XmitDataReq(_) => SenderKind::Application,
            Request::XmitUplink(_) => SenderKind::Nobody,
            Request::Unknown => SenderKind::Nobody,
        }
    }
}

// The radio parameters: DLSettings, RxDelay and CFList.
#[tactic(auto, unfolding(crate::specs::Requests::radio_in))]
fn radio(alloc: Global, value: &Value<'_>) -> Result<Radio, Gap>
    ensures { GivesMember result (radio_in (seen value.now)) }
{
    let Byte(dl) = needed(alloc, value, Key::DlSettings)?;
    let rx_delay: Below<16> = needed(alloc, value, Key::RxDelay)?;
    let cf_list: Option<CfList> = optional(alloc, value, Key::CfList)?;
    Ok(Radio {
        dl,
        rx_delay: rx_delay.0,
        cf: match cf_list {
            Some(CfList(cf)) => cf,
            None => None,
        },
    })
}

#[tactic(auto, unfolding(crate::specs::Requests::join_req_in))]
fn join_req(alloc: Global, value: &Value<'_>) -> Result<JoinRequest, Gap>
    ensures { GivesMember result (join_req_in (seen value.now)) }
{
    let mac_version = needed(alloc, value, Key::MacVersion)?;
    let Bytes(phy_payload) = needed(alloc, value, Key::PhyPayload)?;
    let dev_eui = needed(alloc, value, Key::DevEui)?;
    let dev_addr = needed(alloc, value, Key::DevAddr)?;
    let radio = radio(alloc, value)?;
    Ok(JoinRequest {
        mac_version,
        phy_payload,
        dev_eui,
        dev_addr,
        radio,
    })
}

#[tactic(auto, unfolding(crate::specs::Requests::app_s_key_req_in))]
fn app_s_key_req(alloc: Global, value: &Value<'_>) -> Result<AppSKeyRequest, Gap>
    ensures { GivesMember result (app_s_key_req_in (seen value.now)) }
{
    let dev_eui = needed(alloc, value, Key::DevEui)?;
    let session_key_id = needed(alloc, value, Key::SessionKeyId)?;
    Ok(AppSKeyRequest {
        dev_eui,
        session_key_id,
    })
}

#[tactic(auto, unfolding(crate::specs::Requests::home_ns_req_in))]
fn home_ns_req(alloc: Global, value: &Value<'_>) -> Result<HomeNsRequest, Gap>
    ensures { GivesMember result (home_ns_req_in (seen value.now)) }
{
    let dev_eui = needed(alloc, value, Key::DevEui)?;
    Ok(HomeNsRequest { dev_eui })
}

#[tactic(auto, unfolding(crate::specs::Requests::uplink_req_in))]
fn uplink_req(alloc: Global, value: &Value<'_>) -> Result<UplinkRequest, Gap>
    ensures { GivesMember result (uplink_req_in (seen value.now)) }
{
    let Bytes(phy_payload) = needed(alloc, value, Key::PhyPayload)?;
    let data_rate: Below<8> = needed(alloc, value, Key::DataRate)?;
    Ok(UplinkRequest {
        phy_payload,
        data_rate: data_rate.0,
    })
}

#[tactic(auto, unfolding(crate::specs::Requests::xmit_data_req_in))]
fn xmit_data_req(alloc: Global, value: &Value<'_>) -> Result<XmitDataRequest, Gap>
    ensures { GivesMember result (xmit_data_req_in (seen value.now)) }
{
    let Bytes(frm_payload) = needed(alloc, value, Key::FrmPayload)?;
    let session_key_id = needed(alloc, value, Key::SessionKeyId)?;
    let dev_eui = needed(alloc, value, Key::DownlinkDevEui)?;
    let f_port = needed(alloc, value, Key::FPort)?;
    let f_cnt_down = needed(alloc, value, Key::FCntDown)?;
    let confirmed: Option<bool> = optional(alloc, value, Key::Confirmed)?;
    Ok(XmitDataRequest {
        frm_payload,
        session_key_id,
        dev_eui,
        f_port,
        f_cnt_down,
        confirmed: confirmed.unwrap_or(false),
    })
}

#[tactic(auto, unfolding(crate::specs::Requests::xmit_uplink_in))]
fn xmit_uplink(alloc: Global, value: &Value<'_>) -> Result<XmitUplinkRequest, Gap>
    ensures { GivesMember result (xmit_uplink_in (seen value.now)) }
{
    let Bytes(phy_payload) = needed(alloc, value, Key::PhyPayload)?;
    let data_rate: Below<8> = needed(alloc, value, Key::UplinkDataRate)?;
    Ok(XmitUplinkRequest {
        phy_payload,
        data_rate: data_rate.0,
    })
}

// An XmitDataReq is an uplink where it has the name PHYPayload, and else a downlink.
#[tactic(auto, unfolding(crate::specs::Requests::xmit_in))]
fn xmit(alloc: Global, value: &Value<'_>) -> Result<Request, Gap>
    ensures { GivesMember result (xmit_in (seen value.now)) }
{
    if Key::PhyPayload.find(value).is_some() {
        return Ok(Request::XmitUplink(xmit_uplink(alloc, value)?));
    }
    Ok(Request::XmitDataReq(xmit_data_req(alloc, value)?))
}

#[tactic(auto, unfolding(crate::specs::Requests::request_in))]
pub(crate) fn read_request(
    alloc: Global,
    kind: MessageType,
    value: &Value<'_>,
) -> Result<Request, Gap>
    ensures { GivesMember result (request_in kind (seen value.now)) }
{
    Ok(match kind {
        MessageType::JoinReq => Request::JoinReq(join_req(alloc, value)?),
        MessageType::RejoinReq => Request::RejoinReq(join_req(alloc, value)?),
        MessageType::AppSKeyReq => Request::AppSKeyReq(app_s_key_req(alloc, value)?),
        MessageType::HomeNSReq => Request::HomeNSReq(home_ns_req(alloc, value)?),
        MessageType::UplinkReq => Request::UplinkReq(uplink_req(alloc, value)?),
        MessageType::XmitDataReq => xmit(alloc, value)?,
        MessageType::Unknown => Request::Unknown,
    })
}
