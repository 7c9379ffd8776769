use crate::EuiList;
use wire_ids::{Eui, NetId, Text};

/// The row `[desk]`: the desk's own names, and what its join-accepts tell.
#[derive(Drop)]
pub struct DeskRow {
    /// The desk's own NetID.
    pub net_id: NetId,
    /// The JoinEUIs that the desk answers for: one to sixteen, none twice.
    pub join_euis: EuiList,
    /// The byte DLSettings (LoRaWAN 1.1, 6.2.3): OptNeg is set, and RX1DROffset is at most 5.
    pub dl_settings: u8,
    /// RxDelay in seconds, 0 to 15; 0 means one second.
    pub rx_delay: u8,
    /// The CFList of sixteen bytes, the last of which is 0, where there is one.
    pub cf_list: Option<[u8; 16]>,
    /// The Lifetime that a join answer tells, in seconds, from 1.
    pub lifetime_s: u32,
    /// How long a peer's answer is awaited, in seconds, 1 to 600.
    pub ask_s: u32,
}

/// A row `[[network]]`: a network that asks the desk or is asked by it. It has no `Debug`, since it
/// holds a key.
#[derive(Drop)]
pub struct NetworkRow {
    /// Its NetID, which isn't the desk's own.
    pub net_id: NetId,
    /// The label of its key encryption key: 1 to 32 bytes from 0x21 to 0x7e.
    pub kek_label: Text,
    /// The key encryption key, under which it is given session keys (RFC 3394).
    pub kek: [u8; 16],
    /// Where it is asked: 1 to 64 bytes from 0x21 to 0x7e, meant to be host:port.
    pub address: Text,
}

/// Which passive roaming an agreement allows.
#[derive(Clone, Copy, Debug, PartialEq, Eq)]
pub enum Passive {
    /// `"none"`.
    Nothing,
    /// `"stateless"`: each uplink is asked about anew.
    Stateless,
    /// `"stateful"`: one answer covers the uplinks of a time.
    Stateful,
}

/// A row `[[agreement]]`: what was agreed with a network.
#[derive(Drop)]
pub struct AgreementRow {
    /// The network's NetID, which has a row.
    pub net_id: NetId,
    /// The passive roaming that is allowed.
    pub passive: Passive,
    /// The lifetime of a stateful passive session, in seconds, 1 to 2^31.
    pub passive_s: u32,
    /// Whether handover roaming is allowed.
    pub handover: bool,
    /// The lifetime of a handover, in seconds, 1 to 2^31.
    pub handover_s: u32,
    /// Whether a device may be activated while it roams.
    pub activation: bool,
}

/// A row `[[join_server]]`: another join server.
#[derive(Drop)]
pub struct JoinServerRow {
    /// Its JoinEUI, which isn't one of the desk's.
    pub join_eui: Eui,
    /// Where it is asked: 1 to 64 bytes from 0x21 to 0x7e, meant to be host:port.
    pub address: Text,
}

/// A row `[[application]]`: an application, which devices belong to. It has no `Debug`, since it
/// holds a key.
#[derive(Drop)]
pub struct ApplicationRow {
    /// Its name, which is no JoinEUI.
    pub app_id: Eui,
    /// The label of its key encryption key: 1 to 32 bytes from 0x21 to 0x7e, no network's label.
    pub kek_label: Text,
    /// The key encryption key, under which it is given AppSKeys (RFC 3394).
    pub kek: [u8; 16],
}

/// A row `[[gateway]]`.
#[derive(Drop)]
pub struct GatewayRow {
    /// Its name, which is no JoinEUI and no application's.
    pub gateway_id: Eui,
}

/// A row `[[device]]`: a device and its root keys (LoRaWAN 1.1, 6.1.1). It has no `Debug`, since it
/// holds keys.
#[derive(Drop)]
pub struct DeviceRow {
    /// Its DevEUI, which no other device has.
    pub dev_eui: Eui,
    /// Its JoinEUI, one of the desk's.
    pub join_eui: Eui,
    /// Its NwkKey.
    pub nwk_key: [u8; 16],
    /// Its AppKey.
    pub app_key: [u8; 16],
    /// The NetID of its home network: the desk's own, or one that has a row.
    pub home: NetId,
    /// The application that it belongs to, which has a row.
    pub app: Eui,
    /// Whether it may roam.
    pub roaming: bool,
    /// Whether its join answers carry the AppSKey.
    pub carry_app: bool,
    /// The DeviceProfileTimestamp: at most 32 bytes from 0x21 to 0x7e.
    pub profile_time: Text,
}
