use crate::UsedSeed;
use wire_ids::{DevAddr, Eui, Moment, NetId, Nonce24, Radio, ShortText};

/// What a request that was answered with Success changed.
#[derive(Drop)]
pub enum Change {
    /// A join.
    Join(Joined),
    /// A rejoin.
    Rejoin(Rejoined),
    /// A join or rejoin for another network, to which the device is then lent.
    Lent(Lending),
    /// An uplink.
    Up(Uplink),
    /// An uplink that another network forwarded, which grants it a session.
    Passive(PassiveUplink),
    /// A payload of the application that waits for a downlink.
    Queue(Queued),
    /// What another network stopped.
    Dropped(Stopped),
}

/// The context that this desk gives a device at home here.
#[derive(Clone, Copy)]
pub struct OwnContext {
    pub dev_addr: DevAddr,
    pub radio: Radio,
}

/// A join, by the device's number in the tables.
#[derive(Clone, Copy)]
pub struct Joined {
    pub device: u32,
    /// The DevNonce.
    pub counter: u16,
    pub join_nonce: Nonce24,
    pub own: Option<OwnContext>,
}

/// A rejoin, by the device's number in the tables.
#[derive(Clone, Copy)]
pub struct Rejoined {
    pub device: u32,
    pub used: UsedSeed,
    /// The RJcount0 or RJcount1.
    pub counter: u16,
    pub join_nonce: Nonce24,
    pub own: Option<OwnContext>,
}

/// A join, or a rejoin with its used seed, for the network to which the device is lent.
#[derive(Clone, Copy)]
pub struct Lending {
    pub used: Option<UsedSeed>,
    pub device: u32,
    /// The DevNonce, RJcount0 or RJcount1.
    pub counter: u16,
    pub join_nonce: Nonce24,
    pub net: NetId,
    pub until: Moment,
}

/// The downlink that answers an uplink.
#[derive(Clone, Copy, Debug, PartialEq, Eq)]
pub enum Downlink {
    Nothing,
    /// An empty one, under the context's next NFCntDown number.
    Empty,
    /// The first item of the context's queue.
    FirstItem,
}

/// An uplink of a device at home here, or of a visitor.
#[derive(Drop)]
pub struct Uplink {
    pub dev_eui: Eui,
    /// Whether it was heard under the pending context.
    pub pending: bool,
    /// Its full counter.
    pub count: u32,
    pub frame: ShortText,
    /// The channel for which its MIC is valid.
    pub channel: u8,
    pub down: Downlink,
}

/// An uplink that a network forwarded, and until when it may go on.
#[derive(Drop)]
pub struct PassiveUplink {
    pub up: Uplink,
    pub net: NetId,
    pub until: Moment,
}

/// An item for the queue of a device's active context.
#[derive(Drop)]
pub struct Queued {
    pub device: u32,
    /// Its AFCntDown number.
    pub number: u32,
    pub port: u8,
    pub confirmed: bool,
    pub payload: ShortText,
}

/// What of a device's roaming ends.
#[derive(Clone, Copy, Debug, PartialEq, Eq)]
pub enum RoamingKind {
    /// The held sessions with the sender.
    Held,
    /// The lending to the sender.
    Lent,
    /// The visitor whose home the sender is.
    Visitor,
}

/// The end of a device's roaming.
#[derive(Clone, Copy)]
pub struct Stopped {
    pub dev_eui: Eui,
    pub what: RoamingKind,
}
