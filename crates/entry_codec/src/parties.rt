use contexts::Slots;
use entries::Target;
use wire_ids::{Eui, Moment, NetId, Sender, ShortText};

/// Who has contexts: a device of the tables, by its number, or a visitor.
#[derive(Clone, Copy, Debug, PartialEq, Eq)]
pub enum Holder {
    Device(u32),
    Visitor(Eui),
}

/// Where a context is: whose it is, and whether it is the pending one.
#[derive(Clone, Copy, Debug, PartialEq, Eq)]
pub struct LiveContext {
    pub holder: Holder,
    pub pending: bool,
}

/// A device that another network lent to this desk by a handover.
#[derive(Drop)]
pub struct Visitor {
    pub dev_eui: Eui,
    pub home: NetId,
    pub until: Moment,
    pub slots: Slots,
}

/// A request that waits for a peer.
#[derive(Drop)]
pub struct OpenAsk {
    /// The number of its entry.
    pub number: u64,
    pub sender: Sender,
    pub body: ShortText,
    pub target: Target,
    pub ends: Moment,
}
