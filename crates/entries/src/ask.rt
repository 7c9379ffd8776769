use wire_ids::{DevAddr, Eui, Moment, NetId, PeerId, Radio, Sender, SessionKeys, ShortText};

/// What a peer is asked.
#[derive(Clone, Copy, Debug, PartialEq, Eq)]
pub enum AskKind {
    HomeNS,
    HRStart,
    PRStart,
    XmitData,
}

/// The RJcount0 of a visitor's rejoin of type 0 or 2.
#[derive(Clone, Copy)]
pub struct RejoinCount {
    pub count: u16,
    /// Whether it was checked under the pending context.
    pub pending: bool,
}

/// What an ask is about.
#[derive(Drop)]
pub struct Target {
    pub kind: AskKind,
    pub peer: PeerId,
    /// The device, where the frame is a join or a rejoin.
    pub dev_eui: Option<Eui>,
    /// The address that a device gets by a handover.
    pub dev_addr: Option<DevAddr>,
    /// The radio parameters that a device gets by a handover.
    pub radio: Option<Radio>,
    pub rejoin: Option<RejoinCount>,
    /// What the gateway heard.
    pub frame: ShortText,
    /// The data rate at which it was heard.
    pub rate: u8,
}

/// An ask that opens. It has the number of its entry.
#[derive(Drop)]
pub struct NewAsk {
    /// The ask in whose place it comes.
    pub closes: Option<u64>,
    /// The gateway whose request waits for the peer's answer.
    pub sender: Sender,
    /// The request's body.
    pub body: ShortText,
    pub target: Target,
    /// The moment at which it is no longer open.
    pub ends: Moment,
}

/// A visitor that the home network's answer makes or renews.
#[derive(Clone, Copy)]
pub struct NewVisitor {
    pub dev_eui: Eui,
    pub home: NetId,
    pub dev_addr: DevAddr,
    pub radio: Radio,
    pub keys: SessionKeys,
    pub until: Moment,
}

/// A passive session that a network granted.
#[derive(Clone, Copy)]
pub struct HeldSession {
    pub net: NetId,
    pub dev_addr: DevAddr,
    pub dev_eui: Eui,
    /// FNwkSIntKey.
    pub f: [u8; 16],
    /// The full counter of its last uplink.
    pub count: u32,
    pub until: Moment,
}

/// The full counter of the last uplink of a held session.
#[derive(Clone, Copy)]
pub struct HeldCount {
    pub net: NetId,
    pub dev_addr: DevAddr,
    pub count: u32,
}

/// What an ask leads to.
#[derive(Clone, Copy)]
pub enum Effect {
    Nothing,
    Visitor(NewVisitor),
    Held(HeldSession),
    Counter(HeldCount),
}

/// How an ask ends.
#[derive(Drop)]
pub struct AskOutcome {
    /// The number of the ask.
    pub ask: u64,
    /// Whether the answer is kept for the ask's sender and body, as it is on Success.
    pub kept: bool,
    pub answer: ShortText,
    pub effect: Effect,
}
