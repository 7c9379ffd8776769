use entries::{
    AskKind, AskOutcome, Change, Downlink, Effect, Entry, Event, HeldCount, HeldSession, Joined,
    Lending, NewAsk, NewVisitor, OwnContext, PassiveUplink, Queued, RejoinCount, Rejoined, Request,
    RoamingKind, SeedPlace, Stopped, Target, Uplink, UsedSeed, decode, encode,
};
use std::alloc::Global;
use std::process::Abort;
use std::test::Fail;
use wire_ids::{
    DevAddr, Eui, LongText, Moment, NetId, Nonce24, PeerId, Radio, Sender, SessionKeys, ShortText,
};

// Entries of the moment 1,000, written out by hand: the tag, the moment, the fields.

const OPENED: &[u8] = &[1, 0, 0, 0, 0, 0, 0, 3, 0xe8];

const TABLES: &[u8] = &[2, 0, 0, 0, 0, 0, 0, 3, 0xe8, 0, 0, 0, 1, b't'];

const JOIN: &[u8] = &[
    3, 0, 0, 0, 0, 0, 0, 3, 0xe8, //
    0, 0, 0, 0x14, 0, 2, b'a', b'b', 0, 1, b'c', // sender, body, answer
    0, 0, 0, 1, 0, 7, 0, 0, 1, // device, counter, JoinNonce
    1, 0x26, 0, 0, 1, 0x80, 1, 0, // own context
];

const REJOIN: &[u8] = &[
    4, 0, 0, 0, 0, 0, 0, 3, 0xe8, //
    0, 0, 0, 0x14, 0, 2, b'a', b'b', 0, 1, b'c', // sender, body, answer
    1, 2, 3, 4, 2, 3, 1, 2, 10, 11, 12, // device, kind, used seed, counter, JoinNonce
    0, // own context
];

const REJOIN_1: &[u8] = &[
    4, 0, 0, 0, 0, 0, 0, 3, 0xe8, //
    0, 0, 0, 0x14, 0, 2, b'a', b'b', 0, 1, b'c', // sender, body, answer
    1, 2, 3, 4, 1, 0xff, 1, 2, 10, 11, 12, // device, kind, used seed, counter, JoinNonce
    0, // own context
];

const LENT: &[u8] = &[
    5, 0, 0, 0, 0, 0, 0, 3, 0xe8, //
    1, 0, 3, // kind, used seed
    0, 0, 0, 0x14, 0, 2, b'a', b'b', 0, 1, b'c', // sender, body, answer
    0, 0, 0, 3, 0, 0, 0, 0, 2, 0x60, 0, 5, // device, counter, JoinNonce, NetID
    0, 0, 0, 0, 1, 2, 3, 4, // until
];

const UP: &[u8] = &[
    6, 0, 0, 0, 0, 0, 0, 3, 0xe8, //
    0, 0, 0, 0x14, 0, 2, b'a', b'b', 0, 1, b'c', // sender, body, answer
    0x70, 0xb3, 0xd5, 0x7e, 0xd0, 0, 0x10, 0x21, 1, 0, 0, 0, 5, // DevEUI, pending, count
    0, 3, 0x40, 0x41, 0x42, 2, 1, // frame, channel, down
];

const PASSIVE: &[u8] = &[
    7, 0, 0, 0, 0, 0, 0, 3, 0xe8, //
    0, 0, 0, 0x14, 0, 2, b'a', b'b', 0, 1, b'c', // sender, body, answer
    0x70, 0xb3, 0xd5, 0x7e, 0xd0, 0, 0x10, 0x21, 0, 0, 0, 0, 5, // DevEUI, pending, count
    0, 3, 0x40, 0x41, 0x42, 2, 2, // frame, channel, down
    0, 0, 0x15, 0, 0, 0, 0, 0, 0, 6, 0x40, // NetID, until
];

const QUEUE: &[u8] = &[
    8, 0, 0, 0, 0, 0, 0, 3, 0xe8, //
    0, 0, 0, 0x14, 0, 2, b'a', b'b', 0, 1, b'c', // sender, body, answer
    0, 0, 0, 1, 0, 1, 0, 0, 1, 1, 0, 1, 0xaa, // device, number, port, confirmed, payload
];

const ASKED: &[u8] = &[
    9, 0, 0, 0, 0, 0, 0, 3, 0xe8, //
    1, 0, 0, 0, 0, 0, 0, 0, 4, // the closed ask
    1, 0xb0, 0, 0, 0, 0, 0, 0, 1, 0, 2, b'a', b'b', // sender, body
    1, 1, 0, 0, 0, 0, 0, 0, 0, 2, // kind, peer
    1, 0x70, 0xb3, 0xd5, 0x7e, 0xd0, 0, 0x10, 0x21, 1, 0x26, 0, 0, 2, // DevEUI, DevAddr
    1, 0x92, 15, 1, 9, 9, 9, 9, 9, 9, 9, 9, 9, 9, 9, 9, 9, 9, 9, 9, // radio
    1, 0, 9, 1, 0, 1, 0xc0, 5, // RJcount0 and pending, frame, rate
    0, 0, 0, 0, 0, 0, 4, 6, // ends
];

const TOLD: &[u8] = &[
    10, 0, 0, 0, 0, 0, 0, 3, 0xe8, //
    0, 0, 0, 0, 0, 0, 0, 4, 1, 0, 1, b'c', 0, // ask, kept, answer, effect
];

const TOLD_OF_VISITOR: &[u8] = &[
    10, 0, 0, 0, 0, 0, 0, 3, 0xe8, //
    0, 0, 0, 0, 0, 0, 0, 4, 1, 0, 1, b'c', 1, // ask, kept, answer, effect
    0x70, 0xb3, 0xd5, 0x7e, 0xd0, 0, 0x10, 0x21, 0, 0, 0x14, // DevEUI, home
    0x26, 0, 0, 2, 0x80, 1, 0, // DevAddr, radio
    1, 1, 1, 1, 1, 1, 1, 1, 1, 1, 1, 1, 1, 1, 1, 1, // FNwkSIntKey
    2, 2, 2, 2, 2, 2, 2, 2, 2, 2, 2, 2, 2, 2, 2, 2, // SNwkSIntKey
    3, 3, 3, 3, 3, 3, 3, 3, 3, 3, 3, 3, 3, 3, 3, 3, // NwkSEncKey
    0, 0, 0, 0, 0, 0, 0x11, 0xf8, // until
];

const TOLD_OF_SESSION: &[u8] = &[
    10, 0, 0, 0, 0, 0, 0, 3, 0xe8, //
    0, 0, 0, 0, 0, 0, 0, 4, 1, 0, 1, b'c', 2, // ask, kept, answer, effect
    0, 0, 0x14, 0x28, 0, 0, 1, // NetID, DevAddr
    0x70, 0xb3, 0xd5, 0x7e, 0xd0, 0, 0x10, 0x21, // DevEUI
    1, 1, 1, 1, 1, 1, 1, 1, 1, 1, 1, 1, 1, 1, 1, 1, // FNwkSIntKey
    0, 0, 0, 6, 0, 0, 0, 0, 0, 0, 6, 0x40, // count, until
];

const TOLD_OF_COUNTER: &[u8] = &[
    10, 0, 0, 0, 0, 0, 0, 3, 0xe8, //
    0, 0, 0, 0, 0, 0, 0, 4, 1, 0, 1, b'c', 3, // ask, kept, answer, effect
    0, 0, 0x14, 0x28, 0, 0, 1, 0, 0, 0, 7, // NetID, DevAddr, count
];

const DROPPED: &[u8] = &[
    11, 0, 0, 0, 0, 0, 0, 3, 0xe8, //
    0, 0, 0, 0x14, 0, 2, b'a', b'b', 0, 1, b'c', // sender, body, answer
    0x70, 0xb3, 0xd5, 0x7e, 0xd0, 0, 0x10, 0x21, 2, // DevEUI, what
];

const SUSPEND: &[u8] = &[12, 0, 0, 0, 0, 0, 0, 3, 0xe8, 1, 2, 3, 4];

const RESUME: &[u8] = &[13, 0, 0, 0, 0, 0, 0, 3, 0xe8, 0, 0, 0, 5];

const DEVICE: Eui = Eui(0x70b3d57ed0001021);

const RADIO: Radio = Radio {
    dl: 0x80,
    rx_delay: 1,
    cf: None,
};

fn short(alloc: Global, bytes: &[u8]) -> Result<ShortText, Fail> {
    Ok(ShortText::of_slice(alloc, bytes)?.ok_or("length")?)
}

// An entry that is spelled so, and read from it, but neither from a byte less nor from a byte more.
fn check(rt: &impl Abort, alloc: Global, event: Event, want: &[u8]) -> Result<(), Fail> {
    let moment = Moment(1000);
    let text = encode(alloc, &Entry { moment, event })?;
    assert_eq!(rt; text.as_slice(), want);
    let entry = decode(alloc, want)?.ok_or("no entry")?;
    let mut again = encode(alloc, &entry)?.into_vec();
    assert_eq!(rt; again.as_slice(), want);
    again.extend_from_slice(&[0])?;
    assert!(rt; decode(alloc, &again)?.is_none());
    again.truncate(want.len().saturating_sub(1));
    assert!(rt; decode(alloc, &again)?.is_none());
    Ok(())
}

// The same of a change by a request of the sender 000014 with the body "ab" and the answer "c".
fn check_kept(rt: &impl Abort, alloc: Global, change: Change, want: &[u8]) -> Result<(), Fail> {
    let request = Request {
        sender: Sender::Network(NetId::from_be_bytes([0, 0, 0x14])),
        body: short(alloc, b"ab")?,
        answer: short(alloc, b"c")?,
    };
    check(rt, alloc, Event::Kept(request, change), want)
}

fn rejoined(used: UsedSeed) -> Change {
    Change::Rejoin(Rejoined {
        device: 0x01020304,
        used,
        counter: 0x0102,
        join_nonce: Nonce24::from_be_bytes([10, 11, 12]),
        own: None,
    })
}

#[test]
fn sessions_have_their_bytes(rt: HostRuntime) -> Result<(), Fail> {
    let alloc = rt.alloc();
    let joined = Joined {
        device: 1,
        counter: 7,
        join_nonce: Nonce24::from_be_bytes([0, 0, 1]),
        own: Some(OwnContext {
            dev_addr: DevAddr(0x26000001),
            radio: RADIO,
        }),
    };
    check_kept(&rt, alloc, Change::Join(joined), JOIN)?;
    let place = SeedPlace::new(3).ok_or("place")?;
    check_kept(&rt, alloc, rejoined(UsedSeed::Rejoin2(place)), REJOIN)?;
    check_kept(&rt, alloc, rejoined(UsedSeed::Rejoin1), REJOIN_1)?;
    let lent = Lending {
        used: Some(UsedSeed::Rejoin0(place)),
        device: 3,
        counter: 0,
        join_nonce: Nonce24::from_be_bytes([0, 0, 2]),
        net: NetId::from_be_bytes([0x60, 0, 5]),
        until: Moment(0x01020304),
    };
    check_kept(&rt, alloc, Change::Lent(lent), LENT)
}

fn uplink(alloc: Global, pending: bool, down: Downlink) -> Result<Uplink, Fail> {
    Ok(Uplink {
        dev_eui: DEVICE,
        pending,
        count: 5,
        frame: short(alloc, &[0x40, 0x41, 0x42])?,
        channel: 2,
        down,
    })
}

#[test]
fn traffic_has_its_bytes(rt: HostRuntime) -> Result<(), Fail> {
    let alloc = rt.alloc();
    let up = uplink(alloc, true, Downlink::Empty)?;
    check_kept(&rt, alloc, Change::Up(up), UP)?;
    let passive = PassiveUplink {
        up: uplink(alloc, false, Downlink::FirstItem)?,
        net: NetId::from_be_bytes([0, 0, 0x15]),
        until: Moment(1600),
    };
    check_kept(&rt, alloc, Change::Passive(passive), PASSIVE)?;
    let queued = Queued {
        device: 1,
        number: 0x10000,
        port: 1,
        confirmed: true,
        payload: short(alloc, &[0xaa])?,
    };
    check_kept(&rt, alloc, Change::Queue(queued), QUEUE)?;
    let stopped = Stopped {
        dev_eui: DEVICE,
        what: RoamingKind::Visitor,
    };
    check_kept(&rt, alloc, Change::Dropped(stopped), DROPPED)
}

fn ask(alloc: Global) -> Result<NewAsk, Fail> {
    let target = Target {
        kind: AskKind::HRStart,
        peer: PeerId::JoinServer(Eui(2)),
        dev_eui: Some(DEVICE),
        dev_addr: Some(DevAddr(0x26000002)),
        radio: Some(Radio {
            dl: 0x92,
            rx_delay: 15,
            cf: Some([9; 16]),
        }),
        rejoin: Some(RejoinCount {
            count: 9,
            pending: true,
        }),
        frame: short(alloc, &[0xc0])?,
        rate: 5,
    };
    Ok(NewAsk {
        closes: Some(4),
        sender: Sender::Party(Eui(0xb000000000000001)),
        body: short(alloc, b"ab")?,
        target,
        ends: Moment(1030),
    })
}

#[test]
fn asks_and_marks_have_their_bytes(rt: HostRuntime) -> Result<(), Fail> {
    let alloc = rt.alloc();
    let text = LongText::of_slice(alloc, b"t")?.ok_or("length")?;
    check(&rt, alloc, Event::Opened, OPENED)?;
    check(&rt, alloc, Event::Tables(text), TABLES)?;
    check(&rt, alloc, Event::Asked(ask(alloc)?), ASKED)?;
    check(&rt, alloc, Event::Suspend(0x01020304), SUSPEND)?;
    check(&rt, alloc, Event::Resume(5), RESUME)
}

// The end of ask 4, which gave the answer "c".
fn check_told(rt: &impl Abort, alloc: Global, effect: Effect, want: &[u8]) -> Result<(), Fail> {
    let outcome = AskOutcome {
        ask: 4,
        kept: true,
        answer: short(alloc, b"c")?,
        effect,
    };
    check(rt, alloc, Event::Told(outcome), want)
}

#[test]
fn ends_of_asks_have_their_bytes(rt: HostRuntime) -> Result<(), Fail> {
    let alloc = rt.alloc();
    let net = NetId::from_be_bytes([0, 0, 0x14]);
    let visitor = NewVisitor {
        dev_eui: DEVICE,
        home: net,
        dev_addr: DevAddr(0x26000002),
        radio: RADIO,
        keys: SessionKeys {
            f: [1; 16],
            s: [2; 16],
            e: [3; 16],
        },
        until: Moment(4600),
    };
    let dev_addr = DevAddr(0x28000001);
    let session = HeldSession {
        net,
        dev_addr,
        dev_eui: DEVICE,
        f: [1; 16],
        count: 6,
        until: Moment(1600),
    };
    let count = HeldCount {
        net,
        dev_addr,
        count: 7,
    };
    check_told(&rt, alloc, Effect::Nothing, TOLD)?;
    check_told(&rt, alloc, Effect::Visitor(visitor), TOLD_OF_VISITOR)?;
    check_told(&rt, alloc, Effect::Held(session), TOLD_OF_SESSION)?;
    check_told(&rt, alloc, Effect::Counter(count), TOLD_OF_COUNTER)
}

// Entries in which the byte at a place is changed.
const NO_ENTRIES: [(&[u8], usize, u8); 26] = [
    // unknown tags
    (OPENED, 0, 0),
    (OPENED, 0, 14),
    (JOIN, 0, 14),
    // the kind of a sender, and of a peer
    (JOIN, 9, 2),
    (ASKED, 32, 2),
    // lengths that end past the last byte, or before it
    (TABLES, 12, 2),
    (TABLES, 12, 0),
    (JOIN, 13, 1),
    (UP, 34, 4),
    (QUEUE, 31, 0),
    // options and flags
    (JOIN, 29, 2),
    (JOIN, 36, 2),
    (UP, 28, 2),
    (QUEUE, 29, 2),
    (TOLD, 17, 2),
    // the type of a rejoin, and its used seed
    (REJOIN, 24, 3),
    (REJOIN, 24, 1),
    (REJOIN, 25, 4),
    (REJOIN, 25, 0xff),
    (REJOIN_1, 24, 0),
    (REJOIN_1, 25, 0),
    (LENT, 11, 0xff),
    // what a downlink, an ask, its effect and an end are
    (UP, 39, 3),
    (ASKED, 31, 4),
    (TOLD, 21, 4),
    (DROPPED, 28, 3),
];

#[test]
fn other_texts_are_no_entry(rt: HostRuntime) -> Result<(), Fail> {
    let alloc = rt.alloc();
    assert!(rt; decode(alloc, &[])?.is_none());
    for (bytes, place, byte) in NO_ENTRIES {
        let mut bytes = bytes.to_vec(alloc)?;
        assert!(rt; decode(alloc, &bytes)?.is_some());
        if let Some(at) = bytes.get_mut(place) {
            *at = byte;
        }
        assert!(rt; decode(alloc, &bytes)?.is_none());
    }
    Ok(())
}
