//! Worked histories: which entries fit after others, and what the state is then.

use agreements::{Tables, read_tables};
use contexts::Context;
use entry_codec::{
    AskKind, Change, Downlink, Entry, Event, Holder, Joined, LiveContext, NewAsk, OwnContext,
    Queued, Rejoined, Request, SeedPlace, State, Target, Uplink, UsedSeed,
};
use std::alloc::Global;
use std::process::Abort;
use std::test::Fail;
use wire_ids::{
    DevAddr, Eui, LongText, Memory, Moment, NetId, Nonce24, PeerId, Radio, Sender, ShortText,
    address_of,
};

const GATEWAY: Sender = Sender::Party(Eui(0xb000000000000001));

const FIRST_DEVICE: u64 = 0x70b3d57ed0001000;

const PARTIES: &str = "
join_euis = [\"70b3d57ed0000001\"]
dl_settings = \"80\"
rx_delay = 1
[[network]]
net_id = \"000014\"
kek_label = \"net-14\"
kek = \"000102030405060708090a0b0c0d0e0f\"
address = \"a:1\"
[[application]]
app_id = \"a000000000000001\"
kek_label = \"app-1\"
kek = \"000102030405060708090a0b0c0d0e0f\"
[[gateway]]
gateway_id = \"b000000000000001\"
";

const DEVICE: &str = "join_eui = \"70b3d57ed0000001\"
nwk_key = \"101112131415161718191a1b1c1d1e1f\"
app_key = \"000102030405060708090a0b0c0d0e0f\"
app = \"a000000000000001\"
";

// The tables of a desk with so many devices, all of them at home.
fn tables(alloc: Global, own: &str, devices: u64) -> Result<Option<Tables>, Memory> {
    let mut text = format!(in alloc; "[desk]\nnet_id = \"{own}\"{PARTIES}")?;
    for i in 0..devices {
        let name = FIRST_DEVICE + i % 0x1000;
        let row = format!(in alloc;
            "[[device]]\ndev_eui = \"{name:016x}\"\nhome = \"{own}\"\n{DEVICE}"
        )?;
        text.push_str(row.as_str())?;
    }
    Ok(read_tables(alloc, text.as_bytes()).ok())
}

// The state of these tables when the desk has been opened.
fn first_state(alloc: Global, tables: &Tables) -> Result<State, Memory> {
    let mut state = State::new(alloc, tables)?;
    let text = LongText::of_slice(alloc, b"")?.ok_or(Memory)?;
    enter(&mut state, 1000, Event::Tables(text))?;
    enter(&mut state, 1000, Event::Opened)?;
    Ok(state)
}

// The same of a desk with so many devices, all of them at home.
fn opened(alloc: Global, own: &str, devices: u64) -> Result<State, Memory> {
    match tables(alloc, own, devices)? {
        None => Err(Memory),
        Some(tables) => first_state(alloc, &tables),
    }
}

// ---- entries

// An event of a moment, where it fits; whether it does.
fn enter(state: &mut State, moment: u64, event: Event) -> Result<bool, Memory> {
    let entry = Entry {
        moment: Moment(moment),
        event,
    };
    if !state.fits(&entry) {
        return Ok(false);
    }
    state.reserve(&entry)?;
    state.apply(entry);
    Ok(true)
}

fn text(alloc: Global, bytes: &[u8]) -> Result<ShortText, Memory> {
    ShortText::of_slice(alloc, bytes)?.ok_or(Memory)
}

// A context of this desk under the address, with DLSettings 90.
fn own(addr: u32) -> OwnContext {
    let radio = Radio {
        dl: 0x90,
        rx_delay: 1,
        cf: None,
    };
    OwnContext {
        dev_addr: DevAddr(addr),
        radio,
    }
}

fn nonce(number: u32) -> Nonce24 {
    match Nonce24::new(number) {
        Some(nonce) => nonce,
        None => Nonce24::from_be_bytes([0; 3]),
    }
}

// What a step of a test's table does.
#[derive(Clone, Copy)]
enum Step {
    // DevNonce, JoinNonce, the address of a context
    Join(u16, u32, Option<u32>),
    // RJcount1, JoinNonce
    Rejoin1(u16, u32),
    // RJcount0, JoinNonce, the address of a context; under the newest seed
    Rejoin2(u16, u32, u32),
    // pending, full counter
    Up(bool, u32),
    // number
    Queue(u32),
}

fn rejoined(device: u32, used: UsedSeed, counter: u16, number: u32, addr: Option<u32>) -> Change {
    Change::Rejoin(Rejoined {
        device,
        used,
        counter,
        join_nonce: nonce(number),
        own: addr.map(own),
    })
}

fn change(alloc: Global, device: u32, step: Step) -> Result<Change, Memory> {
    Ok(match step {
        Step::Join(counter, number, addr) => Change::Join(Joined {
            device,
            counter,
            join_nonce: nonce(number),
            own: addr.map(own),
        }),
        Step::Rejoin1(counter, number) => {
            rejoined(device, UsedSeed::Rejoin1, counter, number, None)
        }
        Step::Rejoin2(counter, number, addr) => {
            let newest = SeedPlace::new(0).ok_or(Memory)?;
            rejoined(
                device,
                UsedSeed::Rejoin2(newest),
                counter,
                number,
                Some(addr),
            )
        }
        Step::Up(pending, count) => Change::Up(Uplink {
            dev_eui: Eui(FIRST_DEVICE + u64::from(device)),
            pending,
            count,
            frame: text(alloc, &[0x40])?,
            channel: 0,
            down: Downlink::Nothing,
        }),
        Step::Queue(number) => Change::Queue(Queued {
            device,
            number,
            port: 1,
            confirmed: false,
            payload: text(alloc, &[0xaa])?,
        }),
    })
}

// A step of a device at the moment 1,000, by a request of the gateway; whether it fits.
fn take_step(
    alloc: Global,
    state: &mut State,
    device: u32,
    step: Step,
    body: &[u8],
) -> Result<bool, Memory> {
    let request = Request {
        sender: GATEWAY,
        body: text(alloc, body)?,
        answer: text(alloc, body)?,
    };
    let change = change(alloc, device, step)?;
    enter(state, 1000, Event::Kept(request, change))
}

// ---- contexts

// A context's address, its last full counter, and its DLSettings.
type Seen = (u32, Option<u32>, u8);

fn seen(slot: &Option<Context>) -> Option<Seen> {
    match slot {
        None => None,
        Some(context) => Some((context.addr.0, context.last, context.radio.dl)),
    }
}

// Steps of one device, each with whether it fits and the number of the least free address after it.
type Steps = &'static [(Step, bool, u32)];

// Of the last JoinNonce no other comes.
const SPENT: Steps = &[
    (Step::Join(7, 0xffffff, None), true, 0),
    (Step::Join(8, 0xffffff, None), false, 0),
    (Step::Rejoin1(0, 0xffffff), false, 0),
];

// A counter of before doesn't come again, and neither does a JoinNonce.
const COUNTED: Steps = &[
    (Step::Rejoin1(65535, 1), true, 0),
    (Step::Rejoin1(0, 2), false, 0),
    (Step::Join(7, 1, None), false, 0),
    (Step::Join(7, 2, None), true, 0),
    (Step::Join(7, 3, None), false, 0),
];

// A rejoin of type 2 under the seed of the active context.
const REJOINED: Steps = &[
    (Step::Join(0, 1, Some(0x26000000)), true, 1),
    (Step::Up(true, 0), true, 1),
    (Step::Rejoin2(0, 2, 0x26000000), false, 1),
    (Step::Rejoin2(0, 2, 0x26000001), true, 2),
];

// A second one, under the seed of the pending context, makes it active first.
const WOKEN: Steps = &[
    (Step::Join(0, 1, Some(0x26000000)), true, 1),
    (Step::Up(true, 0), true, 1),
    (Step::Rejoin2(0, 2, 0x26000001), true, 2),
    (Step::Rejoin2(0, 3, 0x26000001), false, 2),
    (Step::Rejoin2(0, 3, 0x26000000), true, 2),
];

// A pending context becomes active by an uplink and not by its join, and the old one then ends.
const JOINED_AGAIN: Steps = &[
    (Step::Join(0, 1, Some(0x26000000)), true, 1),
    (Step::Up(false, 0), false, 1),
    (Step::Up(true, 0), true, 1),
    (Step::Up(false, 0), false, 1),
    (Step::Join(1, 2, Some(0x26000001)), true, 2),
    (Step::Up(false, 1), true, 2),
    (Step::Up(true, 0), true, 0),
    (Step::Up(true, 1), false, 0),
    (Step::Queue(0), true, 0),
];

const HISTORIES: [(Steps, Option<Seen>, Option<Seen>); 5] = [
    (SPENT, None, None),
    (COUNTED, None, None),
    (
        REJOINED,
        Some((0x26000000, Some(0), 0x90)),
        Some((0x26000001, None, 0x90)),
    ),
    (
        WOKEN,
        Some((0x26000001, None, 0x90)),
        Some((0x26000000, None, 0x90)),
    ),
    (JOINED_AGAIN, Some((0x26000001, Some(0), 0x90)), None),
];

fn own_net() -> NetId {
    NetId::from_be_bytes([0, 0, 0x13])
}

fn follow(rt: &impl Abort, alloc: Global, state: &mut State, steps: Steps) -> Result<(), Memory> {
    for (step, fits, free) in steps {
        assert_eq!(rt; take_step(alloc, state, 0, *step, b"a")?, *fits);
        let next = state.free_address(own_net(), None, Moment(1000));
        assert_eq!(rt; next, address_of(own_net(), *free));
    }
    Ok(())
}

// Whether the context of the only device is found by its address, where there is one.
fn is_live(state: &State, context: Option<Seen>, pending: bool) -> bool {
    match context {
        None => true,
        Some((addr, _, _)) => {
            let holder = Holder::Device(0);
            state.live_context(DevAddr(addr), Moment(1000)) == Some(LiveContext { holder, pending })
        }
    }
}

fn check_contexts(rt: &impl Abort, state: &State, active: Option<Seen>, pending: Option<Seen>) {
    for device in state.devices() {
        assert_eq!(rt; seen(&device.slots.active), active);
        assert_eq!(rt; seen(&device.slots.pending), pending);
    }
    assert!(rt; is_live(state, active, false));
    assert!(rt; is_live(state, pending, true));
    assert!(rt;
        state
            .live_context(DevAddr(0x26000002), Moment(1000))
            .is_none()
    );
}

#[test]
fn contexts_follow_joins_rejoins_and_uplinks(rt: HostRuntime) -> Result<(), Fail> {
    let alloc = rt.alloc();
    for (steps, active, pending) in HISTORIES {
        let mut state = opened(alloc, "000013", 1)?;
        follow(&rt, alloc, &mut state, steps)?;
        check_contexts(&rt, &state, active, pending);
    }
    Ok(())
}

// ---- limits

#[test]
fn the_oldest_seed_and_answer_go(rt: HostRuntime) -> Result<(), Fail> {
    let alloc = rt.alloc();
    let mut state = opened(alloc, "000013", 1)?;
    // Joins 1 to 5, of which the first is forgotten.
    for n in 1..6u8 {
        let join = Step::Join(u16::from(n), u32::from(n), None);
        assert!(rt; take_step(alloc, &mut state, 0, join, &[b'j', n])?);
    }
    let device = state.devices().get(0).ok_or("device")?;
    let nonces = [5, 4, 3, 2];
    assert_eq!(rt; device.seeds.len(), nonces.len());
    for (kept, want) in device.seeds.as_slice().iter().zip(nonces) {
        assert_eq!(rt; kept.seed.nonce.get(), want);
    }
    // Rejoins 6 to 65, so that 65 answers were given.
    for n in 6..66u8 {
        let rejoin = Step::Rejoin1(u16::from(n), u32::from(n));
        assert!(rt; take_step(alloc, &mut state, 0, rejoin, &[b'j', n])?);
    }
    for (n, kept) in [(0, false), (1, false), (2, true), (65, true), (66, false)] {
        assert_eq!(rt; state.kept_answer(GATEWAY, &[b'j', n]).is_some(), kept);
    }
    Ok(())
}

#[test]
fn a_queue_has_eight_items(rt: HostRuntime) -> Result<(), Fail> {
    let alloc = rt.alloc();
    let mut state = opened(alloc, "000013", 1)?;
    for (step, fits) in [
        (Step::Queue(0), false),
        (Step::Join(0, 1, Some(0x26000000)), true),
        (Step::Queue(0), false),
        (Step::Up(true, 0), true),
        (Step::Queue(0), true),
        (Step::Queue(0), false),
        (Step::Queue(1), true),
        (Step::Queue(3), true),
        (Step::Queue(2), false),
        (Step::Queue(4), true),
        (Step::Queue(5), true),
        (Step::Queue(6), true),
        (Step::Queue(7), true),
        (Step::Queue(0x10000), true),
        (Step::Queue(0x10001), false),
    ] {
        assert_eq!(rt; take_step(alloc, &mut state, 0, step, b"q")?, fits);
    }
    Ok(())
}

// An ask for a device that comes by a handover, under this address and up to this moment.
fn ask(alloc: Global, addr: u32, ends: u64) -> Result<Event, Memory> {
    Ok(Event::Asked(NewAsk {
        closes: None,
        sender: GATEWAY,
        body: text(alloc, b"a")?,
        target: Target {
            kind: AskKind::HRStart,
            peer: PeerId::Network(NetId::from_be_bytes([0, 0, 0x14])),
            dev_eui: Some(Eui(FIRST_DEVICE - 1)),
            dev_addr: Some(DevAddr(addr)),
            radio: None,
            rejoin: None,
            frame: text(alloc, &[0])?,
            rate: 0,
        },
        ends: Moment(ends),
    }))
}

#[test]
fn at_most_64_asks_are_open(rt: HostRuntime) -> Result<(), Fail> {
    let alloc = rt.alloc();
    let mut state = opened(alloc, "000013", 1)?;
    for n in 0..64 {
        let event = ask(alloc, 0x26000000 + n, 1030 + u64::from(n))?;
        assert!(rt; enter(&mut state, 1000, event)?);
    }
    // The first ends at 1,030, so that there is room, and its address is free.
    for (moment, addr, fits) in [
        (1029, 0x26000000, false),
        (1029, 0x26000040, false),
        (1030, 0x26000001, false),
        (1030, 0x26000000, true),
        (1030, 0x26000040, false),
    ] {
        assert_eq!(rt; enter(&mut state, moment, ask(alloc, addr, 1099)?)?, fits);
    }
    assert_eq!(rt; state.asks().len(), 64);
    assert!(rt; enter(&mut state, 1030, Event::Opened)?);
    assert_eq!(rt; state.asks().len(), 0);
    Ok(())
}

// A network of 128 addresses, with a context of each.
#[test]
fn addresses_are_used_up(rt: HostRuntime) -> Result<(), Fail> {
    let alloc = rt.alloc();
    let mut state = opened(alloc, "e00001", 64)?;
    let net = NetId::from_be_bytes([0xe0, 0, 1]);
    for n in 0..128u32 {
        let free = state.free_address(net, None, Moment(1000));
        assert_eq!(rt; free, Some(DevAddr(0xfe000080 + n)));
        let round = n / 64;
        let join = Step::Join(round as u16, round + 1, Some(0xfe000080 + n));
        assert!(rt; take_step(alloc, &mut state, n % 64, join, b"j")?);
        if round == 0 {
            assert!(rt; take_step(alloc, &mut state, n, Step::Up(true, 0), b"u")?);
        }
    }
    assert_eq!(rt; state.free_address(net, None, Moment(1000)), None);
    for n in 0..128u32 {
        let join = Step::Join(2, 3, Some(0xfe000080 + n));
        assert!(rt; !take_step(alloc, &mut state, 0, join, b"j")?);
    }
    Ok(())
}
