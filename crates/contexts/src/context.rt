ghost use Rattle.std.specs.Prelude.{◌≡◌, ◌<◌, ◌≤◌, length};
ghost use Rattle.contexts.specs.Contexts.{channel_bit, channels_of, fresh_of};

use arrayvec::ArrayVec;
use wire_ids::{DevAddr, Radio, Seed, SessionKeys};

/// A whole frame, of at most 255 bytes.
pub type FrameBuf = ArrayVec<u8, 255>;

/// What a data downlink carries for the application, at most 242 bytes, encrypted.
pub type Payload = ArrayVec<u8, 242>;

/// The items that wait for a downlink, at most 8, the oldest first.
pub type ItemQueue = ArrayVec<Item, 8>;

/// Where the session keys of a context come from.
#[derive(Clone, Copy, PartialEq, Eq)]
pub enum Origin {
    /// They are derived from this seed under the device's NwkKey.
    Seeded(Seed),
    /// A peer gave them. The number is that of the entry with which they came.
    Given { number: u64, keys: SessionKeys },
}

/// A payload that waits for its downlink.
#[derive(Drop)]
pub struct Item {
    /// The AFCntDown number under which the application encrypted it.
    pub number: u32,
    pub port: u8,
    pub confirmed: bool,
    pub payload: Payload,
}

impl Default for Item {
    /// The item that stands where none waits.
    fn default() -> Item {
        Item {
            number: 0,
            port: 0,
            confirmed: false,
            payload: ArrayVec::new(),
        }
    }
}

/// One session of a device.
#[derive(Drop)]
pub struct Context {
    pub addr: DevAddr,
    pub origin: Origin,
    pub radio: Radio,
    /// The enabled channels, bit k for channel k.
    pub channels: u8,
    /// The full counter of the last accepted uplink.
    pub last: Option<u32>,
    /// The last accepted uplink, empty where there is none.
    pub frame: FrameBuf,
    /// The last RJcount0 that was accepted under given keys.
    pub rj0: Option<u16>,
    /// The number of the last confirmed downlink, modulo 2^16.
    pub conf: Option<u16>,
    /// The next NFCntDown number, 2^32 where none is left.
    pub next_n: u64,
    /// The least AFCntDown number that a new item may have, 2^32 where none is left.
    pub next_a: u64,
    pub queue: ItemQueue,
}

impl Context {
    /// A context under which nothing was heard or sent yet.
    pub fn new(addr: DevAddr, origin: Origin, radio: Radio) -> Context
        ensures { result ≡ fresh_of addr origin radio }
    {
        Context {
            addr,
            origin,
            radio,
            channels: channels_of(&radio),
            last: None,
            frame: ArrayVec::new(),
            rj0: None,
            conf: None,
            next_n: 0,
            next_a: 0,
            queue: ArrayVec::new(),
        }
    }

    /// The same in place of this context. What of it isn't in use is left as it lies.
    pub(crate) fn renew(&mut self, addr: DevAddr, origin: Origin, radio: Radio)
        ensures { self.new ≡ fresh_of addr origin radio }
    {
        self.addr = addr;
        self.origin = origin;
        self.radio = radio;
        self.channels = channels_of(&radio);
        self.last = None;
        self.frame.clear();
        self.rj0 = None;
        self.conf = None;
        self.next_n = 0;
        self.next_a = 0;
        self.queue.clear();
    }
}

// The bit of a channel, 0 where the CFList has no frequency for it.
fn channel_bit(list: &[u8; 16], place: usize, bit: u8) -> u8
    requires { place < 5 }
    ensures value { result ≡ channel_bit list.now place bit }
    ensures bound { result ≤ bit }
{
    let at = 3 * place;
    if list[at] == 0 && list[at + 1] == 0 && list[at + 2] == 0 {
        0
    } else {
        bit
    }
}

/// The channels that a device with these radio parameters may use, bit k for channel k (EU868,
/// RP001): 0, 1 and 2 always, and of 3 to 7 those for which a CFList of type 0 has a frequency.
pub fn channels_of(radio: &Radio) -> u8
    ensures { result ≡ channels_of radio.now }
{
    match &radio.cf {
        Some(list) if list[15] == 0 => {
            7 + channel_bit(list, 0, 8)
                + channel_bit(list, 1, 16)
                + channel_bit(list, 2, 32)
                + channel_bit(list, 3, 64)
                + channel_bit(list, 4, 128)
        }
        _ => 7,
    }
}
