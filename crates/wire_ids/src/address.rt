ghost use Rattle.std.specs.Prelude.{◌≡◌, ◌<◌, ◌≤◌, ◌+◌, ◌*◌, ◌^◌, ◌↔◌, IsTrue, option_map};
ghost use Rattle.wire_ids.specs.Addresses.{Matches, address_of, base_of, room_of};
ghost use Rattle.wire_ids.specs.Addresses.{free_bits, nwk_bits, prefix};
ghost use Rattle.wire_ids.specs.declared.address.DevAddr as dev_addr;
ghost use Rattle.std.specs.Int.{w32, from_le_bytes, to_le_bytes};
ghost use Rattle.wire_ids.specs.Digits.{addr_digits, read_addr};

use crate::digits::id_bytes;
use crate::{IdFault, NetId};

/// A device's address in a network.
#[derive(Clone, Copy, Debug, Default, PartialEq, Eq)]
pub struct DevAddr(pub u32);

impl DevAddr {
    /// Reads 8 hexadecimal digits of either case, the highest first, behind an optional `0x` or
    /// `0X`. Another number of bytes there is `BadLength`; else the first that is no digit is
    /// `BadDigit`.
    pub fn from_hex(text: &[u8]) -> Result<DevAddr, IdFault>
        ensures { result ≡ read_addr text.now }
    {
        Ok(DevAddr(u32::from_be_bytes(id_bytes(text)?)))
    }

    /// Its 8 digits in lower case, the highest first.
    pub fn to_hex(self) -> [u8; 8]
        ensures { result ≡ addr_digits self }
    {
        let mut digits = [0; 8];
        let _ = hex::encode_to_slice(self.0.to_be_bytes(), &mut digits);
        digits
    }

    /// The address of these bytes of a frame, the lowest first.
    pub fn from_wire(bytes: [u8; 4]) -> DevAddr
        ensures { result.0 ≡ from_le_bytes w32 bytes }
    {
        DevAddr(u32::from_le_bytes(bytes))
    }

    /// Its bytes in a frame, the lowest first.
    pub fn to_wire(self) -> [u8; 4]
        ensures { result ≡ to_le_bytes w32 self.0 }
    {
        self.0.to_le_bytes()
    }
}

// What an address of a network is made of.
#[derive(Clone, Copy)]
struct Layout {
    prefix: u32,
    ids: u32,
    room: u32,
}

impl Layout {
    fn new(prefix: u32, id_bits: u32, room_bits: u32) -> Layout
        requires id { id_bits < 32 }
        requires room { room_bits < 32 }
        ensures prefix { result.prefix ≡ prefix }
        ensures ids { result.ids ≡ 2 ^ id_bits }
        ensures room { result.room ≡ 2 ^ room_bits }
    {
        Layout {
            prefix,
            ids: 1 << id_bits,
            room: 1 << room_bits,
        }
    }
}

fn layout_of(kind: u32) -> Layout
    requires { kind < 8 }
    ensures prefix { result.prefix ≡ prefix kind }
    ensures ids { result.ids ≡ 2 ^ nwk_bits kind }
    ensures room { result.room ≡ 2 ^ free_bits kind }
    ensures some { 0 < result.ids }
    ensures fits { result.prefix + result.ids * result.room ≤ 2 ^ 32 }
{
    match kind {
        0 => Layout::new(0, 6, 25),
        1 => Layout::new(0x80000000, 6, 24),
        2 => Layout::new(0xc0000000, 9, 20),
        3 => Layout::new(0xe0000000, 11, 17),
        4 => Layout::new(0xf0000000, 12, 15),
        5 => Layout::new(0xf8000000, 13, 13),
        6 => Layout::new(0xfc000000, 15, 10),
        _ => Layout::new(0xfe000000, 17, 7),
    }
}

// The network's first address, and how many it has.
fn span(net: NetId) -> (u32, u32)
    ensures base { result.0 ≡ base_of net }
    ensures room { result.1 ≡ room_of net }
    ensures fits { result.0 + result.1 ≤ 2 ^ 32 }
{
    let number = net.get();
    let layout = layout_of(number / (1 << 21));
    let id = number % layout.ids;
    (layout.prefix + id * layout.room, layout.room)
}

/// The network's address of this number, or none exactly where it has no so many.
pub fn address_of(net: NetId, n: u32) -> Option<DevAddr>
    ensures { option_map (λ (a : dev_addr.DevAddr). a.0) result ≡ address_of net n }
{
    let (base, room) = span(net);
    if n < room {
        Some(DevAddr(base + n))
    } else {
        None
    }
}

/// Whether the address is one of the network's.
pub fn net_matches(addr: DevAddr, net: NetId) -> bool
    ensures { IsTrue result ↔ Matches addr.0 net }
{
    let (base, room) = span(net);
    addr.0 >= base && addr.0 - base < room
}
