use crate::IdFault;
use crate::digits::id_bytes;
use crate::three::{be_bytes, be_number, wire_bytes, wire_number};
use std::marker::Model;

/// The name of a network, of 24 bits. Contracts see it as that number.
#[derive(Clone, Copy, Debug, Default, PartialEq, Eq)]
pub struct NetId {
    bits: u32,
}

impl Model for NetId {
    ghost use Rattle.std.specs.Prelude.{◌<◌, ◌^◌, ℕ};

    ghost Value = { ℕ };

    ghost view = { λ n. n.bits };

    ghost invariant = { λ n. n.bits < 2 ^ 24 };

    ghost inverse = { λ n. record { bits = n } };
}

ghost use Rattle.std.specs.Prelude.{◌≡◌, ◌<◌, ◌^◌, Some, None, if◌then◌else◌, nat_lt};
ghost use Rattle.wire_ids.specs.Digits.{net_digits, read_net};
ghost use Rattle.wire_ids.specs.Numbers.{net_bytes, net_number, wire_bytes, wire_number};

impl NetId {
    /// The network of this number, where it has 24 bits.
    pub fn new(bits: u32) -> Option<NetId>
        ensures { result ≡ (if nat_lt bits (2 ^ 24) then Some bits else None) }
    {
        if bits < 1 << 24 {
            Some(NetId { bits })
        } else {
            None
        }
    }

    /// The network whose number has these bytes, the highest first.
    pub fn from_be_bytes(bytes: [u8; 3]) -> NetId
        ensures { result ≡ net_number bytes }
    {
        NetId {
            bits: be_number(bytes),
        }
    }

    /// Its number, which is below 2^24.
    pub fn get(self) -> u32
        ensures number { result ≡ self }
        ensures small { result < 2 ^ 24 }
    {
        self.bits
    }

    /// Reads 6 hexadecimal digits of either case, the highest first, behind an optional `0x` or
    /// `0X`. Another number of bytes there is `BadLength`; else the first that is no digit is
    /// `BadDigit`.
    pub fn from_hex(text: &[u8]) -> Result<NetId, IdFault>
        ensures { result ≡ read_net text.now }
    {
        match id_bytes(text) {
            Ok(bytes) => Ok(NetId::from_be_bytes(bytes)),
            Err(fault) => Err(fault),
        }
    }

    /// Its 6 digits in lower case, the highest first.
    pub fn to_hex(self) -> [u8; 6]
        ensures { result ≡ net_digits self }
    {
        let mut digits = [0; 6];
        let _ = hex::encode_to_slice(be_bytes(self.bits), &mut digits);
        digits
    }

    /// The network of these bytes of a frame, the lowest first.
    pub fn from_wire(bytes: [u8; 3]) -> NetId
        ensures number { result ≡ wire_number bytes }
        ensures bytes { wire_bytes result ≡ bytes }
    {
        NetId {
            bits: wire_number(bytes),
        }
    }

    /// Its bytes in a frame, the lowest first.
    pub fn to_wire(self) -> [u8; 3]
        ensures { result ≡ wire_bytes self }
    {
        wire_bytes(self.bits)
    }
}
