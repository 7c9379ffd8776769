use crate::three::{be_bytes, be_number, wire_bytes, wire_number};
use std::marker::Model;

/// A JoinNonce: a number of 24 bits (LoRaWAN 1.1, 6.2.3). Contracts see it as that number.
#[derive(Clone, Copy, Debug, Default, PartialEq, Eq)]
pub struct Nonce24 {
    number: u32,
}

impl Model for Nonce24 {
    ghost use Rattle.std.specs.Prelude.{◌<◌, ◌^◌, ℕ};

    ghost Value = { ℕ };

    ghost view = { λ n. n.number };

    ghost invariant = { λ n. n.number < 2 ^ 24 };

    ghost inverse = { λ n. record { number = n } };
}

ghost use Rattle.std.specs.Prelude.{◌≡◌, ◌<◌, ◌^◌, Some, None, if◌then◌else◌, nat_lt};
ghost use Rattle.wire_ids.specs.Digits.{three_digits};
ghost use Rattle.wire_ids.specs.Numbers.{three_number, wire_bytes, wire_number};

impl Nonce24 {
    /// The JoinNonce of this number, or None exactly from 2^24 on.
    pub fn new(number: u32) -> Option<Nonce24>
        ensures { result ≡ (if nat_lt number (2 ^ 24) then Some number else None) }
    {
        if number < 1 << 24 {
            Some(Nonce24 { number })
        } else {
            None
        }
    }

    /// Its number, which is below 2^24.
    pub fn get(self) -> u32
        ensures number { result ≡ self }
        ensures small { result < 2 ^ 24 }
    {
        self.number
    }

    /// The JoinNonce whose number has these bytes, the highest first.
    pub fn from_be_bytes(bytes: [u8; 3]) -> Nonce24
        ensures { result ≡ three_number bytes }
    {
        Nonce24 {
            number: be_number(bytes),
        }
    }

    /// Its 6 digits in lower case, the highest first.
    pub fn to_hex(self) -> [u8; 6]
        ensures { result ≡ three_digits self }
    {
        let mut digits = [0; 6];
        let _ = hex::encode_to_slice(be_bytes(self.number), &mut digits);
        digits
    }

    /// The JoinNonce of these bytes of a frame, the lowest first (LoRaWAN 1.1, 6.2.3).
    pub fn from_wire(bytes: [u8; 3]) -> Nonce24
        ensures number { result ≡ wire_number bytes }
        ensures bytes { wire_bytes result ≡ bytes }
    {
        Nonce24 {
            number: wire_number(bytes),
        }
    }

    /// Its bytes in a frame, the lowest first (LoRaWAN 1.1, 6.2.3).
    pub fn to_wire(self) -> [u8; 3]
        ensures { result ≡ wire_bytes self }
    {
        wire_bytes(self.number)
    }
}
