// Blocks of 16 bytes, as CMAC uses them.
ghost use Rattle.std.specs.Prelude.{◌≡◌, ◌<◌, length};
ghost use Rattle.aes_cmac.specs.Aes.{xor16};
ghost use Rattle.aes_cmac.specs.Mac.{doubled_number, doubled, padded};

use std::simd::prelude::*;

// The padding: a bit 1, then zeros.
const PADDING: [u8; 16] = [0x80, 0, 0, 0, 0, 0, 0, 0, 0, 0, 0, 0, 0, 0, 0, 0];

/// The exclusive or of two blocks, byte by byte.
pub fn xor16(s: [u8; 16], t: [u8; 16]) -> [u8; 16]
    ensures { result ≡ xor16 s t }
{
    (u8x16::from_array(s) ^ u8x16::from_array(t)).to_array()
}

// The highest bit decides by a product and not by a branch, since the number is secret.
fn doubled_number(n: u128) -> u128
    ensures { result ≡ doubled_number n }
{
    (n << 1) ^ (n >> 127) * 0x87
}

// The block shifted left by one bit, its first byte the highest, and xor 0x87 where the bit that
// leaves it is 1: the step from AES of zeros to K1, and from K1 to K2 (RFC 4493, 2.3).
#[tactic(auto, unfolding(crate::specs::Mac::doubled))]
pub(crate) fn doubled(block: [u8; 16]) -> [u8; 16]
    ensures { result ≡ doubled block }
{
    doubled_number(u128::from_be_bytes(block)).to_be_bytes()
}

// A last block of fewer than 16 bytes, filled up by a bit 1 and zeros (RFC 4493, 2.4).
pub(crate) fn padded(last: &[u8]) -> [u8; 16]
    requires { length last.now < 16 }
    ensures { result ≡ padded last.now }
{
    let len = last.len();
    let mut block = [0; 16];
    block[..len].copy_from_slice(last);
    block[len..].copy_from_slice(&PADDING[..16 - len]);
    block
}
