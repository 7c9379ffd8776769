// The inversion of GF(2^8) by look-ups in tables of 16 entries, which are permutations of a vector
// in a register: M. Hamburg, Accelerating AES with Vector Permute Instructions (2009).
ghost use Rattle.std.specs.Prelude.{◌≡◌, ◌<◌, ℕ, map, slice_index};
ghost use Rattle.aes_cmac.specs.Nibbles.{low_half, high_half, entry, ArePlaces, sum};
ghost use Rattle.aes_cmac.specs.Nibbles.{first_place, second_place};

use crate::tables::{INVERSES, SCALED_INVERSES};
use std::simd::prelude::*;

#[inline(always)]
pub(crate) fn low_halves(x: u8x16) -> u8x16
    ensures { result ≡ map low_half x }
{
    x & u8x16::splat(15)
}

#[inline(always)]
pub(crate) fn high_halves(x: u8x16) -> u8x16
    ensures { result ≡ map high_half x }
{
    x >> u8x16::splat(4)
}

// The entries of a table at the lanes of `places`: 0 where a lane is 128 or more.
#[inline(always)]
pub(crate) fn looked_up(table: [u8; 16], places: u8x16) -> u8x16
    requires { ArePlaces places }
    ensures { result ≡ map (entry table) places }
{
    u8x16::from_array(table).swizzle_dyn(places)
}

// The lanes at these places.
#[inline(always)]
pub(crate) fn permuted(x: u8x16, places: [u8; 16]) -> u8x16
    requires { (i : ℕ) → slice_index places i < 16 }
    ensures { result ≡ map (λ k. slice_index x k) places }
{
    x.swizzle_dyn(u8x16::from_array(places))
}

// What two tables give, added.
#[inline(always)]
pub(crate) fn added(first: [u8; 16], second: [u8; 16], places: (u8x16, u8x16)) -> u8x16
    requires { ArePlaces places.0 × ArePlaces places.1 }
    ensures { result ≡ sum (map (entry first) places.0) (map (entry second) places.1) }
{
    looked_up(first, places.0) ^ looked_up(second, places.1)
}

// What two tables give for the halves of each byte, added.
#[inline(always)]
pub(crate) fn by_halves(low: [u8; 16], high: [u8; 16], x: u8x16) -> u8x16
    ensures { result
        ≡ sum (map (entry low) (map low_half x)) (map (entry high) (map high_half x)) }
{
    looked_up(low, low_halves(x)) ^ looked_up(high, high_halves(x))
}

// The two places, of which the inverse of each byte is a linear function.
#[inline(always)]
pub(crate) fn nested(x: u8x16) -> (u8x16, u8x16)
    ensures first { result.0 ≡ map first_place x }
    ensures second { result.1 ≡ map second_place x }
    ensures places { ArePlaces result.0 × ArePlaces result.1 }
{
    let i = high_halves(x);
    let k = low_halves(x);
    let j = i ^ k;
    let scaled = looked_up(SCALED_INVERSES, k);
    let first = looked_up(INVERSES, looked_up(INVERSES, i) ^ scaled) ^ j;
    let second = looked_up(INVERSES, looked_up(INVERSES, j) ^ scaled) ^ i;
    (first, second)
}
