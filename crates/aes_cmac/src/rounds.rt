// The rounds of the cipher on states in the basis of the nested inversion.
ghost use Rattle.std.specs.Prelude.{◌≡◌, ◌<◌, ◌+◌, ◌%◌, ◌∷◌, [], List, ℕ, length, map, bit_xor};
ghost use Rattle.aes_cmac.specs.Aes.{IsBlock, xor16, sub_bytes, shift_rows, mix_columns};
ghost use Rattle.aes_cmac.specs.Aes.{inv_sub_bytes, inv_shift_rows, inv_mix_columns};
ghost use Rattle.aes_cmac.specs.Basis.{to_basis, from_basis, inv_to_basis, affine_constant};
ghost use Rattle.aes_cmac.specs.Basis.{moved, kept, kept_last, inv_moved, turned};
ghost use Rattle.aes_cmac.specs.Columns.{next_round_key};
ghost use Rattle.aes_cmac.specs.Mac.{zeros};

use crate::nibbles::{added, by_halves, nested, permuted};
use crate::tables::*;
use std::simd::prelude::*;

#[inline(always)]
pub(crate) fn entered(x: u8x16) -> u8x16
    ensures { result ≡ map to_basis x }
{
    by_halves(IN_LOW, IN_HIGH, x)
}

#[inline(always)]
pub(crate) fn left(x: u8x16) -> u8x16
    ensures { result ≡ map from_basis x }
{
    by_halves(OUT_LOW, OUT_HIGH, x)
}

#[inline(always)]
pub(crate) fn inv_entered(x: u8x16) -> u8x16
    ensures { result ≡ map inv_to_basis x }
{
    by_halves(INV_IN_LOW, INV_IN_HIGH, x)
}

// A state or round key that stands turned: its row r stands 1, 2 or 3 times r columns to the right.
#[inline(always)]
pub(crate) fn turned_1(x: u8x16) -> u8x16
    ensures { result ≡ turned 1 x }
{
    x.swizzle([0, 13, 10, 7, 4, 1, 14, 11, 8, 5, 2, 15, 12, 9, 6, 3])
}

#[inline(always)]
pub(crate) fn turned_2(x: u8x16) -> u8x16
    ensures { result ≡ turned 2 x }
{
    x.swizzle([0, 9, 2, 11, 4, 13, 6, 15, 8, 1, 10, 3, 12, 5, 14, 7])
}

#[inline(always)]
pub(crate) fn turned_3(x: u8x16) -> u8x16
    ensures { result ≡ turned 3 x }
{
    x.swizzle([0, 5, 10, 15, 4, 9, 14, 3, 8, 13, 2, 7, 12, 1, 6, 11])
}

// A full round: SubBytes, ShiftRows, MixColumns and AddRoundKey (FIPS 197, 5.1). ShiftRows moves no
// lane: it leaves the state turned by one more, that is by `turn`, and so the round key stands.
#[inline(always)]
pub(crate) fn full_round(x: u8x16, key: u8x16, turn: usize) -> u8x16
    requires { turn < 4 }
    ensures { (s k : List ℕ) → IsBlock s → length k ≡ 16
        → x ≡ moved (turned ((turn + 3) % 4) s) → key ≡ kept (turned turn k)
        → result ≡ moved (turned turn (xor16 (mix_columns (shift_rows (sub_bytes s))) k)) }
{
    let places = nested(x);
    let once = added(SUB_FIRST, SUB_SECOND, places);
    let twice = added(DOUBLE_FIRST, DOUBLE_SECOND, places);
    let two = twice ^ permuted(once, UP_ONE[turn]);
    ((two ^ key) ^ permuted(once, UP_THREE[turn])) ^ permuted(two, UP_ONE[turn])
}

// The last round, on a state that stands turned by 1.
#[inline(always)]
pub(crate) fn last_round(x: u8x16, key: u8x16) -> u8x16
    ensures { (s k : List ℕ) → IsBlock s → length k ≡ 16 → x ≡ moved (turned 1 s)
        → key ≡ kept_last k → result ≡ xor16 (shift_rows (sub_bytes s)) k }
{
    turned_2(added(LAST_FIRST, LAST_SECOND, nested(x))) ^ key
}

// Zeros, whatever `x` is: a byte less its half is not more than the byte. LLVM doesn't find it out.
#[inline(always)]
pub(crate) fn unseen_zeros(x: u8x16) -> u8x16
    ensures { result ≡ zeros }
{
    (x - (x >> u8x16::splat(1))).saturating_sub(x)
}

// The same places, which LLVM doesn't see to be constants: it would move a permutation by
// constants into the look-ups before it, and so make many of one.
#[inline(always)]
fn unseen(places: [u8; 16], none: u8x16) -> [u8; 16]
    requires { none ≡ zeros }
    ensures { result ≡ places }
{
    (u8x16::from_array(places) ^ none).to_array()
}

// A full round of the inverse cipher, from a state after InvShiftRows to the next one's, which
// stands turned by one less than `turn`.
#[inline(always)]
pub(crate) fn inv_full_round(x: u8x16, key: u8x16, turn: usize, none: u8x16) -> u8x16
    requires turns { turn < 4 }
    requires none { none ≡ zeros }
    ensures { (s k : List ℕ) → IsBlock s → IsBlock k → x ≡ inv_moved (turned turn s)
        → key ≡ kept (turned turn k)
        → result ≡ inv_moved (turned ((turn + 3) % 4)
        (inv_shift_rows (inv_mix_columns (xor16 (inv_sub_bytes s) k)))) }
{
    let y = added(BACK_FIRST, BACK_SECOND, nested(x)) ^ key;
    let nine = by_halves(TIMES_9_LOW, TIMES_9_HIGH, y);
    let eleven = by_halves(TIMES_11_LOW, TIMES_11_HIGH, y);
    let thirteen = by_halves(TIMES_13_LOW, TIMES_13_HIGH, y);
    let fourteen = by_halves(TIMES_14_LOW, TIMES_14_HIGH, y);
    let up_one = unseen(UP_ONE[turn], none);
    let two = thirteen ^ permuted(nine, up_one);
    (fourteen ^ permuted(eleven, up_one)) ^ permuted(two, unseen(UP_TWO[turn], none))
}

#[inline(always)]
pub(crate) fn inv_last_round(x: u8x16, key: u8x16) -> u8x16
    ensures { (s k : List ℕ) → IsBlock s → length k ≡ 16 → x ≡ inv_moved s → key ≡ k
        → result ≡ xor16 (inv_sub_bytes s) k }
{
    added(PLAIN_FIRST, PLAIN_SECOND, nested(x)) ^ key
}

// SubBytes' constant in the basis.
const ADDED: u8 = 0xf3;

#[inline(always)]
pub(crate) fn added_to_all(key: u8x16) -> u8x16
    ensures { (s : List ℕ) → key ≡ moved s → result ≡ kept s }
{
    key ^ u8x16::splat(ADDED)
}

// The round key after `key`, both in the basis, where `constant` is the standard's round constant
// in the basis, and SubBytes' constant added.
#[inline(always)]
pub(crate) fn next_round_key(key: u8x16, constant: u8) -> u8x16
    ensures { (s : List ℕ) (c : ℕ) → IsBlock s → key ≡ moved s
        → constant ≡ to_basis (bit_xor c affine_constant)
        → result ≡ moved (next_round_key s (c ∷ 0 ∷ 0 ∷ 0 ∷ [])) }
{
    let zero = u8x16::splat(0);
    let one = key
        ^ zero.shuffle(
            key,
            [0, 0, 0, 0, 16, 17, 18, 19, 20, 21, 22, 23, 24, 25, 26, 27],
        );
    let all = one
        ^ zero.shuffle(
            one,
            [0, 0, 0, 0, 0, 0, 0, 0, 16, 17, 18, 19, 20, 21, 22, 23],
        );
    let changed = added(SUB_FIRST, SUB_SECOND, nested(key)).swizzle([
        13, 14, 15, 12, 13, 14, 15, 12, 13, 14, 15, 12, 13, 14, 15, 12,
    ]);
    let constants = u8x16::from_array([
        constant, ADDED, ADDED, ADDED, constant, ADDED, ADDED, ADDED, constant, ADDED, ADDED,
        ADDED, constant, ADDED, ADDED, ADDED,
    ]);
    all ^ (changed ^ constants)
}
