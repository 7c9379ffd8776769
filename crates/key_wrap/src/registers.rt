ghost use Rattle.std.specs.Prelude.{◌≡◌, ◌↔◌, ◌++◌, take, drop, IsTrue};
ghost use Rattle.key_wrap.specs.Wrap.{initial_value, xor_step, start, step, unstep};
ghost use Rattle.key_wrap.specs.Wrap.{registers_of, registers_text};

use aes_cmac::{RoundKeys, same_bytes};
use std::marker::Model;

// The initial value of A (2.2.3.1).
const INITIAL_VALUE: [u8; 8] = [0xa6; 8];

// A, and the halves R[1] and R[2], each 64 bits, the highest byte first.
#[derive(Clone, Copy)]
pub(crate) struct Registers {
    a: [u8; 8],
    r1: [u8; 8],
    r2: [u8; 8],
}

impl Model for Registers {
    ghost use Rattle.key_wrap.specs.Wrap.{Registers};

    ghost Value = { Registers };

    ghost view = { λ s. record { a = s.a; r1 = s.r1; r2 = s.r2 } };

    ghost inverse = { λ s. record { a = s.a; r1 = s.r1; r2 = s.r2 } };
}

// The block of two registers.
fn joined(a: [u8; 8], r: [u8; 8]) -> [u8; 16]
    ensures { result ≡ a ++ r }
{
    let mut block = [0; 16];
    block[..8].copy_from_slice(&a);
    block[8..].copy_from_slice(&r);
    block
}

// The two registers of a block.
fn halves(block: [u8; 16]) -> ([u8; 8], [u8; 8])
    ensures first { result.0 ≡ take 8 block }
    ensures second { result.1 ≡ drop 8 block }
{
    let (parts, _) = block.as_chunks::<8>();
    (parts[0], parts[1])
}

#[tactic(auto, unfolding(crate::specs::Wrap::xor_step))]
fn xor_step(a: [u8; 8], t: u64) -> [u8; 8]
    ensures { result ≡ xor_step a t }
{
    (u64::from_be_bytes(a) ^ t).to_be_bytes()
}

impl Registers {
    // Those of a key, before the first step.
    pub(crate) fn start(key: &[u8; 16]) -> Registers
        ensures { result ≡ start key.now }
    {
        let (r1, r2) = halves(*key);
        Registers {
            a: INITIAL_VALUE,
            r1,
            r2,
        }
    }

    // Those of a wrapped key.
    pub(crate) fn of(wrapped: &[u8; 24]) -> Registers
        ensures { result ≡ registers_of wrapped.now }
    {
        let (parts, _) = wrapped.as_chunks::<8>();
        Registers {
            a: parts[0],
            r1: parts[1],
            r2: parts[2],
        }
    }

    // What a step encrypts.
    fn block(self) -> [u8; 16]
        ensures { result ≡ self.a ++ self.r1 }
    {
        joined(self.a, self.r1)
    }

    // Those after step `t`, which has encrypted the block to `block`.
    fn after(self, t: u64, block: [u8; 16]) -> Registers
        ensures { result
            ≡ record { a = xor_step (take 8 block) t; r1 = self.r2; r2 = drop 8 block } }
    {
        let (high, r2) = halves(block);
        let a = xor_step(high, t);
        let r1 = self.r2;
        Registers { a, r1, r2 }
    }

    #[tactic(auto, unfolding(crate::specs::Wrap::step))]
    pub(crate) fn step(self, keys: &RoundKeys, t: u64) -> Registers
        ensures { result ≡ step keys.now t self }
    {
        self.after(t, keys.encrypt(self.block()))
    }

    // A step of three at once, whose blocks are encrypted together.
    #[tactic(auto, unfolding(crate::specs::Wrap::step))]
    pub(crate) fn step_three(
        all: (Registers, Registers, Registers),
        keys: &RoundKeys,
        t: u64,
    ) -> (Registers, Registers, Registers)
        ensures first { result.0 ≡ step keys.now t all.0 }
        ensures second { result.1 ≡ step keys.now t all.1 }
        ensures third { result.2 ≡ step keys.now t all.2 }
    {
        let (first, second, third) = all;
        let [block1, block2, block3] = keys.encrypt_three([
            first.block(),
            second.block(),
            third.block(),
        ]);
        (
            first.after(t, block1),
            second.after(t, block2),
            third.after(t, block3),
        )
    }

    #[tactic(auto, unfolding(crate::specs::Wrap::unstep))]
    pub(crate) fn unstep(self, keys: &RoundKeys, t: u64) -> Registers
        ensures { result ≡ unstep keys.now t self }
    {
        let (a, r1) = halves(keys.decrypt(joined(xor_step(self.a, t), self.r2)));
        let r2 = self.r1;
        Registers { a, r1, r2 }
    }

    // The check of a key that is unwrapped (2.2.3).
    pub(crate) fn has_initial_value(&self) -> bool
        ensures { IsTrue result ↔ (self.now.a ≡ initial_value) }
    {
        same_bytes(&self.a, &INITIAL_VALUE)
    }

    pub(crate) fn key(self) -> [u8; 16]
        ensures { result ≡ self.r1 ++ self.r2 }
    {
        joined(self.r1, self.r2)
    }

    // The wrapped key.
    pub(crate) fn text(self) -> [u8; 24]
        ensures { result ≡ registers_text self }
    {
        let mut text = [0; 24];
        text[..16].copy_from_slice(&joined(self.a, self.r1));
        text[16..].copy_from_slice(&self.r2);
        text
    }
}
