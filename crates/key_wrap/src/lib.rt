//! AES key wrap (RFC 3394) of a key of 16 bytes.
#![tactic(auto)]

ghost use Rattle.std.specs.Prelude.{◌≡◌, ◌↔◌, ℕ, List, Some, None, IfSome, map};
ghost use Rattle.aes_cmac.specs.Aes.{IsBlock};
ghost use Rattle.key_wrap.specs.Wrap.{wrapped_key};

pub mod laws;
mod registers;

use aes_cmac::RoundKeys;
use registers::Registers;

/// The wrapping of `key` under `kek`, a key-encryption key: 24 bytes (RFC 3394, 2.2.1).
pub fn wrap(kek: &[u8; 16], key: &[u8; 16]) -> [u8; 24]
    ensures { result ≡ wrapped_key kek.now key.now }
{
    let keys = RoundKeys::new(kek);
    let mut registers = Registers::start(key);
    'steps: for done in 0..12 {
        registers = registers.step(&keys, done + 1);
    }
    registers.text()
}

// The wrappings of three keys under `kek`.
fn all_wrapped(
    kek: &[u8; 16],
    key1: &[u8; 16],
    key2: &[u8; 16],
    key3: &[u8; 16],
) -> ([u8; 24], [u8; 24], [u8; 24])
    ensures first { result.0 ≡ wrapped_key kek.now key1.now }
    ensures second { result.1 ≡ wrapped_key kek.now key2.now }
    ensures third { result.2 ≡ wrapped_key kek.now key3.now }
{
    let keys = RoundKeys::new(kek);
    let mut all = (
        Registers::start(key1),
        Registers::start(key2),
        Registers::start(key3),
    );
    'all_steps: for done in 0..12 {
        all = Registers::step_three(all, &keys, done + 1);
    }
    (all.0.text(), all.1.text(), all.2.text())
}

/// The wrappings of three keys under `kek`, each as `wrap` gives it. They take less than two thirds
/// of the time of three calls.
pub fn wrap_three(kek: &[u8; 16], keys: &[[u8; 16]; 3]) -> [[u8; 24]; 3]
    ensures { result ≡ map (wrapped_key kek.now) keys.now }
{
    let (first, second, third) = all_wrapped(kek, &keys[0], &keys[1], &keys[2]);
    [first, second, third]
}

/// The key whose wrapping under `kek` is `wrapped`, or None exactly where there is none, which is
/// where the registers don't end as they would begin (RFC 3394, 2.2.2 and 2.2.3).
pub fn unwrap(kek: &[u8; 16], wrapped: &[u8; 24]) -> Option<[u8; 16]>
    ensures wraps { IfSome result (λ key. wrapped_key kek.now key ≡ wrapped.now) }
    ensures undoes { (key : List ℕ) → IsBlock key → wrapped_key kek.now key ≡ wrapped.now
        → result ≡ Some key }
    ensures none { (result ≡ None) ↔ ((key : List ℕ) → IsBlock key
        → wrapped_key kek.now key ≡ wrapped.now → ⊥) }
{
    let keys = RoundKeys::new(kek);
    let mut registers = Registers::of(wrapped);
    'steps: for undone in 0..12 {
        registers = registers.unstep(&keys, 12 - undone);
    }
    if registers.has_initial_value() {
        Some(registers.key())
    } else {
        None
    }
}
