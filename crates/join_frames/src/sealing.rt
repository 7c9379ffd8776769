ghost use Rattle.std.specs.Prelude.{◌≡◌, ◌<◌, ◌⊎◌, ◌∷◌, ◌++◌, ◌+◌, length, take, drop};
ghost use Rattle.std.specs.Prelude.{List, ℕ, None, Some};
ghost use Rattle.key_vault.specs.Table.{nwk_at};
ghost use Rattle.join_frames.specs.Mics.{mic};
ghost use Rattle.join_frames.specs.Accepts.{mic_text, accept_text, fixed_fields};

use crate::accept::Accept;
use crate::mic::first_four;
use aes_cmac::{Cmac, RoundKeys};
use key_vault::{BlockFn, Vault};
use std::marker::Model;

/// The bytes of a join-accept, 17 of them or 33.
#[derive(Drop)]
pub struct AcceptBytes {
    bytes: [u8; 33],
    len: usize,
}

impl Model for AcceptBytes {
    ghost use Rattle.std.specs.Prelude.{◌≡◌, ◌⊎◌, List, ℕ, take};

    ghost Value = { List ℕ };

    ghost view = { λ a. take a.len a.bytes };

    ghost invariant = { λ a. (a.len ≡ 17) ⊎ (a.len ≡ 33) };
}

impl AcceptBytes {
    // Of an accept without CFList.
    fn of_one(block: [u8; 16]) -> AcceptBytes
        ensures value { result ≡ 0x20 ∷ block }
        ensures sized { length result ≡ 17 }
    {
        let mut bytes = [0x20; 33];
        bytes[1..17].copy_from_slice(&block);
        AcceptBytes { bytes, len: 17 }
    }

    // Of an accept with a CFList.
    fn of_two(first: [u8; 16], second: [u8; 16]) -> AcceptBytes
        ensures value { result ≡ 0x20 ∷ first ++ second }
        ensures sized { length result ≡ 33 }
    {
        let mut bytes = [0x20; 33];
        bytes[1..17].copy_from_slice(&first);
        bytes[17..].copy_from_slice(&second);
        AcceptBytes { bytes, len: 33 }
    }

    /// The bytes, MHDR first.
    pub fn as_slice(&self) -> &[u8]
        ensures bytes { result.now ≡ self.now }
        ensures sized { (length result.now ≡ 17) ⊎ (length result.now ≡ 33) }
    {
        &self.bytes[..self.len]
    }
}

// The MIC under JSIntKey.
#[tactic(auto, unfolding(crate::specs::Mics::mic, crate::specs::Accepts::mic_text))]
pub(crate) fn accept_mic(js_int: &[u8; 16], accept: &Accept) -> [u8; 4]
    ensures { result ≡ mic js_int.now (mic_text accept.now) }
{
    let keys = RoundKeys::new(js_int);
    let mut cmac = Cmac::new(&keys);
    cmac.update(&[accept.kind.join_req_type()]);
    cmac.update(&accept.seed.join_eui.to_wire());
    cmac.update(&accept.seed.counter.to_le_bytes());
    cmac.update(&[0x20]);
    cmac.update(&accept.fixed_fields());
    cmac.update(accept.cf_list());
    first_four(cmac.finish())
}

// A block of these.
pub(crate) fn joined(first: &[u8], last: &[u8]) -> [u8; 16]
    requires { length first.now + length last.now ≡ 16 }
    ensures { result ≡ first.now ++ last.now }
{
    let mut block = [0; 16];
    block[..first.len()].copy_from_slice(first);
    block[first.len()..].copy_from_slice(last);
    block
}

// The block of an accept without CFList.
fn only_block(accept: &Accept, mic: [u8; 4]) -> [u8; 16]
    ensures { result ≡ fixed_fields accept.now ++ mic }
{
    joined(&accept.fixed_fields(), &mic)
}

// The blocks of an accept with this CFList.
fn first_block(accept: &Accept, cf: [u8; 16]) -> [u8; 16]
    ensures { result ≡ fixed_fields accept.now ++ take 4 cf }
{
    joined(&accept.fixed_fields(), &cf[..4])
}

fn second_block(cf: [u8; 16], mic: [u8; 4]) -> [u8; 16]
    ensures { result ≡ drop 4 cf ++ mic }
{
    joined(&cf[4..], &mic)
}

/// The join-accept for the device of row `i`: 17 bytes, or 33 with a CFList (LoRaWAN 1.1, 6.2.3).
pub fn accept_bytes<E: BlockFn, D: BlockFn>(
    vault: &Vault<E, D>,
    i: u32,
    accept: &Accept,
) -> AcceptBytes
    requires { i < length vault.now }
    ensures value { result ≡ accept_text (nwk_at vault.now i) accept.now }
    ensures short { accept.now.radio.cf ≡ None → length result ≡ 17 }
    ensures long { (cf : List ℕ) → accept.now.radio.cf ≡ Some cf → length result ≡ 33 }
{
    let mic = accept_mic(&vault.js_int(i, accept.dev), accept);
    let rejoin = accept.kind.is_rejoin();
    match accept.radio.cf {
        None => {
            let mut blocks = [only_block(accept, mic)];
            vault.seal(i, accept.dev, rejoin, &mut blocks);
            AcceptBytes::of_one(blocks[0])
        }
        Some(cf) => {
            let mut blocks = [first_block(accept, cf), second_block(cf, mic)];
            vault.seal(i, accept.dev, rejoin, &mut blocks);
            AcceptBytes::of_two(blocks[0], blocks[1])
        }
    }
}
