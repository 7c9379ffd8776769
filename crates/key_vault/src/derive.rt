ghost use Rattle.std.specs.Prelude.{◌≡◌};
ghost use Rattle.key_vault.specs.Keys.{js_int_key, js_enc_key, network_keys, app_session_key};
ghost use Rattle.key_vault.specs.Keys.{device_block, session_block};

use aes_cmac::{BlockCipher, RoundKeys};
use wire_ids::{Eui, Seed, SessionKeys};

// The block of a key that the DevEUI names.
#[tactic(auto, unfolding(crate::specs::Keys::device_block))]
fn device_block(letter: u8, dev: Eui) -> [u8; 16]
    ensures { result ≡ device_block letter dev.0 }
{
    let mut block = [0; 16];
    block[0] = letter;
    block[1..9].copy_from_slice(&dev.to_wire());
    block
}

// The block of a session key.
#[tactic(auto, unfolding(crate::specs::Keys::session_block))]
fn session_block(letter: u8, seed: &Seed) -> [u8; 16]
    ensures { result ≡ session_block letter seed.now }
{
    let mut block = [0; 16];
    block[0] = letter;
    block[1..4].copy_from_slice(&seed.nonce.to_wire());
    block[4..12].copy_from_slice(&seed.join_eui.to_wire());
    block[12..14].copy_from_slice(&seed.counter.to_le_bytes());
    block
}

// JSIntKey and JSEncKey of a device under its NwkKey (LoRaWAN 1.1, 6.1.1.4).
#[tactic(auto, unfolding(crate::specs::Keys::js_int_key))]
pub(crate) fn js_int<C: BlockCipher>(nwk: &C, dev: Eui) -> [u8; 16]
    ensures { result ≡ js_int_key (C.key nwk.now) dev.0 }
{
    nwk.encrypt_block(device_block(6, dev))
}

#[tactic(auto, unfolding(crate::specs::Keys::js_enc_key))]
pub(crate) fn js_enc<C: BlockCipher>(nwk: &C, dev: Eui) -> [u8; 16]
    ensures { result ≡ js_enc_key (C.key nwk.now) dev.0 }
{
    nwk.encrypt_block(device_block(5, dev))
}

// FNwkSIntKey, SNwkSIntKey and NwkSEncKey under the NwkKey (LoRaWAN 1.1, 6.2.3).
#[tactic(auto, unfolding(crate::specs::Keys::network_keys))]
pub(crate) fn session_keys<C: BlockCipher>(nwk: &C, seed: &Seed) -> SessionKeys
    ensures { result ≡ network_keys (C.key nwk.now) seed.now }
{
    SessionKeys {
        f: nwk.encrypt_block(session_block(1, seed)),
        s: nwk.encrypt_block(session_block(3, seed)),
        e: nwk.encrypt_block(session_block(4, seed)),
    }
}

// AppSKey under the AppKey (LoRaWAN 1.1, 6.2.3).
#[tactic(auto, unfolding(crate::specs::Keys::app_session_key))]
pub(crate) fn app_s_key<C: BlockCipher>(app: &C, seed: &Seed) -> [u8; 16]
    ensures { result ≡ app_session_key (C.key app.now) seed.now }
{
    app.encrypt_block(session_block(2, seed))
}

/// JSIntKey of a device under its NwkKey (LoRaWAN 1.1, 6.1.1.4).
pub fn js_int_of(nwk: &[u8; 16], dev: Eui) -> [u8; 16]
    ensures { result ≡ js_int_key nwk.now dev.0 }
{
    js_int(&RoundKeys::new(nwk), dev)
}

/// JSEncKey of a device under its NwkKey (LoRaWAN 1.1, 6.1.1.4).
pub fn js_enc_of(nwk: &[u8; 16], dev: Eui) -> [u8; 16]
    ensures { result ≡ js_enc_key nwk.now dev.0 }
{
    js_enc(&RoundKeys::new(nwk), dev)
}

/// FNwkSIntKey, SNwkSIntKey and NwkSEncKey of an activation under the NwkKey (LoRaWAN 1.1, 6.2.3).
pub fn session_keys_of(nwk: &[u8; 16], seed: &Seed) -> SessionKeys
    ensures { result ≡ network_keys nwk.now seed.now }
{
    session_keys(&RoundKeys::new(nwk), seed)
}

/// AppSKey of an activation under the AppKey (LoRaWAN 1.1, 6.2.3).
pub fn app_s_key_of(app: &[u8; 16], seed: &Seed) -> [u8; 16]
    ensures { result ≡ app_session_key app.now seed.now }
{
    app_s_key(&RoundKeys::new(app), seed)
}
