ghost use Rattle.std.specs.Prelude.{◌≡◌, ◌<◌, ◌≤◌, List, length, vec_len, map};
ghost use Rattle.aes_cmac.specs.Aes.{encrypted, decrypted};
ghost use Rattle.aes_cmac.specs.Mac.{mac};
ghost use Rattle.key_vault.specs.Keys.{js_int_key, js_enc_key, network_keys, app_session_key};
ghost use Rattle.key_vault.specs.Table.{Serves, Encrypts, Decrypts, root_key, nwk_at, app_at};
ghost use Rattle.key_vault.specs.Table.{accept_key};

use crate::block_fn::{BlockFn, RootKind};
use crate::derive;
use crate::key_ring::KeyRing;
use crate::row_cipher::RowCipher;
use aes_cmac::{BlockCipher, RoundKeys, cmac_of};
use std::marker::Model;
use std::snapshot::Snapshot;
use wire_ids::{Eui, RootKeys, Seed, SessionKeys};

/// Root keys behind two functions, AES encryption and decryption under them. The vault has no key
/// itself. Contracts see the table of the keys.
#[derive(Drop)]
pub struct Vault<E: BlockFn, D: BlockFn> {
    encrypt: E,
    decrypt: D,
    count: u32,
    keys: Snapshot<Vec<RootKeys>>,
}

impl<E: BlockFn, D: BlockFn> Model for Vault<E, D> {
    ghost use Rattle.std.specs.Prelude.{◌≡◌, List, vec_len};
    ghost use Rattle.key_vault.specs.Table.{Serves, Encrypts, Decrypts};
    ghost use Rattle.wire_ids.specs.declared.keys.RootKeys.{RootKeys};

    ghost Value = { List RootKeys };

    ghost view = { λ v. v.keys.value.items };

    ghost invariant = { λ v. (vec_len v.keys.value ≡ v.count)
        × Serves (E.may v.encrypt) v.count × Encrypts (E.gives v.encrypt) v.keys.value.items
        × Serves (D.may v.decrypt) v.count × Decrypts (D.gives v.decrypt) v.keys.value.items };
}

impl<E: BlockFn, D: BlockFn> Vault<E, D> {
    /// The vault of `keys`, at most 4,096, whose root keys `encrypt` and `decrypt` have. `keys` is
    /// not kept.
    pub fn new(keys: &Vec<RootKeys>, encrypt: E, decrypt: D) -> Vault<E, D>
        requires few { vec_len keys.now ≤ 4096 }
        requires may_encrypt { Serves (E.may encrypt) (vec_len keys.now) }
        requires encrypts { Encrypts (E.gives encrypt) keys.now.items }
        requires may_decrypt { Serves (D.may decrypt) (vec_len keys.now) }
        requires decrypts { Decrypts (D.gives decrypt) keys.now.items }
        ensures { result ≡ keys.now.items }
    {
        let count = keys.len() as u32;
        Vault {
            encrypt,
            decrypt,
            count,
            keys: Snapshot::of(keys),
        }
    }

    // The encryption of `block` under a root key of row `i`.
    pub(crate) fn encrypted(&self, i: u32, kind: RootKind, block: [u8; 16]) -> [u8; 16]
        requires { i < length self.now }
        ensures { result ≡ encrypted (root_key self.now kind i) block }
    {
        self.encrypt.block(i, kind, block)
    }

    // The decryption of `block` under a root key of row `i`.
    pub(crate) fn decrypted(&self, i: u32, kind: RootKind, block: [u8; 16]) -> [u8; 16]
        requires { i < length self.now }
        ensures { result ≡ decrypted (root_key self.now kind i) block }
    {
        self.decrypt.block(i, kind, block)
    }

    // The ciphers under the NwkKey and under the AppKey of row `i`.
    fn nwk(&self, i: u32) -> RowCipher<'_, E, D>
        requires { i < length self.now }
        ensures { result ≡ nwk_at self.now i }
    {
        RowCipher::new(self, i, RootKind::Nwk)
    }

    fn app(&self, i: u32) -> RowCipher<'_, E, D>
        requires { i < length self.now }
        ensures { result ≡ app_at self.now i }
    {
        RowCipher::new(self, i, RootKind::App)
    }

    /// JSIntKey of row `i` and the device (LoRaWAN 1.1, 6.1.1.4).
    pub fn js_int(&self, i: u32, dev: Eui) -> [u8; 16]
        requires { i < length self.now }
        ensures { result ≡ js_int_key (nwk_at self.now i) dev.0 }
    {
        derive::js_int(&self.nwk(i), dev)
    }

    /// JSEncKey of row `i` and the device (LoRaWAN 1.1, 6.1.1.4).
    pub fn js_enc(&self, i: u32, dev: Eui) -> [u8; 16]
        requires { i < length self.now }
        ensures { result ≡ js_enc_key (nwk_at self.now i) dev.0 }
    {
        derive::js_enc(&self.nwk(i), dev)
    }

    /// The network session keys of row `i` (LoRaWAN 1.1, 6.2.3).
    pub fn session_keys(&self, i: u32, seed: &Seed) -> SessionKeys
        requires { i < length self.now }
        ensures { result ≡ network_keys (nwk_at self.now i) seed.now }
    {
        derive::session_keys(&self.nwk(i), seed)
    }

    /// AppSKey of row `i` (LoRaWAN 1.1, 6.2.3).
    pub fn app_s_key(&self, i: u32, seed: &Seed) -> [u8; 16]
        requires { i < length self.now }
        ensures { result ≡ app_session_key (app_at self.now i) seed.now }
    {
        derive::app_s_key(&self.app(i), seed)
    }

    /// The AES-CMAC of `text`, of any length, under the NwkKey of row `i`: 16 bytes (RFC 4493,
    /// 2.4).
    pub fn nwk_cmac(&self, i: u32, text: &[u8]) -> [u8; 16]
        requires { i < length self.now }
        ensures { result ≡ mac (nwk_at self.now i) text.now }
    {
        cmac_of(&self.nwk(i), text)
    }

    /// Encrypts a join-accept, which is the AES decrypt operation on each block of 16 bytes: under
    /// the NwkKey of row `i` after a join-request, and under JSEncKey of that row and the device
    /// after a rejoin-request (LoRaWAN 1.1, 6.2.3).
    #[tactic(auto, unfolding(crate::specs::Table::accept_key))]
    pub fn seal(&self, i: u32, dev: Eui, rejoin: bool, blocks: &mut [[u8; 16]])
        requires { i < length self.now }
        ensures { blocks.new
            ≡ map (decrypted (accept_key (nwk_at self.now i) dev.0 rejoin)) blocks.old }
    {
        if rejoin {
            decrypt_each(&RoundKeys::new(&self.js_enc(i, dev)), blocks);
        } else {
            decrypt_each(&self.nwk(i), blocks);
        }
    }
}

// Decrypts each block.
fn decrypt_each<C: BlockCipher>(cipher: &C, blocks: &mut [[u8; 16]])
    ensures { blocks.new ≡ map (decrypted (C.key cipher.now)) blocks.old }
{
    for block in blocks.iter_mut() {
        *block = cipher.decrypt_block(*block);
    }
}

fn is_send<T: Send>() {}

// Key rings may be handed to another thread, and a vault where its two functions may.
fn sends<E: BlockFn + Send, D: BlockFn + Send>() {
    is_send::<KeyRing>();
    is_send::<Vault<E, D>>();
}
