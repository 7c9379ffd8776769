ghost use Rattle.std.specs.Prelude.{◌≡◌, ◌<◌, length, vec_len, IfOk};
ghost use Rattle.aes_cmac.specs.Aes.{encrypted, decrypted};
ghost use Rattle.key_vault.specs.Table.{root_key};

use crate::block_fn::RootKind;
use aes_cmac::RoundKeys;
use std::alloc::{AllocError, Global};
use std::marker::Model;
use wire_ids::{Memory, RootKeys};

// The round keys of a row. Contracts see its root keys.
#[derive(Clone, Copy)]
struct Row {
    nwk: RoundKeys,
    app: RoundKeys,
}

impl Model for Row {
    ghost use Rattle.wire_ids.specs.declared.keys.RootKeys.{RootKeys};

    ghost Value = { RootKeys };

    ghost view = { λ row. record { nwk = row.nwk; app = row.app } };

    ghost inverse = { λ keys. record { nwk = keys.nwk; app = keys.app } };
}

// The round keys of each row.
fn expanded(alloc: Global, keys: &[RootKeys]) -> Result<Vec<Row>, AllocError>
    ensures { IfOk result (λ rows. rows.items ≡ keys.now) }
{
    let mut rows = Vec::with_capacity(alloc, keys.len())?;
    for row in keys {
        rows.push(Row {
            nwk: RoundKeys::new(&row.nwk),
            app: RoundKeys::new(&row.app),
        })?;
    }
    Ok(rows)
}

/// Root keys with their key schedules made, for the two functions of a vault. Contracts see the
/// table of the keys.
#[derive(Drop)]
pub struct KeyRing {
    rows: Vec<Row>,
}

impl Model for KeyRing {
    ghost use Rattle.std.specs.Prelude.{List};
    ghost use Rattle.wire_ids.specs.declared.keys.RootKeys.{RootKeys};

    ghost Value = { List RootKeys };

    ghost view = { λ ring. ring.rows.items };
}

impl KeyRing {
    /// The ring of `keys`, in their order.
    pub fn new(alloc: Global, keys: &[RootKeys]) -> Result<KeyRing, Memory>
        ensures { IfOk result (λ ring. ring ≡ keys.now) }
    {
        let rows = expanded(alloc, keys)?;
        Ok(KeyRing { rows })
    }

    /// The encryption of `block` under a root key of row `i`.
    pub fn encrypt(&self, i: u32, kind: RootKind, block: [u8; 16]) -> [u8; 16]
        requires { i < length self.now }
        ensures { result ≡ encrypted (root_key self.now kind i) block }
    {
        let row = &self.rows[i as usize];
        match kind {
            RootKind::Nwk => row.nwk.encrypt(block),
            RootKind::App => row.app.encrypt(block),
        }
    }

    /// The decryption of `block` under a root key of row `i`.
    pub fn decrypt(&self, i: u32, kind: RootKind, block: [u8; 16]) -> [u8; 16]
        requires { i < length self.now }
        ensures { result ≡ decrypted (root_key self.now kind i) block }
    {
        let row = &self.rows[i as usize];
        match kind {
            RootKind::Nwk => row.nwk.decrypt(block),
            RootKind::App => row.app.decrypt(block),
        }
    }
}
