ghost use Rattle.std.specs.Prelude.{◌≡◌, ◌<◌, length};
ghost use Rattle.key_vault.specs.Table.{root_key};

use crate::block_fn::{BlockFn, RootKind};
use crate::vault::Vault;
use aes_cmac::BlockCipher;
use std::marker::Model;

// The cipher under a root key of a row, by the vault's two functions. Contracts see the key.
#[derive(Drop)]
pub(crate) struct RowCipher<'v, E: BlockFn, D: BlockFn> {
    vault: &'v Vault<E, D>,
    row: u32,
    kind: RootKind,
}

impl<'v, E: BlockFn, D: BlockFn> Model for RowCipher<'v, E, D> {
    ghost use Rattle.std.specs.Prelude.{◌<◌, ℕ, List, length};
    ghost use Rattle.key_vault.specs.Table.{root_key};

    ghost Value = { List ℕ };

    ghost view = { λ c. root_key c.vault.now c.kind c.row };

    ghost invariant = { λ c. c.row < length c.vault.now };
}

impl<'v, E: BlockFn, D: BlockFn> RowCipher<'v, E, D> {
    pub(crate) fn new(vault: &'v Vault<E, D>, row: u32, kind: RootKind) -> RowCipher<'v, E, D>
        requires { row < length vault.now }
        ensures { result ≡ root_key vault.now kind row }
    {
        RowCipher { vault, row, kind }
    }
}

impl<'v, E: BlockFn, D: BlockFn> BlockCipher for RowCipher<'v, E, D> {
    ghost key = { λ key. key };

    fn encrypt_block(&self, block: [u8; 16]) -> [u8; 16] {
        self.vault.encrypted(self.row, self.kind, block)
    }

    fn decrypt_block(&self, block: [u8; 16]) -> [u8; 16] {
        self.vault.decrypted(self.row, self.kind, block)
    }
}
