ghost use Rattle.std.specs.Prelude.{◌≡◌, ℕ, List};

/// Which of a device's two root keys.
#[derive(Clone, Copy, Debug, PartialEq, Eq)]
pub enum RootKind {
    Nwk,
    App,
}

/// A function on one block of 16 bytes under the root key of a row: each closure of this form is
/// one. A type can keep a fact of a trait of its own, and not of `Fn`.
pub trait BlockFn: Drop {
    ghost use Rattle.key_vault.specs.declared.block_fn.RootKind.{RootKind};

    ghost may: { Self → ℕ → RootKind → List ℕ → Type 0 };

    ghost gives: { Self → ℕ → RootKind → List ℕ → List ℕ → Type 0 };

    /// What it answers for row `i`.
    fn block(&self, i: u32, kind: RootKind, block: [u8; 16]) -> [u8; 16]
        requires { may self.now i kind block }
        ensures { gives self.now i kind block result };
}

impl<F: Fn(u32, RootKind, [u8; 16]) -> [u8; 16]> BlockFn for F {
    ghost may = { λ f i kind block. F.pre f i kind block };

    ghost gives = { λ f i kind block result. F.post f i kind block result };

    fn block(&self, i: u32, kind: RootKind, block: [u8; 16]) -> [u8; 16] {
        self(i, kind, block)
    }
}
