ghost use Rattle.std.specs.Prelude.{◌≡◌};
ghost use Rattle.agreements.specs.declared.unread.Unread.TheVariants.{Memory};

use std::alloc::AllocError;

/// Why something wasn't read.
#[derive(Drop)]
pub enum Unread<F> {
    /// It is refused, for this fault.
    Refused(F),
    /// Memory is wanting.
    Memory,
}

impl<F> From<AllocError> for Unread<F> {
    ghost from_gives = { λ _ e. e ≡ Memory };

    fn from(_: AllocError) -> Self {
        Unread::Memory
    }
}

impl<F> From<wire_ids::Memory> for Unread<F> {
    ghost from_gives = { λ _ e. e ≡ Memory };

    fn from(_: wire_ids::Memory) -> Self {
        Unread::Memory
    }
}
