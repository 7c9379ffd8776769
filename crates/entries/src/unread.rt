use wire_ids::Memory;

/// Why no entry was read.
#[derive(Clone, Copy)]
pub(crate) enum Unread {
    /// Want of memory.
    Memory,
    /// The bytes are no entry's spelling.
    NoEntry,
}

impl From<Memory> for Unread {
    ghost use Rattle.std.specs.Prelude.{◌≡◌};
    ghost use Rattle.entries.specs.declared.unread.Unread.TheVariants as cause;

    ghost from_gives = { λ _ e. e ≡ cause.Memory };

    fn from(_: Memory) -> Self {
        Unread::Memory
    }
}
