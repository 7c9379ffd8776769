ghost use Rattle.std.specs.Prelude.{◌≡◌};
ghost use Rattle.book.specs.declared.faults.BookFault.TheVariants.{Memory as NoMemory};

use wire_ids::Memory;

/// Why a book wasn't opened.
#[derive(Clone, Copy, Debug, PartialEq, Eq)]
pub enum BookFault {
    /// A call of the keeper failed: its count of faults has risen.
    KeeperFault,
    /// The record of this number, from 0 on, is the first that is no entry, or none that fits.
    BadEntry { number: u64 },
    /// The entries are those of another tables text.
    OtherTables,
    /// The keeper has no room for the entries of the opening.
    Full,
    /// Want of memory.
    Memory,
}

impl From<Memory> for BookFault {
    ghost from_gives = { λ _ e. e ≡ NoMemory };

    fn from(_: Memory) -> Self {
        BookFault::Memory
    }
}

/// What became of the entry that a broken book had tried to write.
#[derive(Clone, Copy, Debug, PartialEq, Eq)]
pub enum Mended {
    /// The book was whole, or the entry isn't in the keeper.
    Whole,
    /// The entry is in the keeper, at this place, and so in the book from now on.
    Found { place: u64 },
    /// A call of the keeper failed: its count of faults has risen, and the book is still broken.
    Fault,
}
