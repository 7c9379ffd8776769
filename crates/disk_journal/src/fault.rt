ghost use Rattle.std.specs.Prelude.{◌≡◌};
ghost use Rattle.disk_journal.specs.declared.fault.JournalFault.TheVariants.{DiskFault, Memory};

use disk_model::Failed;
use std::alloc::AllocError;

/// Why a call of a journal failed.
#[derive(Clone, Copy, Debug, PartialEq, Eq)]
pub enum JournalFault {
    /// A call of the disk failed.
    DiskFault,
    /// The disk holds more than 17 bytes that begin otherwise than a journal does, first at this
    /// place.
    NotAJournal { place: u64 },
    /// The record has no room.
    Full,
    /// Behind the kept end, this place, stands anything but the one record that was tried.
    Changed { place: u64 },
    /// Want of memory.
    Memory,
}

impl From<Failed> for JournalFault {
    ghost from_gives = { λ _ e. e ≡ DiskFault };

    fn from(_: Failed) -> Self {
        JournalFault::DiskFault
    }
}

impl From<AllocError> for JournalFault {
    ghost from_gives = { λ _ e. e ≡ Memory };

    fn from(_: AllocError) -> Self {
        JournalFault::Memory
    }
}
