ghost use Rattle.std.specs.Prelude.{◌≡◌};
ghost use Rattle.desk_top.specs.declared.fault.Fault.TheVariants as fault;

use disk_model::Failed;
use line_reader::LineFault;
use std::alloc::AllocError;
use wire_ids::Memory;

// Why a journal isn't opened, or not gone on with. A line is the last one that is printed.
#[derive(Drop)]
pub(crate) enum Stop {
    // A call of the disk failed.
    Failed,
    // It has no room for the next entry.
    Full,
    // Its entries are those of another tables text.
    OtherTables,
    // The disk holds something else, as this line says.
    NotAJournal(Vec<u8>),
    // An entry is none, or doesn't fit, as this line says.
    BadEntry(Vec<u8>),
}

// Why a command wasn't done to its end.
#[derive(Drop)]
pub(crate) enum Fault {
    // The words are no command.
    Usage,
    // The tables are refused, as this last line says.
    Refused(Vec<u8>),
    // The device that is to be marked has no row, as this last line says.
    NoDevice(Vec<u8>),
    // A read of the tables failed.
    TablesRead,
    // A read of the input failed.
    InputRead,
    // A write failed.
    Write,
    // More input was taken than is allowed.
    TooMuch,
    // The journal isn't opened, or not gone on with.
    Journal(Stop),
    // Want of memory.
    Memory,
}

impl From<LineFault> for Fault {
    ghost use Rattle.desk_top.specs.Faults.{fault_of_line};

    ghost from_gives = { λ line e. e ≡ fault_of_line line };

    fn from(line: LineFault) -> Self {
        match line {
            LineFault::Failed => Fault::InputRead,
            LineFault::TooMuch => Fault::TooMuch,
            LineFault::Memory => Fault::Memory,
        }
    }
}

impl From<AllocError> for Fault {
    ghost from_gives = { λ _ e. e ≡ fault.Memory };

    fn from(_: AllocError) -> Self {
        Fault::Memory
    }
}

impl From<Memory> for Fault {
    ghost from_gives = { λ _ e. e ≡ fault.Memory };

    fn from(_: Memory) -> Self {
        Fault::Memory
    }
}

impl From<Failed> for Fault {
    ghost from_gives = { λ _ e. e ≡ fault.Write };

    fn from(_: Failed) -> Self {
        Fault::Write
    }
}

impl From<Stop> for Fault {
    ghost from_gives = { λ stop e. e ≡ fault.Journal stop };

    fn from(stop: Stop) -> Self {
        Fault::Journal(stop)
    }
}
