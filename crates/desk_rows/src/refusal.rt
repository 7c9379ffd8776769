use std::alloc::{AllocError, AllocFailed};
use std::fmt::{self, Display, Formatter};

/// Why a line of a case file is refused.
#[derive(Debug, Drop, PartialEq, Eq)]
pub(crate) enum Why {
    /// No case has begun.
    NoCase,
    /// The line begins with no word of the form.
    UnknownWord,
    /// The desk has no such part yet.
    NotServed,
    /// There is no such number here.
    BadNumber,
    /// What stands there are no hexadecimal digits of whole bytes.
    BadDigits,
    /// The file can't be read.
    NoFile,
    /// `by` stands behind no `replace`.
    NoReplace,
    /// What is to be replaced doesn't stand in the tables text.
    NotInTables,
    /// No text above has this name.
    NoText,
    /// What the disk holds before the run isn't said.
    NoDisk,
    /// Want of memory.
    Memory,
}

impl Display for Why {
    fn fmt<W: fmt::Write>(&self, f: &mut Formatter<W>) -> fmt::Result {
        f.write_str(match self {
            Why::NoCase => "no case has begun",
            Why::UnknownWord => "a line of a case doesn't begin like this",
            Why::NotServed => "the desk doesn't serve this yet",
            Why::BadNumber => "a number was wanted",
            Why::BadDigits => "hexadecimal digits were wanted",
            Why::NoFile => "the file can't be read",
            Why::NoReplace => "`by` wants a line `replace` before it",
            Why::NotInTables => "the tables text has no such text",
            Why::NoText => "no text above has this name",
            Why::NoDisk => "no line above says what the disk holds",
            Why::Memory => "want of memory",
        })
    }
}

impl From<AllocError> for Why {
    fn from(_: AllocError) -> Self {
        Why::Memory
    }
}

impl<T: Drop> From<AllocFailed<T>> for Why {
    fn from(_: AllocFailed<T>) -> Self {
        Why::Memory
    }
}

/// The line of a case file that is refused, counted from 1, and why.
#[derive(Debug, Drop, PartialEq, Eq)]
pub(crate) struct Refused {
    pub(crate) line: usize,
    pub(crate) why: Why,
}
