ghost use Rattle.std.specs.Prelude.{◌≡◌, Some, IfOk};
ghost use Rattle.entries.specs.Entries.{decode_of, encode_of};

use entries::{Entry, encode};
use std::alloc::Global;
use wire_ids::{Memory, Text};

/// An entry that is to be written, with its spelling.
#[derive(Drop)]
pub(crate) struct Draft {
    pub(crate) entry: Entry,
    pub(crate) bytes: Text,
    ghost spelled: { bytes ≡ encode_of entry },
    ghost again: { decode_of (encode_of entry) ≡ Some entry },
}

impl Draft {
    /// The entry with its spelling. The one error is want of memory.
    pub(crate) fn new(alloc: Global, entry: Entry) -> Result<Draft, Memory>
        ensures entry { IfOk result (λ draft. draft.entry ≡ entry) }
        ensures again { IfOk result (λ _. decode_of (encode_of entry) ≡ Some entry) }
    {
        let bytes = encode(alloc, &entry)?;
        Ok(Draft { entry, bytes })
    }
}
