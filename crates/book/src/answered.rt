use wire_ids::{Moment, Text};

/// What a book answers to a request.
#[derive(Drop)]
pub enum Answered {
    /// The bytes of the answer, the number of entries before the request's own, the moment that it
    /// was decided at, and whether it has an entry.
    Answer {
        bytes: Text,
        point: u64,
        moment: Moment,
        entered: bool,
    },
    /// A call of the keeper failed: its count of faults has risen. The book is broken, and keeps
    /// the entry that it tried to write.
    Fault,
    /// The keeper has no room for the entry. Nothing has changed.
    Full,
    /// Want of memory. Nothing has changed.
    Memory,
}

/// What became of a mark.
#[derive(Clone, Copy, Debug, PartialEq, Eq)]
pub enum Marked {
    /// The device is marked now.
    Done,
    /// It was marked so already. Nothing has changed.
    Already,
    /// A call of the keeper failed: its count of faults has risen. The book is broken, and keeps
    /// the entry that it tried to write.
    Fault,
    /// The keeper has no room for the entry. Nothing has changed.
    Full,
    /// Want of memory. Nothing has changed.
    Memory,
}
