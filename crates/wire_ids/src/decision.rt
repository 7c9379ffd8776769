ghost use Rattle.std.specs.Prelude.{◌≡◌, option_copied};
ghost use Rattle.wire_ids.specs.Decisions.{entry_of};

use crate::{PeerId, Text};

/// What a request is answered, and what it makes: `A` is an answer, `Q` what a peer is asked, `E`
/// an entry.
#[derive(Drop)]
pub enum Decision<A, Q, E> {
    /// The answer that was kept for the same request, byte for byte. It makes no entry.
    Repeat(Text),
    /// An answer that makes no entry.
    Reply(A),
    /// An answer, and the entry that it makes.
    Accept(A, E),
    /// What a peer is asked before there is an answer, and the entry that the ask makes.
    AskPeer(PeerId, Q, E),
}

impl<A, Q, E> Decision<A, Q, E> {
    /// The entry that it makes, where it makes one.
    pub fn entry(&self) -> Option<&E>
        ensures { option_copied result ≡ entry_of self.now }
    {
        match self {
            Decision::Repeat(_) | Decision::Reply(_) => None,
            Decision::Accept(_, entry) => Some(entry),
            Decision::AskPeer(_, _, entry) => Some(entry),
        }
    }
}
