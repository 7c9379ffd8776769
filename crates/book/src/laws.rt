//! Laws of books: each is a sentence over the definitions alone.

ghost use Rattle.book.specs.Calls.{CallsLive};
ghost use Rattle.book.specs.Lives.{Lives};
ghost use Rattle.book.specs.Receipts.{GoodLater};

use keepers::Keeper;

/// A receipt that is good for a history is good for each one that goes on from it.
pub fn good_later()
    ensures { GoodLater }
{}

/// Over lives that each open on what a crash left of the one before, from a legal history on: what
/// is left is legal, each receipt of each life is good for it, and it gives out nothing twice.
pub fn lives()
    ensures { Lives }
{}

/// A book that was opened on these records, and any calls of it, one after another: whatever an
/// image holds then, with the entry in doubt or without it, is what a life leaves.
pub fn calls_live<K: Keeper>()
    ensures { CallsLive K.records K.counted K.rests K.doubts K.is_full }
{}
