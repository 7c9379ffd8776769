//! What the desk writes down: the entries of its journal, each with its one spelling in bytes.
#![tactic(auto)]

mod ask;
mod ask_spelling;
mod change;
mod change_spelling;
mod codec;
mod entry;
mod entry_spelling;
mod name_spelling;
mod out;
mod request_spelling;
mod rest;
mod unread;
mod used_seed;

pub use ask::{
    AskKind, AskOutcome, Effect, HeldCount, HeldSession, NewAsk, NewVisitor, RejoinCount, Target,
};
pub use change::{
    Change, Downlink, Joined, Lending, OwnContext, PassiveUplink, Queued, Rejoined, RoamingKind,
    Stopped, Uplink,
};
pub use codec::{decode, encode, entries_have_one_spelling};
pub use entry::{Entry, Event, Request};
pub use used_seed::{SeedPlace, UsedSeed};
