//! The state that the entries of the journal make, and which entries fit it.
#![tactic(auto)]

mod addresses;
mod asks;
mod device;
mod devices;
mod ends;
mod fits;
mod free;
mod held;
mod index;
mod kept;
pub mod laws;
mod look_ups;
mod made;
mod now;
mod parties;
mod placing;
mod reading;
mod state;
mod uplink;
mod visitors;

pub use device::{Device, Granted, KeptSeed, LentTo};
pub use entries::{
    AskKind, AskOutcome, Change, Downlink, Effect, Entry, Event, HeldCount, HeldSession, Joined,
    Lending, NewAsk, NewVisitor, OwnContext, PassiveUplink, Queued, RejoinCount, Rejoined, Request,
    RoamingKind, SeedPlace, Stopped, Target, Uplink, UsedSeed, decode, encode,
};
pub use kept::{KeptAnswers, KeptPair, KeptPairs};
pub use parties::{Holder, LiveContext, OpenAsk, Visitor};
pub use state::State;
