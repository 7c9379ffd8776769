//! The session contexts of one device: its active and its pending one, with their counters and the
//! payloads that wait for a downlink. Plain data in fixed arrays; no call takes memory.
#![tactic(auto)]

mod context;
mod queue;
mod slots;

pub use context::{Context, FrameBuf, Item, ItemQueue, Origin, Payload, channels_of};
pub use queue::{ItemFault, first_item, next_down, push_item, take_item};
pub use slots::{Slots, accept_up, activate, offer, offer_new};
