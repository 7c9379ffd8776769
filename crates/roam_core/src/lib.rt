//! The whole decision on a request, and what a line comes to: its answer, and its entry.
#![tactic(auto)]

mod agreeing;
mod decide;
pub mod laws;
mod reaction;
mod senders;

pub use agreeing::answers_agree;
pub use decide::{RoamDecision, roam_decide};
pub use reaction::{Reaction, react};
pub use senders::knows_senders;
