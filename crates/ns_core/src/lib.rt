//! The home network: what it makes of what its gateways hear, and of payloads for its devices.
#![tactic(auto)]

mod activation;
mod decide;
pub mod laws;
mod own;
mod payload;
mod reply;
mod session;
mod speaker;
mod text;
mod uplink;

pub use decide::ns_decide;
