//! What goes between a device of class A and its network over one context: a valid uplink, and the
//! downlink that answers it.
#![tactic(auto)]

mod downlink;
mod frames;
pub mod laws;
mod valid;

pub use downlink::{down_of, downlink_behind};
pub use frames::data_up;
pub use valid::{Count, up_valid};
