//! The join server: in what order it refuses, and what it answers.
#![tactic(auto)]

mod activation;
mod decide;
mod found;
mod frames;
mod home;
mod keys;
pub mod laws;
mod parties;
mod question;
mod rules;
mod step;

pub use activation::Activation;
pub use decide::{JsDecision, js_decide, refused};
pub use found::{FoundDevice, found_device};
pub use frames::{join_up, wrong_size};
pub use home::{HomeStep, home_accept, home_step};
pub use parties::{is_app, is_known, may_send, reaches};
pub use question::NoQuestion;
pub use step::{JoinStep, change};
