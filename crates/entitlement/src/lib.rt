//! Who is entitled to which session keys: roles, key sets and envelopes.
#![tactic(auto)]

mod envelopes;
mod keys;
mod roles;

pub use envelopes::{envelope, network_envelopes};
pub use keys::{KeySet, keys_for};
pub use roles::{AnswerKind, Facts, Role, role_of};
