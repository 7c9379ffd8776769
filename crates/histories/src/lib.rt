//! Laws over all histories of entries that fit.
#![tactic(auto)]

pub mod laws;
