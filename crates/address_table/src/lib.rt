//! Who has which address, found in one step.
#![tactic(auto)]

mod owner;
mod places;
mod table;

pub use owner::Owner;
pub use table::{AddressTable, WINDOW};
