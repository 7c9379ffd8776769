//! A journal of records on a disk. A record counts from the moment on at which its gate is open on
//! the disk, so a crash at any moment leaves it whole or not at all.
#![tactic(auto)]

mod behind;
mod compare;
mod fault;
mod fresh;
mod gate;
mod journal;
mod open;
mod read;
mod recover;
mod steps;
mod window;

pub use fault::JournalFault;
pub use journal::Journal;
