//! Keepers of records: what was added to one is never lost, where its disk is honest. One keeps
//! them in memory, one in a journal on a disk.
#![tactic(auto)]

mod journal_keeper;
mod keeper;
mod memory_keeper;

pub use journal_keeper::JournalKeeper;
pub use keeper::{KeepReadFault, Keeper, KeeperFault, ReadyFault};
pub use memory_keeper::MemoryKeeper;
