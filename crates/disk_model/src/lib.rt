//! What the desk is handed from outside: sources and sinks of bytes, disks, links to peers, calls
//! of clients and clocks, each with a count of its faults, and forms of them that lie in memory.
#![tactic(auto)]

mod calls;
mod clock;
mod disk;
mod faults;
mod fuse_disk;
mod link;
mod memory;
mod memory_disk;
mod plan;
mod ran;
mod steps;
mod stream;
mod whole;

pub use calls::{Calls, MemoryCalls};
pub use clock::{Clock, ClosedClock, FixedClock};
pub use disk::{ClosedDisk, Disk};
pub use fuse_disk::FuseDisk;
pub use link::{Asked, ClosedLink, Link, LinkFault, ScriptLink};
pub use memory::{MemorySink, MemorySource};
pub use memory_disk::{Call, MemoryDisk};
pub use ran::{Held, Ran};
pub use steps::Steps;
pub use stream::{Failed, Sink, Source};
pub use whole::write_whole;
