//! Data frames of LoRaWAN 1.1: uplinks, their counters and MICs, and downlinks.
#![tactic(auto)]

mod buffer;
mod count;
mod downlink;
pub mod laws;
mod mic;
mod sending;
mod uplink;

pub use buffer::DownBytes;
pub use count::full_count;
pub use downlink::{Down, write_down};
pub use mic::{mic_f_ok, mic_up_ok};
pub use sending::{UpParts, up_bytes};
pub use uplink::{DataUp, is_data_sized, read_data};
