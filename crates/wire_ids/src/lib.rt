//! Identifiers, keys and addresses of LoRaWAN, and the words that all crates share.
#![tactic(auto)]

mod address;
mod bounded;
mod decision;
mod digits;
mod eui;
mod faults;
mod keys;
pub mod laws;
mod memory;
mod moment;
mod net_id;
mod nonce;
mod party;
mod radio;
mod text;
mod three;

pub use address::{DevAddr, address_of, net_matches};
pub use bounded::{BoundedText, LongText, ShortText};
pub use decision::Decision;
pub use digits::without_prefix;
pub use eui::Eui;
pub use faults::{FrameFault, IdFault};
pub use keys::{RootKeys, Seed, SessionKeys};
pub use memory::Memory;
pub use moment::Moment;
pub use net_id::NetId;
pub use nonce::Nonce24;
pub use party::{PeerId, Sender};
pub use radio::Radio;
pub use text::Text;
