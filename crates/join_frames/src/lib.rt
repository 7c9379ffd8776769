//! Join frames of LoRaWAN 1.1: join- and rejoin-requests, and the join-accept.
#![tactic(auto)]

mod accept;
mod join_up;
mod mic;
mod open;
mod pieces;
mod requests;
mod sealing;

pub use accept::{Accept, AcceptKind};
pub use join_up::{JoinUp, read_up};
pub use mic::{join_mic_ok, rejoin_mic_ok};
pub use open::open_accept;
pub use requests::{join_bytes, rejoin1_bytes, rejoin02_bytes};
pub use sealing::{AcceptBytes, accept_bytes};
