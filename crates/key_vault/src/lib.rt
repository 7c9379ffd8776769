//! The keys of LoRaWAN 1.1, derived from root keys that stand behind closures.
#![tactic(auto)]

mod block_fn;
mod derive;
mod key_ring;
mod row_cipher;
mod vault;

pub use block_fn::{BlockFn, RootKind};
pub use derive::{app_s_key_of, js_enc_of, js_int_of, session_keys_of};
pub use key_ring::KeyRing;
pub use vault::Vault;
