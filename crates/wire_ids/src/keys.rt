use crate::{Eui, Nonce24};

/// A device's two root keys, NwkKey and AppKey (LoRaWAN 1.1, 6.1.1.3). No `Debug` prints them.
#[derive(Clone, Copy, PartialEq, Eq)]
pub struct RootKeys {
    pub nwk: [u8; 16],
    pub app: [u8; 16],
}

/// The network session keys of one activation (LoRaWAN 1.1, 6.1.2): FNwkSIntKey, SNwkSIntKey and
/// NwkSEncKey. No `Debug` prints them.
#[derive(Clone, Copy, PartialEq, Eq)]
pub struct SessionKeys {
    pub f: [u8; 16],
    pub s: [u8; 16],
    pub e: [u8; 16],
}

/// What the session keys of one activation are derived from, beside the root keys (LoRaWAN 1.1,
/// 6.2.5): its JoinNonce, the JoinEUI, and the counter of its request, which is the DevNonce of a
/// join and the RJcount of a rejoin.
#[derive(Clone, Copy, Debug, Default, PartialEq, Eq)]
pub struct Seed {
    pub nonce: Nonce24,
    pub join_eui: Eui,
    pub counter: u16,
}
