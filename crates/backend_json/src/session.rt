use wire_ids::{Eui, Nonce24};

/// The name of a session's AppSKey: the DevEUI and the JoinNonce of its join.
#[derive(Clone, Copy, Debug, PartialEq, Eq)]
pub struct SessionKeyId {
    pub dev_eui: Eui,
    pub join_nonce: Nonce24,
}
