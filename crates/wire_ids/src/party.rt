use crate::{Eui, NetId};

/// Who sends a request: a network by its NetID, or an application or a gateway by its EUI.
#[derive(Clone, Copy, Debug, PartialEq, Eq)]
pub enum Sender {
    Network(NetId),
    Party(Eui),
}

/// Whom the desk asks: a network by its NetID, or a join server by its JoinEUI.
#[derive(Clone, Copy, Debug, PartialEq, Eq)]
pub enum PeerId {
    Network(NetId),
    JoinServer(Eui),
}
