/// What the join server asks a peer, which is nothing: there is no value of this type.
#[derive(Drop)]
pub enum NoQuestion {}
