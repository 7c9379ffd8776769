/// How a network asks for a device's next session: by JoinReq or by RejoinReq.
#[derive(Clone, Copy, Debug, PartialEq, Eq)]
pub enum Activation {
    Join,
    Rejoin,
}
