use crate::fault::Fault;

/// How a command ended, and the object that it was given.
pub(crate) struct Ended<T> {
    pub(crate) object: T,
    pub(crate) end: Result<(), Fault>,
}
