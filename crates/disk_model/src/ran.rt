/// An object that a call took and was refused: the object goes back with the fault.
#[derive(Drop)]
pub struct Held<T, F> {
    pub object: T,
    pub fault: F,
}

/// What a top call gives back: its status, and the disks that it took.
pub struct Ran<T> {
    pub status: u8,
    pub disks: T,
}
