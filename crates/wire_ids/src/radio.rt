/// The radio parameters that a join-accept tells (LoRaWAN 1.1, 6.2.3): the bytes DLSettings and
/// RxDelay, and the CFList where there is one.
#[derive(Clone, Copy, Debug, PartialEq, Eq)]
pub struct Radio {
    pub dl: u8,
    pub rx_delay: u8,
    pub cf: Option<[u8; 16]>,
}
