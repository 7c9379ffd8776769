/// Why bytes are no frame.
#[derive(Clone, Copy, Debug, PartialEq, Eq)]
pub enum FrameFault {
    /// No frame has so many bytes.
    Size { got: usize },
    /// Its first bytes are those of no frame of its length.
    Form,
}

/// Why a text is no identifier.
#[derive(Clone, Copy, Debug, PartialEq, Eq)]
pub enum IdFault {
    /// The text has another number of bytes, counted behind its prefix.
    BadLength { got: usize },
    /// The byte at this place, counted from 0 behind the prefix, is the first that is no
    /// hexadecimal digit.
    BadDigit { place: usize },
}
