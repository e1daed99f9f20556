//! What the segments of a rendition are together.

/// The time and the bytes of a rendition's segments, and their bit rates as a master playlist lists them.
#[derive(Clone, Copy, Debug, PartialEq, Eq, Drop)]
pub struct Totals {
    /// How long they last, in microseconds.
    pub micros: u128,
    /// How many bytes they have.
    pub bytes: u128,
    /// Their peak bit rate, in bits per second.
    pub peak: u64,
    /// Their average bit rate, in bits per second.
    pub average: u64,
}
