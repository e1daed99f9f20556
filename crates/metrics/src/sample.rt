//! What is told of a rendition.

/// A rendition at one moment.
#[derive(Clone, Copy, Debug, Drop)]
pub struct Sample<'a> {
    pub name: &'a str,
    /// How many segments were written.
    pub segments: u64,
    /// How long they last together, in microseconds.
    pub micros: u128,
    /// How many bytes they have together.
    pub bytes: u128,
    /// The peak bit rate as it is listed, in bits per second.
    pub peak: u64,
    /// The average bit rate as it is listed.
    pub average: u64,
    /// How long ago the last segment came, or the run began where none did, in microseconds.
    pub quiet: u128,
    /// How many bytes of its input were read ahead and aren't packed yet.
    pub ahead: u64,
    /// For how long nothing came of its input, in microseconds.
    pub silent: u128,
    /// Whether its end was written.
    pub ended: bool,
    /// The name of the fault that it ended by, if any.
    pub fault: Option<&'static str>,
}

/// A whole run at one moment.
#[derive(Clone, Copy, Debug, PartialEq, Eq, Drop)]
pub struct RunSample {
    /// When it began, in microseconds since 1970.
    pub start: u128,
    /// How many segments are complete and not listed yet, of the round that is being sealed.
    pub waiting: u128,
    /// How many segments were removed.
    pub removed: u128,
}
