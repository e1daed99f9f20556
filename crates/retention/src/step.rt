/// One segment more: how long it lasts, in microseconds, and the place of the first segment that the playlist behind it
/// lists. Segments are counted from 0, the first that is known.
#[derive(Clone, Copy, Debug, PartialEq, Eq)]
pub struct Step {
    pub micros: u64,
    pub first: u64,
}
