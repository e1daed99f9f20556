//! Time stamps of video (ISO/IEC 13818-1, 2.4.3.7): the PTS that a transport packet brings, and a clock that takes a
//! list of PTS values, which run modulo 2^33, to times that don't, and counts the long jumps between them.
#![tactic(auto)]

mod clock;
mod laws;
mod pes;

pub use clock::{Clock, ClockFault, Stamp};
pub use laws::{stamps_go_on, times_are_the_ones};
pub use pes::pts;
