//! Packs a ladder on many threads: its segments are sealed by workers, given in sequence, and published.
#![tactic(auto)]

mod first_board;
mod giving;
mod round;
mod run;

pub use first_board::opening_board;
pub use run::herald::{Herald, Nobody};
pub use run::packing::{pack_heralded, pack_parallel, pack_parallel_reads};
pub use run::ran::Ran;
pub use run::setup::{Endpoints, Setup};
