//! The run on one thread: a ladder is read, sealed and given in turn, one read of each rendition after another.
#![tactic(auto)]

mod due;
mod serial;

pub use serial::{pack_serial, pack_serial_reads};
