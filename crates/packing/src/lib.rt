//! The commands that pack: `one` for the stream that it reads, `pack` for a ladder on many threads, into any outlet or into files of
//! a folder.
#![tactic(auto)]

mod ahead_gate;
mod destination;
mod folder_packing;
mod ladder_packing;
mod setup;
mod stream_packing;
mod summaries;
mod summary_text;

pub use ahead_gate::AheadGate;
pub use destination::Destination;
pub use folder_packing::pack_into_folder;
pub use ladder_packing::{PackedLadder, pack};
pub use setup::LadderSetup;
pub use stream_packing::{Packed, one};
pub use summaries::summary;
