//! The master playlist of some variants and their I-frame playlists (RFC 8216, 4.3.4).
#![tactic(auto)]

mod fault;
mod laws;
mod text;
mod variant;

pub use fault::{MasterFault, fault_of};
pub use laws::faults_are_the_least;
pub use text::master_text;
pub use variant::Variant;
