//! Reading back of what a packager writes: playlists with their segments, and sealed segments to their packets.
#![tactic(auto)]

mod checking;
mod counting;
mod fault;
mod head;
mod laws;
mod opening;
mod unpacking;

pub use checking::{CheckFault, Checked, check, check_listing};
pub use fault::UnpackFault;
pub use laws::segments_unpack_to_their_bodies;
pub use unpacking::unpack;
