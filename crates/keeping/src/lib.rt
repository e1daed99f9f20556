//! An outlet of a folder from which segments go that no playlist lists any more.
//!
//! A [`KeepingOutlet`] puts each item into the folder, as a `FolderOutlet` does, and behind each block takes those segments of
//! its rendition away that may go: [`Keeping`] tells which, by the media playlists that it was told (RFC 8216, 6.2.2).
#![tactic(auto)]

mod keeping;
mod laws;
mod note_fault;
mod outlet;
mod removing;

pub use keeping::{Behind, Keeping};
pub use laws::{given_items_are_left_but_what_went, what_went_is_not_listed};
pub use note_fault::NoteFault;
pub use outlet::KeepingOutlet;
