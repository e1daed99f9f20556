//! Reading back of media playlists: the text that a packager writes, to what it lists (RFC 8216, 4.3).
#![tactic(auto)]

mod laws;
mod list_fault;
mod listing;
mod media_text;
mod numbers;
mod reading;
mod spelled;

pub use laws::a_text_lists_one_playlist;
pub use list_fault::ListFault;
pub use listing::{Entry, LAST_LISTED, Listing};
pub use media_text::{read_media, split_line};
pub use numbers::{read_duration, read_tagged};
