//! A channel's folder: which of its files are there, which block a kill cut off, and what each rendition goes on behind.
//!
//! [`scan_files`] lists the folder once. [`cut_off`] tells which files of a block are due, so that `folder::roll_forward`
//! places them. [`reopen`] reads the playlists back and refuses, by name, a folder that a run can't go on in: above all one
//! where a segment's file is there that isn't listed, so that no number is used twice whatever was done to the folder.
//! [`let_unfinished_go`] removes what a kill left unfinished.
#![tactic(auto)]

mod asked;
mod by_name;
mod cutting;
mod fault;
mod file_names;
mod finding;
mod kept;
mod last_lines;
mod laws;
mod numbers;
mod reading_back;
mod reopened;
mod reopening;
mod scanned;
mod scanning;
mod standing;
mod texts;
mod unfinished;

pub use asked::Asked;
pub use by_name::FilesByName;
pub use cutting::cut_off;
pub use fault::{ReopenFault, WhyNot};
pub use laws::file_names_are_those_of_items;
pub use reopened::Reopened;
pub use reopening::reopen;
pub use scanned::Scan;
pub use scanning::scan_files;
pub use unfinished::let_unfinished_go;
