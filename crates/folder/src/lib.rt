//! A folder that files are put into, and what it holds wherever the process that changes it is cut off.
//!
//! A [`Folder`] writes, renames and removes files, looks whether there is one, and syncs. Its contract has one ghost
//! list: all that was done to it, in order. What a kill at any moment leaves is a definition over that list
//! (`specs/Kills.antt`), and so is what a loss of power leaves (`specs/PowerLoss.antt`).
//!
//! Files are put in blocks: each is written under a part name, which begins with a point so that nobody is served it, and
//! once all of a block are written they are renamed, in order (`specs/Puts.antt`). The laws say what that is good for:
//! [`each_kill_leaves_a_prefix`] of the files, whole, and the rest of a block that was cut off can be placed later
//! ([`roll_forward`]).
//!
//! A [`FolderReader`] tells which files are there, and reads them.
//!
//! A file may be written before its turn comes, by another thread: an [`AheadFolder`] makes it in a hidden folder, an [`AheadWriter`]
//! writes it there a piece at a time, and [`Folder::take`] takes it from there in place of writing its bytes. Where it can't be taken,
//! they are written.
//!
//! There are two folders: [`FileFolder`] is one of the file system, and is trusted to do what it notes in the list, as the
//! files that are written ahead are to hold what went into them; [`MemoryFolder`] is for tests, takes no such file, and is proved.
#![tactic(auto)]

mod ahead;
mod ahead_folder;
mod ahead_writer;
mod answers;
mod fault;
mod file_folder;
mod file_reader;
mod folder;
mod ghost_move;
mod laws;
mod memory_find;
mod memory_folder;
mod memory_move;
mod memory_reader;
mod notes;
mod pruning_folder;
mod read_fault;
mod reader;
mod refusal;
mod roll;
mod staged_file;

pub use ahead::{AheadFile, WriteAhead, WriteFile};
pub use ahead_folder::AheadFolder;
pub use ahead_writer::AheadWriter;
pub use fault::FolderFault;
pub use file_folder::FileFolder;
pub use folder::Folder;
pub use ghost_move::GhostMove;
pub use laws::{
    all_are_on_the_disk, all_are_there, each_kill_leaves_a_prefix,
    each_kill_leaves_all_but_what_was_pruned, each_kill_of_a_failed_put_leaves_a_prefix,
    each_loss_of_power_behind_a_failed_put_leaves_a_prefix, each_loss_of_power_leaves_a_prefix,
    files_come_from_hidden_names, rolling_forward_leaves_whole_blocks, what_is_left_is_playable,
};
pub use memory_folder::MemoryFolder;
pub use memory_move::MemoryMove;
pub use pruning_folder::PruningFolder;
pub use read_fault::FolderReadFault;
pub use reader::FolderReader;
pub use roll::roll_forward;
pub use staged_file::StagedFile;
