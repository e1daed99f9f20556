//! What the words of the contracts mean.
ghost use Rattle.std.specs.Prelude.{◌≡◌, ℕ, List};
ghost use Rattle.item_io.specs.FileNames.{part_name, segment_file_name, file_name};
ghost use Rattle.item_io.specs.Items.{SegmentValue, PlaylistValue, SegmentItem, MediaItem, FramesItem};
ghost use Rattle.channel_folder.specs.Files.{media_file, frames_file, part_of, segment_part};

/// The names of files, and of unfinished ones, are those that an outlet puts items under.
pub fn file_names_are_those_of_items()
    ensures segment { (name : List ℕ) (n : ℕ) → part_of (segment_file_name name n) ≡ segment_part name n }
{}
