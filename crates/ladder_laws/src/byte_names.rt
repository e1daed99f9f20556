//! The names of renditions are bytes.
ghost use Rattle.std.specs.Prelude.{ℕ, ◌<◌, length, slice_index_or};
ghost use Rattle.ghost_list.specs.Bytes.{AreBytes};
ghost use Rattle.ladder_items.specs.Ladder.{no_rendition};
ghost use Rattle.ladder_laws.specs.Playlists.{HasByteNames};

use ladder_items::{Rendition, Settings};

fn are_bytes(bytes: &[u8])
    ensures { AreBytes bytes.now }
{
    let _ = bytes;
}

/// A rendition's name is bytes.
fn name_is_bytes(rendition: &Rendition)
    ensures { AreBytes rendition.now.name }
{
    are_bytes(rendition.name.as_bytes());
}

/// So is each of some renditions.
fn all_are_bytes(renditions: &[Rendition])
    ensures { (r : ℕ) → r < length renditions.now → AreBytes (slice_index_or renditions.now r no_rendition).name }
{
    for rendition in renditions {
        name_is_bytes(rendition);
    }
}

/// The names of the renditions of any settings are bytes.
pub fn names_are_bytes(settings: &Settings)
    ensures { HasByteNames settings.now }
{
    all_are_bytes(&settings.renditions);
}
