//! What the types of a packager's settings keep.
ghost use Rattle.std.specs.Prelude.{ℕ, ◌<◌, length, All, slice_index_or};
ghost use Rattle.std.specs.Str.{IsUtf8};
ghost use Rattle.ladder_items.specs.Ladder.{no_rendition};
ghost use Rattle.media_reading.specs.MediaTexts.{IsSalt};
ghost use Rattle.round_trip.specs.Returning.{IsMade, AreMade};

use ladder_items::{Rendition, Settings};

/// Text is UTF-8.
fn is_text(text: &str)
    ensures { IsUtf8 text.now }
{
    let _ = text;
}

/// A salt has 16 bytes.
fn is_salt(salt: Option<[u8; 16]>)
    ensures { IsSalt salt }
{
    if let Some(salt) = salt {
        are_bytes(&salt);
    }
}

fn are_bytes(bytes: &[u8])
    ensures { All (λ b. b < 256) bytes.now }
{
    let _ = bytes;
}

/// A rendition's name is text, its keys take turns, and its salt has 16 bytes.
fn rendition_is_made(rendition: &Rendition)
    ensures { IsMade rendition.now }
{
    is_text(&rendition.name);
    rendition.keys.index(0);
    is_salt(rendition.salt);
}

/// So is each of some renditions.
fn all_are_made(renditions: &[Rendition])
    ensures { (r : ℕ) → r < length renditions.now → IsMade (slice_index_or renditions.now r no_rendition) }
{
    for rendition in renditions {
        rendition_is_made(rendition);
    }
}

/// The renditions of any settings are made as the law of what comes back takes them: names are text, keys take turns, salts
/// have 16 bytes.
pub fn settings_are_made(settings: &Settings)
    ensures { AreMade settings.now }
{
    all_are_made(&settings.renditions);
}
