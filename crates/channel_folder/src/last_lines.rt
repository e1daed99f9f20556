//! What the lines of a playlist tell: its last segment, and whether it has ended.
ghost use Rattle.std.specs.Prelude.{◌≡◌, ◌++◌, ◌<◌, ◌^◌, List, ℕ, Option, Some, None, codes};
ghost use Rattle.playlist_text.specs.Uris.{escaped};
ghost use Rattle.media_reading.specs.MediaTexts.{Splits};
ghost use Rattle.channel_folder.specs.ReadTexts.{untold, tell_line, tell_lines};

use crate::numbers::number_between;
use media_reading::split_line;
use std::marker::Model;

/// The number of the last segment that has its URI among the lines, and whether the playlist has ended.
#[derive(Clone, Copy)]
pub(crate) struct LastLines {
    pub last: Option<u64>,
    pub ended: bool,
}

impl Model for LastLines {
    ghost use Rattle.channel_folder.specs.ReadTexts.{Told};

    ghost Value = { Told };

    ghost view = { λ t. record { last = t.last; ended = t.ended } };

    ghost inverse = { λ t. record { last = t.last; ended = t.ended } };
}

pub(crate) const NOTHING: LastLines = LastLines {
    last: None,
    ended: false,
};

/// The line behind which a playlist has no other (RFC 8216, 4.3.3.4).
const END_LINE: &str = "#EXT-X-ENDLIST";

/// What the lines of a text tell, where the URIs of segments begin so.
pub(crate) fn last_lines(front: &[u8], text: &[u8]) -> LastLines
    ensures { (name : List ℕ) → front.now ≡ escaped name ++ codes "." → (lines : List (List ℕ)) (last : List ℕ) → Splits text.now lines last →
        result ≡ tell_lines name untold lines }
{
    let mut told = NOTHING;
    let mut rest = text;
    'line: while let Some((line, behind)) = split_line(rest) {
        told = with_line(front, told, line);
        rest = behind;
    }
    told
}

/// One line more.
#[tactic(auto, unfolding(crate::specs::ReadTexts::tell_line, playlist_text::specs::Uris::segment_uri))]
fn with_line(front: &[u8], told: LastLines, line: &[u8]) -> LastLines
    ensures { (name : List ℕ) → front.now ≡ escaped name ++ codes "." → result ≡ tell_line name told line.now }
{
    LastLines {
        last: number_between(line, front, b".ts").or(told.last),
        ended: told.ended || line == END_LINE.as_bytes(),
    }
}
