//! What a media playlist lists.

use std::marker::Model;

/// The last number that a playlist may list: a run begins with any that a segment may have, and goes on by as many again.
pub const LAST_LISTED: u64 = 0x1_FFFF_FFFF;

/// A segment of a playlist: its number, the index of its key, how long it lasts in microseconds, and whether it is a
/// discontinuity.
#[derive(Clone, Copy, Debug, PartialEq, Eq)]
pub struct Entry {
    pub number: u64,
    pub key: u64,
    pub micros: u64,
    pub discontinuity: bool,
}

impl Model for Entry {
    ghost use Rattle.playlist_text.specs.MediaLines;

    ghost Value = { MediaLines.Entry };

    ghost view = { λ e. record { number = e.number; key = e.key; micros = e.micros; discontinuity = e.discontinuity } };

    ghost inverse = { λ e. record { number = e.number; key = e.key; micros = e.micros; discontinuity = e.discontinuity } };
}

/// A media playlist (RFC 8216, 4.3): the rendition's name, the target duration in seconds, the numbers of media and of
/// discontinuities at its beginning, whether it is one of an event (4.3.3.5), the salt of its vectors where it lists them
/// (4.3.2.4), its segments, and whether it has ended.
#[derive(Debug, Drop)]
pub struct Listing {
    pub name: String,
    pub target: u64,
    pub sequence: u64,
    pub discontinuity_sequence: u64,
    pub event: bool,
    pub salt: Option<[u8; 16]>,
    pub entries: Vec<Entry>,
    pub ended: bool,
}

impl Model for Listing {
    ghost use Rattle.std.specs.String.{string_bytes};
    ghost use Rattle.playlist_text.specs.MediaLines;

    ghost Value = { MediaLines.Listing };

    ghost view = { λ l. record {
      name = string_bytes l.name;
      target = l.target;
      sequence = l.sequence;
      discontinuity_sequence = l.discontinuity_sequence;
      event = l.event;
      salt = l.salt;
      entries = l.entries.items;
      ended = l.ended;
    } };
}
