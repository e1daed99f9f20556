//! What a board shows.

use crate::totals::Totals;
use std::marker::Model;
use std::sync::Arc;

/// The state of a run at one moment: the first five are lists by rendition. The texts of a rendition are shared with whoever
/// wrote them.
///
/// Clauses see it as its counts, its flags, its totals and the bytes of its texts.
#[derive(Drop)]
pub struct Snapshot {
    /// How many segments stand in each rendition.
    pub counts: Vec<u64>,
    /// Whether each rendition has ended.
    pub ended: Vec<bool>,
    /// What the segments of each rendition are together.
    pub totals: Vec<Totals>,
    /// The media playlists.
    pub media: Vec<Arc<String>>,
    /// The playlists of I-frames.
    pub frames: Vec<Arc<String>>,
    /// The master playlist.
    pub master: String,
}

impl Model for Snapshot {
    ghost use Rattle.std.specs.Prelude.{map};
    ghost use Rattle.std.specs.Arc.{arc_value};
    ghost use Rattle.std.specs.String.{string_bytes};
    ghost use Rattle.live_board.specs.Snapshots.{SnapshotFacts};

    ghost Value = { SnapshotFacts };

    ghost view = { λ s. record {
      counts = s.counts.items;
      ended = s.ended.items;
      totals = s.totals.items;
      media = map (λ t. string_bytes (arc_value t)) s.media.items;
      frames = map (λ t. string_bytes (arc_value t)) s.frames.items;
      master = string_bytes s.master;
    } };
}
