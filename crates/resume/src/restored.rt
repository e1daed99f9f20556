//! What a rendition goes on behind.

use ladder_items::{Gone, Kind, Row};
use std::marker::Model;

/// What a run asks of the playlists that it goes on from: the target duration in seconds, which segments they list, and the
/// salt of the vectors, where there is one.
#[derive(Clone, Copy, Debug, PartialEq, Eq)]
pub struct Wanted {
    pub target: u64,
    pub kind: Kind,
    pub salt: Option<[u8; 16]>,
}

/// What a rendition goes on behind: how much is gone, the earlier rows, which are still listed, and the number of the next
/// segment.
#[derive(Debug, Drop)]
pub struct Restored {
    pub gone: Gone,
    pub earlier: Vec<Row>,
    pub next: u64,
}

impl Model for Restored {
    ghost use Rattle.resume.specs.Restoring.{RestoredValue};

    ghost Value = { RestoredValue };

    ghost view = { λ r. record { gone = r.gone; earlier = r.earlier.items; next = r.next } };
}
