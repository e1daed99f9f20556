use cutter::CutSettings;
use media_playlist::{Gone, Row};
use segment_job::Keys;
use std::marker::Model;

/// The most rows of earlier runs that a rendition goes on behind.
pub const MOST_EARLIER: u64 = 134_217_728;

/// Which segments the playlists of a ladder list.
#[derive(Clone, Copy, PartialEq, Eq, Debug)]
pub enum Kind {
    /// The last ones: a window slides over them (RFC 8216, 6.2.2).
    Live,
    /// All of an event (RFC 8216, 4.3.3.5).
    Event,
}

/// A rendition of a ladder: its name and codecs (RFC 6381) as a master playlist lists them, its size in pixels, each
/// side from 1 to 16,384, the keys of its segments, the salt of their vectors, where there is one, and what came before in
/// earlier runs: how much is gone, and the rows that are still listed.
#[derive(Drop)]
pub struct Rendition {
    pub name: String,
    pub codecs: String,
    pub width: u64,
    pub height: u64,
    /// They hold the same salt, and begin behind what came before.
    pub keys: Keys,
    pub salt: Option<[u8; 16]>,
    /// How many segments, I-frames and discontinuities came before the earlier rows: [`Gone::nothing`] in a first run.
    pub gone: Gone,
    /// The rows of earlier runs that their last playlists listed, at most [`MOST_EARLIER`]: none in a
    /// first run. They follow on one another, the first one on what is gone.
    pub earlier: Vec<Row>,
}

impl Model for Rendition {
    ghost use Rattle.ladder_items.specs.Ladder.{RenditionValue};

    ghost Value = { RenditionValue };

    ghost use Rattle.ladder_items.specs.State.{rendition_value};

    ghost view = { rendition_value };
}

/// What a packager works by.
#[derive(Drop)]
pub struct Settings {
    /// The renditions of the ladder, 1 to 32.
    pub renditions: Vec<Rendition>,
    /// How their streams are cut.
    pub cut: CutSettings,
    /// Which segments the playlists list.
    pub kind: Kind,
    /// The least number of segments that a sliding playlist lists behind removed ones, 1 to 10,000.
    pub window: u64,
    /// The most segments that may be on their way, 1 to 256. One thread has one on its way.
    pub queue: u64,
}

impl Model for Settings {
    ghost use Rattle.ladder_items.specs.Ladder.{Ladder};

    ghost Value = { Ladder };

    ghost use Rattle.ladder_items.specs.State.{ladder};

    ghost view = { ladder };
}
