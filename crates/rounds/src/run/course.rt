//! The course of a run: its inputs and outlet, and what has been read and given of each rendition.

use ingest::Lane;
use ladder_items::Playlists;

/// A run under way: its inputs, what they have closed, what has been given, and the outlet. Lists are by rendition.
#[derive(Drop)]
pub struct Course<S, O> {
    pub sources: Vec<S>,
    pub lanes: Vec<Lane>,
    pub playlists: Vec<Playlists>,
    /// Whether the rendition's end has been given.
    pub ended: Vec<bool>,
    pub outlet: O,
    /// How many turns the rendition has had.
    pub turns: Vec<u64>,
    /// At most how many reads of an input may return bytes.
    pub reads: u64,
}
