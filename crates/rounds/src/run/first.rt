//! What a run begins with.

ghost use Rattle.std.specs.Prelude.{◌≡◌, ◌<◌, IfOk, OnErr, false, length, map, replicate};
ghost use Rattle.ladder_items.specs.Ladder.{IsAllowed, RenditionValue};
ghost use Rattle.rounds.specs.Begun.{IsBegun};

use crate::run::books::Books;
use cutter::Spool;
use ingest::Lane;
use ladder_items::{Playlists, Rendition, Settings, first_lanes, first_playlists};
use segment_job::Keys;
use std::alloc::{AllocError, Global};

/// What a run begins with. Lists are by rendition.
#[derive(Drop)]
pub struct First {
    pub lanes: Vec<Lane>,
    pub playlists: Vec<Playlists>,
    /// Whether the rendition's end has been given.
    pub ended: Vec<bool>,
    /// How many turns the rendition has had.
    pub turns: Vec<u64>,
    pub spare: Vec<Spool>,
    pub keys: Vec<Keys>,
    pub books: Books,
}

/// What a run with `workers` workers begins with.
pub fn beginning(alloc: Global, settings: &Settings, workers: usize) -> Result<First, AllocError>
    requires { IsAllowed settings.now }
    ensures { IfOk result (IsBegun settings.now workers) }
{
    let (ended, spare) = open_ends(alloc, settings.renditions.len())?;
    Ok(First {
        lanes: first_lanes(alloc, settings)?,
        playlists: first_playlists(alloc, settings)?,
        ended,
        turns: no_turns(alloc, settings.renditions.len())?,
        spare,
        keys: copy_keys(alloc, &settings.renditions)?,
        books: Books::new(alloc, workers)?,
    })
}

/// For each rendition, that its end hasn't been given, and an empty spool.
fn open_ends(alloc: Global, renditions: usize) -> Result<(Vec<bool>, Vec<Spool>), AllocError>
    ensures ended { IfOk result (λ made. made.0.items ≡ replicate renditions false) }
    ensures spare { IfOk result (λ made. length made.1.items ≡ renditions) }
    ensures scarce { OnErr result (0 < renditions) }
{
    let mut ended = Vec::new(alloc);
    let mut spare = Vec::new(alloc);
    for _ in 0..renditions {
        ended.push(false)?;
        spare.push(Spool::new(alloc))?;
    }
    Ok((ended, spare))
}

/// For each rendition, that it had no turn.
fn no_turns(alloc: Global, renditions: usize) -> Result<Vec<u64>, AllocError>
    ensures ok { IfOk result (λ turns. turns.items ≡ replicate renditions 0) }
    ensures scarce { OnErr result (0 < renditions) }
{
    if renditions == 0 {
        return Ok(Vec::new(alloc));
    }
    vec![in alloc; 0; renditions]
}

/// A copy of the keys of each rendition.
pub fn copy_keys(alloc: Global, renditions: &[Rendition]) -> Result<Vec<Keys>, AllocError>
    ensures ok { IfOk result (λ keys. keys.items ≡ map (λ (r : RenditionValue). r.keys) renditions.now) }
    ensures scarce { OnErr result (0 < length renditions.now) }
{
    let mut keys = Vec::new(alloc);
    for rendition in renditions {
        keys.reserve(1)?;
        keys.push_reserved(rendition.keys.copy()?);
    }
    Ok(keys)
}
