//! The retention of a ladder's renditions.

ghost use Rattle.std.specs.Prelude.{◌≡◌, ◌<◌, [], IfOk, IsErr, IsOk, OnErr, length, map, slice_index_or};
ghost use Rattle.ladder_items.specs.Ladder.{rendition_at};
ghost use Rattle.ladder_items.specs.declared.settings.Kind.TheVariants.{Live, Event};
ghost use Rattle.keeping.specs.Keepings.{AreTold};
ghost use Rattle.removal.specs.Retaining.{AreKeptFor, kept_for, least_for};

use keeping::{Behind, Keeping};
use ladder_items::{Kind, Rendition, Row, Settings};
use media_playlist::least_behind;
use std::alloc::{AllocError, Global};

/// The retention of each rendition of a ladder that is about to begin, of which no segment was taken away yet; `older` has for
/// each the numbers of segments that no playlist lists any more, and whose files are there. An event has none: its playlists
/// list all segments.
pub fn keepings(
    alloc: Global,
    settings: &Settings,
    older: &[Vec<u64>],
) -> Result<Vec<Keeping>, AllocError>
    ensures untold { IfOk result (λ made. AreTold made.items []) }
    ensures kept { settings.now.kind ≡ Live → IfOk result (λ made. AreKeptFor settings.now (map (λ n. n.items) older.now) made.items) }
    ensures event { settings.now.kind ≡ Event → IfOk result (λ made. made.items ≡ []) }
    ensures none { settings.now.kind ≡ Event → IsOk result }
    ensures scarce { OnErr result (0 < length settings.now.renditions) }
{
    let mut made = Vec::new(alloc);
    if settings.kind == Kind::Event {
        return Ok(made);
    }
    for r in 0..settings.renditions.len() {
        let rendition = rendition_of(settings, r);
        let numbers = numbers_at(older, r);
        made.push(keeping_of(alloc, settings, rendition, numbers)?)?;
    }
    Ok(made)
}

/// Rendition `r` of a ladder.
fn rendition_of(settings: &Settings, r: usize) -> &Rendition
    requires { r < length settings.now.renditions }
    ensures { result.now ≡ rendition_at settings.now r }
{
    &settings.renditions[r]
}

/// The numbers at a place; none past the last.
fn numbers_at(older: &[Vec<u64>], r: usize) -> &[u64]
    ensures { result.now ≡ slice_index_or (map (λ n. n.items) older.now) r [] }
{
    match older.get(r) {
        Some(numbers) => numbers,
        None => &[],
    }
}

/// The retention of a rendition.
fn keeping_of(
    alloc: Global,
    settings: &Settings,
    rendition: &Rendition,
    older: &[u64],
) -> Result<Keeping, AllocError>
    ensures { IfOk result (λ made. made ≡ kept_for settings.now rendition.now older.now) }
{
    let name = rendition.name.clone()?;
    let earlier = micros_of(alloc, &rendition.earlier)?;
    let behind = Behind {
        base: rendition.gone.rows,
        least: least_of(settings, earlier.len() as u64),
        earlier: &earlier,
        older: Vec::from_slice(alloc, older)?,
    };
    Keeping::behind(alloc, name, behind)
}

/// How long each segment is kept beyond its own duration at the least, in microseconds: in a run that goes on, as long as a
/// playlist of the run before may have lasted.
fn least_of(settings: &Settings, listed: u64) -> u64
    ensures { result ≡ least_for settings.now listed }
{
    if listed == 0 {
        return 0;
    }
    least_behind(settings.cut.target, settings.window, listed)
}

/// How long each row lasts, in microseconds.
fn micros_of(alloc: Global, rows: &[Row]) -> Result<Vec<u64>, AllocError>
    ensures micros { IfOk result (λ micros. micros.items ≡ map (λ row. row.micros) rows.now) }
    ensures scarce { IsErr result → 0 < length rows.now }
{
    let mut micros = Vec::new(alloc);
    for row in rows {
        micros.push(row.micros)?;
    }
    Ok(micros)
}
