//! The snapshot of what has been given: each rendition's count of segments, their totals and playlists, and the master playlist.

ghost use Rattle.std.specs.Prelude.{◌<◌, ◌≡◌, ◌++◌, ◌∷◌, [], List, Bool, All, None, false, length, map, IfOk, IfErr, OnOk, OnErr};
ghost use Rattle.std.specs.Arc.{arc_value};
ghost use Rattle.std.specs.String.{string_bytes};
ghost use Rattle.std.specs.List.{zip};
ghost use Rattle.master_playlist.specs.Faults.{fault_of};
ghost use Rattle.live_board.specs.Counts.{NoneFalls, counts_shown};
ghost use Rattle.ladder_items.specs.declared.fault.PackFault.TheVariants.{NoMemory};
ghost use Rattle.ladder_items.specs.Ladder.{unmeasured};
ghost use Rattle.ladder_items.specs.Shown.{media_text, frames_text};
ghost use Rattle.rounds.specs.Showing;
ghost use Rattle.rounds.specs.Showing.{counts_of, facts_of, totals_of};

use ladder_items::{PackFault, Playlists, Rendition, ladder_master};
use live_board::{Publisher, Snapshot, Totals};
use std::alloc::{AllocError, Global};
use std::sync::{Arc, Wait};

/// The snapshot of these playlists; `ended` says which renditions have ended.
#[tactic(auto, unfolding(crate::specs::Showing::facts_of))]
fn snapshot(
    alloc: Global,
    renditions: &[Rendition],
    playlists: &[Playlists],
    ended: &[bool],
) -> Result<Snapshot, PackFault>
    requires going { All (λ shown. shown.ended ≡ false) playlists.now }
    requires each { length playlists.now ≡ length renditions.now }
    requires ends { length ended.now ≡ length playlists.now }
    requires listable { fault_of (map unmeasured renditions.now) ≡ None }
    ensures facts { IfOk result (λ snapshot. snapshot ≡ facts_of renditions.now playlists.now ended.now) }
    ensures fault { IfErr result (λ fault. fault ≡ NoMemory) }
{
    let mut flags = Vec::new(alloc);
    flags.extend_from_slice(ended)?;
    let (media, frames) = texts(alloc, playlists, ended)?;
    Ok(Snapshot {
        counts: counts(alloc, playlists)?,
        ended: flags,
        totals: totals(alloc, playlists)?,
        media,
        frames,
        master: ladder_master(alloc, renditions, playlists)?,
    })
}

/// How many segments each rendition has.
pub fn counts(alloc: Global, playlists: &[Playlists]) -> Result<Vec<u64>, AllocError>
    ensures ok { IfOk result (λ counts. counts.items ≡ counts_of playlists.now) }
    ensures scarce { OnErr result (0 < length playlists.now) }
{
    let mut counts = Vec::new(alloc);
    for rendition in playlists {
        counts.push(rendition.count())?;
    }
    Ok(counts)
}

/// What the segments of each rendition are together.
fn totals(alloc: Global, playlists: &[Playlists]) -> Result<Vec<Totals>, AllocError>
    requires going { All (λ shown. shown.ended ≡ false) playlists.now }
    ensures ok { IfOk result (λ totals. totals.items ≡ map totals_of playlists.now) }
    ensures scarce { OnErr result (0 < length playlists.now) }
{
    let mut totals = Vec::new(alloc);
    for i in 0..playlists.len() {
        totals.push(totals_of(&playlists[i]))?;
    }
    Ok(totals)
}

/// What the segments of a rendition are together.
#[tactic(auto, unfolding(crate::specs::Showing::totals_of))]
fn totals_of(playlists: &Playlists) -> Totals
    requires { playlists.now.ended ≡ false }
    ensures { result ≡ Showing.totals_of playlists.now }
{
    Totals {
        micros: playlists.micros(),
        bytes: playlists.bytes(),
        peak: playlists.peak_rate(),
        average: playlists.average_rate(),
    }
}

/// Each rendition's media playlist and I-frame playlist, shared with those that were put.
fn texts(
    alloc: Global,
    playlists: &[Playlists],
    ended: &[bool],
) -> Result<(Vec<Arc<String>>, Vec<Arc<String>>), AllocError>
    requires { length ended.now ≡ length playlists.now }
    ensures media { IfOk result (λ texts. map (λ t. string_bytes (arc_value t)) texts.0.items ≡ map (λ x. media_text x.0 x.1) (zip playlists.now ended.now)) }
    ensures frames { IfOk result (λ texts. map (λ t. string_bytes (arc_value t)) texts.1.items ≡ map (λ x. frames_text x.0 x.1) (zip playlists.now ended.now)) }
    ensures scarce { OnErr result (0 < length playlists.now) }
{
    let mut media = Vec::new(alloc);
    let mut frames = Vec::new(alloc);
    for i in 0..playlists.len() {
        media.push(playlists[i].shared_media_text(ended[i])?)?;
        frames.push(playlists[i].shared_frames_text(ended[i])?)?;
    }
    Ok((media, frames))
}

/// Publishes the snapshot of these playlists; `ended` says which renditions have ended. No rendition has fewer segments than
/// in the snapshot published last.
pub fn publish<R: Wait>(
    rt: &R,
    alloc: Global,
    publisher: &mut Publisher,
    renditions: &[Rendition],
    playlists: &[Playlists],
    ended: &[bool],
) -> Result<(), PackFault>
    requires going { All (λ shown. shown.ended ≡ false) playlists.now }
    requires each { length playlists.now ≡ length renditions.now }
    requires ends { length ended.now ≡ length playlists.now }
    requires listable { fault_of (map unmeasured renditions.now) ≡ None }
    requires rising { NoneFalls (counts_shown publisher.old.list) (counts_of playlists.now) }
    ensures ok { OnOk result (publisher.new.list ≡ publisher.old.list ++ facts_of renditions.now playlists.now ended.now ∷ []) }
    ensures err { OnErr result (publisher.new.list ≡ publisher.old.list) }
    ensures fault { IfErr result (λ fault. fault ≡ NoMemory) }
    ensures board { publisher.new.board ≡ publisher.old.board }
{
    let next = snapshot(alloc, renditions, playlists, ended)?;
    match publisher.publish(rt, alloc, next) {
        Ok(()) => Ok(()),
        // No count falls, so that memory alone was wanting.
        Err(_) => Err(PackFault::NoMemory),
    }
}
