//! The board on which a run publishes, before anything has been given.

ghost use Rattle.std.specs.Prelude.{◌<◌, ◌≡◌, ◌≤◌, ◌∷◌, IfOk, OnErr, [], Err, length, map, false, replicate, ◌⊎◌, All};
ghost use Rattle.std.specs.Arc.{arc_value};
ghost use Rattle.std.specs.String.{string_bytes};
ghost use Rattle.live_board.specs.Counts.{counts_shown};
ghost use Rattle.live_board.specs.declared.fault.BoardFault.TheVariants.{NoMemory, NoPlace};
ghost use Rattle.rounds.specs.Shown.{none_shown};
ghost use Rattle.live_board.specs.declared.publisher.TheConstants.{MOST_VIEWERS};

use live_board::{BoardFault, Publisher, Snapshot, Totals, Viewer, board};
use std::alloc::{AllocError, Global};
use std::sync::{Arc, Wait};

/// What no segments are together.
const NO_TOTALS: Totals = Totals {
    micros: 0,
    bytes: 0,
    peak: 0,
    average: 0,
};

/// A board with `viewers` viewers on which none of `renditions` renditions has a segment yet: where a run publishes its snapshots.
///
/// The only refusals are NoPlace and want of memory; no clause says which of the two it is.
pub fn opening_board<R: Wait>(
    rt: &R,
    alloc: Global,
    renditions: usize,
    viewers: usize,
) -> Result<(Publisher, Vec<Viewer>), BoardFault>
    requires { (1 ≤ viewers) × (viewers ≤ MOST_VIEWERS) }
    ensures first { IfOk result (λ b. b.0.list ≡ none_shown renditions ∷ []) }
    ensures none { IfOk result (λ b. counts_shown b.0.list ≡ replicate renditions 0) }
    ensures count { IfOk result (λ b. length b.1.items ≡ viewers) }
    ensures viewers { IfOk result (λ b. All (λ v. v ≡ b.0) b.1.items) }
    ensures fault { OnErr result ((result ≡ Err NoPlace) ⊎ (result ≡ Err NoMemory)) }
{
    let first = nothing_shown(alloc, renditions).map_err(no_memory)?;
    board(rt, alloc, first, viewers)
}

/// Why there is no first snapshot.
fn no_memory(_: AllocError) -> BoardFault
    ensures { result ≡ NoMemory }
{
    BoardFault::NoMemory
}

/// The snapshot of renditions that have no segment yet: their playlists have no text.
fn nothing_shown(alloc: Global, renditions: usize) -> Result<Snapshot, AllocError>
    ensures ok { IfOk result (λ first. first ≡ none_shown renditions) }
    ensures scarce { OnErr result (0 < renditions) }
{
    let mut counts = Vec::new(alloc);
    let mut ended = Vec::new(alloc);
    let mut totals = Vec::new(alloc);
    for _ in 0..renditions {
        counts.push(0)?;
        ended.push(false)?;
        totals.push(NO_TOTALS)?;
    }
    Ok(Snapshot {
        counts,
        ended,
        totals,
        media: no_texts(alloc, renditions)?,
        frames: no_texts(alloc, renditions)?,
        master: String::new(alloc),
    })
}

/// `count` empty texts.
fn no_texts(alloc: Global, count: usize) -> Result<Vec<Arc<String>>, AllocError>
    ensures ok { IfOk result (λ texts. map (λ t. string_bytes (arc_value t)) texts.items ≡ replicate count []) }
    ensures scarce { OnErr result (0 < count) }
{
    let mut texts = Vec::new(alloc);
    for _ in 0..count {
        texts.push(Arc::new(alloc, String::new(alloc))?)?;
    }
    Ok(texts)
}
