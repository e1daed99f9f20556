//! The numbers of a board's last snapshot.

ghost use Rattle.std.specs.Prelude.{◌≡◌, ◌<◌, Err, IfOk, IsSomeAnd, OnErr, length};
ghost use Rattle.ghost_list.specs.Lists.{IsBeginning};
ghost use Rattle.live_board.specs.Counts.{last_of};
ghost use Rattle.metrics.specs.Glances.{IsCopyOf, IsOfTheLast, SaysSome};
ghost use Rattle.metrics.specs.declared.glance.GlanceFault.TheVariants.{Gone, NoMemory};

use live_board::{Snapshot, Totals, Viewer};
use std::alloc::{AllocError, Global};
use thiserror::Error;

/// What a board said of each rendition at one moment.
#[derive(Debug, Drop)]
pub struct Glance {
    /// How many segments it had.
    pub counts: Vec<u64>,
    /// Whether it had ended.
    pub ended: Vec<bool>,
    /// What its segments were together.
    pub totals: Vec<Totals>,
}

/// Why nothing was seen.
#[derive(Clone, Copy, Debug, PartialEq, Eq, Error)]
pub enum GlanceFault {
    /// The publisher is gone.
    #[error("the board has ended")]
    Gone,
    /// There was no memory.
    #[error("out of memory")]
    NoMemory,
}

impl From<AllocError> for GlanceFault {
    ghost use Rattle.metrics.specs.declared.glance.GlanceFault.TheVariants.{NoMemory};

    ghost from_gives = { λ _ fault. fault ≡ NoMemory };

    fn from(_error: AllocError) -> GlanceFault {
        GlanceFault::NoMemory
    }
}

/// A copy of a snapshot's numbers.
fn copied(alloc: Global, snapshot: &Snapshot) -> Result<Glance, AllocError>
    ensures ok { IfOk result (IsCopyOf snapshot.now) }
    ensures scarce { OnErr result (SaysSome snapshot.now) }
{
    Ok(Glance {
        counts: copied_list(alloc, &snapshot.counts)?,
        ended: copied_list(alloc, &snapshot.ended)?,
        totals: copied_list(alloc, &snapshot.totals)?,
    })
}

/// A copy of a list. That of an empty one takes no memory.
fn copied_list<T: Copy>(alloc: Global, list: &[T]) -> Result<Vec<T>, AllocError>
    ensures ok { IfOk result (λ copy. copy.items ≡ list.now) }
    ensures scarce { OnErr result (0 < length list.now) }
{
    let mut copy = Vec::new(alloc);
    copy.extend_from_slice(list)?;
    Ok(copy)
}

/// Copies the numbers of the last snapshot that a viewer can see, all of one moment. The view is closed by then, so that the
/// publisher waits for nothing that is done with them.
pub fn look(alloc: Global, viewer: Viewer) -> (Viewer, Result<Glance, GlanceFault>)
    ensures grows { IsBeginning viewer.list result.0.list }
    ensures board { result.0.board ≡ viewer.board }
    ensures last { IfOk result.1 (IsOfTheLast result.0.list) }
    ensures gone { result.1 ≡ Err Gone → result.0 ≡ viewer }
    ensures scarce { result.1 ≡ Err NoMemory → IsSomeAnd (last_of result.0.list) SaysSome }
{
    match viewer.view() {
        Ok(view) => match copied(alloc, view.snapshot()) {
            Ok(seen) => (view.close(), Ok(seen)),
            Err(_) => (view.close(), Err(GlanceFault::NoMemory)),
        },
        Err(viewer) => (viewer, Err(GlanceFault::Gone)),
    }
}
