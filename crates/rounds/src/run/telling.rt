//! Whose fault was told already.

ghost use Rattle.std.specs.Prelude.{◌≡◌, ◌<◌, false, true, IfNone, IfSome, None, Some, replicate, slice_index_or, slice_set};
ghost use Rattle.ladder_items.specs.Packed.{told_of_cut};
ghost use Rattle.rounds.specs.Heralds.{fault_of};

use crate::run::herald::Herald;
use ingest::{Stop, StreamFault};
use ladder_items::PackFault;
use limits::MOST_RENDITIONS;

/// As many renditions as a ladder has at the most.
pub const RENDITIONS: usize = MOST_RENDITIONS as usize;

/// A herald, and whose fault it was told, by rendition. Nothing else can tell it one, so that each is told once.
#[derive(Drop)]
pub struct Telling<'h, H> {
    herald: &'h H,
    told: [bool; RENDITIONS],
}

impl<'h, H: Herald> Telling<'h, H> {
    /// Nothing was told yet.
    pub fn new(herald: &'h H) -> Telling<'h, H>
        ensures none { result.told ≡ replicate RENDITIONS false }
        ensures herald { result.herald ≡ herald.entry }
    {
        Telling {
            herald,
            told: [false; RENDITIONS],
        }
    }

    /// Whether the fault of rendition `r` was told.
    pub fn has_told(&self, r: usize) -> bool
        requires { r < RENDITIONS }
        ensures { result ≡ slice_index_or self.now.told r true }
    {
        self.told[r]
    }

    /// Tells the fault of a rendition, which wasn't told yet.
    pub fn tell_first(&mut self, found: Found)
        requires within { found.rendition < RENDITIONS }
        requires untold { slice_index_or self.old.told found.rendition true ≡ false }
        ensures heard { H.was_told self.old.herald.now found.fault }
        ensures told { self.new.told ≡ slice_set self.old.told found.rendition true }
        ensures herald { self.new.herald ≡ self.old.herald }
    {
        let Found { rendition, fault } = found;
        self.told[rendition] = true;
        self.herald.tell(fault);
    }
}

/// A rendition, and the fault by which it stopped. Only [`fault_of`] makes one.
#[derive(Drop)]
pub struct Found {
    rendition: usize,
    fault: PackFault,
}

/// The fault by which rendition `r` stopped.
pub fn fault_of(r: usize, stop: Option<Stop>) -> Option<Found>
    ensures some { IfSome result (λ found. (found.rendition ≡ r) × (fault_of r stop ≡ Some found.fault)) }
    ensures none { IfNone result (fault_of r stop ≡ None) }
{
    let fault = match stop {
        None => return None,
        Some(Stop::Good(_)) => return None,
        Some(Stop::Read) => PackFault::Read(r),
        Some(Stop::Cut(fault)) => cut_fault(r, fault),
    };
    Some(Found {
        rendition: r,
        fault,
    })
}

/// The fault of a rendition's stream.
fn cut_fault(r: usize, fault: StreamFault) -> PackFault
    ensures { result ≡ told_of_cut r fault }
{
    match fault {
        StreamFault::NoProgram => PackFault::NoProgram(r),
        StreamFault::NoStart => PackFault::NoStart(r),
        StreamFault::LongSegment(number) => PackFault::LongSegment(r, number),
        StreamFault::BigSegment(number) => PackFault::BigSegment(r, number),
        StreamFault::Limit => PackFault::Limit(r),
    }
}
