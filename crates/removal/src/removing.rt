//! A ladder whose old segments go.

ghost use Rattle.std.specs.Prelude.{◌≡◌, [], IfOk, IfErr, IsErrOf, OnOk, length};
ghost use Rattle.ladder_items.specs.World.{HaveRoom};
ghost use Rattle.live_board.specs.Counts.{counts_shown};
ghost use Rattle.rounds.specs.Shown.{Fits, IsPackedShown};
ghost use Rattle.item_io.specs.FolderMoves.{new_outlet};
ghost use Rattle.keeping.specs.Keepings.{AreTold, Stay, removed_of};
ghost use Rattle.keeping.specs.InPlace.{NoneIsListed};
ghost use Rattle.packing.specs.LadderPacking.{IsHeard, IsNeverHeld, LadderSays, LeavesSummary, TurnsAway, WritesSummary};
ghost use Rattle.commands.specs.declared.packing_fault.LadderPackingFault.TheVariants.{Unwritten};
ghost use Rattle.removal.specs.Removing.{AreAllCleared, LeavesKept, kept_run, new_keeping};

use crate::tally::{RemovalHerald, Tallied};
use commands::Output;
use folder::{Folder, PruningFolder, WriteAhead};
use item_io::{FolderOutlet, READS, Source};
use keeping::{Keeping, KeepingOutlet};
use live_board::Publisher;
use packing::{Destination, LadderSetup, PackedLadder, pack};
use pipeline::{Herald, Report};
use std::alloc::Global;
use std::sync::Wait;
use std::thread::Threads;

/// The command `pack --remove` for a folder to which nothing was done before: packs a ladder on many threads, puts its segments
/// and playlists into files of the folder, and removes segments that no player can want any more, as each rendition's
/// [`Keeping`] has it. At first and behind each item the herald is told how many were removed.
///
/// Wherever the process is killed, also after a fault, the folder shows what stood there before with a prefix of a weave of the
/// renditions over it, whole files alone, but that segments may be missing which were removed, and which no playlist in place
/// lists. A folder that is synced holds that on the disk too, wherever the machine loses its power. Once it has ended well, no
/// playlist in place lists a segment that was removed.
pub fn pack_and_remove<
    S: Source + Drop,
    F: Folder + Drop,
    W: Output,
    R: Threads + Wait + Sync,
    H: Herald + RemovalHerald,
    A: WriteAhead + Sync,
>(
    setup: &LadderSetup<'_, R, H, A>,
    sources: Vec<S>,
    publisher: Publisher,
    into: Destination<F>,
    renditions: Vec<Keeping>,
    output: &mut W,
) -> PackedLadder<S, KeepingOutlet<F>>
    requires room { HaveRoom S.input READS sources.items }
    requires fresh { F.made into.folder ≡ [] }
    requires untold { AreTold renditions.items [] }
    ensures killed { LeavesKept setup.now.settings.now into.syncs (F.made result.outlet.files.folder) result.outlet.renditions }
    ensures unlisted { OnOk result.answer (NoneIsListed (F.made result.outlet.files.folder) result.outlet.renditions) }
    ensures ok { IfOk result.answer (IsPackedShown
        (kept_run S.input F.made READS sources.items result.sources.items (new_keeping into renditions.items) result.outlet)
        setup.now.settings.now setup.now.pool.workers publisher.list result.publisher.list) }
    ensures written { IfOk result.answer (λ report. WritesSummary setup.now.settings.now report (W.contents output.old) (W.contents output.new)) }
    ensures fault { IfErr result.answer (LadderSays
        (kept_run S.input F.made READS sources.items result.sources.items (new_keeping into renditions.items) result.outlet)
        setup.now.settings.now setup.now.pool.workers publisher.list result.publisher.list (W.contents output.old) (W.contents output.new)) }
    ensures board { result.publisher.board ≡ publisher.board }
    ensures fits { OnOk result.answer (Fits setup.now.settings.now (length sources.items) setup.now.pool.workers (counts_shown publisher.list)) }
    ensures breach { IfErr result.answer (TurnsAway
        (kept_run S.input F.made READS sources.items result.sources.items (new_keeping into renditions.items) result.outlet)
        setup.now.settings.now setup.now.pool.workers publisher.list result.publisher.list) }
    ensures never_held { IfErr result.answer IsNeverHeld }

    ensures told { IfErr result.answer (IsHeard (H.was_told setup.now.herald.now)) }
    ensures flushed { OnOk result.answer (W.flushed output.new) }
    ensures unwritten { IsErrOf result.answer Unwritten →
        (report : Report) × LeavesSummary (W.unflushed output.new) setup.now.settings.now report (W.contents output.old) (W.contents output.new) }

    // A herald of this kind, of which there is one alone, was told how many segments went by then, also where none did.
    ensures counted { (herald : H) × H.was_removed herald (removed_of result.outlet.renditions) }

    // Each rendition that comes back is the one that was handed in: none is lost, made anew, or takes the place of another one.
    ensures same { Stay renditions.items result.outlet.renditions }

    // Behind a run that ended well all of its segments went that may go, unless one couldn't be removed.
    ensures cleared { OnOk result.answer (AreAllCleared setup.now.settings.now result.outlet.missed result.outlet.renditions) }
{
    let outlet = KeepingOutlet::new(outlet_of(into, setup.alloc), setup.alloc, renditions);
    let outlet = Tallied::over(outlet, setup.herald);
    let PackedLadder {
        sources,
        publisher,
        outlet,
        answer,
    } = pack(setup, sources, publisher, outlet, output);
    PackedLadder {
        sources,
        publisher,
        outlet: outlet.into_outlet(),
        answer,
    }
}

/// The outlet of a folder from which old files go, which was given no item yet.
fn outlet_of<F: Folder>(into: Destination<F>, alloc: Global) -> FolderOutlet<PruningFolder<F>>
    ensures { result ≡ new_outlet into.syncs into.folder }
{
    let Destination { folder, syncs } = into;
    let folder = PruningFolder::new(folder);
    if syncs {
        return FolderOutlet::with_synced_folder(folder, alloc);
    }
    FolderOutlet::with_folder(folder, alloc)
}
