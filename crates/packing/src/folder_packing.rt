ghost use Rattle.std.specs.Prelude.{◌≡◌, [], IfOk, IfErr, IsErrOf, OnOk, length};
ghost use Rattle.ladder_items.specs.World.{HaveRoom};
ghost use Rattle.live_board.specs.Counts.{counts_shown};
ghost use Rattle.rounds.specs.Shown.{Fits, IsPackedShown};
ghost use Rattle.packing.specs.FolderPacking.{FolderSays, IsPackedInto, LeavesPlayable, LeavesPrefix, folder_run};
ghost use Rattle.packing.specs.LadderPacking.{IsHeard, IsNeverHeld, LadderSays, LeavesSummary, TurnsAway, WritesSummary};
ghost use Rattle.commands.specs.declared.packing_fault.LadderPackingFault.TheVariants.{Unwritten};

use crate::destination::{Destination, outlet_of};
use crate::ladder_packing::{PackedLadder, pack};
use crate::setup::LadderSetup;
use commands::Output;
use folder::{Folder, WriteAhead};
use item_io::{FolderOutlet, READS, Source};
use ladder_laws::names_are_bytes;
use live_board::Publisher;
use pipeline::{Herald, Report};
use std::sync::Wait;
use std::thread::Threads;

/// The command `pack` for a folder to which nothing was done before: packs a ladder on many threads and puts its segments
/// and playlists into files of the folder.
///
/// Wherever the process is killed, also after a fault, the folder shows what stood there before with a prefix of a weave
/// of the renditions over it, whole files alone; and once all is packed, all of the weave is there. A folder that is synced
/// holds that on the disk too, wherever the machine loses its power. What the folder shows can be played at each moment: each
/// file that a playlist in place lists is in place too, whole, where the folder had no file of these names before, or, in a run
/// that goes on, just what the runs before it put.
pub fn pack_into_folder<
    S: Source + Drop,
    F: Folder + Drop,
    W: Output,
    R: Threads + Wait + Sync,
    H: Herald,
    A: WriteAhead + Sync,
>(
    setup: &LadderSetup<'_, R, H, A>,
    sources: Vec<S>,
    publisher: Publisher,
    into: Destination<F>,
    output: &mut W,
) -> PackedLadder<S, FolderOutlet<F>>
    requires room { HaveRoom S.input READS sources.items }
    requires fresh { F.made into.folder ≡ [] }
    ensures killed { LeavesPrefix setup.now.settings.now into.syncs (F.made result.outlet.folder) }
    ensures playable { LeavesPlayable setup.now.settings.now into.syncs (F.made result.outlet.folder) }
    ensures there { IfOk result.answer (IsPackedInto
        (folder_run S.input F.made READS sources.items result.sources.items into result.outlet)
        setup.now.settings.now into.syncs (F.made result.outlet.folder)) }
    ensures left { IfErr result.answer (FolderSays
        (folder_run S.input F.made READS sources.items result.sources.items into result.outlet)
        setup.now.settings.now into.syncs (F.made result.outlet.folder)) }
    ensures ok { IfOk result.answer (IsPackedShown
        (folder_run S.input F.made READS sources.items result.sources.items into result.outlet)
        setup.now.settings.now setup.now.pool.workers publisher.list result.publisher.list) }
    ensures written { IfOk result.answer (λ report. WritesSummary setup.now.settings.now report (W.contents output.old) (W.contents output.new)) }
    ensures fault { IfErr result.answer (LadderSays
        (folder_run S.input F.made READS sources.items result.sources.items into result.outlet)
        setup.now.settings.now setup.now.pool.workers publisher.list result.publisher.list (W.contents output.old) (W.contents output.new)) }
    ensures board { result.publisher.board ≡ publisher.board }
    ensures fits { OnOk result.answer (Fits setup.now.settings.now (length sources.items) setup.now.pool.workers (counts_shown publisher.list)) }
    ensures breach { IfErr result.answer (TurnsAway
        (folder_run S.input F.made READS sources.items result.sources.items into result.outlet)
        setup.now.settings.now setup.now.pool.workers publisher.list result.publisher.list) }
    ensures never_held { IfErr result.answer IsNeverHeld }
    ensures told { IfErr result.answer (IsHeard (H.was_told setup.now.herald.now)) }
    ensures flushed { OnOk result.answer (W.flushed output.new) }
    ensures unwritten { IsErrOf result.answer Unwritten →
        (report : Report) × LeavesSummary (W.unflushed output.new) setup.now.settings.now report (W.contents output.old) (W.contents output.new) }
{
    names_are_bytes(setup.settings);
    let outlet = outlet_of(into, setup.alloc);
    pack(setup, sources, publisher, outlet, output)
}
