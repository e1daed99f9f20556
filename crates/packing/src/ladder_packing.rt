ghost use Rattle.std.specs.Prelude.{◌≡◌, ◌⊎◌, ◌<◌, ◌^◌, IfOk, IfErr, IsErrOf, OnOk, length};
ghost use Rattle.std.specs.Io.KnownBytes.{Keeps};
ghost use Rattle.std.specs.Option.{unwrap_or};
ghost use Rattle.ladder_items.specs.Runs.{run_of};
ghost use Rattle.ladder_items.specs.World.{HaveRoom};
ghost use Rattle.live_board.specs.Counts.{counts_shown};
ghost use Rattle.rounds.specs.Shown.{Fits, IsPackedShown};
ghost use Rattle.packing.specs.LadderPacking.{BeginsSummary, IsHeard, IsNeverHeld, LadderSays, LeavesSummary, TurnsAway, WritesSummary};
ghost use Rattle.commands.specs.declared.packing_fault.LadderPackingFault.TheVariants.{NoMemory, Unwritten};

use crate::ahead_gate::AheadGate;
use crate::setup::LadderSetup;
use crate::summaries::summary;
use commands::{LadderPackingFault, Output, Pool, write_all};
use folder::WriteAhead;
use item_io::{Outlet, READS, Source};
use live_board::Publisher;
use pipeline::{Endpoints, Herald, Ran, Report, Settings, Setup, pack_heralded};
use std::alloc::Global;
use std::sync::Wait;
use std::thread::Threads;
use work_desk::Shelf;

/// What a run of `pack` gives back, whatever its answer.
pub struct PackedLadder<S, O> {
    pub sources: Vec<S>,
    pub publisher: Publisher,
    pub outlet: O,
    pub answer: Result<Report, LadderPackingFault>,
}

/// The command `pack`: packs a ladder on many threads, one source for each rendition, puts its segments and playlists into the
/// outlet, and writes a line for each rendition when all of it is packed.
///
/// Before the whole ladder is packed nothing is written. What was put before a fault stands. The herald is told of a rendition's
/// fault as soon as it stands.
pub fn pack<
    S: Source + Drop,
    O: Outlet + Drop,
    W: Output,
    R: Threads + Wait + Sync,
    H: Herald,
    A: WriteAhead + Sync,
>(
    setup: &LadderSetup<'_, R, H, A>,
    sources: Vec<S>,
    publisher: Publisher,
    outlet: O,
    output: &mut W,
) -> PackedLadder<S, O>
    requires room { HaveRoom S.input READS sources.items }
    requires failures { O.output.failures outlet < 2 ^ 63 }
    ensures ok { IfOk result.answer (IsPackedShown
        (run_of S.input O.output READS sources.items result.sources.items outlet result.outlet)
        setup.now.settings.now setup.now.pool.workers publisher.list result.publisher.list) }
    ensures written { IfOk result.answer (λ report. WritesSummary setup.now.settings.now report (W.contents output.old) (W.contents output.new)) }
    ensures fault { IfErr result.answer (LadderSays
        (run_of S.input O.output READS sources.items result.sources.items outlet result.outlet)
        setup.now.settings.now setup.now.pool.workers publisher.list result.publisher.list (W.contents output.old) (W.contents output.new)) }
    ensures board { result.publisher.board ≡ publisher.board }
    ensures fits { OnOk result.answer (Fits setup.now.settings.now (length sources.items) setup.now.pool.workers (counts_shown publisher.list)) }
    ensures breach { IfErr result.answer (TurnsAway
        (run_of S.input O.output READS sources.items result.sources.items outlet result.outlet)
        setup.now.settings.now setup.now.pool.workers publisher.list result.publisher.list) }
    ensures never_held { IfErr result.answer IsNeverHeld }
    ensures told { IfErr result.answer (IsHeard (H.was_told setup.now.herald.now)) }
    ensures flushed { OnOk result.answer (W.flushed output.new) }
    ensures unwritten { IsErrOf result.answer Unwritten →
        (report : Report) × LeavesSummary (W.unflushed output.new) setup.now.settings.now report (W.contents output.old) (W.contents output.new) }
{
    let run = run_setup(setup);
    let endpoints = Endpoints {
        sources,
        outlet,
        publisher,
        reads: READS,
    };
    let Ran {
        sources,
        publisher,
        outlet,
        answer,
    } = pack_heralded(&run, endpoints, setup.herald);
    match answer {
        Err(fault) => PackedLadder {
            sources,
            publisher,
            outlet,
            answer: Err(LadderPackingFault::Packing(fault)),
        },
        Ok(report) => PackedLadder {
            sources,
            publisher,
            outlet,
            answer: write_summary(setup.alloc, setup.settings, report, output),
        },
    }
}

/// The setup of the run of a ladder, which lets all segments through.
fn run_setup<'a, R, H, A: WriteAhead>(
    setup: &LadderSetup<'a, R, H, A>,
) -> Setup<'a, AheadGate<A>, R>
    ensures settings { result.settings ≡ setup.now.settings }
    ensures workers { result.workers ≡ setup.now.pool.workers }
    ensures batch { result.batch ≡ unwrap_or setup.now.pool.batch setup.now.pool.queue }
    ensures pairs { result.pairs ≡ setup.now.pairs }
{
    Setup {
        rt: setup.rt,
        alloc: setup.alloc,
        settings: setup.settings,
        workers: setup.pool.workers as usize,
        gate: setup.gate,
        batch: most_closed(setup.pool),
        pairs: setup.pairs,
        shelf: Shelf::new(setup.alloc, most_closed(setup.pool)),
    }
}

/// How many segments are closed where a round of sealing begins at the latest.
fn most_closed(pool: Pool) -> usize
    ensures { result ≡ unwrap_or pool.batch pool.queue }
{
    pool.batch.unwrap_or(pool.queue) as usize
}

/// Writes the summary of a run, and gives the report back.
fn write_summary<W: Output>(
    alloc: Global,
    settings: &Settings,
    report: Report,
    output: &mut W,
) -> Result<Report, LadderPackingFault>
    ensures same { IfOk result (λ given. given ≡ report) }
    ensures ok { IfOk result (λ given. WritesSummary settings.now given (W.contents output.old) (W.contents output.new)) }
    ensures fault { IfErr result (λ fault. ((fault ≡ Unwritten) ×
        BeginsSummary settings.now report (W.contents output.old) (W.contents output.new)) ⊎
        ((fault ≡ NoMemory) × Keeps (W.contents output.old) (W.contents output.new))) }
    ensures flushed { OnOk result (W.flushed output.new) }
    ensures unwritten { IsErrOf result Unwritten →
        LeavesSummary (W.unflushed output.new) settings.now report (W.contents output.old) (W.contents output.new) }

    // The summary of a ladder without renditions wants no memory.
    ensures scarce { IsErrOf result NoMemory → 0 < length settings.now.renditions }
{
    let Ok(text) = summary(alloc, settings, &report) else {
        return Err(LadderPackingFault::NoMemory);
    };
    match write_all(output, text.as_bytes()) {
        Ok(()) => Ok(report),
        Err(_) => Err(LadderPackingFault::Unwritten),
    }
}
