//! The public calls that pack a whole ladder on many threads.

ghost use Rattle.std.specs.Prelude.{◌≡◌, ◌<◌, ◌≤◌, ◌^◌, Err, IfErr, IfOk, OnOk, length};
ghost use Rattle.ladder_items.specs.World.{HaveRoom};
ghost use Rattle.live_board.specs.Counts.{counts_shown};
ghost use Rattle.rounds.specs.Begun.{IsBegun};
ghost use Rattle.rounds.specs.Courses.{AreLeft};
ghost use Rattle.rounds.specs.Gated.{IsGatesWord, IsUnheld};
ghost use Rattle.rounds.specs.Heralds.{IsHeardOf};
ghost use Rattle.rounds.specs.Permitted.{ShowsLetThrough};
ghost use Rattle.rounds.specs.Shown.{EndsAway, EndsFaulted, EndsPacked, Fits, FitsStart, IsUnbegun, start_at, start_of};

use crate::run::first::{First, beginning};
use crate::run::fitted::pack_fitted;
use crate::run::fitting::fits;
use crate::run::herald::{Herald, Nobody};
use crate::run::ran::Ran;
use crate::run::setup::{Endpoints, Setup};
use item_io::{Outlet, READS, Source};
use ladder_items::{PackFault, Settings};
use live_board::Publisher;
use std::alloc::Global;
use std::sync::Wait;
use std::thread::Threads;
use work_desk::Gate;

/// Packs the streams of all inputs, one for each rendition, on many threads: `workers` threads seal, and the calling thread
/// reads, gives and publishes. It reads from a source only when it's ready, so that none holds up another.
///
/// For each rendition it gives what `pack_serial` gives, in the same order; between renditions the order may differ. After the
/// four items of each segment and the two of each end it publishes one snapshot. Sources, publisher and outlet come back with
/// every answer. Where it's Ok, each source was left behind its last read.
///
/// The publisher must have as many renditions as the settings, none of them with a segment, and there must be 1 to 64 workers;
/// otherwise the answer is Settings. The gate is asked before a segment is sealed. It is asked again, by the calling thread, about one
/// that a worker wasn't let through with: if it stops that one, the answer is Held with its rendition and its number. Each segment that
/// the publisher shows at the end was let through. Want of memory (a thread that can't be started counts as that), a failed put and a
/// held segment stop the run at once. Every thread that was started has ended by the time it answers.
pub fn pack_parallel<S: Source + Drop, O: Outlet + Drop, G: Gate + Sync, R: Threads + Wait + Sync>(
    rt: &R,
    alloc: Global,
    sources: Vec<S>,
    settings: &Settings,
    workers: usize,
    gate: &G,
    publisher: Publisher,
    outlet: O,
) -> Ran<S, O>
    requires room { HaveRoom S.input READS sources.items }
    requires failures { O.output.failures outlet < 2 ^ 63 }
    ensures ok { IfOk result.answer (EndsPacked S.input O.output settings.now workers (start_of sources.items outlet publisher READS) result) }
    ensures fault { IfErr result.answer (EndsFaulted S.input O.output settings.now workers (start_of sources.items outlet publisher READS) result) }
    ensures board { result.publisher.board ≡ publisher.board }
    ensures fits { OnOk result.answer (Fits settings.now (length sources.items) workers (counts_shown publisher.list)) }
    ensures breach { IfErr result.answer (EndsAway S.input O.output settings.now workers (start_of sources.items outlet publisher READS) result) }
    ensures held { IfErr result.answer (IsGatesWord (G.stops gate.now)) }
    ensures let_through { ShowsLetThrough (G.lets gate.now) publisher.list result.publisher.list }
    ensures left { OnOk result.answer (AreLeft S.input result.sources.items) }
{
    pack_parallel_reads(
        rt, alloc, sources, settings, workers, gate, publisher, outlet, READS,
    )
}

/// Packs as `pack_parallel` does, with its own limit of reads.
///
/// An input is read no further once `reads` reads have returned bytes; if its end hasn't come by then, the answer is ReadLimit.
pub fn pack_parallel_reads<
    S: Source + Drop,
    O: Outlet + Drop,
    G: Gate + Sync,
    R: Threads + Wait + Sync,
>(
    rt: &R,
    alloc: Global,
    sources: Vec<S>,
    settings: &Settings,
    workers: usize,
    gate: &G,
    publisher: Publisher,
    outlet: O,
    reads: u64,
) -> Ran<S, O>
    requires least { 1 ≤ reads }
    requires most { reads ≤ READS }
    requires room { HaveRoom S.input reads sources.items }
    requires failures { O.output.failures outlet < 2 ^ 63 }
    ensures ok { IfOk result.answer (EndsPacked S.input O.output settings.now workers (start_of sources.items outlet publisher reads) result) }
    ensures fault { IfErr result.answer (EndsFaulted S.input O.output settings.now workers (start_of sources.items outlet publisher reads) result) }
    ensures board { result.publisher.board ≡ publisher.board }
    ensures fits { OnOk result.answer (Fits settings.now (length sources.items) workers (counts_shown publisher.list)) }
    ensures breach { IfErr result.answer (EndsAway S.input O.output settings.now workers (start_of sources.items outlet publisher reads) result) }
    ensures held { IfErr result.answer (IsGatesWord (G.stops gate.now)) }
    ensures let_through { ShowsLetThrough (G.lets gate.now) publisher.list result.publisher.list }
    ensures left { OnOk result.answer (AreLeft S.input result.sources.items) }
{
    let setup = Setup::new(rt, alloc, settings, workers, gate);
    let endpoints = Endpoints {
        sources,
        outlet,
        publisher,
        reads,
    };
    pack_heralded(&setup, endpoints, &Nobody)
}

/// Packs as `pack_parallel_reads` does, by this setup, and tells the herald of each rendition's fault as soon as it stands: before the
/// calling thread waits for an input again, or, while a round is sealed, when the round is given. A fault of the whole run, and
/// ReadLimit, are told by the answer alone.
pub fn pack_heralded<
    S: Source + Drop,
    O: Outlet + Drop,
    G: Gate + Sync,
    R: Threads + Wait + Sync,
    H: Herald,
>(setup: &Setup<'_, G, R>, endpoints: Endpoints<S, O>, herald: &H) -> Ran<S, O>
    requires least { 1 ≤ endpoints.reads }
    requires most { endpoints.reads ≤ READS }
    requires room { HaveRoom S.input endpoints.reads endpoints.sources.items }
    requires failures { O.output.failures endpoints.outlet < 2 ^ 63 }
    ensures ok { IfOk result.answer (EndsPacked S.input O.output setup.now.settings.now setup.now.workers (start_at endpoints) result) }
    ensures fault { IfErr result.answer (EndsFaulted S.input O.output setup.now.settings.now setup.now.workers (start_at endpoints) result) }
    ensures board { result.publisher.board ≡ endpoints.publisher.board }
    ensures fits { OnOk result.answer (Fits setup.now.settings.now (length endpoints.sources.items) setup.now.workers
        (counts_shown endpoints.publisher.list)) }
    ensures breach { IfErr result.answer (EndsAway S.input O.output setup.now.settings.now setup.now.workers (start_at endpoints) result) }
    ensures held { IfErr result.answer (IsGatesWord (G.stops setup.now.gate.now)) }
    ensures let_through { ShowsLetThrough (G.lets setup.now.gate.now) endpoints.publisher.list result.publisher.list }
    ensures left { OnOk result.answer (AreLeft S.input result.sources.items) }
    ensures told { IfErr result.answer (IsHeardOf (H.was_told herald.now)) }
{
    match begin(setup, &endpoints) {
        Ok(first) => pack_fitted(setup, first, endpoints, herald),
        Err(fault) => turn_away(fault, setup.settings, setup.workers, endpoints),
    }
}

/// What a run begins with, if the run fits.
fn begin<S, O, G, R>(
    setup: &Setup<'_, G, R>,
    endpoints: &Endpoints<S, O>,
) -> Result<First, PackFault>
    ensures fits { OnOk result (FitsStart setup.now.settings.now setup.now.workers (start_at endpoints.now)) }
    ensures begun { IfOk result (IsBegun setup.now.settings.now setup.now.workers) }
    ensures fault { IfErr result (IsUnbegun setup.now.settings.now (length endpoints.now.sources.items) setup.now.workers
        (counts_shown endpoints.now.publisher.list)) }
{
    let inputs = endpoints.sources.len();
    if !fits(setup.settings, inputs, setup.workers, &endpoints.publisher) {
        return Err(PackFault::Settings);
    }
    Ok(beginning(setup.alloc, setup.settings, setup.workers)?)
}

/// Gives everything back where the run isn't begun.
fn turn_away<S: Source, O: Outlet>(
    fault: PackFault,
    settings: &Settings,
    workers: usize,
    endpoints: Endpoints<S, O>,
) -> Ran<S, O>
    requires fault { IsUnbegun settings.now (length endpoints.sources.items) workers (counts_shown endpoints.publisher.list) fault }
    ensures answer { result.answer ≡ Err fault }
    ensures fault { EndsFaulted S.input O.output settings.now workers (start_at endpoints) result fault }
    ensures breach { EndsAway S.input O.output settings.now workers (start_at endpoints) result fault }
    ensures unheld { IsUnheld fault }
    ensures board { result.publisher.board ≡ endpoints.publisher.board }
    ensures shown { result.publisher.list ≡ endpoints.publisher.list }
{
    let Endpoints {
        sources,
        outlet,
        publisher,
        reads: _,
    } = endpoints;
    Ran {
        sources,
        publisher,
        outlet,
        answer: Err(fault),
    }
}
