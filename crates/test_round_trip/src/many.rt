//! Runs on many threads.
use crate::run::{Ran, Ways, sources_of};
use item_io::FailingOutlet;
use live_board::Viewer;
use pipeline::{Settings, opening_board, pack_parallel_reads};
use std::alloc::{AllocError, Global};
use std::sync::Wait;
use std::test::Fail;
use std::thread::Threads;
use work_desk::Gate;

/// What a run made, and what a viewer saw at its end: how many segments each rendition had, and whether it had ended.
#[derive(Drop)]
pub struct Seen {
    pub ran: Ran,
    pub counts: Vec<u64>,
    pub ended: Vec<bool>,
}

/// How many threads seal, and what they ask before each segment.
#[derive(Clone, Copy)]
pub struct Sealers<'g, G> {
    pub workers: usize,
    pub gate: &'g G,
}

/// The counts and the ends that a viewer sees.
fn look(alloc: Global, viewer: Viewer) -> Result<(Vec<u64>, Vec<bool>), AllocError> {
    let mut counts = Vec::new(alloc);
    let mut ended = Vec::new(alloc);
    if let Ok(view) = viewer.view() {
        let snapshot = view.snapshot();
        let grown = counts.extend_from_slice(&snapshot.counts);
        let also = ended.extend_from_slice(&snapshot.ended);
        let _ = view.close();
        grown?;
        also?;
    }
    Ok((counts, ended))
}

/// Packs these inputs on many threads before a viewer.
pub fn run_seen<G: Gate + Sync, R: Threads + Wait + Sync>(
    rt: &R,
    alloc: Global,
    inputs: &[&[u8]],
    ways: Ways,
    settings: &Settings,
    sealers: Sealers<'_, G>,
) -> Result<Seen, Fail> {
    let sources = sources_of(alloc, inputs, ways)?;
    let (publisher, mut viewers) = opening_board(rt, alloc, settings.renditions.len(), 1)?;
    let outlet = FailingOutlet::new(alloc, ways.failing_put);
    let Sealers { workers, gate } = sealers;
    let reads = ways.reads();
    let rounds::Ran {
        sources: _,
        publisher,
        outlet,
        answer,
    } = pack_parallel_reads(
        rt, alloc, sources, settings, workers, gate, publisher, outlet, reads,
    );
    let ran = Ran { answer, outlet };
    let mut seen = Ok((Vec::new(alloc), Vec::new(alloc)));
    if let Some(mut viewer) = viewers.pop() {
        publisher.tell(&mut viewer);
        seen = look(alloc, viewer);
    }
    publisher.end(rt);
    let (counts, ended) = seen?;
    Ok(Seen { ran, counts, ended })
}

/// The same without a look at its end.
pub fn run_on<G: Gate + Sync, R: Threads + Wait + Sync>(
    rt: &R,
    alloc: Global,
    inputs: &[&[u8]],
    ways: Ways,
    settings: &Settings,
    sealers: Sealers<'_, G>,
) -> Result<Ran, Fail> {
    let seen = run_seen(rt, alloc, inputs, ways, settings, sealers)?;
    Ok(seen.ran)
}
