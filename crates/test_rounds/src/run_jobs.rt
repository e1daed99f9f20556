//! Runs on many threads for tests.

ghost use Rattle.std.specs.Prelude.{◌≡◌, All, IfOk};

use crate::fixtures::settings;
use fixture_standard_stream::{KEY_FRAME, PAT, PMT, append_packets};
use item_io::{FailingOutlet, FailingReader, Item, READS};
use ladder_items::{PackFault, Report, Settings};
use live_board::{Publisher, Snapshot, Viewer, board};
use rounds::{Endpoints, Nobody, Ran, Setup, pack_heralded, pack_parallel};
use std::alloc::{AllocError, Global};
use std::sync::Wait;
use std::test::Fail;
use std::thread::Threads;
use work_desk::{Gate, Shelf};

/// A key frame at 540,000 ticks, with continuity_counter 1.
const SECOND_KEY_FRAME: &[u8] =
    b"\x47\x41\x00\x31\x01\x40\x00\x00\x01\xe0\x00\x00\x80\x80\x05\x21\x00\x21\x7a\xc1";

/// The standard stream: its tables, and key frames at 0 and 540,000 ticks with another frame behind each.
pub(crate) const TWO: &[&[u8]] = &[
    PAT,
    PMT,
    KEY_FRAME,
    b"\x47\x41\x00\x10\x00\x00\x01\xe0\x00\x00\x80\x80\x05\x21\x00\x11\x3d\x61",
    SECOND_KEY_FRAME,
    b"\x47\x41\x00\x12\x00\x00\x01\xe0\x00\x00\x80\x80\x05\x21\x00\x31\xb8\x21",
];

/// Seven segments of six seconds: tables, seven key frames 540,000 ticks apart, and a frame at 3,776,400 ticks.
pub(crate) const SEVEN: &[&[u8]] = &[
    PAT,
    PMT,
    KEY_FRAME,
    SECOND_KEY_FRAME,
    b"\x47\x41\x00\x32\x01\x40\x00\x00\x01\xe0\x00\x00\x80\x80\x05\x21\x00\x41\xf5\x81",
    b"\x47\x41\x00\x33\x01\x40\x00\x00\x01\xe0\x00\x00\x80\x80\x05\x21\x00\x63\x70\x41",
    b"\x47\x41\x00\x34\x01\x40\x00\x00\x01\xe0\x00\x00\x80\x80\x05\x21\x00\x83\xeb\x01",
    b"\x47\x41\x00\x35\x01\x40\x00\x00\x01\xe0\x00\x00\x80\x80\x05\x21\x00\xa5\x65\xc1",
    b"\x47\x41\x00\x36\x01\x40\x00\x00\x01\xe0\x00\x00\x80\x80\x05\x21\x00\xc5\xe0\x81",
    b"\x47\x41\x00\x17\x00\x00\x01\xe0\x00\x00\x80\x80\x05\x21\x00\xe7\x3f\x21",
];

/// What is packed, and how: a stream, which is read in pieces of so many bytes, so many workers, how many plans may be
/// outstanding, with how many closed ones a round begins at the latest (where none is told, as many as there are workers), and
/// which read and which put fails, counted from 1.
#[derive(Clone, Copy)]
pub(crate) struct Job {
    pub(crate) stream: &'static [&'static [u8]],
    pub(crate) piece: usize,
    pub(crate) workers: usize,
    pub(crate) queue: u64,
    pub(crate) batch: Option<usize>,
    pub(crate) failing_read: u64,
    pub(crate) failing_put: u64,
}

/// All goes well, in reads of any length.
pub(crate) const WELL: Job = Job {
    stream: TWO,
    piece: 18_800,
    workers: 2,
    queue: 4,
    batch: None,
    failing_read: 0,
    failing_put: 0,
};

/// How a run ended: its answer, the outlet, and how many inputs came back.
#[derive(Drop)]
pub(crate) struct Ended {
    pub(crate) answer: Result<Report, PackFault>,
    pub(crate) outlet: FailingOutlet,
    pub(crate) inputs: usize,
}

/// What is told of a run at once: what its report tells, how many items were given, how many inputs came back, and the count
/// that a viewer saw last.
pub(crate) type Told = (Result<Numbers, PackFault>, usize, usize, u64);

/// How many segments, how many of them workers claimed, how many the calling thread sealed and how many it threw away, and
/// the rounds.
pub(crate) type Numbers = (u64, u128, u128, u128, u64);

impl Ended {
    /// What its report tells.
    pub(crate) fn numbers(&self) -> Result<Numbers, PackFault> {
        match &self.answer {
            Ok(report) => {
                let mut claims: u128 = 0;
                for count in &report.workers {
                    claims = claims.saturating_add(*count);
                }
                let count = report.counts.first().copied().unwrap_or(0);
                Ok((count, claims, report.own, report.thrown, report.rounds))
            }
            Err(fault) => Err(*fault),
        }
    }

    /// What is told of it, where a viewer saw this count last.
    pub(crate) fn told(&self, seen: u64) -> Told {
        (self.numbers(), self.outlet.items().len(), self.inputs, seen)
    }
}

/// A snapshot of one rendition without a segment.
pub(crate) fn nothing(alloc: Global) -> Result<Snapshot, AllocError> {
    Ok(Snapshot {
        counts: Vec::from_array(alloc, [0])?,
        ended: Vec::from_array(alloc, [false])?,
        totals: Vec::new(alloc),
        media: Vec::new(alloc),
        frames: Vec::new(alloc),
        master: String::new(alloc),
    })
}

/// The settings of one rendition, of which at least three segments are listed.
pub(crate) fn settings_of(alloc: Global, job: &Job) -> Result<Settings, Fail> {
    let mut settings = settings(alloc)?;
    settings.window = 3;
    settings.queue = job.queue;
    Ok(settings)
}

/// The one input.
fn sources(alloc: Global, job: &Job) -> Result<Vec<FailingReader>, AllocError>
    ensures { IfOk result (λ sources. All (λ source. (source.reads ≡ 0) × (source.failures ≡ 0)) sources.items) }
{
    let mut bytes = Vec::new(alloc);
    append_packets(&mut bytes, job.stream)?;
    let mut sources = Vec::new(alloc);
    sources.push(FailingReader::new(bytes, job.piece.max(1), job.failing_read))?;
    Ok(sources)
}

/// Packs the stream of these endpoints, of which nothing was read.
fn run<G: Gate + Sync, R: Threads + Wait + Sync>(
    rt: &R,
    alloc: Global,
    job: &Job,
    settings: &Settings,
    gate: &G,
    endpoints: Endpoints<FailingReader, FailingOutlet>,
) -> Ran<FailingReader, FailingOutlet>
    requires read { All (λ source. (source.reads ≡ 0) × (source.failures ≡ 0)) endpoints.sources.items }
    requires put { endpoints.outlet.failures ≡ 0 }
    requires reads { endpoints.reads ≡ READS }
    ensures { result.publisher.board ≡ endpoints.publisher.board }
{
    let Some(batch) = job.batch else {
        let Endpoints {
            sources,
            outlet,
            publisher,
            reads: _,
        } = endpoints;
        return pack_parallel(
            rt,
            alloc,
            sources,
            settings,
            job.workers,
            gate,
            publisher,
            outlet,
        );
    };
    let setup = Setup {
        rt,
        alloc,
        settings,
        workers: job.workers,
        gate,
        batch,
        pairs: true,
        shelf: Shelf::new(alloc, job.workers),
    };
    pack_heralded(&setup, endpoints, &Nobody)
}

/// Packs the stream, and shows it. Without memory for the input there is no run.
pub(crate) fn pack<G: Gate + Sync, R: Threads + Wait + Sync>(
    rt: &R,
    alloc: Global,
    job: &Job,
    settings: &Settings,
    gate: &G,
    publisher: Publisher,
) -> (Publisher, Option<Ended>)
    ensures { result.0.board ≡ publisher.board }
{
    let Ok(sources) = sources(alloc, job) else {
        return (publisher, None);
    };
    let endpoints = Endpoints {
        sources,
        outlet: FailingOutlet::new(alloc, job.failing_put),
        publisher,
        reads: READS,
    };
    let Ran {
        sources,
        publisher,
        outlet,
        answer,
    } = run(rt, alloc, job, settings, gate, endpoints);
    let ended = Ended {
        answer,
        outlet,
        inputs: sources.len(),
    };
    (publisher, Some(ended))
}

/// Packs the stream, and tells the count that a viewer saw last.
pub(crate) fn packed<G: Gate + Sync, R: Threads + Wait + Sync>(
    rt: &R,
    alloc: Global,
    job: &Job,
    gate: &G,
) -> Result<(Ended, u64), Fail> {
    let settings = settings_of(alloc, job)?;
    let (publisher, mut viewers) = board(rt, alloc, nothing(alloc)?, 1)?;
    let (publisher, ended) = pack(rt, alloc, job, &settings, gate, publisher);
    let mut seen = 0;
    if let Some(mut viewer) = viewers.pop() {
        publisher.tell(&mut viewer);
        seen = count_seen(viewer);
    }
    publisher.end(rt);
    match ended {
        Some(ended) => Ok((ended, seen)),
        None => Err(Fail::from(AllocError)),
    }
}

/// Packs the stream, and tells at once how the run ended.
pub(crate) fn told<G: Gate + Sync, R: Threads + Wait + Sync>(
    rt: &R,
    alloc: Global,
    job: &Job,
    gate: &G,
) -> Result<Told, Fail> {
    let (ended, seen) = packed(rt, alloc, job, gate)?;
    Ok(ended.told(seen))
}

/// The same, and whether the items that it gave are a prefix of these.
pub(crate) fn told_beside<G: Gate + Sync, R: Threads + Wait + Sync>(
    rt: &R,
    alloc: Global,
    job: &Job,
    gate: &G,
    whole: &[Item],
) -> Result<(Told, bool), Fail> {
    let (ended, seen) = packed(rt, alloc, job, gate)?;
    Ok((ended.told(seen), whole.starts_with(ended.outlet.items())))
}

/// The count of the first rendition that a viewer sees.
fn count_seen(viewer: Viewer) -> u64 {
    match viewer.view() {
        Ok(view) => {
            let count = view.snapshot().counts.first().copied().unwrap_or(0);
            let _ = view.close();
            count
        }
        Err(_) => 0,
    }
}
