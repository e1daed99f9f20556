//! Faults are told when they stand, each once, and how many segments are complete.

ghost use Rattle.std.specs.Prelude.{◌≡◌, All, IfOk, OnOk};

use crate::asserts::assert_same;
use crate::pause_tests::{nothing_of_two, two};
use crate::run_jobs::SEVEN;
use fixture_standard_stream::append_packets;
use item_io::{FailingOutlet, FailingReader, READS};
use ladder_items::{PackFault, Settings};
use live_board::{Publisher, board};
use rounds::{Endpoints, Herald, Ran, Setup, pack_heralded};
use std::alloc::{AllocError, Global};
use std::sync::{Mutex, Wait};
use std::test::Fail;
use std::thread::Threads;
use work_desk::{FreeGate, Shelf};

/// What was told, in its order.
#[derive(Drop)]
struct Notes<R> {
    rt: R,
    told: Mutex<[Option<PackFault>; 4]>,
    /// How many segments were complete at each round's beginning: never fewer than before.
    completed: Mutex<u128>,
    fell: Mutex<bool>,
}

impl<R: Wait> Notes<R> {
    /// Nothing was told.
    fn new(rt: R) -> Notes<R> {
        Notes {
            rt,
            told: Mutex::new([None; 4]),
            completed: Mutex::new(0),
            fell: Mutex::new(false),
        }
    }
}

impl<R: Wait> Herald for Notes<R> {
    fn tell(&self, fault: PackFault) {
        let mut told = self.told.lock(&self.rt);
        for known in told.iter_mut() {
            if known.is_none() {
                *known = Some(fault);
                return;
            }
        }
    }

    fn completed(&self, segments: u128) {
        let mut completed = self.completed.lock(&self.rt);
        if segments < *completed {
            *self.fell.lock(&self.rt) = true;
        }
        *completed = segments;
    }
}

/// Adds a source of seven segments, read in single packets, which fails at this read, or at none where it is 0.
fn add_source(
    alloc: Global,
    sources: &mut Vec<FailingReader>,
    failing: u64,
) -> Result<(), AllocError>
    requires { All (λ source. (source.reads ≡ 0) × (source.failures ≡ 0)) sources.old.items }
    ensures { OnOk result (All (λ source. (source.reads ≡ 0) × (source.failures ≡ 0)) sources.new.items) }
{
    let mut bytes = Vec::new(alloc);
    append_packets(&mut bytes, SEVEN)?;
    sources.push(FailingReader::new(bytes, 188, failing))?;
    Ok(())
}

/// Two such sources.
fn sources(alloc: Global, failing: [u64; 2]) -> Result<Vec<FailingReader>, AllocError>
    ensures { IfOk result (λ sources. All (λ source. (source.reads ≡ 0) × (source.failures ≡ 0)) sources.items) }
{
    let mut sources = Vec::new(alloc);
    add_source(alloc, &mut sources, failing[0])?;
    add_source(alloc, &mut sources, failing[1])?;
    Ok(sources)
}

/// Packs these sources, of which nothing was read, and tells the answer's fault.
fn run<R: Threads + Wait + Sync, H: Herald>(
    rt: &R,
    alloc: Global,
    settings: &Settings,
    sources: Vec<FailingReader>,
    publisher: Publisher,
    herald: &H,
) -> Option<PackFault>
    requires { All (λ source. (source.reads ≡ 0) × (source.failures ≡ 0)) sources.items }
{
    let setup = Setup {
        rt,
        alloc,
        settings,
        workers: 1,
        gate: &FreeGate,
        batch: 1,
        pairs: false,
        shelf: Shelf::new(alloc, 1),
    };
    let endpoints = Endpoints {
        sources,
        outlet: FailingOutlet::new(alloc, 0),
        publisher,
        reads: READS,
    };
    let Ran {
        sources: _,
        publisher,
        outlet: _,
        answer,
    } = pack_heralded(&setup, endpoints, herald);
    publisher.end(rt);
    answer.err()
}

/// At which read each input fails, what is told, and the fault of the answer.
const FAILURES: [([u64; 2], [Option<PackFault>; 4], Option<PackFault>); 5] = [
    ([0, 0], [None; 4], None),
    (
        [0, 3],
        [Some(PackFault::Read(1)), None, None, None],
        Some(PackFault::Read(1)),
    ),
    (
        [1, 0],
        [Some(PackFault::Read(0)), None, None, None],
        Some(PackFault::Read(0)),
    ),
    (
        [2, 8],
        [
            Some(PackFault::Read(0)),
            Some(PackFault::Read(1)),
            None,
            None,
        ],
        Some(PackFault::Read(0)),
    ),
    (
        [8, 2],
        [
            Some(PackFault::Read(1)),
            Some(PackFault::Read(0)),
            None,
            None,
        ],
        Some(PackFault::Read(0)),
    ),
];

#[test]
fn each_fault_is_told_once(rt: HostRuntime) -> Result<(), Fail> {
    let settings = two(rt.alloc())?;
    for (failing, told, fault) in FAILURES {
        let sources = sources(rt.alloc(), failing)?;
        let (publisher, _) = board(&rt, rt.alloc(), nothing_of_two(rt.alloc())?, 1)?;
        let notes = Notes::new(rt);
        let answer = run(&rt, rt.alloc(), &settings, sources, publisher, &notes);
        assert_same(&rt, failing, (*notes.told.lock(&rt), answer), (told, fault));
    }
    Ok(())
}

#[test]
fn all_segments_are_told_at_last(rt: HostRuntime) -> Result<(), Fail> {
    let settings = two(rt.alloc())?;
    let sources = sources(rt.alloc(), [0, 0])?;
    let (publisher, _) = board(&rt, rt.alloc(), nothing_of_two(rt.alloc())?, 1)?;
    let notes = Notes::new(rt);
    let answer = run(&rt, rt.alloc(), &settings, sources, publisher, &notes);
    let completed = *notes.completed.lock(&rt);
    let fell = *notes.fell.lock(&rt);
    assert_same(
        &rt,
        "segments, and whether they fell",
        (answer, completed, fell),
        (None, 14, false),
    );
    Ok(())
}
