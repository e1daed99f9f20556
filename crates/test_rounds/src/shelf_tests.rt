ghost use Rattle.std.specs.Prelude.{◌≡◌, IfOk};

use crate::asserts::assert_same;
use crate::fixtures::settings;
use crate::run_jobs::SEVEN;
use fixture_standard_stream::append_packets;
use item_io::{FailingOutlet, FailingReader, PIECE, READS};
use rounds::{Endpoints, Nobody, Ran, Setup, opening_board, pack_heralded};
use std::alloc::{AllocError, Global};
use std::sync::Wait;
use std::test::Fail;
use work_desk::{FreeGate, Shelf};

#[test]
fn buffers_are_taken_by_their_room(rt: HostRuntime) -> Result<(), AllocError> {
    let alloc = rt.alloc();
    let shelf = Shelf::new(alloc, 3);
    for room in [100, 50, 70, 10] {
        let buffer = Vec::with_capacity(alloc, room)?;
        shelf.put(&rt, buffer);
    }
    // there was no place for the last one
    for (bytes, room) in [(60, 70), (200, 100), (0, 50), (60, 0)] {
        let buffer = shelf.take(&rt, bytes);
        assert_same(&rt, bytes, buffer.capacity(), room);
    }
    Ok(())
}

#[test]
fn so_many_buffers_are_kept(rt: HostRuntime) -> Result<(), AllocError> {
    let alloc = rt.alloc();
    for (most, left) in [(0, 0), (1, 1), (2, 2), (3, 3), (4, 3), (u128::MAX, 3)] {
        let shelf = Shelf::new(alloc, 3);
        for _ in 0..3 {
            let buffer = Vec::with_capacity(alloc, 100)?;
            shelf.put(&rt, buffer);
        }
        shelf.keep(&rt, most);
        assert_same(&rt, most, buffers_on(&rt, &shelf), left);
    }
    Ok(())
}

#[test]
fn what_a_long_round_took_is_let_go(rt: HostRuntime) -> Result<(), Fail> {
    let alloc = rt.alloc();
    let settings = settings(alloc)?;
    let setup = Setup {
        rt: &rt,
        alloc,
        settings: &settings,
        workers: 2,
        gate: &FreeGate,
        batch: 4,
        pairs: true,
        shelf: Shelf::new(alloc, 7),
    };
    let mut sources = Vec::new(alloc);
    sources.push(seven_at_once(alloc)?)?;
    let (publisher, _) = opening_board(&rt, alloc, 1, 1)?;
    let endpoints = Endpoints {
        sources,
        outlet: FailingOutlet::new(alloc, 0),
        publisher,
        reads: READS,
    };
    let Ran {
        sources: _,
        publisher,
        outlet: _,
        answer,
    } = pack_heralded(&setup, endpoints, &Nobody);
    publisher.end(&rt);
    // the first read closes six segments, which make a round, and the end closes the seventh
    let left = buffers_on(&rt, &setup.shelf);
    assert_same(&rt, "buffers", (answer.is_ok(), left), (true, 1));
    Ok(())
}

/// A source of seven segments that one read gives, and of which nothing was read.
fn seven_at_once(alloc: Global) -> Result<FailingReader, AllocError>
    ensures { IfOk result (λ source. (source.reads ≡ 0) × (source.failures ≡ 0)) }
{
    let mut bytes = Vec::new(alloc);
    append_packets(&mut bytes, SEVEN)?;
    Ok(FailingReader::new(bytes, PIECE, 0))
}

/// Takes the buffers of a shelf that has fewer than eight, and tells how many they were.
fn buffers_on<R: Wait>(rt: &R, shelf: &Shelf) -> usize {
    let mut count: usize = 0;
    for _ in 0..8 {
        if shelf.take(rt, 0).capacity() > 0 {
            count = count.saturating_add(1);
        }
    }
    count
}
