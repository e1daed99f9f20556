use crate::asserts::assert_same;
use crate::fixtures::{FullWriter, settings, stream_bytes};
use crate::offered::Offered;
use commands::{LadderPackingFault, Pool};
use item_io::{FailingOutlet, FailingReader};
use packing::{AheadGate, LadderSetup, PackedLadder, pack};
use pipeline::{Nobody, PackFault, Report, opening_board};
use std::alloc::Global;
use std::io::Write;
use std::sync::Wait;
use std::test::Fail;
use std::thread::Threads;

/// How a run ended, and how many items it put.
#[derive(Drop)]
struct Told {
    answer: Result<Report, LadderPackingFault>,
    items: usize,
    /// How many segments were written ahead, and their bytes.
    offered: (u64, u64),
}

/// Packs a stream by two workers.
fn packed<W: Write, R: Threads + Wait + Sync>(
    rt: &R,
    alloc: Global,
    stream: Vec<u8>,
    output: &mut W,
) -> Result<Told, Fail> {
    let mut sources = Vec::new(alloc);
    sources.push(FailingReader::new(stream, 188, 0))?;
    let settings = settings(alloc, "640x360")?;
    let offered = Offered::nothing(alloc);
    let gate = AheadGate::new(&offered);
    let setup = LadderSetup {
        rt,
        alloc,
        settings: &settings,
        pool: Pool {
            workers: 2,
            queue: 16,
            batch: None,
            stall: None,
            ahead: None,
        },
        pairs: true,
        gate: &gate,
        herald: &Nobody,
    };
    let (publisher, _viewers) = opening_board(rt, alloc, 1, 1)?;
    let PackedLadder {
        sources: _,
        publisher,
        outlet,
        answer,
    } = pack(
        &setup,
        sources,
        publisher,
        FailingOutlet::new(alloc, 0),
        output,
    );
    publisher.end(rt);
    Ok(Told {
        answer,
        items: outlet.items().len(),
        offered: offered.counts(),
    })
}

#[test]
fn a_line_of_the_standard_stream(rt: HostRuntime) -> Result<(), Fail> {
    let alloc = rt.alloc();
    let mut output = Vec::new(alloc);
    let told = packed(&rt, alloc, stream_bytes(alloc)?, &mut output)?;
    let line = b"v 2 9.040000 2022 1360\n";
    assert_same(
        &rt,
        "the standard stream",
        (
            told.answer.err(),
            told.items,
            told.offered,
            output.as_slice(),
        ),
        (None, 10, (2, 1536), line.as_slice()),
    );
    Ok(())
}

#[test]
fn no_line_after_a_fault(rt: HostRuntime) -> Result<(), Fail> {
    let alloc = rt.alloc();
    let mut output = Vec::new(alloc);
    let told = packed(&rt, alloc, Vec::new(alloc), &mut output)?;
    let fault = LadderPackingFault::Packing(PackFault::NoProgram(0));
    assert_same(
        &rt,
        "an empty stream",
        (told.answer.err(), output.len()),
        (Some(fault), 0),
    );
    Ok(())
}

#[test]
fn a_line_that_cannot_be_written(rt: HostRuntime) -> Result<(), Fail> {
    let alloc = rt.alloc();
    let mut output = FullWriter {
        taken: Vec::new(alloc),
        room: 5,
    };
    let told = packed(&rt, alloc, stream_bytes(alloc)?, &mut output)?;
    assert_same(
        &rt,
        "a line that cannot be written",
        (told.answer.err(), told.items),
        (Some(LadderPackingFault::Unwritten), 10),
    );
    Ok(())
}
