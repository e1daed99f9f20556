//! A stream of two segments of which a byte is another, or whose tables come in an unusual way.
use crate::asserts::assert_same;
use crate::run::{CUT, PLAY, Play, WELL, played, run_beside, settings, told_beside};
use crate::stream::{Change, TWO_SEGMENTS, stream_of};
use item_io::Item;
use pipeline::{PackFault, Settings};
use std::alloc::{AllocError, Global};
use std::sync::Wait;
use std::test::Fail;
use std::thread::Threads;

/// The stream with another byte at a place.
fn with_byte(alloc: Global, stream: &[u8], at: usize, byte: u8) -> Result<Vec<u8>, AllocError> {
    let mut changed = Vec::new(alloc);
    changed.extend_from_slice(stream)?;
    if let Some(place) = changed.get_mut(at) {
        *place = byte;
    }
    Ok(changed)
}

/// Packs the stream with each of the first 24 bytes of each packet as 00 and as 47. What two workers make of it is what one
/// thread does: `run_beside` looks at that.
fn pack_changed<R: Threads + Wait + Sync>(
    rt: &R,
    alloc: Global,
    stream: &[u8],
    settings: &Settings,
) -> Result<(), Fail> {
    for packet in 0..6 {
        for at in 0..24 {
            for byte in [0x00, 0x47] {
                let changed = with_byte(alloc, stream, packet * 188 + at, byte)?;
                let _ = run_beside(rt, alloc, &[&changed], WELL, settings, &[2])?;
            }
        }
    }
    Ok(())
}

#[test]
fn a_byte_of_a_packets_beginning_is_another(rt: HostRuntime) -> Result<(), Fail> {
    let stream = stream_of(rt.alloc(), TWO_SEGMENTS, Change::None)?;
    let settings = settings(rt.alloc(), &["v"], 1, 1, CUT, 5)?;
    pack_changed(&rt, rt.alloc(), &stream, &settings)
}

/// Unusual tables, the fault, and how many items are given: as they are of the usual ones, or none where the packet between the
/// halves of the PAT is lost.
const CHANGES: [(Change, Option<PackFault>, usize); 3] = [
    (Change::SplitPat(1), None, 10),
    (Change::LongSection, None, 10),
    (Change::SplitPat(2), Some(PackFault::NoProgram(0)), 0),
];

/// The first of the changes of which another thing is told.
fn first_other_change<R: Threads + Wait + Sync>(
    rt: &R,
    alloc: Global,
    whole: &[Item],
) -> Result<Option<usize>, Fail> {
    for (at, (change, fault, count)) in CHANGES.iter().enumerate() {
        let change = *change;
        let told = told_beside(rt, alloc, &Play { change, ..PLAY }, whole)?;
        if told != (*fault, *count, true) {
            return Ok(Some(at));
        }
    }
    Ok(None)
}

#[test]
fn tables_in_two_packets_and_behind_a_long_section(rt: HostRuntime) -> Result<(), Fail> {
    let whole = played(rt.alloc(), &PLAY)?;
    let other = first_other_change(&rt, rt.alloc(), whole.outlet.items())?;
    assert_same(
        &rt,
        "tables in two packets and behind a long section",
        other,
        None,
    );
    Ok(())
}
