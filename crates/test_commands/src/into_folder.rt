//! Tests of `pack` into a folder: what stands there at the end, and after a move that failed.

use crate::asserts::assert_same;
use crate::fixtures::{settings, stream_bytes};
use crate::offered::Offered;
use commands::Pool;
use folder::MemoryFolder;
use item_io::FailingReader;
use packing::{AheadGate, Destination, LadderSetup, PackedLadder, pack_into_folder};
use pipeline::{Nobody, opening_board};
use std::alloc::Global;
use std::sync::Wait;
use std::test::Fail;
use std::thread::Threads;

/// The files of the standard stream.
const FILES: [&str; 5] = [
    "v.0.ts",
    "v.1.ts",
    "v.m3u8",
    "v.iframes.m3u8",
    "master.m3u8",
];

/// The names of those files that stand in a folder after the standard stream was packed into it, and whether the run ended
/// well. Move `n` of the folder fails, counted from 1: none for 0.
fn packed<R: Threads + Wait + Sync>(
    rt: &R,
    alloc: Global,
    n: u64,
    syncs: bool,
) -> Result<(String, bool), Fail> {
    let mut sources = Vec::new(alloc);
    sources.push(FailingReader::new(stream_bytes(alloc)?, 188, 0))?;
    let settings = settings(alloc, "640x360")?;
    let offered = Offered::nothing(alloc);
    let gate = AheadGate::new(&offered);
    let setup = LadderSetup {
        rt,
        alloc,
        settings: &settings,
        pool: Pool {
            workers: 2,
            queue: 16,
            batch: None,
            stall: None,
            ahead: None,
        },
        pairs: false,
        gate: &gate,
        herald: &Nobody,
    };
    let (publisher, _viewers) = opening_board(rt, alloc, 1, 1)?;
    let into = Destination {
        folder: MemoryFolder::new(alloc, n),
        syncs,
    };
    let mut output = Vec::new(alloc);
    let PackedLadder {
        sources: _,
        publisher,
        outlet,
        answer,
    } = pack_into_folder(&setup, sources, publisher, into, &mut output);
    publisher.end(rt);
    let is_well = answer.is_ok();
    Ok((standing(alloc, &outlet.into_folder())?, is_well))
}

/// The names of the files that stand in a folder, each behind a blank.
fn standing(alloc: Global, folder: &MemoryFolder) -> Result<String, Fail> {
    let mut names = String::new(alloc);
    for name in FILES {
        if folder.find(name).is_some() {
            names.push_str(" ")?;
            names.push_str(name)?;
        }
    }
    Ok(names)
}

#[test]
fn what_stands_in_the_folder(rt: HostRuntime) -> Result<(), Fail> {
    // a block of a segment is three writes and three renames, a master one of each
    let table = [
        (0, " v.0.ts v.1.ts v.m3u8 v.iframes.m3u8 master.m3u8", true),
        (1, "", false),
        (4, "", false),
        (5, " v.0.ts", false),
        (6, " v.0.ts v.m3u8", false),
        (7, " v.0.ts v.m3u8 v.iframes.m3u8", false),
        (9, " v.0.ts v.m3u8 v.iframes.m3u8 master.m3u8", false),
    ];
    for (n, names, is_well) in table {
        let (found, ended_well) = packed(&rt, rt.alloc(), n, false)?;
        assert_same(
            &rt,
            ("move that fails", n),
            (found.as_str(), ended_well),
            (names, is_well),
        );
    }
    Ok(())
}

#[test]
fn what_stands_in_a_synced_folder(rt: HostRuntime) -> Result<(), Fail> {
    // a block of a segment is three writes, a sync, and three renames, each with a sync behind it; a master a write, a sync, a
    // rename and a sync
    let table = [
        (0, " v.0.ts v.1.ts v.m3u8 v.iframes.m3u8 master.m3u8", true),
        (4, "", false),
        (5, "", false),
        (6, " v.0.ts", false),
        (7, " v.0.ts", false),
        (8, " v.0.ts v.m3u8", false),
        (9, " v.0.ts v.m3u8", false),
        (10, " v.0.ts v.m3u8 v.iframes.m3u8", false),
        (13, " v.0.ts v.m3u8 v.iframes.m3u8", false),
        (14, " v.0.ts v.m3u8 v.iframes.m3u8 master.m3u8", false),
    ];
    for (n, names, is_well) in table {
        let (found, ended_well) = packed(&rt, rt.alloc(), n, true)?;
        assert_same(
            &rt,
            ("move that fails", n),
            (found.as_str(), ended_well),
            (names, is_well),
        );
    }
    Ok(())
}
