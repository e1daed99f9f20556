//! Which settings are allowed.
use crate::asserts::assert_same;
use crate::run::{CUT, WELL, rendition, run};
use cutter::CutSettings;
use pipeline::{FrameRow, Gone, Kind, PackFault, Rendition, Row, Settings};
use std::alloc::Global;
use std::test::Fail;

/// The bytes of 33 empty inputs.
const NO_BYTES: [&[u8]; 33] = [&[]; 33];

/// The names of 33 renditions.
pub const NAMES: [&str; 33] = [
    "a", "b", "c", "d", "e", "f", "g", "h", "i", "j", "k", "l", "m", "n", "o", "p", "q", "r", "s",
    "t", "u", "v", "w", "x", "y", "z", "0", "1", "2", "3", "4", "5", "6",
];

/// A salt of sixteen equal bytes.
const SALT: [u8; 16] = [0xA5; 16];

/// Whether these settings are allowed with so many inputs, which are empty: then the first is told to have no program.
fn is_allowed(alloc: Global, settings: &Settings, inputs: usize) -> Result<bool, Fail> {
    let ran = run(alloc, &NO_BYTES[..inputs.min(33)], WELL, settings)?;
    match ran.told().0 {
        Some(PackFault::Settings) => Ok(false),
        Some(PackFault::NoProgram(0)) => Ok(true),
        _ => Err(Fail::from("another answer")),
    }
}

/// Whether renditions of these names are allowed, with so many inputs.
fn names(alloc: Global, names: &[&str], inputs: usize) -> Result<bool, Fail> {
    let mut renditions = Vec::new(alloc);
    for name in names {
        renditions.push(rendition(alloc, name, 1, 1, None)?)?;
    }
    let settings = Settings {
        renditions,
        cut: CUT,
        kind: Kind::Live,
        window: 5,
        queue: 4,
    };
    is_allowed(alloc, &settings, inputs)
}

/// Whether one rendition is allowed, of this width, cut like this, with this window and this queue.
fn one(alloc: Global, width: u64, cut: CutSettings, window: u64, queue: u64) -> Result<bool, Fail> {
    let mut rendition = rendition(alloc, "v", 1, 1, None)?;
    rendition.width = width;
    alone(alloc, rendition, cut, window, queue)
}

/// Whether this rendition is allowed, cut like this, with this window and this queue.
fn alone(
    alloc: Global,
    rendition: Rendition,
    cut: CutSettings,
    window: u64,
    queue: u64,
) -> Result<bool, Fail> {
    let mut renditions = Vec::new(alloc);
    renditions.push(rendition)?;
    let settings = Settings {
        renditions,
        cut,
        kind: Kind::Live,
        window,
        queue,
    };
    is_allowed(alloc, &settings, 1)
}

/// Whether a rendition is allowed whose first segment has this number, behind so many segments and discontinuities.
fn behind(alloc: Global, kind: Kind, first: u64, gone: Gone) -> Result<bool, Fail> {
    let first_run = rendition(alloc, "v", 1, 1, None)?;
    let mut renditions = Vec::new(alloc);
    renditions.push(Rendition {
        keys: first_run.keys.behind(first),
        gone,
        ..first_run
    })?;
    let settings = Settings {
        renditions,
        cut: CUT,
        kind,
        window: 5,
        queue: 4,
    };
    is_allowed(alloc, &settings, 1)
}

/// The last number that a segment may have in one run.
const LAST: u64 = 0xFFFF_FFFE;

#[test]
fn a_run_begins_behind_what_came_before(rt: HostRuntime) -> Result<(), Fail> {
    let table = [
        (Kind::Live, 0, 0, 0, true),
        (Kind::Live, 5, 5, 2, true),
        (Kind::Live, 0, 0, 2, true),
        (Kind::Live, 5, 4, 0, false),
        (Kind::Live, 0, 5, 0, false),
        (Kind::Live, LAST, LAST, LAST, true),
        (Kind::Live, LAST + 1, LAST + 1, 0, false),
        (Kind::Live, 5, 5, LAST + 1, false),
        (Kind::Event, 0, 0, 0, true),
        (Kind::Event, 5, 5, 0, false),
        (Kind::Event, 0, 0, 1, false),
    ];
    for (kind, first, rows, discontinuities, allowed) in table {
        let gone = Gone {
            rows,
            frames: 9,
            discontinuities,
        };
        assert_same(
            &rt,
            (kind, first, gone),
            behind(rt.alloc(), kind, first, gone)?,
            allowed,
        );
    }
    Ok(())
}

/// A row of one I-frame that lasts as long.
fn one_row(alloc: Global, number: u64, key: u64, micros: u64) -> Result<Row, Fail> {
    let mut frames = Vec::new(alloc);
    frames.push(FrameRow {
        offset: 376,
        len: 188,
        micros,
    })?;
    Ok(Row {
        number,
        size: 940,
        micros,
        key,
        discontinuity: false,
        frames,
    })
}

/// Whether a rendition is allowed whose first segment is number 7, behind five that are gone and the rows of two others.
fn behind_rows(alloc: Global, numbers: [u64; 2], key: u64, micros: u64) -> Result<bool, Fail> {
    let first_run = rendition(alloc, "v", 1, 1, None)?;
    let mut earlier = Vec::new(alloc);
    for number in numbers {
        earlier.push(one_row(alloc, number, key, micros)?)?;
    }
    let gone = Gone {
        rows: 5,
        frames: 9,
        discontinuities: 1,
    };
    let behind = Rendition {
        keys: first_run.keys.behind(7),
        gone,
        earlier,
        ..first_run
    };
    alone(alloc, behind, CUT, 5, 4)
}

#[test]
fn earlier_rows_follow_on_one_another(rt: HostRuntime) -> Result<(), Fail> {
    let table = [
        ([5, 6], 0, 6_000_000, true),
        ([5, 6], 4_095, 6_499_999, true),
        ([5, 6], 4_096, 6_000_000, false),
        ([5, 6], 0, 6_500_000, false),
        ([5, 6], 0, 0, false),
        ([5, 7], 0, 6_000_000, false),
        ([6, 7], 0, 6_000_000, false),
        ([5, 5], 0, 6_000_000, false),
    ];
    for (numbers, key, micros, allowed) in table {
        assert_same(
            &rt,
            (numbers, key, micros),
            behind_rows(rt.alloc(), numbers, key, micros)?,
            allowed,
        );
    }
    Ok(())
}

/// How many renditions and how many inputs there are, and whether those are allowed.
const NUMBERS: [(usize, usize, bool); 9] = [
    (0, 0, false),
    (1, 1, true),
    (1, 0, false),
    (1, 2, false),
    (32, 32, true),
    (32, 31, false),
    (32, 33, false),
    (33, 33, false),
    (33, 32, false),
];

#[test]
fn numbers_of_renditions_and_inputs(rt: HostRuntime) -> Result<(), Fail> {
    for (renditions, inputs, allowed) in NUMBERS {
        let told = names(rt.alloc(), &NAMES[..renditions.min(33)], inputs)?;
        assert_same(&rt, (renditions, inputs), told, allowed);
    }
    Ok(())
}

/// Whether a rendition of one key is allowed that has this salt, while its keys have that one.
fn salts(alloc: Global, own: Option<[u8; 16]>, of_keys: Option<[u8; 16]>) -> Result<bool, Fail> {
    let mut rendition = rendition(alloc, "v", 1, 1, of_keys)?;
    rendition.salt = own;
    alone(alloc, rendition, CUT, 5, 4)
}

#[test]
fn keys_hold_the_salt(rt: HostRuntime) -> Result<(), Fail> {
    let table = [
        (None, None, true),
        (Some(SALT), Some(SALT), true),
        (Some(SALT), None, false),
        (None, Some(SALT), false),
        (Some(SALT), Some([0; 16]), false),
    ];
    for (own, of_keys, allowed) in table {
        assert_same(
            &rt,
            (own, of_keys),
            salts(rt.alloc(), own, of_keys)?,
            allowed,
        );
    }
    Ok(())
}

#[test]
fn names_that_can_be_listed(rt: HostRuntime) -> Result<(), Fail> {
    let table: [(&[&str], bool); 3] = [
        (&["master"], false),
        (&["a", "a"], false),
        (&["a", "A"], true),
    ];
    for (listed, allowed) in table {
        let told = names(rt.alloc(), listed, listed.len())?;
        assert_same(&rt, listed, told, allowed);
    }
    Ok(())
}

#[test]
fn widths(rt: HostRuntime) -> Result<(), Fail> {
    for (width, allowed) in [(0, false), (1, true), (16_384, true), (16_385, false)] {
        let told = one(rt.alloc(), width, CUT, 5, 4)?;
        assert_same(&rt, ("a width of", width), told, allowed);
    }
    Ok(())
}

#[test]
fn windows_and_queues(rt: HostRuntime) -> Result<(), Fail> {
    let table = [
        (0, 4, false),
        (1, 4, true),
        (10_000, 4, true),
        (10_001, 4, false),
        (5, 0, false),
        (5, 1, true),
        (5, 256, true),
        (5, 257, false),
    ];
    for (window, queue, allowed) in table {
        let told = one(rt.alloc(), 640, CUT, window, queue)?;
        assert_same(&rt, (window, queue), told, allowed);
    }
    Ok(())
}

/// Whether one rendition that is cut like this is allowed.
fn cut(alloc: Global, cut: CutSettings) -> Result<bool, Fail> {
    one(alloc, 640, cut, 5, 4)
}

#[test]
fn programs(rt: HostRuntime) -> Result<(), Fail> {
    let table = [
        (None, true),
        (Some(0), false),
        (Some(1), true),
        (Some(65_535), true),
    ];
    for (program, allowed) in table {
        let told = cut(rt.alloc(), CutSettings { program, ..CUT })?;
        assert_same(&rt, ("program", program), told, allowed);
    }
    Ok(())
}

#[test]
fn targets_and_segments(rt: HostRuntime) -> Result<(), Fail> {
    let table = [
        (0, 0, false),
        (0, 1, false),
        (1, 0, false),
        (1, 1, true),
        (1, 90_000, true),
        (1, 90_001, false),
        (3600, 324_000_000, true),
        (3600, 324_000_001, false),
        (3601, 1, false),
        (u64::MAX, 1, false),
        (6, u64::MAX, false),
    ];
    for (target, segment, allowed) in table {
        let told = cut(
            rt.alloc(),
            CutSettings {
                target,
                segment,
                ..CUT
            },
        )?;
        assert_same(&rt, (target, segment), told, allowed);
    }
    Ok(())
}

const GAP: u64 = 900_000;

const FRAME: u64 = 3600;

const MOST: u64 = 1_000_000;

#[test]
fn gaps_frames_and_sizes(rt: HostRuntime) -> Result<(), Fail> {
    let table = [
        (0, FRAME, MOST, false),
        (1, FRAME, MOST, true),
        (0xFFFF_FFFF, FRAME, MOST, true),
        (0x1_0000_0000, FRAME, MOST, false),
        (GAP, 0, MOST, false),
        (GAP, 1, MOST, true),
        (GAP, 900_000, MOST, true),
        (GAP, 900_001, MOST, false),
        (GAP, FRAME, 0, false),
        (GAP, FRAME, 1, true),
        (GAP, FRAME, 1_000_000, true),
        (GAP, FRAME, 1_000_001, false),
    ];
    for (gap, frame, most, allowed) in table {
        let told = cut(
            rt.alloc(),
            CutSettings {
                gap,
                frame,
                most,
                ..CUT
            },
        )?;
        assert_same(&rt, (gap, frame, most), told, allowed);
    }
    Ok(())
}
