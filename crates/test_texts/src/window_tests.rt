//! What a window lists as rows come, and rows that it refuses.

use crate::asserts::assert_same;
use crate::windows::{
    Kind, assert_begins, assert_both_begin, first_frame, give, give_frames, give_two, window_of,
};
use media_playlist::{Window, WindowFault};
use std::alloc::{AllocError, Global};
use std::process::Abort;

/// Pushes seven rows that last so long: both playlists then begin with this sequence.
fn seven_rows_begin(
    rt: &impl Abort,
    alloc: Global,
    window: &mut Window,
    micros: u64,
    sequence: u64,
) -> Result<(), WindowFault> {
    for number in 0..7 {
        give(rt, alloc, window, (number, micros, 0, false))?;
    }
    assert_both_begin(rt, alloc, window, sequence, sequence)?;
    Ok(())
}

#[test]
fn three_targets_keep_rows(rt: HostRuntime) -> Result<(), WindowFault> {
    for (least, micros, sequence) in [
        (3, 6_000_000, 4),
        (1, 6_000_000, 4),
        (1, 5_000_000, 3),
        (5, 6_000_000, 2),
    ] {
        let mut window = window_of(rt.alloc(), Kind::Live("v", least))?;
        seven_rows_begin(&rt, rt.alloc(), &mut window, micros, sequence)?;
    }
    Ok(())
}

/// Pushes rows of two I-frames, of which those of the first two rows then leave.
fn both_frames_leave(
    rt: &impl Abort,
    alloc: Global,
    window: &mut Window,
) -> Result<(), WindowFault> {
    for number in 0..5 {
        give_two(rt, alloc, window, number, 0, false)?;
    }
    assert_both_begin(rt, alloc, window, 2, 4)?;
    Ok(())
}

#[test]
fn removed_frames_count(rt: HostRuntime) -> Result<(), WindowFault> {
    let mut window = window_of(rt.alloc(), Kind::Live("v", 1))?;
    both_frames_leave(&rt, rt.alloc(), &mut window)
}

/// How many lines a text has.
fn line_count(text: &str) -> usize {
    let mut count: usize = 0;
    for _ in text.lines() {
        count = count.saturating_add(1);
    }
    count
}

/// Looks at how many lines both playlists have at the end.
fn assert_lines(
    rt: &impl Abort,
    window: &Window,
    wanted: (usize, usize),
) -> Result<(), AllocError> {
    let media = line_count(&window.media_text(true)?);
    let frames = line_count(&window.iframe_text(true)?);
    assert_same(rt, "lines", (media, frames), wanted);
    Ok(())
}

#[test]
fn an_event_keeps_rows(rt: HostRuntime) -> Result<(), WindowFault> {
    let mut window = window_of(rt.alloc(), Kind::Event)?;
    seven_rows_begin(&rt, rt.alloc(), &mut window, 5_000_000, 0)?;
    assert_lines(&rt, &window, (22, 36))?;
    Ok(())
}

/// How many lines of a text are this one.
fn count_of(text: &str, wanted: &str) -> usize {
    let mut count: usize = 0;
    for line in text.lines() {
        if line == wanted {
            count = count.saturating_add(1);
        }
    }
    count
}

/// A row's number, and behind it the media sequence, the discontinuity sequence, and how many discontinuities are told.
type Step = (u64, u64, u64, usize);

/// Pushes rows, of which row 1 is a discontinuity, and looks at the media playlist behind each: how it begins, how many
/// discontinuities it tells, and whether it has these lines where it tells one.
fn steps_have(
    rt: &impl Abort,
    alloc: Global,
    window: &mut Window,
    steps: &[Step],
    lines: &str,
) -> Result<(), WindowFault> {
    for (number, sequence, discontinuities, tags) in steps {
        give(rt, alloc, window, (*number, 6_000_000, 0, *number == 1))?;
        let text = window.media_text(false)?;
        assert_begins(rt, alloc, &text, *sequence, *discontinuities)?;
        let came = (
            count_of(&text, "#EXT-X-DISCONTINUITY"),
            text.contains(lines),
        );
        assert_same(rt, (*number, text.as_str()), came, (*tags, *tags > 0));
    }
    Ok(())
}

#[test]
fn a_discontinuity_leaves(rt: HostRuntime) -> Result<(), WindowFault> {
    let steps = [
        (0, 0, 0, 0),
        (1, 0, 0, 1),
        (2, 0, 0, 1),
        (3, 1, 0, 1),
        (4, 2, 1, 0),
        (5, 3, 1, 0),
        (6, 4, 1, 0),
    ];
    let mut window = window_of(rt.alloc(), Kind::Live("v", 3))?;
    steps_have(
        &rt,
        rt.alloc(),
        &mut window,
        &steps,
        "\n#EXT-X-DISCONTINUITY\n",
    )
}

/// The row of a discontinuity.
const TAGGED: &str = "
#EXT-X-DISCONTINUITY
#EXT-X-KEY:METHOD=AES-128,URI=\"v.0.key\",IV=0xF0F1F2F3F4F5F6F7F8F9FAFBFCFDFEFE
#EXTINF:6.000000,
v.1.ts
";

#[test]
fn an_event_keeps_its_discontinuities(rt: HostRuntime) -> Result<(), WindowFault> {
    let steps = [
        (0, 0, 0, 0),
        (1, 0, 0, 1),
        (2, 0, 0, 1),
        (3, 0, 0, 1),
        (4, 0, 0, 1),
        (5, 0, 0, 1),
        (6, 0, 0, 1),
    ];
    let mut window = window_of(rt.alloc(), Kind::SaltedEvent)?;
    steps_have(&rt, rt.alloc(), &mut window, &steps, TAGGED)
}

/// A row's number, its microseconds, those of its I-frame, and why it is refused, if it is.
type Told = (u64, u64, u64, Option<WindowFault>);

fn are_told(rt: &impl Abort, alloc: Global, window: &mut Window, rows: &[Told]) {
    for (number, micros, frame, told) in rows {
        let row = (*number, *micros, 0, false);
        let fault = give_frames(rt, alloc, window, row, &[first_frame(*frame)]).err();
        assert_same(rt, (*number, *micros), fault, *told);
    }
}

#[test]
fn refused_rows_out_of_order(rt: HostRuntime) -> Result<(), WindowFault> {
    let rows = [
        (1, 6_000_000, 6_000_000, Some(WindowFault::OutOfOrder)),
        (0, 6_499_999, 6_499_999, None),
        (0, 6_000_000, 6_000_000, Some(WindowFault::OutOfOrder)),
        (1, 1, 1, None),
    ];
    let mut window = window_of(rt.alloc(), Kind::Live("v", 5))?;
    are_told(&rt, rt.alloc(), &mut window, &rows);
    Ok(())
}

/// Pushes a row without I-frames, and looks at what a window that took none has.
fn bare_rows_are_long(
    rt: &impl Abort,
    alloc: Global,
    window: &mut Window,
) -> Result<(), AllocError> {
    let fault = give_frames(rt, alloc, window, (0, 2_000_000, 0, false), &[]).err();
    let came = (fault, window.row_count());
    assert_same(rt, "bare", came, (Some(WindowFault::LongRow), 0));
    assert_lines(rt, window, (0, 0))
}

#[test]
fn refused_long_rows(rt: HostRuntime) -> Result<(), WindowFault> {
    let long = Some(WindowFault::LongRow);
    let rows = [
        (0, 6_500_000, 6_500_000, long),
        (1, 6_500_000, 6_500_000, long),
        (0, 0, 0, long),
        (0, 2_000_001, 2_000_000, long),
    ];
    let mut window = window_of(rt.alloc(), Kind::Live("v", 5))?;
    are_told(&rt, rt.alloc(), &mut window, &rows);
    bare_rows_are_long(&rt, rt.alloc(), &mut window)?;
    Ok(())
}
