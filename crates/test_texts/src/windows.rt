use crate::asserts::assert_same;
use crate::fixtures::SALT;
use media_playlist::{FrameRow, Row, Window, WindowFault};
use std::alloc::{AllocError, Global};
use std::process::Abort;

/// Windows with a target duration of six seconds.
#[derive(Clone, Copy)]
pub(crate) enum Kind {
    /// Of a name, with the least number of rows to list.
    Live(&'static str, u64),
    Salted,
    Event,
    SaltedEvent,
}

pub(crate) fn window_of(alloc: Global, kind: Kind) -> Result<Window, AllocError> {
    match kind {
        Kind::Live(name, least) => Window::new(alloc, name, 6, least),
        Kind::Salted => Window::salted(alloc, "v", 6, 5, SALT),
        Kind::Event => Window::event(alloc, "v", 6, None),
        Kind::SaltedEvent => Window::event(alloc, "v", 6, Some(SALT)),
    }
}

/// A row's number, its microseconds, the index of its key, and whether it is a discontinuity.
pub(crate) type Given = (u64, u64, u64, bool);

/// Pushes a row of these I-frames. A test pushes few.
pub(crate) fn give_frames(
    rt: &impl Abort,
    alloc: Global,
    window: &mut Window,
    (number, micros, key, discontinuity): Given,
    frames: &[FrameRow],
) -> Result<(), WindowFault> {
    assert!(rt; window.row_count() < 100);
    window.push(Row {
        number,
        size: 960,
        micros,
        key,
        discontinuity,
        frames: frames.to_vec(alloc)?,
    })
}

/// The I-frame of a row, the first packet behind a head of 376 bytes.
pub(crate) fn first_frame(micros: u64) -> FrameRow {
    FrameRow {
        offset: 376,
        len: 188,
        micros,
    }
}

/// Pushes a row of one I-frame.
pub(crate) fn give(
    rt: &impl Abort,
    alloc: Global,
    window: &mut Window,
    row: Given,
) -> Result<(), WindowFault> {
    give_frames(rt, alloc, window, row, &[first_frame(row.1)])
}

/// Pushes a row of six seconds with two I-frames.
pub(crate) fn give_two(
    rt: &impl Abort,
    alloc: Global,
    window: &mut Window,
    number: u64,
    key: u64,
    discontinuity: bool,
) -> Result<(), WindowFault> {
    let second = FrameRow {
        offset: 564,
        len: 376,
        micros: 4_000_000,
    };
    let frames = [first_frame(2_000_000), second];
    give_frames(
        rt,
        alloc,
        window,
        (number, 6_000_000, key, discontinuity),
        &frames,
    )
}

/// Fails unless a playlist has this media sequence and this discontinuity sequence, behind a target duration of six seconds.
pub(crate) fn assert_begins(
    rt: &impl Abort,
    alloc: Global,
    text: &str,
    sequence: u64,
    discontinuities: u64,
) -> Result<(), AllocError> {
    let wanted = format!(in alloc;
        "#EXT-X-TARGETDURATION:6\n#EXT-X-MEDIA-SEQUENCE:{sequence}\n#EXT-X-DISCONTINUITY-SEQUENCE:{discontinuities}\n"
    )?;
    let begins = text.contains(wanted.as_str());
    assert_same(rt, (wanted.as_str(), text), begins, true);
    Ok(())
}

/// The same of both playlists, where neither has ended.
pub(crate) fn assert_both_begin(
    rt: &impl Abort,
    alloc: Global,
    window: &Window,
    media_sequence: u64,
    frame_sequence: u64,
) -> Result<(), AllocError> {
    assert_begins(rt, alloc, &window.media_text(false)?, media_sequence, 0)?;
    assert_begins(rt, alloc, &window.iframe_text(false)?, frame_sequence, 0)
}
