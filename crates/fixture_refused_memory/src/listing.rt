//! A window that is asked.

use media_playlist::{FrameRow, Row, Window, WindowFault};
use std::alloc::Global;

/// A row of one I-frame that lasts six seconds.
fn row(alloc: Global, number: u64) -> Option<Row> {
    let mut frames = Vec::new(alloc);
    frames
        .push(FrameRow {
            offset: 376,
            len: 188,
            micros: 6_000_000,
        })
        .ok()?;
    Some(Row {
        number,
        size: 768,
        micros: 6_000_000,
        key: 0,
        discontinuity: false,
        frames,
    })
}

/// How many lines its two playlists have.
fn lines(window: &Window) -> Option<(usize, usize)> {
    let media = window
        .media_text(false)
        .or_else(|_| window.media_text(false))
        .ok()?;
    let frames = window
        .iframe_text(false)
        .or_else(|_| window.iframe_text(false))
        .ok()?;
    Some((media.lines().count(), frames.lines().count()))
}

/// Pushes the next row, and again where there was no memory. Tells how it went.
fn push(alloc: Global, window: &mut Window) -> Option<&'static str> {
    let number = window.row_count();
    if number >= 100 {
        return None;
    }
    let before = lines(window)?;
    let first = row(alloc, number).or_else(|| row(alloc, number))?;
    match window.push(first) {
        Ok(()) => return Some("at once"),
        Err(WindowFault::NoMemory) => {}
        Err(_) => return Some("wrong"),
    }
    let same = window.row_count() == number && lines(window)? == before;
    let second = window.push(row(alloc, number)?);
    if same && second.is_ok() {
        Some("again")
    } else {
        Some("wrong")
    }
}

/// Lists two rows. None where there is no memory to begin.
pub(crate) fn listing<R: Print>(rt: &R, alloc: Global) -> Option<()> {
    let mut window = Window::new(alloc, "v", 6, 5).ok()?;
    let one = push(alloc, &mut window)?;
    let two = push(alloc, &mut window)?;
    let (media, frames) = lines(&window)?;
    let _ = println!(rt; "window: {one}, {two}, then {media} and {frames} lines");
    Some(())
}
