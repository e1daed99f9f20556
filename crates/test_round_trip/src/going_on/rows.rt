//! What an earlier run wrote, and what goes on from it.
ghost use Rattle.std.specs.Prelude.{◌≡◌, [], IfOk};

use ladder_items::{FrameRow, Kind, Row};
use media_playlist::{Window, WindowFault};
use media_reading::{ListFault, read_media};
use resume::{Restored, ResumeFault, Wanted, restore};
use std::alloc::{AllocError, Global};
use std::process::Abort;

pub const SALT: [u8; 16] = [7; 16];

pub const LIVE: Wanted = Wanted {
    target: 6,
    kind: Kind::Live,
    salt: None,
};

pub const SALTED: Wanted = Wanted {
    target: 6,
    kind: Kind::Live,
    salt: Some(SALT),
};

pub const EVENT: Wanted = Wanted {
    target: 6,
    kind: Kind::Event,
    salt: None,
};

/// The texts of a rendition's two playlists.
#[derive(Drop)]
pub struct Texts {
    pub media: String,
    pub frames: String,
}

/// The row of a segment of five seconds with two I-frames; each seventh is a discontinuity.
pub fn row(alloc: Global, number: u64) -> Result<Row, AllocError> {
    let mut frames = Vec::new(alloc);
    frames.push(FrameRow {
        offset: 376,
        len: number % 1000 + 188,
        micros: 2_000_000,
    })?;
    frames.push(FrameRow {
        offset: 5000,
        len: 940,
        micros: 3_000_001,
    })?;
    Ok(Row {
        number,
        size: size(number),
        micros: 5_000_001,
        key: number / 3 % 2,
        discontinuity: number % 7 == 6,
        frames,
    })
}

/// The size of a segment's file.
pub fn size(number: u64) -> u64 {
    number % 1000 + 10_000
}

/// A window that was pushed nothing.
pub fn window(alloc: Global, name: &str, wanted: Wanted, least: u64) -> Result<Window, AllocError>
    ensures { IfOk result (λ window. window.rows ≡ []) }
{
    match (wanted.kind, wanted.salt) {
        (Kind::Event, salt) => Window::event(alloc, name, wanted.target, salt),
        (Kind::Live, Some(salt)) => Window::salted(alloc, name, wanted.target, least, salt),
        (Kind::Live, None) => Window::new(alloc, name, wanted.target, least),
    }
}

/// Pushes rows of these numbers.
pub fn give(
    rt: &impl Abort,
    alloc: Global,
    window: &mut Window,
    from: u64,
    to: u64,
) -> Result<(), WindowFault> {
    for number in from..to {
        assert!(rt; window.row_count() < 1000);
        window.push(row(alloc, number)?)?;
    }
    Ok(())
}

/// The window of a run that goes on from what was restored.
pub fn resumed(
    rt: &impl Abort,
    alloc: Global,
    wanted: Wanted,
    least: u64,
    from: Restored,
) -> Result<Window, WindowFault> {
    let gone = from.gone;
    assert!(rt; gone.rows <= 1 << 52 && gone.frames <= 1 << 126 && gone.discontinuities <= 1 << 52);
    let mut window = window(alloc, "v", wanted, least)?.behind(gone);
    for row in from.earlier {
        assert!(rt; window.row_count() < 1000);
        window.push(row)?;
    }
    Ok(window)
}

/// The texts of a window.
pub fn texts_of(window: &Window, ended: bool) -> Result<Texts, AllocError> {
    Ok(Texts {
        media: window.media_text(ended)?,
        frames: window.iframe_text(ended)?,
    })
}

/// The sizes of the files of so many segments.
pub fn sizes(alloc: Global, from: u64, count: usize) -> Result<Vec<u64>, AllocError> {
    let mut sizes = Vec::new(alloc);
    for i in 0..count {
        sizes.push(size(from.saturating_add(i as u64)))?;
    }
    Ok(sizes)
}

/// What is restored of texts, where the first is that of a media playlist.
pub fn restored(
    alloc: Global,
    name: &str,
    wanted: Wanted,
    texts: &Texts,
) -> Result<Restored, ResumeFault> {
    let listing = match read_media(alloc, &texts.media) {
        Ok(listing) => listing,
        Err(ListFault::NoMemory) => return Err(ResumeFault::NoMemory),
        Err(ListFault::NotProfile(_)) => return Err(ResumeFault::Foreign),
    };
    let sizes = sizes(alloc, listing.sequence, listing.entries.len())?;
    restore(alloc, name, wanted, &listing, &texts.frames, &sizes)
}
