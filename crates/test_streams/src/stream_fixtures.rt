//! Streams of video, and their settings.
ghost use Rattle.std.specs.Prelude.{◌≡◌, true};
ghost use Rattle.cutter.specs.Settings.{IsAllowed};

use crate::table_fixtures::{BAD_PAT, PAT, PMT, PMT_WITH_SOUND, described, filled, first};
use cutter::CutSettings;
use std::alloc::{AllocError, Global};

/// Segments of six seconds.
pub(crate) const SETTINGS: CutSettings = CutSettings {
    program: None,
    segment: 540_000,
    target: 6,
    gap: 900_000,
    frame: 3600,
    most: 1_000_000,
};

/// One packet of a stream. Times are PTS.
#[derive(Clone, Copy)]
pub(crate) enum Step {
    Pat,
    BadPat,
    Pmt,
    PmtWithSound,
    /// The first packet of a PMT section of 184 bytes.
    LongPmt,
    /// Its second one.
    LongPmtEnd,
    /// The one packet of a key frame.
    Key(u64),
    /// A key frame that is scrambled.
    Scrambled(u64),
    /// The one packet of another frame.
    Frame(u64),
    /// A packet of video in which no frame starts.
    Video,
    Sound,
}

/// The PMT section of 184 bytes, and bytes behind it.
fn long_section() -> [u8; 1024] {
    described(184, b"\x02\xc3\x29\xae")
}

/// Whether a section is the one of these packets.
pub(crate) fn is_section(section: &[u8], step: Step) -> bool {
    match step {
        Step::Pmt => section == PMT,
        Step::PmtWithSound => section == PMT_WITH_SOUND,
        Step::LongPmt => section == first(&long_section(), 184),
        _ => false,
    }
}

/// The first 14 bytes of a PES packet with this PTS.
fn pes(pts: u64) -> [u8; 14] {
    [
        0x00,
        0x00,
        0x01,
        0xE0,
        0x00,
        0x00,
        0x80,
        0x80,
        0x05,
        0x21 | (pts >> 29 & 0x0E) as u8,
        (pts >> 22 & 0xFF) as u8,
        (pts >> 14 & 0xFE) as u8 | 1,
        (pts >> 7 & 0xFF) as u8,
        (pts & 0x7F) as u8 * 2 + 1,
    ]
}

/// A packet, behind so many of its PID.
pub(crate) fn packet(step: Step, video: u8, pmt: u8) -> [u8; 188] {
    match step {
        Step::Pat => filled(b"\x47\x40\x00\x10\x00", PAT),
        Step::BadPat => filled(b"\x47\x40\x00\x10\x00", BAD_PAT),
        Step::Pmt => filled(&[0x47, 0x50, 0x00, 0x10 | pmt, 0x00], PMT),
        Step::PmtWithSound => filled(&[0x47, 0x50, 0x00, 0x10 | pmt, 0x00], PMT_WITH_SOUND),
        Step::LongPmt => filled(b"\x47\x50\x00\x10\x00", &long_section()),
        Step::LongPmtEnd => filled(b"\x47\x10\x00\x11\xae", b""),
        Step::Key(pts) => filled(&[0x47, 0x41, 0x00, 0x30 | video, 0x01, 0x40], &pes(pts)),
        Step::Scrambled(pts) => filled(&[0x47, 0x41, 0x00, 0xB0 | video, 0x01, 0x40], &pes(pts)),
        Step::Frame(pts) => filled(&[0x47, 0x41, 0x00, 0x10 | video], &pes(pts)),
        Step::Video => filled(&[0x47, 0x01, 0x00, 0x10 | video], b""),
        Step::Sound => filled(b"\x47\x01\x01\x10", b""),
    }
}

fn is_video(step: Step) -> bool {
    matches!(
        step,
        Step::Key(_) | Step::Scrambled(_) | Step::Frame(_) | Step::Video
    )
}

/// The packets of a stream.
pub(crate) fn stream(alloc: Global, steps: &[Step]) -> Result<Vec<[u8; 188]>, AllocError> {
    let mut packets = Vec::new(alloc);
    let mut video = 0u8;
    let mut pmt = 0u8;
    for step in steps {
        packets.push(packet(*step, video, pmt))?;
        if is_video(*step) {
            video = video.wrapping_add(1) & 15;
        } else if matches!(step, Step::Pmt | Step::PmtWithSound) {
            pmt = pmt.wrapping_add(1) & 15;
        }
    }
    Ok(packets)
}

/// Whether settings pass none of their upper limits.
pub(crate) fn is_allowed(settings: CutSettings) -> bool
    ensures { result ≡ true → IsAllowed settings }
{
    if settings.target > 3600 || settings.frame > 900_000 {
        return false;
    }
    if settings.most > 1_000_000 {
        return false;
    }
    settings.segment <= settings.target * 90_000
}
