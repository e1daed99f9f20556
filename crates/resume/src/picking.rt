//! The I-frames of an I-frame playlist. What is read here is trusted only once the whole text was written again.

ghost use Rattle.std.specs.Prelude.{◌≡◌, ◌==◌, ◌++◌, ◌+◌, ◌-◌, ◌<◌, ◌≤◌, ◌⊎◌, ◌^◌, List, ℕ, All, true, length, take, drop, slice_index_or};
ghost use Rattle.std.specs.Prelude.{IfOk, IfSome, IfNone, IsNone, IsSomeAnd, OnErr, OnOk};
ghost use Rattle.std.specs.List.{before_first};
ghost use Rattle.playlist_text.specs.Lines.{text_of};
ghost use Rattle.media_reading.specs.MediaTexts.{IsLine};
ghost use Rattle.resume.specs.Picking.{MayWantMemory, may_want, no_picks, pick_line, pick_lines, len_in, offset_in};
ghost use Rattle.media_playlist.specs.Rows.{SegmentRow};
ghost use Rattle.resume.specs.Picked.{picks_of};
ghost use Rattle.resume.specs.Reading.{ArePicked, IsOutside, frames_at, frames_between, start_at};

use ladder_items::FrameRow;
use media_reading::{read_duration, read_tagged, split_line};
use std::alloc::{AllocError, Global};

/// The number of the first I-frame, the I-frames of all segments, and where those of each segment begin among them.
#[derive(Drop)]
pub struct Picked {
    pub first: u64,
    frames: Vec<FrameRow>,
    starts: Vec<usize>,
    micros: u64,
    uri_next: bool,
}

impl Picked {
    fn new(alloc: Global) -> Picked
        ensures { picks_of result ≡ no_picks }
    {
        Picked {
            first: 0,
            frames: Vec::new(alloc),
            starts: Vec::new(alloc),
            micros: 0,
            uri_next: false,
        }
    }

    /// Takes a line: behind each one of a key stand the I-frames of a segment.
    #[tactic(auto, unfolding(crate::specs::Picking::pick_line))]
    fn take(&mut self, line: &[u8]) -> Result<(), AllocError>
        ensures taken { OnOk result (picks_of self.new ≡ pick_line (picks_of self.old) line.now) }
        ensures scarce { OnErr result (may_want (picks_of self.old) line.now ≡ true) }
    {
        if self.uri_next {
            self.uri_next = false;
        } else if line.starts_with(b"#EXTINF:") {
            self.micros = read_duration(line).unwrap_or(0);
        } else if line.starts_with(b"#EXT-X-BYTERANGE:") {
            let (len, offset) = read_range(line);
            self.frames.push(FrameRow {
                offset,
                len,
                micros: self.micros,
            })?;
            self.uri_next = true;
        } else if line.starts_with(b"#EXT-X-KEY:") {
            self.starts.push(self.frames.len())?;
        } else if line.starts_with(b"#EXT-X-MEDIA-SEQUENCE:") {
            self.first = read_tagged(line, b"#EXT-X-MEDIA-SEQUENCE:", u64::MAX).unwrap_or(0);
        }
        Ok(())
    }

    /// The I-frames of the segment at a place.
    pub fn at(&self, place: usize) -> Option<&[FrameRow]>
        requires { place < 2 ^ 32 }
        ensures ok { (first : ℕ) (rows : List SegmentRow) (d : SegmentRow) → ArePicked (picks_of self.now) first rows → place < length rows →
            IsSomeAnd result (λ frames. frames.now ≡ (slice_index_or rows place d).frames) }
        ensures picked { IfSome result (λ frames. frames.now ≡ frames_at (picks_of self.now) place) }
        ensures none { IfNone result (IsOutside (picks_of self.now).frames (start_at (picks_of self.now) place) (start_at (picks_of self.now) (place + 1))) }
    {
        let count = self.frames.len();
        let start = number_at(&self.starts, place, count);
        let end = number_at(&self.starts, place + 1, count);
        part(&self.frames, start, end)
    }
}

/// The number at a place, or another one behind the last.
fn number_at(numbers: &[usize], place: usize, other: usize) -> usize
    ensures { result ≡ slice_index_or numbers.now place other }
{
    numbers.get(place).copied().unwrap_or(other)
}

/// The I-frames from one place up to another.
fn part(frames: &[FrameRow], start: usize, end: usize) -> Option<&[FrameRow]>
    ensures some { start ≤ end → end ≤ length frames.now → IsSomeAnd result (λ part. part.now ≡ take (end - start) (drop start frames.now)) }
    ensures none { (end < start) ⊎ (length frames.now < end) → IsNone result }
    ensures picked { IfSome result (λ part. part.now ≡ frames_between frames.now start end) }
    ensures outside { IfNone result (IsOutside frames.now start end) }
{
    if end < start || frames.len() < end {
        return None;
    }
    Some(&frames[start..end])
}

/// Picks the I-frames out of a text.
pub fn pick(alloc: Global, text: &str) -> Result<Picked, AllocError>
    ensures picked { IfOk result (λ picked. (lines : List (List ℕ)) → All IsLine lines → text.now ≡ text_of lines →
        picks_of picked ≡ pick_lines no_picks lines) }

    // Behind the last LF no line stands.
    ensures begun { IfOk result (λ picked. (lines : List (List ℕ)) (rest : List ℕ) → All IsLine lines → IsLine rest → text.now ≡ text_of lines ++ rest →
        picks_of picked ≡ pick_lines no_picks lines) }
    ensures scarce { OnErr result (MayWantMemory text.now) }
{
    let mut picked = Picked::new(alloc);
    let mut rest = text.as_bytes();
    'line: while let Some((line, behind)) = split_line(rest) {
        picked.take(line)?;
        rest = behind;
    }
    Ok(picked)
}

/// How long an I-frame is and where it begins, in a line that tells it.
fn read_range(line: &[u8]) -> (u64, u64)
    ensures len { result.0 ≡ len_in line.now }
    ensures offset { result.1 ≡ offset_in line.now }
{
    let (front, back) = at_sign(line);
    let len = read_tagged(front, b"#EXT-X-BYTERANGE:", u64::MAX).unwrap_or(0);
    let offset = read_tagged(back, b"@", u64::MAX).unwrap_or(0);
    (len, offset)
}

/// What stands before the first @ in a line, and the rest.
fn at_sign(line: &[u8]) -> (&[u8], &[u8])
    ensures front { result.0.now ≡ before_first (λ b. b == 64) line.now }
    ensures back { result.1.now ≡ drop (length (before_first (λ b. b == 64) line.now)) line.now }
{
    let place = line.iter().position(|b| *b == b'@').unwrap_or(line.len());
    line.split_at(place)
}
