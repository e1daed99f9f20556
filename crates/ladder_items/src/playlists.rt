ghost use Rattle.std.specs.Prelude.{◌≡◌, ◌+◌, ◌*◌, ◌<◌, ◌≤◌, ◌^◌, [], ◌∷◌, ◌++◌, true, false, length, map, All, IfOk, IfErr, IfSome, IsOk, OnOk, OnErr};
ghost use Rattle.std.specs.Arc.{arc_value};
ghost use Rattle.std.specs.String.{string_bytes};
ghost use Rattle.playlist_text.specs.Lines.{text_of};
ghost use Rattle.bandwidth.specs.Peaks.{peak_of, average_of};
ghost use Rattle.media_playlist.specs.Listed.{duration, nothing_gone};
ghost use Rattle.media_playlist.specs.Gone.{IsSmall};
ghost use Rattle.media_playlist.specs.Lines.{iframe_lines, media_lines};
ghost use Rattle.ladder_items.specs.declared.fault.PackFault.TheVariants.{NoMemory};
ghost use Rattle.ladder_items.specs.Ladder.{is_event, least_listed};
ghost use Rattle.ladder_items.specs.Shown.{IsNextRow, IsSmallFrame, AreNextRows, frame_rate, segment_rates, frame_rates, bytes_of, known};
ghost use Rattle.ladder_items.specs.Shown;
ghost use Rattle.ladder_items.specs.Masters.{peak_shown, average_shown};
ghost use Rattle.ladder_items.specs.declared.settings.TheConstants.{MOST_EARLIER};
ghost use Rattle.limits.specs.declared.TheConstants.{MOST_TARGET};

use crate::earlier::push_rows;
use crate::fault::PackFault;
use crate::master::rate;
use crate::settings::Kind;
use bandwidth::{Meter, Peak};
use media_playlist::{FrameRow, Gone, Row, Window};
use std::alloc::{AllocError, Global};
use std::marker::Model;
use std::sync::Arc;

/// The playlists of a rendition, and the bit rates of its segments and of its I-frames.
///
/// Clauses see them as the rendition's name, the target duration, the least number of rows to list, whether all rows of an
/// event are listed, the salt of the vectors, what is gone of earlier runs, the rows of theirs that are still listed, and the
/// rows of all segments of the run. For want of memory they end, and take no more rows.
#[derive(Drop)]
pub struct Playlists {
    window: Window,
    segments: Meter,
    frames: Meter,
    /// How many rows of the window are of earlier runs.
    earlier: u64,
    /// How long the run's own segments last together.
    micros: u128,
    /// How many bytes they have together.
    bytes: u128,
    /// The text of the media playlist while it goes on, where it was kept.
    media: Option<Arc<String>>,
    /// That of the I-frame playlist.
    iframes: Option<Arc<String>>,
    ended: bool,
}

impl Model for Playlists {
    ghost use Rattle.ladder_items.specs.Shown.{Shown};

    ghost Value = { Shown };

    ghost use Rattle.ladder_items.specs.State.{shown, IsTied};

    ghost view = { shown };

    ghost invariant = { IsTied };
}

impl Playlists {
    /// The playlists of no rows. The target duration is in seconds.
    pub fn new(
        alloc: Global,
        name: &str,
        target: u64,
        window: u64,
        kind: Kind,
        salt: Option<[u8; 16]>,
    ) -> Result<Playlists, AllocError>
        requires least { 1 ≤ target }
        requires most { target ≤ MOST_TARGET }
        ensures { IfOk result (λ new. new ≡ record {
          name = name.now;
          target = target;
          window = least_listed kind window;
          event = is_event kind;
          salt = salt;
          gone = nothing_gone;
          earlier = [];
          rows = [];
          ended = false;
        }) }
    {
        Ok(Playlists {
            window: empty_window(alloc, name, target, window, kind, salt)?,
            segments: Meter::new(alloc, target),
            frames: Meter::new(alloc, target),
            earlier: 0,
            micros: 0,
            bytes: 0,
            media: None,
            iframes: None,
            ended: false,
        })
    }

    /// The playlists of a rendition that goes on behind what came before: so much is gone, and the earlier rows behind it are
    /// listed and measured as the run's own. No row was pushed yet.
    pub fn behind(self, alloc: Global, gone: Gone, earlier: &[Row]) -> Result<Playlists, AllocError>
        requires going { self.ended ≡ false }
        requires empty { known self ≡ [] }
        requires small { IsSmall gone }
        requires few { length earlier.now < 2 ^ 32 }
        requires follow { AreNextRows self.target gone.rows earlier.now }
        ensures ok { IfOk result (λ new. new ≡ record self { gone = gone; earlier = earlier.now }) }
        ensures none { earlier.now ≡ [] → IsOk result }
    {
        let mut playlists = self;
        playlists.media = None;
        playlists.iframes = None;
        playlists.window = playlists.window.behind(gone);
        push_rows(alloc, &mut playlists, earlier)?;
        playlists.earlier = playlists.window.row_count();
        playlists.micros = 0;
        playlists.bytes = 0;
        Ok(playlists)
    }

    /// Takes the row of the next segment. For want of memory the playlists end, with the rows from before.
    pub fn push(&mut self, row: Row) -> Result<(), PackFault>
        requires going { self.old.ended ≡ false }
        requires few { length (known self.old) < 2 ^ 32 + MOST_EARLIER }
        requires next { IsNextRow self.old.target (self.old.gone.rows + length (known self.old)) row }
        ensures pushed { OnOk result (self.new ≡ record self.old { rows = self.old.rows ++ row ∷ [] }) }
        ensures err { OnErr result (self.new ≡ record self.old { ended = true }) }
        ensures fault { IfErr result (λ fault. fault ≡ NoMemory) }
    {
        self.push_row(row)?;
        self.keep_texts();
        Ok(())
    }

    /// Takes the row of the next segment as `push` does, and keeps no texts.
    pub(crate) fn push_row(&mut self, row: Row) -> Result<(), PackFault>
        requires going { self.old.ended ≡ false }
        requires few { length (known self.old) < 2 ^ 32 + MOST_EARLIER }
        requires next { IsNextRow self.old.target (self.old.gone.rows + length (known self.old)) row }
        ensures pushed { OnOk result (self.new ≡ record self.old { rows = self.old.rows ++ row ∷ [] }) }
        ensures err { OnErr result (self.new ≡ record self.old { ended = true }) }
        ensures fault { IfErr result (λ fault. fault ≡ NoMemory) }
    {
        self.ended = true;
        self.media = None;
        self.iframes = None;
        self.segments.push(row.size, row.micros)?;
        push_frames(&mut self.frames, &row.frames)?;
        self.micros += u128::from(row.micros);
        self.bytes += u128::from(row.size);
        if self.window.push(row).is_err() {
            return Err(PackFault::NoMemory);
        }
        self.ended = false;
        Ok(())
    }

    /// Writes both texts once, to be shared by all who want them until the next row comes. Where there is no memory they aren't
    /// kept, and are written when they are wanted.
    fn keep_texts(&mut self)
        requires { 0 < length (known self.old) }
        ensures { self.new ≡ self.old }
    {
        self.media = kept_media(&self.window);
        self.iframes = kept_iframes(&self.window);
    }

    /// How many segments the run gave.
    pub fn count(&self) -> u64
        ensures { result ≡ length self.now.rows }
    {
        self.window.row_count() - self.earlier
    }

    /// How many segments are known, those of earlier runs too.
    pub fn known_count(&self) -> u64
        ensures { result ≡ length (known self.now) }
    {
        self.window.row_count()
    }

    /// How long the segments of the run last together, in microseconds.
    pub fn micros(&self) -> u128
        requires { self.now.ended ≡ false }
        ensures { result ≡ duration self.now.rows }
    {
        self.micros
    }

    /// How many bytes the segments of the run have together.
    pub fn bytes(&self) -> u128
        requires { self.now.ended ≡ false }
        ensures { result ≡ bytes_of self.now.rows }
    {
        self.bytes
    }

    /// The text of the media playlist, ended or not. With no segment it is empty and wants no memory.
    pub fn media_text(&self, ended: bool) -> Result<String, AllocError>
        ensures text { IfOk result (λ text. string_bytes text ≡ Shown.media_text self.now ended) }
        ensures scarce { OnErr result (0 < length (known self.now)) }
    {
        match &self.media {
            Some(text) if !ended => text.as_ref().clone(),
            _ => self.window.media_text(ended),
        }
    }

    /// The text of the I-frame playlist, ended or not. With no segment it is empty and wants no memory.
    pub fn frames_text(&self, ended: bool) -> Result<String, AllocError>
        ensures text { IfOk result (λ text. string_bytes text ≡ Shown.frames_text self.now ended) }
        ensures scarce { OnErr result (0 < length (known self.now)) }
    {
        match &self.iframes {
            Some(text) if !ended => text.as_ref().clone(),
            _ => self.window.iframe_text(ended),
        }
    }

    /// The text of the media playlist, ended or not, as it was kept where it was.
    pub fn shared_media_text(&self, ended: bool) -> Result<Arc<String>, AllocError>
        ensures { IfOk result (λ text. string_bytes (arc_value text) ≡ Shown.media_text self.now ended) }
    {
        match &self.media {
            Some(text) if !ended => Arc::try_clone(text),
            _ => arc_of(self.window.media_text(ended)?),
        }
    }

    /// The text of the I-frame playlist, ended or not, as it was kept where it was.
    pub fn shared_frames_text(&self, ended: bool) -> Result<Arc<String>, AllocError>
        ensures { IfOk result (λ text. string_bytes (arc_value text) ≡ Shown.frames_text self.now ended) }
    {
        match &self.iframes {
            Some(text) if !ended => Arc::try_clone(text),
            _ => arc_of(self.window.iframe_text(ended)?),
        }
    }

    /// The peak bit rate of the known segments. None stands for no segments.
    pub fn peak(&self) -> Option<Peak>
        requires { self.now.ended ≡ false }
        ensures { result ≡ peak_of self.now.target (segment_rates (known self.now)) }
    {
        self.segments.peak()
    }

    /// The average bit rate of the known segments. None stands for no segments.
    pub fn average(&self) -> Option<u64>
        requires { self.now.ended ≡ false }
        ensures { result ≡ average_of (segment_rates (known self.now)) }
    {
        self.segments.average()
    }

    /// The peak bit rate of the known segments, in bits per second; 0 of none.
    pub fn peak_rate(&self) -> u64
        requires { self.now.ended ≡ false }
        ensures { result ≡ peak_shown self.now }
    {
        rate(self.peak())
    }

    /// The average bit rate of the known segments, in bits per second; 0 of none.
    pub fn average_rate(&self) -> u64
        requires { self.now.ended ≡ false }
        ensures { result ≡ average_shown self.now }
    {
        self.average().unwrap_or(0)
    }

    /// The peak bit rate of their I-frames. None stands for no I-frames.
    pub fn frame_peak(&self) -> Option<Peak>
        requires { self.now.ended ≡ false }
        ensures { result ≡ peak_of self.now.target (frame_rates (known self.now)) }
    {
        self.frames.peak()
    }

    /// The average bit rate of their I-frames. None stands for no I-frames.
    pub fn frame_average(&self) -> Option<u64>
        requires { self.now.ended ≡ false }
        ensures { result ≡ average_of (frame_rates (known self.now)) }
    {
        self.frames.average()
    }
}

/// A text to be shared.
fn arc_of(text: String) -> Result<Arc<String>, AllocError>
    ensures { IfOk result (λ shared. arc_value shared ≡ text) }
{
    Ok(Arc::new(*text.allocator(), text)?)
}

/// The text of the media playlist of a window that goes on, where there is memory for it.
fn kept_media(window: &Window) -> Option<Arc<String>>
    ensures { IfSome result (λ text. string_bytes (arc_value text) ≡ text_of (media_lines window.now false)) }
{
    let text = window.media_text(false).ok()?;
    arc_of(text).ok()
}

/// That of its I-frame playlist.
fn kept_iframes(window: &Window) -> Option<Arc<String>>
    ensures { IfSome result (λ text. string_bytes (arc_value text) ≡ text_of (iframe_lines window.now false)) }
{
    let text = window.iframe_text(false).ok()?;
    arc_of(text).ok()
}

/// A window that was pushed nothing.
fn empty_window(
    alloc: Global,
    name: &str,
    target: u64,
    window: u64,
    kind: Kind,
    salt: Option<[u8; 16]>,
) -> Result<Window, AllocError>
    ensures { IfOk result (λ new. new ≡ record {
      name = name.now;
      target = target;
      window = least_listed kind window;
      event = is_event kind;
      salt = salt;
      gone = nothing_gone;
      rows = [];
    }) }
{
    match (kind, salt) {
        (Kind::Event, salt) => Window::event(alloc, name, target, salt),
        (Kind::Live, Some(salt)) => Window::salted(alloc, name, target, window, salt),
        (Kind::Live, None) => Window::new(alloc, name, target, window),
    }
}

/// Measures the I-frames of a segment.
fn push_frames(meter: &mut Meter, frames: &[FrameRow]) -> Result<(), AllocError>
    requires few { length meter.old.spans + length frames.now ≤ 2 ^ 52 }
    requires small { All IsSmallFrame frames.now }
    ensures ok { OnOk result (meter.new ≡ record meter.old { spans = meter.old.spans ++ map frame_rate frames.now }) }
    ensures scarce { OnErr result (0 < length frames.now) }
{
    for frame in frames {
        meter.push(frame.len, frame.micros)?;
    }
    Ok(())
}
