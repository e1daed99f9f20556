ghost use Rattle.std.specs.Prelude.{◌≡◌, ◌≢◌, ◌+◌, ◌<◌, ◌≤◌, ◌^◌, ◌↔◌, [], ◌∷◌, ◌++◌, length, IsTrue, IfOk, OnOk, OnErr, IsErrOf, Some, None, true, false};
ghost use Rattle.std.specs.String.{string_bytes};
ghost use Rattle.playlist_text.specs.Lines.{text_of};
ghost use Rattle.media_playlist.specs.Rows;
ghost use Rattle.media_playlist.specs.Lines.{media_lines, iframe_lines};
ghost use Rattle.media_playlist.specs.Listed.{first, nothing_gone};
ghost use Rattle.media_playlist.specs.Gone.{IsSmall};

use crate::fault::WindowFault;
use crate::iframes::{push_frames, push_frames_only};
use crate::lines::{push_end, push_head};
use crate::media::push_entries;
use crate::row::{Gone, Row, is_long};
use crate::start::{Start, moved_on};
use ghost_list::GhostList;
use std::alloc::{AllocError, Global};
use std::collections::VecDeque;
use std::marker::Model;

/// The rows of a rendition as they come, of which its playlists list the last: as few as are as many as the window and
/// last at least three target durations (RFC 8216, 6.2.2).
///
/// A window of an event lists all rows instead (RFC 8216, 4.3.3.5).
///
/// Clauses see a window as its name, its target duration in seconds, the least number of rows to list, whether it is one
/// of an event, the salt of its vectors where it has one, and the list of all rows that it was pushed. It keeps the rows
/// that it lists, and of those before them only how many they are and how many I-frames and discontinuities they have. Its
/// invariant says so.
#[derive(Drop)]
pub struct Window {
    name: String,
    target: u64,
    window: u64,
    event: bool,
    salt: Option<[u8; 16]>,
    gone: Gone,
    rows: VecDeque<Row>,
    start: Start,
    taken: GhostList<Row>,
}

impl Model for Window {
    ghost use Rattle.media_playlist.specs.Listed.{Pushed};

    ghost Value = { Pushed };

    ghost use Rattle.media_playlist.specs.State.{pushed, IsTied};

    ghost view = { pushed };

    ghost invariant = { IsTied };
}

impl Window {
    /// A window that was pushed nothing. The target duration is in seconds.
    pub fn new(alloc: Global, name: &str, target: u64, window: u64) -> Result<Window, AllocError>
        ensures { IfOk result (λ new. new ≡ record {
          name = name.now;
          target = target;
          window = window;
          event = false;
          salt = None;
          gone = nothing_gone;
          rows = [];
        }) }
    {
        Window::with(alloc, name, target, window, false, None)
    }

    /// The same for a rendition whose vectors are salted: its media playlist lists the vector of each row (RFC 8216,
    /// 4.3.2.4 and 5.2).
    pub fn salted(
        alloc: Global,
        name: &str,
        target: u64,
        window: u64,
        salt: [u8; 16],
    ) -> Result<Window, AllocError>
        ensures { IfOk result (λ new. new ≡ record {
          name = name.now;
          target = target;
          window = window;
          event = false;
          salt = Some salt;
          gone = nothing_gone;
          rows = [];
        }) }
    {
        Window::with(alloc, name, target, window, false, Some(salt))
    }

    /// The same for an event: no row is ever removed, and both playlists say so (RFC 8216, 4.3.3.5). No least number of
    /// rows is asked for; clauses see it as 0.
    pub fn event(
        alloc: Global,
        name: &str,
        target: u64,
        salt: Option<[u8; 16]>,
    ) -> Result<Window, AllocError>
        ensures { IfOk result (λ new. new ≡ record {
          name = name.now;
          target = target;
          window = 0;
          event = true;
          salt = salt;
          gone = nothing_gone;
          rows = [];
        }) }
    {
        Window::with(alloc, name, target, 0, true, salt)
    }

    fn with(
        alloc: Global,
        name: &str,
        target: u64,
        window: u64,
        event: bool,
        salt: Option<[u8; 16]>,
    ) -> Result<Window, AllocError>
        ensures { IfOk result (λ new. new ≡ record {
          name = name.now;
          target = target;
          window = window;
          event = event;
          salt = salt;
          gone = nothing_gone;
          rows = [];
        }) }
    {
        let name = String::from_str(alloc, name)?;
        Ok(Window {
            name,
            target,
            window,
            event,
            salt,
            gone: Gone::nothing(),
            rows: VecDeque::new(alloc),
            start: Start::new(),
            taken: GhostList::new(),
        })
    }

    /// The window of a rendition that goes on: its first row is the next one behind what came before (RFC 8216, 6.2.1: a
    /// media sequence number never falls). No row was pushed yet.
    pub fn behind(self, gone: Gone) -> Window
        requires empty { self.rows ≡ [] }
        requires small { IsSmall gone }
        ensures { result ≡ record self { gone = gone } }
    {
        let mut window = self;
        window.gone = gone;
        window
    }

    /// How many rows it was pushed.
    pub fn row_count(&self) -> u64
        ensures { result ≡ length self.now.rows }
    {
        self.start.first + self.rows.len() as u64
    }

    /// The number that the next row has to have.
    pub fn next_number(&self) -> u64
        requires { length self.now.rows ≤ 2 ^ 52 }
        ensures { result ≡ self.now.gone.rows + length self.now.rows }
    {
        self.gone.rows + self.row_count()
    }

    /// Asks for another least number of rows from now on. No row was removed so far.
    pub fn ask_for(&mut self, window: u64)
        requires { first self.old ≡ 0 }
        ensures { self.new ≡ record self.old { window = window } }
    {
        self.window = window;
        if !self.event {
            self.start = moved_on(self.target, window, &mut self.rows, self.start, &self.taken);
        }
    }

    /// Takes the next row. Fewer than 2^52 rows came before: the caller's care.
    ///
    /// A refusal leaves the window as it was. LongRow is told before OutOfOrder, and both before the want of memory.
    pub fn push(&mut self, row: Row) -> Result<(), WindowFault>
        requires { length self.old.rows < 2 ^ 52 }
        ensures pushed { OnOk result (self.new ≡ record self.old { rows = self.old.rows ++ row ∷ [] }) }
        ensures long { IsErrOf result WindowFault.LongRow ↔ IsTrue (Rows.is_long self.old.target row) }
        ensures order { IsErrOf result WindowFault.OutOfOrder
            ↔ ((Rows.is_long self.old.target row ≡ false) × (row.number ≢ self.old.gone.rows + length self.old.rows)) }
        ensures err { OnErr result (self.new ≡ self.old) }
    {
        if is_long(self.target, &row) {
            return Err(WindowFault::LongRow);
        }
        if row.number != self.next_number() {
            return Err(WindowFault::OutOfOrder);
        }
        let start = self.start.with_micros(row.micros);
        self.rows.reserve(1)?;
        self.taken.push(&row);
        self.rows.push_back_reserved(row);
        if self.event {
            self.start = start;
            return Ok(());
        }
        self.start = moved_on(self.target, self.window, &mut self.rows, start, &self.taken);
        Ok(())
    }

    /// The text of the media playlist, ended or not (RFC 8216, 4.3). With no row it is empty and wants no memory.
    pub fn media_text(&self, ended: bool) -> Result<String, AllocError>
        ensures text { IfOk result (λ text. string_bytes text ≡ text_of (media_lines self.now ended)) }
        ensures scarce { OnErr result (0 < length self.now.rows) }
    {
        let mut out = String::new(*self.rows.allocator());
        if self.row_count() == 0 {
            return Ok(out);
        }
        let start = self.start;
        let sequence = u128::from(self.gone.rows) + u128::from(start.first);
        let breaks = u128::from(self.gone.discontinuities) + u128::from(start.discontinuities);
        push_head(&mut out, self.target, sequence, breaks, self.event)?;
        push_entries(&mut out, &self.name, self.salt, &self.rows)?;
        push_end(&mut out, ended)?;
        Ok(out)
    }

    /// The text of the playlist of I-frames, ended or not (RFC 8216, 4.3.3.6). With no row it is empty and wants no memory.
    pub fn iframe_text(&self, ended: bool) -> Result<String, AllocError>
        ensures text { IfOk result (λ text. string_bytes text ≡ text_of (iframe_lines self.now ended)) }
        ensures scarce { OnErr result (0 < length self.now.rows) }
    {
        let mut lines = String::new(*self.rows.allocator());
        if self.row_count() == 0 {
            return Ok(lines);
        }
        let start = self.start;
        let frames = self.gone.frames + start.frames;
        let discontinuities = u128::from(self.gone.discontinuities)
            + u128::from(start.discontinuities);
        push_head(&mut lines, self.target, frames, discontinuities, self.event)?;
        push_frames_only(&mut lines)?;
        push_frames(&mut lines, &self.name, self.salt, &self.rows)?;
        push_end(&mut lines, ended)?;
        Ok(lines)
    }
}
