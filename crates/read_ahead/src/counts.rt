//! What the calls of the backlogs do to their counts, under the lock.
ghost use Rattle.std.specs.Prelude.{◌≡◌, ◌≢◌, ◌+◌, ◌-◌, ◌<◌, ◌≤◌, ◌%◌, ◌^◌, [], None, Some, false, not, true, length, map};
ghost use Rattle.std.specs.Prelude.{slice_get, slice_index_or, slice_set, Decides, IfNone, IfOk, IfSome, OnErr, OnSome};
ghost use Rattle.std.specs.Duration.{as_nanos};
ghost use Rattle.read_ahead.specs.Counts.{Begin, shown, stand_of, standing};
ghost use Rattle.read_ahead.specs.Shares.{backlog_of, is_full, is_low, share, turns, with_block};
ghost use Rattle.read_ahead.specs.Sources.{longest_silence};
ghost use Rattle.read_ahead.specs.Times.{is_past};
ghost use Rattle.read_ahead.specs.declared.limits.TheConstants.{BLOCKS};

use crate::backlog::Backlog;
use crate::clock_reading::ClockReading;
use crate::limits::BLOCKS;
use crate::shares::{share_of, turns_of};
use crate::times::has_passed;
use crate::view::{InputState, silence, state_of};
use std::alloc::{AllocError, Global};
use std::sync::Condvar;
use std::time::{Duration, Instant};

/// What stands under the lock.
#[derive(Drop)]
pub struct Counts {
    pub backlogs: Vec<Backlog>,
    /// Since when the thread of an input waits for its bytes, if it does.
    pub since: Vec<Option<Instant>>,
    /// How often something came of an input, from the first number on again behind the last.
    pub news: u64,
}

/// A block of so many bytes of an input was counted, where no more than these lie ready, unless no more of the input is given. Only
/// a look under the lock makes one, or that there is no such input.
#[derive(Drop)]
pub struct Room {
    number: usize,
    count: usize,
    room: usize,
    is_given: bool,
}

impl Room {
    /// Of no input.
    pub fn of_none(_taken: &[Condvar], number: usize) -> Room
        requires { length _taken.now ≤ number }
        ensures of { result.number ≡ number }
        ensures given { result.is_given ≡ false }
    {
        Room {
            number,
            count: 0,
            room: 0,
            is_given: false,
        }
    }

    /// Whether more of the input is given.
    pub fn is_given(&self) -> bool
        ensures { result ≡ self.now.is_given }
    {
        self.is_given
    }
}

/// The thread of an input waits for its bytes. It can't be let go, so that the wait is ended.
pub struct Awaited {
    number: usize,
}

/// The thread of an input waited for its bytes. Only the end of a wait makes one.
#[derive(Drop)]
pub struct Waited {
    number: usize,
}

/// A block of an input was begun. Only that this was counted under the lock makes one, and it can't be let go, so that it's said of
/// which input.
pub struct Begun {
    number: usize,
}

impl Begun {
    /// It was a block of the input of this number.
    pub fn is_of(self, _number: usize)
        requires { self.number ≡ _number }
    {
        let Begun { number: _ } = self;
    }
}

/// A read of an input was answered with so many bytes, and its thread is to go on where it waits for this room and enough of it is
/// free. Only that they were counted under the lock makes one.
#[derive(Drop)]
pub struct Given {
    number: usize,
    count: usize,
    room: usize,
}

impl Given {
    /// How many they are.
    pub fn count(&self) -> usize
        ensures { result ≡ self.now.count }
    {
        self.count
    }
}

/// How many bytes a read of an input gives at the most. Only a look under the lock makes one.
#[derive(Drop)]
pub struct Share {
    number: usize,
    bytes: usize,
}

impl Share {
    /// How many they are.
    pub fn bytes(&self) -> usize
        ensures { result ≡ self.now.bytes }
    {
        self.bytes
    }
}

/// How often something came. Only a look under the lock makes one.
#[derive(Clone, Copy)]
pub struct News {
    count: u64,
}

/// Something that came counts as news. Only that it was counted under the lock makes one.
#[derive(Drop)]
pub struct Told {
    _of: (),
}

/// No more of an input is given. Only that this was said under the lock makes one.
#[derive(Drop)]
pub struct Leaving {
    number: usize,
}

/// How long an input has been silent, where it falls silent behind this stall. Only a look under the lock makes one, or that none is
/// ever silent.
#[derive(Drop)]
pub struct Silence {
    number: usize,
    stall: Option<Duration>,
    is_over: bool,
}

impl Silence {
    /// Where there is no stall.
    pub fn without(stall: Option<Duration>, number: usize) -> Silence
        requires { stall ≡ None }
        ensures of { result.number ≡ number }
        ensures limit { result.stall ≡ stall }
        ensures over { result.is_over ≡ false }
    {
        Silence {
            number,
            stall,
            is_over: false,
        }
    }

    /// The number of the input.
    pub fn number(&self) -> usize
        ensures { result ≡ self.now.number }
    {
        self.number
    }

    /// Whether that was too long.
    pub fn is_over(&self) -> bool
        ensures { result ≡ self.now.is_over }
    {
        self.is_over
    }
}

impl Counts {
    /// Of so many inputs, of which none gave anything yet, and each is waited for since then.
    pub fn new(alloc: Global, count: usize, since: ClockReading) -> Result<Counts, AllocError>
        ensures ok { IfOk result (λ counts. Begin counts count since.at) }
        ensures scarce { OnErr result (0 < count) }
    {
        let mut backlogs = Vec::with_capacity(alloc, count)?;
        let mut all_since = Vec::with_capacity(alloc, count)?;
        for _ in 0..count {
            backlogs.push(Backlog::new())?;
            all_since.push(since.at())?;
        }
        Ok(Counts {
            backlogs,
            since: all_since,
            news: 0,
        })
    }

    /// How often something came of an input.
    pub fn news(&self) -> News
        ensures { result.count ≡ self.now.news }
    {
        News { count: self.news }
    }

    /// Whether something came of an input since that was seen.
    pub fn has_news(&self, seen: News) -> bool
        ensures { Decides result (self.now.news ≢ seen.count) }
    {
        self.news != seen.count
    }

    /// Whether the thread of an input waits for its bytes for too long by then.
    pub fn silence(&self, number: usize, stall: Duration, now: ClockReading) -> Silence
        ensures of { result.number ≡ number }
        ensures limit { result.stall ≡ Some stall }
        ensures over { result.is_over ≡ is_past (slice_index_or self.now.since.items number None) now.at (as_nanos stall) false }
    {
        let since = self.since.get(number).copied().unwrap_or(None);
        Silence {
            number,
            stall: Some(stall),
            is_over: has_passed(since, now.at(), stall, false),
        }
    }

    /// How an input stands. One that isn't there has nothing.
    fn state(&self, number: usize, now: ClockReading) -> InputState
        ensures { shown result ≡ stand_of now.at self.now.backlogs.items self.now.since.items number }
    {
        let Some(backlog) = self.backlogs.get(number) else {
            return InputState {
                bytes: 0,
                silent: Duration::ZERO,
            };
        };
        let since = self.since.get(number).copied().unwrap_or(None);
        state_of(backlog, since, now.at())
    }

    /// How each of the first inputs stands, by number, in a vector that has room for them.
    pub fn states(
        &self,
        room: Vec<InputState>,
        count: usize,
        now: ClockReading,
    ) -> Result<Vec<InputState>, AllocError>
        requires { room.items ≡ [] }
        ensures ok { IfOk result (λ states. map shown states.items ≡ standing now.at self.now.backlogs.items self.now.since.items count) }
        ensures each { IfOk result (λ states. length states.items ≡ count) }
        ensures scarce { OnErr result (0 < count) }
    {
        let mut states = room;
        for number in 0..count {
            states.push(self.state(number, now))?;
        }
        Ok(states)
    }

    /// Counts a block of an input, unless it has to wait: none then.
    pub fn put(&mut self, number: usize, room: usize, count: usize) -> Option<Room>
        ensures some { IfSome result (λ it. (is_full room BLOCKS count (backlog_of self.old.backlogs.items number) ≡ false)
            × (it.is_given ≡ not (backlog_of self.old.backlogs.items number).left)) }
        ensures of { IfSome result (λ it. (it.number ≡ number) × (it.count ≡ count) × (it.room ≡ room)) }
        ensures none { IfNone result (is_full room BLOCKS count (backlog_of self.old.backlogs.items number) ≡ true) }
        ensures kept { IfNone result (self.new.backlogs.items ≡ self.old.backlogs.items) }
        ensures counted { number < length self.old.backlogs.items → OnSome result (self.new.backlogs.items
            ≡ slice_set self.old.backlogs.items number (with_block count (backlog_of self.old.backlogs.items number))) }
        ensures same { self.new ≡ record self.old { backlogs = self.new.backlogs } }
    {
        let is_given = if number < self.backlogs.len() {
            self.backlogs[number].try_put(room, BLOCKS, count)?
        } else {
            false
        };
        Some(Room {
            number,
            count,
            room,
            is_given,
        })
    }

    /// Something came of an input.
    pub fn tell(&mut self) -> Told
        ensures { self.new ≡ record self.old { news = (self.old.news + 1) % 2 ^ 64 } }
    {
        self.news = self.news.wrapping_add(1);
        Told { _of: () }
    }

    /// The thread of an input waits for its next bytes from now on, unless it waits already.
    pub fn begin_wait(&mut self, number: usize, now: ClockReading) -> Awaited
        ensures of { result.number ≡ number }
        ensures begun { slice_get self.old.since.items number ≡ Some None → self.new.since.items ≡ slice_set self.old.since.items number now.at }
        ensures kept { (since : Instant) → slice_get self.old.since.items number ≡ Some (Some since) → self.new ≡ self.old }
        ensures same { self.new ≡ record self.old { since = self.new.since } }
    {
        if number < self.since.len() && self.since[number].is_none() {
            self.since[number] = now.at();
        }
        Awaited { number }
    }

    /// The thread of an input waits no longer.
    pub fn end_wait(&mut self, awaited: Awaited) -> Waited
        ensures of { result.number ≡ awaited.number }
        ensures ended { awaited.number < length self.old.since.items → self.new.since.items
            ≡ slice_set self.old.since.items awaited.number None }
        ensures same { self.new ≡ record self.old { since = self.new.since } }
    {
        let Awaited { number } = awaited;
        if number < self.since.len() {
            self.since[number] = None;
        }
        Waited { number }
    }

    /// A block of an input was begun.
    pub fn begin(&mut self, number: usize) -> Begun
        ensures of { result.number ≡ number }
        ensures begun { number < length self.old.backlogs.items → self.new.backlogs.items ≡ slice_set self.old.backlogs.items number
            (record (backlog_of self.old.backlogs.items number) { blocks = (backlog_of self.old.backlogs.items number).blocks - 1 }) }
        ensures same { self.new ≡ record self.old { backlogs = self.new.backlogs } }
    {
        if number < self.backlogs.len() {
            self.backlogs[number].begin();
        }
        Begun { number }
    }

    /// A read of an input was answered with so many bytes. Answers also whether a thread may go on that waits for room.
    pub fn give(&mut self, number: usize, count: usize, room: usize) -> (Given, bool)
        ensures of { (result.0.number ≡ number) × (result.0.count ≡ count) × (result.0.room ≡ room) }
        ensures given { number < length self.old.backlogs.items → self.new.backlogs.items ≡ slice_set self.old.backlogs.items number
            (record (backlog_of self.old.backlogs.items number) { bytes = (backlog_of self.old.backlogs.items number).bytes - count }) }
        ensures low { number < length self.old.backlogs.items → result.1 ≡ is_low room (backlog_of self.new.backlogs.items number) }
        ensures same { self.new ≡ record self.old { backlogs = self.new.backlogs } }
    {
        let given = Given {
            number,
            count,
            room,
        };
        if number >= self.backlogs.len() {
            return (given, false);
        }
        self.backlogs[number].give(count);
        let is_low = self.backlogs[number].is_low(room);
        (given, is_low)
    }

    /// No more of an input is given.
    pub fn leave(&mut self, number: usize) -> Leaving
        ensures of { result.number ≡ number }
        ensures left { number < length self.old.backlogs.items → self.new.backlogs.items
            ≡ slice_set self.old.backlogs.items number (record { bytes = 0; blocks = 0; left = true }) }
        ensures same { self.new ≡ record self.old { backlogs = self.new.backlogs } }
    {
        if number < self.backlogs.len() {
            self.backlogs[number].leave();
        }
        Leaving { number }
    }

    /// How many bytes a read of an input gives at the most.
    pub fn share(&self, number: usize) -> Share
        ensures of { result.number ≡ number }
        ensures some { 0 < result.bytes }
        ensures is { number < length self.now.backlogs.items → result.bytes
            ≡ share (backlog_of self.now.backlogs.items number).bytes (turns self.now.backlogs.items) }
    {
        if number >= self.backlogs.len() {
            return Share { number, bytes: 1 };
        }
        let bytes = share_of(self.backlogs[number].bytes, turns_of(&self.backlogs));
        Share { number, bytes }
    }

    /// How long that input was waited for until now that was waited for the longest.
    pub fn longest_silence(&self, now: ClockReading) -> Duration
        ensures { as_nanos result ≡ longest_silence now.at self.now.backlogs.items self.now.since.items (length self.now.backlogs.items) }
    {
        let mut longest = Duration::ZERO;
        for number in 0..self.backlogs.len() {
            let since = self.since.get(number).copied().unwrap_or(None);
            let silence = silence(self.backlogs[number].left, since, now.at());
            if silence.as_nanos() > longest.as_nanos() {
                longest = silence;
            }
        }
        longest
    }
}
