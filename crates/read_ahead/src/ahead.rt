ghost use Rattle.std.specs.Prelude.{◌≡◌, ◌+◌, ◌<◌, ◌^◌, Decides, IfOk, false, length, true};
ghost use Rattle.std.specs.Arc.{arc_value};
ghost use Rattle.read_ahead.specs.Sources.{IsSound, MayBegin, ahead_input, inputs_of, seen_first};

use crate::counts::News;
use crate::incoming::Incoming;
use crate::input::Contents;
use crate::readiness::{Readiness, Unready};
use crate::unclosed::Unclosed;
use crate::view::InputsView;
use crate::wait_end::WaitEnd;
use crate::waiting::wait_ready;
use item_io::{ReadFault, Source};
use std::alloc::AllocError;
use std::marker::Model;
use std::sync::{Arc, Wait};
use std::time::Clock;

/// A source of what another thread reads ahead. A read waits until a byte lies ready, or the end; where the input is silent for too
/// long, it fails.
pub struct Ahead<R: Wait, I: Contents> {
    rt: R,
    incoming: Incoming<I>,
    reads: u64,
    failures: u64,
    is_left: bool,
    /// Whether it was left ever.
    was_left: bool,
    unclosed: Unclosed,
}

impl<R: Wait, I: Contents> Model for Ahead<R, I> {
    ghost use Rattle.std.specs.Prelude.{◌≡◌, length, true};
    ghost use Rattle.std.specs.Arc.{arc_value};
    ghost use Rattle.read_ahead.specs.Sources.{IsSound, Seen, StopsIfLeft, is_file_of, rest_of, room_of};

    ghost Value = { Seen };

    ghost view = { λ s. record {
      left = rest_of I.holds s.incoming;
      reads = s.reads;
      failures = s.failures;
      is_left = s.is_left;
      number = s.incoming.number;
      is_file = is_file_of (arc_value s.incoming.backlogs) s.incoming.number;
      stall = (arc_value s.incoming.backlogs).limits.stall;
      room = room_of (arc_value s.incoming.backlogs) s.incoming.number;
      inputs = length (arc_value s.incoming.backlogs).taken.items;
    } };

    ghost invariant = { λ s. IsSound I.holds s.incoming × StopsIfLeft s.is_left s.incoming.phase × (s.is_left ≡ true → s.was_left ≡ true)
        × (s.unclosed.number ≡ s.incoming.number) };
}

impl<R: Wait + Clock, I: Contents> Ahead<R, I> {
    /// The source of what comes of an input with which a run may begin.
    pub(crate) fn new(rt: R, incoming: Incoming<I>) -> Ahead<R, I>
        requires sound { IsSound I.holds incoming }
        requires begun { MayBegin incoming }
        ensures { result ≡ seen_first I.holds incoming }
    {
        let unclosed = Unclosed::of(&incoming);
        Ahead {
            rt,
            incoming,
            reads: 0,
            failures: 0,
            is_left: false,
            was_left: false,
            unclosed,
        }
    }

    /// Whether a byte lies ready, or the end, or a failure, of a source that wasn't left.
    pub(crate) fn would_answer(&mut self) -> Readiness
        ensures same { self.new ≡ self.old }
        ensures of { result.number ≡ self.old.number }
        ensures left { self.old.is_left ≡ true → result.is_ready ≡ false }
    {
        self.incoming.readiness(&self.rt, self.was_left)
    }

    /// A view of this input and all those that were opened with it.
    pub fn view(&self) -> Result<InputsView, AllocError>
        ensures { IfOk result (λ view. inputs_of view ≡ self.now.inputs) }
    {
        Ok(InputsView {
            backlogs: Arc::try_clone(&self.incoming.backlogs)?,
        })
    }

    /// How often something came of any input: to be remembered before a look.
    pub(crate) fn news(&self) -> News {
        self.incoming.backlogs.news(&self.rt)
    }

    /// Waits, where no source is ready, until something came of any input since then.
    pub(crate) fn wait_past(&self, seen: News, unready: Unready) -> WaitEnd
        requires { 0 < unready.count }
        ensures { Decides result.is_over (result.news ≡ seen.count) }
    {
        self.incoming.backlogs.wait_past(&self.rt, seen, unready)
    }
}

impl<R: Wait + Clock + Copy, I: Contents> Source for Ahead<R, I> {
    ghost input = { ahead_input };

    ghost tells = { λ _. true };

    fn read(&mut self, buffer: &mut [u8]) -> Result<usize, ReadFault> {
        self.is_left = false;
        match self.incoming.read(&self.rt, buffer) {
            Ok(given) => {
                count_read(&mut self.reads, given.count());
                Ok(given.count())
            }
            Err(fault) => {
                count_failure(&mut self.failures);
                Err(fault)
            }
        }
    }

    fn lend<'a>(&'a mut self, buffer: &'a mut [u8]) -> Result<&'a [u8], ReadFault> {
        self.is_left = false;
        let piece = match self.incoming.lend(&self.rt, buffer) {
            Ok(piece) => piece,
            Err(fault) => {
                count_failure(&mut self.failures);
                return Err(fault);
            }
        };
        let count = piece.given.count();
        count_read(&mut self.reads, count);
        if !piece.is_lent {
            return Ok(&buffer[..count]);
        }
        Ok(self.incoming.passed(count))
    }

    /// What the input still gives is thrown away, so that its writer isn't held up. A read behind this fails, once the bytes of
    /// the front block are given.
    fn leave(&mut self) {
        let leaving = self.incoming.backlogs.leave(&self.rt, self.incoming.number);
        self.incoming.stop(leaving);
        self.is_left = true;
        self.was_left = true;
    }

    /// Whether a byte lies ready, or the end, or a failure. A plain file's is waited for, for up to 2 ms, since such a file gives its bytes as
    /// fast as they are read.
    fn is_ready(&mut self) -> bool
        ensures ok { self.new ≡ self.old }
        ensures left { self.old.is_left ≡ true → result ≡ false }
    {
        self.would_answer().is_ready()
    }

    /// Waits until one of these sources is ready. They are of one call of `open_all`.
    fn wait_any(sources: &mut [Ahead<R, I>]) {
        if sources.is_empty() {
            return;
        }
        let first = &sources[0];
        let rt = first.rt;
        let _ready = wait_ready(&rt, sources);
    }
}

impl<R: Wait + Drop, I: Contents> Drop for Ahead<R, I> {
    /// No more of the input is given.
    fn drop(self) {
        let Ahead {
            rt,
            incoming,
            reads: _,
            failures: _,
            is_left: _,
            was_left: _,
            unclosed,
        } = self;
        unclosed.close(incoming.backlogs.leave(&rt, incoming.number));
    }
}

/// Counts a read that gave so many bytes, if they are some.
fn count_read(reads: &mut u64, count: usize)
    requires { reads.old < 2 ^ 63 }
    ensures some { 0 < count → reads.new ≡ reads.old + 1 }
    ensures none { count ≡ 0 → reads.new ≡ reads.old }
{
    if count > 0 {
        *reads += 1;
    }
}

/// Counts a read that failed.
fn count_failure(failures: &mut u64)
    requires { failures.old < 2 ^ 63 }
    ensures { failures.new ≡ failures.old + 1 }
{
    *failures += 1;
}
