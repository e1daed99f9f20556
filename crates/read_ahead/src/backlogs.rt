//! The backlogs of all inputs under one lock, and who waits for them. No claim on bytes rests on it.
ghost use Rattle.std.specs.Prelude.{◌≡◌, ◌≢◌, ◌<◌, None, Decides, IfOk, OnErr, false, length, slice_index_or, true};
ghost use Rattle.std.specs.Arc.{arc_value};
ghost use Rattle.std.specs.List.{AllZip};
ghost use Rattle.read_ahead.specs.Counts.{Begin};
ghost use Rattle.read_ahead.specs.Sources.{room_of};
ghost use Rattle.read_ahead.specs.declared.clock_reading.ClockReading.{ClockReading};

use crate::clock_reading::ClockReading;
use crate::counts::{Awaited, Begun, Counts, Given, Leaving, News, Room, Share, Silence, Waited};
use crate::input::Input;
use crate::limits::Limits;
use crate::patience::Patience;
use crate::pushing::Pushed;
use crate::readiness::Unready;
use crate::spares::Spares;
use crate::view::InputState;
use crate::wait_end::WaitEnd;
use std::alloc::{AllocError, Global};
use std::sync::{Arc, Condvar, Mutex, MutexGuard, Wait};
use std::time::{Clock, Duration};

/// The backlogs of all inputs, by number.
#[derive(Drop)]
pub struct Backlogs {
    counts: Mutex<Counts>,
    /// Something came.
    came: Condvar,
    /// Of an input bytes were taken, or no more are given.
    taken: Vec<Condvar>,
    /// Blocks that were given.
    pub spares: Spares,
    /// Whether each input is a plain file.
    pub files: Vec<bool>,
    /// How much of them lies ready at the most, and behind which stall each is silent.
    pub limits: Limits,
}

impl Backlogs {
    /// Those of inputs of which none gave anything yet. Their threads begin to wait for them.
    pub fn new<R: Clock, I: Input>(
        rt: &R,
        alloc: Global,
        inputs: &[I],
        limits: Limits,
    ) -> Result<Arc<Backlogs, Global>, AllocError>
        ensures limits { IfOk result (λ backlogs. (arc_value backlogs).limits ≡ limits) }
        ensures files { IfOk result (λ backlogs. AllZip I.plain inputs.now (arc_value backlogs).files.items) }
        ensures taken { IfOk result (λ backlogs. length (arc_value backlogs).taken.items ≡ length inputs.now) }
    {
        let count = inputs.len();
        let mut taken = Vec::with_capacity(alloc, count)?;
        for _ in 0..count {
            taken.push(Condvar::new())?;
        }
        let files = files_of(alloc, inputs)?;
        let counts = Counts::new(alloc, count, ClockReading::now(rt))?;
        Backlogs::under_lock(alloc, counts, taken, files, limits)
    }

    /// Those of inputs of which none gave anything yet: their counts, what their threads wait for, and which are plain files.
    fn under_lock(
        alloc: Global,
        counts: Counts,
        taken: Vec<Condvar>,
        files: Vec<bool>,
        limits: Limits,
    ) -> Result<Arc<Backlogs, Global>, AllocError>
        requires { (since : ClockReading) × Begin counts (length taken.items) since.at }
        ensures limits { IfOk result (λ backlogs. (arc_value backlogs).limits ≡ limits) }
        ensures files { IfOk result (λ backlogs. (arc_value backlogs).files ≡ files) }
        ensures taken { IfOk result (λ backlogs. (arc_value backlogs).taken ≡ taken) }
    {
        Ok(Arc::new(
            alloc,
            Backlogs {
                counts: Mutex::new(counts),
                came: Condvar::new(),
                taken,
                spares: Spares::new(alloc),
                files,
                limits,
            },
        )?)
    }

    /// How many bytes of an input may lie ready.
    fn room_of(&self, number: usize) -> usize
        ensures { result ≡ room_of self.now number }
    {
        self.limits.room(self.taken.len(), self.is_file(number))
    }

    /// Whether an input is a plain file.
    pub fn is_file(&self, number: usize) -> bool
        ensures { result ≡ slice_index_or self.now.files.items number false }
    {
        self.files.get(number).copied().unwrap_or(false)
    }

    /// Waits until there is room for a block, and counts it, or until no more is given.
    pub fn put<R: Wait>(&self, rt: &R, number: usize, count: usize) -> Room
        ensures of { result.number ≡ number }
        ensures counted { result.is_given ≡ true → result.count ≡ count }
        ensures bound { result.is_given ≡ true → result.room ≡ room_of self.now number }
    {
        let Some(taken) = self.taken.get(number) else {
            return Room::of_none(&self.taken, number);
        };
        let most = self.room_of(number);
        let mut counts = self.counts.lock(rt);
        for _ in rt.forever() {
            if let Some(room) = counts.put(number, most, count) {
                return room;
            }
            counts = taken.wait(rt, counts);
        }
        unreachable!()
    }

    /// Something came of an input, which was pushed: wakes whoever waits for it.
    pub fn tell<R: Wait>(&self, rt: &R, pushed: Pushed) {
        pushed.is_told(self.counts.lock(rt).tell());
        self.came.notify_all();
    }

    /// How often something came: to be remembered before a look.
    pub fn news<R: Wait>(&self, rt: &R) -> News {
        self.counts.lock(rt).news()
    }

    /// Waits, where nothing lay ready, until something came since then, or an input may have fallen silent, which none does without a
    /// stall.
    pub fn wait_past<R: Wait + Clock>(&self, rt: &R, seen: News, _unready: Unready) -> WaitEnd
        requires { 0 < _unready.count }
        ensures over { Decides result.is_over (result.news ≡ seen.count) }
        ensures patient { self.now.limits.stall ≡ None → result.news ≢ seen.count }
    {
        let counts = self.counts.lock(rt);
        match self.patience(rt, &counts).most() {
            Some(patience) => self.wait_at_most(rt, counts, seen, patience),
            None => self.wait_news(rt, counts, seen),
        }
    }

    /// Waits until something came since then, but not longer than this.
    pub fn wait_for<R: Wait + Clock>(&self, rt: &R, seen: News, most: Duration) -> WaitEnd
        ensures { Decides result.is_over (result.news ≡ seen.count) }
    {
        self.wait_at_most(rt, self.counts.lock(rt), seen, most)
    }

    /// Waits, under the lock, until something came since then.
    fn wait_news<R: Wait>(&self, rt: &R, counts: MutexGuard<'_, Counts>, seen: News) -> WaitEnd
        ensures over { result.is_over ≡ false }
        ensures news { result.news ≢ seen.count }
    {
        let counts = self
            .came
            .wait_while(rt, counts, |counts| !counts.has_news(seen));
        WaitEnd {
            news: counts.news,
            is_over: false,
        }
    }

    /// Waits, under the lock, until something came since then, but not longer than this.
    fn wait_at_most<R: Wait + Clock>(
        &self,
        rt: &R,
        counts: MutexGuard<'_, Counts>,
        seen: News,
        most: Duration,
    ) -> WaitEnd
        ensures { Decides result.is_over (result.news ≡ seen.count) }
    {
        let (counts, end) = self
            .came
            .wait_timeout_while(rt, counts, most, |counts| !counts.has_news(seen));
        WaitEnd {
            news: counts.news,
            is_over: end.timed_out(),
        }
    }

    /// How long no input falls silent that is given.
    fn patience<R: Clock>(&self, rt: &R, counts: &Counts) -> Patience
        ensures { self.now.limits.stall ≡ None → result.most ≡ None }
    {
        Patience::new(self.limits.stall, ClockReading::now(rt), counts)
    }

    /// The thread of an input begins to wait for its next bytes, or still waits for its first ones.
    pub fn begin_wait<R: Wait + Clock>(&self, rt: &R, number: usize) -> Awaited
        ensures { result.number ≡ number }
    {
        let now = ClockReading::now(rt);
        self.counts.lock(rt).begin_wait(number, now)
    }

    /// Something came of the input that its thread waited for.
    pub fn end_wait<R: Wait>(&self, rt: &R, awaited: Awaited) -> Waited
        ensures { result.number ≡ awaited.number }
    {
        self.counts.lock(rt).end_wait(awaited)
    }

    /// Whether an input gave nothing for too long.
    pub fn silence<R: Wait + Clock>(&self, rt: &R, number: usize) -> Silence
        ensures of { result.number ≡ number }
        ensures limit { result.stall ≡ self.now.limits.stall }
        ensures never { self.now.limits.stall ≡ None → result.is_over ≡ false }
    {
        let Some(stall) = self.limits.stall else {
            return Silence::without(self.limits.stall, number);
        };
        let now = ClockReading::now(rt);
        self.counts.lock(rt).silence(number, stall, now)
    }

    /// How each input stands, by number.
    pub fn states<R: Wait + Clock>(
        &self,
        rt: &R,
        alloc: Global,
    ) -> Result<Vec<InputState>, AllocError>
        ensures each { IfOk result (λ states. length states.items ≡ length self.now.taken.items) }
        ensures scarce { OnErr result (0 < length self.now.taken.items) }
    {
        let count = self.taken.len();
        let room = Vec::with_capacity(alloc, count)?;
        let now = ClockReading::now(rt);
        self.counts.lock(rt).states(room, count, now)
    }

    /// A block of an input was begun.
    pub fn begin<R: Wait>(&self, rt: &R, number: usize) -> Begun
        ensures { result.number ≡ number }
    {
        self.counts.lock(rt).begin(number)
    }

    /// How many bytes a read of an input gives at the most.
    pub fn share<R: Wait>(&self, rt: &R, number: usize) -> Share
        ensures of { result.number ≡ number }
        ensures some { 0 < result.bytes }
    {
        self.counts.lock(rt).share(number)
    }

    /// A read of an input was answered with so many bytes.
    pub fn give<R: Wait>(&self, rt: &R, number: usize, count: usize) -> Given
        ensures of { result.number ≡ number }
        ensures counted { result.count ≡ count }
        ensures bound { result.room ≡ room_of self.now number }
    {
        let most = self.room_of(number);
        let (given, is_low) = self.counts.lock(rt).give(number, count, most);
        if is_low {
            self.wake(number);
        }
        given
    }

    /// No more of an input is given.
    pub fn leave<R: Wait>(&self, rt: &R, number: usize) -> Leaving
        ensures { result.number ≡ number }
    {
        let leaving = self.counts.lock(rt).leave(number);
        self.wake(number);
        leaving
    }

    /// Lets the thread go on that reads an input, if it waits for room.
    fn wake(&self, number: usize) {
        if let Some(taken) = self.taken.get(number) {
            taken.notify_one();
        }
    }
}

/// Whether each input is a plain file.
fn files_of<I: Input>(alloc: Global, inputs: &[I]) -> Result<Vec<bool>, AllocError>
    ensures ok { IfOk result (λ files. AllZip I.plain inputs.now files.items) }
    ensures scarce { OnErr result (0 < length inputs.now) }
{
    let mut files = Vec::with_capacity(alloc, inputs.len())?;
    for input in inputs {
        files.push(input.is_file())?;
    }
    Ok(files)
}
