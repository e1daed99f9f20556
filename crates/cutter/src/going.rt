//! The segment that goes on.

ghost use Rattle.std.specs.Prelude.{◌≡◌, ◌+◌, ◌≤◌, ◌<◌, ◌^◌, Some, IfOk};
ghost use Rattle.cutter.specs.Segments;
ghost use Rattle.cutter.specs.SegmentState.{opened_first, opened_next, label_of, IsInRange, HasRange};
ghost use Rattle.limits.specs.declared.TheConstants.{MOST_FRAME};

use crate::point::{self, Mark, Point};
use crate::reel::Label;
use crate::settings::CutSettings;
use pes_time::Stamp;
use psi_tables::{Tables, pmt_packets};
use std::alloc::AllocError;
use std::marker::Model;
use std::mem;

/// A segment whose end hasn't come. Its body and its I-frames are those that go on in a reel.
#[derive(Drop)]
pub(crate) struct Going {
    number: u64,
    discontinuity: bool,
    start: Stamp,
    tables: Tables,
    pmt_counter: u8,
    greatest: i64,
}

impl Model for Going {
    ghost use Rattle.cutter.specs.SegmentState.{Opened};

    ghost Value = { Opened };

    ghost use Rattle.cutter.specs.SegmentState.{opened_by, IsSound};

    ghost view = { opened_by };

    ghost invariant = { IsSound };
}

impl Going {
    /// The first segment of a stream, with no packet yet.
    pub(crate) fn first(head: &Point<'_>) -> Result<Going, AllocError>
        ensures { IfOk result (λ going. going ≡ opened_first head.now) }
    {
        Ok(Going {
            number: 0,
            discontinuity: false,
            start: head.stamp,
            tables: head.tables.copy()?,
            pmt_counter: 0,
            greatest: head.stamp.time,
        })
    }

    /// The segment behind this one, with no packet yet.
    pub(crate) fn next(&self, head: &Point<'_>) -> Result<Going, AllocError>
        requires { self.now.number < 2 ^ 32 }
        ensures { IfOk result (λ going. going ≡ opened_next self.now head.now) }
    {
        let discontinuity = point::breaks(&self.head(), head);
        let counter = (usize::from(self.pmt_counter) + pmt_packets(&self.tables)) % 16;
        Ok(Going {
            number: self.number + 1,
            discontinuity,
            start: head.stamp,
            tables: head.tables.copy()?,
            pmt_counter: counter as u8,
            greatest: head.stamp.time,
        })
    }

    /// The cut at which the segment begins.
    fn head(&self) -> Point<'_>
        ensures { result ≡ self.now.head }
    {
        Point {
            stamp: self.start,
            tables: &self.tables,
        }
    }

    /// The stamp of that cut.
    pub(crate) fn start(&self) -> Stamp
        ensures { result ≡ self.now.head.stamp }
    {
        self.start
    }

    /// Goes on with one packet more, whose bytes the reel takes.
    pub(crate) fn see(&mut self, mark: &Mark<'_>)
        ensures { self.new ≡ record self.old { greatest = Segments.later self.old.head.stamp.epoch self.old.greatest mark.now.look.stamp } }
    {
        self.greatest = later(self.start.epoch, self.greatest, mark.look.stamp);
    }

    /// How long the segment lasts, up to a cut with this stamp or the end of the stream.
    pub(crate) fn ticks(&self, settings: CutSettings, next: Option<Stamp>) -> u64
        requires frame { settings.frame ≤ MOST_FRAME }
        requires next { HasRange next }
        ensures is { result ≡ Segments.ticks_to settings self.now.head.stamp self.now.greatest next }
        ensures most { result ≤ 2 ^ 63 + MOST_FRAME }
    {
        ticks_to(settings, self.start, self.greatest, next)
    }

    /// All of its plan but the body and the I-frames, where it ends at a cut with this stamp or at the end of the stream.
    pub(crate) fn label(self, rendition: usize, settings: CutSettings, next: Option<Stamp>) -> Label
        requires frame { settings.frame ≤ MOST_FRAME }
        requires next { HasRange next }
        ensures { result ≡ label_of rendition settings self next }
    {
        let ticks = ticks_to(settings, self.start, self.greatest, next);
        let Going {
            number,
            discontinuity,
            tables,
            pmt_counter,
            ..
        } = self;
        Label {
            rendition,
            number,
            tables,
            pat_counter: (number % 16) as u8,
            pmt_counter,
            ticks,
            discontinuity,
        }
    }

    /// Goes on as the next segment, which begins at a cut with this stamp, and gives what `label` gives of this one.
    pub(crate) fn pass(
        &mut self,
        next: Going,
        rendition: usize,
        settings: CutSettings,
        stamp: Stamp,
    ) -> Label
        requires frame { settings.frame ≤ MOST_FRAME }
        requires stamp { IsInRange stamp.time }
        ensures label { result ≡ label_of rendition settings self.old (Some stamp) }
        ensures next { self.new ≡ next }
    {
        mem::replace(self, next).label(rendition, settings, Some(stamp))
    }

    pub(crate) fn number(&self) -> u64
        ensures { result ≡ self.now.number }
    {
        self.number
    }

    /// Whether a counted point is the next cut.
    pub(crate) fn is_cut(&self, settings: CutSettings, next: &Point<'_>) -> bool
        requires { settings.segment < 2 ^ 62 }
        ensures { result ≡ Segments.is_cut settings self.now.head next.now }
    {
        point::is_cut(settings, &self.head(), next)
    }
}

/// The greatest time of this epoch, with one stamp more.
fn later(epoch: u64, greatest: i64, stamp: Option<Stamp>) -> i64
    requires greatest { IsInRange greatest }
    requires stamp { HasRange stamp }
    ensures is { result ≡ Segments.later epoch greatest stamp }
    ensures range { IsInRange result }
{
    let Some(stamp) = stamp else {
        return greatest;
    };
    if stamp.epoch == epoch && greatest < stamp.time {
        return stamp.time;
    }
    greatest
}

/// How long a segment lasts, in ticks.
fn ticks_to(settings: CutSettings, head: Stamp, greatest: i64, next: Option<Stamp>) -> u64
    requires head { IsInRange head.time }
    requires greatest { IsInRange greatest }
    requires next { HasRange next }
    requires frame { settings.frame ≤ MOST_FRAME }
    ensures is { result ≡ Segments.ticks_to settings head greatest next }
    ensures most { result ≤ 2 ^ 63 + MOST_FRAME }
{
    let Some(next) = next else {
        return greatest.abs_diff(head.time) + settings.frame;
    };
    if next.epoch == head.epoch {
        return next.time.abs_diff(head.time);
    }
    greatest.abs_diff(head.time) + settings.frame
}
