//! Counted points: where a segment may begin.

ghost use Rattle.std.specs.Prelude.{◌≡◌, ◌<◌, ◌^◌};
ghost use Rattle.cutter.specs.SegmentState.{IsInRange, HasRange};
ghost use Rattle.cutter.specs.Framing.{framed, no_frames, IsWithin};
ghost use Rattle.cutter.specs.Points;
ghost use Rattle.cutter.specs.Segments;

use crate::framing::{Pending, pending_from};
use crate::look::Look;
use crate::settings::CutSettings;
use pes_time::Stamp;
use psi_tables::Tables;
use std::marker::Model;

/// A packet, what it is, and its stamp where it is a counted point. Times are in range.
#[derive(Drop)]
pub(crate) struct Mark<'a> {
    pub packet: &'a [u8; 188],
    pub look: Look,
    pub counted: Option<Stamp>,
}

impl<'a> Model for Mark<'a> {
    ghost use Rattle.cutter.specs.Points.{Mark, mark};
    ghost use Rattle.cutter.specs.SegmentState.{HasRange};

    ghost Value = { Mark };

    ghost view = { λ m. mark m.packet.now m.look m.counted };

    ghost invariant = { λ m. HasRange m.look.stamp × HasRange m.counted };
}

impl<'a> Mark<'a> {
    /// The bytes of the packet, where it is accepted.
    pub(crate) fn bytes(&self) -> &[u8]
        ensures { result.now ≡ Segments.bytes_of self.now }
    {
        let packet = self.packet;
        if self.look.is_accepted { packet } else { &[] }
    }

    /// The I-frame that begins with the packet where it is the first one of a segment that begins at this stamp.
    pub(crate) fn pending(&self, head: Stamp) -> Option<Pending>
        ensures is { result ≡ (framed head no_frames self.now).pending }
        ensures within { IsWithin result 0 }
    {
        if !self.look.starts_video {
            return None;
        }
        pending_from(head, 0, self.counted)
    }
}

/// A counted point, and the tables in force before it. Its time is in range.
#[derive(Drop)]
pub(crate) struct Point<'a> {
    pub stamp: Stamp,
    pub tables: &'a Tables,
}

impl<'a> Model for Point<'a> {
    ghost use Rattle.cutter.specs.Segments.{Point};
    ghost use Rattle.cutter.specs.SegmentState.{IsInRange};

    ghost Value = { Point };

    ghost view = { λ p. record { stamp = p.stamp; tables = p.tables.now } };

    ghost invariant = { λ p. IsInRange p.stamp.time };
}

/// The stamp of a packet that is a counted point; `top` is the last one that counted.
pub(crate) fn counted(top: Option<Stamp>, look: Look) -> Option<Stamp>
    requires { HasRange look.stamp }
    ensures is { result ≡ Points.counted top look }
    ensures range { HasRange result }
{
    if !look.is_entry {
        return None;
    }
    let Some(stamp) = look.stamp else {
        return None;
    };
    let Some(top) = top else {
        return Some(stamp);
    };
    if top.epoch == stamp.epoch && stamp.time <= top.time {
        return None;
    }
    Some(stamp)
}

/// Whether times and tables don't go on from one counted point to another.
pub(crate) fn breaks(from: &Point<'_>, to: &Point<'_>) -> bool
    ensures { result ≡ Segments.breaks from.now to.now }
{
    from.stamp.epoch != to.stamp.epoch || !from.tables.same(to.tables)
}

/// Whether a counted point is a cut behind the last one.
pub(crate) fn is_cut(settings: CutSettings, head: &Point<'_>, next: &Point<'_>) -> bool
    requires { settings.segment < 2 ^ 62 }
    ensures { result ≡ Segments.is_cut settings head.now next.now }
{
    breaks(head, next) || is_due(settings, head.stamp, next.stamp)
}

/// Whether a counted point lies at least `segment` behind the last cut.
fn is_due(settings: CutSettings, from: Stamp, to: Stamp) -> bool
    requires segment { settings.segment < 2 ^ 62 }
    requires from { IsInRange from.time }
    ensures { result ≡ Segments.is_due settings from to }
{
    from.time + settings.segment as i64 <= to.time
}
