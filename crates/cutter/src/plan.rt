ghost use Rattle.std.specs.Prelude.{◌≡◌, Decides};

use psi_tables::Tables;
use std::marker::Model;

/// An I-frame of a segment's body: where its packets lie, in bytes from the body's start on, and when it is shown, in
/// ticks of 1/90000 s from the segment's start on.
#[derive(Clone, Copy, Debug, PartialEq, Eq, Drop)]
pub struct Frame {
    pub offset: u64,
    pub len: u64,
    pub start: u64,
}

/// All that makes one segment of a rendition, before it is sealed: its number, from 0 on; the tables in force where it
/// begins, and the continuity_counters of the first packets of its head; its accepted packets, of 188 bytes each; its
/// I-frames; how long it lasts in ticks of 1/90000 s; and whether times or tables don't go on from the segment before.
#[derive(Debug, Drop)]
pub struct Plan {
    pub rendition: usize,
    pub number: u64,
    pub tables: Tables,
    pub pat_counter: u8,
    pub pmt_counter: u8,
    pub body: Vec<u8>,
    pub frames: Vec<Frame>,
    pub ticks: u64,
    pub discontinuity: bool,
}

impl Model for Plan {
    ghost use Rattle.cutter.specs.Plans.{SegmentPlan};

    ghost Value = { SegmentPlan };

    ghost use Rattle.cutter.specs.SegmentState.{segment_plan};

    ghost view = { segment_plan };
}

impl Plan {
    /// Whether two plans are the same: each number, the tables, each byte of the body and each I-frame.
    pub fn same(&self, other: &Plan) -> bool
        ensures { Decides result (self.now ≡ other.now) }
    {
        self.lend().same(other.lend())
    }
}

pub(crate) fn same_bytes(bytes: &[u8], other: &[u8]) -> bool
    ensures { Decides result (bytes.now ≡ other.now) }
{
    bytes == other
}

pub(crate) fn same_frames(frames: &[Frame], other: &[Frame]) -> bool
    ensures { Decides result (frames.now ≡ other.now) }
{
    frames == other
}
