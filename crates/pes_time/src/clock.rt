ghost use Rattle.std.specs.Prelude.{◌≡◌, ◌<◌, ◌^◌, pos, ◌+ℤ◌, ◌≤ℤ◌, [], ◌∷◌, ◌++◌, length, is_ok, IfOk, OnOk, OnErr};
ghost use Rattle.pes_time.specs.Times.{stamp_of, is_taken};
ghost use Rattle.pes_time.specs.State.{IsInRange};

use ghost_list::GhostList;
use std::marker::Model;
use thiserror::Error;

/// A time in ticks of 1/90000 s, and the number of its epoch, from 0 on.
#[derive(Clone, Copy, Debug, PartialEq, Eq)]
pub struct Stamp {
    pub time: i64,
    pub epoch: u64,
}

/// Why a clock doesn't take a PTS.
#[derive(Clone, Copy, Debug, PartialEq, Eq, Error)]
pub enum ClockFault {
    #[error("the PTS has more than 33 bits, or its time is out of range")]
    Range,
}

/// The last PTS that was taken, and its stamp.
#[derive(Clone, Copy)]
struct Last {
    pts: u64,
    stamp: Stamp,
}

/// Takes PTS values, which run modulo 2^33, to times that don't (ISO/IEC 13818-1, 2.4.3.7).
///
/// The first time is the first PTS. Each next one is equal to its PTS modulo 2^33, and lies from 2^32 ticks before the
/// time before it to less than 2^32 ticks behind that. A time that lies more than the gap from the one before begins a
/// new epoch. Clauses see a clock as its gap and the list of the values that it was pushed.
#[derive(Drop)]
pub struct Clock {
    gap: u64,
    last: Option<Last>,
    pushed: GhostList<u64>,
}

impl Model for Clock {
    ghost use Rattle.pes_time.specs.Times.{Pushed};

    ghost Value = { Pushed };

    ghost use Rattle.pes_time.specs.State.{clock_value, IsTied};

    ghost view = { clock_value };

    ghost invariant = { IsTied };
}

impl Clock {
    /// A clock that was pushed nothing. The gap is in ticks.
    pub fn new(gap: u64) -> Clock
        ensures { result ≡ record { gap = gap; list = [] } }
    {
        Clock {
            gap,
            last: None,
            pushed: GhostList::new(),
        }
    }

    /// The stamp of the next PTS, which is in ticks. The caller pushes fewer than 2^63 values.
    ///
    /// Range is told where the value isn't below 2^33, or where its time would lie below -2^62 or above 2^62. The
    /// clock is then as it was.
    pub fn push(&mut self, pts: u64) -> Result<Stamp, ClockFault>
        requires { length self.old.list < 2 ^ 63 }
        ensures taken { is_ok result ≡ is_taken self.old.gap self.old.list pts }
        ensures stamp { IfOk result (λ stamp. stamp ≡ stamp_of self.old.gap self.old.list pts) }
        ensures pushed { OnOk result (self.new ≡ record self.old { list = self.old.list ++ pts ∷ [] }) }
        ensures err { OnErr result (self.new ≡ self.old) }
    {
        if pts >= 1 << 33 {
            return Err(ClockFault::Range);
        }
        let stamp = stamp_behind(self.gap, self.last, pts);
        if !is_in_range(stamp) {
            return Err(ClockFault::Range);
        }
        self.last = Some(Last { pts, stamp });
        self.pushed.push(&pts);
        Ok(stamp)
    }
}

/// The stamp of a PTS behind the last one that was taken.
fn stamp_behind(gap: u64, last: Option<Last>, pts: u64) -> Stamp
    requires last { IsInRange (2 ^ 63) last }
    requires pts { pts < 2 ^ 33 }
    ensures { result ≡ Rattle.pes_time.specs.State.stamp_behind gap last pts }
{
    let Some(last) = last else {
        return Stamp {
            time: pts as i64,
            epoch: 0,
        };
    };
    let step = step(last.pts, pts);
    let time = last.stamp.time + step;
    let epoch = if step.unsigned_abs() > gap {
        last.stamp.epoch + 1
    } else {
        last.stamp.epoch
    };
    Stamp { time, epoch }
}

/// Whether the time lies from -2^62 to 2^62.
fn is_in_range(stamp: Stamp) -> bool
    ensures { result ≡ Rattle.pes_time.specs.Times.is_in_range stamp.time }
{
    stamp.time.unsigned_abs() <= 1 << 62
}

/// How far the time moves: less than half a turn on, or at most half a turn back.
fn step(from: u64, to: u64) -> i64
    requires from { from < 2 ^ 33 }
    requires to { to < 2 ^ 33 }
    ensures is { result ≡ Rattle.pes_time.specs.Times.step from to }
    ensures least { pos 0 ≤ℤ (result +ℤ pos (2 ^ 32)) }
    ensures most { result ≤ℤ pos (2 ^ 32) }
{
    let step = to as i64 - from as i64;
    if step >= 1 << 32 {
        return step - (1 << 33);
    }
    if step < -(1 << 32) {
        return step + (1 << 33);
    }
    step
}
