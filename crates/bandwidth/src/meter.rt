ghost use Rattle.std.specs.Prelude.{◌≡◌, ◌+◌, ◌*◌, ◌<◌, ◌≤◌, ◌^◌, [], ◌∷◌, ◌++◌, length, OnOk, OnErr};
ghost use Rattle.bandwidth.specs.Peaks.{peak_of, average_of};
ghost use Rattle.bandwidth.specs.Steps.{IsSmall};
ghost use Rattle.limits.specs.declared.TheConstants.{MOST_TARGET};

use crate::best::best_of;
use crate::candidates::Candidates;
use crate::place::Place;
use crate::run::{Run, Span, rate_of};
use ghost_list::GhostList;
use std::alloc::{AllocError, Global};
use std::marker::Model;

/// The run of spans whose rate is the greatest.
#[derive(Clone, Copy, Debug, PartialEq, Eq)]
pub struct Peak {
    /// Bits a second, rounded up.
    pub rate: u64,
    /// The number of the run's first span, from 0 on.
    pub from: u64,
    /// The number of its last span.
    pub to: u64,
    /// Whether it lasts from half to one and a half of the target.
    pub ranged: bool,
}

/// Measures the peak and the average bit rate of the spans that it is pushed, which are the segments of a playlist or
/// its I-frames (RFC 8216, 4.1 and 4.3.4.2).
///
/// Clauses see a meter as its target and the list of all spans that it was pushed, and its peak and average are proved to
/// be those of that list. It keeps the sums of all spans, the best run in range, the best span, and a candidates: of single
/// spans those alone from which on the spans last at most one and a half of the target. Its invariant says so.
///
/// That a push takes a constant number of steps on average, whatever the spans, is not proved; the type of the candidates
/// says why it does.
#[derive(Drop)]
pub struct Meter {
    target: u64,
    /// The place behind all spans, with their sums.
    total: Place,
    candidates: Candidates,
    ranged: Option<Run>,
    single: Option<Run>,
    pushed: GhostList<Span>,
}

impl Model for Meter {
    ghost use Rattle.bandwidth.specs.Pushed.{Pushed};

    ghost Value = { Pushed };

    ghost use Rattle.bandwidth.specs.State.{meter_value, IsTied};

    ghost view = { meter_value };

    ghost invariant = { IsTied };
}

impl Meter {
    /// A meter that was pushed nothing. The target duration is in seconds.
    pub fn new(alloc: Global, target: u64) -> Meter
        requires least { 1 ≤ target }
        requires most { target ≤ MOST_TARGET }
        ensures { result ≡ record { target = target; spans = [] } }
    {
        Meter {
            target,
            total: Place {
                at: 0,
                bytes: 0,
                micros: 0,
            },
            candidates: Candidates::new(alloc, target),
            ranged: None,
            single: None,
            pushed: GhostList::new(),
        }
    }

    /// Takes a span of so many bytes that lasts so many microseconds. For want of memory the meter is as it was.
    pub fn push(&mut self, size: u64, micros: u64) -> Result<(), AllocError>
        requires size { size < 2 ^ 32 }
        requires lasts { 0 < micros }
        requires micros { micros < 2 ^ 32 }
        requires few { length self.old.spans < 2 ^ 52 }
        ensures ok { OnOk result
            (self.new ≡ record self.old { spans = self.old.spans ++ record { size = size; micros = micros } ∷ [] }) }
        ensures err { OnErr result (self.new ≡ self.old) }
    {
        self.candidates.push(self.total)?;
        self.pushed.push(&Span { size, micros });
        let single = Run {
            from: self.total.at,
            to: self.total.at,
            bytes: u128::from(size),
            micros,
        };
        self.total = Place {
            at: self.total.at + 1,
            bytes: self.total.bytes + u128::from(size),
            micros: self.total.micros + u128::from(micros),
        };
        self.candidates
            .move_on(self.target, self.total, self.ranged, &self.pushed);
        self.ranged = self
            .candidates
            .look(self.target, self.total, self.ranged, &self.pushed);
        self.single = best_of(self.single, Some(single));
        Ok(())
    }

    /// The run in range whose rate is the greatest, where any run is in range, and else the span whose rate is the
    /// greatest; of equal ones the run that ends first, and of those the one that begins first. None stands for no
    /// spans.
    pub fn peak(&self) -> Option<Peak>
        ensures { result ≡ peak_of self.now.target self.now.spans }
    {
        match (self.ranged, self.single) {
            (Some(run), _) => Some(peak_with(true, run)),
            (None, Some(run)) => Some(peak_with(false, run)),
            (None, None) => None,
        }
    }

    /// The rate of all spans together, in bits a second, rounded up. None stands for no spans.
    pub fn average(&self) -> Option<u64>
        ensures { result ≡ average_of self.now.spans }
    {
        if self.total.at == 0 {
            return None;
        }
        Some(rate_of(self.total.bytes, self.total.micros))
    }
}

fn peak_with(ranged: bool, run: Run) -> Peak
    requires { IsSmall run }
    ensures { result ≡ Rattle.bandwidth.specs.Peaks.peak_with ranged run }
{
    Peak {
        rate: rate_of(run.bytes, u128::from(run.micros)),
        from: run.from,
        to: run.to,
        ranged,
    }
}
