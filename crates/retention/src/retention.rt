//! Which segments of a rendition are kept.
ghost use Rattle.std.specs.Prelude.{◌≡◌, ℕ, ◌+◌, ◌-◌, ◌<◌, ◌≤◌, ◌^◌, [], ◌∷◌, ◌++◌, length, OnOk, OnErr};
ghost use Rattle.retention.specs.Steps.{first_of, IsKeptFrom};

use crate::queue::{let_go, make_room, move_on};
use crate::step::Step;
use ghost_list::GhostList;
use std::alloc::{AllocError, Global};
use std::collections::VecDeque;
use std::marker::Model;

/// Which segments of a rendition are kept though no playlist lists them any more: each for its own duration and that of the
/// longest playlist so far, from the first playlist on that doesn't list it (RFC 8216, 6.2.2).
///
/// Contracts see it as the least time that a segment is kept beyond its own duration, in microseconds, and the list of all
/// steps: one for each segment, and the playlist behind it. It holds one number for each segment that is kept.
#[derive(Drop)]
pub struct Retention {
    least: u64,
    first: u64,
    gone: u64,
    listed: VecDeque<u64>,
    due: VecDeque<u128>,
    clock: u128,
    listed_micros: u128,
    longest: u128,
    steps: GhostList<Step>,
}

impl Model for Retention {
    ghost use Rattle.retention.specs.Steps.{Kept};

    ghost Value = { Kept };

    ghost use Rattle.retention.specs.State.{kept, IsTied};

    ghost view = { kept };

    ghost invariant = { IsTied };
}

impl Retention {
    /// A retention of no segments. Each is kept `least` microseconds beyond its own duration, even where every playlist is
    /// shorter: a run that goes on says here how long the playlists of the run before may have been.
    pub fn new(alloc: Global, least: u64) -> Retention
        ensures { result ≡ record { least = least; steps = [] } }
    {
        Retention {
            least,
            first: 0,
            gone: 0,
            listed: VecDeque::new(alloc),
            due: VecDeque::new(alloc),
            clock: 0,
            listed_micros: 0,
            longest: u128::from(least),
            steps: GhostList::new(),
        }
    }

    /// How many segments it was told.
    pub fn count(&self) -> u64
        ensures { result ≡ length self.now.steps }
    {
        self.first + self.listed.len() as u64
    }

    /// The place from which on segments are kept: all before it may go, and the one there may not.
    pub fn kept_from(&self) -> u64
        ensures { IsKeptFrom self.now.least self.now.steps result }
    {
        self.gone
    }

    /// The place of the first segment that the last playlist lists; 0 where none came.
    pub fn first_listed(&self) -> u64
        ensures is { result ≡ first_of self.now.steps (length self.now.steps - 1) }
        ensures rises { (i : ℕ) → i < length self.now.steps → first_of self.now.steps i ≤ result }
        ensures up_to { result ≤ length self.now.steps }
    {
        self.first
    }

    /// Takes the next segment, of so many microseconds, and the place of the first one that the playlist behind it lists.
    /// Where memory is refused, all is as it was.
    pub fn push(&mut self, micros: u64, first: u64) -> Result<(), AllocError>
        requires few { length self.old.steps < 2 ^ 52 }
        requires listed { first ≤ length self.old.steps }
        requires rises { (i : ℕ) → i < length self.old.steps → first_of self.old.steps i ≤ first }
        ensures ok { OnOk result (self.new ≡ record self.old { steps = self.old.steps ++ record { micros = micros; first = first } ∷ [] }) }
        ensures err { OnErr result (self.new ≡ self.old) }
    {
        let out = make_room(&mut self.listed, &mut self.due, self.first, first)?;
        let clock = self.clock + u128::from(micros);
        let left = move_on(
            &mut self.listed,
            &mut self.due,
            out,
            self.listed_micros,
            clock + self.longest,
        );
        self.listed.push_back_reserved(micros);
        self.steps.push(&Step { micros, first });
        self.listed_micros = left + u128::from(micros);
        self.longest = self.longest.max(self.listed_micros);
        self.clock = clock;
        self.first += out;
        self.gone += let_go(&mut self.due, clock);
        Ok(())
    }
}
