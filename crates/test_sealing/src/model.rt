//! A flow as plain lists of names, each event as the relation has it.

use crate::told::{Name, Told};
use std::alloc::{AllocError, Global};

/// One event, or an attempt at one.
#[derive(Clone, Copy, PartialEq, Eq)]
pub(crate) enum Letter {
    /// The next plan of a rendition is fed.
    Feed(usize),
    /// The first plan of the first rendition is fed again.
    Again,
    /// A worker claims.
    Claim(usize),
    /// The claim that stands the longest is delivered, under the right key or another one, refused or held.
    Deliver,
    Mistake,
    Refuse,
    Hold,
    Take,
    /// A segment under another key turns up.
    Stray,
    /// The first missing segment of a rendition is sealed apart.
    Own(usize),
    Close,
    Stop,
    /// One more segment of a rendition is shown.
    Publish(usize),
}

/// What became of a plan.
#[derive(Clone, Copy, PartialEq, Eq)]
pub(crate) enum Made {
    Right,
    Wrong,
    Refused,
    Held,
}

/// What is seen from outside: how many plans are outstanding, whether it is closed, something waits or is done, how many
/// segments were thrown away, whether there is room, and the numbers that two renditions expect next.
#[derive(Clone, Copy, PartialEq, Eq)]
pub(crate) struct Seen {
    pub outstanding: usize,
    pub closed: bool,
    pub waits: bool,
    pub done: bool,
    pub thrown: u64,
    pub room: bool,
    pub next: (u64, u64),
}

#[derive(Drop)]
pub(crate) struct Model {
    most: usize,
    fed: Vec<Name>,
    waiting: Vec<Name>,
    claimed: Vec<(usize, Name)>,
    done: Vec<(Name, Made)>,
    closed: bool,
    expected: Vec<Name>,
    came: Vec<Name>,
    thrown: Vec<Name>,
    shown: Vec<Name>,
}

/// Whether a name is among these.
fn has(names: &[Name], name: Name) -> bool {
    for other in names {
        if *other == name {
            return true;
        }
    }
    false
}

/// How many of these are of a rendition.
fn count(names: &[Name], rendition: usize) -> u64 {
    let mut n = 0;
    for name in names {
        if name.0 == rendition && n < u64::MAX {
            n += 1;
        }
    }
    n
}

impl Model {
    pub(crate) fn new(alloc: Global, most: usize) -> Model {
        Model {
            most,
            fed: Vec::new(alloc),
            waiting: Vec::new(alloc),
            claimed: Vec::new(alloc),
            done: Vec::new(alloc),
            closed: false,
            expected: Vec::new(alloc),
            came: Vec::new(alloc),
            thrown: Vec::new(alloc),
            shown: Vec::new(alloc),
        }
    }

    fn outstanding(&self) -> usize {
        self.waiting
            .len()
            .saturating_add(self.claimed.len())
            .saturating_add(self.done.len())
    }

    /// Whether a plan waits, is claimed or is done.
    fn stands(&self, name: Name) -> bool {
        for claim in &self.claimed {
            if claim.1 == name {
                return true;
            }
        }
        for done in &self.done {
            if done.0 == name {
                return true;
            }
        }
        has(&self.waiting, name)
    }

    /// The number of the first segment of a rendition that didn't come.
    fn ready(&self, rendition: usize) -> u64 {
        for n in 0..3 {
            if !has(&self.came, (rendition, n)) {
                return n;
            }
        }
        3
    }

    /// Whether fewer expected plans than `most` aren't shown.
    fn room(&self) -> bool {
        self.expected.len().saturating_sub(self.shown.len()) < self.most
    }

    /// The plan that a letter feeds: one that was never fed, of two for each rendition.
    pub(crate) fn plan(&self, letter: Letter) -> Option<Name> {
        let Letter::Feed(rendition) = letter else {
            return Some((0, 0));
        };
        let number = count(&self.fed, rendition);
        if number < 2 {
            Some((rendition, number))
        } else {
            None
        }
    }

    /// The first missing segment of a rendition.
    pub(crate) fn missing(&self, rendition: usize) -> Option<Name> {
        let number = self.ready(rendition);
        if has(&self.expected, (rendition, number)) {
            Some((rendition, number))
        } else {
            None
        }
    }

    /// The claim that stands the longest.
    pub(crate) fn claim(&self) -> Option<Name> {
        match self.claimed.first() {
            Some(claim) => Some(claim.1),
            None => None,
        }
    }

    fn feed(&mut self, name: Name) -> Result<Told, AllocError> {
        if self.outstanding() >= self.most {
            return Ok(Told::Full(name));
        }
        if self.closed {
            return Ok(Told::Closed(name));
        }
        if self.stands(name) {
            return Ok(Told::Twice(name));
        }
        self.waiting.push(name)?;
        if !has(&self.fed, name) {
            self.fed.push(name)?;
        }
        if name.1 == count(&self.expected, name.0) && self.room() {
            self.expected.push(name)?;
        }
        Ok(Told::Done)
    }

    fn take_claim(&mut self, worker: usize) -> Result<Told, AllocError> {
        if self.waiting.is_empty() {
            return Ok(Told::Nothing);
        }
        let name = self.waiting.remove(0);
        self.claimed.push((worker, name))?;
        Ok(Told::Claimed(worker, name))
    }

    fn finish(&mut self, made: Made) -> Result<Told, AllocError> {
        if self.claimed.is_empty() {
            return Ok(Told::Nothing);
        }
        let claim = self.claimed.remove(0);
        self.done.push((claim.1, made))?;
        Ok(Told::Done)
    }

    /// A right segment of an expected number that had none comes, and any other is thrown away.
    fn receive(&mut self, name: Name, made: Made) -> Result<Told, AllocError> {
        let first = has(&self.expected, name) && !has(&self.came, name);
        if made == Made::Right && first {
            self.came.push(name)?;
            return Ok(Told::Came(self.ready(name.0)));
        }
        self.thrown.push(name)?;
        Ok(Told::Thrown)
    }

    fn take(&mut self) -> Result<Told, AllocError> {
        if self.done.is_empty() {
            return Ok(Told::Nothing);
        }
        let (name, made) = self.done.remove(0);
        self.receive(name, made)
    }

    fn own(&mut self, rendition: usize) -> Result<Told, AllocError> {
        match self.missing(rendition) {
            Some(name) => self.receive(name, Made::Right),
            None => Ok(Told::Nothing),
        }
    }

    fn publish(&mut self, rendition: usize) -> Result<Told, AllocError> {
        let number = count(&self.shown, rendition);
        if number >= self.ready(rendition) {
            return Ok(Told::Nothing);
        }
        self.shown.push((rendition, number))?;
        Ok(Told::Shown((rendition, number)))
    }

    fn close(&mut self, stops: bool) -> Told {
        if self.closed && (!stops || self.waiting.is_empty()) {
            return Told::Nothing;
        }
        self.closed = true;
        if stops {
            self.waiting.clear();
        }
        Told::Done
    }

    /// What a letter does and answers.
    pub(crate) fn step(&mut self, letter: Letter) -> Result<Told, AllocError> {
        match letter {
            Letter::Feed(_) | Letter::Again => match self.plan(letter) {
                Some(name) => self.feed(name),
                None => Ok(Told::Nothing),
            },
            Letter::Claim(worker) => self.take_claim(worker),
            Letter::Deliver => self.finish(Made::Right),
            Letter::Mistake => self.finish(Made::Wrong),
            Letter::Refuse => self.finish(Made::Refused),
            Letter::Hold => self.finish(Made::Held),
            Letter::Take => self.take(),
            Letter::Stray => self.receive((0, 0), Made::Wrong),
            Letter::Own(rendition) => self.own(rendition),
            Letter::Close => Ok(self.close(false)),
            Letter::Stop => Ok(self.close(true)),
            Letter::Publish(rendition) => self.publish(rendition),
        }
    }

    /// What is seen of it.
    pub(crate) fn seen(&self) -> Seen {
        Seen {
            outstanding: self.outstanding(),
            closed: self.closed,
            waits: !self.waiting.is_empty(),
            done: !self.done.is_empty(),
            thrown: self.thrown.len() as u64,
            room: self.room(),
            next: (count(&self.expected, 0), count(&self.expected, 1)),
        }
    }

    /// The plans expected for which none came, rendition by rendition.
    pub(crate) fn all_missing(&self, alloc: Global) -> Result<Vec<Name>, AllocError> {
        let mut names = Vec::new(alloc);
        for rendition in 0..2 {
            for name in &self.expected {
                if name.0 == rendition && !has(&self.came, *name) {
                    names.push(*name)?;
                }
            }
        }
        Ok(names)
    }
}
