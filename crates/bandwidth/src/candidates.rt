ghost use Rattle.std.specs.Prelude.{◌≡◌, ◌⊎◌, ◌+◌, ◌-◌, ◌<◌, ◌≤◌, ◌^◌, [], Option, None, length, OnOk, OnErr};
ghost use Rattle.std.specs.VecDeque.{deque_len, deque_capacity};
ghost use Rattle.bandwidth.specs.Runs.{is_in_range};
ghost use Rattle.bandwidth.specs.Steps.{AreSmall, IsOf, BestOf};
ghost use Rattle.bandwidth.specs.Gaps.{IsPlace, IsUnspent, IsUpTo, AreCandidates, head_of, IsBehind, AreSameCandidates, IsOneStartMore};
ghost use Rattle.limits.specs.declared.TheConstants.{MOST_TARGET};

use crate::corners::{Back, add_all, walk_corners};
use crate::place::{Place, RunStart};
use crate::run::{Run, Span};
use crate::starts::{Front, drop_early, link_all, walk};
use ghost_list::GhostList;
use std::alloc::{AllocError, Global};
use std::collections::VecDeque;

/// The places that runs in range to the last span may begin at, in two parts. Each place of the front part is linked to
/// its next corner, the place up to which the rate from it is the least; of the back part only the corners are kept.
/// Where the rate from a place to a later one is at most the best, a run from the first that beats the best is beaten by
/// the one from the second: the first is spent, and is never looked at again, since the best only grows.
///
/// So each place is taken and dropped once, is a corner once, is linked once, when the front part is used up, and is
/// passed at most once in each part: a constant number of steps a push on average. That each part is passed as far as the
/// best allows is proved; the number of steps is argued here and not proved.
#[derive(Drop)]
pub struct Candidates {
    pub front: Front,
    pub back: Back,
}

impl Candidates {
    /// The candidates of no spans.
    pub fn new(alloc: Global, target: u64) -> Candidates
        requires { target ≤ MOST_TARGET }
        ensures { AreCandidates target [] None result }
    {
        Candidates {
            front: Front {
                first: 0,
                starts: VecDeque::new(alloc),
                head: 0,
                middle: 0,
            },
            back: Back {
                corners: VecDeque::new(alloc),
                until: 0,
            },
        }
    }

    /// Takes the place before a new last span. For want of memory it is as it was.
    pub fn push(&mut self, place: Place) -> Result<(), AllocError>
        requires until { self.old.back.until ≤ place.at }
        requires few { place.at < 2 ^ 52 }
        ensures ok { OnOk result (IsOneStartMore self.old place self.new) }
        ensures err { OnErr result (AreSameCandidates self.old self.new) }
        ensures scarce { OnErr result ((deque_capacity self.old.front.starts ≤ deque_len self.old.front.starts)
            ⊎ (deque_capacity self.old.back.corners < deque_len self.old.back.corners + (place.at + 1 - self.old.back.until))) }
    {
        let more = place.at + 1 - self.back.until;
        make_room(&mut self.front.starts, &mut self.back.corners, more)?;
        self.front
            .starts
            .push_back_reserved(RunStart { place, next: 0 });
        Ok(())
    }

    /// Moves on to the last span: takes the places from which the spans last half of the target now, and drops those from
    /// which they last longer than one and a half of it. Once none of those is left that are linked, it links all others
    /// that there are.
    pub fn move_on(
        &mut self,
        target: u64,
        total: Place,
        _best: Option<Run>,
        _spans: &GhostList<Span>,
    )
        requires few { length _spans.now.items ≤ 2 ^ 52 }
        requires total { IsPlace _spans.now.items total }
        requires end { total.at ≡ length _spans.now.items }
        requires behind { IsBehind target _spans.now.items _best self.old }
        requires room { deque_len self.old.back.corners + length _spans.now.items ≤ deque_capacity self.old.back.corners + self.old.back.until }
        ensures { AreCandidates target _spans.now.items _best self.new }
    {
        add_all(target, &self.front, total, &mut self.back, _spans);
        self.front.first = drop_early(
            target,
            self.front.first,
            &mut self.front.starts,
            total,
            _spans,
        );
        if self.front.first > self.front.middle {
            link_all(
                self.front.first,
                self.back.until,
                &mut self.front.starts,
                _spans,
            );
            self.back.corners.clear();
            self.front.middle = self.back.until;
            self.front.head = self.front.first;
        } else if self.front.first > self.front.head {
            self.front.head = self.front.first;
        }
    }

    /// The best run in range, where the best of those is given that end before the last span.
    pub fn look(
        &mut self,
        target: u64,
        total: Place,
        best: Option<Run>,
        _spans: &GhostList<Span>,
    ) -> Option<Run>
        requires total { IsPlace _spans.now.items total }
        requires end { total.at ≡ length _spans.now.items }
        requires candidates { AreCandidates target _spans.now.items best self.old }
        requires best { BestOf (IsUpTo target _spans.now.items self.old.front.first) best }
        requires small { AreSmall best }
        ensures candidates { AreCandidates target _spans.now.items result self.new }
        ensures best { BestOf (IsOf (is_in_range target) _spans.now.items) result }
        ensures small { AreSmall result }
        ensures front_stops { (so_far : Option Run) × BestOf (IsUpTo target _spans.now.items self.new.front.middle) so_far
            × (self.new.front.head < self.new.front.middle →
            IsUnspent _spans.now.items so_far self.new.front.head self.new.front.middle) }
        ensures back_stops { self.new.front.middle < self.new.back.until →
            IsUnspent _spans.now.items result (head_of self.new.front.middle self.new.back.corners.items) self.new.back.until }
    {
        let best = self.look_at_starts(target, total, best, _spans);
        self.look_at_corners(target, total, best, _spans)
    }

    /// The best of those that begin at the linked places too.
    fn look_at_starts(
        &mut self,
        _target: u64,
        total: Place,
        best: Option<Run>,
        _spans: &GhostList<Span>,
    ) -> Option<Run>
        requires total { IsPlace _spans.now.items total }
        requires end { total.at ≡ length _spans.now.items }
        requires candidates { AreCandidates _target _spans.now.items best self.old }
        requires best { BestOf (IsUpTo _target _spans.now.items self.old.front.first) best }
        requires small { AreSmall best }
        ensures candidates { AreCandidates _target _spans.now.items result self.new }
        ensures best { BestOf (IsUpTo _target _spans.now.items self.new.front.middle) result }
        ensures small { AreSmall result }
        ensures stops { self.new.front.head < self.new.front.middle →
            IsUnspent _spans.now.items result self.new.front.head self.new.front.middle }
    {
        if self.front.head == self.front.middle {
            return best;
        }
        let (head, best) = walk(_target, &self.front, total, best, _spans);
        self.front.head = head;
        best
    }

    /// And of those that begin at the other places.
    fn look_at_corners(
        &mut self,
        _target: u64,
        total: Place,
        best: Option<Run>,
        _spans: &GhostList<Span>,
    ) -> Option<Run>
        requires total { IsPlace _spans.now.items total }
        requires end { total.at ≡ length _spans.now.items }
        requires candidates { AreCandidates _target _spans.now.items best self.old }
        requires best { BestOf (IsUpTo _target _spans.now.items self.old.front.middle) best }
        requires small { AreSmall best }
        ensures candidates { AreCandidates _target _spans.now.items result self.new }
        ensures best { BestOf (IsUpTo _target _spans.now.items self.new.back.until) result }
        ensures small { AreSmall result }
        ensures stops { self.new.front.middle < self.new.back.until →
            IsUnspent _spans.now.items result (head_of self.new.front.middle self.new.back.corners.items) self.new.back.until }
        ensures front { self.new.front ≡ self.old.front }
    {
        if self.front.middle == self.back.until {
            return best;
        }
        walk_corners(_target, &self.front, &mut self.back, total, best, _spans)
    }
}

/// Makes room for one start more, and for so many corners more.
fn make_room(
    starts: &mut VecDeque<RunStart>,
    corners: &mut VecDeque<Place>,
    more: u64,
) -> Result<(), AllocError>
    requires { more < 2 ^ 63 }
    ensures starts { starts.new.items ≡ starts.old.items }
    ensures corners { corners.new.items ≡ corners.old.items }
    ensures len { (deque_len starts.new ≡ deque_len starts.old) × (deque_len corners.new ≡ deque_len corners.old) }
    ensures room { OnOk result ((deque_len starts.new < deque_capacity starts.new) × (deque_len corners.new + more ≤ deque_capacity corners.new)) }
    ensures scarce { OnErr result ((deque_capacity starts.old ≤ deque_len starts.old) ⊎ (deque_capacity corners.old < deque_len corners.old + more)) }
{
    starts.reserve(1)?;
    corners.reserve(more as usize)?;
    Ok(())
}
