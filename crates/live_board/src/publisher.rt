//! The publisher, and the board that it begins.

ghost use Rattle.std.specs.Prelude.{◌≡◌, ◌≤◌, ◌++◌, ◌∷◌, [], length, All, vec_len, vec_capacity, IfSome, IfOk, OnOk, OnErr, IfErr, Err, None, ◌⊎◌};
ghost use Rattle.std.specs.Option.{ForSome};
ghost use Rattle.ghost_list.specs.Lists.{IsBeginning};
ghost use Rattle.left_right.specs.Sides.{view as known_by};
ghost use Rattle.live_board.specs.declared.fault.BoardFault.TheVariants.{NoMemory, NoPlace};
ghost use Rattle.live_board.specs.Counts.{counts_shown, NoneFalls};
ghost use Rattle.live_board.specs.Refusals.{Refuses};
ghost use Rattle.live_board.specs.State.{knowing, moment_of, IsLast};

use crate::counts::backwards;
use crate::fault::BoardFault;
use crate::history::{Head, new_history};
use crate::rule::BoardWriter;
use crate::snapshot::Snapshot;
use crate::steps::{append_now, new_viewers, next_moment, show_now, two_copies};
use crate::viewer::Viewer;
use std::alloc::Global;
use std::marker::Model;
use std::sync::Wait;

/// The one who shows snapshots. It isn't let go but by `end`, or by a `HeldPublisher`.
///
/// Clauses see it as the list of snapshots that it showed, and its board.
pub struct Publisher {
    writer: BoardWriter,
    head: Head,
    ghost mine: { known_by writer.desk.place ≡ knowing head },
    ghost shows: { (moment_of writer.desk.shown.value).history ≡ head },
    ghost last: { IsLast (moment_of writer.desk.shown.value) },
}

impl Model for Publisher {
    ghost use Rattle.live_board.specs.Snapshots.{Known};

    ghost Value = { Known };

    ghost view = { λ p. p.head };
}

/// The most viewers of a board.
pub const MOST_VIEWERS: usize = 64;

/// A board that shows the snapshot, its publisher and its viewers, one at least, all of whom know of it. It is refused for
/// want of memory, or as NoPlace where a viewer gets no place among the readers.
pub fn board<R: Wait>(
    rt: &R,
    alloc: Global,
    first: Snapshot,
    viewers: usize,
) -> Result<(Publisher, Vec<Viewer>), BoardFault>
    requires { (1 ≤ viewers) × (viewers ≤ MOST_VIEWERS) }
    ensures list { IfOk result (λ b. b.0.list ≡ first ∷ []) }
    ensures count { IfOk result (λ b. length b.1.items ≡ viewers) }
    ensures viewers { IfOk result (λ b. All (λ v. v ≡ b.0) b.1.items) }
    ensures fault { OnErr result ((result ≡ Err NoPlace) ⊎ (result ≡ Err NoMemory)) }
{
    opened(rt, ready(rt, alloc, first, viewers), viewers)
}

/// With its viewers, a publisher that is ready; NoMemory where none is, and NoPlace only where one is and a viewer gets no place.
fn opened<R: Wait>(
    rt: &R,
    ready: Option<(Publisher, Vec<Viewer>)>,
    viewers: usize,
) -> Result<(Publisher, Vec<Viewer>), BoardFault>
    requires { ForSome ready (λ r. (r.1.items ≡ []) × (vec_len r.1 ≡ 0) × (viewers ≤ vec_capacity r.1)) }
    ensures list { IfSome ready (λ r. IfOk result (λ b. b.0 ≡ r.0)) }
    ensures count { IfOk result (λ b. length b.1.items ≡ viewers) }
    ensures viewers { IfOk result (λ b. All (λ v. v ≡ b.0) b.1.items) }
    ensures none { ready ≡ None → result ≡ Err NoMemory }
    ensures no_place { IfSome ready (λ _. OnErr result (result ≡ Err NoPlace)) }
{
    match ready {
        Some((publisher, room)) => publisher.with_viewers(rt, room, viewers),
        None => Err(BoardFault::NoMemory),
    }
}

/// A publisher that shows the snapshot, and room for so many viewers. `None` for want of memory.
fn ready<R: Wait>(
    rt: &R,
    alloc: Global,
    first: Snapshot,
    viewers: usize,
) -> Option<(Publisher, Vec<Viewer>)>
    requires { (1 ≤ viewers) × (viewers ≤ MOST_VIEWERS) }
    ensures list { IfSome result (λ r. r.0.list ≡ first ∷ []) }
    ensures room { IfSome result (λ r. (r.1.items ≡ []) × (vec_len r.1 ≡ 0) × (viewers ≤ vec_capacity r.1)) }
{
    let room = Vec::with_capacity(alloc, viewers).ok()?;
    Some((alone(rt, alloc, first, viewers)?, room))
}

/// What the bounds are.
pub fn bounds_are_these()
    ensures viewers { MOST_VIEWERS ≡ 64 }
{}

/// A publisher that shows the snapshot, with places for so many viewers. `None` for want of memory.
fn alone<R: Wait>(rt: &R, alloc: Global, first: Snapshot, viewers: usize) -> Option<Publisher>
    requires { (1 ≤ viewers) × (viewers ≤ MOST_VIEWERS) }
    ensures { IfSome result (λ p. p.list ≡ first ∷ []) }
{
    let mut head = new_history();
    let moment = next_moment(rt, alloc, &mut head, first)?;
    let mut writer = two_copies(alloc, &moment, viewers)?;
    if writer.append(moment).is_err() {
        writer.take(rt);
        return None;
    }
    let writer = show_now(rt, writer);
    Some(Publisher { writer, head })
}

impl Publisher {
    /// With so many viewers, in a vector that has room for them: or NoPlace, and the board ends.
    fn with_viewers<R: Wait>(
        self,
        rt: &R,
        room: Vec<Viewer>,
        viewers: usize,
    ) -> Result<(Publisher, Vec<Viewer>), BoardFault>
        requires { (room.items ≡ []) × (vec_len room ≡ 0) × (viewers ≤ vec_capacity room) }
        ensures list { IfOk result (λ b. b.0 ≡ self) }
        ensures count { IfOk result (λ b. length b.1.items ≡ viewers) }
        ensures viewers { IfOk result (λ b. All (λ v. v ≡ self) b.1.items) }
        ensures fault { OnErr result (result ≡ Err NoPlace) }
    {
        let Publisher { mut writer, head } = self;
        match new_viewers(&mut writer, head.all(), room, viewers) {
            Ok(all) => Ok((Publisher { writer, head }, all)),
            Err(fault) => {
                writer.take(rt);
                Err(fault)
            }
        }
    }

    /// The counts that are shown, by rendition.
    #[tactic(auto, using(crate::proofs::Lists::counts_last))]
    pub fn counts(&self) -> &[u64]
        ensures { result.now ≡ counts_shown self.now.list }
    {
        self.writer.published().moment.snapshot.counts.as_slice()
    }

    /// Shows the snapshot. It waits for viewers who still look at the snapshot before the one that is
    /// shown, since that one's copy is written anew.
    ///
    /// A snapshot is refused as Backwards where a count falls below the one that is shown or the number of renditions is
    /// another, and then for want of memory. After a refusal the board shows what it showed.
    pub fn publish<R: Wait>(
        &mut self,
        rt: &R,
        alloc: Global,
        snapshot: Snapshot,
    ) -> Result<(), BoardFault>
        ensures ok { OnOk result (self.new.list ≡ self.old.list ++ snapshot ∷ []) }
        ensures rising { OnOk result (NoneFalls (counts_shown self.old.list) snapshot.counts) }
        ensures err { OnErr result (self.new.list ≡ self.old.list) }
        ensures fault { IfErr result (λ fault. Refuses (counts_shown self.old.list) snapshot.counts fault) }
        ensures board { self.new.board ≡ self.old.board }
    {
        core::mem::replace_with(self, (rt, alloc, snapshot), |publisher, given| {
            let (rt, alloc, snapshot) = given;
            publisher.show(rt, alloc, snapshot)
        })
    }

    /// As `publish`, and back.
    fn show<R: Wait>(
        self,
        rt: &R,
        alloc: Global,
        snapshot: Snapshot,
    ) -> (Publisher, Result<(), BoardFault>)
        ensures ok { OnOk result.1 (result.0.list ≡ self.list ++ snapshot ∷ []) }
        ensures rising { OnOk result.1 (NoneFalls (counts_shown self.list) snapshot.counts) }
        ensures err { OnErr result.1 (result.0.list ≡ self.list) }
        ensures fault { IfErr result.1 (λ fault. Refuses (counts_shown self.list) snapshot.counts fault) }
        ensures board { result.0.board ≡ self.board }
    {
        let fallen = backwards(self.counts(), snapshot.counts.as_slice());
        if let Some((rendition, shown)) = fallen {
            return (self, Err(BoardFault::Backwards { rendition, shown }));
        }
        let Publisher { writer, mut head } = self;
        let Some(moment) = next_moment(rt, alloc, &mut head, snapshot) else {
            return (Publisher { writer, head }, Err(BoardFault::NoMemory));
        };
        // the history has the snapshot: from here on nothing is refused
        let writer = show_now(rt, append_now(rt, writer, moment));
        let next = Publisher { writer, head };
        (next, Ok(()))
    }

    /// Tells a viewer of the same board of all that was shown: from now on it sees no less.
    pub fn tell(&self, viewer: &mut Viewer)
        requires { viewer.old.board ≡ self.now.board }
        ensures told { IsBeginning self.now.list viewer.new.list }
        ensures own { IsBeginning viewer.old.list viewer.new.list }
        ensures board { viewer.new.board ≡ viewer.old.board }
    {
        viewer.learn(self.head.all());
    }

    /// Ends the board. It waits for viewers who look at it.
    pub fn end<R: Wait>(self, rt: &R) {
        let Publisher { writer, head: _ } = self;
        writer.take(rt);
    }
}
