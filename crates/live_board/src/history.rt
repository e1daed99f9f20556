//! The history of a board: which snapshots it has shown, as proofs know it. All that is kept of it is its length.

ghost use Rattle.std.specs.Prelude.{◌≡◌, ◌<◌, ◌↔◌, ◌-◌, ◌^◌, ◌++◌, ◌∷◌, [], length, IsTrue, IfSome, IfNone};
ghost use Rattle.ghost_list.specs.Lists.{IsBeginning};
ghost use Rattle.live_board.specs.Counts.{NeverFalls};
ghost use Rattle.live_board.specs.Histories.{head_of};

use crate::snapshot::Snapshot;
use logbook::{Gain, Offer, Plain, Play, Rule, Seen, Start, Word};
use std::marker::Model;
use std::sync::Wait;

/// What holds of a history: its word is its length.
pub struct HistoryRule;

impl Rule<Snapshot, u64> for HistoryRule {
    ghost use Rattle.std.specs.Prelude.{[]};
    ghost use base.Fml.{ftrue};
    ghost use Rattle.live_board.specs.Histories.{IsKept};

    ghost holds = { λ cells log. IsKept cells log };

    ghost first = { [] };

    ghost hinted = { λ n log. Unit {0} };

    ghost shows = { λ log. [] };

    ghost keeps = { λ names log. ftrue };

    ghost moves = { λ ask before after answer. Unit {0} };
}

/// Nothing else is kept by a history.
struct Nothing;

impl Gain<Snapshot, u64> for Nothing {
    ghost use base.Fml.{ftrue};

    ghost after = { λ names about answer. ftrue };
}

/// The step that adds a snapshot.
struct Addition;

impl Play<Snapshot, u64> for Addition {
    ghost use Rattle.live_board.specs.Histories.{Adds};

    ghost then = { Adds };
}

impl Plain<Snapshot, Snapshot, u64> for Addition {
    ghost use Rattle.std.specs.Prelude.{None};

    ghost ask = { λ snapshot. snapshot };

    ghost state = { λ snapshot. None };
}

/// The word of a board's history, which its head alone changes.
type HeadWord = Word<Snapshot, u64, HistoryRule>;

/// A prefix of the history of a board.
#[derive(Drop)]
pub struct History {
    count: u64,
    seen: Seen<Snapshot, u64, HistoryRule>,
}

impl Model for History {
    ghost use Rattle.std.specs.Prelude.{◌≡◌, length};
    ghost use Rattle.live_board.specs.Snapshots.{Known};
    ghost use Rattle.live_board.specs.Counts.{NeverFalls};

    ghost Value = { Known };

    ghost view = { λ h. record { list = h.seen.log; board = h.seen.book } };

    ghost invariant = { λ h. (h.count ≡ length h.seen.log) × NeverFalls h.seen.log };
}

/// The one end at which a board's history grows, which its publisher holds: whatever is added to the history is known here.
///
/// Clauses see it as the whole history, and its board.
#[derive(Drop)]
pub struct Head {
    word: HeadWord,
    all: History,
    ghost named: { word ≡ head_of all.board },
}

impl Model for Head {
    ghost use Rattle.live_board.specs.Snapshots.{Known};

    ghost Value = { Known };

    ghost view = { λ h. h.all };
}

/// The head of a new board's history.
pub fn new_history() -> Head
    ensures { result.list ≡ [] }
{
    let (seen, mut first, _second) = Seen::open(Start::alone(), 0, 0);
    Head {
        word: Word::tracked(0, &mut first),
        all: History { count: 0, seen },
    }
}

impl Head {
    /// The whole history.
    pub fn all(&self) -> &History
        ensures { result.now ≡ self.now }
    {
        &self.all
    }

    /// Whether the history is as long as can be counted.
    pub fn is_full(&self) -> bool
        ensures { IsTrue result ↔ (length self.now.list ≡ 2 ^ 64 - 1) }
    {
        self.all.count == u64::MAX
    }

    /// Adds a snapshot. The head alone adds any: had somebody else, this would wait for good.
    pub fn add<R: Wait>(&mut self, rt: &R, snapshot: &Snapshot)
        requires room { length self.old.list < 2 ^ 64 - 1 }
        requires rises { NeverFalls (self.old.list ++ snapshot.now ∷ []) }
        ensures list { self.new.list ≡ self.old.list ++ snapshot.now ∷ [] }
        ensures board { self.new.board ≡ self.old.board }
    {
        self.all = self.all.and(rt, &self.word, snapshot);
    }
}

impl History {
    /// A copy.
    pub fn again(&self) -> History
        ensures same { result ≡ self.now }
        ensures rises { NeverFalls result.list }
    {
        History {
            count: self.count,
            seen: self.seen.again(),
        }
    }

    /// A copy of the longer of two beginnings of one history.
    #[tactic(auto, using(crate::proofs::Fronts::begins_itself))]
    pub fn longer(&self, other: &History) -> History
        requires { other.now.board ≡ self.now.board }
        ensures board { result.board ≡ self.now.board }
        ensures this { IsBeginning self.now.list result.list }
        ensures that { IsBeginning other.now.list result.list }
    {
        match self.after(other) {
            Some(this) => this,
            None => other.again(),
        }
    }

    /// A copy. `None` where the other one, a prefix of the same history, is longer.
    pub fn after(&self, other: &History) -> Option<History>
        requires { other.now.board ≡ self.now.board }
        ensures same { IfSome result (λ h. h ≡ self.now) }
        ensures begins { IfSome result (λ h. IsBeginning other.now.list h.list) }
        ensures rises { IfSome result (λ h. NeverFalls h.list) }
        ensures shorter { IfNone result (IsBeginning self.now.list other.now.list × (length self.now.list < length other.now.list)) }
    {
        let mut both = self.seen.again();
        both.learn(&other.seen);
        if self.count < other.count {
            None
        } else {
            Some(self.again())
        }
    }

    /// The history with one more snapshot.
    fn and<R: Wait>(&self, rt: &R, head: &HeadWord, snapshot: &Snapshot) -> History
        requires head { head.now ≡ head_of self.now.board }
        requires room { length self.now.list < 2 ^ 64 - 1 }
        requires rises { NeverFalls (self.now.list ++ snapshot.now ∷ []) }
        ensures { (result.list ≡ self.now.list ++ snapshot.now ∷ []) × (result.board ≡ self.now.board) }
    {
        let count = self.count;
        for _ in rt.forever() {
            let mut seen = self.seen.again();
            let mut offer: Offer<Snapshot, u64, HistoryRule, Nothing> = seen.plain::<
                Nothing,
                Snapshot,
                Addition,
            >(snapshot);
            let mut pen = seen.no_pen();
            let found = head.compare_exchange::<Addition, Nothing>(
                count,
                count + 1,
                &mut seen,
                &mut offer,
                &mut pen,
            );
            if found == count {
                return History {
                    count: count + 1,
                    seen,
                };
            }
        }
        unreachable!()
    }
}
