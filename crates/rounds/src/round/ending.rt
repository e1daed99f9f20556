//! The calling thread's part of a round from its start to its end, and how the round's numbers get into the books.

ghost use Rattle.std.specs.Prelude.{◌≡◌, ◌+◌, ◌<◌, ◌^◌, ℕ, IfErr, OnOk, length, slice_index_or, sum};
ghost use Rattle.rounds.specs.Gated.{IsGatesWord};
ghost use Rattle.rounds.specs.Paces.{ReadsForNext, pace_in};
ghost use Rattle.rounds.specs.Permitted.{AreSpoolsPlanned, ShowsPermitted};
ghost use Rattle.rounds.specs.Rounds.{IsBroken, IsDriven, IsSomeFull};
ghost use Rattle.work_desk.specs.Permits.{AreKnownByNumber, LetsOnly};

use crate::round::driving::collector_behind;
use crate::round::machine::Round;
use crate::round::permitted_broadcast::PermittedBroadcast;
use crate::round::sealer::Sealer;
use crate::round::taker::Taker;
use crate::run::between::BetweenRounds;
use crate::run::setup::Setup;
use cutter::Spool;
use item_io::{Outlet, Source};
use ladder_items::PackFault;
use std::sync::Wait;
use std::sync::ledger::Ledger;
use work_desk::{Desk, Gate, Pass, Permit};

/// A round that the calling thread has driven to its end.
#[derive(Drop)]
pub struct EndedRound<'r, S, O, M: Ledger, R: Wait> {
    pub between: BetweenRounds<'r, S, O, R>,
    pub answer: Result<(), PackFault>,
    pub taker: Taker<M>,
}

/// Does the calling thread's part of a round, taking and returning by value what it changes.
pub fn driven<'s, 'r, S: Source, O: Outlet, G: Gate, L: Ledger, M: Ledger, P: Permit, R: Wait>(
    setup: &Setup<'_, G, R>,
    spools: &'s [Spool],
    desk: &Desk<'s, L, M, P>,
    pass: Pass<M>,
    between: BetweenRounds<'r, S, O, R>,
) -> EndedRound<'r, S, O, M, R>
    requires only { LetsOnly (G.lets setup.now.gate.now) P.permits }
    requires planned { AreSpoolsPlanned P.plans spools.now }
    requires known { AreKnownByNumber P.plans }
    requires shown { ShowsPermitted P.permits between.broadcast.held.publisher.list }
    requires each { length spools.now ≡ length setup.now.settings.now.renditions }
    requires unused { pass.count ≡ 0 }
    requires on { IsSomeFull S.input O.output setup.now.settings.now spools.now between.broadcast }
    ensures ok { OnOk result.answer (IsDriven S.input O.output setup.now.settings.now spools.now (pace_in setup.now)
        between.entry.broadcast 0 result.between.broadcast result.taker.right) }
    ensures err { IfErr result.answer (IsBroken S.input O.output setup.now.settings.now spools.now between.entry.broadcast result.between.broadcast) }
    ensures held { IfErr result.answer (IsGatesWord (G.stops setup.now.gate.now)) }
    ensures enough { OnOk result.answer (ReadsForNext S.tells (pace_in setup.now) between.entry.broadcast.course result.between.broadcast.course) }
    ensures books { result.between.books ≡ between.entry.books }
    ensures shown { ShowsPermitted P.permits result.between.broadcast.held.publisher.list }
{
    let BetweenRounds { broadcast, books } = between;
    let taker = Taker {
        pass,
        right: 0,
        thrown: 0,
    };
    let collector = collector_behind(setup.alloc, setup.settings, &broadcast.course.playlists);
    let Ok(collector) = collector else {
        return EndedRound {
            between: BetweenRounds { broadcast, books },
            answer: Err(PackFault::NoMemory),
            taker,
        };
    };
    let sealer = Sealer {
        alloc: setup.alloc,
        gate: setup.gate,
    };
    let mut round = Round {
        desk,
        broadcast: PermittedBroadcast::over(broadcast),
        collector,
        taker,
    };
    let answer = round.drive(&sealer, setup.settings, setup.pace(), spools);
    let Round {
        broadcast,
        taker,
        ..
    } = round;
    EndedRound {
        between: BetweenRounds {
            broadcast: broadcast.into_inner(),
            books,
        },
        answer,
        taker,
    }
}

/// Closes a round: adds its numbers to the books.
pub fn closed<'r, S, O, M: Ledger, R: Wait>(
    ended: EndedRound<'r, S, O, M, R>,
    claims: &[u128],
    left: usize,
) -> (BetweenRounds<'r, S, O, R>, Result<(), PackFault>)
    requires each { length claims.now ≡ length ended.between.books.workers.items }
    requires balanced { sum claims.now ≡ ended.taker.pass.count + left }
    requires rounds { ended.between.books.rounds < 2 ^ 46 }
    ensures broadcast { result.0.broadcast ≡ ended.entry.between.broadcast }
    ensures answer { result.1 ≡ ended.entry.answer }
    ensures rounds { result.0.books.rounds ≡ ended.entry.between.books.rounds + 1 }
    ensures right { result.0.books.right ≡ ended.entry.between.books.right + ended.entry.taker.right }
    ensures thrown { result.0.books.thrown ≡ ended.entry.between.books.thrown + ended.entry.taker.thrown + left }
    ensures each { length result.0.books.workers.items ≡ length ended.entry.between.books.workers.items }
    ensures by_worker { (k : ℕ) → k < length claims.now → slice_index_or result.0.books.workers.items k 0
        ≡ slice_index_or ended.entry.between.books.workers.items k 0 + slice_index_or claims.now k 0 }
{
    let EndedRound {
        between,
        answer,
        taker,
    } = ended;
    let Taker {
        pass: _,
        right,
        thrown,
    } = taker;
    let BetweenRounds {
        broadcast,
        mut books,
    } = between;
    books.add(claims, right, u128::from(thrown) + left as u128);
    (BetweenRounds { broadcast, books }, answer)
}
