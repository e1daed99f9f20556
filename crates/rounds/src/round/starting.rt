//! Starts a round: opens its desk, and a scope of threads to work at it.

ghost use Rattle.std.specs.Prelude.{◌≡◌, ◌<◌, ◌^◌, IfErr, OnOk, length};
ghost use Rattle.rounds.specs.Begun.{keys_of};
ghost use Rattle.rounds.specs.Gated.{IsGatesWord};
ghost use Rattle.rounds.specs.Heralds.{complete_in};
ghost use Rattle.rounds.specs.Paces.{pace_in};
ghost use Rattle.rounds.specs.Permitted.{AreSpoolsPlanned, ShowsLetThrough, ShowsPermitted};
ghost use Rattle.rounds.specs.Rounds.{HasDueEnds, IsBroken, IsRound, IsSomeFull};
ghost use Rattle.work_desk.specs.Permits.{AreKnownByNumber, LetsOnly};

use crate::round::crew::{Balance, Crew};
use crate::round::scoped::in_scope;
use crate::run::between::BetweenRounds;
use crate::run::books::no_counts;
use crate::run::complete::closed_of;
use crate::run::herald::Herald;
use crate::run::setup::Setup;
use cutter::Spool;
use item_io::{Outlet, Source};
use ladder_items::PackFault;
use segment_job::Keys;
use std::marker::Brand;
use std::sync::Wait;
use std::sync::ledger::{Blank, Ledger};
use std::thread::Threads;
use work_desk::{Desk, Gate, Opened, Permit};

/// Runs a round: the workers seal the plans of the full spools, which are given in sequence, and meanwhile what is ready is read
/// for the next round. The ends that were due have been given, and the herald was told how many segments are complete. No more
/// buffers stay on the shelf than the round has segments.
pub fn run_round<
    'r,
    S: Source + Drop,
    O: Outlet + Drop,
    G: Gate + Sync,
    R: Threads + Wait + Sync,
    H: Herald,
>(
    setup: &Setup<'_, G, R>,
    keys: &[Keys],
    spools: &[Spool],
    between: BetweenRounds<'r, S, O, R>,
    _herald: &H,
) -> (BetweenRounds<'r, S, O, R>, Result<(), PackFault>)
    requires completed { H.was_completed _herald.now (complete_in between.broadcast.course.playlists.items spools.now) }
    requires keys { keys.now ≡ keys_of setup.now.settings.now }
    requires each { length spools.now ≡ length setup.now.settings.now.renditions }
    requires on { IsSomeFull S.input O.output setup.now.settings.now spools.now between.broadcast }
    requires ends { HasDueEnds setup.now.settings.now spools.now between.broadcast.course }
    requires workers { length between.books.workers.items ≡ setup.now.workers }
    requires rounds { between.books.rounds < 2 ^ 46 }
    ensures ok { OnOk result.1 (IsRound S.input O.output setup.now.settings.now spools.now (pace_in setup.now) between.entry result.0) }
    ensures err { IfErr result.1 (IsBroken S.input O.output setup.now.settings.now spools.now between.entry.broadcast result.0.broadcast) }
    ensures held { IfErr result.1 (IsGatesWord (G.stops setup.now.gate.now)) }
    ensures let_through { ShowsLetThrough (G.lets setup.now.gate.now) between.entry.broadcast.held.publisher.list result.0.broadcast.held.publisher.list }
{
    setup.shelf.keep(setup.rt, closed_of(spools));
    let claims = Blank::new(setup.workers as u64);
    let takes = Blank::new(1);
    round_with::<S, O, G, Brand, Brand, Brand, R>(setup, keys, spools, claims, takes, between)
}

/// Runs a round with the ledgers that the caller picks, and with what may be sealed in it.
fn round_with<
    'r,
    S: Source + Drop,
    O: Outlet + Drop,
    G: Gate + Sync,
    L: Ledger + Send + Sync,
    M: Ledger + Send + Sync,
    P: Permit + Send + Sync,
    R: Threads + Wait + Sync,
>(
    setup: &Setup<'_, G, R>,
    keys: &[Keys],
    spools: &[Spool],
    claims: Blank,
    takes: Blank,
    between: BetweenRounds<'r, S, O, R>,
) -> (BetweenRounds<'r, S, O, R>, Result<(), PackFault>)
    requires only { LetsOnly (G.lets setup.now.gate.now) P.permits }
    requires shown { ShowsPermitted P.permits between.broadcast.held.publisher.list }
    requires keys { P.keys keys.now }
    requires planned { AreSpoolsPlanned P.plans spools.now }
    requires known { AreKnownByNumber P.plans }
    requires each { length spools.now ≡ length setup.now.settings.now.renditions }
    requires on { IsSomeFull S.input O.output setup.now.settings.now spools.now between.broadcast }
    requires workers { length between.books.workers.items ≡ setup.now.workers }
    requires rounds { between.books.rounds < 2 ^ 46 }
    requires claims { (claims.name ≡ L.name) × (claims.parts ≡ L.parts) × (L.parts ≡ setup.now.workers) }
    requires takes { (takes.name ≡ M.name) × (takes.parts ≡ M.parts) × (M.parts ≡ 1) }
    ensures ok { OnOk result.1 (IsRound S.input O.output setup.now.settings.now spools.now (pace_in setup.now) between.entry result.0) }
    ensures err { IfErr result.1 (IsBroken S.input O.output setup.now.settings.now spools.now between.entry.broadcast result.0.broadcast) }
    ensures held { IfErr result.1 (IsGatesWord (G.stops setup.now.gate.now)) }
    ensures shown { ShowsPermitted P.permits result.0.broadcast.held.publisher.list }
{
    let Ok(counts) = no_counts(setup.alloc, setup.workers) else {
        return (between, Err(PackFault::NoMemory));
    };
    let settings = setup.settings;
    let queue = settings.queue as usize;
    let opened = Desk::<L, M, P>::new(
        setup.alloc,
        queue,
        setup.workers,
        claims,
        takes,
        &setup.shelf,
    );
    let Ok(opened) = opened else {
        return (between, Err(PackFault::NoMemory));
    };
    let Opened {
        desk,
        workers,
        taker,
        rest,
    } = opened;
    let balance = Balance {
        taker,
        rest,
        claims: counts,
    };
    let crew = Crew { workers, balance };
    let desk = desk.with_pairs(setup.pairs).with_known_plans();
    in_scope(setup, keys, spools, &desk, crew, between)
}
