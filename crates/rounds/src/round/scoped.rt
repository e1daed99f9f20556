//! A round in a scope of threads: the workers seal at the desk, and the calling thread drives.

ghost use Rattle.std.specs.Prelude.{◌≡◌, ◌+◌, ◌<◌, ◌≤◌, ◌^◌, Err, IfErr, OnOk, length, sum, true, vec_len};
ghost use Rattle.ladder_items.specs.declared.fault.PackFault.TheVariants.{NoMemory};
ghost use Rattle.rounds.specs.Gated.{IsGatesWord};
ghost use Rattle.rounds.specs.Paces.{pace_in};
ghost use Rattle.rounds.specs.Permitted.{AreSpoolsPlanned, ShowsPermitted};
ghost use Rattle.rounds.specs.Rounds.{IsBroken, IsRound, IsSomeFull};
ghost use Rattle.work_desk.specs.Permits.{AreKnownByNumber, LetsOnly};

use crate::round::crew::{Balance, Crew};
use crate::round::ending::driven;
use crate::round::joining::joined;
use crate::run::between::BetweenRounds;
use crate::run::setup::Setup;
use cutter::Spool;
use item_io::{Outlet, Source};
use ladder_items::PackFault;
use segment_job::Keys;
use std::sync::Wait;
use std::sync::ledger::Ledger;
use std::thread::{self, JoinHandle, Threads};
use work_desk::{Closed, Desk, Gate, Permit, Tally, work};

/// Runs a round in a scope of threads, at the desk that was opened for it.
pub fn in_scope<
    's,
    'r,
    S: Source + Drop,
    O: Outlet + Drop,
    G: Gate + Sync,
    L: Ledger + Send + Sync,
    M: Ledger + Send + Sync,
    P: Permit + Send + Sync,
    R: Threads + Wait + Sync,
>(
    setup: &Setup<'_, G, R>,
    keys: &[Keys],
    spools: &'s [Spool],
    desk: &Desk<'s, L, M, P>,
    crew: Crew<L, M>,
    between: BetweenRounds<'r, S, O, R>,
) -> (BetweenRounds<'r, S, O, R>, Result<(), PackFault>)
    requires only { LetsOnly (G.lets setup.now.gate.now) P.permits }
    requires shown { ShowsPermitted P.permits between.broadcast.held.publisher.list }
    requires keys { P.keys keys.now }
    requires planned { AreSpoolsPlanned P.plans spools.now }
    requires known { AreKnownByNumber P.plans }
    requires queue { desk.now.most ≡ setup.now.settings.now.queue }
    requires paired { desk.now.pairs ≡ setup.now.pairs }
    requires by_number { desk.now.known ≡ true }
    requires each { length spools.now ≡ length setup.now.settings.now.renditions }
    requires on { IsSomeFull S.input O.output setup.now.settings.now spools.now between.broadcast }
    requires unused { crew.balance.taker.count ≡ 0 }
    requires parts { crew.balance.rest.parts + vec_len crew.workers ≡ L.parts }
    requires none { (crew.balance.rest.amount ≡ 0) × (M.parts ≡ 1) }
    requires unclaimed { (sum crew.balance.claims.items ≡ 0) × (length crew.balance.claims.items ≡ vec_len crew.workers) }
    requires booked { length crew.balance.claims.items ≡ length between.books.workers.items }
    requires rounds { between.books.rounds < 2 ^ 46 }
    ensures ok { OnOk result.1 (IsRound S.input O.output setup.now.settings.now spools.now (pace_in setup.now) between.entry result.0) }
    ensures err { IfErr result.1 (IsBroken S.input O.output setup.now.settings.now spools.now between.entry.broadcast result.0.broadcast) }
    ensures held { IfErr result.1 (IsGatesWord (G.stops setup.now.gate.now)) }
    ensures shown { ShowsPermitted P.permits result.0.broadcast.held.publisher.list }
{
    let (rt, alloc, gate) = (setup.rt, setup.alloc, setup.gate);
    thread::scope(
        thread::scope_env(),
        rt,
        |scope| -> (BetweenRounds<'_, S, O, R>, Result<(), PackFault>)
            requires stands { (length spools.now ≡ length setup.now.settings.now.renditions) × (crew.balance.taker.count ≡ 0)
                × (crew.balance.rest.amount ≡ 0) × IsSomeFull S.input O.output setup.now.settings.now spools.now between.broadcast × (M.parts ≡ 1)
                × (crew.balance.rest.parts + vec_len crew.workers ≡ L.parts) × (sum crew.balance.claims.items ≡ 0)
                × (length crew.balance.claims.items ≡ vec_len crew.workers)
                × (length crew.balance.claims.items ≡ length between.books.workers.items) × (between.books.rounds < 2 ^ 46) }
            requires only { LetsOnly (G.lets setup.now.gate.now) P.permits }
            requires asked { LetsOnly (G.lets gate.now) P.permits × P.keys keys.now }
            requires planned { AreSpoolsPlanned P.plans spools.now × AreKnownByNumber P.plans }
            requires shown { ShowsPermitted P.permits between.broadcast.held.publisher.list }
            ensures ok { OnOk result.1 (IsRound S.input O.output setup.entry.now.settings.now spools.entry.now (pace_in setup.entry.now)
                between.entry result.0) }
            ensures err { IfErr result.1 (IsBroken S.input O.output setup.entry.now.settings.now spools.entry.now between.entry.broadcast result.0.broadcast) }
            ensures held { IfErr result.1 (IsGatesWord (G.stops setup.entry.now.gate.now)) }
            ensures shown { ShowsPermitted P.permits result.0.broadcast.held.publisher.list }
        {
            let Crew { workers, balance } = crew;
            let count = workers.len();
            let mut running: Vec<JoinHandle<Tally<L>>> = Vec::new(alloc);
            for pass in workers {
                let child = scope.spawn(
                    move || -> Tally<L>
                        requires { LetsOnly (G.lets gate.now) P.permits × P.keys keys.now }
                    { work(rt, alloc, desk, pass, keys, gate) },
                );
                let Ok(child) = child else {
                    break;
                };
                if running.push(child).is_err() {
                    break;
                }
            }
            with_workers(setup, spools, desk, count, running, balance, between)
        },
    )
}

/// Drives a round at whose desk so many workers are to run, and joins them. Where fewer do, shuts the desk: those that run will end.
fn with_workers<
    's,
    'r,
    S: Source,
    O: Outlet,
    G: Gate,
    L: Ledger,
    M: Ledger,
    P: Permit,
    R: Threads + Wait,
>(
    setup: &Setup<'_, G, R>,
    spools: &'s [Spool],
    desk: &Desk<'s, L, M, P>,
    workers: usize,
    running: Vec<JoinHandle<Tally<L>>>,
    balance: Balance<L, M>,
    between: BetweenRounds<'r, S, O, R>,
) -> (BetweenRounds<'r, S, O, R>, Result<(), PackFault>)
    requires only { LetsOnly (G.lets setup.now.gate.now) P.permits }
    requires shown { ShowsPermitted P.permits between.broadcast.held.publisher.list }
    requires planned { AreSpoolsPlanned P.plans spools.now }
    requires known { AreKnownByNumber P.plans }
    requires each { length spools.now ≡ length setup.now.settings.now.renditions }
    requires on { IsSomeFull S.input O.output setup.now.settings.now spools.now between.broadcast }
    requires unused { balance.taker.count ≡ 0 }
    requires parts { balance.rest.parts + workers ≡ L.parts }
    requires none { (balance.rest.amount ≡ 0) × (M.parts ≡ 1) }
    requires unclaimed { (sum balance.claims.items ≡ 0) × (length balance.claims.items ≡ workers) }
    requires booked { length balance.claims.items ≡ length between.books.workers.items }
    requires rounds { between.books.rounds < 2 ^ 46 }
    ensures ok { OnOk result.1 (IsRound S.input O.output setup.now.settings.now spools.now (pace_in setup.now) between.entry result.0) }
    ensures err { IfErr result.1 (IsBroken S.input O.output setup.now.settings.now spools.now between.entry.broadcast result.0.broadcast) }
    ensures held { IfErr result.1 (IsGatesWord (G.stops setup.now.gate.now)) }
    ensures shown { ShowsPermitted P.permits result.0.broadcast.held.publisher.list }
{
    let rt = setup.rt;
    if running.len() != workers {
        return unbegun(between, desk.close(rt));
    }
    let Balance {
        taker,
        rest,
        claims,
    } = balance;
    let ended = driven(setup, spools, desk, taker, between);
    joined(rt, desk, running, rest, claims, ended)
}

/// A round that there was no memory to begin: its desk was closed, so that the workers that run will end.
fn unbegun<'r, S, O, R: Wait>(
    between: BetweenRounds<'r, S, O, R>,
    _closed: Closed,
) -> (BetweenRounds<'r, S, O, R>, Result<(), PackFault>)
    ensures { result ≡ (between.entry, Err NoMemory) }
{
    (between, Err(PackFault::NoMemory))
}
