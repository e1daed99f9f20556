//! A run that fits: it goes from round to round, and answers.

ghost use Rattle.std.specs.Prelude.{◌≡◌, ◌<◌, ◌≤◌, ◌^◌, ℕ, IfErr, IfOk, OnOk};
ghost use Rattle.ladder_items.specs.Ladder.{Ladder};
ghost use Rattle.ladder_items.specs.World.{HaveRoom};
ghost use Rattle.rounds.specs.Begun.{IsBegun};
ghost use Rattle.rounds.specs.Courses.{AreLeft, IsBetween};
ghost use Rattle.rounds.specs.Gated.{IsGatesWord};
ghost use Rattle.rounds.specs.Heralds.{IsHeardOf};
ghost use Rattle.rounds.specs.Permitted.{ShowsLetThrough};
ghost use Rattle.rounds.specs.Shown.{EndsFaulted, EndsPacked, FitsStart, start_at};
ghost use Rattle.item_io.specs.declared.limits.TheConstants.{READS};

use crate::giving::broadcast::Broadcast;
use crate::run::between::BetweenRounds;
use crate::run::course::Course;
use crate::run::first::First;
use crate::run::herald::Herald;
use crate::run::ran::{Ran, give_back};
use crate::run::reporting::answer_of;
use crate::run::rounds_loop::run_rounds;
use crate::run::setup::{Endpoints, Setup};
use cutter::Spool;
use item_io::{Outlet, Source};
use live_board::HeldPublisher;
use segment_job::Keys;
use std::sync::Wait;
use std::thread::Threads;
use work_desk::Gate;

/// A run before its first read, with a spare spool and the keys of each rendition.
fn set_out<'r, S: Source, O: Outlet, R: Wait>(
    rt: &'r R,
    first: First,
    endpoints: Endpoints<S, O>,
) -> (BetweenRounds<'r, S, O, R>, Vec<Spool>, Vec<Keys>)
    requires least { 1 ≤ endpoints.reads }
    requires most { endpoints.reads ≤ READS }
    requires room { HaveRoom S.input endpoints.reads endpoints.sources.items }
    requires failures { O.output.failures endpoints.outlet < 2 ^ 63 }
    ensures on { (ladder : Ladder) (workers : ℕ) → FitsStart ladder workers (start_at endpoints) → IsBegun ladder workers first →
        IsBetween S.input O.output ladder (start_at endpoints) result.0.broadcast }
    ensures shown { result.0.broadcast.held.publisher ≡ endpoints.publisher }
    ensures books { result.0.books ≡ first.books }
    ensures spare { result.1 ≡ first.spare }
    ensures keys { result.2 ≡ first.keys }
{
    let First {
        lanes,
        playlists,
        ended,
        turns,
        spare,
        keys,
        books,
    } = first;
    let Endpoints {
        sources,
        outlet,
        publisher,
        reads,
    } = endpoints;
    let course = Course {
        sources,
        lanes,
        playlists,
        ended,
        outlet,
        turns,
        reads,
    };
    let held = HeldPublisher { publisher, rt };
    let broadcast = Broadcast { course, held };
    (BetweenRounds { broadcast, books }, spare, keys)
}

/// Packs where the run fits.
pub fn pack_fitted<
    S: Source + Drop,
    O: Outlet + Drop,
    G: Gate + Sync,
    R: Threads + Wait + Sync,
    H: Herald,
>(setup: &Setup<'_, G, R>, first: First, endpoints: Endpoints<S, O>, herald: &H) -> Ran<S, O>
    requires least { 1 ≤ endpoints.reads }
    requires most { endpoints.reads ≤ READS }
    requires room { HaveRoom S.input endpoints.reads endpoints.sources.items }
    requires failures { O.output.failures endpoints.outlet < 2 ^ 63 }
    requires fits { FitsStart setup.now.settings.now setup.now.workers (start_at endpoints) }
    requires begun { IsBegun setup.now.settings.now setup.now.workers first }
    ensures ok { IfOk result.answer (EndsPacked S.input O.output setup.now.settings.now setup.now.workers (start_at endpoints) result) }
    ensures fault { IfErr result.answer (EndsFaulted S.input O.output setup.now.settings.now setup.now.workers (start_at endpoints) result) }
    ensures board { result.publisher.board ≡ endpoints.publisher.board }
    ensures held { IfErr result.answer (IsGatesWord (G.stops setup.now.gate.now)) }
    ensures let_through { ShowsLetThrough (G.lets setup.now.gate.now) endpoints.publisher.list result.publisher.list }
    ensures left { OnOk result.answer (AreLeft S.input result.sources.items) }
    ensures told { IfErr result.answer (IsHeardOf (H.was_told herald.now)) }
{
    let (between, spare, keys) = set_out(setup.rt, first, endpoints);
    let (between, answer) = run_rounds(setup, &keys, spare, between, herald);
    let BetweenRounds { broadcast, books } = between;
    if let Err(fault) = answer {
        return give_back(broadcast, Err(fault));
    }
    let answer = answer_of(
        setup.alloc,
        &broadcast.course.lanes,
        &broadcast.course.playlists,
        books,
    );
    give_back(broadcast, answer)
}
