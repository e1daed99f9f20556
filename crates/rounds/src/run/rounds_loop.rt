//! From round to round, until everything is given.

ghost use Rattle.std.specs.Prelude.{◌≡◌, ◌+◌, ◌<◌, ◌≤◌, IfErr, IfOk, OnErr, OnOk, length, sum};
ghost use Rattle.ingest.specs.Lanes.{HasBroken};
ghost use Rattle.live_board.specs.Counts.{counts_shown};
ghost use Rattle.rounds.specs.Begun.{keys_of};
ghost use Rattle.rounds.specs.Courses.{HasGoodEnds, IsAllGiven, IsSomeBetween, NoneClosed, ReadsNone, StaysBetween, StopsBetween};
ghost use Rattle.rounds.specs.Courses.{HasEndDue, IsRun, ReadsMore, ReadsOn, ReadsShort, turns_in};
ghost use Rattle.rounds.specs.Gated.{IsGatesWord, IsUnheld};
ghost use Rattle.rounds.specs.Heralds.{AllHeard, AreHeard, TellsAll, complete_in};
ghost use Rattle.rounds.specs.Paces.{HasEnough, ReadsEnough, StopsSoon, wanted};
ghost use Rattle.rounds.specs.Permitted.{ShowsLetThrough};
ghost use Rattle.rounds.specs.Rounds.{SwapsOut, SwapsShort, TakesClosed};
ghost use Rattle.rounds.specs.Showing.{counts_of};
ghost use Rattle.rounds.specs.declared.run.telling.TheConstants.{RENDITIONS};

use crate::round::starting::run_round;
use crate::run::between::BetweenRounds;
use crate::run::complete::complete_by;
use crate::run::herald::Herald;
use crate::run::pace::Pace;
use crate::run::reading::any_closed;
use crate::run::setup::Setup;
use crate::run::telling::Telling;
use cutter::Spool;
use item_io::{Outlet, PIECE, Source};
use ladder_items::{PackFault, Settings};
use segment_job::Keys;
use std::alloc::{AllocError, Global};
use std::sync::Wait;
use std::thread::Threads;
use work_desk::Gate;

/// Tells the faults that stand, and gives the ends that are due.
fn give_due_ends<'r, S: Source, O: Outlet, R: Wait, H: Herald>(
    alloc: Global,
    settings: &Settings,
    between: BetweenRounds<'r, S, O, R>,
    telling: &mut Telling<'_, H>,
) -> (BetweenRounds<'r, S, O, R>, Result<(), PackFault>)
    requires on { IsSomeBetween S.input O.output settings.now between.broadcast }
    ensures ok { OnOk result.1 (StaysBetween S.input O.output settings.now between.entry.broadcast result.0.broadcast) }
    ensures err { IfErr result.1 (StopsBetween S.input O.output settings.now between.entry.broadcast result.0.broadcast) }
    ensures unheld { IfErr result.1 IsUnheld }
    ensures shown { counts_shown result.0.broadcast.held.publisher.list ≡ counts_shown between.entry.broadcast.held.publisher.list }
    ensures none_read { ReadsNone between.entry.broadcast.course result.0.broadcast.course }
    ensures playlists { result.0.broadcast.course.playlists ≡ between.entry.broadcast.course.playlists }
    ensures ended { OnOk result.1 (HasGoodEnds settings.now result.0.broadcast.course) }
    ensures none { OnErr result.1 (HasEndDue settings.now between.entry.broadcast.course) }
    ensures books { result.0.books ≡ between.entry.books }
    ensures told { TellsAll (H.was_told telling.old.herald.now) RENDITIONS telling.old.told between.entry.broadcast.course.lanes.items telling.new.told }
    ensures herald { telling.new.herald ≡ telling.old.herald }
{
    let BetweenRounds {
        mut broadcast,
        books,
    } = between;
    broadcast.course.tell_faults(telling);
    let answer = broadcast.give_ends(alloc, settings, telling);
    (BetweenRounds { broadcast, books }, answer)
}

/// Swaps the spools of all renditions for the spare ones.
fn swap_spools<'r, S: Source, O: Outlet, R: Wait>(
    alloc: Global,
    between: BetweenRounds<'r, S, O, R>,
    spare: Vec<Spool>,
) -> (BetweenRounds<'r, S, O, R>, Result<Vec<Spool>, AllocError>)
    requires each { length spare.items ≡ length between.broadcast.course.lanes.items }
    ensures ok { IfOk result.1 (λ full. SwapsOut S.input O.output between.entry.broadcast.course result.0.broadcast.course full.items) }
    ensures err { OnErr result.1 (SwapsShort S.input O.output between.entry.broadcast.course result.0.broadcast.course) }
    ensures same { result.0.broadcast.course ≡ record between.entry.broadcast.course { lanes = result.0.broadcast.course.lanes } }
    ensures each { IfOk result.1 (λ full. length full.items ≡ length between.entry.broadcast.course.lanes.items) }
    ensures empty { OnOk result.1 (NoneClosed result.0.broadcast.course.lanes.items) }
    ensures taken { IfOk result.1 (λ full. TakesClosed between.entry.broadcast.course.lanes.items result.0.broadcast.course.lanes.items full.items) }
    ensures held { result.0.broadcast.held.publisher ≡ between.entry.broadcast.held.publisher }
    ensures books { result.0.books ≡ between.entry.books }
{
    let BetweenRounds {
        mut broadcast,
        books,
    } = between;
    let swapped = broadcast.course.swap_all(alloc, spare);
    (BetweenRounds { broadcast, books }, swapped)
}

/// Reads until there is something for a round, while no round is under way.
fn read_between<'r, S: Source, O: Outlet, R: Wait, H: Herald>(
    rt: &R,
    pace: Pace,
    between: BetweenRounds<'r, S, O, R>,
    telling: &mut Telling<'_, H>,
) -> (BetweenRounds<'r, S, O, R>, Result<(), AllocError>)
    requires on { IsRun S.input O.output between.broadcast.course }
    ensures ok { OnOk result.1 (ReadsOn S.input O.output between.entry.broadcast.course result.0.broadcast.course) }
    ensures err { OnErr result.1 (ReadsShort S.input O.output between.entry.broadcast.course result.0.broadcast.course) }
    ensures playlists { OnOk result.1 (result.0.broadcast.course.playlists ≡ between.entry.broadcast.course.playlists) }
    ensures further { OnOk result.1 (ReadsMore between.entry.broadcast.course result.0.broadcast.course) }
    ensures enough { OnOk result.1 (ReadsEnough S.tells pace 0 between.entry.broadcast.course result.0.broadcast.course) }
    ensures some { OnOk result.1 (HasEnough 1 result.0.broadcast.course) }
    ensures soon { OnOk result.1 (turns_in between.entry.broadcast.course < turns_in result.0.broadcast.course
        → StopsSoon S.input O.output pace between.entry.broadcast.course result.0.broadcast.course) }
    ensures none { OnErr result.1 (HasEnough (wanted pace 0 0) between.entry.broadcast.course → ⊥) }
    ensures broken { OnErr result.1 (HasBroken result.0.broadcast.course.lanes.items) }
    ensures held { result.0.broadcast.held.publisher ≡ between.entry.broadcast.held.publisher }
    ensures books { result.0.books ≡ between.entry.books }
    ensures told { OnOk result.1 (AreHeard (H.was_told telling.old.herald.now) RENDITIONS telling.old.told between.entry.broadcast.course.lanes.items
        → AreHeard (H.was_told telling.old.herald.now) RENDITIONS telling.new.told result.0.broadcast.course.lanes.items) }
    ensures herald { telling.new.herald ≡ telling.old.herald }
{
    let BetweenRounds {
        mut broadcast,
        books,
    } = between;
    let mut buffer = [0; PIECE];
    let read = broadcast.course.read_more(rt, pace, &mut buffer, telling);
    (BetweenRounds { broadcast, books }, read)
}

/// Tells how many segments are complete as a round begins.
fn tell_completed<'r, S: Source, O: Outlet, R: Wait, H: Herald>(
    herald: &H,
    between: &BetweenRounds<'r, S, O, R>,
    full: &Vec<Spool>,
)
    ensures { H.was_completed herald.now (complete_in between.now.broadcast.course.playlists.items full.now.items) }
{
    herald.completed(complete_by(&between.broadcast.course.playlists, full));
}

/// Goes from round to round until everything is given.
///
/// Before each round, the ends are given of the renditions that have nothing left to give. Where nothing is closed for a round
/// then, it reads until something is. A rendition's fault is told as soon as it stands.
pub fn run_rounds<
    'r,
    S: Source + Drop,
    O: Outlet + Drop,
    G: Gate + Sync,
    R: Threads + Wait + Sync,
    H: Herald,
>(
    setup: &Setup<'_, G, R>,
    keys: &[Keys],
    spare: Vec<Spool>,
    between: BetweenRounds<'r, S, O, R>,
    herald: &H,
) -> (BetweenRounds<'r, S, O, R>, Result<(), PackFault>)
    requires keys { keys.now ≡ keys_of setup.now.settings.now }
    requires each { length spare.items ≡ length setup.now.settings.now.renditions }
    requires on { IsSomeBetween S.input O.output setup.now.settings.now between.broadcast }
    requires workers { length between.books.workers.items ≡ setup.now.workers }
    requires first { between.books.rounds ≡ 0 }
    ensures ok { OnOk result.1 (StaysBetween S.input O.output setup.now.settings.now between.entry.broadcast result.0.broadcast) }
    ensures err { IfErr result.1 (StopsBetween S.input O.output setup.now.settings.now between.entry.broadcast result.0.broadcast) }
    ensures held { IfErr result.1 (IsGatesWord (G.stops setup.now.gate.now)) }
    ensures let_through { ShowsLetThrough (G.lets setup.now.gate.now) between.entry.broadcast.held.publisher.list result.0.broadcast.held.publisher.list }
    ensures all { OnOk result.1 (IsAllGiven result.0.broadcast.course) }
    ensures right { OnOk result.1 (result.0.books.right + sum (counts_of between.entry.broadcast.course.playlists.items)
        ≤ between.entry.books.right + sum (counts_of result.0.broadcast.course.playlists.items)) }
    ensures workers { OnOk result.1 (length result.0.books.workers.items ≡ setup.now.workers) }
    ensures told { OnOk result.1 (AllHeard (H.was_told herald.now) result.0.broadcast.course.lanes.items) }
{
    let mut between = between;
    let mut spare = spare;
    let mut telling = Telling::new(herald);
    for _ in setup.rt.forever() {
        let (now, answer) = give_due_ends(setup.alloc, setup.settings, between, &mut telling);
        between = now;
        if let Err(fault) = answer {
            return (between, Err(fault));
        }
        if !any_closed(&between.broadcast.course.lanes) {
            if between.broadcast.course.rests() {
                break;
            }
            let (now, read) = read_between(setup.rt, setup.pace(), between, &mut telling);
            between = now;
            if let Err(_) = read {
                return (between, Err(PackFault::NoMemory));
            }
            continue;
        }
        let (now, swapped) = swap_spools(setup.alloc, between, spare);
        between = now;
        let Ok(full) = swapped else {
            return (between, Err(PackFault::NoMemory));
        };
        tell_completed(herald, &between, &full);
        let (now, answer) = run_round(setup, keys, &full, between, herald);
        between = now;
        if let Err(fault) = answer {
            return (between, Err(fault));
        }
        spare = full;
    }
    (between, Ok(()))
}
