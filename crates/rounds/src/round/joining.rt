//! Closes a round: shuts its desk, joins its workers, and compares their shares with the desk's books.

ghost use Rattle.std.specs.Prelude.{◌≡◌, ◌+◌, ◌<◌, ◌≤◌, ◌^◌, length, sum, vec_len};

use crate::round::ending::{EndedRound, closed};
use crate::round::taker::Taker;
use crate::run::between::BetweenRounds;
use ladder_items::PackFault;
use std::sync::Wait;
use std::sync::ledger::{Ledger, Share};
use std::thread::{JoinHandle, Threads};
use work_desk::{Closed, Desk, Pass, Permit, Tally};

/// Closes a round: shuts the desk, joins the workers, and enters what each did into the books.
pub fn joined<'r, S, O, L: Ledger, M: Ledger, P: Permit, R: Threads + Wait>(
    rt: &R,
    desk: &Desk<'_, L, M, P>,
    running: Vec<JoinHandle<Tally<L>>>,
    rest: Share<L>,
    claims: Vec<u128>,
    ended: EndedRound<'r, S, O, M, R>,
) -> (BetweenRounds<'r, S, O, R>, Result<(), PackFault>)
    requires each { (vec_len running ≤ length claims.items) × (length claims.items ≡ length ended.between.books.workers.items) }
    requires none { (sum claims.items ≡ 0) × (rest.amount ≡ 0) }
    requires parts { (rest.parts + vec_len running ≡ L.parts) × (M.parts ≡ 1) }
    requires rounds { ended.between.books.rounds < 2 ^ 46 }
    ensures broadcast { result.0.broadcast ≡ ended.entry.between.broadcast }
    ensures answer { result.1 ≡ ended.entry.answer }
    ensures rounds { result.0.books.rounds ≡ ended.entry.between.books.rounds + 1 }
    ensures right { result.0.books.right ≡ ended.entry.between.books.right + ended.entry.taker.right }
    ensures each { length result.0.books.workers.items ≡ length ended.entry.between.books.workers.items }
{
    let EndedRound {
        between,
        answer,
        mut taker,
    } = ended;
    let shut = if answer.is_err() {
        desk.stop(rt)
    } else {
        desk.close(rt)
    };
    let mut rest = rest;
    let mut claims = claims;
    join_all(rt, shut, running, &mut rest, &mut claims);
    let left = settled(rt, desk, &mut rest, &mut taker);
    let ended = EndedRound {
        between,
        answer,
        taker,
    };
    closed(ended, &claims, left)
}

/// Joins the workers of a desk that was closed, notes how many segments each claimed, and merges their shares.
fn join_all<L: Ledger, R: Threads>(
    rt: &R,
    _closed: Closed,
    running: Vec<JoinHandle<Tally<L>>>,
    rest: &mut Share<L>,
    claims: &mut [u128],
)
    requires each { vec_len running ≤ length claims.old }
    requires none { sum claims.old ≡ 0 }
    ensures parts { rest.new.parts ≡ rest.old.parts + vec_len running }
    ensures amount { rest.new.amount ≡ rest.old.amount + sum claims.new }
    ensures each { length claims.new ≡ length claims.old }
{
    let mut left = running;
    while let Some(child) = left.pop() {
        let Tally {
            worker: _,
            claims: count,
            share,
        } = child.join(rt);
        rest.merge(share);
        claims[left.len()] = count as u128;
    }
}

/// Compares the desk's books with the shares of the workers and the taker. Returns how many claimed segments weren't taken.
fn settled<L: Ledger, M: Ledger, P: Permit, R: Wait>(
    rt: &R,
    desk: &Desk<'_, L, M, P>,
    rest: &mut Share<L>,
    taker: &mut Taker<M>,
) -> usize
    requires claims { rest.old.parts ≡ L.parts }
    requires takes { M.parts ≡ 1 }
    ensures total { rest.old.amount ≡ taker.new.pass.count + result }
    ensures right { taker.new.right ≡ taker.old.right }
{
    let Taker {
        pass,
        right: _,
        thrown: _,
    } = taker;
    let Pass {
        number: _,
        count: _,
        share,
    } = pass;
    desk.settle(rt, rest, share)
}
