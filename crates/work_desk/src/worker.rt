//! A worker's run.

ghost use Rattle.std.specs.Prelude.{◌≡◌, ◌⊎◌, ◌+◌, IfErr, IfNone, IfOk, IfSome, None, OnErr, OnOk, Some, true};
ghost use Rattle.work_desk.specs.Batches.{AreJobsPlanned, AreLetThrough, IsLetThrough};
ghost use Rattle.work_desk.specs.Permits.{LetsOnly};
ghost use Rattle.work_desk.specs.Readiness.{segment_in};
ghost use Rattle.work_desk.specs.Works.{IsBegun};

use crate::desk::{Desk, Job, Jobs};
use crate::gate::{Gate, Permit};
use crate::pass::{Pass, Tally};
use crate::sealing::{Asked, Begun, Means, finish_four, finish_one, finish_two};
use crate::steps::Seen;
use folder::WriteFile;
use segment_job::Keys;
use std::alloc::Global;
use std::sync::Wait;
use std::sync::ledger::Ledger;

/// A worker's whole run: it claims, seals and delivers until no more plans are fed and none waits. The keys are those of
/// each rendition, by its number.
///
/// Where more plans wait than workers are idle, it claims up to three more beside the one that it has, and seals them
/// together, which takes less time than one by one. At a desk with pairs it claims a second one wherever any waits, and a fourth.
/// Each is claimed, asked about, counted and delivered for itself.
///
/// The gate is asked when a plan was claimed, before it is sealed: what it doesn't let through is Held. Where it has a file, the segment
/// is sealed into that. Refused is a plan that there was no memory to seal, or of a rendition that has no keys, or whose file couldn't be
/// written; which, no clause says.
pub fn work<'s, L: Ledger, M: Ledger, P: Permit, G: Gate, R: Wait>(
    rt: &R,
    alloc: Global,
    desk: &Desk<'s, L, M, P>,
    pass: Pass<L>,
    keys: &[Keys],
    gate: &G,
) -> Tally<L>
    requires only { LetsOnly (G.lets gate.now) P.permits }
    requires keys { P.keys keys.now }
    ensures { result.worker ≡ pass.number }
{
    let mut pass = pass;
    let seen = serve(rt, alloc, desk, &mut pass, keys, gate);
    pass.tally(seen)
}

/// Claims, seals and delivers until no more plans are fed and none waits, and tells that it saw so.
fn serve<'s, L: Ledger, M: Ledger, P: Permit, G: Gate, R: Wait>(
    rt: &R,
    alloc: Global,
    desk: &Desk<'s, L, M, P>,
    pass: &mut Pass<L>,
    keys: &[Keys],
    gate: &G,
) -> Seen
    requires only { LetsOnly (G.lets gate.now) P.permits }
    requires keys { P.keys keys.now }
    ensures number { pass.new.number ≡ pass.old.number }
    ensures over { (result.closed ≡ true) × (result.waiting ≡ 0) }
{
    let means = Means::new(alloc, keys, gate);
    for _ in rt.forever() {
        match begin_some(rt, desk, pass, &means) {
            Ok(batch) => finish_all(rt, desk, batch),
            Err(seen) => return seen,
        }
    }
    unreachable!()
}

/// Up to four claimed plans whose segments are sealed side by side.
pub(crate) struct Batch<'s, F: WriteFile> {
    first: Option<Begun<'s, F>>,
    second: Option<Begun<'s, F>>,
    third: Option<Begun<'s, F>>,
    fourth: Option<Begun<'s, F>>,
    /// What was seen where fewer than four were claimed.
    no_more: Option<Seen>,
}

impl<'s, F: WriteFile> Batch<'s, F> {
    /// Of up to three claimed plans, where no more waited than were left to others.
    fn short(
        first: Option<Begun<'s, F>>,
        second: Option<Begun<'s, F>>,
        third: Option<Begun<'s, F>>,
        seen: Seen,
    ) -> Batch<'s, F>
        ensures first { result.first ≡ first.entry }
        ensures second { result.second ≡ second.entry }
        ensures third { result.third ≡ third.entry }
        ensures fourth { result.fourth ≡ None }
        ensures seen { result.no_more ≡ Some seen }
    {
        Batch {
            first,
            second,
            third,
            fourth: None,
            no_more: Some(seen),
        }
    }
}

/// Claims a plan, and up to three more where more wait than workers are idle, or to make a pair at a desk with pairs; and makes their
/// segments ready. None where no more plans are fed and none waits.
fn begin_some<'s, L: Ledger, M: Ledger, P: Permit, G: Gate, R: Wait>(
    rt: &R,
    desk: &Desk<'s, L, M, P>,
    pass: &mut Pass<L>,
    means: &Means<'_, G, P>,
) -> Result<Batch<'s, G::File>, Seen>
    requires only { LetsOnly (G.lets means.now.gate.now) P.permits }
    ensures number { pass.new.number ≡ pass.old.number }
    ensures none { OnErr result (pass.new.count ≡ pass.old.count) }
    ensures over { IfErr result (λ seen. (seen.closed ≡ true) × (seen.waiting ≡ 0)) }
    ensures asked { IfOk result (λ batch. IfNone batch.no_more (pass.new.count ≡ pass.old.count + 4)) }
    ensures paired { desk.now.pairs ≡ true → IfOk result (λ batch. IfSome batch.no_more (λ seen.
        (pass.new.count ≡ pass.old.count + 2) ⊎ (seen.waiting ≡ 0))) }
    ensures permitted { IfOk result (AreLetThrough P.permits P.plans) }
{
    let jobs = match desk.next_jobs(rt, pass) {
        Ok(jobs) => jobs,
        Err(seen) => return Err(seen),
    };
    let (first, more) = begin_and_claim(rt, desk, pass, means, jobs);
    let job = match more {
        Ok(job) => job,
        Err(seen) => return Ok(Batch::short(first, None, None, seen)),
    };
    let (asked, second) = begin(rt, desk, means, job);
    let jobs = match desk.more_jobs(rt, pass, asked) {
        Ok(jobs) => jobs,
        Err(seen) => return Ok(Batch::short(first, second, None, seen)),
    };
    let (third, more) = begin_and_claim(rt, desk, pass, means, jobs);
    let job = match more {
        Ok(job) => job,
        Err(seen) => return Ok(Batch::short(first, second, third, seen)),
    };
    let (_, fourth) = begin(rt, desk, means, job);
    Ok(Batch {
        first,
        second,
        third,
        fourth,
        no_more: None,
    })
}

/// Makes the segment of a claimed plan ready, and answers the job that is sealed beside it: the one that was claimed with it at a desk
/// with pairs, else one that is claimed now if more wait than workers are idle.
fn begin_and_claim<'s, L: Ledger, M: Ledger, P: Permit, G: Gate, R: Wait>(
    rt: &R,
    desk: &Desk<'s, L, M, P>,
    pass: &mut Pass<L>,
    means: &Means<'_, G, P>,
    jobs: Jobs<'s>,
) -> (Option<Begun<'s, G::File>>, Result<Job<'s>, Seen>)
    requires only { LetsOnly (G.lets means.now.gate.now) P.permits }
    requires planned { AreJobsPlanned P.plans jobs }
    ensures number { pass.new.number ≡ pass.old.number }
    ensures beside { IfSome jobs.entry.beside (λ beside. (result.1 ≡ beside) × (pass.new.count ≡ pass.old.count)) }
    ensures counted { IfNone jobs.entry.beside (OnOk result.1 (pass.new.count ≡ pass.old.count + 1)) }
    ensures uncounted { OnErr result.1 (pass.new.count ≡ pass.old.count) }
    ensures planned { IfOk result.1 (λ job. P.plans job.claim.plan) }
    ensures claim { IfSome result.0 (λ begun. begun.claim ≡ jobs.entry.job.claim) }
    ensures begun { IfSome result.0 (λ begun. IsBegun (G.lets means.now.gate.now) means.now.keys.now jobs.entry.job.claim.plan (segment_in begun.segment)) }
    ensures permitted { IsLetThrough P.permits P.plans result.0 }
{
    let Jobs { job, beside } = jobs;
    let (asked, begun) = begin(rt, desk, means, job);
    match beside {
        Some(beside) => (begun, beside),
        None => (begun, desk.more_job(rt, pass, asked)),
    }
}

/// Makes the segment of a claimed plan ready, and answers what the gate said of it. What can't be sealed is delivered at once.
fn begin<'s, L: Ledger, M: Ledger, P: Permit, G: Gate, R: Wait>(
    rt: &R,
    desk: &Desk<'s, L, M, P>,
    means: &Means<'_, G, P>,
    job: Job<'s>,
) -> (Asked, Option<Begun<'s, G::File>>)
    requires only { LetsOnly (G.lets means.now.gate.now) P.permits }
    requires planned { P.plans job.claim.plan }
    ensures claim { IfSome result.1 (λ begun. begun.claim ≡ job.entry.claim) }
    ensures begun { IfSome result.1 (λ begun. IsBegun (G.lets means.now.gate.now) means.now.keys.now job.entry.claim.plan (segment_in begun.segment)) }
    ensures permitted { IsLetThrough P.permits P.plans result.1 }
{
    let (asked, made) = means.begin(rt, desk.shelf(), job);
    match made {
        Ok(begun) => (asked, Some(begun)),
        Err(away) => {
            desk.hand_in(rt, away.into_worked());
            (asked, None)
        }
    }
}

/// Seals what was begun, side by side, and delivers it. All of it was let through.
fn finish_all<'s, L: Ledger, M: Ledger, P: Permit, F: WriteFile, R: Wait>(
    rt: &R,
    desk: &Desk<'s, L, M, P>,
    batch: Batch<'s, F>,
)
    requires { AreLetThrough P.permits P.plans batch }
{
    let Batch {
        first,
        second,
        third,
        fourth,
        no_more: _,
    } = batch;
    match (first, second, third, fourth) {
        (Some(first), Some(second), Some(third), Some(fourth)) => {
            let (one, two, three, four) = finish_four(first, second, third, fourth);
            desk.hand_in(rt, one);
            desk.hand_in(rt, two);
            desk.hand_in(rt, three);
            desk.hand_in(rt, four);
        }
        (first, second, third, fourth) => {
            finish_pair(rt, desk, first, second);
            finish_pair(rt, desk, third, fourth);
        }
    }
}

/// Seals what was begun of two, side by side where both were, and delivers it.
fn finish_pair<'s, L: Ledger, M: Ledger, P: Permit, F: WriteFile, R: Wait>(
    rt: &R,
    desk: &Desk<'s, L, M, P>,
    first: Option<Begun<'s, F>>,
    second: Option<Begun<'s, F>>,
)
    requires first { IsLetThrough P.permits P.plans first }
    requires second { IsLetThrough P.permits P.plans second }
{
    match (first, second) {
        (Some(first), Some(second)) => {
            let (one, two) = finish_two(first, second);
            desk.hand_in(rt, one);
            desk.hand_in(rt, two);
        }
        (Some(alone), None) | (None, Some(alone)) => {
            desk.hand_in(rt, finish_one(alone));
        }
        (None, None) => {}
    }
}
