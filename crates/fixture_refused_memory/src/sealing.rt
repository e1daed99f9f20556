//! Two workers that seal eight plans, 200 times over. Each plan is either sealed or refused, once.

use crate::sealing_run::{Told, run};
use cutter::Plan;
use fixture_standard_stream::{keys, plans};
use segment_job::Keys;
use std::alloc::Global;
use std::sync::Wait;
use std::thread::Threads;

const TIMES: u64 = 200;

/// All runs together; none where one told anything wrong, or there was no memory to begin.
fn runs<R: Threads + Wait + Sync>(
    rt: &R,
    alloc: Global,
    plans: &[Plan],
    keys: &[Keys],
) -> Option<Told> {
    let mut all = Told {
        sealed: 0,
        refused: 0,
    };
    for _ in 0..TIMES {
        let told = run(rt, alloc, plans, keys)?;
        all.sealed = all.sealed.saturating_add(told.sealed);
        all.refused = all.refused.saturating_add(told.refused);
    }
    Some(all)
}

/// Seals all plans. Tells how many were sealed and how many refused. None where there is no memory to begin, or a run told
/// anything else.
pub(crate) fn sealing<R: Threads + Wait + Print + Sync>(rt: &R, alloc: Global) -> Option<()> {
    let plans = plans(alloc)?;
    let keys = keys(alloc)?;
    let Told { sealed, refused } = runs(rt, alloc, &plans, &keys)?;
    let _ = println!(rt; "desk: {sealed} sealed, {refused} refused");
    Some(())
}
