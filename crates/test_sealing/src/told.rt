//! What is answered to a test.

ghost use Rattle.std.specs.Prelude.{◌<◌, vec_len, vec_capacity};

use cutter::PlanRef;
use flow_core::{Claim, CollectFault, Collected, Delivery, Fed, FeedFault, Obstacle, Outcome};

/// A plan, by its rendition and its number.
pub(crate) type Name = (usize, u64);

/// What a queue, a collector, a flow or a desk answers.
#[derive(Clone, Copy, Debug, PartialEq, Eq)]
pub(crate) enum Told {
    /// There is nothing to be done.
    Nothing,
    Done,
    /// Why a plan isn't fed or expected. It comes back.
    Full(Name),
    Closed(Name),
    Twice(Name),
    NoMemory(Name),
    /// The plan is the worker's.
    Claimed(usize, Name),
    /// What became of a plan that was claimed.
    Sealed(Name),
    Refused(Name),
    Held(Name),
    /// So many segments of the rendition stand without a gap.
    Came(u64),
    /// Why a segment isn't taken. It comes back.
    Stray(Name),
    Double(Name),
    Thrown,
    Shown(Name),
    /// How many plans are outstanding, whether it is closed, whether a plan waits, whether something is done.
    Seen(usize, bool, bool, bool),
    Is(bool),
    /// The number of the next plan.
    Next(u64),
}

/// Of which rendition a plan is, and its number.
pub(crate) fn name(plan: PlanRef<'_>) -> Name {
    (plan.rendition, plan.number)
}

/// What is told of a plan that is fed.
pub(crate) fn fed(answer: Result<(), FeedFault<'_>>) -> Told {
    match answer {
        Ok(()) => Told::Done,
        Err(fault) => refused(&fault),
    }
}

/// What is told of a plan that isn't fed.
fn refused(fault: &FeedFault<'_>) -> Told {
    let back = name(fault.plan());
    match fault.why() {
        Obstacle::Full => Told::Full(back),
        Obstacle::Closed => Told::Closed(back),
        Obstacle::Twice => Told::Twice(back),
        Obstacle::NoMemory => Told::NoMemory(back),
    }
}

/// What is told of a plan that is fed to a queue. A receipt for another plan is told as nothing.
pub(crate) fn queued(answer: Result<Fed<'_>, FeedFault<'_>>, plan: PlanRef<'_>) -> Told {
    match answer {
        Ok(receipt) if receipt.plan().same(plan) => Told::Done,
        Ok(_) => Told::Nothing,
        Err(fault) => fed(Err(fault)),
    }
}

/// What is told of a claim, which joins those that were made. There is room for it.
pub(crate) fn claimed<'s>(claim: Option<Claim<'s>>, claims: &mut Vec<Claim<'s>>) -> Told
    requires { vec_len claims.old < vec_capacity claims.old }
{
    let Some(claim) = claim else {
        return Told::Nothing;
    };
    let told = Told::Claimed(claim.worker(), name(claim.plan()));
    claims.push_reserved(claim);
    told
}

/// What is told of a claim that is ended: whether somebody has it.
pub(crate) fn ended(stood: bool) -> Told {
    if stood { Told::Done } else { Told::Nothing }
}

/// What is told of a delivery of a queue or a desk.
pub(crate) fn given(delivery: &Delivery<'_>) -> Told {
    let (rendition, number) = (delivery.rendition(), delivery.number());
    match delivery.outcome() {
        Outcome::Sealed(sealed) => Told::Sealed((rendition, sealed.plan().number)),
        Outcome::Refused => Told::Refused((rendition, number)),
        Outcome::Held => Told::Held((rendition, number)),
    }
}

/// What is told of a segment that a collector or a flow takes or gives back.
pub(crate) fn received(answer: &Result<Collected, CollectFault<'_>>) -> Told {
    match answer {
        Ok(collected) => Told::Came(collected.ready),
        Err(CollectFault::Stray(segment)) => Told::Stray(name(segment.plan())),
        Err(CollectFault::Double(segment)) => Told::Double(name(segment.plan())),
        Err(CollectFault::NoMemory(segment)) => Told::NoMemory(name(segment.plan())),
    }
}
