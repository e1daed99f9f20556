//! Cuts the stream by plans and by spools.

ghost use Rattle.std.specs.Prelude.{◌≡◌, ◌+◌, ◌≤◌, ◌<◌, ◌^◌, [], length};

use crate::stream::{PACKETS, packet};
use cutter::{CutFault, Cutter, Plan, Spool, SpoolCutter};
use fixture_standard_stream::SETTINGS;
use std::alloc::Global;
use std::mem;

/// How many bytes the body of a plan has, if there is one. It is let go, or kept.
fn note(plan: Option<Plan>, keeps: bool, kept: &mut Vec<Plan>) -> Result<u64, CutFault> {
    let Some(plan) = plan else {
        return Ok(0);
    };
    let bytes = plan.body.len() as u64;
    if !keeps {
        drop(plan);
        return Ok(bytes);
    }
    match kept.push(plan) {
        Ok(()) => Ok(bytes),
        Err(_) => Err(CutFault::NoMemory),
    }
}

/// How many bytes the body has of the plan that a packet closes, if it does.
fn push(cutter: &mut Cutter, n: u64, keeps: bool, kept: &mut Vec<Plan>) -> Result<u64, CutFault>
    requires { length cutter.old.list < 2 ^ 63 }
    ensures { length cutter.new.list ≤ length cutter.old.list + 1 }
{
    note(cutter.push(&packet(n))?, keeps, kept)
}

/// Pushes all packets, and tells how many bytes the bodies have.
fn push_all(cutter: &mut Cutter, keeps: bool, kept: &mut Vec<Plan>) -> Result<u64, CutFault>
    requires { cutter.old.list ≡ [] }
{
    let mut bytes = 0u64;
    for n in 0..PACKETS {
        bytes = bytes.wrapping_add(push(cutter, n, keeps, kept)?);
    }
    Ok(bytes.wrapping_add(note(cutter.finish()?, keeps, kept)?))
}

/// How many bytes the bodies have, of plans that are let go at once, or kept.
pub fn by_plans(alloc: Global, keeps: bool) -> Result<u64, CutFault> {
    let mut cutter = Cutter::new(alloc, 0, SETTINGS);
    let mut kept: Vec<Plan> = Vec::new(alloc);
    push_all(&mut cutter, keeps, &mut kept)
}

fn bytes_of(spool: &Spool) -> u64 {
    let mut bytes = 0u64;
    for i in 0..spool.plans() {
        if let Some(plan) = spool.plan(i) {
            bytes = bytes.wrapping_add(plan.body.len() as u64);
        }
    }
    bytes
}

/// Turns the spool out against the spare one, and tells how many bytes the bodies in it have.
fn swap(alloc: Global, cutter: &mut SpoolCutter, spare: &mut Spool) -> Result<u64, CutFault>
    ensures { cutter.new.list ≡ cutter.old.list }
{
    match cutter.swap(mem::replace(spare, Spool::new(alloc))) {
        Ok(full) => {
            *spare = full;
            Ok(bytes_of(spare))
        }
        Err(_) => Err(CutFault::NoMemory),
    }
}

/// Pushes all packets, turns out each spool of so many plans, and tells how many bytes the bodies have.
fn spool_all(
    alloc: Global,
    cutter: &mut SpoolCutter,
    spare: &mut Spool,
    most: usize,
) -> Result<u64, CutFault>
    requires { cutter.old.list ≡ [] }
{
    let mut bytes = 0u64;
    for n in 0..PACKETS {
        if cutter.push(&packet(n))? && cutter.plans() >= most {
            bytes = bytes.wrapping_add(swap(alloc, cutter, spare)?);
        }
    }
    cutter.finish()?;
    Ok(bytes.wrapping_add(swap(alloc, cutter, spare)?))
}

/// The same, of plans that stand in spools of so many.
pub fn by_spools(alloc: Global, most: usize) -> Result<u64, CutFault> {
    let mut cutter = SpoolCutter::new(alloc, 0, SETTINGS);
    let mut spare = Spool::new(alloc);
    spool_all(alloc, &mut cutter, &mut spare, most)
}
