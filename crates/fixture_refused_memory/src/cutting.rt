//! A cutter that is asked.

ghost use Rattle.std.specs.Prelude.{◌≡◌, ◌+◌, ◌≤◌, ◌<◌, ◌^◌, [], length};

use cutter::{CutFault, Cutter};
use fixture_standard_stream::SETTINGS;
use std::alloc::Global;

/// Pushes a packet, and tells whether it closes a plan.
fn push(cutter: &mut Cutter, packet: &[u8; 188]) -> Result<bool, CutFault>
    requires { length cutter.old.list < 2 ^ 63 }
    ensures { length cutter.new.list ≤ length cutter.old.list + 1 }
{
    Ok(cutter.push(packet)?.is_some())
}

/// Ends the stream, and tells whether there was a plan left.
fn finish(cutter: &mut Cutter) -> Result<bool, CutFault> {
    Ok(cutter.finish()?.is_some())
}

/// Pushes packets, few, and counts the plans that they close.
fn push_all(cutter: &mut Cutter, packets: &[[u8; 188]]) -> Result<usize, CutFault>
    requires new { cutter.old.list ≡ [] }
    requires few { length packets.now ≤ 16 }
    ensures { length cutter.new.list ≤ 16 }
{
    let mut plans: usize = 0;
    for packet in packets {
        if push(cutter, packet)? {
            plans = plans.saturating_add(1);
        }
    }
    Ok(plans)
}

/// Tells of a cutter that answered this fault whether it has ended.
fn refused(cutter: &mut Cutter, fault: CutFault) -> &'static str
    requires { length cutter.old.list < 2 ^ 63 }
{
    let told = (push(cutter, &[0x47; 188]), finish(cutter));
    match (fault, told) {
        (CutFault::NoMemory, (Err(CutFault::Ended), Err(CutFault::Ended))) => "refused, then ended",
        _ => "wrong",
    }
}

/// Ends the stream behind its packets, which closed so many plans. Tells how it went.
fn end(cutter: &mut Cutter, plans: usize) -> &'static str
    requires { length cutter.old.list ≤ 16 }
{
    match finish(cutter) {
        Ok(true) if plans == 1 => "two plans",
        Err(CutFault::NoMemory) => match finish(cutter) {
            Err(CutFault::Ended) => "refused, then ended",
            _ => "wrong",
        },
        _ => "wrong",
    }
}

/// Pushes the packets, few, and ends the stream. Tells how it went.
fn cut(cutter: &mut Cutter, packets: &[[u8; 188]]) -> &'static str
    requires { cutter.old.list ≡ [] }
{
    if packets.len() > 16 {
        return "wrong";
    }
    match push_all(cutter, packets) {
        Ok(plans) => end(cutter, plans),
        Err(fault) => refused(cutter, fault),
    }
}

/// Cuts a stream of two segments.
pub(crate) fn cutting<R: Print>(rt: &R, alloc: Global, packets: &[[u8; 188]]) {
    let mut cutter = Cutter::new(alloc, 0, SETTINGS);
    let told = cut(&mut cutter, packets);
    drop(cutter);
    let _ = println!(rt; "cutter: {told}");
}
