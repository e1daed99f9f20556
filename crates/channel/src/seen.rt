//! Faults as players see them.

ghost use Rattle.std.specs.Prelude.{◌≡◌};
ghost use Rattle.channel.specs.Seen.{as_seen, within};

use ladder_items::{PackFault, Settings, seen_number};

/// A fault of a run with these settings, with the number that players see of the segment which it names: in a run that goes on
/// it goes on too.
pub fn seen_fault(fault: PackFault, settings: &Settings) -> PackFault
    ensures { result ≡ as_seen settings.now fault }
{
    let Some(number) = seen_number(fault, settings) else {
        return fault;
    };
    match fault {
        PackFault::LongSegment(r, _) => PackFault::LongSegment(r, narrow(number)),
        PackFault::BigSegment(r, _) => PackFault::BigSegment(r, narrow(number)),
        PackFault::Held(r, _) => PackFault::Held(r, narrow(number)),
        other => other,
    }
}

/// A number; the greatest that there is, where it's beyond that.
fn narrow(number: u128) -> u64
    ensures { result ≡ within number }
{
    if number > u128::from(u64::MAX) {
        return u64::MAX;
    }
    number as u64
}
