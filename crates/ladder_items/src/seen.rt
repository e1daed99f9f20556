//! The numbers that players see.
ghost use Rattle.std.specs.Prelude.{◌≡◌};
ghost use Rattle.ladder_items.specs.SeenFaults.{seen_of};
ghost use Rattle.ladder_items.specs.SeenFaults;

use crate::fault::PackFault;
use crate::settings::Settings;

/// The number that players see of the segment which a fault of a run with these settings names: in a run that goes on, it goes
/// on too. None stands for a fault that names no segment.
pub fn seen_number(fault: PackFault, settings: &Settings) -> Option<u128>
    ensures { result ≡ SeenFaults.seen_number settings.now fault }
{
    match fault {
        PackFault::LongSegment(r, n) => Some(number_in(settings, r, n)),
        PackFault::BigSegment(r, n) => Some(number_in(settings, r, n)),
        PackFault::Held(r, n) => Some(number_in(settings, r, n)),
        PackFault::Settings
        | PackFault::Read(_)
        | PackFault::ReadLimit(_)
        | PackFault::NoProgram(_)
        | PackFault::NoStart(_)
        | PackFault::Limit(_)
        | PackFault::Outlet
        | PackFault::NoMemory => None,
    }
}

/// The number of segment `n` of the run, of rendition `r`, among those of all runs.
fn number_in(settings: &Settings, r: usize, n: u64) -> u128
    ensures { result ≡ seen_of settings.now r n }
{
    if r >= settings.renditions.len() {
        return u128::from(n);
    }
    settings.renditions[r].keys.number(n)
}
