//! The faults that metrics tell of, by their names.
ghost use Rattle.std.specs.Prelude.{◌≡◌, None, fold, option_copied, option_map, map, replicate};
ghost use Rattle.std.specs.Prelude.{IfSome};
ghost use Rattle.program.specs.Faulted.{last_fault, name_of, named_in, rendition_of};

use crate::bulletin::{Bulletin, RENDITIONS};
use commands::LadderPackingFault;
use pipeline::PackFault;

/// The names of the faults that renditions ended by, by rendition: those that were told, and another one, if any.
pub fn faults_of(told: &Bulletin, last: Option<PackFault>) -> [Option<&'static str>; RENDITIONS]
    ensures { map option_copied result ≡ named_in (fold named_in (replicate RENDITIONS None) told.now.faults) last }
{
    let mut faults = [None; RENDITIONS];
    for fault in told.faults {
        name_fault(&mut faults, fault);
    }
    name_fault(&mut faults, last);
    faults
}

/// Names a fault beside its rendition.
#[tactic(auto, using(crate::proofs::Naming::named_set, crate::proofs::Naming::named_past, crate::proofs::Naming::named_none))]
fn name_fault(faults: &mut [Option<&'static str>], fault: Option<PackFault>)
    ensures { map option_copied faults.new ≡ named_in (map option_copied faults.old) fault }
{
    let Some(fault) = fault else {
        return;
    };
    let Some((rendition, name)) = faulted(fault) else {
        return;
    };
    if rendition < faults.len() {
        faults[rendition] = Some(name);
    }
}

/// The fault of a rendition, or of the ladder, that the last metrics tell of a run that ended so.
pub fn last_of(fault: Option<&LadderPackingFault>) -> Option<PackFault>
    ensures { result ≡ last_fault (option_map (λ f. f.now) fault.entry) }
{
    match fault {
        Some(LadderPackingFault::Packing(fault)) => Some(*fault),
        _ => None,
    }
}

/// The rendition that ended by a fault, and its name.
fn faulted(fault: PackFault) -> Option<(usize, &'static str)>
    ensures rendition { option_map (λ named. named.0) result ≡ rendition_of fault }
    ensures name { IfSome result (λ named. named.1.now ≡ name_of fault) }
{
    match fault {
        PackFault::Read(r) => Some((r, "Read")),
        PackFault::ReadLimit(r) => Some((r, "ReadLimit")),
        PackFault::NoProgram(r) => Some((r, "NoProgram")),
        PackFault::NoStart(r) => Some((r, "NoStart")),
        PackFault::LongSegment(r, _) => Some((r, "LongSegment")),
        PackFault::BigSegment(r, _) => Some((r, "BigSegment")),
        PackFault::Limit(r) => Some((r, "Limit")),
        PackFault::Held(r, _) => Some((r, "Held")),
        PackFault::Settings | PackFault::Outlet | PackFault::NoMemory => None,
    }
}
