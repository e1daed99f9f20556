ghost use Rattle.std.specs.Prelude.{◌≡◌, ◌≢◌, [], None, map, Any, IfOk, OnErr};
ghost use Rattle.std.specs.List.{filter_map};
ghost use Rattle.psi_tables.specs.Association.{association, pat_fault};
ghost use Rattle.psi_tables.specs.InForce.{choice_of, last_or, same_pid};
ghost use Rattle.psi_tables.specs.State.{pid_of};

use crate::fault::TableFault;
use crate::pat::Pat;
use std::alloc::{AllocError, Global};

/// What a PAT chooses: its transport_stream_id, a program, and the PID of the program's PMT.
#[derive(Clone, Copy)]
pub(crate) struct Choice {
    pub stream_id: u16,
    pub program: u16,
    pub pmt_pid: u16,
}

/// What a section chooses, where it is a good PAT with an entry that is wanted. Only a good PAT with
/// entries wants memory.
#[tactic(auto, unfolding(crate::specs::InForce::choice_of))]
fn read_choice(
    alloc: Global,
    program: Option<u16>,
    section: &[u8],
) -> Result<Option<Choice>, AllocError>
    ensures value { IfOk result (λ choice. choice ≡ choice_of program section.now) }
    ensures scarce { OnErr result (pat_fault section.now ≡ None) }
    ensures some { OnErr result ((association section.now).entries ≢ []) }
{
    let pat = match Pat::read(alloc, section) {
        Ok(pat) => pat,
        Err(TableFault::NoMemory) => return Err(AllocError),
        Err(_) => return Ok(None),
    };
    let stream_id = pat.transport_stream_id();
    match pat.choose(program) {
        None => Ok(None),
        Some((program, pmt_pid)) => Ok(Some(Choice {
            stream_id,
            program,
            pmt_pid,
        })),
    }
}

/// The last choice of these sections, or the one before. Only good PATs with entries want
/// memory.
pub(crate) fn choose(
    alloc: Global,
    program: Option<u16>,
    before: Option<Choice>,
    found: &[Vec<u8>],
) -> Result<Option<Choice>, AllocError>
    ensures value { IfOk result (λ choice. choice ≡ last_or before (filter_map (choice_of program) (map (λ section. section.items) found.now))) }
    ensures scarce { OnErr result (Any (λ section. (pat_fault section.items ≡ None)
        × ((association section.items).entries ≢ [])) found.now) }
{
    let mut choice = before;
    for section in found {
        choice = read_choice(alloc, program, section)?.or(choice);
    }
    Ok(choice)
}

/// Whether two choices are of the same PID, or both of none.
pub(crate) fn is_same_pid(one: Option<Choice>, other: Option<Choice>) -> bool
    ensures { result ≡ same_pid one other }
{
    match (one, other) {
        (None, None) => true,
        (Some(one), Some(other)) => one.pmt_pid == other.pmt_pid,
        _ => false,
    }
}

/// The PID on which the sections of PMTs are gathered; 0 while nothing is chosen.
pub(crate) fn gathered_pid(choice: Option<Choice>) -> u16
    ensures { result ≡ pid_of choice }
{
    match choice {
        None => 0,
        Some(choice) => choice.pmt_pid,
    }
}
