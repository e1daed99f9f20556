ghost use Rattle.std.specs.Prelude.{◌≡◌, ◌≢◌, ◌%◌, ◌<◌, ◌^◌, ◌⊎◌, [], length, Some, None, IfOk, OnOk, IfErr, OnErr, IsSome, is_some};
ghost use Rattle.psi_tables.specs.Association.{association, programs, pat_fault, chosen};

use crate::fault::TableFault;
use crate::section::{check_frame, read_number, read_pid};
use std::alloc::{AllocError, Global};
use std::marker::Model;

/// An entry of a PAT: a program and the PID of its PMT, or program 0 and the network PID.
#[derive(Clone, Copy, Debug)]
pub struct ProgramEntry {
    program: u16,
    pid: u16,
}

/// A program association table (ISO/IEC 13818-1, 2.4.4.3, table 2-30).
#[derive(Debug, Drop)]
pub struct Pat {
    transport_stream_id: u16,
    entries: Vec<ProgramEntry>,
}

impl Model for Pat {
    ghost use Rattle.psi_tables.specs.Association.{Association};

    ghost Value = { Association };

    ghost view = { λ pat. record { transport_stream_id = pat.transport_stream_id; entries = pat.entries.items } };
}

impl Pat {
    /// Reads a section as a PAT. Each fault is told where it is the first that stands in the order of `TableFault`;
    /// want of memory only where none does, and the table has an entry.
    pub fn read(alloc: Global, section: &[u8]) -> Result<Pat, TableFault>
        ensures value { IfOk result (λ pat. pat ≡ association section.now) }
        ensures ok { OnOk result (pat_fault section.now ≡ None) }
        ensures err { IfErr result (λ fault. (pat_fault section.now ≡ Some fault) ⊎ ((pat_fault section.now ≡ None) × (fault ≡ TableFault.NoMemory))) }
        ensures scarce { IfErr result (λ fault. fault ≡ TableFault.NoMemory → (association section.now).entries ≢ []) }
    {
        check_frame(section, 12, 0x00)?;
        let (front, _) = section.split_at(section.len() - 4);
        let (_, body) = front.split_at(8);
        if !are_programs(body) {
            return Err(TableFault::BadLengths);
        }
        let transport_stream_id = read_number(section, 3);
        let entries = read_programs(alloc, body)?;
        Ok(Pat {
            transport_stream_id,
            entries,
        })
    }

    /// The transport_stream_id.
    pub fn transport_stream_id(&self) -> u16
        ensures { result ≡ self.now.transport_stream_id }
    {
        self.transport_stream_id
    }

    /// The program number and the PMT's PID of the first entry of this program or, where none is asked for, of the first
    /// entry whose program isn't 0 (program 0 names the network PID).
    pub fn choose(&self, program: Option<u16>) -> Option<(u16, u16)>
        ensures { result ≡ chosen program self.now }
    {
        self.entries
            .iter()
            .find(|entry| match program {
                None => entry.program != 0,
                Some(wanted) => entry.program == wanted,
            })
            .map(|entry| (entry.program, entry.pid))
    }
}

/// Whether these bytes are whole entries of a PAT.
fn are_programs(bytes: &[u8]) -> bool
    ensures { result ≡ is_some (programs bytes.now) }
{
    bytes.len() % 4 == 0
}

/// The entries of a PAT that these bytes are.
fn read_programs(alloc: Global, bytes: &[u8]) -> Result<Vec<ProgramEntry>, AllocError>
    requires few { length bytes.now < 4096 }
    requires whole { IsSome (programs bytes.now) }
    ensures ok { IfOk result (λ entries. programs bytes.now ≡ Some entries.items) }
    ensures scarce { OnErr result (programs bytes.now ≢ Some []) }
{
    let (parts, _) = bytes.as_chunks::<4>();
    let mut entries = Vec::new(alloc);
    'entry: for part in parts {
        entries.push(ProgramEntry {
            program: read_number(part, 0),
            pid: read_pid(part, 2),
        })?;
    }
    Ok(entries)
}
