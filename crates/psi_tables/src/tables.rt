ghost use Rattle.std.specs.Prelude.{◌≡◌, ◌≢◌, ◌<◌, ◌^◌, ◌⊎◌, [], None, map, Any, IfOk, OnErr, Decides};
ghost use Rattle.psi_tables.specs.ProgramMap.{program_map, pmt_fault, video_pid};
ghost use Rattle.psi_tables.specs.InForce.{IsGood, HasPid, is_same, tables_of, last_or};
ghost use Rattle.psi_tables.specs.State.{tables_among, TakesMemory};

use crate::choice::Choice;
use crate::fault::TableFault;
use crate::pmt::Pmt;
use std::alloc::{AllocError, Global};
use std::marker::Model;

/// Tables in force: what a PAT chose, and the PMT that came on the chosen PID, both as they were read and as a section.
#[derive(Debug, Drop)]
pub struct Tables {
    stream_id: u16,
    program: u16,
    pmt_pid: u16,
    section: Vec<u8>,
    pmt: Pmt,
}

impl Model for Tables {
    ghost use Rattle.std.specs.Prelude.{◌≡◌};
    ghost use Rattle.psi_tables.specs.ProgramMap.{program_map};
    ghost use Rattle.psi_tables.specs.InForce.{InForce, IsGood};

    ghost Value = { InForce };

    ghost view = { λ t. record { stream_id = t.stream_id; program = t.program; pmt_pid = t.pmt_pid; section = t.section.items } };

    ghost invariant = { λ t. IsGood (record {
      stream_id = t.stream_id;
      program = t.program;
      pmt_pid = t.pmt_pid;
      section = t.section.items;
    }) × (t.pmt ≡ program_map t.section.items) };
}

impl Tables {
    /// The transport_stream_id of the PAT.
    pub fn stream_id(&self) -> u16
        ensures { result ≡ self.now.stream_id }
    {
        self.stream_id
    }

    /// The program number.
    pub fn program(&self) -> u16
        ensures { result ≡ self.now.program }
    {
        self.program
    }

    /// The PID of the PMT, 13 bits.
    pub fn pmt_pid(&self) -> u16
        ensures value { result ≡ self.now.pmt_pid }
        ensures below { result < 2 ^ 13 }
    {
        self.pmt_pid
    }

    /// The PMT section as it came: a good one, of the program, of at most 1,024 bytes.
    pub fn section(&self) -> &[u8]
        ensures value { result.now ≡ self.now.section }
        ensures good { IsGood self.now }
    {
        &self.section
    }

    /// The PID of the first entry of the PMT with a stream type of video.
    pub fn video(&self) -> Option<u16>
        ensures { result ≡ video_pid (program_map self.now.section) }
    {
        self.pmt.video()
    }

    /// Whether packets of this PID belong to the program: it is an entry's of the PMT or the PCR_PID.
    pub fn carries(&self, pid: u16) -> bool
        ensures { result ≡ Rattle.psi_tables.specs.ProgramMap.carries (program_map self.now.section) pid }
    {
        self.pmt.carries(pid)
    }

    /// The same tables once more.
    pub fn copy(&self) -> Result<Tables, AllocError>
        ensures { IfOk result (λ copy. copy ≡ self.now) }
    {
        let alloc = *self.section.allocator();
        let section = Vec::from_slice(alloc, &self.section)?;
        let pmt = self.pmt.copy()?;
        Ok(Tables {
            stream_id: self.stream_id,
            program: self.program,
            pmt_pid: self.pmt_pid,
            section,
            pmt,
        })
    }

    /// Whether two tables are the same: stream, program, PMT PID, and each byte of the section.
    pub fn same(&self, other: &Tables) -> bool
        ensures test { result ≡ is_same self.now other.now }
        ensures same { Decides result (self.now ≡ other.now) }
    {
        self.section == other.section
            && self.stream_id == other.stream_id
            && self.program == other.program
            && self.pmt_pid == other.pmt_pid
    }
}

/// The tables that a section on the chosen PID puts in force, where it is a good PMT of the chosen program. Only a good PMT
/// wants memory, and one of another program only for its entries.
#[tactic(auto, unfolding(crate::specs::InForce::tables_of))]
fn read_tables(alloc: Global, choice: Choice, section: &[u8]) -> Result<Option<Tables>, AllocError>
    requires { choice.pmt_pid < 2 ^ 13 }
    ensures value { IfOk result (λ tables. tables ≡ tables_of choice section.now) }
    ensures scarce { OnErr result (pmt_fault section.now ≡ None) }
    ensures some { OnErr result (((program_map section.now).entries ≢ []) ⊎ ((program_map section.now).program ≡ choice.program)) }
{
    let pmt = match Pmt::read(alloc, section) {
        Ok(pmt) => pmt,
        Err(TableFault::NoMemory) => return Err(AllocError),
        Err(_) => return Ok(None),
    };
    if pmt.program() != choice.program {
        return Ok(None);
    }
    Ok(Some(Tables {
        stream_id: choice.stream_id,
        program: choice.program,
        pmt_pid: choice.pmt_pid,
        section: Vec::from_slice(alloc, section)?,
        pmt,
    }))
}

/// The last tables that these sections on the chosen PID put in force, if any do. Only good PMTs want memory, and only where
/// something is chosen; one of another program only for its entries.
pub(crate) fn last_tables(
    alloc: Global,
    choice: Option<Choice>,
    found: &[Vec<u8>],
) -> Result<Option<Tables>, AllocError>
    requires { HasPid choice }
    ensures value { IfOk result (λ tables. tables ≡ last_or None (tables_among choice (map (λ section. section.items) found.now))) }
    ensures scarce { OnErr result (Any (λ section. TakesMemory choice section.items) found.now) }
{
    let mut tables = None;
    let Some(choice) = choice else {
        return Ok(tables);
    };
    for section in found {
        tables = read_tables(alloc, choice, section)?.or(tables);
    }
    Ok(tables)
}
