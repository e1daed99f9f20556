ghost use Rattle.std.specs.Prelude.{◌≡◌, ◌≢◌, ◌==◌, ◌+◌, ◌<◌, ◌^◌, ◌⊎◌, [], length, Some, None, IfOk, OnOk, IfErr, IsOk, IsSome};
ghost use Rattle.std.specs.List.{list_any};
ghost use Rattle.psi_tables.specs.ProgramMap.{program_map, streams, pmt_fault, video_pid, carries};

use crate::fault::TableFault;
use crate::section::{check_frame, read_length, read_number, read_pid};
use std::alloc::{AllocError, Global};
use std::marker::Model;

/// An entry of a PMT: an elementary stream and its PID.
#[derive(Clone, Copy, Debug)]
pub struct StreamEntry {
    stream_type: u8,
    pid: u16,
}

/// A program map table (ISO/IEC 13818-1, 2.4.4.8, table 2-33).
#[derive(Debug, Drop)]
pub struct Pmt {
    program: u16,
    pcr_pid: u16,
    entries: Vec<StreamEntry>,
}

impl Model for Pmt {
    ghost use Rattle.psi_tables.specs.ProgramMap.{ProgramMap};

    ghost Value = { ProgramMap };

    ghost view = { λ pmt. record { program = pmt.program; pcr_pid = pmt.pcr_pid; entries = pmt.entries.items } };
}

impl Pmt {
    /// Reads a section as a PMT. Each fault is told where it is the first that stands in the order of `TableFault`;
    /// want of memory only where none does, and the table has an entry.
    pub fn read(alloc: Global, section: &[u8]) -> Result<Pmt, TableFault>
        ensures value { IfOk result (λ pmt. pmt ≡ program_map section.now) }
        ensures ok { OnOk result (pmt_fault section.now ≡ None) }
        ensures err { IfErr result (λ fault. (pmt_fault section.now ≡ Some fault) ⊎ ((pmt_fault section.now ≡ None) × (fault ≡ TableFault.NoMemory))) }
        ensures scarce { IfErr result (λ fault. fault ≡ TableFault.NoMemory → (program_map section.now).entries ≢ []) }
    {
        check_frame(section, 16, 0x02)?;
        let (front, _) = section.split_at(section.len() - 4);
        let (_, body) = front.split_at(12);
        let descriptors = read_length(section, 10);
        let entries = read_streams(alloc, body, descriptors)?;
        Ok(Pmt {
            program: read_number(section, 3),
            pcr_pid: read_pid(section, 8),
            entries,
        })
    }

    /// The program_number.
    pub fn program(&self) -> u16
        ensures { result ≡ self.now.program }
    {
        self.program
    }

    /// The PID of the first entry with a stream type of video (01, 02, 10, 1B, 24 hexadecimal).
    pub fn video(&self) -> Option<u16>
        ensures { result ≡ video_pid self.now }
    {
        self.entries
            .iter()
            .find(|entry| matches!(entry.stream_type, 0x01 | 0x02 | 0x10 | 0x1B | 0x24))
            .map(|entry| entry.pid)
    }

    /// Whether packets of this PID belong to the program: it is an entry's or the PCR_PID.
    pub fn carries(&self, pid: u16) -> bool
        ensures { result ≡ carries self.now pid }
    {
        lists(&self.entries, pid) || pid == self.pcr_pid
    }

    /// The same table once more. One without entries takes no memory.
    pub(crate) fn copy(&self) -> Result<Pmt, AllocError>
        ensures ok { IfOk result (λ copy. copy ≡ self.now) }
        ensures none { self.now.entries ≡ [] → IsOk result }
    {
        let mut entries = Vec::new(*self.entries.allocator());
        entries.extend_from_slice(&self.entries)?;
        Ok(Pmt {
            program: self.program,
            pcr_pid: self.pcr_pid,
            entries,
        })
    }
}

/// Whether an entry has this PID.
fn lists(entries: &[StreamEntry], pid: u16) -> bool
    ensures { result ≡ list_any (λ entry. entry.pid == pid) entries.now }
{
    entries.iter().any(|entry| entry.pid == pid)
}

/// The entries of a PMT that these bytes are behind this many bytes of descriptors. Where they are none, want of memory
/// isn't told.
fn read_streams(
    alloc: Global,
    bytes: &[u8],
    descriptors: usize,
) -> Result<Vec<StreamEntry>, TableFault>
    requires few { length bytes.now < 4096 }
    requires below { descriptors < 4096 }
    ensures ok { IfOk result (λ entries. streams descriptors bytes.now ≡ Some entries.items) }
    ensures err { IfErr result (λ fault. ((fault ≡ TableFault.BadLengths) × (streams descriptors bytes.now ≡ None))
        ⊎ ((fault ≡ TableFault.NoMemory) × IsSome (streams descriptors bytes.now))) }
    ensures scarce { IfErr result (λ fault. fault ≡ TableFault.NoMemory → streams descriptors bytes.now ≢ Some []) }
{
    let mut entries = Vec::new(alloc);
    let mut refused = false;
    let mut at = descriptors;
    while at + 5 <= bytes.len() {
        let entry = StreamEntry {
            stream_type: bytes[at],
            pid: read_pid(bytes, at + 1),
        };
        refused |= entries.push(entry).is_err();
        at += 5 + read_length(bytes, at + 3);
    }
    if at != bytes.len() {
        return Err(TableFault::BadLengths);
    }
    if refused {
        return Err(TableFault::NoMemory);
    }
    Ok(entries)
}
