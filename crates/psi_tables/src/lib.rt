//! Program-specific information of an MPEG-2 transport stream (ISO/IEC 13818-1, 2.4.4): CRC_32, the sections that
//! packets carry, the program association and program map tables that sections carry, the tables in force, and the head
//! that brings them to a segment.
#![tactic(auto)]

mod assembler;
mod choice;
mod crc;
mod fault;
mod gather;
mod laws;
mod next;
mod pat;
mod pmt;
mod section;
mod segment_head;
mod tables;
mod watch;

pub use assembler::Assembler;
pub use crc::crc_32;
pub use fault::TableFault;
pub use laws::{
    crc_is_the_remainder, crc_of_a_closed_message, gathered_since_the_last_change,
    length_of_a_head, one_head_begins_bytes, sections_are_whole, sections_only_grow,
    tables_hang_on_earlier_packets, tables_in_force_are_good,
};
pub use pat::{Pat, ProgramEntry};
pub use pmt::{Pmt, StreamEntry};
pub use section::{read_length, read_number, read_pid};
pub use segment_head::{PAYLOAD, append_section, head, pat_section, pmt_packets};
pub use tables::Tables;
pub use watch::Watch;
