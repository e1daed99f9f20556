ghost use Rattle.std.specs.Prelude.{◌≡◌, ◌+◌, ◌<◌, ◌≤◌, ◌^◌, length, Some, None, OnOk, IfErr};
ghost use Rattle.psi_tables.specs.Section.{number_at, pid_at, length_at, first_standing, frame_faults};

use crate::crc::crc_32;
use crate::fault::TableFault;

/// The 16 bits of two bytes.
pub fn read_number(bytes: &[u8], at: usize) -> u16
    requires { at + 1 < length bytes.now }
    ensures { result ≡ number_at bytes.now at }
{
    u16::from_be_bytes([bytes[at], bytes[at + 1]])
}

/// The low 13 bits of two bytes: a PID.
pub fn read_pid(bytes: &[u8], at: usize) -> u16
    requires { at + 1 < length bytes.now }
    ensures { result ≡ pid_at bytes.now at }
{
    read_number(bytes, at) % 0x2000
}

/// The low 12 bits of two bytes: a length in bytes.
pub fn read_length(bytes: &[u8], at: usize) -> usize
    requires { at + 1 < length bytes.now }
    ensures value { result ≡ length_at bytes.now at }
    ensures below { result < 4096 }
{
    usize::from(read_number(bytes, at) % 0x1000)
}

/// Looks for the faults of a section that don't lie in its entries: one of the table with this table_id, whose fields and
/// CRC_32 take this many bytes at the fewest.
pub(crate) fn check_frame(section: &[u8], fewest: usize, id: u8) -> Result<(), TableFault>
    requires { 8 ≤ fewest }
    ensures ok { OnOk result (first_standing (frame_faults fewest id section.now) ≡ None) }
    ensures err { IfErr result (λ fault. first_standing (frame_faults fewest id section.now) ≡ Some fault) }
    ensures long { OnOk result (fewest ≤ length section.now) }
    ensures short { OnOk result (length section.now ≤ 1024) }
{
    if section.len() < fewest {
        return Err(TableFault::Short);
    }
    if section[0] != id || section[1] < 0x80 {
        return Err(TableFault::WrongTable);
    }
    if crc_32(section) != 0 {
        return Err(TableFault::BadCrc);
    }
    if section[5] % 2 == 0 {
        return Err(TableFault::NotCurrent);
    }
    if section[6] != 0 || section[7] != 0 {
        return Err(TableFault::ManySections);
    }
    let section_length = read_length(section, 1);
    if 3 + section_length != section.len() || section_length > 1021 {
        return Err(TableFault::BadLengths);
    }
    Ok(())
}
