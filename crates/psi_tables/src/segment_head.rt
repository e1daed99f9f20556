//! The head of a segment (RFC 8216, 3.2).

ghost use Rattle.std.specs.Prelude.{◌≡◌, ◌+◌, ◌-◌, ◌*◌, ◌<◌, ◌≤◌, ◌^◌, ◌++◌, ◌/◌, false, length, replicate, vec_len, vec_capacity, IfOk, OnOk, OnErr};
ghost use Rattle.psi_tables.specs.Head.{head, packet_count, packets, section_packets, IsSendable};

use crate::crc::crc_32;
use crate::tables::Tables;
use std::alloc::{AllocError, Global};
use ts_packet::PACKET;

/// The bytes of a packet without an adaptation field behind its header.
pub const PAYLOAD: usize = 184;

/// The packets that bring a segment its tables: one PAT packet with the one program, then the packets of the PMT section
/// as it came (RFC 8216, 3.2; ISO/IEC 13818-1, 2.4.4). The counters are the continuity_counters of the first packet of
/// each, modulo 16.
pub fn head(
    alloc: Global,
    tables: &Tables,
    pat_counter: u8,
    pmt_counter: u8,
) -> Result<Vec<u8>, AllocError>
    ensures bytes { IfOk result (λ bytes. bytes.items ≡ head tables.now pat_counter pmt_counter) }
    ensures sendable { IsSendable tables.now }
{
    let section = tables.section();
    let pat = pat_section(tables.stream_id(), tables.program(), tables.pmt_pid());
    let mut bytes = Vec::new(alloc);
    append_section(&mut bytes, 0, pat_counter, &pat)?;
    append_section(&mut bytes, tables.pmt_pid(), pmt_counter, section)?;
    Ok(bytes)
}

/// How many packets of a head carry the PMT section, with the pointer_field in front of it: at most six.
pub fn pmt_packets(tables: &Tables) -> usize
    ensures count { result ≡ packet_count tables.now.section }
    ensures few { result ≤ 6 }
{
    packet_count(tables.section())
}

fn packet_count(section: &[u8]) -> usize
    ensures count { result ≡ Rattle.psi_tables.specs.Head.packet_count section.now }
    ensures few { result < 2 ^ 62 }
{
    (section.len() + PAYLOAD) / PAYLOAD
}

/// A PAT section of one program: version 0, current (ISO/IEC 13818-1, 2.4.4.3). Of the PMT's PID the low 13 bits count.
pub fn pat_section(stream_id: u16, program: u16, pmt_pid: u16) -> [u8; 16]
    ensures { result ≡ Rattle.psi_tables.specs.Head.pat_section stream_id program pmt_pid }
{
    let [a, b] = stream_id.to_be_bytes();
    let [c, d] = program.to_be_bytes();
    let [e, f] = (0xE000 + pmt_pid % 0x2000).to_be_bytes();
    let fields = [0x00, 0xB0, 13, a, b, 0xC1, 0, 0, c, d, e, f];
    let mut section = [0; 16];
    section[..12].copy_from_slice(&fields);
    section[12..].copy_from_slice(&crc_32(&fields).to_be_bytes());
    section
}

/// Appends the packets of a PID that carry one section, without adaptation fields (ISO/IEC 13818-1, 2.4.4). Of the PID the
/// low 13 bits count. The counter is the continuity_counter of the first, modulo 16. A refusal leaves the bytes as they
/// were.
pub fn append_section(
    bytes: &mut Vec<u8>,
    pid: u16,
    counter: u8,
    section: &[u8],
) -> Result<(), AllocError>
    ensures packets { OnOk result (bytes.new.items ≡ bytes.old.items ++ section_packets pid counter section.now) }
    ensures err { OnErr result (bytes.new.items ≡ bytes.old.items) }
    ensures room { OnErr result (vec_capacity bytes.old < vec_len bytes.old + PACKET * packet_count section.now) }
    ensures capacity { vec_capacity bytes.old ≤ vec_capacity bytes.new }
{
    bytes.reserve(PACKET * packet_count(section))?;
    let (front, rest) = section.split_at(usize::min(PAYLOAD - 1, section.len()));
    let [a, b, c, d] = header(true, pid, usize::from(counter));
    append_packet(bytes, &[a, b, c, d, 0], front);
    append_packets(bytes, pid, usize::from(counter) + 1, rest);
    Ok(())
}

/// Appends the packets of a PID that carry these bytes, behind the packet in which their section starts.
fn append_packets(bytes: &mut Vec<u8>, pid: u16, counter: usize, carried: &[u8])
    requires room { vec_len bytes.old + PACKET * ((length carried.now + 183) / 184) ≤ vec_capacity bytes.old }
    requires small { counter ≤ 256 }
    ensures ok { bytes.new.items ≡ bytes.old.items ++ packets ((length carried.now + 183) / 184) false pid counter carried.now }
    ensures capacity { vec_capacity bytes.old ≤ vec_capacity bytes.new }
{
    let mut counter = counter;
    let mut rest = carried;
    'packet: while !rest.is_empty() {
        let (payload, later) = rest.split_at(usize::min(PAYLOAD, rest.len()));
        append_packet(bytes, &header(false, pid, counter), payload);
        counter += 1;
        rest = later;
    }
}

/// Appends one packet: what it begins with, these bytes of its payload, and stuffing to its end.
fn append_packet(bytes: &mut Vec<u8>, begin: &[u8], payload: &[u8])
    requires fits { length begin.now + length payload.now ≤ PACKET }
    requires room { vec_len bytes.old + PACKET ≤ vec_capacity bytes.old }
    ensures items { bytes.new.items ≡ bytes.old.items ++ begin.now ++ payload.now ++ replicate (PACKET - (length begin.now + length payload.now)) 0xFF }
    ensures len { vec_len bytes.new ≡ vec_len bytes.old + PACKET }
    ensures kept { vec_capacity bytes.old ≤ vec_capacity bytes.new }
{
    let (_, stuffing) = [0xFF; PACKET].split_at(begin.len() + payload.len());
    bytes.extend_from_slice(begin).unwrap();
    bytes.extend_from_slice(payload).unwrap();
    bytes.extend_from_slice(stuffing).unwrap();
}

/// The header of a packet that has a payload alone.
fn header(starts: bool, pid: u16, counter: usize) -> [u8; 4]
    ensures { result ≡ Rattle.psi_tables.specs.Head.header starts pid counter }
{
    let start = if starts { 0x4000 } else { 0 };
    let [high, low] = (start + pid % 0x2000).to_be_bytes();
    [0x47, high, low, 0x10 + (counter % 16) as u8]
}
