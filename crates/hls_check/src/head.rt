//! The head of a segment, taken off (RFC 8216, 3.2).

ghost use Rattle.std.specs.Prelude.{◌≡◌, ◌≢◌, ◌*◌, ◌<◌, ◌≤◌, ◌^◌, ℕ, List, [], ◌++◌, length, slice_index};
ghost use Rattle.std.specs.Prelude.{IfOk, IfSome, IfNone, OnErr, IsSome, IsSomeAnd, MatchOption, Decides, None};
ghost use Rattle.psi_tables.specs.ProgramMap.{pmt_fault, program_map};
ghost use Rattle.psi_tables.specs.Head.{head, section_packets, IsSendable};
ghost use Rattle.hls_check.specs.Unpacking.{BeginsWithHead};
ghost use Rattle.hls_check.specs.Heads;
ghost use Rattle.hls_check.specs.Heads.{IsSized, IsTheHead, HasPackets, HoldsTables, MayHoldHead, head_in, section_in, told_tables};

use psi_tables::{
    PAYLOAD, Pmt, TableFault, append_section, pat_section, read_length, read_number, read_pid,
};
use std::alloc::{AllocError, Global};
use ts_packet::PACKET;

/// What stands behind the head that a text begins with, if it begins with one: the packet of a PAT and those of a good PMT
/// section, with any counters. A text that is too short for a head, or for the section that it tells, wants no memory.
pub fn behind_head<'a>(alloc: Global, text: &'a [u8]) -> Result<Option<&'a [u8]>, AllocError>
    ensures found { IfOk result (λ found. MatchOption found
        ((rest : List ℕ) → ¬ BeginsWithHead text.now rest)
        (λ rest. BeginsWithHead text.now rest.now)) }
    ensures memory { OnErr result (MayHoldHead text.now) }
{
    let Some(head) = told_head(alloc, text)? else {
        return Ok(None);
    };
    Ok(text.strip_prefix(head.as_slice()))
}

/// The only head that a text may begin with: that of the tables and counters which stand where a head has them. None where
/// these can't be those of a head.
fn told_head(alloc: Global, text: &[u8]) -> Result<Option<Vec<u8>>, AllocError>
    ensures found { IfOk result (λ found. MatchOption found
        ((rest : List ℕ) → ¬ BeginsWithHead text.now rest)
        (λ bytes. IsTheHead text.now bytes.items)) }
    ensures told { IfOk result (λ found. IfSome found (λ bytes. HoldsTables text.now × (bytes.items ≡ head_in text.now))) }
    ensures none { IfOk result (λ found. IfNone found (¬ HoldsTables text.now)) }
    ensures memory { OnErr result (MayHoldHead text.now) }
{
    if text.len() < 2 * PACKET {
        return Ok(None);
    }
    let (pat, behind) = text.split_at(PACKET);
    let Some(section) = carried_section(alloc, behind)? else {
        return Ok(None);
    };
    if !is_pmt(alloc, &section)? {
        return Ok(None);
    }
    Ok(Some(made_head(alloc, pat, behind[3], &section)?))
}

/// The head of the tables and the counter that stand in the packet of a PAT, with a section and a counter of a PMT.
fn made_head(
    alloc: Global,
    pat: &[u8],
    pmt_counter: u8,
    section: &[u8],
) -> Result<Vec<u8>, AllocError>
    requires { PACKET ≤ length pat.now }
    ensures is { IfOk result (λ bytes. bytes.items ≡ head (told_tables pat.now section.now) (slice_index pat.now 3) pmt_counter) }
    ensures sendable { pmt_fault section.now ≡ None → IsSendable (told_tables pat.now section.now) }
{
    let pmt_pid = read_pid(pat, 15);
    let section_of_pat = pat_section(read_number(pat, 8), read_number(pat, 13), pmt_pid);
    let mut bytes = Vec::new(alloc);
    append_section(&mut bytes, 0, pat[3], &section_of_pat)?;
    append_section(&mut bytes, pmt_pid, pmt_counter, section)?;
    Ok(bytes)
}

/// Whether a section is that of a good PMT. Only such a section wants memory, and only one with an entry.
fn is_pmt(alloc: Global, section: &[u8]) -> Result<bool, AllocError>
    ensures good { IfOk result (λ good. Decides good (pmt_fault section.now ≡ None)) }
    ensures memory { OnErr result (pmt_fault section.now ≡ None) }
    ensures scarce { OnErr result ((program_map section.now).entries ≢ []) }
{
    match Pmt::read(alloc, section) {
        Ok(_) => Ok(true),
        Err(TableFault::NoMemory) => Err(AllocError),
        Err(_) => Ok(false),
    }
}

/// The section that packets carry, by the length that it tells; None where there are too few packets, which want no memory.
fn carried_section(alloc: Global, packets: &[u8]) -> Result<Option<Vec<u8>>, AllocError>
    requires { PACKET ≤ length packets.now }
    ensures found { IfOk result (λ found. (pid counter : ℕ) (section rest : List ℕ) → IsSized section →
        packets.now ≡ section_packets pid counter section ++ rest → IsSomeAnd found (λ bytes. bytes.items ≡ section)) }
    ensures whole { IfOk result (λ found. IsSome found → HasPackets packets.now) }
    ensures section { IfOk result (λ found. IfSome found (λ bytes. bytes.items ≡ section_in packets.now)) }
    ensures enough { IfOk result (λ found. IfNone found (¬ HasPackets packets.now)) }
    ensures memory { OnErr result (HasPackets packets.now) }
{
    let len = 3 + read_length(packets, 6);
    let count = (len + PAYLOAD) / PAYLOAD;
    if packets.len() < PACKET * count {
        return Ok(None);
    }
    let carried = payloads(alloc, count, packets)?;
    let section = Vec::from_slice(alloc, &carried[1..1 + len])?;
    Ok(Some(section))
}

/// The payloads of so many packets with headers of four bytes.
fn payloads(alloc: Global, count: usize, packets: &[u8]) -> Result<Vec<u8>, AllocError>
    requires few { count < 2 ^ 32 }
    requires there { PACKET * count ≤ length packets.now }
    ensures items { IfOk result (λ carried. carried.items ≡ Heads.payloads count packets.now) }
    ensures len { IfOk result (λ carried. length carried.items ≡ PAYLOAD * count) }
    ensures scarce { OnErr result (0 < count) }
{
    let mut carried = Vec::new(alloc);
    let mut rest = packets;
    'packet: for _ in 0..count {
        let (packet, behind) = rest.split_at(PACKET);
        carried.extend_from_slice(&packet[4..])?;
        rest = behind;
    }
    Ok(carried)
}
