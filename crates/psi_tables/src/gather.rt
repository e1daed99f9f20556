ghost use Rattle.std.specs.Prelude.{◌≡◌, ◌≢◌, ◌≤◌, ◌⊎◌, [], length, map, IfOk, IsOk, OnErr};
ghost use Rattle.psi_tables.specs.Sections.{carrier, begun_in, unfinished, pointed, behind_pointer};
ghost use Rattle.psi_tables.specs.State.{whole_front, open_rest, left_open, completed, left_behind, HasSection, BeginsSection};

use crate::section::read_length;
use std::alloc::{AllocError, Global};
use ts_packet::Packet;

/// The greatest section_length of a table (ISO/IEC 13818-1, 2.4.4.4 and 2.4.4.9).
const MOST_LENGTH: usize = 1021;

/// The sections that some bytes complete, and the front of the section that they leave begun.
#[derive(Drop)]
pub(crate) struct Brought {
    pub found: Vec<Vec<u8>>,
    pub begun: Vec<u8>,
}

/// Whether a whole section stands at the front.
fn is_whole(bytes: &[u8]) -> bool
    ensures { result ≡ Rattle.psi_tables.specs.Sections.is_whole bytes.now }
{
    if bytes.len() < 3 || bytes[0] == 0xFF {
        return false;
    }
    let length = read_length(bytes, 1);
    length <= MOST_LENGTH && 3 + length <= bytes.len()
}

/// Whether a section stands at the front of which not all bytes are there.
fn is_open(bytes: &[u8]) -> bool
    requires { bytes.now ≢ [] }
    ensures { result ≡ Rattle.psi_tables.specs.Sections.is_open bytes.now }
{
    if bytes[0] == 0xFF {
        return false;
    }
    if bytes.len() < 3 {
        return true;
    }
    let length = read_length(bytes, 1);
    length <= MOST_LENGTH && bytes.len() < 3 + length
}

/// The section at the front, where not all its bytes are there.
fn open_front(bytes: &[u8]) -> &[u8]
    ensures { result.now ≡ Rattle.psi_tables.specs.State.open_front bytes.now }
{
    if bytes.is_empty() || !is_open(bytes) {
        return &[];
    }
    bytes
}

/// A copy of some bytes. Only where there are any it takes memory.
fn copied(alloc: Global, bytes: &[u8]) -> Result<Vec<u8>, AllocError>
    ensures ok { IfOk result (λ copy. copy.items ≡ bytes.now) }
    ensures some { OnErr result (bytes.now ≢ []) }
{
    let mut copy = Vec::new(alloc);
    copy.extend_from_slice(bytes)?;
    Ok(copy)
}

/// The section at the front of these bytes, whole or not. Only where one stands there it takes memory.
fn first_in(alloc: Global, bytes: &[u8]) -> Result<Brought, AllocError>
    ensures found { IfOk result (λ brought. map (λ section. section.items) brought.found.items ≡ whole_front bytes.now) }
    ensures begun { IfOk result (λ brought. brought.begun.items ≡ open_rest bytes.now) }
    ensures some { OnErr result (HasSection bytes.now) }
{
    let mut found = Vec::new(alloc);
    if is_whole(bytes) {
        let (section, _) = bytes.split_at(3 + read_length(bytes, 1));
        found.push(Vec::from_slice(alloc, section)?)?;
        return Ok(Brought {
            found,
            begun: Vec::new(alloc),
        });
    }
    Ok(Brought {
        found,
        begun: copied(alloc, open_front(bytes))?,
    })
}

/// The sections that begin in these bytes, one behind another. Only where one stands at the front it takes memory.
fn begin_in(alloc: Global, bytes: &[u8]) -> Result<Brought, AllocError>
    ensures found { IfOk result (λ brought. map (λ section. section.items) brought.found.items ≡ begun_in 0 bytes.now []) }
    ensures begun { IfOk result (λ brought. brought.begun.items ≡ unfinished 0 bytes.now) }
    ensures some { OnErr result (HasSection bytes.now) }
{
    let mut found = Vec::new(alloc);
    let mut rest = bytes;
    while is_whole(rest) {
        let (section, behind) = rest.split_at(3 + read_length(rest, 1));
        found.push(Vec::from_slice(alloc, section)?)?;
        rest = behind;
    }
    Ok(Brought {
        found,
        begun: copied(alloc, open_front(rest))?,
    })
}

/// What more bytes make of a section that was begun. What comes behind its end is left out.
fn bring(alloc: Global, begun: &[u8], more: &[u8]) -> Result<Brought, AllocError>
    requires { unfinished 0 begun.now ≡ begun.now }
    ensures found { IfOk result (λ brought. map (λ section. section.items) brought.found.items ≡ begun_in 0 begun.now more.now) }
    ensures begun { IfOk result (λ brought. brought.begun.items ≡ left_open begun.now more.now) }
    ensures none { begun.now ≡ [] → IsOk result }
{
    if begun.is_empty() {
        return Ok(Brought {
            found: Vec::new(alloc),
            begun: Vec::new(alloc),
        });
    }
    let mut bytes = Vec::from_slice(alloc, begun)?;
    bytes.extend_from_slice(more)?;
    first_in(alloc, &bytes)
}

/// Whether these bytes bring the section_length of a section that was begun, and it is too long for a table.
fn gives_up(begun: &[u8], more: &[u8]) -> bool
    ensures { result ≡ Rattle.psi_tables.specs.State.gives_up begun.now more.now }
{
    let have = begun.len();
    if have == 0 || have >= 3 || more.len() < 3 - have {
        return false;
    }
    let high = if have == 1 { more[0] } else { begun[1] };
    let low = more[2 - have];
    usize::from(u16::from_be_bytes([high, low]) % 0x1000) > MOST_LENGTH
}

/// The bytes of a packet with start indicator that belong to the section begun before it, and those behind them.
fn split_at_pointer<'a>(packet: &Packet<'a>) -> (&'a [u8], &'a [u8])
    ensures pointed { result.0.now ≡ pointed (carrier packet.now) }
    ensures behind { result.1.now ≡ behind_pointer (carrier packet.now) }
{
    let payload = packet.payload();
    if payload.is_empty() {
        return (&[], &[]);
    }
    let pointer = usize::from(payload[0]);
    if pointer >= payload.len() {
        return (&[], &[]);
    }
    (&payload[1..1 + pointer], &payload[1 + pointer..])
}

/// What a packet makes of a section that was begun. Only where one was begun, or begins in it, it takes memory.
pub(crate) fn gather(alloc: Global, begun: &[u8], packet: &Packet) -> Result<Brought, AllocError>
    requires { unfinished 0 begun.now ≡ begun.now }
    ensures found { IfOk result (λ brought. map (λ section. section.items) brought.found.items ≡ completed begun.now (carrier packet.now)) }
    ensures begun { IfOk result (λ brought. brought.begun.items ≡ left_behind begun.now (carrier packet.now)) }
    ensures idle { OnErr result ((begun.now ≢ []) ⊎ BeginsSection packet.now) }
{
    if !packet.starts() {
        return bring(alloc, begun, packet.payload());
    }
    let (front, back) = split_at_pointer(packet);
    let back = if gives_up(begun, front) { &[] } else { back };
    let mut front = bring(alloc, begun, front)?;
    let mut back = begin_in(alloc, back)?;
    front.found.append(&mut back.found)?;
    Ok(Brought {
        found: front.found,
        begun: back.begun,
    })
}
