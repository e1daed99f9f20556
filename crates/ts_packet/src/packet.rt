ghost use Rattle.std.specs.Prelude.{◌≡◌, ℕ, List, Some, None, IfOk, IfErr, IsOk, ◌↔◌};
ghost use Rattle.ts_packet.specs.Fields.{pid, payload_unit_start_indicator, is_scrambled, continuity_counter, random_access_indicator};
ghost use Rattle.ts_packet.specs.Fields.{has_adaptation_field, has_payload, is_adaptation_field_long, payload, fault_of};

use std::marker::Model;
use thiserror::Error;

/// Why 188 bytes are dropped. The first that stands is told, in this order.
#[derive(Clone, Copy, Debug, PartialEq, Eq, Error)]
pub enum PacketFault {
    /// sync_byte isn't 47 hexadecimal.
    #[error("the first byte isn't 0x47")]
    NoSync,
    /// transport_error_indicator is set: a bit of the packet is wrong that can't be mended.
    #[error("transport_error_indicator is set")]
    Errored,
    /// adaptation_field_control is 00.
    #[error("adaptation_field_control is 00, which is reserved")]
    Reserved,
    /// adaptation_field_length is above 182 where a payload follows, or above 183 where none does.
    #[error("the adaptation field leaves too little room in the packet")]
    LongAdaptation,
}

/// A transport packet that isn't dropped, where its bytes lie. Clauses see it as its 188 bytes.
#[derive(Debug, Drop)]
pub struct Packet<'a> {
    bytes: &'a [u8; 188],
}

impl<'a> Model for Packet<'a> {
    ghost use Rattle.std.specs.Prelude.{◌≡◌, ℕ, List, None};

    ghost Value = { List ℕ };

    ghost use Rattle.ts_packet.specs.Fields.{fault_of};

    ghost view = { λ p. p.bytes.now };

    ghost invariant = { λ p. fault_of p.bytes.now ≡ None };
}

impl<'a> Packet<'a> {
    /// The packet of 188 bytes, or why they are dropped (ISO/IEC 13818-1, 2.4.3.2 to 2.4.3.5).
    pub fn parse(bytes: &'a [u8; 188]) -> Result<Packet<'a>, PacketFault>
        ensures taken { IsOk result ↔ (fault_of bytes.now ≡ None) }
        ensures whole { IfOk result (λ packet. packet ≡ bytes.now) }
        ensures fault { IfErr result (λ fault. fault_of bytes.now ≡ Some fault) }
    {
        if bytes[0] != 0x47 {
            return Err(PacketFault::NoSync);
        }
        if bytes[1] & 0x80 != 0 {
            return Err(PacketFault::Errored);
        }
        if bytes[3] >> 4 & 3 == 0 {
            return Err(PacketFault::Reserved);
        }
        if is_adaptation_long(bytes) {
            return Err(PacketFault::LongAdaptation);
        }
        Ok(Packet { bytes })
    }

    /// The packet's bytes.
    pub fn bytes(&self) -> &'a [u8; 188]
        ensures { result.now ≡ self.now }
    {
        self.bytes
    }

    /// The packet's PID, 13 bits.
    pub fn pid(&self) -> u16
        ensures { result ≡ pid self.now }
    {
        read_pid(self.bytes)
    }

    /// payload_unit_start_indicator: a section or a PES packet begins in the payload.
    pub fn starts(&self) -> bool
        ensures { result ≡ payload_unit_start_indicator self.now }
    {
        has_start(self.bytes)
    }

    /// transport_scrambling_control isn't 00.
    pub fn scrambled(&self) -> bool
        ensures { result ≡ is_scrambled self.now }
    {
        self.bytes[3] & 0xC0 != 0
    }

    /// continuity_counter, 4 bits.
    pub fn counter(&self) -> u8
        ensures { result ≡ continuity_counter self.now }
    {
        self.bytes[3] & 0x0F
    }

    /// random_access_indicator of the adaptation field; false where there is none, or one of length 0.
    pub fn random_access(&self) -> bool
        ensures { result ≡ random_access_indicator self.now }
    {
        has_adaptation(self.bytes) && self.bytes[4] > 0 && self.bytes[5] >> 6 & 1 == 1
    }

    /// The payload; empty where adaptation_field_control says that there is none.
    pub fn payload(&self) -> &'a [u8]
        ensures { result.now ≡ payload self.now }
    {
        read_payload(self.bytes)
    }
}

fn read_pid(bytes: &[u8; 188]) -> u16
    ensures { result ≡ pid bytes.now }
{
    u16::from(bytes[1] & 0x1F) << 8 | u16::from(bytes[2])
}

fn has_start(bytes: &[u8; 188]) -> bool
    ensures { result ≡ payload_unit_start_indicator bytes.now }
{
    bytes[1] >> 6 & 1 == 1
}

fn has_adaptation(bytes: &[u8; 188]) -> bool
    ensures { result ≡ has_adaptation_field bytes.now }
{
    bytes[3] >> 5 & 1 == 1
}

fn has_payload(bytes: &[u8; 188]) -> bool
    ensures { result ≡ Rattle.ts_packet.specs.Fields.has_payload bytes.now }
{
    bytes[3] >> 4 & 1 == 1
}

fn read_payload(bytes: &[u8; 188]) -> &[u8]
    requires { fault_of bytes.now ≡ None }
    ensures { result.now ≡ payload bytes.now }
{
    if !has_payload(bytes) {
        return &[];
    }
    let start = if has_adaptation(bytes) {
        5 + usize::from(bytes[4])
    } else {
        4
    };
    &bytes[start..]
}

fn is_adaptation_long(bytes: &[u8; 188]) -> bool
    ensures { result ≡ is_adaptation_field_long bytes.now }
{
    let most = if has_payload(bytes) { 182 } else { 183 };
    has_adaptation(bytes) && bytes[4] > most
}
