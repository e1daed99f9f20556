//! Sections of tables, and packets that carry them.

/// Program 1 with its PMT on PID 0x1000.
pub(crate) const PAT: &[u8] = b"\x00\xb0\x0d\x00\x01\xc1\x00\x00\x00\x01\xf0\x00\x2a\xb1\x04\xb2";

/// The same with a CRC that is wrong.
pub(crate) const BAD_PAT: &[u8] =
    b"\x00\xb0\x0d\x00\x01\xc1\x00\x00\x00\x01\xf0\x00\x2a\xb1\x04\xb3";

/// Program 1, H.264 on PID 0x100 with the PCR.
pub(crate) const PMT: &[u8] =
    b"\x02\xb0\x12\x00\x01\xc1\x00\x00\xe1\x00\xf0\x00\x1b\xe1\x00\xf0\x00\x15\xbd\x4d\x56";

/// The same with AAC on PID 0x101.
pub(crate) const PMT_WITH_SOUND: &[u8] =
    b"\x02\xb0\x17\x00\x01\xc1\x00\x00\xe1\x00\xf0\x00\x1b\xe1\x00\xf0\x00\x0f\xe1\x01\xf0\x00\x2f\x44\xb9\x9b";

/// A packet that a test sends.
#[derive(Clone, Copy)]
pub(crate) enum Sent {
    /// With this header of four bytes and these bytes behind it, filled up with FF.
    Filled([u8; 4], &'static [u8]),
    /// With this header, which tells an adaptation field and a payload, and with this payload: the adaptation field takes
    /// the room that is left.
    Exactly([u8; 4], &'static [u8]),
    /// With start indicator, of this PID and with this counter, carrying these bytes as sections.
    Carrying(u16, u8, &'static [u8]),
}

/// Writes bytes into others, from a place on, as far as there is room.
pub(crate) fn write(out: &mut [u8], from: usize, bytes: &[u8]) {
    for (at, byte) in bytes.iter().enumerate() {
        if let Some(there) = out.get_mut(from.wrapping_add(at)) {
            *there = *byte;
        }
    }
}

/// A packet of a header, what is behind it, and bytes FF.
pub(crate) fn filled(header: &[u8], behind: &[u8]) -> [u8; 188] {
    let mut bytes = [0xFF; 188];
    write(&mut bytes, 0, header);
    write(&mut bytes, header.len(), behind);
    bytes
}

/// A packet of a header, an adaptation field, and this payload at its end.
fn exactly(header: &[u8], payload: &[u8]) -> [u8; 188] {
    let at = 188usize.saturating_sub(payload.len());
    let [.., len] = at.saturating_sub(5).to_be_bytes();
    let mut bytes = filled(header, &[len, 0]);
    write(&mut bytes, at, payload);
    bytes
}

/// The 188 bytes of a packet.
pub(crate) fn bytes_of(sent: Sent) -> [u8; 188] {
    match sent {
        Sent::Filled(header, behind) => filled(&header, behind),
        Sent::Exactly(header, payload) => exactly(&header, payload),
        Sent::Carrying(pid, counter, sections) => {
            let [high, low] = pid.to_be_bytes();
            filled(&[0x47, 0x40 | high, low, 0x10 | counter, 0x00], sections)
        }
    }
}

/// The first bytes, so many.
pub(crate) fn first(bytes: &[u8], len: usize) -> &[u8] {
    bytes.split_at(usize::min(len, bytes.len())).0
}

/// A PMT section of so many bytes, 22 to 1,024, and bytes AA behind it: H.264 on PID 0x100 with the PCR, a descriptor of
/// bytes AA, and this CRC.
pub(crate) fn described(len: u16, crc: &[u8]) -> [u8; 1024] {
    let [high, low] = (0xB000 | len.wrapping_sub(3)).to_be_bytes();
    let [above, below] = (0xF000 | len.wrapping_sub(21)).to_be_bytes();
    let mut section = [0xAA; 1024];
    write(&mut section, 0, &[0x02, high, low]);
    write(
        &mut section,
        3,
        b"\x00\x01\xc1\x00\x00\xe1\x00\xf0\x00\x1b\xe1\x00",
    );
    write(&mut section, 15, &[above, below]);
    write(&mut section, usize::from(len).saturating_sub(4), crc);
    section
}
