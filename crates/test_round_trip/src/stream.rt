use fixture_standard_stream::{PAT, PMT, filled};
use std::alloc::{AllocError, Global};

/// A section on the PMT's PID whose length, 1,022, is more than a section may have.
const LONG_SECTION: &[u8] = b"\x47\x50\x00\x1f\x00\x02\xb3\xfe";

/// Appends the PAT in two packets: behind 174 bytes of an adaptation field the first half of its section, and in the next
/// packet, of this counter, the other.
fn push_split_pat(stream: &mut Vec<u8>, counter: u8) -> Result<(), AllocError> {
    stream.extend_from_slice(b"\x47\x40\x00\x30\xae\x00")?;
    for _ in 0..173 {
        stream.push(0xFF)?;
    }
    stream.extend_from_slice(b"\x00\x00\xb0\x0d\x00\x01\xc1\x00\x00")?;
    let begin = [0x47, 0x00, 0x00, 0x10 + counter % 16];
    push_packet(stream, &begin, b"\x00\x01\xf0\x00\x2a\xb1\x04\xb2")
}

/// A frame of video by its time in ticks: a key frame, with the indicator of random access, or another.
#[derive(Clone, Copy)]
pub enum Video {
    Key(u64),
    Other(u64),
}

/// Appends tables, and a packet for each frame.
fn push_stream(stream: &mut Vec<u8>, frames: &[Video], change: Change) -> Result<(), AllocError> {
    match change {
        Change::SplitPat(counter) => push_split_pat(stream, counter)?,
        _ => push_packet(stream, PAT, &[])?,
    }
    if let Change::LongSection = change {
        push_packet(stream, LONG_SECTION, &[])?;
    }
    push_packet(stream, PMT, &[])?;
    for (n, frame) in frames.iter().enumerate() {
        push_frame(stream, *frame, (n % 16) as u8)?;
    }
    Ok(())
}

/// What the packet of a key frame begins with, up to its PTS: random access, and the head of a PES packet.
const KEY_BEGIN: [u8; 15] = *b"\x47\x41\x00\x30\x01\x40\x00\x00\x01\xE0\x00\x00\x80\x80\x05";

/// The same of another frame.
const OTHER_BEGIN: [u8; 13] = *b"\x47\x41\x00\x10\x00\x00\x01\xE0\x00\x00\x80\x80\x05";

/// Appends the packet of a frame, in which a PES packet with a PTS starts (ISO/IEC 13818-1, 2.4.3.6).
fn push_frame(stream: &mut Vec<u8>, frame: Video, counter: u8) -> Result<(), AllocError> {
    match frame {
        Video::Key(ticks) => {
            let mut begin = KEY_BEGIN;
            begin[3] = 0x30 + counter % 16;
            push_packet(stream, &begin, &stamp(ticks))
        }
        Video::Other(ticks) => {
            let mut begin = OTHER_BEGIN;
            begin[3] = 0x10 + counter % 16;
            push_packet(stream, &begin, &stamp(ticks))
        }
    }
}

/// A PTS with its marker bits (ISO/IEC 13818-1, 2.4.3.7).
fn stamp(ticks: u64) -> [u8; 5] {
    [
        0x21 | ((ticks >> 29) & 0x0E) as u8,
        ((ticks >> 22) & 0xFF) as u8,
        1 | ((ticks >> 14) & 0xFE) as u8,
        ((ticks >> 7) & 0xFF) as u8,
        1 | (ticks % 128 * 2) as u8,
    ]
}

/// Appends a packet that begins with these bytes, and others behind them, and ends in bytes FF.
fn push_packet(stream: &mut Vec<u8>, begin: &[u8], behind: &[u8]) -> Result<(), AllocError> {
    stream.extend_from_slice(&filled(begin, behind))
}

/// Two segments, of 6 s and of 3.04 s.
pub const TWO_SEGMENTS: &[Video] = &[
    Video::Key(0),
    Video::Other(270_000),
    Video::Key(540_000),
    Video::Other(810_000),
];

/// What is done to a stream before it is packed.
#[derive(Clone, Copy)]
pub enum Change {
    None,
    /// Five bytes of no packet stand before it.
    NoiseBefore,
    /// The byte of this place is left out.
    LeaveOut(usize),
    /// The PAT's last byte, of its CRC, is another.
    BadCrc,
    /// The PAT comes in two packets. The second has this counter, the first 0.
    SplitPat(u8),
    /// A section that is too long stands before the PMT.
    LongSection,
    /// Nothing is left of it.
    Empty,
}

/// The stream of these frames, changed.
pub fn stream_of(alloc: Global, frames: &[Video], change: Change) -> Result<Vec<u8>, AllocError> {
    let mut whole = Vec::new(alloc);
    push_stream(&mut whole, frames, change)?;
    let mut stream = Vec::new(alloc);
    if let Change::NoiseBefore = change {
        stream.extend_from_slice(&[0x00, 0x47, 0x00, 0x01, 0x02])?;
    }
    for (at, byte) in whole.iter().enumerate() {
        match change {
            Change::LeaveOut(place) if at == place => {}
            Change::BadCrc if at == 20 => stream.push(0xB3)?,
            Change::Empty => {}
            _ => stream.push(*byte)?,
        }
    }
    Ok(stream)
}
