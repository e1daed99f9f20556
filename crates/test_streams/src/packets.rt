ghost use Rattle.std.specs.Prelude.{◌≤◌, ◌+◌, ◌<◌, ◌^◌, length};

use crate::asserts::assert_same;
use crate::table_fixtures::filled;
use std::alloc::{AllocError, Global};
use std::test::Fail;
use ts_packet::{Packet, PacketFault, Reader, Skipped, Stream, read_pieces};

/// The first packet of a key frame at 0 ticks.
const KEY_FRAME: [u8; 20] = [
    0x47, 0x41, 0x00, 0x30, 0x01, 0x40, 0x00, 0x00, 0x01, 0xE0, 0x00, 0x00, 0x80, 0x80, 0x05, 0x21,
    0x00, 0x01, 0x00, 0x01,
];

/// The first packet of another frame, at 270,000 ticks.
const FRAME: [u8; 18] = [
    0x47, 0x41, 0x00, 0x11, 0x00, 0x00, 0x01, 0xE0, 0x00, 0x00, 0x80, 0x80, 0x05, 0x21, 0x00, 0x11,
    0x3D, 0x61,
];

/// The fields of a packet: its PID, its counter, how long its payload is, whether a unit starts in it, whether it is scrambled,
/// and whether it is one of random access.
fn fields(bytes: &[u8; 188]) -> Option<(u16, u8, usize, [bool; 3])> {
    let packet = Packet::parse(bytes).ok()?;
    Some((
        packet.pid(),
        packet.counter(),
        packet.payload().len(),
        [packet.starts(), packet.scrambled(), packet.random_access()],
    ))
}

#[test]
fn fields_of_frames(rt: HostRuntime) -> Result<(), Fail> {
    assert_same(
        &rt,
        "fields of frames",
        (
            fields(&filled(&KEY_FRAME, b"")),
            fields(&filled(&FRAME, b"")),
        ),
        (
            Some((0x100, 0, 182, [true, false, true])),
            Some((0x100, 1, 184, [true, false, false])),
        ),
    );
    Ok(())
}

/// What packets begin with, and why they are refused, if they are.
const FAULTS: [([u8; 5], Option<PacketFault>); 8] = [
    ([0x46, 0x80, 0x00, 0x00, 0xFF], Some(PacketFault::NoSync)),
    ([0x47, 0x80, 0x00, 0x00, 0xFF], Some(PacketFault::Errored)),
    ([0x47, 0x00, 0x00, 0x00, 0xFF], Some(PacketFault::Reserved)),
    (
        [0x47, 0x00, 0x00, 0x30, 183],
        Some(PacketFault::LongAdaptation),
    ),
    (
        [0x47, 0x00, 0x00, 0x20, 184],
        Some(PacketFault::LongAdaptation),
    ),
    ([0x47, 0x00, 0x00, 0x30, 182], None),
    ([0x47, 0x00, 0x00, 0x20, 183], None),
    ([0x47, 0x00, 0x00, 0x10, 0xFF], None),
];

/// Why a packet that begins so is refused.
fn fault(front: &[u8]) -> Option<PacketFault> {
    Packet::parse(&filled(front, b"")).err()
}

#[test]
fn faults_in_their_order(rt: HostRuntime) {
    for (front, wanted) in FAULTS {
        assert_same(&rt, front, fault(&front), wanted);
    }
}

/// What the packets of a PAT, a PMT, a key frame, a frame, a key frame and a frame begin with.
const SIX: [&[u8]; 6] = [
    b"\x47\x40\x00\x10\x00\x00\xb0\x0d\x00\x01\xc1\x00\x00\x00\x01\xf0\x00\x2a\xb1\x04\xb2",
    b"\x47\x50\x00\x10\x00\x02\xb0\x12\x00\x01\xc1\x00\x00\xe1\x00\xf0\x00\x1b\xe1\x00\xf0\x00\x15\xbd\x4d\x56",
    &KEY_FRAME,
    &FRAME,
    &KEY_FRAME,
    &FRAME,
];

/// The packets that begin so.
fn six_packets(alloc: Global) -> Result<Vec<u8>, AllocError> {
    let mut bytes = Vec::new(alloc);
    for front in SIX {
        bytes.extend_from_slice(&filled(front, b""))?;
    }
    Ok(bytes)
}

/// A stream that comes in two pieces.
fn cut(alloc: Global, bytes: &[u8], at: usize) -> Result<Stream, AllocError>
    requires within { at ≤ length bytes.now }
    requires small { length bytes.now < 2 ^ 63 }
{
    let (front, back) = bytes.split_at(at);
    let mut pieces = Vec::new(alloc);
    pieces.push(front.to_vec(alloc)?)?;
    pieces.push(back.to_vec(alloc)?)?;
    read_pieces(alloc, &pieces)
}

/// A stream that comes byte by byte.
fn byte_by_byte(alloc: Global, bytes: &[u8]) -> Result<Stream, AllocError>
    requires { length bytes.now < 2 ^ 63 }
{
    let mut reader = Reader::new();
    let mut packets = Vec::new(alloc);
    for byte in bytes {
        reader.feed(&[*byte], &mut packets)?;
    }
    let skipped = reader.finish(&mut packets)?;
    Ok(Stream { packets, skipped })
}

/// Whether a stream was read as these packets, and so many bytes were in none.
fn is_read(all: &Stream, packets: &[u8], skipped: u64) -> bool {
    all.packets.as_flattened() == packets && all.skipped == Skipped { bytes: skipped }
}

/// The first place at which a stream of few bytes, cut in two there, isn't read as these packets and five bytes in none.
fn first_wrong_cut(
    alloc: Global,
    bytes: &[u8],
    packets: &[u8],
) -> Result<Option<usize>, AllocError> {
    if bytes.len() > 2000 {
        return Ok(Some(bytes.len()));
    }
    for at in 0..=bytes.len() {
        let all = cut(alloc, bytes, at)?;
        if !is_read(&all, packets, 5) {
            return Ok(Some(at));
        }
    }
    Ok(None)
}

/// Whether a stream of few bytes that comes byte by byte is read as these packets and five bytes in none.
fn is_read_by_bytes(alloc: Global, bytes: &[u8], packets: &[u8]) -> Result<bool, AllocError> {
    if bytes.len() > 2000 {
        return Ok(false);
    }
    Ok(is_read(&byte_by_byte(alloc, bytes)?, packets, 5))
}

/// The packets behind five bytes of none.
fn behind_noise(alloc: Global, packets: &[u8]) -> Result<Vec<u8>, AllocError> {
    let mut bytes = Vec::new(alloc);
    bytes.extend_from_slice(&[0x00, 0x47, 0x00, 0x01, 0x02])?;
    bytes.extend_from_slice(packets)?;
    Ok(bytes)
}

/// What comes of the packets behind five bytes of none: how many bytes they are, the first cut that isn't read as these
/// packets, and whether they are read so byte by byte.
fn told_of_cuts(alloc: Global, packets: &[u8]) -> Result<(usize, Option<usize>, bool), AllocError> {
    let bytes = behind_noise(alloc, packets)?;
    let wrong = first_wrong_cut(alloc, &bytes, packets);
    let by_bytes = is_read_by_bytes(alloc, &bytes, packets);
    Ok((bytes.len(), wrong?, by_bytes?))
}

#[test]
fn the_cut_does_not_matter(rt: HostRuntime) -> Result<(), Fail> {
    let packets = six_packets(rt.alloc())?;
    let told = told_of_cuts(rt.alloc(), &packets)?;
    assert_same(&rt, "the cut does not matter", told, (1133, None, true));
    Ok(())
}

/// What a stream of few bytes gives that is cut in two: how long its packets are together, whether they are its own from the
/// front on, and how many bytes lie in none.
fn told_of(alloc: Global, bytes: &[u8]) -> Result<(usize, bool, u64), AllocError> {
    if bytes.len() < 100 || bytes.len() > 2000 {
        return Ok((0, false, 0));
    }
    let all = cut(alloc, bytes, 100)?;
    let packets = all.packets.as_flattened();
    Ok((packets.len(), bytes.starts_with(packets), all.skipped.bytes))
}

#[test]
fn a_packet_that_is_cut_off_is_skipped(rt: HostRuntime) -> Result<(), Fail> {
    let stream = six_packets(rt.alloc())?;
    for (len, packets) in [(1127, 940), (187, 0)] {
        let told = told_of(rt.alloc(), stream.get(..len).unwrap_or(&[]))?;
        assert_same(&rt, len, told, (packets, true, 187));
    }
    Ok(())
}

/// What a reader keeps of a stream of few bytes, and how many bytes it skipped, twice: the first time, and once it was finished.
fn read_twice(
    bytes: &[u8],
    first: &mut Vec<[u8; 188]>,
    second: &mut Vec<[u8; 188]>,
) -> Result<(usize, u64, u64), AllocError> {
    if bytes.len() > 2000 {
        return Ok((0, 0, 0));
    }
    let mut reader = Reader::new();
    reader.feed(bytes, first)?;
    let kept = reader.kept();
    let skipped = reader.finish(first)?;
    reader.feed(bytes, second)?;
    let again = reader.finish(second)?;
    Ok((kept, skipped.bytes, again.bytes))
}

/// Whether a reader that was finished gives a stream once more, with what it kept and skipped.
fn told_twice(alloc: Global, bytes: &[u8]) -> Result<(bool, (usize, u64, u64)), AllocError> {
    let (mut first, mut second) = (Vec::new(alloc), Vec::new(alloc));
    let told = read_twice(bytes, &mut first, &mut second);
    let same = first.as_flattened() == bytes && second.as_flattened() == bytes;
    Ok((same, told?))
}

#[test]
fn a_finished_reader_stands_as_a_new_one(rt: HostRuntime) -> Result<(), Fail> {
    let bytes = six_packets(rt.alloc())?;
    let told = told_twice(rt.alloc(), &bytes)?;
    assert_same(
        &rt,
        "a finished reader stands as a new one",
        told,
        (true, (0, 0, 0)),
    );
    Ok(())
}

/// Whether a stream of few bytes that is cut in two is read as these packets, and so many bytes are in none.
fn is_read_cut(
    alloc: Global,
    bytes: &[u8],
    packets: &[u8],
    skipped: u64,
) -> Result<bool, AllocError> {
    if bytes.len() < 600 || bytes.len() > 2000 {
        return Ok(false);
    }
    Ok(is_read(&cut(alloc, bytes, 600)?, packets, skipped))
}

/// Appends seven packets without byte 751, the last of the fourth, and what is read of them: the fourth takes the first byte of
/// the fifth, which is lost.
fn lose_a_byte(six: &[u8], lost: &mut Vec<u8>, read: &mut Vec<u8>) -> Result<(), AllocError> {
    let front = six.get(..751).unwrap_or(&[]);
    lost.extend_from_slice(front)?;
    lost.extend_from_slice(six.get(752..).unwrap_or(&[]))?;
    lost.extend_from_slice(&filled(&FRAME, b""))?;
    read.extend_from_slice(front)?;
    read.extend_from_slice(six.get(752..753).unwrap_or(&[]))?;
    read.extend_from_slice(six.get(940..).unwrap_or(&[]))?;
    read.extend_from_slice(&filled(&FRAME, b""))?;
    Ok(())
}

/// How many bytes seven packets are without one, and whether they are read so.
fn told_of_a_loss(alloc: Global, six: &[u8]) -> Result<(usize, bool), AllocError> {
    let (mut lost, mut read) = (Vec::new(alloc), Vec::new(alloc));
    lose_a_byte(six, &mut lost, &mut read)?;
    let is = is_read_cut(alloc, &lost, &read, 187);
    Ok((lost.len(), is?))
}

#[test]
fn lock_comes_back_behind_a_lost_byte(rt: HostRuntime) -> Result<(), Fail> {
    let packets = six_packets(rt.alloc())?;
    let told = told_of_a_loss(rt.alloc(), &packets)?;
    assert_same(
        &rt,
        "lock comes back behind a lost byte",
        told,
        (1315, true),
    );
    Ok(())
}

/// How many packets a reader that was fed little lends at the front of bytes `from` to `to` of a stream.
fn lend(
    reader: &mut Reader,
    stream: &[u8],
    from: usize,
    to: usize,
    packets: &mut Vec<[u8; 188]>,
) -> Result<usize, AllocError>
    requires { length reader.old < 2 ^ 40 }
    ensures { length reader.new ≤ length reader.old + 2000 }
{
    let piece = stream.get(from..to).unwrap_or(&[]);
    if piece.len() > 2000 {
        return Ok(usize::MAX);
    }
    let lent = reader.feed_lending(piece, packets)?;
    if piece.starts_with(lent.as_flattened()) {
        return Ok(lent.len());
    }
    Ok(usize::MAX)
}

/// How many packets a reader lends of each piece of a stream, which are three packets, two, the beginning of one and the rest of
/// it; and how many bytes it skips.
fn lent(stream: &[u8], packets: &mut Vec<[u8; 188]>) -> Result<([usize; 4], u64), AllocError> {
    let mut reader = Reader::new();
    let first = lend(&mut reader, stream, 0, 564, packets)?;
    let second = lend(&mut reader, stream, 564, 940, packets)?;
    let begun = lend(&mut reader, stream, 940, 1000, packets)?;
    let ended = lend(&mut reader, stream, 1000, 1128, packets)?;
    Ok(([first, second, begun, ended], reader.finish(packets)?.bytes))
}

/// The same, and whether what the reader appends is the other packets.
fn told_lent(alloc: Global, stream: &[u8]) -> Result<(([usize; 4], u64), bool), AllocError> {
    let mut packets = Vec::new(alloc);
    let told = lent(stream, &mut packets);
    let appended = packets.as_flattened();
    let are = appended.starts_with(&stream[..stream.len().min(564)])
        && appended.ends_with(&stream[stream.len().min(940)..])
        && packets.len() == 4;
    Ok((told?, are))
}

/// None is lent of the first piece, since no packet ended before it.
#[test]
fn packets_are_lent_where_they_stand(rt: HostRuntime) -> Result<(), Fail> {
    let stream = six_packets(rt.alloc())?;
    let told = told_lent(rt.alloc(), &stream)?;
    assert_same(
        &rt,
        "packets are lent where they stand",
        told,
        (([0, 2, 0, 0], 0), true),
    );
    Ok(())
}
