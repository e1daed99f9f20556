//! Tests of texts that are sealed into writers: each comes out as the whole text does, a chunk at a time.

use crate::asserts::assert_same;
use crate::side_by_side::{lane, text};
use aes_cbc::{CHUNK, SealFault, seal, seal_into, seal_two_into};
use std::alloc::{AllocError, Global};
use std::io;
use std::io::{ErrorKind, Write};

/// How many bytes of a text lie there, and how many come behind them.
pub(crate) type Parts = (usize, usize);

/// What was answered, how many bytes a writer has, and whether they are the text sealed, or its beginning.
pub(crate) type Told = (Result<(), SealFault>, usize, bool);

/// Texts at each side of the borders of chunks: as a whole, and behind their first block.
const PARTS: [Parts; 13] = [
    (0, 0),
    (0, 15),
    (0, 16),
    (5, 15),
    (0, CHUNK - 1),
    (0, CHUNK),
    (0, CHUNK + 1),
    (0, CHUNK + 15),
    (0, CHUNK + 16),
    (376, CHUNK + 8),
    (376, CHUNK + 7),
    (15, 2 * CHUNK + 1),
    (0, 3 * CHUNK + 5),
];

/// Two texts of as many chunks, and of more in either place.
const TWO_PARTS: [[Parts; 2]; 4] = [
    [(0, 3 * CHUNK + 5), (376, 3 * CHUNK + 8)],
    [(376, CHUNK + 8), (5, 2 * CHUNK)],
    [(31, 2 * CHUNK), (0, CHUNK - 1)],
    [(376, 15), (376, CHUNK + 8)],
];

/// A writer that takes so many bytes and then fails.
#[derive(Drop)]
pub(crate) struct Narrow {
    pub(crate) taken: Vec<u8>,
    room: usize,
    /// How many bytes the longest write was asked to take.
    longest: usize,
}

impl Narrow {
    pub(crate) fn new(alloc: Global, room: usize) -> Narrow {
        Narrow {
            taken: Vec::new(alloc),
            room,
            longest: 0,
        }
    }
}

impl Write for Narrow {
    fn write(&mut self, buf: &[u8]) -> io::Result<usize> {
        self.longest = self.longest.max(buf.len());
        let count = buf.len().min(self.room);
        if count == 0 {
            return Err(io::Error::from(ErrorKind::StorageFull));
        }
        let (front, _) = buf.split_at(count);
        self.taken.extend_from_slice(front)?;
        self.room -= count;
        Ok(count)
    }

    fn flush(&mut self) -> io::Result<()> {
        Ok(())
    }
}

/// The bytes that lie there, with the whole text.
pub(crate) fn cut(
    alloc: Global,
    parts: Parts,
    number: u8,
) -> Result<(Vec<u8>, Vec<u8>), AllocError> {
    let whole = text(alloc, parts.0.saturating_add(parts.1), number)?;
    let mut front = Vec::new(alloc);
    front.extend_from_slice(whole.get(..parts.0).unwrap_or(&[]))?;
    Ok((front, whole))
}

/// What is behind so many bytes.
pub(crate) fn behind(whole: &[u8], front: usize) -> &[u8] {
    whole.get(front..).unwrap_or(&[])
}

/// What was answered of a text and the bytes that were written: all of it, where it went well.
pub(crate) fn told(
    alloc: Global,
    answer: Result<(), SealFault>,
    taken: &[u8],
    whole: &[u8],
    number: u8,
) -> Result<Told, AllocError> {
    let (key, vector) = lane(number);
    let sealed = seal(alloc, &key, &vector, whole)?;
    let same = match answer {
        Ok(()) => sealed.as_slice() == taken,
        Err(_) => sealed.starts_with(taken),
    };
    Ok((answer, taken.len(), same))
}

/// Seals a text into a vector.
fn into_vector(alloc: Global, parts: Parts) -> Result<Told, AllocError> {
    let (mut front, whole) = cut(alloc, parts, 0)?;
    let (key, vector) = lane(0);
    let mut out = Vec::new(alloc);
    let more = behind(&whole, parts.0);
    let answer = seal_into(&key, &vector, &mut front, more, &mut out);
    told(alloc, answer, &out, &whole, 0)
}

/// Seals a text into a writer.
fn into_writer(alloc: Global, parts: Parts, out: &mut Narrow) -> Result<Told, AllocError> {
    let (mut front, whole) = cut(alloc, parts, 0)?;
    let (key, vector) = lane(0);
    let more = behind(&whole, parts.0);
    let answer = seal_into(&key, &vector, &mut front, more, out);
    told(alloc, answer, &out.taken, &whole, 0)
}

/// Seals two texts into writers with so much room.
fn into_two(
    alloc: Global,
    parts: [Parts; 2],
    rooms: [usize; 2],
) -> Result<(Told, Told), AllocError> {
    let (mut first, one) = cut(alloc, parts[0], 0)?;
    let (mut second, two) = cut(alloc, parts[1], 1)?;
    let (a, b) = (lane(0), lane(1));
    let mut first_out = Narrow::new(alloc, rooms[0]);
    let mut second_out = Narrow::new(alloc, rooms[1]);
    let answers = seal_two_into(
        (&a.0, &b.0),
        &[a.1, b.1],
        &mut first,
        &mut second,
        (behind(&one, parts[0].0), behind(&two, parts[1].0)),
        &mut first_out,
        &mut second_out,
    );
    Ok((
        told(alloc, answers.0, &first_out.taken, &one, 0)?,
        told(alloc, answers.1, &second_out.taken, &two, 1)?,
    ))
}

/// How long a text of these parts is once it is sealed.
pub(crate) fn sealed_len(parts: Parts) -> usize {
    let blocks = parts.0.saturating_add(parts.1) / 16;
    blocks.saturating_add(1).saturating_mul(16)
}

#[test]
fn a_text_is_written_as_it_is_sealed(rt: HostRuntime) -> Result<(), AllocError> {
    for parts in PARTS {
        let wanted = (Ok(()), sealed_len(parts), true);
        let mut out = Narrow::new(rt.alloc(), usize::MAX);
        let written = into_writer(rt.alloc(), parts, &mut out)?;
        let came = (
            written,
            into_vector(rt.alloc(), parts)?,
            out.longest <= CHUNK,
        );
        assert_same(&rt, parts, came, (wanted, wanted, true));
    }
    Ok(())
}

#[test]
fn two_texts_are_written_as_they_are_sealed(rt: HostRuntime) -> Result<(), AllocError> {
    for parts in TWO_PARTS {
        let came = into_two(rt.alloc(), parts, [usize::MAX, usize::MAX])?;
        let first = (Ok(()), sealed_len(parts[0]), true);
        let second = (Ok(()), sealed_len(parts[1]), true);
        assert_same(&rt, parts, came, (first, second));
    }
    Ok(())
}

#[test]
fn a_failed_write_is_told(rt: HostRuntime) -> Result<(), AllocError> {
    let parts = (376, 2 * CHUNK);
    for room in [0, 1, 384, 385, CHUNK + 384, 2 * CHUNK + 383] {
        let mut out = Narrow::new(rt.alloc(), room);
        let came = into_writer(rt.alloc(), parts, &mut out)?;
        let wanted = (Err(SealFault::Unwritten), room, true);
        assert_same(&rt, room, came, wanted);
    }
    Ok(())
}

#[test]
fn a_failed_write_leaves_the_other_text(rt: HostRuntime) -> Result<(), AllocError> {
    let parts = [(376, 3 * CHUNK), (5, 3 * CHUNK + 20)];
    for room in [0, 100, CHUNK + 100, 2 * CHUNK + 400] {
        let first = (Err(SealFault::Unwritten), room, true);
        let second = (Ok(()), sealed_len(parts[1]), true);
        let came = into_two(rt.alloc(), parts, [room, usize::MAX])?;
        assert_same(&rt, room, came, (first, second));

        let first = (Ok(()), sealed_len(parts[0]), true);
        let second = (Err(SealFault::Unwritten), room, true);
        let came = into_two(rt.alloc(), parts, [usize::MAX, room])?;
        assert_same(&rt, room, came, (first, second));
    }
    Ok(())
}
