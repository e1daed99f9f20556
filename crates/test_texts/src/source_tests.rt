ghost use Rattle.std.specs.Prelude.{◌≡◌};

use crate::asserts::assert_same;
use item_io::{FailingReader, ReaderSource, Source};
use std::alloc::{AllocError, Global};
use std::io;
use std::io::{ErrorKind, Read};

/// All that a source gives in reads of 300 bytes at most, and how many of them failed.
fn drain<S: Source>(alloc: Global, source: &mut S) -> Result<(Vec<u8>, u64), AllocError>
    requires reads { S.input.reads source.old ≡ 0 }
    requires failures { S.input.failures source.old ≡ 0 }
{
    let mut bytes = Vec::new(alloc);
    let mut buffer = [0; 300];
    let mut failures = 0;
    for _ in 0..2000u64 {
        match source.read(&mut buffer) {
            Ok(0) => break,
            Ok(count) => {
                bytes.extend_from_slice(&buffer[..count])?;
                continue;
            }
            Err(_) => {
                failures += 1;
                continue;
            }
        }
    }
    Ok((bytes, failures))
}

/// Five packets of null data.
fn packets() -> [u8; 940] {
    let mut bytes = [0xFF; 940];
    for at in [0, 188, 376, 564, 752] {
        bytes[at] = 0x47;
    }
    bytes
}

/// What five packets give as a source in pieces of which read `n` fails, and how many reads failed.
fn drain_pieces(alloc: Global, piece: usize, n: u64) -> Result<(Vec<u8>, u64), AllocError> {
    let bytes = packets().as_slice().to_vec(alloc)?;
    drain(alloc, &mut FailingReader::new(bytes, piece.max(1), n))
}

#[test]
fn pieces_and_a_failure(rt: HostRuntime) -> Result<(), AllocError> {
    for (piece, n, failed) in [
        (1, 0, 0),
        (1, 1, 1),
        (1, 940, 1),
        (1, 941, 1),
        (1, 942, 0),
        (188, 0, 0),
        (188, 3, 1),
        (940, 0, 0),
        (940, 4, 1),
        (940, 5, 1),
        (940, 6, 0),
    ] {
        let (bytes, failures) = drain_pieces(rt.alloc(), piece, n)?;
        assert_same(
            &rt,
            (piece, n),
            (failures, bytes.as_slice()),
            (failed, packets().as_slice()),
        );
    }
    Ok(())
}

/// A reader of a few bytes, each of whose reads fails a number of times before it gives a byte.
#[derive(Drop)]
struct Faltering<'a> {
    bytes: &'a [u8],
    kind: ErrorKind,
    times: u32,
    left: u32,
}

impl Read for Faltering<'_> {
    fn read(&mut self, buf: &mut [u8]) -> io::Result<usize> {
        if self.left > 0 {
            self.left -= 1;
            return Err(io::Error::from(self.kind));
        }
        self.left = self.times;
        let (front, _) = buf.split_at_mut(buf.len().min(1));
        self.bytes.read(front)
    }
}

/// What such a reader gives as a source, and how many reads failed.
fn drain_faltering(
    alloc: Global,
    kind: ErrorKind,
    times: u32,
) -> Result<(Vec<u8>, u64), AllocError> {
    let reader = Faltering {
        bytes: b"abc",
        kind,
        times,
        left: times,
    };
    drain(alloc, &mut ReaderSource::new(reader))
}

#[test]
fn interrupted_reads_are_made_again(rt: HostRuntime) -> Result<(), AllocError> {
    for (kind, times, failed) in [
        (ErrorKind::Interrupted, 0, 0),
        (ErrorKind::Interrupted, 1, 0),
        (ErrorKind::Interrupted, 65_535, 0),
        (ErrorKind::Interrupted, 65_536, 4),
        (ErrorKind::BrokenPipe, 1, 4),
        (ErrorKind::WouldBlock, 2, 8),
    ] {
        let (bytes, failures) = drain_faltering(rt.alloc(), kind, times)?;
        assert_same(
            &rt,
            (kind, times),
            (failures, bytes.as_slice()),
            (failed, b"abc".as_slice()),
        );
    }
    Ok(())
}

#[test]
fn a_reader_is_given_back(rt: HostRuntime) {
    let mut source = ReaderSource::new(b"abcdef".as_slice());
    let mut buffer = [0; 4];
    let count = source.read(&mut buffer).ok();
    let left = source.into_reader();
    assert_same(&rt, "abcdef", (count, left), (Some(4), b"ef".as_slice()));
}
