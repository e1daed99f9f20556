ghost use Rattle.std.specs.Prelude.{◌≤◌, IfOk};

use crate::asserts::assert_same;
use crate::items::put_items;
use item_io::{Item, LineOutlet, Outlet};
use std::alloc::{AllocError, Global};
use std::io;
use std::io::{ErrorKind, Write};
use std::process::Abort;

/// The lines of one item of each kind.
const LINES: &[u8] = b"segment hd%201.7.ts 4\n0047abff\n\
media hd%201.m3u8 2\n#EXTM3U\n#EXT-X-VERSION:4\n\
frames v.iframes.m3u8 1\n#EXTM3U\n\
master master.m3u8 2\n#EXTM3U\n#EXT-X-VERSION:4\n";

/// What goes wrong with a writer.
#[derive(Clone, Copy)]
enum Trouble {
    /// The write behind this many bytes fails; it would take all that come later.
    FullOnce(usize),
    /// Every other write is interrupted, and the others take one byte.
    Interrupted,
    /// It takes all, and can't be flushed.
    Unflushed,
}

#[derive(Drop)]
struct TroubledWriter {
    taken: Vec<u8>,
    trouble: Trouble,
    calls: u64,
}

impl TroubledWriter {
    /// How many of so many bytes the next write takes.
    fn room(&mut self, len: usize) -> io::Result<usize>
        ensures { IfOk result (λ count. count ≤ len) }
    {
        self.calls = self.calls.wrapping_add(1);
        match self.trouble {
            Trouble::FullOnce(0) => {
                self.trouble = Trouble::FullOnce(usize::MAX);
                Err(io::Error::from(ErrorKind::StorageFull))
            }
            Trouble::FullOnce(room) => {
                let count = len.min(room);
                self.trouble = Trouble::FullOnce(room - count);
                Ok(count)
            }
            Trouble::Interrupted => {
                if self.calls % 2 == 1 {
                    return Err(io::Error::from(ErrorKind::Interrupted));
                }
                Ok(len.min(1))
            }
            Trouble::Unflushed => Ok(len),
        }
    }
}

impl Write for TroubledWriter {
    fn write(&mut self, buf: &[u8]) -> io::Result<usize> {
        let count = self.room(buf.len())?;
        self.taken.extend_from_slice(&buf[..count])?;
        Ok(count)
    }

    fn flush(&mut self) -> io::Result<()> {
        if matches!(&self.trouble, Trouble::Unflushed) {
            return Err(io::Error::from(ErrorKind::BrokenPipe));
        }
        Ok(())
    }
}

/// What such a writer gets of one item of each kind, and how many puts failed.
fn lines_with(alloc: Global, trouble: Trouble) -> Result<(Vec<u8>, u64), AllocError> {
    let writer = TroubledWriter {
        taken: Vec::new(alloc),
        trouble,
        calls: 0,
    };
    let mut outlet = LineOutlet::new(alloc, writer);
    let failures = put_items(alloc, &mut outlet)?;
    let TroubledWriter { taken, .. } = outlet.into_writer();
    Ok((taken, failures))
}

/// Fails unless such a writer gets so many bytes of the lines, and so many puts fail.
fn assert_lines(
    rt: &impl Abort,
    alloc: Global,
    trouble: Trouble,
    count: usize,
    failed: u64,
) -> Result<(), AllocError> {
    let (taken, failures) = lines_with(alloc, trouble)?;
    let wanted = (LINES.get(..count), failed);
    assert_same(rt, count, (Some(taken.as_slice()), failures), wanted);
    Ok(())
}

#[test]
fn items_of_each_kind_as_lines(rt: HostRuntime) -> Result<(), AllocError> {
    let mut outlet = LineOutlet::new(rt.alloc(), Vec::new(rt.alloc()));
    let failures = put_items(rt.alloc(), &mut outlet)?;
    let lines = outlet.into_writer();
    assert_same(&rt, "lines", (lines.as_slice(), failures), (LINES, 0));
    Ok(())
}

#[test]
fn a_writer_that_fails_at_each_byte(rt: HostRuntime) -> Result<(), AllocError> {
    for room in 0..LINES.len() {
        let failed = match room {
            0..31 => 4,
            31..76 => 3,
            76..108 => 2,
            _ => 1,
        };
        assert_lines(&rt, rt.alloc(), Trouble::FullOnce(room), room, failed)?;
    }
    Ok(())
}

#[test]
fn interrupted_writes_and_failed_flushes(rt: HostRuntime) -> Result<(), AllocError> {
    assert_lines(&rt, rt.alloc(), Trouble::Interrupted, LINES.len(), 0)?;
    assert_lines(&rt, rt.alloc(), Trouble::Unflushed, 31, 4)
}

/// A segment of so many bytes.
fn segment(alloc: Global, len: usize) -> Result<Item, AllocError> {
    let name = String::from_str(alloc, "v")?;
    Ok(Item::Segment {
        rendition: 0,
        number: 0,
        name,
        bytes: vec![in alloc; 0x5A; len]?,
    })
}

/// What an outlet writes of it, and whether it takes it.
fn lines_of(alloc: Global, len: usize) -> Result<(Vec<u8>, bool), AllocError> {
    let segment = segment(alloc, len)?;
    let mut outlet = LineOutlet::new(alloc, Vec::new(alloc));
    let put = outlet.put(&segment).is_ok();
    Ok((outlet.into_writer(), put))
}

/// A line, and one of the digits of so many bytes.
fn with_digits(alloc: Global, first: &str, len: usize) -> Result<String, AllocError> {
    let digits = "5a".repeat(alloc, len)?;
    format!(in alloc; "{first}\n{digits}\n")
}

#[test]
fn a_long_segment_is_one_line(rt: HostRuntime) -> Result<(), AllocError> {
    for (len, first) in [
        (0, "segment v.0.ts 0"),
        (8191, "segment v.0.ts 8191"),
        (8192, "segment v.0.ts 8192"),
        (20_000, "segment v.0.ts 20000"),
    ] {
        let (lines, put) = lines_of(rt.alloc(), len)?;
        let wanted = with_digits(rt.alloc(), first, len)?;
        assert_same(
            &rt,
            first,
            (lines.as_slice(), put),
            (wanted.as_bytes(), true),
        );
    }
    Ok(())
}
