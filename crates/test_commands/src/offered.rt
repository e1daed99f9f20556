//! What the threads that seal write ahead.

ghost use Rattle.std.specs.Prelude.{Some};

use folder::{AheadFile, WriteAhead, WriteFile};
use std::alloc::Global;
use std::io;
use std::io::Write;
use std::sync::atomic::{AtomicU64, Ordering};

/// Counts the segments that were written into its files, and their bytes. None of the files stands ready in the end.
#[derive(Drop)]
pub(crate) struct Offered {
    alloc: Global,
    segments: AtomicU64,
    bytes: AtomicU64,
}

impl Offered {
    /// Nothing was written yet.
    pub(crate) fn nothing(alloc: Global) -> Offered {
        Offered {
            alloc,
            segments: AtomicU64::new(0),
            bytes: AtomicU64::new(0),
        }
    }

    /// How many segments, and how many bytes of them.
    pub(crate) fn counts(&self) -> (u64, u64) {
        (
            self.segments.load(Ordering::SeqCst),
            self.bytes.load(Ordering::SeqCst),
        )
    }
}

/// A file in memory, which is counted once it is whole.
#[derive(Drop)]
pub(crate) struct CountedFile<'a> {
    bytes: Vec<u8>,
    of: &'a Offered,
}

impl Write for CountedFile<'_> {
    ghost contents = { λ f. Some f.bytes.items };

    fn write(&mut self, buf: &[u8]) -> io::Result<usize> {
        self.bytes.write(buf)
    }

    fn flush(&mut self) -> io::Result<()> {
        Ok(())
    }
}

impl WriteFile for CountedFile<'_> {
    fn finish(self) -> Option<AheadFile> {
        self.of.segments.fetch_add(1, Ordering::SeqCst);
        self.of
            .bytes
            .fetch_add(self.bytes.len() as u64, Ordering::SeqCst);
        None
    }

    fn give_up(self) {}
}

impl<'a> WriteAhead for &'a Offered {
    type File = CountedFile<'a>;

    fn begin(&self, _rendition: usize, _number: u64) -> Option<CountedFile<'a>> {
        Some(CountedFile {
            bytes: Vec::new(self.alloc),
            of: *self,
        })
    }
}
