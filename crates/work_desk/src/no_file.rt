use folder::{AheadFile, WriteFile};
use std::io;
use std::io::{Error, ErrorKind, Write};

/// The file of a gate that has none: nothing can be written into it.
#[derive(Clone, Copy, Debug, Drop)]
pub struct NoFile;

impl Write for NoFile {
    fn write(&mut self, _buf: &[u8]) -> io::Result<usize> {
        Err(Error::from(ErrorKind::Unsupported))
    }

    fn flush(&mut self) -> io::Result<()> {
        Ok(())
    }
}

impl WriteFile for NoFile {
    fn finish(self) -> Option<AheadFile> {
        None
    }

    fn give_up(self) {}
}
