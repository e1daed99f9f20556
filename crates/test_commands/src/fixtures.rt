//! Streams, readers and writers of the tests.

use commands::{
    CipherOptions, CipherWords, FileFault, FileReader, NumberWords, PackingWords,
    read_cipher_options, read_settings,
};
use fixture_standard_stream::{KEY_FRAME, STREAM, append_packets, filled};
use pipeline::Settings;
use std::alloc::{AllocError, Global};
use std::io;
use std::io::{ErrorKind, Read, Write};
use std::test::Fail;

/// A key.
pub const KEY: &str = "000102030405060708090a0b0c0d0e0f";

/// A vector.
pub const VECTOR: &str = "10013223544576679889baabdccdfeef";

/// The bytes of that key.
pub const KEY_BYTES: [u8; 16] = [0, 1, 2, 3, 4, 5, 6, 7, 8, 9, 10, 11, 12, 13, 14, 15];

/// Files of keys: their paths, and what each holds. Reading one that isn't there is refused, and reading `full` wants memory.
#[derive(Clone, Copy, Drop)]
pub struct KeyFiles {
    pub files: &'static [(&'static str, &'static [u8])],
}

/// No files.
pub const NO_FILES: KeyFiles = KeyFiles { files: &[] };

impl FileReader for KeyFiles {
    ghost use Rattle.std.specs.Prelude.{⊤};

    ghost gives = { λ _ _ _. ⊤ };

    ghost refuses = { λ _ _. ⊤ };

    ghost wants = { λ _ _. ⊤ };

    fn read(&self, alloc: Global, path: &str) -> Result<Vec<u8>, FileFault> {
        if path == "full" {
            return Err(FileFault::NoMemory);
        }
        for (name, bytes) in self.files {
            if *name == path {
                return Ok(Vec::from_slice(alloc, bytes)?);
            }
        }
        Err(FileFault::Unread)
    }

    fn read_front(&self, alloc: Global, path: &str, most: usize) -> Result<Vec<u8>, FileFault> {
        let mut bytes = self.read(alloc, path)?;
        bytes.truncate(most);
        Ok(bytes)
    }
}

/// That key and that vector.
pub fn cipher(alloc: Global) -> Result<CipherOptions, Fail> {
    let words = CipherWords {
        key: KEY,
        seq: None,
        iv: Some(VECTOR),
    };
    Ok(read_cipher_options(alloc, &NO_FILES, words).map_err(|_| "a key and a vector")?)
}

/// A rendition of this size and these keys.
pub fn words<'a>(size: &'a str, keys: &'a str) -> PackingWords<'a> {
    PackingWords {
        name: None,
        codecs: "avc1.4d401e",
        size,
        keys,
        salt: None,
        event: false,
    }
}

/// None of a packager's numbers.
pub fn no_numbers() -> NumberWords {
    NumberWords {
        target: None,
        segment: None,
        window: None,
        frame: None,
        gap: None,
        most: None,
        period: None,
        program: None,
    }
}

/// The settings of a rendition of this size under that key.
pub fn settings(alloc: Global, size: &str) -> Result<Settings, Fail> {
    Ok(read_settings(alloc, &NO_FILES, words(size, KEY), no_numbers()).map_err(|_| "settings")?)
}

/// The packet of the first key frame.
pub fn key_frame() -> [u8; 188] {
    filled(KEY_FRAME, &[])
}

/// The bytes of the standard stream.
pub fn stream_bytes(alloc: Global) -> Result<Vec<u8>, AllocError> {
    let mut bytes = Vec::new(alloc);
    append_packets(&mut bytes, &STREAM)?;
    Ok(bytes)
}

/// A reader that fails once it has given its bytes.
#[derive(Drop)]
pub struct BrokenReader<'a> {
    pub bytes: &'a [u8],
}

impl Read for BrokenReader<'_> {
    fn read(&mut self, buf: &mut [u8]) -> io::Result<usize> {
        if self.bytes.is_empty() {
            return Err(io::Error::from(ErrorKind::BrokenPipe));
        }
        self.bytes.read(buf)
    }
}

/// A writer that takes a few bytes and then fails.
#[derive(Drop)]
pub struct FullWriter {
    pub taken: Vec<u8>,
    pub room: usize,
}

impl Write for FullWriter {
    fn write(&mut self, buf: &[u8]) -> io::Result<usize> {
        let count = buf.len().min(self.room);
        if count == 0 {
            return Err(io::Error::from(ErrorKind::StorageFull));
        }
        let (front, _) = buf.split_at(count);
        self.taken.extend_from_slice(front)?;
        self.room -= count;
        Ok(count)
    }

    fn flush(&mut self) -> io::Result<()> {
        Ok(())
    }
}
