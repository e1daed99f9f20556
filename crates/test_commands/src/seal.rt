use crate::asserts::assert_same;
use crate::fixtures::{BrokenReader, FullWriter, cipher, key_frame};
use aes_cbc::Key;
use commands::{SealingFault, seal};
use item_io::ReaderSource;
use std::alloc::Global;
use std::io;
use std::io::{ErrorKind, Read, Write};
use std::test::Fail;

/// What `seal` writes of an input with the fixtures' key and vector.
pub fn sealed(alloc: Global, input: &[u8]) -> Result<Vec<u8>, Fail> {
    let cipher = cipher(alloc)?;
    let mut input = ReaderSource::new(input);
    let mut output = Vec::new(alloc);
    seal(alloc, &cipher.key, &cipher.vector, &mut input, &mut output).map_err(|_| "sealing")?;
    Ok(output)
}

#[test]
fn an_empty_stream_is_a_block_of_padding(rt: HostRuntime) -> Result<(), Fail> {
    let line = b"69c4e0d86a7b0430d8cdb78070b4c55a\n";
    let empty = sealed(rt.alloc(), &[])?;
    assert_same(&rt, "an empty stream", empty.as_slice(), line.as_slice());
    let packet = key_frame();
    let (short, _) = packet.split_at(187);
    let short = sealed(rt.alloc(), short)?;
    assert_same(&rt, "less than a packet", short.as_slice(), line.as_slice());
    Ok(())
}

#[test]
fn a_packet_is_twelve_blocks(rt: HostRuntime) -> Result<(), Fail> {
    let line = sealed(rt.alloc(), &key_frame())?;
    let begins = line.starts_with(
        b"413bea79d2e9de55a68238032b13225d56017f6340ba455f97a44d8978779f9c",
    );
    let ends = line.ends_with(
        b"1df2490c9bf172e2dbfb680ef720c334e5d57a2137add63911a40e539f67559b\n",
    );
    assert_same(
        &rt,
        "a packet is twelve blocks",
        (line.len(), begins, ends),
        (385, true, true),
    );
    Ok(())
}

#[test]
fn a_failed_read_is_unread(rt: HostRuntime) -> Result<(), Fail> {
    let alloc = rt.alloc();
    let packet = key_frame();
    let mut input = ReaderSource::new(BrokenReader { bytes: &packet });
    let mut output = Vec::new(alloc);
    let answer = seal(alloc, &Key::new([0; 16]), &[0; 16], &mut input, &mut output);
    assert_same(
        &rt,
        "a failed read",
        (answer, output.len()),
        (Err(SealingFault::Unread), 0),
    );
    Ok(())
}

#[test]
fn a_failed_write_leaves_a_beginning(rt: HostRuntime) -> Result<(), Fail> {
    let alloc = rt.alloc();
    let whole = sealed(alloc, &key_frame())?;
    let cipher = cipher(alloc)?;
    for room in [0, 1, 384] {
        let packet = key_frame();
        let mut input = ReaderSource::new(packet.as_slice());
        let mut output = FullWriter {
            taken: Vec::new(alloc),
            room,
        };
        let answer = seal(alloc, &cipher.key, &cipher.vector, &mut input, &mut output);
        assert_same(
            &rt,
            ("room for", room),
            (answer, output.taken.len(), whole.starts_with(&output.taken)),
            (Err(SealingFault::Unwritten), room, true),
        );
    }
    Ok(())
}

/// A reader and a writer whose first calls are interrupted, so many times.
#[derive(Drop)]
struct Interrupted<'a> {
    bytes: &'a [u8],
    reads: u32,
    writes: u32,
    flushes: bool,
}

impl Read for Interrupted<'_> {
    fn read(&mut self, buf: &mut [u8]) -> io::Result<usize> {
        if self.reads > 0 {
            self.reads -= 1;
            return Err(io::Error::from(ErrorKind::Interrupted));
        }
        self.bytes.read(buf)
    }
}

impl Write for Interrupted<'_> {
    fn write(&mut self, buf: &[u8]) -> io::Result<usize> {
        if self.writes > 0 {
            self.writes -= 1;
            return Err(io::Error::from(ErrorKind::Interrupted));
        }
        Ok(buf.len())
    }

    fn flush(&mut self) -> io::Result<()> {
        if self.flushes {
            return Ok(());
        }
        Err(io::Error::from(ErrorKind::StorageFull))
    }
}

#[test]
fn interrupted_calls_are_made_again(rt: HostRuntime) -> Result<(), Fail> {
    let table = [
        (65_535, 65_535, true, Ok(())),
        (65_536, 0, true, Err(SealingFault::Unread)),
        (0, 65_536, true, Err(SealingFault::Unwritten)),
        (0, 0, false, Err(SealingFault::Unwritten)),
    ];
    let packet = key_frame();
    for (reads, writes, flushes, wanted) in table {
        let mut input = ReaderSource::new(Interrupted {
            bytes: &packet,
            reads,
            writes: 0,
            flushes,
        });
        let mut output = Interrupted {
            bytes: &[],
            reads: 0,
            writes,
            flushes,
        };
        let key = Key::new([0; 16]);
        let answer = seal(rt.alloc(), &key, &[0; 16], &mut input, &mut output);
        assert_same(&rt, (reads, writes, flushes), answer, wanted);
    }
    Ok(())
}
