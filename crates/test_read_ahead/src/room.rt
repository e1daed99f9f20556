use crate::asserts::assert_same;
use crate::fixtures::{Pattern, UNBOUNDED, pattern_of};
use read_ahead::{Contents, Input, InputsView, Limits, OpenInput, open_all, open_paths};
use std::alloc::{AllocError, Global};
use std::io::Read;
use std::sync::{Arc, Mutex, Wait};
use std::test::Fail;
use std::thread::Threads;
use std::time::{Clock, Duration};
use std::{fs, io, thread};

/// A reader that counts the bytes that it gave.
struct Counting<R: Wait> {
    rt: R,
    reader: Pattern,
    given: Arc<Mutex<usize>, Global>,
}

impl<R: Wait + Drop> Drop for Counting<R> {
    fn drop(self) {
        let Counting {
            rt: _,
            reader: _,
            given: _,
        } = self;
    }
}

impl<R: Wait> Read for Counting<R> {
    fn read(&mut self, buf: &mut [u8]) -> io::Result<usize> {
        let count = self.reader.read(buf)?;
        let mut given = self.given.lock(&self.rt);
        *given = (*given).saturating_add(count);
        Ok(count)
    }
}

/// How many MiB may be read ahead, of how many inputs, and how many bytes that leaves to each, which reads 56,400 at once.
const ROOMS: [(u64, usize, usize); 3] = [(1, 1, 1 << 20), (2, 4, 512 << 10), (1, 64, 64 << 10)];

#[test]
fn what_is_read_ahead_is_bounded(rt: HostRuntime) -> Result<(), Fail> {
    for (ahead, count, room) in ROOMS {
        let given = Arc::new(rt.alloc(), Mutex::new(0))?;
        let mut inputs = Vec::new(rt.alloc());
        for _ in 0..count {
            inputs.push(OpenInput {
                reader: Counting {
                    rt,
                    reader: pattern_of(8 << 20, 1 << 20),
                    given: Arc::try_clone(&given)?,
                },
            })?;
        }
        let limits = Limits {
            stall: None,
            ahead: Some(ahead),
        };
        if let Ok(_sources) = open_all(rt, rt.alloc(), inputs, limits) {
            thread::sleep(&rt, Duration::from_millis(300));
            let most = count.saturating_mul(room.saturating_add(56_400));
            let bytes = *given.lock(&rt);
            assert_same(
                &rt,
                (bytes, "bytes of", count, "inputs"),
                (bytes > 0, bytes <= most),
                (true, true),
            );
        }
    }
    Ok(())
}

/// A reader of so many bytes, whatever they are.
#[derive(Drop)]
struct Bytes {
    left: usize,
}

impl Read for Bytes {
    fn read(&mut self, buf: &mut [u8]) -> io::Result<usize> {
        let count = self.left.min(buf.len());
        self.left = self.left.saturating_sub(count);
        Ok(count)
    }
}

/// An input of so many bytes that is a plain file, or not.
#[derive(Drop)]
struct Kept {
    bytes: usize,
    is_file: bool,
}

impl Contents for Kept {
    ghost use Rattle.std.specs.Prelude.{None};

    ghost holds = { λ _. None };
}

impl Input for Kept {
    type Reader = Bytes;

    fn may_wait(&self) -> bool {
        false
    }

    fn is_file(&self) -> bool {
        self.is_file
    }

    fn open(self) -> Option<Bytes> {
        Some(Bytes { left: self.bytes })
    }
}

/// How many bytes of an input lie ready where so many MiB are read ahead, once so many do, and a moment later.
fn ready_of<
    R: Threads + Wait + Clock + Copy + Send + Drop + 'static,
    I: Input + Drop + Send + 'static,
>(
    rt: R,
    alloc: Global,
    input: I,
    ahead: Option<u64>,
    most: usize,
) -> Result<Option<usize>, AllocError>
where
    I::Reader: Send + 'static,
{
    let mut inputs = Vec::new(alloc);
    inputs.push(input)?;
    let limits = Limits { stall: None, ahead };
    let Ok(sources) = open_all(rt, alloc, inputs, limits) else {
        return Err(AllocError);
    };
    let Some(source) = sources.first() else {
        return Ok(None);
    };
    ready_at_last(&rt, alloc, &source.view()?, most)
}

/// How many bytes of the first input lie ready, once so many do, and a moment later.
fn ready_at_last<R: Wait + Clock>(
    rt: &R,
    alloc: Global,
    view: &InputsView,
    most: usize,
) -> Result<Option<usize>, AllocError> {
    for _ in 0..1000u32 {
        if ready_now(rt, alloc, view)? >= Some(most) {
            break;
        }
        thread::sleep(rt, Duration::from_millis(10));
    }
    thread::sleep(rt, Duration::from_millis(100));
    ready_now(rt, alloc, view)
}

/// How many bytes of the first input lie ready.
fn ready_now<R: Wait + Clock>(
    rt: &R,
    alloc: Global,
    view: &InputsView,
) -> Result<Option<usize>, AllocError> {
    Ok(view.look(rt, alloc)?.first().map(|state| state.bytes))
}

/// Reads that give so many bytes, of which a block has 56,400 at most, and how many of these lie ready: as many as there is room for
/// in 1 MiB, and 32,768 blocks at most.
const BLOCKS: [(usize, usize); 4] = [
    (65_536, 18 * 56_400),
    (52_428, 20 * 52_428),
    (33, 31_775 * 33),
    (1, 32_768),
];

#[test]
fn a_block_waits_for_room(rt: HostRuntime) -> Result<(), Fail> {
    for (piece, most) in BLOCKS {
        let input = OpenInput {
            reader: pattern_of(2 << 20, piece),
        };
        let bytes = ready_of(rt, rt.alloc(), input, Some(1), most)?;
        assert_same(&rt, ("blocks of", piece), bytes, Some(most));
    }
    Ok(())
}

/// How many MiB may be read ahead, whether the input is a plain file, and how many bytes of it lie ready, in blocks of 56,400: as many
/// as there is room for in 8 MiB, in 32, or in those.
const KINDS: [(Option<u64>, bool, usize); 4] = [
    (None, true, 148 * 56_400),
    (None, false, 594 * 56_400),
    (Some(2), true, 37 * 56_400),
    (Some(2), false, 37 * 56_400),
];

#[test]
fn a_plain_file_has_less_room(rt: HostRuntime) -> Result<(), Fail> {
    for (ahead, is_file, most) in KINDS {
        let input = Kept {
            bytes: 34 << 20,
            is_file,
        };
        let bytes = ready_of(rt, rt.alloc(), input, ahead, most)?;
        assert_same(&rt, (ahead, "and a file", is_file), bytes, Some(most));
    }
    Ok(())
}

#[test]
fn a_file_of_the_system_is_a_plain_one(rt: HostRuntime) -> Result<(), Fail> {
    let bytes = vec![in rt.alloc(); 0; 9 << 20]?;
    fs::write(&rt, "long", bytes.as_slice())?;
    let most = 148 * 56_400;
    let mut ready = None;
    if let Ok(sources) = open_paths(rt, rt.alloc(), rt, &["long"], UNBOUNDED)
        && let Some(source) = sources.first()
    {
        ready = ready_at_last(&rt, rt.alloc(), &source.view()?, most)?;
    }
    assert_same(&rt, "long", ready, Some(most));
    Ok(())
}

#[test]
fn inputs_share_what_is_read_ahead(rt: HostRuntime) -> Result<(), Fail> {
    for (ahead, inputs, of_file, of_other) in [
        (None, 1, 8 << 20, 32 << 20),
        (None, 32, 8 << 20, 32 << 20),
        (Some(1), 1, 1 << 20, 1 << 20),
        (Some(1), 16, 64 << 10, 64 << 10),
        (Some(1), 32, 64 << 10, 64 << 10),
        (Some(64), 3, (64 << 20) / 3, (64 << 20) / 3),
        (Some(65_536), 1, 65_536 << 20, 65_536 << 20),
        (Some(8), 0, 8 << 20, 8 << 20),
    ] {
        let limits = Limits { stall: None, ahead };
        let rooms = (limits.room(inputs, true), limits.room(inputs, false));
        assert_same(&rt, (ahead, "of", inputs), rooms, (of_file, of_other));
    }
    Ok(())
}
