ghost use Rattle.std.specs.Prelude.{◌≡◌, ◌+◌, ◌<◌, ◌≤◌, ◌^◌, All, IfOk, IfSome};

use item_io::Source;
use read_ahead::{Ahead, Contents, Limits, OpenInput, open_all};
use std::alloc::{AllocError, Global};
use std::io;
use std::io::{ErrorKind, Read};
use std::sync::{Arc, Condvar, Mutex, Wait};
use std::thread::Threads;
use std::time::Clock;

/// Inputs are waited for as long as it takes, and 32 MiB are read ahead of each, or 8 of a plain file.
pub const UNBOUNDED: Limits = Limits {
    stall: None,
    ahead: None,
};

/// Something that one thread waits for and another one brings.
#[derive(Drop)]
pub struct Event {
    came: Mutex<bool>,
    changed: Condvar,
}

impl Event {
    pub fn new(alloc: Global) -> Result<Arc<Event, Global>, AllocError> {
        Ok(Arc::new(
            alloc,
            Event {
                came: Mutex::new(false),
                changed: Condvar::new(),
            },
        )?)
    }

    pub fn bring<R: Wait>(&self, rt: &R) {
        *self.came.lock(rt) = true;
        self.changed.notify_all();
    }

    pub fn wait<R: Wait>(&self, rt: &R) {
        let _ = self
            .changed
            .wait_while(rt, self.came.lock(rt), |came| !*came);
    }
}

/// A reader in memory.
#[derive(Clone, Copy)]
pub struct Pattern {
    pub at: usize,
    pub len: usize,
    /// How many bytes a read gives.
    pub piece: usize,
    /// Whether it fails behind its last byte.
    pub fails: bool,
    /// Whether each other read is interrupted.
    pub falters: bool,
    pub faltered: bool,
}

/// So many bytes, in reads of so many.
pub fn pattern_of(len: usize, piece: usize) -> Pattern {
    Pattern {
        at: 0,
        len,
        piece,
        fails: false,
        falters: false,
        faltered: false,
    }
}

/// Byte `at` of what it gives.
pub fn byte_at(at: usize) -> u8 {
    (at % 251) as u8
}

impl Read for Pattern {
    fn read(&mut self, buf: &mut [u8]) -> io::Result<usize> {
        if self.falters && !self.faltered {
            self.faltered = true;
            return Err(io::Error::from(ErrorKind::Interrupted));
        }
        self.faltered = false;
        let count = self
            .piece
            .min(self.len.saturating_sub(self.at))
            .min(buf.len());
        if count == 0 && self.fails {
            return Err(io::Error::from(ErrorKind::BrokenPipe));
        }
        let mut next = self.at;
        for byte in buf[..count].iter_mut() {
            *byte = byte_at(next);
            next = next.saturating_add(1);
        }
        self.at = next;
        Ok(count)
    }
}

/// A reader that waits before its first byte, and tells when it came to its end.
pub struct Held<R: Wait> {
    pub rt: R,
    pub reader: Pattern,
    pub until: Option<Arc<Event, Global>>,
    pub ended: Arc<Event, Global>,
}

impl<R: Wait + Drop> Drop for Held<R> {
    fn drop(self) {
        let Held {
            rt: _,
            reader: _,
            until: _,
            ended: _,
        } = self;
    }
}

impl<R: Wait> Read for Held<R> {
    fn read(&mut self, buf: &mut [u8]) -> io::Result<usize> {
        if let Some(until) = &self.until {
            until.wait(&self.rt);
        }
        let count = self.reader.read(buf)?;
        if count == 0 {
            self.ended.bring(&self.rt);
        }
        Ok(count)
    }
}

/// The source of one reader.
pub fn source_of<
    R: Threads + Wait + Clock + Copy + Send + Drop + 'static,
    Q: Read + Drop + Send + 'static,
>(rt: R, alloc: Global, reader: Q) -> Result<Option<Ahead<R, OpenInput<Q>>>, AllocError>
    ensures { IfOk result (λ some. IfSome some (λ source. (source.reads ≡ 0) × (source.failures ≡ 0))) }
{
    let mut inputs = Vec::new(alloc);
    inputs.push(OpenInput { reader })?;
    match open_all(rt, alloc, inputs, UNBOUNDED) {
        Ok(mut sources) => Ok(sources.pop()),
        Err(_) => Err(AllocError),
    }
}

/// The sources of two readers.
pub fn sources_of<
    R: Threads + Wait + Clock + Copy + Send + Drop + 'static,
    Q: Read + Drop + Send + 'static,
>(
    rt: R,
    alloc: Global,
    first: Q,
    second: Q,
) -> Result<Option<(Ahead<R, OpenInput<Q>>, Ahead<R, OpenInput<Q>>)>, AllocError>
    ensures { IfOk result (λ some. IfSome some (λ two. (two.0.reads ≡ 0) × (two.0.failures ≡ 0) × (two.1.reads ≡ 0) × (two.1.failures ≡ 0))) }
{
    let mut inputs = Vec::new(alloc);
    inputs.push(OpenInput { reader: first })?;
    inputs.push(OpenInput { reader: second })?;
    let Ok(mut sources) = open_all(rt, alloc, inputs, UNBOUNDED) else {
        return Err(AllocError);
    };
    let Some(second) = pop_unread(&mut sources) else {
        return Ok(None);
    };
    let Some(first) = pop_unread(&mut sources) else {
        return Ok(None);
    };
    Ok(Some((first, second)))
}

/// The last of some sources that weren't read.
pub fn pop_unread<R: Wait, I: Contents>(sources: &mut Vec<Ahead<R, I>>) -> Option<Ahead<R, I>>
    requires { All (λ source. (source.reads ≡ 0) × (source.failures ≡ 0)) sources.old.items }
    ensures rest { All (λ source. (source.reads ≡ 0) × (source.failures ≡ 0)) sources.new.items }
    ensures last { IfSome result (λ source. (source.reads ≡ 0) × (source.failures ≡ 0)) }
{
    sources.pop()
}

/// What a source gave.
#[derive(Clone, Copy, Debug, PartialEq, Eq)]
pub struct Given {
    pub count: usize,
    pub wrong: usize,
    pub failed: bool,
}

/// Reads a source to its end, in reads of so many bytes at most, and counts how many bytes came and how many of them aren't
/// those of the pattern.
pub fn drain<S: Source>(alloc: Global, source: &mut S, size: usize) -> Result<Given, AllocError>
    requires reads { S.input.reads source.old ≡ 0 }
    requires failures { S.input.failures source.old ≡ 0 }
{
    let mut buffer = vec![in alloc; 0; size]?;
    let mut given = Given {
        count: 0,
        wrong: 0,
        failed: false,
    };
    for _ in 0..1_000_000u64 {
        match source.read(&mut buffer) {
            Ok(0) => break,
            Ok(count) => {
                given.wrong = given
                    .wrong
                    .saturating_add(differing(&buffer[..count], given.count));
                given.count = given.count.saturating_add(count);
                continue;
            }
            Err(_) => {
                given.failed = true;
                break;
            }
        }
    }
    Ok(given)
}

/// Takes what a source lends to its end, so many bytes at a time at most, and counts as `drain` does.
pub fn drain_lent<S: Source>(
    alloc: Global,
    source: &mut S,
    size: usize,
) -> Result<Given, AllocError>
    requires reads { S.input.reads source.old ≡ 0 }
    requires failures { S.input.failures source.old ≡ 0 }
{
    let mut buffer = vec![in alloc; 0; size]?;
    let mut given = Given {
        count: 0,
        wrong: 0,
        failed: false,
    };
    for _ in 0..1_000_000u64 {
        match lent_by(source, &mut buffer, given.count) {
            Some((0, _)) => break,
            Some((count, wrong)) => {
                given.wrong = given.wrong.saturating_add(wrong);
                given.count = given.count.saturating_add(count);
                continue;
            }
            None => {
                given.failed = true;
                break;
            }
        }
    }
    Ok(given)
}

/// How many bytes a source lends at once, and how many of them aren't those of the pattern from `at` on. None where it fails.
pub fn lent_by<S: Source>(source: &mut S, buffer: &mut [u8], at: usize) -> Option<(usize, usize)>
    requires reads { S.input.reads source.old < 2 ^ 63 }
    requires failures { S.input.failures source.old < 2 ^ 63 }
    ensures reads { S.input.reads source.new ≤ S.input.reads source.old + 1 }
    ensures failures { S.input.failures source.new ≤ S.input.failures source.old + 1 }
{
    match source.lend(buffer) {
        Ok(piece) => Some((piece.len(), differing(piece, at))),
        Err(_) => None,
    }
}

/// How many bytes aren't those of the pattern from `at` on.
fn differing(bytes: &[u8], at: usize) -> usize {
    let mut wrong: usize = 0;
    let mut next = at;
    for byte in bytes {
        if *byte != byte_at(next) {
            wrong = wrong.saturating_add(1);
        }
        next = next.saturating_add(1);
    }
    wrong
}
