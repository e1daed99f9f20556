//! Buffers that segments are sealed in again.

ghost use Rattle.std.specs.Prelude.{◌≡◌, ◌+◌, ◌++◌, ◌<◌, ◌≤◌, ◌∷◌, [], ℕ, IfNone, IfSome, Decides, OnErr, OnOk, length, map};
ghost use Rattle.std.specs.Prelude.{slice_index_or, take, vec_capacity, vec_len};
ghost use Rattle.work_desk.specs.Shelves.{IsBestAt, misfit};

use std::alloc::{AllocError, Global};
use std::sync::{Mutex, Wait};

/// Buffers that segments lay in, and that others are sealed in next. Those of a run outlive its rounds: so the pages of memory that a
/// segment takes are asked of the system once, and not for each segment anew.
///
/// What a buffer holds means nothing. At most so many are kept; the others are let go.
#[derive(Drop)]
pub struct Shelf {
    alloc: Global,
    buffers: Mutex<Buffers>,
}

impl Shelf {
    /// A shelf of at most so many buffers. It takes no memory yet.
    pub fn new(alloc: Global, most: usize) -> Shelf {
        Shelf {
            alloc,
            buffers: Mutex::new(Buffers::none(alloc, most)),
        }
    }

    /// A buffer for so many bytes: of those that have room for them the one with the least; where none has, the one with the most; and a
    /// new one, which has no room yet, where there is none.
    pub fn take<R: Wait>(&self, rt: &R, bytes: usize) -> Vec<u8> {
        let taken = self.buffers.lock(rt).take(bytes);
        taken.unwrap_or(Vec::new(self.alloc))
    }

    /// Keeps a buffer, if there is a place for it.
    pub fn put<R: Wait>(&self, rt: &R, buffer: Vec<u8>) {
        let _ = self.buffers.lock(rt).put(buffer);
    }

    /// Lets go of all buffers but so many: a round of fewer segments than the one before needs no more. So what a backlog took is given
    /// back once the run has caught up.
    pub fn keep<R: Wait>(&self, rt: &R, most: u128) {
        self.buffers.lock(rt).keep(most);
    }
}

/// The buffers of a shelf, which aren't in use.
#[derive(Drop)]
pub(crate) struct Buffers {
    all: Vec<Vec<u8>>,
    most: usize,
    pub ghost few: { vec_len all ≤ most },
}

impl Buffers {
    /// No buffers, and at most so many later.
    fn none(alloc: Global, most: usize) -> Buffers
        ensures none { result.all.items ≡ [] }
        ensures most { result.most ≡ most }
    {
        Buffers {
            all: Vec::new(alloc),
            most,
        }
    }

    /// Takes the best one for so many bytes, if there is any.
    fn take(&mut self, bytes: usize) -> Option<Vec<u8>>
        ensures some { IfSome result (λ buffer. (k : ℕ) → k < length self.old.all.items
            → misfit bytes (vec_capacity buffer) ≤ misfit bytes (slice_index_or (map vec_capacity self.old.all.items) k 0)) }
        ensures fewer { IfSome result (λ _. length self.old.all.items ≡ length self.new.all.items + 1) }
        ensures none { IfNone result ((self.old.all.items ≡ []) × (self.new.all.items ≡ [])) }
        ensures most { self.new.most ≡ self.old.most }
    {
        let at = best(&self.all, bytes)?;
        Some(self.all.swap_remove(at))
    }

    /// Keeps one more. Where as many are kept as may be, or there is no memory for its place, it is let go.
    fn put(&mut self, buffer: Vec<u8>) -> Result<(), AllocError>
        ensures ok { OnOk result (self.new.all.items ≡ self.old.all.items ++ buffer ∷ []) }
        ensures room { OnOk result (length self.old.all.items < self.old.most) }
        ensures err { OnErr result (self.new.all.items ≡ self.old.all.items) }
        ensures most { self.new.most ≡ self.old.most }
    {
        if self.all.len() >= self.most {
            return Err(AllocError);
        }
        self.all.push(buffer)?;
        Ok(())
    }

    /// Lets go of all but so many. There may be fewer.
    fn keep(&mut self, most: u128)
        ensures kept { self.new.all.items ≡ take most self.old.all.items }
        ensures most { self.new.most ≡ self.old.most }
    {
        if (self.all.len() as u128) < most {
            return;
        }
        self.all.truncate(most as usize);
    }
}

/// The place of the best buffer for so many bytes; none where there are no buffers.
fn best(buffers: &[Vec<u8>], bytes: usize) -> Option<usize>
    ensures some { IfSome result (IsBestAt bytes (map vec_capacity buffers.now)) }
    ensures none { IfNone result (buffers.now ≡ []) }
{
    if buffers.is_empty() {
        return None;
    }
    let mut best = 0;
    for i in 1..buffers.len() {
        if is_better(room_of(buffers, i), room_of(buffers, best), bytes) {
            best = i;
        }
    }
    Some(best)
}

/// How much room the buffer at a place has.
fn room_of(buffers: &[Vec<u8>], i: usize) -> usize
    requires { i < length buffers.now }
    ensures { result ≡ slice_index_or (map vec_capacity buffers.now) i 0 }
{
    buffers[i].capacity()
}

/// Whether a buffer with so much room is better for so many bytes than another: it has room for them and the other hasn't, or has even
/// more of it; or neither has, and it has more room.
fn is_better(room: usize, other: usize, bytes: usize) -> bool
    ensures { Decides result (misfit bytes room < misfit bytes other) }
{
    if other < bytes {
        return room > other;
    }
    room >= bytes && room < other
}
