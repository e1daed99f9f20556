//! Blocks that were given, and that are read into again.
ghost use Rattle.std.specs.Prelude.{◌≡◌, ◌<◌, ◌≤◌, ◌++◌, ◌∷◌, [], All, IfNone, IfOk, IfSome, OnErr, OnOk, length, vec_len};
ghost use Rattle.read_ahead.specs.declared.limits.TheConstants.{READ, SPARES};

use crate::limits::{READ, SPARES};
use std::alloc::{AllocError, Global};
use std::sync::{Mutex, Wait};

/// Blocks as long as a read, which threads read into again: so their pages of memory are asked of the system once.
///
/// What a block holds means nothing.
#[derive(Drop)]
pub struct Spares {
    alloc: Global,
    blocks: Mutex<Blocks>,
}

impl Spares {
    /// No blocks. It takes no memory yet.
    pub fn new(alloc: Global) -> Spares {
        Spares {
            alloc,
            blocks: Mutex::new(Blocks::none(alloc)),
        }
    }

    /// A block for a read: one that was put, or a new one.
    pub fn take<R: Wait>(&self, rt: &R) -> Result<Vec<u8>, AllocError>
        ensures { IfOk result (λ block. length block.items ≡ READ) }
    {
        let taken = self.blocks.lock(rt).take();
        match taken {
            Some(block) => Ok(block),
            None => vec![in self.alloc; 0; READ],
        }
    }

    /// Keeps a block for later reads, if it's as long as one and there is a place for it.
    pub fn put<R: Wait>(&self, rt: &R, block: Vec<u8>) {
        let _ = self.blocks.lock(rt).put(block);
    }
}

/// The blocks that nothing is read into at the moment.
#[derive(Drop)]
struct Blocks {
    all: Vec<Vec<u8>>,
    pub ghost few: { vec_len all ≤ SPARES },
    pub ghost long: { All (λ block. length block.items ≡ READ) all.items },
}

impl Blocks {
    fn none(alloc: Global) -> Blocks
        ensures { result.all.items ≡ [] }
    {
        Blocks {
            all: Vec::new(alloc),
        }
    }

    /// Takes the one that was put last, if there is any.
    fn take(&mut self) -> Option<Vec<u8>>
        ensures some { IfSome result (λ block. self.old.all.items ≡ self.new.all.items ++ block ∷ []) }
        ensures long { IfSome result (λ block. length block.items ≡ READ) }
        ensures none { IfNone result ((self.old.all.items ≡ []) × (self.new.all.items ≡ [])) }
    {
        self.all.pop()
    }

    /// Keeps one more. One of another length is let go, and any where as many are kept as may be, or there is no memory for its place.
    fn put(&mut self, block: Vec<u8>) -> Result<(), AllocError>
        ensures ok { OnOk result (self.new.all.items ≡ self.old.all.items ++ block ∷ []) }
        ensures room { OnOk result (length self.old.all.items < SPARES) }
        ensures err { OnErr result (self.new.all.items ≡ self.old.all.items) }
    {
        if block.len() != READ || self.all.len() >= SPARES {
            return Err(AllocError);
        }
        self.all.push(block)?;
        Ok(())
    }
}
