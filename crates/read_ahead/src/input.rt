//! Inputs before they are open.
ghost use Rattle.std.specs.Prelude.{◌≡◌, ⊤, ℕ, Bool, List, Option, Some, false, IfNone, IfSome};

use std::io::Read;

/// What has bytes.
pub trait Contents {
    /// The bytes that it has, where it tells them.
    ghost holds: { Self → Option (List ℕ) };

    /// It may be that it can't be opened.
    ghost refuses: { Self → Type 0 } = { λ _. ⊤ };
}

/// An input that isn't open yet.
pub trait Input: Contents {
    /// What reads it once it's open.
    type Reader: Read + Drop;

    /// What it may answer whether opening it waits for a writer.
    ghost waits: { Self → Bool → Type 0 } = { λ _ _. ⊤ };

    /// Whether opening it may wait for a writer.
    fn may_wait(&self) -> bool
        ensures { waits self.now result };

    /// What it may answer whether it is a plain file.
    ghost plain: { Self → Bool → Type 0 } = { λ _ _. ⊤ };

    /// Whether it is a plain file, of which little has to be read ahead.
    fn is_file(&self) -> bool
        ensures { plain self.now result };

    /// Opens it; None where it can't be opened. Of a FIFO it waits for a writer.
    fn open(self) -> Option<Self::Reader>
        ensures ok { IfSome result (λ reader. Self.Reader.remaining reader ≡ Self.holds self) }
        ensures none { IfNone result (Self.refuses self) };
}

/// A reader, as an input that is open as soon as it's asked for.
#[derive(Drop)]
pub struct OpenInput<I> {
    pub reader: I,
}

impl<I: Read> Contents for OpenInput<I> {
    ghost holds = { λ input. I.remaining input.reader };

    ghost refuses = { λ _. ⊥ };
}

impl<I: Read + Drop> Input for OpenInput<I> {
    type Reader = I;

    ghost waits = { λ _ may_wait. may_wait ≡ false };

    fn may_wait(&self) -> bool {
        false
    }

    ghost plain = { λ _ is_file. is_file ≡ false };

    fn is_file(&self) -> bool {
        false
    }

    fn open(self) -> Option<I>
        ensures { result ≡ Some self.reader }
    {
        let OpenInput { reader } = self;
        Some(reader)
    }
}
