//! Sources that aren't always ready.

ghost use Rattle.std.specs.Prelude.{◌≡◌, Some, true};
ghost use Rattle.item_io.specs.Views.{source_view};

use item_io::{FailingReader, ReadFault, Source};
use std::marker::Model;

/// A source in memory that isn't ready the first times that it's asked, nor once it was left.
#[derive(Drop)]
pub(crate) struct Pausing {
    reader: FailingReader,
    pauses: u64,
    left: bool,
}

impl Model for Pausing {
    ghost use Rattle.item_io.specs.State.{Pieces};

    ghost Value = { Pieces };

    ghost view = { λ p. p.reader };
}

impl Pausing {
    /// The source of this reader, so many times not ready.
    pub(crate) fn new(reader: FailingReader, pauses: u64) -> Pausing
        ensures { result ≡ reader }
    {
        Pausing {
            reader,
            pauses,
            left: false,
        }
    }
}

impl Source for Pausing {
    ghost input = { source_view (λ r. Some r.left) (λ r. r.reads) (λ r. r.failures) (λ r. r.is_left) };

    ghost tells = { λ _. true };

    fn read(&mut self, buffer: &mut [u8]) -> Result<usize, ReadFault> {
        self.reader.read(buffer)
    }

    fn leave(&mut self) {
        self.left = true;
        self.reader.leave();
    }

    fn is_ready(&mut self) -> bool {
        if self.left {
            return false;
        }
        if self.pauses > 0 {
            self.pauses -= 1;
            return false;
        }
        true
    }
}
