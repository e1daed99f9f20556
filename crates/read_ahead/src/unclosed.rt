//! Sources that weren't dropped yet.
ghost use Rattle.std.specs.Prelude.{◌≡◌};

use crate::counts::Leaving;
use crate::incoming::Incoming;
use crate::input::Contents;

/// The input of a source may still be given. It can't be let go, so that it's said when it no longer is.
pub struct Unclosed {
    number: usize,
}

impl Unclosed {
    /// Of what comes of an input.
    pub fn of<I: Contents>(incoming: &Incoming<I>) -> Unclosed
        ensures { result.number ≡ incoming.now.number }
    {
        Unclosed {
            number: incoming.number,
        }
    }

    /// No more of that input is given.
    pub fn close(self, _leaving: Leaving)
        requires { _leaving.number ≡ self.number }
    {
        let Unclosed { number: _ } = self;
    }
}
