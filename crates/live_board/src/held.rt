//! A publisher that may be let go.

ghost use Rattle.std.specs.Prelude.{◌≡◌};

use crate::publisher::Publisher;
use std::sync::Wait;

/// A publisher with what it waits by, so that it may go into a scope of threads and come back: where it is let go
/// instead, its board ends, which waits for viewers who look at it.
pub struct HeldPublisher<'r, R: Wait> {
    pub publisher: Publisher,
    pub rt: &'r R,
}

impl<'r, R: Wait> Drop for HeldPublisher<'r, R> {
    fn drop(self) {
        let Self { publisher, rt } = self;
        publisher.end(rt);
    }
}

impl<'r, R: Wait> HeldPublisher<'r, R> {
    /// The publisher that was held.
    pub fn release(self) -> Publisher
        ensures { result ≡ self.entry.publisher }
    {
        let Self { publisher, rt: _ } = self;
        publisher
    }
}
