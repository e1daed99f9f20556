//! The gate of `pack`: it lets all segments through, and has each sealed into a file.

ghost use Rattle.std.specs.Prelude.{◌≡◌};

use folder::WriteAhead;
use work_desk::Gate;

/// Lets every segment through, and has each sealed into a file that what it was made of makes.
#[derive(Drop)]
pub struct AheadGate<A> {
    ahead: A,
}

impl<A> AheadGate<A> {
    /// A gate over what makes files ahead.
    pub fn new(ahead: A) -> AheadGate<A>
        ensures { result.ahead ≡ ahead }
    {
        AheadGate { ahead }
    }

    /// What makes files ahead.
    pub fn into_ahead(self) -> A
        ensures { result ≡ self.ahead }
    {
        self.ahead
    }
}

impl<A: WriteAhead> Gate for AheadGate<A> {
    type File = A::File;

    ghost lets = { λ _ _ _. Unit {0} };

    ghost stops = { λ _ _ _. ⊥ };

    fn pass(&self, _rendition: usize, _number: u64) -> bool {
        true
    }

    fn file(&self, rendition: usize, number: u64) -> Option<A::File> {
        self.ahead.begin(rendition, number)
    }
}
