//! Faults that are told on.
ghost use Rattle.std.specs.Prelude.{◌≡◌};

/// A fault that can't be let go: whoever is told of it tells it on, so want of memory never stands for it.
pub(crate) struct Kept<E> {
    fault: E,
}

impl<E> Kept<E> {
    pub fn into_fault(self) -> E
        ensures { result ≡ self.fault }
    {
        let Kept { fault } = self;
        fault
    }
}

impl<E> From<E> for Kept<E> {
    ghost from_gives = { λ fault kept. kept.fault ≡ fault };

    fn from(fault: E) -> Kept<E> {
        Kept { fault }
    }
}
