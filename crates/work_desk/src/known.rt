//! Whether plans are known by their numbers.

ghost use Rattle.std.specs.Prelude.{◌≡◌, false, true};
ghost use Rattle.work_desk.specs.Permits.{AreKnownByNumber};

use crate::gate::Permit;
use std::marker::{Model, PhantomData};

/// Whether a plan that may be fed is known by its rendition and its number: only where no two have the same.
#[derive(Drop)]
pub struct KnownPlans<P: Permit> {
    known: bool,
    of: PhantomData<P>,
}

impl<P: Permit> Model for KnownPlans<P> {
    ghost use Rattle.std.specs.Prelude.{◌≡◌, Bool, true};
    ghost use Rattle.work_desk.specs.Permits.{AreKnownByNumber};

    ghost Value = { Bool };

    ghost view = { λ k. k.known };

    ghost invariant = { λ k. k.known ≡ true → AreKnownByNumber P.plans };
}

impl<P: Permit> KnownPlans<P> {
    /// They are.
    pub(crate) fn by_number() -> KnownPlans<P>
        requires { AreKnownByNumber P.plans }
        ensures { result ≡ true }
    {
        KnownPlans {
            known: true,
            of: PhantomData,
        }
    }

    /// They needn't be.
    pub(crate) fn by_all() -> KnownPlans<P>
        ensures { result ≡ false }
    {
        KnownPlans {
            known: false,
            of: PhantomData,
        }
    }

    /// Whether they are.
    pub(crate) fn are_known(&self) -> bool
        ensures value { result ≡ self.now }
        ensures known { result ≡ true → AreKnownByNumber P.plans }
    {
        self.known
    }
}
