//! Who takes sealed segments from a round's desk, and what became of them.

ghost use Rattle.std.specs.Prelude.{◌≡◌, ◌+◌};

use std::sync::ledger::Ledger;
use work_desk::Pass;

/// The right to take what is done at a round's desk, and counts of what was taken.
#[derive(Drop)]
pub struct Taker<M: Ledger> {
    pub pass: Pass<M>,
    /// How many were right.
    pub right: u64,
    /// How many were thrown away.
    pub thrown: u64,
    pub ghost counted: { right + thrown ≡ pass.count },
}
