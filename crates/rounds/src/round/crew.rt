//! Who may use the desk of a round.

use std::sync::ledger::{Ledger, Share};
use work_desk::Pass;

/// Who works at the desk of a round, and what its books are balanced with.
#[derive(Drop)]
pub struct Crew<L: Ledger, M: Ledger> {
    /// A pass for each worker, by its number.
    pub workers: Vec<Pass<L>>,
    pub balance: Balance<L, M>,
}

/// What is needed to take what is done at the desk, and to balance its books.
#[derive(Drop)]
pub struct Balance<L: Ledger, M: Ledger> {
    pub taker: Pass<M>,
    /// A share of the ledger of claims, empty at first, into which the workers' shares are merged.
    pub rest: Share<L>,
    /// How many segments each worker claimed in this round.
    pub claims: Vec<u128>,
}
