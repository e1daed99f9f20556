//! A run between two rounds.

use crate::giving::broadcast::Broadcast;
use crate::run::books::Books;
use std::sync::Wait;

/// A run between two rounds, while no desk is open.
#[derive(Drop)]
pub struct BetweenRounds<'r, S, O, R: Wait> {
    pub broadcast: Broadcast<'r, S, O, R>,
    pub books: Books,
}
