//! What readers and the writer of the two copies know of a board.

use crate::history::History;

/// What one of them knows. Only proofs read it; no value of it is made.
pub struct Knowledge {
    /// Whether it knows of the board at all.
    pub begun: bool,
    /// The snapshots that it knows of.
    pub history: History,
}
