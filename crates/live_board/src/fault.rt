//! Why a board refuses.

use thiserror::Error;

/// Why a board isn't made or a snapshot isn't shown. Backwards is told before want of memory.
#[derive(Clone, Copy, Debug, PartialEq, Eq, Error)]
pub enum BoardFault {
    /// A count falls below the one that is shown, or the number of renditions is another.
    #[error("rendition {rendition} falls below {shown}")]
    Backwards {
        /// The least rendition whose count falls; where none falls, the smaller number of renditions.
        rendition: usize,
        /// The count that is shown there, 0 where there is none.
        shown: u64,
    },
    /// There was no memory.
    #[error("out of memory")]
    NoMemory,
    /// A viewer got no place among the readers. Only `board` answers it; whether that or want of memory stopped it no clause
    /// says.
    #[error("no place for a viewer")]
    NoPlace,
}
