use ladder_items::PackFault;
use thiserror::Error;

/// Why `pack` ends without having done its work.
#[derive(Clone, Copy, Debug, PartialEq, Eq, Error)]
pub enum LadderPackingFault {
    /// The ladder wasn't packed.
    #[error("{0}")]
    Packing(PackFault),
    /// All was packed, and a prefix of the summary was written.
    #[error("the summary can't be written")]
    Unwritten,
    /// All was packed, and there was no memory for the summary.
    #[error("out of memory")]
    NoMemory,
}
