ghost use Rattle.psi_tables.specs.declared.fault.TableFault.TheVariants.{NoMemory};
ghost use Rattle.std.specs.Prelude.{◌≡◌};

use std::alloc::AllocError;
use thiserror::Error;

/// Why a section carries no table that can be used, in the order in which a section is looked at (ISO/IEC 13818-1, 2.4.4.3
/// and 2.4.4.8). Reserved bits aren't looked at.
#[derive(Clone, Copy, Debug, PartialEq, Eq, Error)]
pub enum TableFault {
    /// Fewer bytes than the table's fields and its CRC_32 take: 12 for a PAT, 16 for a PMT.
    #[error("the section is too short")]
    Short,
    /// Another table_id, or section_syntax_indicator 0.
    #[error("the section is of another table")]
    WrongTable,
    /// The CRC_32 over the section isn't 0.
    #[error("the section's CRC is wrong")]
    BadCrc,
    /// current_next_indicator 0: the table is not yet in force.
    #[error("the table is not yet current")]
    NotCurrent,
    /// section_number or last_section_number isn't 0.
    #[error("the table has more than one section")]
    ManySections,
    /// section_length isn't that of the section or is above 1021, or the entries don't end just before the CRC_32.
    #[error("the section's lengths don't fit")]
    BadLengths,
    /// No memory for the entries.
    #[error("out of memory")]
    NoMemory,
}

impl From<AllocError> for TableFault {
    ghost from_gives = { λ _ fault. fault ≡ NoMemory };

    fn from(_error: AllocError) -> TableFault {
        TableFault::NoMemory
    }
}
