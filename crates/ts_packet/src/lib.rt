//! Transport packets (ISO/IEC 13818-1, 2.4.3): their fields, and a reader that takes them from a stream of bytes.
#![tactic(auto)]

mod joined;
mod laws;
mod lengths;
mod packet;
mod pieces;
mod reader;
mod scan;

pub use laws::{decided_is_the_longest, each_byte_is_counted, packets_are_at_their_positions};
pub use lengths::{PACKET, UNDECIDED};
pub use packet::{Packet, PacketFault};
pub use pieces::{Stream, read_pieces};
pub use reader::{Reader, Skipped};
