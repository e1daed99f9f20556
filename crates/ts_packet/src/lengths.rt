/// How many bytes a packet has (ISO/IEC 13818-1, 2.4.3.2).
pub const PACKET: usize = 188;

/// How many bytes a reader keeps at the most: with one more it could tell whether a packet begins at the first.
pub const UNDECIDED: usize = 2 * PACKET;
