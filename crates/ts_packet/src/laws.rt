//! What the words of the contracts mean, in the standard's words.
ghost use Rattle.std.specs.Prelude.{◌≡◌, ◌+◌, ◌*◌, ℕ, List, length};
ghost use Rattle.ts_packet.specs.Packets.{packets, decided, skipped, ArePackets, IsDecided};
ghost use Rattle.ts_packet.specs.declared.lengths.TheConstants.{PACKET};

/// The packets of a stream are those at its positions: the first at the least lock point, each next behind the one
/// before where a packet fits there and begins with a sync byte, else at the least lock point from there on. There is
/// one such list.
pub fn packets_are_at_their_positions()
    ensures are { (stream : List ℕ) → ArePackets stream (packets stream) }
    ensures only { (stream : List ℕ) (others : List (List ℕ)) → ArePackets stream others → others ≡ packets stream }
{}

/// The decided packets are the longest list that begins the packets of the stream however it goes on. There is one
/// such list.
pub fn decided_is_the_longest()
    ensures is { (front : List ℕ) → IsDecided front (decided front) }
    ensures only { (front : List ℕ) (other : List (List ℕ)) → IsDecided front other → other ≡ decided front }
{}

/// Each byte of a stream is skipped or lies in one packet.
pub fn each_byte_is_counted()
    ensures { (stream : List ℕ) → skipped stream + PACKET * length (packets stream) ≡ length stream }
{}
