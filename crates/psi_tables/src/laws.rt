//! What the words of the contracts mean.
ghost use Rattle.std.specs.Prelude.{◌≡◌, ◌+◌, ◌*◌, ◌<◌, ◌≤◌, ◌^◌, ◌↔◌, ℕ, List, ◌++◌, length, take, All, Option, Some};
ghost use Rattle.ghost_list.specs.Lists.{IsBeginning};
ghost use Rattle.psi_tables.specs.Crc.{IsRemainder, crc, dividend, polynomial_of};
ghost use Rattle.psi_tables.specs.Sections.{sections, IsSection};
ghost use Rattle.psi_tables.specs.Head.{head, packet_count, IsSendable, IsSameHead};
ghost use Rattle.psi_tables.specs.InForce.{InForce, IsGood, IsSinceChange, since_change, tables_before, tables_behind};
ghost use Rattle.ts_packet.specs.declared.lengths.TheConstants.{PACKET};

/// The CRC_32 of a message is the remainder of its polynomial, and the only one.
pub fn crc_is_the_remainder()
    ensures is { (m : List ℕ) → All (λ b. b < 2 ^ 8) m → IsRemainder (dividend m) (crc m) }
    ensures only { (m : List ℕ) (r : ℕ) → All (λ b. b < 2 ^ 8) m → IsRemainder (dividend m) r → r ≡ crc m }
{}

/// The CRC_32 of a message with four bytes behind it is 0 exactly where these four bytes are the CRC_32 of the
/// message, the high byte first.
pub fn crc_of_a_closed_message()
    ensures { (m w : List ℕ) → All (λ b. b < 2 ^ 8) m → All (λ b. b < 2 ^ 8) w → length w ≡ 4 →
        (crc (m ++ w) ≡ 0) ↔ (polynomial_of w ≡ crc m) }
{}

/// The sections of a beginning of the packets are a beginning of the sections: what a packet completes depends on it
/// and on the packets before it alone.
pub fn sections_only_grow()
    ensures { (pid : ℕ) (packets more : List (List ℕ)) → IsBeginning (sections pid packets) (sections pid (packets ++ more)) }
{}

/// The sections of a PID are whole: each has the length that it tells, at most 1,024 bytes.
pub fn sections_are_whole()
    ensures { (pid : ℕ) (packets : List (List ℕ)) → All IsSection (sections pid packets) }
{}

/// The packets whose sections of PMTs count before a packet: those behind the last one that changed the chosen PID, or
/// all where none did.
pub fn gathered_since_the_last_change()
    ensures { (wanted : Option ℕ) (packets : List (List ℕ)) (i : ℕ) → i ≤ length packets →
        IsSinceChange wanted packets i (since_change wanted packets i) }
{}

/// The tables in force before a packet hang on the packets before it alone.
pub fn tables_hang_on_earlier_packets()
    ensures later { (wanted : Option ℕ) (packets more : List (List ℕ)) (i : ℕ) → i ≤ length packets →
        tables_before wanted (packets ++ more) i ≡ tables_before wanted packets i }
    ensures earlier { (wanted : Option ℕ) (packets : List (List ℕ)) (i : ℕ) → i ≤ length packets →
        tables_before wanted packets i ≡ tables_behind wanted (take i packets) }
{}

/// Tables in force are good: their section is a PMT section without a fault, of their program.
pub fn tables_in_force_are_good()
    ensures { (wanted : Option ℕ) (packets : List (List ℕ)) (i : ℕ) (tables : InForce) → tables_before wanted packets i ≡ Some tables → IsGood tables }
{}

/// Bytes begin with at most one head of good tables, and it tells its tables and its counters. So no such head begins
/// another one, and a head can be taken off the bytes that it stands in front of.
pub fn one_head_begins_bytes()
    ensures { (t u : InForce) (a b c d : ℕ) (rest other : List ℕ) → IsSendable t → IsSendable u →
        head t a b ++ rest ≡ head u c d ++ other → IsSameHead t u a b c d rest other }
{}

/// A head has one packet for its PAT, and those of its PMT section.
pub fn length_of_a_head()
    ensures { (t : InForce) (a b : ℕ) → length (head t a b) ≡ PACKET * (1 + packet_count t.section) }
{}
