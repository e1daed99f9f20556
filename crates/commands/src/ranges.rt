//! The limits of the commands, in numbers.
ghost use Rattle.std.specs.Prelude.{◌≡◌, ◌-◌, ◌*◌, ◌^◌};
ghost use Rattle.item_io.specs.declared.limits.TheConstants.{PIECE, READS};
ghost use Rattle.ts_packet.specs.declared.lengths.TheConstants.{PACKET};
ghost use Rattle.limits.specs.declared.TheConstants.{LAST_SEGMENT, LEAST, MOST_FRAME, MOST_GAP, MOST_KEYS, MOST_PACKETS, MOST_PIXELS};
ghost use Rattle.limits.specs.declared.TheConstants.{MOST_PROGRAM, MOST_QUEUE, MOST_RENDITIONS, MOST_TARGET, MOST_WINDOW, MOST_WORKERS};
ghost use Rattle.limits.specs.declared.TheConstants.{TICKS};
ghost use Rattle.ladder_items.specs.declared.settings.TheConstants.{MOST_EARLIER};
ghost use Rattle.commands.specs.declared.pool.TheConstants.{MOST_AHEAD, MOST_STALL};

/// What the limits are, which the clauses of a run and of what reads its settings cite by their names.
pub fn limits_are_these()
    ensures times { (TICKS ≡ 90000) × (MOST_TARGET ≡ 3600) × (MOST_FRAME ≡ 900000) × (MOST_GAP ≡ 2 ^ 32 - 1) }
    ensures segments { (LAST_SEGMENT ≡ 2 ^ 32 - 2) × (MOST_PACKETS ≡ 1000000) × (MOST_WINDOW ≡ 10000) × (MOST_QUEUE ≡ 256) }
    ensures renditions { (MOST_RENDITIONS ≡ 32) × (MOST_PIXELS ≡ 16384) × (MOST_KEYS ≡ 4096) × (MOST_PROGRAM ≡ 65535) }
    ensures workers { MOST_WORKERS ≡ 64 }
    ensures least { LEAST ≡ 1 }
    ensures inputs { (MOST_STALL ≡ 24 * 60 * 60) × (MOST_AHEAD ≡ 2 ^ 16) }
    ensures earlier { MOST_EARLIER ≡ 2 ^ 27 }
    ensures reads { (READS ≡ 2 ^ 40) × (PIECE ≡ 100 * PACKET) × (PACKET ≡ 188) }
{}
