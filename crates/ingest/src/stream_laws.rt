//! What is known of the plans of a stream of bytes.
ghost use Rattle.std.specs.Prelude.{◌≡◌, ◌++◌, All, None, Some, ℕ, List, Option, slice_get};
ghost use Rattle.ghost_list.specs.Lists.{IsBeginning};
ghost use Rattle.ghost_list.specs.Bytes.{AreBytes};
ghost use Rattle.ts_packet.specs.Packets.{packets};
ghost use Rattle.cutter.specs.declared.settings.CutSettings.{CutSettings};
ghost use Rattle.cutter.specs.Plans.{SegmentPlan};
ghost use Rattle.cutter.specs.Ordered.{IsPlan};
ghost use Rattle.ingest.specs.Sealable.{IsOfBytes};
ghost use Rattle.ingest.specs.declared.lane.Stop.{Stop};
ghost use Rattle.ingest.specs.Streams.{plans_of, fault_of};
ghost use Rattle.ingest.specs.Lanes.{made_of};
ghost use Rattle.ingest.specs.Output.{output, bodies, BeginWith};

/// The bodies of a rendition's segments, joined, are the accepted packets of its stream from the first cut on: all of
/// them where the stream has no fault, and a prefix of them in the segments of each prefix of its plans.
pub fn bodies_are_the_accepted_packets()
    ensures whole { (r : ℕ) (s : CutSettings) (stream : List ℕ) → fault_of r s stream ≡ None →
        bodies (plans_of r s stream) ≡ output s (packets stream) }
    ensures begin { (r : ℕ) (s : CutSettings) (stream : List ℕ) (given : List SegmentPlan) → IsBeginning given (plans_of r s stream) →
        BeginWith (output s (packets stream)) given }
{}

/// Plan n of a stream of bytes is that of segment n: it has that number, and a body, a duration and I-frames within the
/// limits of its rendition.
pub fn plans_of_bytes_are_in_order()
    ensures { (r : ℕ) (s : CutSettings) (stream : List ℕ) (n : ℕ) (plan : SegmentPlan) →
        slice_get (plans_of r s stream) n ≡ Some plan → IsPlan r s n plan }
{}

/// So are the plans that are closed where a rendition goes on or has stopped.
pub fn closed_plans_are_in_order()
    ensures { (stop : Option Stop) (r : ℕ) (s : CutSettings) (stream : List ℕ) (n : ℕ) (plan : SegmentPlan) →
        slice_get (made_of stop r s stream) n ≡ Some plan → IsPlan r s n plan }
{}

/// Each plan of a stream of bytes can be sealed: its tables can be sent in a head, and its segment is made of bytes.
pub fn plans_of_bytes_can_be_sealed()
    ensures { (r : ℕ) (s : CutSettings) (stream : List ℕ) → AreBytes stream → All IsOfBytes (plans_of r s stream) }
{
    psi_tables::tables_in_force_are_good();
    ts_packet::packets_are_at_their_positions();
}
