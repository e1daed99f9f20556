//! What the segments of a rendition carry, and how a player opens them.
ghost use Rattle.std.specs.Prelude.{◌≡◌, ◌∷◌, ◌++◌, All, None, Some, ℕ, List, map, slice_get};
ghost use Rattle.ghost_list.specs.Lists.{IsBeginning};
ghost use Rattle.ghost_list.specs.Bytes.{AreBytes};
ghost use Rattle.ts_packet.specs.Packets.{packets};
ghost use Rattle.cutter.specs.declared.settings.CutSettings.{CutSettings};
ghost use Rattle.cutter.specs.Plans.{SegmentPlan};
ghost use Rattle.cutter.specs.Ordered.{IsPlan};
ghost use Rattle.item_io.specs.Items.{ItemValue, SegmentValue, SegmentItem};
ghost use Rattle.ladder_items.specs.Ladder.{Ladder, IsAllowed};
ghost use Rattle.ladder_items.specs.Items.{Part, part_at, segment_item};
ghost use Rattle.ladder_laws.specs.Listings.{segments_of, AreFramesListedBehind};
ghost use Rattle.ladder_items.specs.Weave.{Weaves};
ghost use Rattle.ingest.specs.Sealable.{IsOfBytes};
ghost use Rattle.ladder_laws.specs.Openings.{AreOfStreams, IsListedBehind};
ghost use Rattle.ingest.specs.Streams.{plans_of, fault_of};
ghost use Rattle.ingest.specs.Output.{output, bodies, BeginWith};

/// In a weave, the media playlist right behind each segment lists it last, and under the key and the vector that are
/// listed for it the segment opens to its head and its accepted packets: those of its place among the plans of its input.
pub fn each_segment_opens_as_listed()
    ensures { (ladder : Ladder) (parts : List Part) (streams : ℕ → List ℕ) (front : List ItemValue) (s : SegmentValue) (behind : List ItemValue) →
        IsAllowed ladder → AreOfStreams ladder parts streams → Weaves ladder parts (front ++ SegmentItem s ∷ behind) →
        IsListedBehind ladder streams s behind }
{
    cutter::plans_are_in_order();
    media_playlist::listed_rows_suffice();
    ts_packet::packets_are_at_their_positions();
    ingest::plans_of_bytes_can_be_sealed();
}

/// The segments of a rendition in a weave are those of its plans, in their order.
pub fn segments_are_those_of_the_plans()
    ensures { (ladder : Ladder) (parts : List Part) (items : List ItemValue) (r : ℕ) → Weaves ladder parts items →
        segments_of r items ≡ map (segment_item ladder r) (part_at parts r).plans }
{}

/// In a weave, the I-frame playlist behind each segment and its media playlist ends with the lines of the segment's
/// I-frames, under its key and its vector.
pub fn each_segment_has_its_iframes_listed()
    ensures { (ladder : Ladder) (parts : List Part) (streams : ℕ → List ℕ) (front : List ItemValue) (s : SegmentValue) (behind : List ItemValue) →
        IsAllowed ladder → AreOfStreams ladder parts streams → Weaves ladder parts (front ++ SegmentItem s ∷ behind) →
        AreFramesListedBehind ladder streams s behind }
{
    cutter::plans_are_in_order();
    media_playlist::listed_rows_suffice();
    ts_packet::packets_are_at_their_positions();
}
