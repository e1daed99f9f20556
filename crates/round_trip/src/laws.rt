//! What packing and reading back are to one another.
ghost use Rattle.std.specs.Prelude.{◌∷◌, ◌++◌, ◌<◌, ℕ, List};
ghost use Rattle.item_io.specs.Items.{ItemValue, PlaylistValue, MediaItem};
ghost use Rattle.ladder_items.specs.Ladder.{Ladder, IsAllowed};
ghost use Rattle.ladder_items.specs.Items.{Part};
ghost use Rattle.ladder_items.specs.Weave.{Weaves};
ghost use Rattle.ladder_laws.specs.Openings.{AreOfStreams};
ghost use Rattle.round_trip.specs.Returning.{AreMade, ComesBack};

/// What is packed comes back: in the items of a ladder each media playlist that lists a segment is read back as a listing,
/// and the segments that it lists, which stand before it, unpack to the bodies of their plans.
pub fn what_is_packed_comes_back()
    ensures { (ladder : Ladder) (parts : List Part) (streams : ℕ → List ℕ) (front : List ItemValue) (media : PlaylistValue) (behind : List ItemValue) →
        IsAllowed ladder → AreMade ladder → AreOfStreams ladder parts streams → Weaves ladder parts (front ++ MediaItem media ∷ behind) →
        0 < media.count → ComesBack ladder streams front media }
{
    cutter::seconds_of_ticks_are_those_of_microseconds();
    master_playlist::faults_are_the_least();
    media_playlist::listed_rows_suffice();
    ladder_laws::each_rendition_has_a_part();
    ladder_laws::each_rendition_is_seen_alone();
    ingest::plans_of_bytes_are_in_order();
    ingest::plans_of_bytes_can_be_sealed();
}
