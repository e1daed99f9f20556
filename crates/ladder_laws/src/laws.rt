//! What is seen in the items that a run gives, in the words of one rendition and of a master playlist.
ghost use Rattle.std.specs.Prelude.{◌≡◌, ◌∷◌, ◌++◌, [], ℕ, List, length};
ghost use Rattle.item_io.specs.Items.{ItemValue, SegmentValue, SegmentItem, MasterItem};
ghost use Rattle.ladder_items.specs.Ladder.{Ladder};
ghost use Rattle.ladder_items.specs.Items.{Part, part_at, items_of};
ghost use Rattle.ladder_items.specs.Weave.{Weaves};
ghost use Rattle.ladder_laws.specs.Seen.{of_rendition, BeginsRow, EndsRow};

/// In a weave the items of each rendition, master playlists left out, are those that the rendition gives alone, in their
/// order.
pub fn each_rendition_is_seen_alone()
    ensures { (ladder : Ladder) (parts : List Part) (items : List ItemValue) (r : ℕ) → Weaves ladder parts items →
        of_rendition r items ≡ items_of ladder r (part_at parts r) }
{}

/// A weave has one part for each rendition.
pub fn each_rendition_has_a_part()
    ensures { (ladder : Ladder) (parts : List Part) (items : List ItemValue) → Weaves ladder parts items →
        length parts ≡ length ladder.renditions }
{}

/// In a weave each segment stands right before the playlists behind it and a master playlist of all that was given up to
/// there, and each master playlist stands behind such three.
pub fn rows_stand_together()
    ensures segments { (ladder : Ladder) (parts : List Part) (front : List ItemValue) (s : SegmentValue) (behind : List ItemValue) →
        Weaves ladder parts (front ++ SegmentItem s ∷ behind) → BeginsRow ladder front (SegmentItem s ∷ behind) }
    ensures masters { (ladder : Ladder) (parts : List Part) (front : List ItemValue) (text : List ℕ) (behind : List ItemValue) →
        Weaves ladder parts (front ++ MasterItem text ∷ behind) → EndsRow ladder (front ++ MasterItem text ∷ []) }
{}
