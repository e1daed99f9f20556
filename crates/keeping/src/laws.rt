//! What is left of a folder from which segments go.
ghost use Rattle.std.specs.Prelude.{◌≡◌, ◌++◌, ◌∷◌, [], ℕ, Bool, true, List};
ghost use Rattle.folder.specs.Moves.{Move};
ghost use Rattle.folder.specs.Puts.{Names};
ghost use Rattle.item_io.specs.Items.{ItemValue};
ghost use Rattle.item_io.specs.Outlets.{BreaksOff, Grows};
ghost use Rattle.item_io.specs.Blocks.{AreBlocks};
ghost use Rattle.keeping.specs.Keepings.{AreTold, KeepingValue};
ghost use Rattle.keeping.specs.Holding.{HoldsKept, HoldsKeptUpTo};
ghost use Rattle.keeping.specs.InPlace.{EachKillLeavesUnlisted, EachLossOfPowerLeavesUnlisted, FramesFollow, NoneIsListed};

/// Of items in blocks, in each of which the I-frame playlist lists no segment that the media playlist doesn't, and of which a
/// keeping outlet of a folder to which nothing was done before was given some: a kill at any moment leaves a prefix of those
/// given, but that segments may be missing which were taken away, and which no playlist in place lists. Where the folder is
/// synced so does a loss of power. And so it is where the next item was refused.
pub fn given_items_are_left_but_what_went()
    ensures killed { (syncs syncs_then : Bool) (made made_then : List Move) (staged staged_then : List Names) (failures : ℕ) →
        (renditions renditions_then : List KeepingValue) (items given rest : List ItemValue) → made ≡ [] → staged ≡ [] → AreTold renditions [] →
        Grows (HoldsKept syncs made staged 0 renditions) (HoldsKept syncs_then made_then staged_then failures renditions_then) given →
        failures ≡ 0 → AreBlocks items → FramesFollow items → items ≡ given ++ rest → EachKillLeavesUnlisted made_then given renditions_then }
    ensures lost { (syncs syncs_then : Bool) (made made_then : List Move) (staged staged_then : List Names) (failures : ℕ) →
        (renditions renditions_then : List KeepingValue) (items given rest : List ItemValue) → made ≡ [] → staged ≡ [] → AreTold renditions [] →
        Grows (HoldsKept syncs made staged 0 renditions) (HoldsKept syncs_then made_then staged_then failures renditions_then) given →
        failures ≡ 0 → AreBlocks items → FramesFollow items → items ≡ given ++ rest → syncs ≡ true →
        EachLossOfPowerLeavesUnlisted made_then given renditions_then }
    ensures refused { (syncs syncs_then : Bool) (made made_then : List Move) (staged : List Names) →
        (renditions renditions_then : List KeepingValue) (items given rest : List ItemValue) (item : ItemValue) → made ≡ [] → staged ≡ [] →
        AreTold renditions [] → BreaksOff (HoldsKept syncs made staged 0 renditions) (HoldsKeptUpTo syncs_then made_then renditions_then) given item →
        AreBlocks items → FramesFollow items → items ≡ given ++ item ∷ rest →
        EachKillLeavesUnlisted made_then (given ++ item ∷ []) renditions_then }
    ensures refused_and_lost { (syncs syncs_then : Bool) (made made_then : List Move) (staged : List Names) →
        (renditions renditions_then : List KeepingValue) (items given rest : List ItemValue) (item : ItemValue) → made ≡ [] → staged ≡ [] →
        AreTold renditions [] → BreaksOff (HoldsKept syncs made staged 0 renditions) (HoldsKeptUpTo syncs_then made_then renditions_then) given item →
        AreBlocks items → FramesFollow items → items ≡ given ++ item ∷ rest → syncs ≡ true →
        EachLossOfPowerLeavesUnlisted made_then (given ++ item ∷ []) renditions_then }
{}

/// Behind whole blocks that were given, no playlist in place lists a segment that was taken away.
pub fn what_went_is_not_listed()
    ensures { (syncs syncs_then : Bool) (made made_then : List Move) (staged staged_then : List Names) (failures : ℕ) →
        (renditions renditions_then : List KeepingValue) (items : List ItemValue) → made ≡ [] → staged ≡ [] → AreTold renditions [] →
        Grows (HoldsKept syncs made staged 0 renditions) (HoldsKept syncs_then made_then staged_then failures renditions_then) items →
        failures ≡ 0 → AreBlocks items → FramesFollow items → NoneIsListed made_then renditions_then }
{}
