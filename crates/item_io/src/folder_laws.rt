//! What a folder outlet leaves of the items that it was given.
ghost use Rattle.std.specs.Prelude.{◌≡◌, ◌++◌, ◌∷◌, [], ℕ, Bool, true, List};
ghost use Rattle.folder.specs.Moves.{Move};
ghost use Rattle.folder.specs.Puts.{Names};
ghost use Rattle.item_io.specs.Items.{ItemValue};
ghost use Rattle.item_io.specs.Outlets.{Grows, BreaksOff};
ghost use Rattle.item_io.specs.Blocks.{AreBlocks};
ghost use Rattle.item_io.specs.FolderMoves.{HoldsFiles, HoldsFilesUpTo};
ghost use Rattle.item_io.specs.Leaving.{EachKillLeaves, EachLossOfPowerLeaves, LeaveAll, LeaveAllOnDisk};

/// Of items in blocks, of which an outlet of a folder to which nothing was done before was given some: a kill at any
/// moment, during a put or between two, leaves a prefix of those given. Where a put failed, it leaves a prefix of those
/// given and the one refused. Once all are given, all of them are in place.
pub fn given_items_are_left()
    ensures killed { (syncs syncs_then : Bool) (made made_then : List Move) (staged staged_then : List Names) (failures : ℕ) →
        (items given rest : List ItemValue) → made ≡ [] → staged ≡ [] →
        Grows (HoldsFiles syncs made staged 0) (HoldsFiles syncs_then made_then staged_then failures) given → failures ≡ 0 →
        AreBlocks items → items ≡ given ++ rest → EachKillLeaves made_then given }
    ensures refused { (syncs syncs_then : Bool) (made made_then : List Move) (staged : List Names) →
        (items given rest : List ItemValue) (item : ItemValue) → made ≡ [] → staged ≡ [] →
        BreaksOff (HoldsFiles syncs made staged 0) (HoldsFilesUpTo syncs_then made_then) given item →
        AreBlocks items → items ≡ given ++ item ∷ rest → EachKillLeaves made_then (given ++ item ∷ []) }
    ensures whole { (syncs syncs_then : Bool) (made made_then : List Move) (staged staged_then : List Names) (failures : ℕ) →
        (items : List ItemValue) → made ≡ [] → staged ≡ [] →
        Grows (HoldsFiles syncs made staged 0) (HoldsFiles syncs_then made_then staged_then failures) items → failures ≡ 0 →
        AreBlocks items → LeaveAll made_then items }
{}

/// The same of a folder that is synced, and of a loss of power: what was on the disk before, with a prefix of the items over
/// it; and once all are given, all of them are on the disk.
pub fn synced_items_are_left()
    ensures lost { (syncs_then : Bool) (made made_then : List Move) (staged staged_then : List Names) (failures : ℕ) →
        (items given rest : List ItemValue) → made ≡ [] → staged ≡ [] →
        Grows (HoldsFiles true made staged 0) (HoldsFiles syncs_then made_then staged_then failures) given → failures ≡ 0 →
        AreBlocks items → items ≡ given ++ rest → EachLossOfPowerLeaves made_then given }
    ensures refused { (syncs_then : Bool) (made made_then : List Move) (staged : List Names) →
        (items given rest : List ItemValue) (item : ItemValue) → made ≡ [] → staged ≡ [] →
        BreaksOff (HoldsFiles true made staged 0) (HoldsFilesUpTo syncs_then made_then) given item →
        AreBlocks items → items ≡ given ++ item ∷ rest → EachLossOfPowerLeaves made_then (given ++ item ∷ []) }
    ensures whole { (syncs_then : Bool) (made made_then : List Move) (staged staged_then : List Names) (failures : ℕ) →
        (items : List ItemValue) → made ≡ [] → staged ≡ [] →
        Grows (HoldsFiles true made staged 0) (HoldsFiles syncs_then made_then staged_then failures) items → failures ≡ 0 →
        AreBlocks items → LeaveAllOnDisk made_then items }
{}
