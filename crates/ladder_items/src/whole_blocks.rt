//! What a ladder gives comes in whole blocks.
ghost use Rattle.std.specs.Prelude.{List};
ghost use Rattle.item_io.specs.Blocks.{AreBlocks};
ghost use Rattle.item_io.specs.Items.{ItemValue};
ghost use Rattle.ladder_items.specs.Items.{Part};
ghost use Rattle.ladder_items.specs.Ladder.{IsAllowed, Ladder};
ghost use Rattle.ladder_items.specs.Weave.{Weaves};

/// A weave of renditions is whole blocks: each segment has the two playlists that list it right behind it, the two last
/// playlists of a rendition stand together, and all of a block have one name that a rendition may have.
pub fn weaves_are_whole_blocks()
    ensures { (ladder : Ladder) (parts : List Part) (items : List ItemValue) →
        IsAllowed ladder → Weaves ladder parts items → AreBlocks items }
{}
