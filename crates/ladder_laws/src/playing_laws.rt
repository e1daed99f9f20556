//! What is served of a folder that a ladder's items are put into can be played, at each moment.
ghost use Rattle.std.specs.Prelude.{List};
ghost use Rattle.folder.specs.Moves.{Move};
ghost use Rattle.folder.specs.Playing.{AreListedInTurn};
ghost use Rattle.item_io.specs.FolderMoves.{puts_of};
ghost use Rattle.item_io.specs.Items.{ItemValue};
ghost use Rattle.item_io.specs.Leaving.{EachKillLeaves};
ghost use Rattle.ladder_items.specs.Items.{Part};
ghost use Rattle.ladder_items.specs.Ladder.{IsAllowed, Ladder};
ghost use Rattle.ladder_items.specs.Weave.{Weaves};
ghost use Rattle.ladder_laws.specs.Playable.{StaysPlayable, StaysPlayableBehind};
ghost use Rattle.folder.specs.Puts.{Put};
ghost use Rattle.ladder_laws.specs.Playlists.{HasByteNames, HasNoEarlier, HasEarlierFiles, AreListedBehind, lists_file};

/// In a weave each file that a playlist lists is put before it: a segment before the media and the I-frame playlists that
/// list it, a media playlist before each master playlist. What a playlist lists is read off its text (RFC 8216, 4.1). Where a
/// run goes on, a file that earlier runs put may be listed too.
pub fn listed_files_are_put_before()
    ensures alone { (ladder : Ladder) (parts : List Part) (items : List ItemValue) →
        IsAllowed ladder → HasByteNames ladder → HasNoEarlier ladder → Weaves ladder parts items →
        AreListedInTurn lists_file (puts_of items) }
    ensures behind { (ladder : Ladder) (parts : List Part) (items : List ItemValue) (earlier : List Put) →
        IsAllowed ladder → HasByteNames ladder → Weaves ladder parts items → HasEarlierFiles ladder earlier →
        AreListedBehind lists_file earlier (puts_of items) }
{}

/// Where each kill leaves a prefix of a weave, it leaves what can be played: each file that a playlist in place lists is in
/// place too, whole. So it is where no rows of earlier runs are listed, and in a folder in which those runs left what they put.
pub fn what_each_kill_leaves_is_playable()
    ensures alone { (ladder : Ladder) (parts : List Part) (items : List ItemValue) (made : List Move) →
        IsAllowed ladder → HasByteNames ladder → HasNoEarlier ladder → Weaves ladder parts items → EachKillLeaves made items →
        StaysPlayable made items }
    ensures behind { (ladder : Ladder) (parts : List Part) (items : List ItemValue) (made : List Move) →
        IsAllowed ladder → HasByteNames ladder → Weaves ladder parts items → EachKillLeaves made items →
        StaysPlayableBehind ladder made items }
{}
