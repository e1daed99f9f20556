//! What the moves of a folder are good for.
ghost use Rattle.std.specs.Prelude.{◌≡◌, ◌++◌, ◌∷◌, Bool, List, [], map};
ghost use Rattle.folder.specs.Moves.{Files, Move, Same, Shows, no_files, standing};
ghost use Rattle.folder.specs.Kills.{KillMayLeave};
ghost use Rattle.folder.specs.Puts.{Put, MayBePut, after_puts, moves_of, placings, put_names, staged_after};
ghost use Rattle.folder.specs.Prefixes.{HasPrefix, IsFailedPut};
ghost use Rattle.folder.specs.Rolling.{AreSeen, rolling_moves};
ghost use Rattle.folder.specs.Pruning.{AreFromHidden, IsPrunedAt, IsPrunedAtLoss, other_moves};
ghost use Rattle.folder.specs.Syncing.{moves_when};
ghost use Rattle.folder.specs.Playing.{AreListedInTurn, IsPlayablePrefix, Lists};
ghost use Rattle.folder.specs.PowerLoss.{PowerLossMayLeave, disk_after, synced_moves_of, synced_placings};

/// Wherever the process is killed, the folder holds a prefix of the files that were put, whole; and where some files of a
/// block are in place, the others stand whole under their part names.
pub fn each_kill_leaves_a_prefix()
    ensures { (files : Files) (puts : List Put) → MayBePut [] puts →
        (left : Files) → KillMayLeave files (moves_of puts) left → HasPrefix files puts left }
{}

/// So it is where a put failed: a prefix of the files, the one that failed among them.
pub fn each_kill_of_a_failed_put_leaves_a_prefix()
    ensures { (files : Files) (puts : List Put) (next : Put) (more : List Move) → MayBePut [] (puts ++ next ∷ []) →
        IsFailedPut (placings next.ends (staged_after [] puts) next) next more →
        (left : Files) → KillMayLeave files (moves_of puts ++ more) left → HasPrefix files (puts ++ next ∷ []) left }
{}

/// Behind the last move of whole blocks all files that were put are in place, and no other changed but hidden ones.
pub fn all_are_there()
    ensures { (files : Files) (puts : List Put) → MayBePut [] puts → staged_after [] puts ≡ [] →
        Shows (standing files (moves_of puts)) (after_puts files puts) }
{}

/// Wherever a run was killed, whole blocks are in place once the block that was cut off is rolled forward: those of its
/// files that stand under their part names are placed. A kill meanwhile leaves what a kill of the run might have left, so
/// that it may be done again.
pub fn rolling_forward_leaves_whole_blocks()
    ensures done { (files : Files) (puts : List Put) (left : Files) (has : HasPrefix files puts left) (seen : List Bool) →
        AreSeen left (has.placed ++ has.due) seen →
        Shows (standing left (rolling_moves (map put_names (has.placed ++ has.due)) seen))
        (after_puts files (has.blocks ++ (has.placed ++ has.due))) }
    ensures killed { (files : Files) (puts : List Put) (left : Files) (has : HasPrefix files puts left) (seen : List Bool) →
        AreSeen left (has.placed ++ has.due) seen → (left_then : Files) →
        KillMayLeave left (rolling_moves (map put_names (has.placed ++ has.due)) seen) left_then → HasPrefix files puts left_then }
{}

/// Of a folder that was empty at first, wherever the process is killed: each file that a file in place lists is in place
/// too, whole, with bytes that were put.
pub fn what_is_left_is_playable()
    ensures { (lists : Lists) (puts : List Put) → AreListedInTurn lists puts →
        (left : Files) → HasPrefix no_files puts left → IsPlayablePrefix lists puts left }
{}

/// Where a block is synced before any of it is placed, and each file that is placed before the next one, each loss of
/// power leaves what a kill may leave, and so does each kill.
pub fn each_loss_of_power_leaves_a_prefix()
    ensures power { (files : Files) (puts : List Put) → MayBePut [] puts →
        (left : Files) → PowerLossMayLeave files (Same files) (synced_moves_of puts) left → HasPrefix files puts left }
    ensures kill { (files : Files) (puts : List Put) → MayBePut [] puts →
        (left : Files) → KillMayLeave files (synced_moves_of puts) left → HasPrefix files puts left }
{}

/// So it is where a put failed.
pub fn each_loss_of_power_behind_a_failed_put_leaves_a_prefix()
    ensures power { (files : Files) (puts : List Put) (next : Put) (more : List Move) → MayBePut [] (puts ++ next ∷ []) →
        IsFailedPut (synced_placings next.ends (staged_after [] puts) next) next more →
        (left : Files) → PowerLossMayLeave files (Same files) (synced_moves_of puts ++ more) left → HasPrefix files (puts ++ next ∷ []) left }
    ensures kill { (files : Files) (puts : List Put) (next : Put) (more : List Move) → MayBePut [] (puts ++ next ∷ []) →
        IsFailedPut (synced_placings next.ends (staged_after [] puts) next) next more →
        (left : Files) → KillMayLeave files (synced_moves_of puts ++ more) left → HasPrefix files (puts ++ next ∷ []) left }
{}

/// Behind the last move of whole blocks that are synced, all files that were put are in place, and on the disk too.
pub fn all_are_on_the_disk()
    ensures seen { (files : Files) (puts : List Put) → MayBePut [] puts → staged_after [] puts ≡ [] →
        Shows (standing files (synced_moves_of puts)) (after_puts files puts) }
    ensures disk { (files : Files) (puts : List Put) → MayBePut [] puts → staged_after [] puts ≡ [] →
        (left : Files) → disk_after files (Same files) (synced_moves_of puts) left → Shows left (after_puts files puts) }
{}

/// Files that are put are renamed from hidden names alone, synced or not, whatever is taken away besides.
pub fn files_come_from_hidden_names()
    ensures { (syncs : Bool) (puts : List Put) (moves : List Move) → MayBePut [] puts → other_moves moves ≡ moves_when syncs puts →
        AreFromHidden moves }
{}

/// Where old files are taken away from a folder, each kill leaves what it would have left without that, but that files which
/// were taken away before may be missing. So does each loss of power.
pub fn each_kill_leaves_all_but_what_was_pruned()
    ensures kill { (files : Files) (moves : List Move) → AreFromHidden moves →
        (left : Files) → KillMayLeave files moves left → IsPrunedAt files moves left }
    ensures power { (files : Files) (moves : List Move) → AreFromHidden moves →
        (left : Files) → PowerLossMayLeave files (Same files) moves left → IsPrunedAtLoss files moves left }
{}
