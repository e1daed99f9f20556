//! Which segments stand behind which block of a rendition that goes on behind an earlier run.
ghost use Rattle.std.specs.Prelude.{◌≡◌, IfOk};

use crate::asserts::assert_same;
use crate::keeping_runs::{Files, Put, folder_of, push_block, put_all, standing};
use folder::{Folder, MemoryFolder, PruningFolder};
use item_io::{FolderOutlet, Item};
use keeping::{Behind, Keeping, KeepingOutlet};
use std::alloc::{AllocError, Global};
use std::test::Fail;

const LIVE: Put<'static> = Put {
    rendition: 0,
    name: "v",
    window: 2,
    kind: "",
};

const EVENT: Put<'static> = Put {
    window: 100,
    kind: "#EXT-X-PLAYLIST-TYPE:EVENT\n",
    ..LIVE
};

/// A run that ended with the segments `base` and `base` + 1 in its playlists, whose folder has so many older ones too, from
/// number `oldest` on; and the move that fails, counted from 1: none for 0.
#[derive(Clone, Copy, Drop)]
struct Earlier {
    base: u64,
    oldest: u64,
    older: u64,
    fails: u64,
}

const ROWS: [u64; 2] = [1_000_000, 1_000_000];

/// Puts a file into the folder.
fn stand(folder: &mut MemoryFolder, alloc: Global, number: u64) -> Result<(), Fail> {
    let file = format!(in alloc; "v.{number}.ts")?;
    folder.write(&file, &[71])?;
    Ok(())
}

/// Puts the files of the earlier run into the folder, and appends the numbers of the older ones.
fn stand_all(
    folder: &mut MemoryFolder,
    alloc: Global,
    earlier: Earlier,
    older: &mut Vec<u64>,
) -> Result<(), Fail> {
    for place in 0..earlier.older {
        let number = earlier.oldest.saturating_add(place);
        stand(folder, alloc, number)?;
        older.push(number)?;
    }
    stand(folder, alloc, earlier.base)?;
    stand(folder, alloc, earlier.base.saturating_add(1))
}

/// The rendition that goes on behind it.
fn rendition(alloc: Global, base: u64, older: Vec<u64>) -> Result<Keeping, Fail> {
    let name = String::from_str(alloc, "v")?;
    let behind = Behind {
        base,
        least: 0,
        earlier: &ROWS,
        older,
    };
    Ok(Keeping::behind(alloc, name, behind)?)
}

/// The outlet that goes on behind it.
fn outlet_behind(alloc: Global, earlier: Earlier) -> Result<Files, Fail>
    ensures { IfOk result (λ outlet. outlet.files.failures ≡ 0) }
{
    let mut folder = MemoryFolder::new(alloc, earlier.fails);
    let mut older = Vec::new(alloc);
    stand_all(&mut folder, alloc, earlier, &mut older)?;
    let mut renditions = Vec::new(alloc);
    renditions.push(rendition(alloc, earlier.base, older)?)?;
    let files = FolderOutlet::with_folder(PruningFolder::new(folder), alloc);
    Ok(KeepingOutlet::new(files, alloc, renditions))
}

/// So many blocks behind it.
fn blocks(alloc: Global, put: Put<'_>, base: u64, count: u64) -> Result<Vec<Item>, AllocError> {
    let mut items = Vec::new(alloc);
    for place in 0..count {
        let number = base.saturating_add(2).saturating_add(place);
        push_block(&mut items, alloc, put, base, number)?;
    }
    Ok(items)
}

/// How many segments were taken away once so many blocks were put, and which stand.
fn left(alloc: Global, put: Put<'_>, earlier: Earlier, count: u64) -> Result<(u128, String), Fail> {
    let items = blocks(alloc, put, earlier.base, count)?;
    let mut files = outlet_behind(alloc, earlier)?;
    put_all(&mut files, &items);
    let removed = files.removed();
    let folder = folder_of(files);
    let end = earlier.base.saturating_add(2).saturating_add(count);
    Ok((removed, standing(&folder, alloc, "v", end)?))
}

const FEW: Earlier = Earlier {
    base: 7,
    oldest: 3,
    older: 3,
    fails: 0,
};

/// Segment 7 may go three seconds behind the first playlist that doesn't list it, which is that of segment 9, and the older
/// ones with it. Five files stand at first, and a block is six moves: move 30 is the first removal.
const BLOCKS: [(u64, u64, u128, &str); 8] = [
    (0, 0, 0, "3 4 5 7 8 "),
    (0, 3, 0, "3 4 5 7 8 9 10 11 "),
    (0, 4, 4, "8 9 10 11 12 "),
    (0, 5, 5, "9 10 11 12 13 "),
    (30, 4, 0, "3 4 5 7 8 9 10 11 12 "),
    (30, 5, 5, "9 10 11 12 13 "),
    (31, 4, 1, "3 4 5 8 9 10 11 12 "),
    (31, 5, 5, "9 10 11 12 13 "),
];

#[test]
fn older_segments_go_with_the_first_one(rt: HostRuntime) -> Result<(), Fail> {
    for (fails, blocks, wanted, standing) in BLOCKS {
        let (removed, found) = left(rt.alloc(), LIVE, Earlier { fails, ..FEW }, blocks)?;
        assert_same(&rt, (blocks, fails), found.as_str(), standing);
        assert_same(&rt, (blocks, fails), removed, wanted);
    }
    Ok(())
}

/// How many of 200 older ones stand behind so many blocks.
const MANY: [(u64, usize); 6] = [(3, 200), (4, 136), (5, 72), (6, 8), (7, 0), (8, 0)];

#[test]
fn sixty_four_older_ones_go_behind_a_block(rt: HostRuntime) -> Result<(), Fail> {
    let earlier = Earlier {
        base: 300,
        oldest: 0,
        older: 200,
        fails: 0,
    };
    for (blocks, wanted) in MANY {
        let (_, found) = left(rt.alloc(), LIVE, earlier, blocks)?;
        let older = found
            .as_str()
            .split(' ')
            .filter(|number| number.len() > 0 && number.len() < 3 || number.starts_with('1'))
            .count();
        assert_same(&rt, blocks, older, wanted);
    }
    Ok(())
}

#[test]
fn numbers_that_are_not_older_are_passed_over(rt: HostRuntime) -> Result<(), Fail> {
    let earlier = Earlier { older: 7, ..FEW };
    let (removed, found) = left(rt.alloc(), LIVE, earlier, 4)?;
    assert_same(
        &rt,
        "numbers that are not older are passed over",
        found.as_str(),
        "8 9 10 11 12 ",
    );
    assert_same(
        &rt,
        "numbers that are not older are passed over",
        removed,
        5,
    );
    Ok(())
}

#[test]
fn an_event_that_goes_on_keeps_all(rt: HostRuntime) -> Result<(), Fail> {
    let earlier = Earlier {
        base: 0,
        oldest: 0,
        older: 0,
        fails: 0,
    };
    let (removed, found) = left(rt.alloc(), EVENT, earlier, 9)?;
    assert_same(
        &rt,
        "an event that goes on keeps all",
        found.as_str(),
        "0 1 2 3 4 5 6 7 8 9 10 ",
    );
    assert_same(&rt, "an event that goes on keeps all", removed, 0);
    Ok(())
}
