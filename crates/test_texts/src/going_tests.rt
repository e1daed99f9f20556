//! Which segments stand behind which block.
use crate::asserts::assert_same;
use crate::keeping_runs::{
    Put, folder_of, outlet, push_block, push_end, push_lists, put_all, standing,
};
use item_io::Item;
use std::alloc::{AllocError, Global};
use std::test::Fail;

const LIVE: Put<'static> = Put {
    rendition: 0,
    name: "v",
    window: 2,
    kind: "",
};

const EVENT: Put<'static> = Put {
    rendition: 0,
    name: "v",
    window: 100,
    kind: "#EXT-X-PLAYLIST-TYPE:EVENT\n",
};

/// So many blocks from number `base` on.
fn blocks(alloc: Global, put: Put<'_>, base: u64, count: u64) -> Result<Vec<Item>, AllocError> {
    let mut items = Vec::new(alloc);
    for place in 0..count {
        push_block(&mut items, alloc, put, base, base.saturating_add(place))?;
    }
    Ok(items)
}

/// The segments that stand once so many blocks were put from number `base` on, of which move `fails` failed.
fn left(alloc: Global, put: Put<'_>, base: u64, count: u64, fails: u64) -> Result<String, Fail> {
    let items = blocks(alloc, put, base, count)?;
    let mut files = outlet(alloc, &["v"], base, fails)?;
    put_all(&mut files, &items);
    let folder = folder_of(files);
    Ok(standing(&folder, alloc, "v", base.saturating_add(count))?)
}

/// Playlists of two seconds: a segment may go three seconds, its own and two more, behind the first that doesn't list it.
const BLOCKS: [(u64, u64, &str); 7] = [
    (0, 1, "0 "),
    (0, 5, "0 1 2 3 4 "),
    (0, 6, "1 2 3 4 5 "),
    (0, 7, "2 3 4 5 6 "),
    (0, 12, "7 8 9 10 11 "),
    (7, 5, "7 8 9 10 11 "),
    (7, 6, "8 9 10 11 12 "),
];

#[test]
fn segments_go_once_no_player_can_want_them(rt: HostRuntime) -> Result<(), Fail> {
    for (base, blocks, standing) in BLOCKS {
        let found = left(rt.alloc(), LIVE, base, blocks, 0)?;
        assert_same(&rt, (blocks, base), found.as_str(), standing);
    }
    Ok(())
}

#[test]
fn an_event_keeps_all(rt: HostRuntime) -> Result<(), Fail> {
    let found = left(rt.alloc(), EVENT, 0, 12, 0)?;
    assert_same(
        &rt,
        "an event keeps all",
        found.as_str(),
        "0 1 2 3 4 5 6 7 8 9 10 11 ",
    );
    Ok(())
}

/// A block is six moves: move 37 is the first removal.
#[test]
fn what_cant_be_removed_goes_behind_the_next_block(rt: HostRuntime) -> Result<(), Fail> {
    let failed = left(rt.alloc(), LIVE, 0, 6, 37)?;
    assert_same(&rt, "six blocks", failed.as_str(), "0 1 2 3 4 5 ");
    let later = left(rt.alloc(), LIVE, 0, 7, 37)?;
    assert_same(&rt, "seven blocks", later.as_str(), "2 3 4 5 6 ");
    Ok(())
}

/// The blocks of three renditions in turn, of which an outlet of two doesn't know the third.
fn blocks_of_three(alloc: Global) -> Result<Vec<Item>, AllocError> {
    let wide = Put {
        rendition: 1,
        name: "w",
        window: 3,
        ..LIVE
    };
    let unknown = Put {
        rendition: 2,
        name: "x",
        ..LIVE
    };
    let mut items = Vec::new(alloc);
    for number in 0..8 {
        for put in [LIVE, wide, unknown] {
            push_block(&mut items, alloc, put, 0, number)?;
        }
    }
    Ok(items)
}

const STANDING: [(&str, &str); 3] = [
    ("v", "3 4 5 6 7 "),
    ("w", "1 2 3 4 5 6 7 "),
    ("x", "0 1 2 3 4 5 6 7 "),
];

#[test]
fn a_rendition_goes_by_its_own_playlists(rt: HostRuntime) -> Result<(), Fail> {
    let items = blocks_of_three(rt.alloc())?;
    let mut files = outlet(rt.alloc(), &["v", "w"], 0, 0)?;
    assert_same(
        &rt,
        "a rendition goes by its own playlists",
        put_all(&mut files, &items),
        0,
    );
    let folder = folder_of(files);
    for (name, wanted) in STANDING {
        let found = standing(&folder, rt.alloc(), name, 8)?;
        assert_same(&rt, name, found.as_str(), wanted);
    }
    Ok(())
}

/// How many puts fail of these items.
fn failures(alloc: Global, items: &[Item]) -> Result<u64, Fail> {
    let mut files = outlet(alloc, &["v"], 0, 0)?;
    Ok(put_all(&mut files, items))
}

/// A text in place of the playlists behind segment 0, and then its block.
fn begun_by(alloc: Global, text: &str) -> Result<Vec<Item>, AllocError> {
    let mut items = Vec::new(alloc);
    push_lists(&mut items, alloc, LIVE, text)?;
    push_block(&mut items, alloc, LIVE, 0, 0)?;
    Ok(items)
}

#[test]
fn what_is_no_playlist_is_refused(rt: HostRuntime) -> Result<(), Fail> {
    for text in ["", "#EXTM3U\n", "none"] {
        let items = begun_by(rt.alloc(), text)?;
        assert_same(&rt, text, failures(rt.alloc(), &items)?, 5);
    }
    Ok(())
}

/// Five blocks, the last of a wider window; then one that lists a segment which the one before had dropped, and another one.
fn going_back(alloc: Global) -> Result<Vec<Item>, AllocError> {
    let mut items = Vec::new(alloc);
    for (number, window) in [(0, 2), (1, 2), (2, 2), (3, 2), (4, 3), (5, 5), (5, 2)] {
        push_block(&mut items, alloc, Put { window, ..LIVE }, 0, number)?;
    }
    Ok(items)
}

#[test]
fn a_playlist_that_goes_back_is_refused(rt: HostRuntime) -> Result<(), Fail> {
    let items = going_back(rt.alloc())?;
    assert_same(
        &rt,
        "a playlist that goes back is refused",
        failures(rt.alloc(), &items)?,
        5,
    );
    Ok(())
}

/// Three blocks, the last of which lists segments 1 and 2, and behind them the last playlists, which list those from `first` on.
fn ended_from(alloc: Global, first: u64) -> Result<Vec<Item>, AllocError> {
    let mut items = blocks(alloc, LIVE, 0, 3)?;
    push_end(&mut items, alloc, LIVE, first, 2)?;
    Ok(items)
}

#[test]
fn an_end_that_goes_back_is_refused(rt: HostRuntime) -> Result<(), Fail> {
    for (first, wanted) in [(0, 2), (1, 0), (2, 0), (3, 2)] {
        let items = ended_from(rt.alloc(), first)?;
        assert_same(&rt, first, failures(rt.alloc(), &items)?, wanted);
    }
    Ok(())
}

/// The rendition and the name of a block, and how many of its puts fail where renditions 0 and 1 are named v and w.
const NAMES: [(usize, &str, u64); 7] = [
    (0, "v", 0),
    (1, "w", 0),
    (2, "x", 0),
    (0, "w", 2),
    (0, "x", 2),
    (1, "v", 2),
    (2, "v", 2),
];

#[test]
fn a_playlist_of_another_name_is_refused(rt: HostRuntime) -> Result<(), Fail> {
    for (rendition, name, wanted) in NAMES {
        let put = Put {
            rendition,
            name,
            ..LIVE
        };
        let items = blocks(rt.alloc(), put, 0, 1)?;
        let mut files = outlet(rt.alloc(), &["v", "w"], 0, 0)?;
        assert_same(&rt, (rendition, name), put_all(&mut files, &items), wanted);
    }
    Ok(())
}
