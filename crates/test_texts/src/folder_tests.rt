use crate::asserts::assert_same;
use crate::folders::{assert_bytes, assert_names, make, remove, write};
use crate::items::{items, media, put_all};
use folder::{FileFolder, Folder, FolderFault, MemoryFolder, StagedFile, roll_forward};
use item_io::{FolderOutlet, Item};
use std::alloc::{AllocError, Global};
use std::os::unix::fs::PermissionsExt;
use std::process::Abort;
use std::{fs, io};

/// Puts items into a folder, and answers how many puts failed.
fn put_into(files: &HostRuntime, folder: &str, items: &[Item]) -> Result<u64, AllocError> {
    let folder = String::from_str(files.alloc(), folder)?;
    let mut outlet = FolderOutlet::new(files, files.alloc(), folder);
    Ok(put_all(&mut outlet, items))
}

/// Puts one item of each kind into a folder, and answers how many puts failed.
fn put_each(files: &HostRuntime, folder: &str) -> Result<u64, AllocError> {
    let items = items(files.alloc())?;
    put_into(files, folder, &items)
}

/// An I-frame playlist of the first rendition.
fn frames(alloc: Global, name: &str, text: &str) -> Result<Item, AllocError> {
    let name = String::from_str(alloc, name)?;
    Ok(Item::Frames {
        rendition: 0,
        count: 8,
        ended: false,
        name,
        text: String::from_str(alloc, text)?,
    })
}

/// A rendition's two playlists, of the same text.
fn playlists(alloc: Global, name: &str, text: &str) -> Result<Vec<Item>, AllocError> {
    let mut items = Vec::new(alloc);
    items.push(media(alloc, name, text)?)?;
    items.push(frames(alloc, name, text)?)?;
    Ok(items)
}

/// Puts a rendition's two playlists into a folder, and answers whether that went well.
fn put_text(files: &HostRuntime, folder: &str, name: &str, text: &str) -> Result<bool, AllocError> {
    let items = playlists(files.alloc(), name, text)?;
    Ok(put_into(files, folder, &items)? == 0)
}

#[test]
fn each_item_is_a_file(rt: HostRuntime) -> io::Result<()> {
    make(&rt, "each")?;
    let failures = put_each(&rt, "each")?;
    assert_same(&rt, "each", failures, 0);
    let text = b"#EXTM3U\n#EXT-X-VERSION:4\n".as_slice();
    for (path, bytes) in [
        ("each/hd 1.7.ts", b"\x00\x47\xAB\xFF".as_slice()),
        ("each/hd 1.m3u8", text),
        ("each/v.iframes.m3u8", b"#EXTM3U\n".as_slice()),
        ("each/master.m3u8", text),
    ] {
        assert_bytes(&rt, &rt, path, bytes)?;
    }
    assert_names(
        &rt,
        &rt,
        "each",
        "hd 1.7.ts\nhd 1.m3u8\nmaster.m3u8\nv.iframes.m3u8\n",
    )?;
    remove(&rt, "each")
}

#[test]
fn older_files_are_replaced(rt: HostRuntime) -> io::Result<()> {
    make(&rt, "older")?;
    write(&rt, "older/v.m3u8", "a longer text that was there\n")?;
    write(&rt, "older/.v.m3u8.part", "left by a run that was killed\n")?;
    fs::hard_link(&rt, "older/v.m3u8", "older/kept")?;
    for text in ["first\n", "", "third\n"] {
        assert_same(&rt, text, put_text(&rt, "older/", "v", text)?, true);
        assert_bytes(&rt, &rt, "older/v.m3u8", text.as_bytes())?;
        assert_names(&rt, &rt, "older", "kept\nv.iframes.m3u8\nv.m3u8\n")?;
    }
    assert_bytes(&rt, &rt, "older/kept", b"a longer text that was there\n")?;
    remove(&rt, "older")
}

#[test]
fn a_folder_that_is_not_there(rt: HostRuntime) -> io::Result<()> {
    let _ = remove(&rt, "absent");
    let failures = put_each(&rt, "absent")?;
    let there = fs::exists(&rt, "absent")?;
    assert_same(&rt, "absent", (failures, there), (4, false));
    Ok(())
}

/// Whether the system's own calls may write there: a privileged user may write anywhere.
fn may_write(files: &HostRuntime, path: &str) -> bool {
    write(files, path, "").is_ok() && fs::remove_file(files, path).is_ok()
}

#[test]
fn a_folder_without_leave_to_write(rt: HostRuntime) -> io::Result<()> {
    make(&rt, "closed")?;
    write(&rt, "closed/v.m3u8", "older\n")?;
    fs::set_permissions(&rt, "closed", PermissionsExt::from_mode(0o555))?;
    let may = may_write(&rt, "closed/probe");
    let put = put_text(&rt, "closed", "v", "newer\n")?;
    fs::set_permissions(&rt, "closed", PermissionsExt::from_mode(0o755))?;
    assert_same(&rt, "put", put, may);
    let (text, names) = if may {
        ("newer\n", "v.iframes.m3u8\nv.m3u8\n")
    } else {
        ("older\n", "v.m3u8\n")
    };
    assert_bytes(&rt, &rt, "closed/v.m3u8", text.as_bytes())?;
    assert_names(&rt, &rt, "closed", names)?;
    remove(&rt, "closed")
}

#[test]
fn names_that_no_rendition_may_have(rt: HostRuntime) -> io::Result<()> {
    make(&rt, "named")?;
    for name in ["", "..", "../named", "a/b", "a.b", "master", "a\0b"] {
        assert_same(&rt, name, put_text(&rt, "named", name, "text\n")?, false);
    }
    assert_names(&rt, &rt, "named", "")?;
    remove(&rt, "named")
}

#[test]
fn a_block_that_cannot_be_placed(rt: HostRuntime) -> io::Result<()> {
    make(&rt, "begun")?;
    fs::create_dir(&rt, "begun/v.m3u8")?;
    assert_same(&rt, "v", put_text(&rt, "begun", "v", "text\n")?, false);
    assert_names(
        &rt,
        &rt,
        "begun",
        ".v.iframes.m3u8.part\n.v.m3u8.part\nv.m3u8\n",
    )?;
    remove(&rt, "begun")
}

/// A folder of the file system that can be synced.
fn open<'a>(files: &'a HostRuntime, path: &str) -> Result<FileFolder<&'a HostRuntime>, AllocError> {
    let path = String::from_str(files.alloc(), path)?;
    Ok(FileFolder::new_synced(files, files.alloc(), path))
}

#[test]
fn each_move_of_a_folder(rt: HostRuntime) -> io::Result<()> {
    make(&rt, "moves")?;
    let mut folder = open(&rt, "moves")?;
    assert_same(&rt, "write", folder.write("one", b"first"), Ok(()));
    assert_same(&rt, "write again", folder.write("one", b"1\n"), Ok(()));
    assert_same(&rt, "write another", folder.write("two", b""), Ok(()));
    assert_same(&rt, "has", folder.has("one"), Ok(true));
    assert_same(&rt, "has none", folder.has("three"), Ok(false));
    assert_same(&rt, "sync", folder.sync(), Ok(()));
    assert_bytes(&rt, &rt, "moves/one", b"1\n")?;
    assert_bytes(&rt, &rt, "moves/two", b"")?;
    assert_same(&rt, "remove", folder.remove("two"), Ok(()));
    assert_same(&rt, "remove none", folder.remove("two"), Ok(()));
    assert_names(&rt, &rt, "moves", "one\n")?;
    remove(&rt, "moves")
}

#[test]
fn a_file_gets_the_other_name(rt: HostRuntime) -> io::Result<()> {
    make(&rt, "renamed")?;
    let mut folder = open(&rt, "renamed")?;
    assert_same(&rt, "write", folder.write("old", b"1\n"), Ok(()));
    assert_same(&rt, "rename", folder.rename("old", "new"), Ok(()));
    assert_names(&rt, &rt, "renamed", "new\n")?;
    assert_same(&rt, "write over", folder.write("old", b"2\n"), Ok(()));
    assert_same(&rt, "rename over", folder.rename("old", "new"), Ok(()));
    assert_same(&rt, "none", folder.rename("old", "new"), Err(FolderFault));
    assert_bytes(&rt, &rt, "renamed/new", b"2\n")?;
    assert_names(&rt, &rt, "renamed", "new\n")?;
    remove(&rt, "renamed")
}

/// The answers of all moves but a look.
fn moves<F: Folder>(folder: &mut F) -> [Result<(), FolderFault>; 4] {
    [
        folder.write("v", b"newer\n"),
        folder.rename("v", "w"),
        folder.remove("v"),
        folder.sync(),
    ]
}

#[test]
fn moves_of_a_folder_that_is_not_there(rt: HostRuntime) -> io::Result<()> {
    let _ = remove(&rt, "gone");
    let mut folder = open(&rt, "gone")?;
    let failed = Err(FolderFault);
    let none_to_remove = Ok(());
    assert_same(
        &rt,
        "gone",
        moves(&mut folder),
        [failed, failed, none_to_remove, failed],
    );
    assert_same(&rt, "gone", folder.has("v"), Ok(false));
    assert_same(&rt, "gone", fs::exists(&rt, "gone")?, false);
    Ok(())
}

#[test]
fn moves_without_leave_to_write(rt: HostRuntime) -> io::Result<()> {
    make(&rt, "read")?;
    write(&rt, "read/v", "older\n")?;
    fs::set_permissions(&rt, "read", PermissionsExt::from_mode(0o555))?;
    let may = may_write(&rt, "read/probe");
    let mut folder = open(&rt, "read")?;
    let there = folder.has("v");
    let did = moves(&mut folder);
    fs::set_permissions(&rt, "read", PermissionsExt::from_mode(0o755))?;
    assert_same(&rt, "read", there, Ok(true));
    if may {
        assert_same(&rt, "read", did, [Ok(()); 4]);
    } else {
        assert_same(&rt, "read", did, [Err(FolderFault); 4]);
        assert_bytes(&rt, &rt, "read/v", b"older\n")?;
    }
    remove(&rt, "read")
}

#[test]
fn a_folder_that_is_not_to_be_synced(rt: HostRuntime) -> io::Result<()> {
    make(&rt, "unsynced")?;
    let path = String::from_str(rt.alloc(), "unsynced")?;
    let mut folder = FileFolder::new(&rt, rt.alloc(), path);
    assert_same(&rt, "write", folder.write("one", b"1\n"), Ok(()));
    assert_same(&rt, "sync", folder.sync(), Err(FolderFault));
    remove(&rt, "unsynced")
}

/// The names of the files of `items`, in their order.
const NAMES: [&str; 4] = ["hd 1.7.ts", "hd 1.m3u8", "v.iframes.m3u8", "master.m3u8"];

/// How many of the names are in place, where those before each are too.
fn in_place(folder: &MemoryFolder) -> usize {
    NAMES
        .iter()
        .take_while(|name| folder.find(name).is_some())
        .count()
}

fn staged(alloc: Global, name: &str) -> Result<StagedFile, AllocError> {
    Ok(StagedFile {
        part: format!(in alloc; ".{name}.part")?,
        name: String::from_str(alloc, name)?,
    })
}

/// The first block of `items`.
fn block(alloc: Global) -> Result<Vec<StagedFile>, AllocError> {
    let mut block = Vec::new(alloc);
    for name in NAMES.iter().take(3) {
        block.push(staged(alloc, name)?)?;
    }
    Ok(block)
}

/// Puts one item of each kind into a folder of which a move fails, and gives the folder back.
fn put_until(alloc: Global, n: u64) -> Result<MemoryFolder, AllocError> {
    let mut outlet = FolderOutlet::with_folder(MemoryFolder::new(alloc, n), alloc);
    let items = items(alloc)?;
    let _ = put_all(&mut outlet, &items);
    Ok(outlet.into_folder())
}

/// Fails unless so many files are in place where move `n` fails, and so many once the block is rolled forward.
fn rolls_forward(
    rt: &impl Abort,
    alloc: Global,
    n: u64,
    wanted: (usize, usize),
) -> Result<(), AllocError> {
    let mut folder = put_until(alloc, n)?;
    let left = in_place(&folder);
    let block = block(alloc)?;
    if left > 0 && roll_forward(&mut folder, &block).is_err() {
        return Err(AllocError);
    }
    assert_same(rt, n, (left, in_place(&folder)), wanted);
    Ok(())
}

#[test]
fn a_block_is_rolled_forward(rt: HostRuntime) -> Result<(), AllocError> {
    for (n, left, rolled) in [
        (0, 4, 4),
        (1, 0, 0),
        (2, 0, 0),
        (3, 0, 0),
        (4, 0, 0),
        (5, 1, 3),
        (6, 2, 3),
        (7, 3, 3),
        (8, 3, 3),
    ] {
        rolls_forward(&rt, rt.alloc(), n, (left, rolled))?;
    }
    Ok(())
}

#[test]
fn a_folder_in_memory(rt: HostRuntime) -> Result<(), FolderFault> {
    let mut folder = put_until(rt.alloc(), 0)?;
    let part = folder.find(".master.m3u8.part").is_some();
    let master = folder.find("master.m3u8").is_some();
    assert_same(&rt, "master", (part, master), (false, true));
    let segment = folder.find("hd 1.7.ts");
    assert_same(
        &rt,
        "segment",
        segment,
        Some(b"\x00\x47\xAB\xFF".as_slice()),
    );
    folder.remove("hd 1.7.ts")?;
    folder.sync()?;
    assert_same(&rt, "removed", folder.has("hd 1.7.ts")?, false);
    Ok(())
}

#[test]
fn a_folder_that_is_synced(rt: HostRuntime) -> io::Result<()> {
    make(&rt, "synced")?;
    let items = items(rt.alloc())?;
    let mut outlet = FolderOutlet::with_synced_folder(open(&rt, "synced")?, rt.alloc());
    assert_same(&rt, "synced", put_all(&mut outlet, &items), 0);
    assert_bytes(&rt, &rt, "synced/hd 1.7.ts", b"\x00\x47\xAB\xFF")?;
    let names = "hd 1.7.ts\nhd 1.m3u8\nmaster.m3u8\nv.iframes.m3u8\n";
    assert_names(&rt, &rt, "synced", names)?;
    remove(&rt, "synced")
}

#[test]
fn a_sync_that_fails_fails_the_put(rt: HostRuntime) -> io::Result<()> {
    make(&rt, "fails")?;
    let path = String::from_str(rt.alloc(), "fails")?;
    let folder = FileFolder::new(&rt, rt.alloc(), path);
    let mut outlet = FolderOutlet::with_synced_folder(folder, rt.alloc());
    let items = items(rt.alloc())?;
    // the third puts its block, of which the sync fails: nothing is in place, and the master isn't put
    assert_same(&rt, "fails", put_all(&mut outlet, &items), 2);
    let names = ".hd 1.7.ts.part\n.hd 1.m3u8.part\n.v.iframes.m3u8.part\n";
    assert_names(&rt, &rt, "fails", names)?;
    remove(&rt, "fails")
}
