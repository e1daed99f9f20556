//! Segments that stand in the hidden folder before they are put.

use crate::asserts::assert_same;
use crate::folders::{assert_bytes, assert_names, make, remove, write};
use folder::{
    AheadFile, AheadFolder, FileFolder, Folder, FolderFault, MemoryFolder, PruningFolder,
    WriteAhead, WriteFile,
};
use std::io::Write;
use std::os::unix::fs::{MetadataExt, symlink};
use std::{fs, io};

/// The bytes of a segment.
const BYTES: &[u8] = b"\x47\x00\xFF";

/// The hidden folder of a folder, in which files are synced or not.
fn open<'a>(
    files: &'a HostRuntime,
    folder: &str,
    syncs: bool,
) -> Option<AheadFolder<&'a HostRuntime>> {
    AheadFolder::open(files, files.alloc(), folder, syncs)
}

/// The hidden folder of a folder that is made anew.
fn opened<'a>(files: &'a HostRuntime, folder: &str) -> io::Result<AheadFolder<&'a HostRuntime>> {
    make(files, folder)?;
    match open(files, folder, false) {
        Some(ahead) => Ok(ahead),
        None => Err(io::Error::from(io::ErrorKind::Other)),
    }
}

/// Writes the bytes into a file that was begun, in two pieces, and finishes it.
fn written<F: WriteFile + Drop>(mut file: F) -> Option<AheadFile> {
    let (front, rest) = BYTES.split_at(1);
    file.write_all(front).ok()?;
    file.write_all(rest).ok()?;
    file.finish()
}

/// A segment's file that stands ready.
fn stand<A: WriteAhead>(ahead: &A, rendition: usize, number: u64) -> Option<AheadFile> {
    written(ahead.begin(rendition, number)?)
}

/// The folder at a path, in which files are synced or not.
fn folder_at<'a>(
    files: &'a HostRuntime,
    path: &str,
    syncs: bool,
) -> io::Result<FileFolder<&'a HostRuntime>> {
    let path = String::from_str(files.alloc(), path)?;
    if syncs {
        return Ok(FileFolder::new_synced(files, files.alloc(), path));
    }
    Ok(FileFolder::new(files, files.alloc(), path))
}

/// Takes a file that stands ready as the one of a name. None where there is none to take.
fn take<F: Folder>(folder: &mut F, name: &str, ahead: Option<AheadFile>) -> Option<bool> {
    Some(folder.take(name, ahead?))
}

#[test]
fn a_file_that_stands_ready_is_taken(rt: HostRuntime) -> io::Result<()> {
    let ahead = opened(&rt, "taken")?;
    write(&rt, "taken/one", "older\n")?;
    let file = stand(&ahead, 2, 7);
    assert_names(&rt, &rt, "taken/.tshls-ahead", "2.7\n")?;
    assert_bytes(&rt, &rt, "taken/.tshls-ahead/2.7", BYTES)?;
    let inode = fs::metadata(&rt, "taken/.tshls-ahead/2.7")?.ino();
    let mut folder = folder_at(&rt, "taken", false)?;
    assert_same(&rt, "take", take(&mut folder, "one", file), Some(true));
    assert_bytes(&rt, &rt, "taken/one", BYTES)?;
    let taken = fs::metadata(&rt, "taken/one")?.ino();
    assert_same(&rt, "the same file", taken, inode);
    assert_names(&rt, &rt, "taken/.tshls-ahead", "")?;
    remove(&rt, "taken")
}

#[test]
fn each_segment_has_a_file_of_its_own(rt: HostRuntime) -> io::Result<()> {
    let ahead = opened(&rt, "own")?;
    for (rendition, number) in [(0, 7), (1, 7), (1, 70), (17, 0)] {
        let file = stand(&ahead, rendition, number);
        assert_same(&rt, (rendition, number), file.is_some(), true);
    }
    assert_names(&rt, &rt, "own/.tshls-ahead", "0.7\n1.7\n1.70\n17.0\n")?;
    remove(&rt, "own")
}

#[test]
fn a_segment_is_begun_once(rt: HostRuntime) -> io::Result<()> {
    let ahead = opened(&rt, "once")?;
    let file = ahead.begin(0, 7);
    assert_same(&rt, "again", ahead.begin(0, 7).is_some(), false);
    let file = file.and_then(written);
    assert_same(&rt, "whole", ahead.begin(0, 7).is_some(), false);
    assert_bytes(&rt, &rt, "once/.tshls-ahead/0.7", BYTES)?;
    let mut folder = folder_at(&rt, "once", false)?;
    assert_same(&rt, "take", take(&mut folder, "one", file), Some(true));
    assert_same(&rt, "then", ahead.begin(0, 7).is_some(), true);
    assert_bytes(&rt, &rt, "once/.tshls-ahead/0.7", b"")?;
    assert_bytes(&rt, &rt, "once/one", BYTES)?;
    remove(&rt, "once")
}

#[test]
fn a_file_that_is_given_up_is_gone(rt: HostRuntime) -> io::Result<()> {
    let ahead = opened(&rt, "given_up")?;
    for bytes in [b"", BYTES] {
        let Some(mut file) = ahead.begin(0, 0) else {
            return Err(io::Error::from(io::ErrorKind::Other));
        };
        file.write_all(bytes)?;
        assert_names(&rt, &rt, "given_up/.tshls-ahead", "0.0\n")?;
        file.give_up();
        assert_names(&rt, &rt, "given_up/.tshls-ahead", "")?;
    }
    remove(&rt, "given_up")
}

#[test]
fn a_file_that_has_gone_is_written(rt: HostRuntime) -> io::Result<()> {
    let ahead = opened(&rt, "lost")?;
    let file = stand(&ahead, 0, 0);
    fs::remove_file(&rt, "lost/.tshls-ahead/0.0")?;
    let mut folder = folder_at(&rt, "lost", false)?;
    assert_same(&rt, "take", take(&mut folder, "one", file), Some(false));
    assert_names(&rt, &rt, "lost", ".tshls-ahead\n")?;
    assert_same(&rt, "write", folder.write("one", BYTES), Ok(()));
    assert_bytes(&rt, &rt, "lost/one", BYTES)?;
    remove(&rt, "lost")
}

#[test]
fn a_file_that_cannot_be_renamed_is_removed(rt: HostRuntime) -> io::Result<()> {
    let ahead = opened(&rt, "in_the_way")?;
    let file = stand(&ahead, 0, 0);
    fs::create_dir(&rt, "in_the_way/one")?;
    let mut folder = folder_at(&rt, "in_the_way", false)?;
    assert_same(&rt, "take", take(&mut folder, "one", file), Some(false));
    assert_names(&rt, &rt, "in_the_way/.tshls-ahead", "")?;
    assert_names(&rt, &rt, "in_the_way/one", "")?;
    fs::remove_dir(&rt, "in_the_way/one")?;
    assert_same(&rt, "write", folder.write("one", BYTES), Ok(()));
    assert_bytes(&rt, &rt, "in_the_way/one", BYTES)?;
    remove(&rt, "in_the_way")
}

#[test]
fn files_are_taken_that_were_synced_as_all_are(rt: HostRuntime) -> io::Result<()> {
    for (was, are) in [(false, false), (false, true), (true, false), (true, true)] {
        make(&rt, "unsure")?;
        let file = open(&rt, "unsure", was).and_then(|ahead| stand(&ahead, 0, 0));
        let mut folder = folder_at(&rt, "unsure", are)?;
        let taken = take(&mut folder, "one", file);
        assert_same(&rt, (was, are), taken, Some(was == are));
        if was != are {
            assert_names(&rt, &rt, "unsure/.tshls-ahead", "0.0\n")?;
            assert_same(&rt, "write", folder.write("one", BYTES), Ok(()));
        }
        assert_bytes(&rt, &rt, "unsure/one", BYTES)?;
        let synced = if are { Ok(()) } else { Err(FolderFault) };
        assert_same(&rt, (was, are), folder.sync(), synced);
    }
    remove(&rt, "unsure")
}

#[test]
fn nothing_is_taken_into_another_folder(rt: HostRuntime) -> io::Result<()> {
    let ahead = opened(&rt, "home")?;
    let mut folder = folder_at(&rt, "home", false)?;
    let first = stand(&ahead, 0, 0);
    let file = stand(&ahead, 0, 1);
    assert_same(&rt, "first", take(&mut folder, "zero", first), Some(true));
    let _ = remove(&rt, "home_away");
    fs::rename(&rt, "home", "home_away")?;
    fs::create_dir(&rt, "home")?;
    assert_same(&rt, "take", take(&mut folder, "one", file), Some(false));
    assert_names(&rt, &rt, "home", "")?;
    assert_names(&rt, &rt, "home_away", ".tshls-ahead\nzero\n")?;
    remove(&rt, "home_away")?;
    remove(&rt, "home")
}

#[test]
fn what_is_served_is_not_taken(rt: HostRuntime) -> io::Result<()> {
    let ahead = opened(&rt, "served")?;
    let mut folder = PruningFolder::new(folder_at(&rt, "served", false)?);
    let file = stand(&ahead, 0, 0);
    assert_same(&rt, "served", take(&mut folder, "one", file), Some(false));
    assert_names(&rt, &rt, "served", ".tshls-ahead\n")?;
    let file = stand(&ahead, 0, 1);
    assert_same(&rt, "hidden", take(&mut folder, ".one", file), Some(true));
    assert_bytes(&rt, &rt, "served/.one", BYTES)?;
    remove(&rt, "served")
}

#[test]
fn a_folder_in_memory_takes_nothing(rt: HostRuntime) -> io::Result<()> {
    let ahead = opened(&rt, "memory")?;
    let file = stand(&ahead, 0, 0);
    let mut folder = MemoryFolder::new(rt.alloc(), 0);
    assert_same(&rt, "take", take(&mut folder, "one", file), Some(false));
    assert_same(&rt, "has", folder.has("one"), Ok(false));
    remove(&rt, "memory")
}

#[test]
fn what_an_earlier_run_left_is_cleared(rt: HostRuntime) -> io::Result<()> {
    make(&rt, "left")?;
    fs::create_dir(&rt, "left/.tshls-ahead")?;
    write(
        &rt,
        "left/.tshls-ahead/0.9",
        "left by a run that was killed\n",
    )?;
    let ahead = open(&rt, "left", false);
    assert_same(&rt, "left", ahead.is_some(), true);
    assert_names(&rt, &rt, "left/.tshls-ahead", "")?;
    remove(&rt, "left")
}

#[test]
fn nothing_is_written_ahead_without_a_folder(rt: HostRuntime) -> io::Result<()> {
    let _ = remove(&rt, "nowhere");
    let ahead = open(&rt, "nowhere", true);
    assert_same(&rt, "nowhere", ahead.is_some(), false);
    assert_same(&rt, "begun", ahead.begin(0, 0).is_some(), false);
    assert_same(&rt, "nowhere", fs::exists(&rt, "nowhere")?, false);
    Ok(())
}

#[test]
fn a_file_of_the_hidden_name_stays(rt: HostRuntime) -> io::Result<()> {
    make(&rt, "file")?;
    write(&rt, "file/.tshls-ahead", "somebody's\n")?;
    assert_same(&rt, "file", open(&rt, "file", false).is_some(), false);
    assert_bytes(&rt, &rt, "file/.tshls-ahead", b"somebody's\n")?;
    remove(&rt, "file")
}

#[test]
fn what_a_link_of_the_hidden_name_leads_to_stays(rt: HostRuntime) -> io::Result<()> {
    make(&rt, "linked")?;
    fs::create_dir(&rt, "linked/other")?;
    write(&rt, "linked/other/v", "somebody's\n")?;
    symlink(&rt, "other", "linked/.tshls-ahead")?;
    assert_same(&rt, "linked", open(&rt, "linked", false).is_some(), true);
    assert_bytes(&rt, &rt, "linked/other/v", b"somebody's\n")?;
    assert_names(&rt, &rt, "linked/.tshls-ahead", "")?;
    remove(&rt, "linked")
}

#[test]
fn another_folder_in_its_place_is_left_alone(rt: HostRuntime) -> io::Result<()> {
    let ahead = opened(&rt, "moved")?;
    fs::rename(&rt, "moved/.tshls-ahead", "moved/away")?;
    fs::create_dir(&rt, "moved/.tshls-ahead")?;
    write(&rt, "moved/.tshls-ahead/0.0", "somebody's\n")?;
    assert_same(&rt, "moved", ahead.begin(0, 0).is_some(), false);
    assert_same(&rt, "moved", ahead.begin(0, 1).is_some(), false);
    ahead.close();
    assert_names(&rt, &rt, "moved/.tshls-ahead", "0.0\n")?;
    assert_bytes(&rt, &rt, "moved/.tshls-ahead/0.0", b"somebody's\n")?;
    remove(&rt, "moved")
}

#[test]
fn a_closed_folder_is_gone(rt: HostRuntime) -> io::Result<()> {
    let ahead = opened(&rt, "closed_ahead")?;
    let whole = stand(&ahead, 0, 0);
    let begun = ahead.begin(0, 1);
    ahead.close();
    assert_names(&rt, &rt, "closed_ahead", "")?;
    let mut folder = folder_at(&rt, "closed_ahead", false)?;
    assert_same(&rt, "whole", take(&mut folder, "one", whole), Some(false));
    let late = begun.and_then(written);
    assert_same(&rt, "late", take(&mut folder, "one", late), Some(false));
    assert_same(&rt, "write", folder.write("one", BYTES), Ok(()));
    assert_bytes(&rt, &rt, "closed_ahead/one", BYTES)?;
    remove(&rt, "closed_ahead")
}
