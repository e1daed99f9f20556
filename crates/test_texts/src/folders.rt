//! Folders of the file system for tests.

use crate::asserts::assert_same;
use crate::fixtures::assert_text;
use std::alloc::{AllocError, Global};
use std::process::Abort;
use std::{fs, io};

/// Makes a folder anew.
pub(crate) fn make(files: &HostRuntime, folder: &str) -> io::Result<()> {
    let _ = remove(files, folder);
    fs::create_dir(files, folder)
}

fn push_names(files: &HostRuntime, names: &mut Vec<String>, folder: &str) -> io::Result<()> {
    for entry in fs::read_dir(files, folder)? {
        names.push(String::from_str(files.alloc(), entry?.file_name())?)?;
    }
    Ok(())
}

/// The names, each with an LF.
fn lines_of(alloc: Global, names: &[String]) -> Result<String, AllocError> {
    let mut text = String::new(alloc);
    for name in names {
        text.push_str(name)?;
        text.push_str("\n")?;
    }
    Ok(text)
}

/// The names in a folder, in order, each with an LF.
pub(crate) fn names(files: &HostRuntime, folder: &str) -> io::Result<String> {
    let mut names = Vec::new(files.alloc());
    push_names(files, &mut names, folder)?;
    names.sort()?;
    Ok(lines_of(files.alloc(), &names)?)
}

/// Fails unless these are the names in a folder.
pub(crate) fn assert_names(
    rt: &impl Abort,
    files: &HostRuntime,
    folder: &str,
    wanted: &str,
) -> io::Result<()> {
    assert_text(rt, &names(files, folder)?, wanted);
    Ok(())
}

/// Fails unless these are the bytes of a file.
pub(crate) fn assert_bytes(
    rt: &impl Abort,
    files: &HostRuntime,
    path: &str,
    wanted: &[u8],
) -> io::Result<()> {
    let bytes = fs::read(files, path)?;
    assert_same(rt, path, bytes.as_slice(), wanted);
    Ok(())
}

/// Writes a file.
pub(crate) fn write(files: &HostRuntime, path: &str, text: &str) -> io::Result<()> {
    fs::write(files, path, text)
}

/// Removes a folder with all that it holds.
pub(crate) fn remove(files: &HostRuntime, folder: &str) -> io::Result<()> {
    fs::remove_dir_all(files, folder)
}
