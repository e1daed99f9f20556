//! What the system answered where a file was to be replaced, as receipts. Only these functions make them, each of an answer of the
//! system, and each step takes those of the steps before it.
ghost use Rattle.std.specs.Prelude.{◌≡◌, Err, IfErr, IfOk, IsErr, IsOk, OnErr, OnOk};
ghost use Rattle.std.specs.Fs.{IsFile, file_type};
ghost use Rattle.std.specs.Io.KnownBytes.{Appends};
ghost use Rattle.std.specs.String.{string_bytes};
ghost use Rattle.program.specs.PartPaths.{IsPartPath};

use std::fs::{self, Files, Metadata};
use std::io::{self, Write};
use std::snapshot::Snapshot;

/// Nothing but a file, if anything, is at a path: a file may come to stand there.
#[derive(Drop)]
pub struct Free<'a> {
    path: &'a str,
}

/// Bytes went into a file, whole.
#[derive(Drop)]
pub struct Filled {
    bytes: Vec<u8>,
}

/// A file was written anew.
#[derive(Drop)]
pub struct Written<'a> {
    path: &'a str,
    bytes: Vec<u8>,
}

/// A file with these bytes took the place of the one at a path.
#[derive(Drop)]
pub struct Put {
    path: Snapshot<String>,
    bytes: Vec<u8>,
}

/// Looks whether a file may come to stand at a path.
pub fn free_at<'a, R: Files>(files: &R, path: &'a str) -> io::Result<Free<'a>>
    ensures { IfOk result (λ free. free.path ≡ path.entry) }
{
    free_of(path, fs::symlink_metadata(files, path))
}

/// Whether a file may come to stand at a path where the system found this: it may not where something else is.
fn free_of<'a>(path: &'a str, found: io::Result<Metadata>) -> io::Result<Free<'a>>
    ensures file { IfOk found (λ there. IsFile (file_type there) → IsOk result) }
    ensures other { IfOk found (λ there. ¬ IsFile (file_type there) → IsErr result) }
    ensures none { OnErr found (IsOk result) }
    ensures path { IfOk result (λ free. free.path ≡ path.entry) }
{
    match found {
        Ok(there) if !there.is_file() => Err(io::Error::from(io::ErrorKind::AlreadyExists)),
        _ => Ok(Free { path }),
    }
}

/// Writes bytes into a file, behind those that it has.
pub fn fill<W: Write>(file: &mut W, bytes: Vec<u8>) -> io::Result<Filled>
    ensures whole { OnOk result (Appends (W.contents file.old) (W.contents file.new) bytes.items) }
    ensures bytes { IfOk result (λ filled. filled.bytes ≡ bytes) }
{
    file.write_all(&bytes)?;
    file.flush()?;
    Ok(Filled { bytes })
}

/// A new file was filled at a path where one may stand.
pub fn write_of<'a>(free: Free<'a>, filled: Filled) -> Written<'a>
    ensures { (result.path ≡ free.entry.path) × (result.bytes ≡ filled.bytes) }
{
    Written {
        path: free.path,
        bytes: filled.bytes,
    }
}

/// A file that was written took the place of the one at a path where one may stand, if the system says so.
pub fn put_of(
    at: &String,
    free: Free<'_>,
    written: Written<'_>,
    renamed: io::Result<()>,
) -> io::Result<Put>
    requires free { free.path.now ≡ string_bytes at.now }
    requires part { IsPartPath (string_bytes at.now) written.path.now }
    ensures ok { OnOk renamed (IsOk result) }
    ensures err { IfErr renamed (λ error. result ≡ Err error) }
    ensures put { IfOk result (λ put. (put.path.value ≡ at.now) × (put.bytes ≡ written.entry.bytes)) }
{
    let _ = free;
    renamed?;
    Ok(Put {
        path: Snapshot::of(at),
        bytes: written.bytes,
    })
}
