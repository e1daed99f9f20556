//! The file of a run's metrics, which is replaced as a whole.
ghost use Rattle.std.specs.Prelude.{◌≡◌, IfOk};
ghost use Rattle.std.specs.String.{string_bytes};
ghost use Rattle.program.specs.PartPaths.{IsPartPath};

use crate::file_answers::{Free, Put, Written, fill, free_at, put_of, write_of};
use std::alloc::{AllocError, Global};
use std::fs::{self, File, Files};
use std::io;

/// The path of the file until it is whole: a hidden one in the same folder.
fn part_path(alloc: Global, path: &str) -> Result<String, AllocError>
    ensures { IfOk result (λ part. IsPartPath path.now (string_bytes part)) }
{
    match path.rsplit_once('/') {
        Some((folder, name)) => format!(in alloc; "{folder}/.{name}.part"),
        None => format!(in alloc; ".{path}.part"),
    }
}

/// Writes a file, where one may stand.
fn write<'a, R: Files>(
    files: &R,
    path: &'a str,
    free: Free<'a>,
    bytes: Vec<u8>,
) -> io::Result<Written<'a>>
    requires { free.path.now ≡ path.now }
    ensures { IfOk result (λ written. (written.path.now ≡ path.now) × (written.bytes ≡ bytes)) }
{
    let mut file = File::create(files, path)?;
    let filled = fill(&mut file, bytes)?;
    Ok(write_of(free, filled))
}

/// Puts a file with these bytes in place of the one at the path, if any. Something else that is there stays.
pub fn replace<R: Files>(files: &R, alloc: Global, path: &String, bytes: Vec<u8>) -> io::Result<Put>
    ensures { IfOk result (λ put. (put.path.value ≡ path.now) × (put.bytes ≡ bytes)) }
{
    let part = part_path(alloc, path)?;
    let free = free_at(files, path)?;
    let free_part = free_at(files, &part)?;
    let put = match write(files, &part, free_part, bytes) {
        Ok(written) => {
            let renamed = fs::rename(files, part.as_str(), path.as_str());
            put_of(path, free, written, renamed)
        }
        Err(error) => Err(error),
    };
    if put.is_err() {
        let _ = fs::remove_file(files, part.as_str());
    }
    put
}
