//! What the system answered on the files of a folder, as receipts. Only these functions make them, each of an answer of the
//! system, and each move that is noted takes one: what the system didn't confirm can't be noted.
ghost use Rattle.std.specs.Prelude.{◌≡◌, ◌≢◌, ◌++◌, [], Err, IfErr, IfOk, IfSome, IsErr, IsOk, IsSome, None, Ok, OnErr, OnOk, Option, Some, is_some, take};
ghost use Rattle.std.specs.Fs.{IsFile, file_type};
ghost use Rattle.std.specs.Io.{WritesAtMost};
ghost use Rattle.std.specs.Io.KnownBytes.{Appends, WriteAppends};
ghost use Rattle.std.specs.IoError.{error_kind};
ghost use Rattle.std.specs.Path.{path_join};
ghost use Rattle.std.specs.declared.io.ErrorKind.TheVariants.{NotFound, OutOfMemory};
ghost use Rattle.folder.specs.declared.read_fault.FolderReadFault.TheVariants.{NoMemory, Unread};

use crate::ahead::AheadFile;
use crate::fault::FolderFault;
use crate::notes::known;
use crate::refusal::{Refusal, unless};
use ghost_list::GhostList;
use std::fs::Metadata;
use std::io;
use std::io::Write;
use std::os::unix::fs::MetadataExt;

/// The file or the folder at a path is on the disk.
#[derive(Drop)]
pub struct Synced {
    path: GhostList<u8>,
}

/// It was tried to remove the file at a path, whatever stood there.
#[derive(Drop)]
pub struct Cleared {
    path: GhostList<u8>,
}

/// All the bytes that went into a new file.
#[derive(Drop)]
pub struct Filled {
    bytes: GhostList<u8>,
}

/// The folder that was found at a path: its device and its inode.
#[derive(Drop)]
pub struct Node {
    path: GhostList<u8>,
    found: (u64, u64),
}

/// A folder was made, and is empty: its device and its inode.
#[derive(Drop)]
pub struct Emptied {
    path: GhostList<u8>,
    found: (u64, u64),
}

/// A file was written anew.
#[derive(Drop)]
pub struct Written {
    path: GhostList<u8>,
    bytes: GhostList<u8>,
    is_synced: bool,
}

/// A file has another name.
#[derive(Drop)]
pub struct Renamed {
    from: GhostList<u8>,
    to: GhostList<u8>,
}

/// A file is gone: it was removed, or there was none.
#[derive(Drop)]
pub struct Removed {
    path: GhostList<u8>,
}

/// It was looked for a file: what the system told of it, if there is one.
#[derive(Drop)]
pub struct Sight {
    path: GhostList<u8>,
    found: Option<Metadata>,
}

impl Written {
    /// The bytes.
    pub fn into_bytes(self) -> GhostList<u8>
        ensures { result.items ≡ self.bytes.items }
    {
        self.bytes
    }

    /// Whether it was synced.
    pub fn is_synced(&self) -> bool
        ensures { result ≡ self.now.is_synced }
    {
        self.is_synced
    }
}

impl Filled {
    /// Nothing went into a new file yet.
    pub fn nothing() -> Filled
        ensures { result.bytes.items ≡ [] }
    {
        Filled {
            bytes: GhostList::new(),
        }
    }
}

impl Emptied {
    /// Its device and its inode.
    pub fn found(&self) -> (u64, u64)
        ensures { result ≡ self.now.found }
    {
        self.found
    }
}

impl Node {
    /// Its device and its inode.
    pub fn found(&self) -> (u64, u64)
        ensures { result ≡ self.now.found }
    {
        self.found
    }
}

impl Sight {
    /// Whether there is one.
    pub fn is_there(&self) -> bool
        ensures { result ≡ is_some self.now.found }
    {
        self.found.is_some()
    }

    /// What was told of it.
    pub fn into_found(self) -> Option<Metadata>
        ensures { result ≡ self.found }
    {
        self.found
    }
}

/// A sync is done where the system says so.
pub fn sync_of(path: &str, answer: io::Result<()>) -> io::Result<Synced>
    ensures ok { OnOk answer (IsOk result) }
    ensures err { IfErr answer (λ error. result ≡ Err error) }
    ensures of { IfOk result (λ synced. synced.path.items ≡ path.now) }
{
    answer?;
    Ok(Synced {
        path: known(path.as_bytes()),
    })
}

/// It was tried to remove a file, and the system answered something.
pub fn clearing_of(path: &str, _answer: io::Result<()>) -> Cleared
    ensures { result.path.items ≡ path.now }
{
    Cleared {
        path: known(path.as_bytes()),
    }
}

/// A path right in a folder that was made empty needs no clearing: what stands there was written there since, and stays.
pub fn clear_in(_folder: &Emptied, name: &str, path: &str) -> Cleared
    requires { path.now ≡ path_join _folder.now.path.items name.now }
    ensures { result.path.items ≡ path.now }
{
    Cleared {
        path: known(path.as_bytes()),
    }
}

/// The device and the inode of the folder at a path that the system looked at; none where it couldn't.
pub fn node_of(path: &str, looked: io::Result<Metadata>) -> Option<Node>
    ensures some { OnOk looked (IsSome result) }
    ensures none { OnErr looked (result ≡ None) }
    ensures of { IfSome result (λ node. node.path.items ≡ path.now) }
{
    let metadata = looked.ok()?;
    Some(Node {
        path: known(path.as_bytes()),
        found: (metadata.dev(), metadata.ino()),
    })
}

/// The folder that was made at a path, which was cleared, and looked at; none where the system couldn't do either.
pub fn emptied_of(
    path: &str,
    _cleared: Cleared,
    made: io::Result<()>,
    looked: io::Result<Metadata>,
) -> Option<Emptied>
    requires cleared { _cleared.path.items ≡ path.now }
    ensures some { OnOk made (OnOk looked (IsSome result)) }
    ensures unmade { OnErr made (result ≡ None) }
    ensures none { OnErr looked (result ≡ None) }
    ensures of { IfSome result (λ emptied. emptied.path.items ≡ path.now) }
{
    made.ok()?;
    let folder = looked.ok()?;
    Some(Emptied {
        path: known(path.as_bytes()),
        found: (folder.dev(), folder.ino()),
    })
}

/// Writes bytes into a new file, whole.
pub fn fill<W: Write>(file: &mut W, bytes: &[u8]) -> io::Result<Filled>
    ensures whole { OnOk result (Appends (W.contents file.old) (W.contents file.new) bytes.now) }
    ensures bytes { IfOk result (λ filled. filled.bytes.items ≡ bytes.now) }
{
    file.write_all(bytes)?;
    Ok(Filled {
        bytes: known(bytes),
    })
}

/// Writes some bytes into a file, behind those that went into it: as many as the system says.
pub fn fill_some<W: Write>(filled: &mut Filled, file: &mut W, bytes: &[u8]) -> io::Result<usize>
    ensures bound { WritesAtMost result bytes.now }
    ensures some { WriteAppends (W.contents file.old) (W.contents file.new) result bytes.now }
    ensures bytes { IfOk result (λ count. filled.new.bytes.items ≡ filled.old.bytes.items ++ take count bytes.now) }
    ensures none { OnErr result (filled.new.bytes.items ≡ filled.old.bytes.items) }
{
    let count = file.write(bytes)?;
    filled.bytes.append(&bytes[..count]);
    Ok(count)
}

/// The new file at a path, which was cleared, was filled, and synced if it was.
pub fn write_of(path: &str, _cleared: Cleared, filled: Filled, synced: Option<Synced>) -> Written
    requires cleared { _cleared.path.items ≡ path.now }
    requires of { IfSome synced (λ it. it.path.items ≡ path.now) }
    ensures path { result.path.items ≡ path.now }
    ensures bytes { result.bytes.items ≡ filled.bytes.items }
    ensures synced { result.is_synced ≡ is_some synced }
{
    Written {
        path: known(path.as_bytes()),
        bytes: filled.bytes,
        is_synced: synced.is_some(),
    }
}

/// A file was renamed where the system says so.
pub fn rename_of(from: &str, to: &str, answer: io::Result<()>) -> Result<Renamed, FolderFault>
    ensures ok { OnOk answer (IsOk result) }
    ensures err { OnErr answer (IsErr result) }
    ensures from { IfOk result (λ renamed. renamed.from.items ≡ from.now) }
    ensures to { IfOk result (λ renamed. renamed.to.items ≡ to.now) }
{
    if answer.is_err() {
        return Err(FolderFault);
    }
    Ok(Renamed {
        from: known(from.as_bytes()),
        to: known(to.as_bytes()),
    })
}

/// A file that stood ready was renamed: so it was written where it is now.
pub fn taken_of(file: AheadFile, renamed: Renamed) -> Written
    requires { renamed.from.items ≡ file.path }
    ensures path { result.path.items ≡ renamed.to.items }
    ensures bytes { result.bytes.items ≡ file.bytes }
    ensures synced { result.is_synced ≡ file.synced }
{
    let written = file.into_written();
    Written {
        path: renamed.to,
        bytes: written.bytes,
        is_synced: written.is_synced,
    }
}

/// A file is gone that was removed, or wasn't there.
pub fn gone(path: &str, removed: io::Result<()>) -> Result<Removed, FolderFault>
    ensures removed { OnOk removed (IsOk result) }
    ensures none { IfErr removed (λ error. error_kind error ≡ NotFound → IsOk result) }
    ensures failed { IfErr removed (λ error. error_kind error ≢ NotFound → IsErr result) }
    ensures path { IfOk result (λ gone. gone.path.items ≡ path.now) }
{
    if let Err(error) = removed {
        if error.kind() != io::ErrorKind::NotFound {
            return Err(FolderFault);
        }
    }
    Ok(Removed {
        path: known(path.as_bytes()),
    })
}

/// What is seen at a path where the system told this of it: a file, or none where there is none, but perhaps a folder.
pub fn sight_of(path: &str, told: io::Result<Metadata>) -> Result<Sight, Refusal>
    ensures file { IfOk told (λ it. IsFile (file_type it) → IfOk result (λ sight. sight.found ≡ Some it)) }
    ensures other { IfOk told (λ it. ¬ IsFile (file_type it) → IfOk result (λ sight. sight.found ≡ None)) }
    ensures some { OnOk told (IsOk result) }
    ensures none { IfErr told (λ error. error_kind error ≡ NotFound → IsOk result × IfOk result (λ sight. sight.found ≡ None)) }
    ensures no_memory { IfErr told (λ error. error_kind error ≡ OutOfMemory → result ≡ Err (record { fault = NoMemory })) }
    ensures unread { IfErr told (λ error. error_kind error ≢ NotFound → error_kind error ≢ OutOfMemory →
        result ≡ Err (record { fault = Unread })) }
    ensures path { IfOk result (λ sight. sight.path.items ≡ path.now) }
{
    let found = match unless(io::ErrorKind::NotFound, told)? {
        Some(metadata) if metadata.is_file() => Some(metadata),
        _ => None,
    };
    Ok(Sight {
        path: known(path.as_bytes()),
        found,
    })
}
