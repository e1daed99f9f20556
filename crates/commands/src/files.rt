//! Files that are read by their paths.
ghost use Rattle.std.specs.Prelude.{◌≡◌, ◌≢◌, ⊤, List, ℕ, Ok, IfErr, IfOk, IfSome, IsErrOf, take};
ghost use Rattle.std.specs.IoError.{error_kind};
ghost use Rattle.std.specs.declared.io.ErrorKind.TheVariants.{OutOfMemory};
ghost use Rattle.commands.specs.declared.files.FileFault.TheVariants.{NoMemory, Unread};
ghost use Rattle.commands.specs.KeyFiles.{GivesFront};

use std::alloc::{AllocError, AllocFailed, Global};
use std::fs::File;
use std::io::Read;
use std::{fs, io};
use thiserror::Error;

/// Why a file isn't read.
#[derive(Clone, Copy, Debug, PartialEq, Eq, Error)]
pub enum FileFault {
    #[error("a file can't be read")]
    Unread,
    #[error("out of memory")]
    NoMemory,
}

impl From<AllocError> for FileFault {
    ghost use Rattle.commands.specs.declared.files.FileFault.TheVariants.{NoMemory};

    ghost from_gives = { λ _ fault. fault ≡ NoMemory };

    fn from(_: AllocError) -> FileFault {
        FileFault::NoMemory
    }
}

impl<T: Drop> From<AllocFailed<T>> for FileFault {
    ghost use Rattle.commands.specs.declared.files.FileFault.TheVariants.{NoMemory};

    ghost from_gives = { λ _ fault. fault ≡ NoMemory };

    fn from(_: AllocFailed<T>) -> FileFault {
        FileFault::NoMemory
    }
}

/// What reads files by their paths.
pub trait FileReader {
    /// Reading the file at a path may give these bytes. A reader that can't tell what its files hold says so of all bytes.
    ghost gives: { Self → List ℕ → List ℕ → Type 0 };

    /// Reading the file at a path may fail.
    ghost refuses: { Self → List ℕ → Type 0 };

    /// Reading the file at a path may want memory that isn't there.
    ghost wants: { Self → List ℕ → Type 0 };

    /// The bytes of the file at a path.
    fn read(&self, alloc: Global, path: &str) -> Result<Vec<u8>, FileFault>
        ensures ok { IfOk result (λ bytes. gives self.now path.now bytes.items) }
        ensures unread { IsErrOf result FileFault.Unread → refuses self.now path.now }
        ensures no_memory { IsErrOf result FileFault.NoMemory → wants self.now path.now };

    /// The first bytes of the file at a path: all of them where they are fewer than `most`. No more than `most` are read.
    fn read_front(&self, alloc: Global, path: &str, most: usize) -> Result<Vec<u8>, FileFault>
        ensures ok { IfOk result (λ bytes. GivesFront (gives self.now path.now) most bytes.items) }
        ensures unread { IsErrOf result FileFault.Unread → refuses self.now path.now }
        ensures no_memory { IsErrOf result FileFault.NoMemory → wants self.now path.now };
}

/// Why a file wasn't read.
fn fault_of(error: io::Error) -> FileFault
    ensures no_memory { error_kind error ≡ OutOfMemory → result ≡ NoMemory }
    ensures unread { error_kind error ≢ OutOfMemory → result ≡ Unread }
{
    match error.kind() {
        io::ErrorKind::OutOfMemory => FileFault::NoMemory,
        _ => FileFault::Unread,
    }
}

/// What was read, with why nothing was.
fn told(read: io::Result<Vec<u8>>) -> Result<Vec<u8>, FileFault>
    ensures ok { IfOk read (λ bytes. result ≡ Ok bytes) }
    ensures no_memory { IfErr read (λ error. error_kind error ≡ OutOfMemory → IsErrOf result FileFault.NoMemory) }
    ensures unread { IfErr read (λ error. error_kind error ≢ OutOfMemory → IsErrOf result FileFault.Unread) }
{
    match read {
        Ok(bytes) => Ok(bytes),
        Err(error) => Err(fault_of(error)),
    }
}

/// The first bytes that reads give.
fn first_of<R: Read + Drop>(alloc: Global, reader: R, most: usize) -> io::Result<Vec<u8>>
    ensures { IfOk result (λ bytes. IfSome (R.remaining reader) (λ left. bytes.items ≡ take most left)) }
{
    let mut bytes = Vec::new(alloc);
    reader.take(most as u64).read_to_end(&mut bytes)?;
    Ok(bytes)
}

/// The first bytes of what was opened, with why nothing was.
fn front_of<R: Read + Drop>(
    alloc: Global,
    opened: io::Result<R>,
    most: usize,
) -> Result<Vec<u8>, FileFault>
    ensures ok { IfOk opened (λ reader. IfOk result (λ bytes. IfSome (R.remaining reader) (λ left. bytes.items ≡ take most left))) }
    ensures no_memory { IfErr opened (λ error. error_kind error ≡ OutOfMemory → IsErrOf result FileFault.NoMemory) }
    ensures unread { IfErr opened (λ error. error_kind error ≢ OutOfMemory → IsErrOf result FileFault.Unread) }
{
    match opened {
        Ok(reader) => told(first_of(alloc, reader, most)),
        Err(why) => Err(fault_of(why)),
    }
}

/// The files of the system. What they hold is the system's, so nothing is claimed of it.
impl FileReader for HostRuntime {
    ghost gives = { λ _ _ _. ⊤ };

    ghost refuses = { λ _ _. ⊤ };

    ghost wants = { λ _ _. ⊤ };

    fn read(&self, _alloc: Global, path: &str) -> Result<Vec<u8>, FileFault> {
        told(fs::read(self, path))
    }

    fn read_front(&self, _alloc: Global, path: &str, most: usize) -> Result<Vec<u8>, FileFault> {
        front_of(self.alloc(), File::open(self, path), most)
    }
}
