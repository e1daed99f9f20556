//! What the system answered when a folder was to be locked, and the lock that this gives. Only the functions here make them, so that a
//! folder isn't held but by the answer of the system.
ghost use Rattle.std.specs.Prelude.{◌≡◌, ◌≢◌, Err, IfErr, IfOk, IsErrOf, IsOk, None, Ok, OnErr, OnOk, Some, false, is_some, true};
ghost use Rattle.std.specs.declared.fs.locks.TryLockError.TheVariants.{WouldBlock};
ghost use Rattle.command_line.specs.declared.fault.Fault.TheVariants.{Busy};

use command_line::Fault;
use std::fs::{File, TryLockError};
use std::io;

/// A folder that was opened, and whether it could be locked then.
#[derive(Drop)]
pub struct Tried {
    folder: File,
    taken: Result<(), TryLockError>,
}

/// What the system answered when the folder at a path was to be locked.
#[derive(Drop)]
pub struct LockAnswer<'a> {
    path: &'a str,
    tried: io::Result<Tried>,
}

/// The lock on the folder at a path: no other packager changes it while this lives. One that can't be opened or locked isn't held: what
/// is to be told of that is told where the first file is put.
#[derive(Drop)]
pub struct FolderLock<'a> {
    path: &'a str,
    lock: Option<File>,
}

impl<'a> FolderLock<'a> {
    /// Whether it's held.
    pub fn is_held(&self) -> bool
        ensures { result ≡ is_some self.now.lock }
    {
        self.lock.is_some()
    }
}

/// Opens the folder at a path, and tries to lock it.
pub fn try_at<'a>(rt: &HostRuntime, path: &'a str) -> LockAnswer<'a>
    ensures { result.path ≡ path.entry }
{
    LockAnswer {
        path,
        tried: try_on(File::open(rt, path)),
    }
}

/// Tries to lock a folder, if it could be opened.
fn try_on(opened: io::Result<File>) -> io::Result<Tried>
    ensures opened { OnOk opened (IsOk result) }
    ensures folder { IfOk opened (λ folder. IfOk result (λ tried. tried.folder ≡ folder)) }
    ensures unopened { IfErr opened (λ error. result ≡ Err error) }
{
    let folder = opened?;
    let taken = folder.try_lock();
    Ok(Tried { folder, taken })
}

/// The lock that an answer gives. A folder that another packager has locked is a fault.
pub fn lock_of<'a>(answer: LockAnswer<'a>) -> Result<FolderLock<'a>, Fault>
    ensures path { IfOk result (λ held. held.path ≡ answer.entry.path) }

    // What was locked is held, with the folder that was opened for it.
    ensures taken { IfOk answer.entry.tried (λ tried. OnOk tried.taken (result ≡ Ok (record { path = answer.entry.path; lock = Some tried.folder }))) }
    ensures busy { IfOk answer.entry.tried (λ tried. IsErrOf tried.taken WouldBlock → result ≡ Err Busy) }
    ensures unlocked { IfOk answer.entry.tried (λ tried. IfErr tried.taken (λ why. why ≢ WouldBlock →
        result ≡ Ok (record { path = answer.entry.path; lock = None }))) }
    ensures unopened { OnErr answer.entry.tried (result ≡ Ok (record { path = answer.entry.path; lock = None })) }
    ensures refused { OnErr result (result ≡ Err Busy) }
{
    let LockAnswer { path, tried } = answer;
    let Ok(Tried { folder, taken }) = tried else {
        return Ok(FolderLock { path, lock: None });
    };
    if is_held(taken)? {
        return Ok(FolderLock {
            path,
            lock: Some(folder),
        });
    }
    Ok(FolderLock { path, lock: None })
}

/// Whether a lock was taken, by what the system answered. One that another packager has is a fault.
fn is_held(taken: Result<(), TryLockError>) -> Result<bool, Fault>
    ensures taken { OnOk taken (result ≡ Ok true) }
    ensures busy { IsErrOf taken WouldBlock → result ≡ Err Busy }
    ensures none { IfErr taken (λ why. why ≢ WouldBlock → result ≡ Ok false) }
{
    match taken {
        Ok(()) => Ok(true),
        Err(TryLockError::WouldBlock) => Err(Fault::Busy),
        Err(TryLockError::Error(_)) => Ok(false),
    }
}
