//! Why the system told nothing of a file.
ghost use Rattle.std.specs.Prelude.{◌≡◌, ◌≢◌, Err, IfErr, IfOk, None, Ok, Some};
ghost use Rattle.std.specs.IoError.{error_kind};
ghost use Rattle.std.specs.declared.io.ErrorKind.TheVariants.{OutOfMemory};
ghost use Rattle.folder.specs.declared.read_fault.FolderReadFault.TheVariants.{NoMemory, Unread};

use crate::fault::FolderFault;
use crate::read_fault::FolderReadFault;
use std::io;

/// Why the system told nothing of a file. It can't be let go, so that it's told as that.
pub struct Refusal {
    fault: FolderReadFault,
}

impl From<Refusal> for FolderReadFault {
    ghost from_gives = { λ refusal fault. fault ≡ refusal.fault };

    fn from(refusal: Refusal) -> FolderReadFault {
        let Refusal { fault } = refusal;
        fault
    }
}

impl From<Refusal> for FolderFault {
    fn from(refusal: Refusal) -> FolderFault {
        let Refusal { fault: _ } = refusal;
        FolderFault
    }
}

/// What the system answered.
pub fn told<T: Drop>(answer: io::Result<T>) -> Result<T, Refusal>
    ensures ok { IfOk answer (λ it. result ≡ Ok it) }
    ensures no_memory { IfErr answer (λ error. error_kind error ≡ OutOfMemory → result ≡ Err (record { fault = NoMemory })) }
    ensures unread { IfErr answer (λ error. error_kind error ≢ OutOfMemory → result ≡ Err (record { fault = Unread })) }
{
    match answer {
        Ok(it) => Ok(it),
        Err(error) => Err(refusal_of(error)),
    }
}

/// What the system answered; none where it failed in a way that is no fault.
pub fn unless<T: Drop>(kind: io::ErrorKind, answer: io::Result<T>) -> Result<Option<T>, Refusal>
    ensures some { IfOk answer (λ it. result ≡ Ok (Some it)) }
    ensures none { IfErr answer (λ error. error_kind error ≡ kind → result ≡ Ok None) }
    ensures no_memory { IfErr answer (λ error. error_kind error ≢ kind → error_kind error ≡ OutOfMemory →
        result ≡ Err (record { fault = NoMemory })) }
    ensures unread { IfErr answer (λ error. error_kind error ≢ kind → error_kind error ≢ OutOfMemory →
        result ≡ Err (record { fault = Unread })) }
{
    match answer {
        Ok(it) => Ok(Some(it)),
        Err(error) => {
            if error.kind() == kind {
                return Ok(None);
            }
            Err(refusal_of(error))
        }
    }
}

/// Why the system failed.
fn refusal_of(error: io::Error) -> Refusal
    ensures no_memory { error_kind error ≡ OutOfMemory → result.fault ≡ NoMemory }
    ensures unread { error_kind error ≢ OutOfMemory → result.fault ≡ Unread }
{
    match error.kind() {
        io::ErrorKind::OutOfMemory => Refusal {
            fault: FolderReadFault::NoMemory,
        },
        _ => Refusal {
            fault: FolderReadFault::Unread,
        },
    }
}
