//! Inputs by their paths.
ghost use Rattle.std.specs.Prelude.{◌≡◌, ◌<◌, ⊤, ℕ, Bool, List, Option, None, IfNone, IfSome, IfOk, OnErr, length, map};
ghost use Rattle.std.specs.List.{AllZip};
ghost use Rattle.std.specs.String.{string_bytes};

use crate::input::{Contents, Input};
use std::alloc::{AllocError, Global};
use std::fs;
use std::fs::File;
use std::io::Read;
use std::os::unix::fs::FileTypeExt;

/// What opens inputs by their paths.
pub trait InputFiles {
    /// What reads an input once it's open.
    type Reader: Read + Drop;

    /// The bytes that the input at a path has, where they are told.
    ghost holds: { Self → List ℕ → Option (List ℕ) };

    /// It may be that the input at a path can't be opened.
    ghost refuses: { Self → List ℕ → Type 0 };

    /// What may be answered whether the input at a path is a FIFO.
    ghost waits: { Self → List ℕ → Bool → Type 0 } = { λ _ _ _. ⊤ };

    /// Whether the input at a path is a FIFO, whose opening waits for a writer.
    fn is_fifo(&self, path: &str) -> bool
        ensures { waits self.now path.now result };

    /// What may be answered whether the input at a path is a plain file.
    ghost plain: { Self → List ℕ → Bool → Type 0 } = { λ _ _ _. ⊤ };

    /// Whether the input at a path is a plain file; not where it can't be looked at.
    fn is_file(&self, path: &str) -> bool
        ensures { plain self.now path.now result };

    /// Opens the input at a path; None where it can't be opened. Of a FIFO it waits for a writer.
    fn open(&self, path: &str) -> Option<Self::Reader>
        ensures ok { IfSome result (λ reader. Self.Reader.remaining reader ≡ holds self.now path.now) }
        ensures none { IfNone result (refuses self.now path.now) };
}

/// The files of the system. What they hold is the system's, so nothing is claimed of it.
impl InputFiles for HostRuntime {
    type Reader = File;

    ghost holds = { λ _ _. None };

    ghost refuses = { λ _ _. ⊤ };

    fn is_fifo(&self, path: &str) -> bool {
        match fs::metadata(self, path) {
            Ok(metadata) => metadata.file_type().is_fifo(),
            Err(_) => false,
        }
    }

    fn is_file(&self, path: &str) -> bool {
        match fs::metadata(self, path) {
            Ok(metadata) => metadata.is_file(),
            Err(_) => false,
        }
    }

    fn open(&self, path: &str) -> Option<File> {
        File::open(self, path).ok()
    }
}

/// The input at a path.
#[derive(Drop)]
pub struct InputAt<F> {
    files: F,
    path: String,
}

impl<F: InputFiles> Contents for InputAt<F> {
    ghost use Rattle.std.specs.String.{string_bytes};

    ghost holds = { λ input. F.holds input.files (string_bytes input.path) };

    ghost refuses = { λ input. F.refuses input.files (string_bytes input.path) };
}

impl<F: InputFiles + Drop> Input for InputAt<F> {
    ghost use Rattle.std.specs.String.{string_bytes};

    type Reader = F::Reader;

    ghost waits = { λ input may_wait. F.waits input.files (string_bytes input.path) may_wait };

    fn may_wait(&self) -> bool {
        self.files.is_fifo(self.path.as_str())
    }

    ghost plain = { λ input is_file. F.plain input.files (string_bytes input.path) is_file };

    fn is_file(&self) -> bool {
        self.files.is_file(self.path.as_str())
    }

    fn open(self) -> Option<F::Reader> {
        let InputAt { files, path } = self;
        files.open(path.as_str())
    }
}

/// The inputs at some paths.
pub fn inputs_at<F: InputFiles + Copy>(
    alloc: Global,
    files: F,
    paths: &[&str],
) -> Result<Vec<InputAt<F>>, AllocError>
    ensures ok { IfOk result (λ inputs. map (λ input. F.holds input.files (string_bytes input.path)) inputs.items ≡ map
        (λ path. F.holds files path.now) paths.now) }
    ensures each { IfOk result (λ inputs.
        AllZip (λ path input. (input.files ≡ files) × (string_bytes input.path ≡ path.now)) paths.now inputs.items) }
    ensures scarce { OnErr result (0 < length paths.now) }
{
    let mut inputs = Vec::with_capacity(alloc, paths.len())?;
    for path in paths {
        let path = String::from_str(alloc, path)?;
        inputs.push(InputAt { files, path })?;
    }
    Ok(inputs)
}
