//! Files that are written before their turn comes.
ghost use Rattle.std.specs.Prelude.{◌≡◌, [], IfSome, Some};
ghost use Rattle.std.specs.Path.{path_buf_bytes};

use crate::answers::Written;
use std::io::Write;
use std::marker::Model;
use std::path::PathBuf;

/// A file that stands ready. Contracts see its path, what was written into it, and whether it was synced.
#[derive(Drop)]
pub struct AheadFile {
    path: PathBuf,
    written: Written,
}

impl Model for AheadFile {
    ghost use Rattle.std.specs.Prelude.{◌≡◌};
    ghost use Rattle.std.specs.Path.{path_buf_bytes};
    ghost use Rattle.folder.specs.Aheads.{StandsAhead};

    ghost Value = { StandsAhead };

    ghost view = { λ f. record { path = f.written.path.items; bytes = f.written.bytes.items; synced = f.written.is_synced } };

    ghost invariant = { λ f. f.written.path.items ≡ path_buf_bytes f.path };
}

impl AheadFile {
    /// The file that was written at a path.
    pub(crate) fn of(path: PathBuf, written: Written) -> AheadFile
        requires { written.path.items ≡ path_buf_bytes path }
        ensures path { result.path ≡ path_buf_bytes path }
        ensures bytes { result.bytes ≡ written.bytes.items }
        ensures synced { result.synced ≡ written.is_synced }
    {
        AheadFile { path, written }
    }

    /// Its path.
    pub(crate) fn path(&self) -> &str
        ensures { result.now ≡ self.now.path }
    {
        self.path.as_str()
    }

    /// What was written, as the system answered it.
    pub(crate) fn into_written(self) -> Written
        ensures bytes { result.bytes.items ≡ self.bytes }
        ensures synced { result.is_synced ≡ self.synced }
    {
        let AheadFile { path: _, written } = self;
        written
    }

    /// Whether it was synced.
    pub(crate) fn is_synced(&self) -> bool
        ensures { result ≡ self.now.synced }
    {
        self.written.is_synced()
    }
}

/// A file that is written before its turn comes. It's to be finished or given up.
pub trait WriteFile: Write {
    /// The file as a whole, which stands ready; it's synced if it's to be. None where that can't be: then it's removed, as by `give_up`.
    fn finish(self) -> Option<AheadFile>
        ensures { IfSome result (λ file. Self.contents self ≡ Some file.bytes) };

    /// Removes it, if it can be removed.
    fn give_up(self);
}

/// Something that makes files for segments before their turn comes, from any thread.
pub trait WriteAhead {
    /// A file that is being written.
    type File: WriteFile + Send + Drop;

    /// Makes a file for a rendition's segment, in which there is nothing yet. None where that can't be: then the segment is written when
    /// its turn comes.
    fn begin(&self, rendition: usize, number: u64) -> Option<Self::File>
        ensures { IfSome result (λ file. Self.File.contents file ≡ Some []) };
}

/// Nothing is written ahead where there is nothing that does.
impl<A: WriteAhead> WriteAhead for Option<A> {
    type File = A::File;

    fn begin(&self, rendition: usize, number: u64) -> Option<A::File> {
        self.as_ref()?.begin(rendition, number)
    }
}
