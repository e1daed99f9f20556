//! Files of a hidden folder while they are written.
ghost use Rattle.std.specs.Prelude.{◌≡◌, [], IfSome, Some};
ghost use Rattle.std.specs.Io.{WritesAtMost};
ghost use Rattle.std.specs.Io.KnownBytes.{Keeps, WriteAppends};
ghost use Rattle.std.specs.Path.{path_buf_bytes};

use crate::ahead::{AheadFile, WriteFile};
use crate::answers::{Cleared, Filled, fill_some};
use crate::file_folder::finish;
use std::fs::{Files, OpenFile};
use std::io::Write;
use std::path::PathBuf;
use std::{fs, io};

/// A new file of a hidden folder, which is being written. Contracts see what went into it.
///
/// **Trusted**, as [`FileFolder`](crate::FileFolder) is: what the system said it took stands in the file, and nothing else does.
#[derive(Drop)]
pub struct AheadWriter<R, F> {
    files: R,
    path: PathBuf,
    file: F,
    cleared: Cleared,
    filled: Filled,
    syncs: bool,
    pub ghost own: { cleared.path.items ≡ path_buf_bytes path },
}

impl<R, F> AheadWriter<R, F> {
    ghost use Rattle.folder.specs.AheadFolders.{writer_path, writer_syncs};

    /// A new file at a path, in which there is nothing yet; it's synced once it is whole if it's to be.
    pub(crate) fn new(
        files: R,
        path: PathBuf,
        file: F,
        cleared: Cleared,
        syncs: bool,
    ) -> AheadWriter<R, F>
        requires { cleared.path.items ≡ path_buf_bytes path }
        ensures empty { result.filled.bytes.items ≡ [] }
        ensures path { writer_path result ≡ path_buf_bytes path }
        ensures syncs { writer_syncs result ≡ syncs }
    {
        AheadWriter {
            files,
            path,
            file,
            cleared,
            filled: Filled::nothing(),
            syncs,
        }
    }
}

impl<R, F: Write> Write for AheadWriter<R, F> {
    ghost contents = { λ w. Some w.filled.bytes.items };

    fn write(&mut self, buf: &[u8]) -> io::Result<usize>
        ensures bound { WritesAtMost result buf.now }
        ensures bytes { WriteAppends (Some self.old.filled.bytes.items) (Some self.new.filled.bytes.items) result buf.now }
        ensures there { WriteAppends (F.contents self.old.file) (F.contents self.new.file) result buf.now }
    {
        fill_some(&mut self.filled, &mut self.file, buf)
    }

    fn flush(&mut self) -> io::Result<()>
        ensures bytes { Keeps (Some self.old.filled.bytes.items) (Some self.new.filled.bytes.items) }
        ensures there { Keeps (F.contents self.old.file) (F.contents self.new.file) }
    {
        self.file.flush()
    }
}

impl<R: Files + Drop, F: OpenFile + Write + Drop> WriteFile for AheadWriter<R, F> {
    ghost use Rattle.folder.specs.AheadFolders.{writer_path, writer_syncs};

    fn finish(self) -> Option<AheadFile>
        ensures bytes { IfSome result (λ file. Some self.filled.bytes.items ≡ Some file.bytes) }
        ensures path { IfSome result (λ file. file.path ≡ writer_path self) }
        ensures synced { IfSome result (λ file. file.synced ≡ writer_syncs self) }
    {
        let AheadWriter {
            files,
            path,
            mut file,
            cleared,
            filled,
            syncs,
        } = self;
        match finish(&mut file, path.as_str(), cleared, filled, syncs) {
            Ok(written) => Some(AheadFile::of(path, written)),
            Err(_) => {
                let _ = fs::remove_file(&files, path.as_str());
                None
            }
        }
    }

    fn give_up(self) {
        let _ = fs::remove_file(&self.files, self.path.as_str());
    }
}
