use crate::asserts::assert_same;
use crate::fixtures::{FullWriter, settings, stream_bytes};
use commands::{CheckingFault, FileFault, FileReader, check};
use hls_check::{CheckFault, UnpackFault};
use item_io::{Item, MemoryOutlet, ReaderSource};
use media_reading::ListFault;
use pipeline::pack_serial;
use std::alloc::{AllocError, Global};
use std::fs;
use std::test::Fail;

const KEYS: [[u8; 16]; 1] = [[0, 1, 2, 3, 4, 5, 6, 7, 8, 9, 10, 11, 12, 13, 14, 15]];

/// A file in memory.
#[derive(Drop)]
struct MemoryFile {
    path: String,
    bytes: Vec<u8>,
}

/// Files in memory.
#[derive(Drop)]
struct MemoryFiles {
    files: Vec<MemoryFile>,
}

impl FileReader for MemoryFiles {
    ghost use Rattle.std.specs.Prelude.{◌≡◌, ◌<◌, ⊤, ℕ, length, slice_index_or};
    ghost use Rattle.std.specs.String.{string_bytes};

    ghost gives = { λ f path bytes. (i : ℕ) × (file : _) × (i < length f.files.items) × (file ≡ slice_index_or f.files.items i file) ×
        (string_bytes file.path ≡ path) × (file.bytes.items ≡ bytes) };

    ghost refuses = { λ _ _. ⊤ };

    ghost wants = { λ _ _. ⊤ };

    fn read(&self, alloc: Global, path: &str) -> Result<Vec<u8>, FileFault> {
        for file in &self.files {
            if file.path.as_str() == path {
                let mut bytes = Vec::new(alloc);
                bytes.extend_from_slice(&file.bytes)?;
                return Ok(bytes);
            }
        }
        Err(FileFault::Unread)
    }

    /// No key stands in these files.
    fn read_front(&self, _alloc: Global, _path: &str, _most: usize) -> Result<Vec<u8>, FileFault> {
        Err(FileFault::Unread)
    }
}

impl MemoryFiles {
    /// Writes a file, in place of an older one.
    fn write(&mut self, alloc: Global, path: &str, bytes: &[u8]) -> Result<(), AllocError> {
        self.remove(path);
        let mut held = Vec::new(alloc);
        held.extend_from_slice(bytes)?;
        let path = String::from_str(alloc, path)?;
        self.files.push(MemoryFile { path, bytes: held })?;
        Ok(())
    }

    /// Removes a file.
    fn remove(&mut self, path: &str) {
        if let Some(place) = self.files.iter().position(|f| f.path.as_str() == path) {
            self.files.remove(place);
        }
    }

    /// Changes the last byte of a file.
    fn damage(&mut self, path: &str) {
        for file in &mut self.files {
            if file.path.as_str() == path {
                if let Some(byte) = file.bytes.last_mut() {
                    *byte ^= 1;
                }
            }
        }
    }
}

/// The items of the standard stream.
fn outlet(alloc: Global) -> Result<MemoryOutlet, Fail> {
    let settings = settings(alloc, "1x1")?;
    let stream = stream_bytes(alloc)?;
    let mut sources = Vec::new(alloc);
    sources.push(ReaderSource::new(stream.as_slice()))?;
    let mut outlet = MemoryOutlet::new(alloc);
    match pack_serial(alloc, &mut sources, &settings, &mut outlet) {
        Ok(_) => Ok(outlet),
        Err(_) => Err(Fail::from("packing")),
    }
}

/// Writes the segments and the media playlists of items, in the folder `hls`.
fn write_items(alloc: Global, files: &mut MemoryFiles, items: &[Item]) -> Result<(), AllocError> {
    for item in items {
        match item {
            Item::Segment { number, bytes, .. } => {
                let path = format!(in alloc; "hls/v.{number}.ts")?;
                files.write(alloc, path.as_str(), bytes)?;
            }
            Item::Media { text, .. } => files.write(alloc, "hls/v.m3u8", text.as_bytes())?,
            _ => {}
        }
    }
    Ok(())
}

/// The files of the standard stream, in the folder `hls`.
fn packed(alloc: Global) -> Result<MemoryFiles, Fail> {
    let outlet = outlet(alloc)?;
    let mut files = MemoryFiles {
        files: Vec::new(alloc),
    };
    write_items(alloc, &mut files, outlet.items())?;
    Ok(files)
}

/// What `check` writes of a playlist, or its fault.
type Told = Result<String, CheckingFault>;

fn told<F: FileReader>(alloc: Global, files: &F, playlist: &str) -> Result<Told, Fail> {
    let mut output = Vec::new(alloc);
    match check(alloc, files, &KEYS, playlist, &mut output) {
        Ok(()) => Ok(Ok(String::from_utf8(output).map_err(|_| "not UTF-8")?)),
        Err(fault) => {
            if !output.is_empty() {
                return Err(Fail::from("written before a fault"));
            }
            Ok(Err(fault))
        }
    }
}

/// What is written where the two segments of the standard stream unpack.
const WHOLE: &str = "ok 2 752\n";

/// That it is written.
fn is_whole(told: Told) -> bool {
    match told {
        Ok(text) => text.as_str() == WHOLE,
        Err(_) => false,
    }
}

/// That a fault is told.
fn is_fault(told: Told, wanted: CheckingFault) -> bool {
    match told {
        Ok(_) => false,
        Err(fault) => fault == wanted,
    }
}

/// What is told of the entry of this place that doesn't open.
fn closed(i: usize) -> CheckingFault {
    CheckingFault::Faulty(CheckFault::Segments(UnpackFault::Closed(i)))
}

/// What is told of a wrong line.
fn wrong_line(line: u64) -> CheckingFault {
    CheckingFault::Faulty(CheckFault::Text(ListFault::NotProfile(line)))
}

#[test]
fn a_whole_playlist(rt: HostRuntime) -> Result<(), Fail> {
    let files = packed(rt.alloc())?;
    let told = told(rt.alloc(), &files, "hls/v.m3u8")?;
    assert_same(&rt, "a whole playlist", told.as_deref(), Ok(WHOLE));
    Ok(())
}

/// What is done to files.
#[derive(Clone, Copy)]
enum Change {
    None,
    Damage(&'static str),
    Write(&'static str, &'static [u8]),
    Remove(&'static str),
}

/// Changes files.
fn make_change(alloc: Global, files: &mut MemoryFiles, change: Change) -> Result<(), AllocError> {
    match change {
        Change::None => {}
        Change::Damage(path) => files.damage(path),
        Change::Write(path, bytes) => files.write(alloc, path, bytes)?,
        Change::Remove(path) => files.remove(path),
    }
    Ok(())
}

/// What is done to files step by step, the playlist that is checked then, and what is told of it.
type Step = (Change, &'static str, CheckingFault);

/// The first of some steps, each behind those before it, of which another fault is told.
fn first_other(
    alloc: Global,
    files: &mut MemoryFiles,
    steps: &[Step],
) -> Result<Option<usize>, Fail> {
    for (at, (change, playlist, wanted)) in steps.iter().enumerate() {
        make_change(alloc, files, *change)?;
        if !is_fault(told(alloc, files, playlist)?, *wanted) {
            return Ok(Some(at));
        }
    }
    Ok(None)
}

#[test]
fn faults_in_their_order(rt: HostRuntime) -> Result<(), Fail> {
    let table = [
        (Change::None, "v.m3u8", CheckingFault::Unread),
        (Change::Damage("hls/v.1.ts"), "hls/v.m3u8", closed(1)),
        (Change::Write("hls/v.1.ts", &[]), "hls/v.m3u8", closed(1)),
        (Change::Damage("hls/v.0.ts"), "hls/v.m3u8", closed(0)),
        (
            Change::Remove("hls/v.1.ts"),
            "hls/v.m3u8",
            CheckingFault::Unread,
        ),
        (
            Change::Write("hls/v.m3u8", b"#EXTM3U\n#EXT-X-VERSION:3\n"),
            "hls/v.m3u8",
            wrong_line(2),
        ),
        (
            Change::Write("hls/v.m3u8", b"#EXTM3U\n\xFF"),
            "hls/v.m3u8",
            CheckingFault::Unread,
        ),
    ];
    let mut files = packed(rt.alloc())?;
    let other = first_other(rt.alloc(), &mut files, &table)?;
    assert_same(&rt, "faults in their order", other, None);
    Ok(())
}

/// The files of the folder `hls` in another folder.
fn moved(alloc: Global, files: &[MemoryFile], folder: &str) -> Result<MemoryFiles, AllocError> {
    let mut moved = MemoryFiles {
        files: Vec::new(alloc),
    };
    for file in files {
        let name = file.path.as_str().strip_prefix("hls/").unwrap_or("");
        let path = format!(in alloc; "{folder}{name}")?;
        moved.write(alloc, path.as_str(), &file.bytes)?;
    }
    Ok(moved)
}

/// What is told of the playlist there.
fn told_in(alloc: Global, files: &[MemoryFile], folder: &str) -> Result<Told, Fail> {
    let playlist = format!(in alloc; "{folder}v.m3u8")?;
    let files = moved(alloc, files, folder)?;
    told(alloc, &files, playlist.as_str())
}

#[test]
fn segments_lie_beside_their_playlist(rt: HostRuntime) -> Result<(), Fail> {
    let packed = packed(rt.alloc())?;
    for folder in ["", "./", "/", "a b/hls/", "../"] {
        let told = told_in(rt.alloc(), &packed.files, folder)?;
        assert_same(&rt, folder, told.as_deref(), Ok(WHOLE));
    }
    Ok(())
}

/// What is told of a playlist of the system: before it is there, with its segments, and without the first.
fn told_of_system(rt: &HostRuntime, files: &[MemoryFile]) -> Result<[Told; 3], Fail> {
    let before = told(rt.alloc(), rt, "hls/v.m3u8")?;
    for file in files {
        fs::write(rt, file.path.as_str(), file.bytes.as_slice())?;
    }
    let whole = told(rt.alloc(), rt, "hls/v.m3u8")?;
    fs::remove_file(rt, "hls/v.0.ts")?;
    let behind = told(rt.alloc(), rt, "hls/v.m3u8")?;
    Ok([before, whole, behind])
}

#[test]
fn files_of_the_system(rt: HostRuntime) -> Result<(), Fail> {
    let _ = fs::remove_dir_all(&rt, "hls");
    fs::create_dir(&rt, "hls")?;
    let packed = packed(rt.alloc())?;
    let [before, whole, behind] = told_of_system(&rt, &packed.files)?;
    let unread = CheckingFault::Unread;
    let told = (
        is_fault(before, unread),
        is_whole(whole),
        is_fault(behind, unread),
    );
    fs::remove_dir_all(&rt, "hls")?;
    assert_same(&rt, "files of the system", told, (true, true, true));
    Ok(())
}

/// The fault of a check whose writer takes so many bytes, and whether those are a prefix of the line.
fn told_to_a_full_writer(
    alloc: Global,
    files: &MemoryFiles,
    room: usize,
) -> (Result<(), CheckingFault>, bool) {
    let mut output = FullWriter {
        taken: Vec::new(alloc),
        room,
    };
    let answer = check(alloc, files, &KEYS, "hls/v.m3u8", &mut output);
    let begins = output.taken.len() == room && b"ok 2 752\n".starts_with(&output.taken);
    (answer, begins)
}

#[test]
fn a_failed_write_leaves_a_beginning(rt: HostRuntime) -> Result<(), Fail> {
    let files = packed(rt.alloc())?;
    for room in [0, 1, 8] {
        let told = told_to_a_full_writer(rt.alloc(), &files, room);
        assert_same(
            &rt,
            ("room for", room),
            told,
            (Err(CheckingFault::Unwritten), true),
        );
    }
    Ok(())
}
