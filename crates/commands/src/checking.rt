ghost use Rattle.std.specs.Prelude.{◌≡◌, ◌≢◌, ◌<◌, OnOk, OnErr, IfOk, IfErr, IsErrOf, length, map};
ghost use Rattle.std.specs.Path.{path_buf_bytes};
ghost use Rattle.std.specs.String.{string_bytes};
ghost use Rattle.commands.specs.Checking;

use crate::files::{FileFault, FileReader};
use crate::kept::Kept;
use crate::output::{Output, write_all};
use hls_check::{CheckFault, Checked, UnpackFault, check_listing};
use item_io::{OutletFault, push_segment_file_name};
use media_reading::{ListFault, Listing, read_media};
use playlist_text::push_decimal;
use std::alloc::{AllocError, Global};
use std::path::{Path, PathBuf};
use thiserror::Error;

/// Why `check` ends without having done its work.
#[derive(Clone, Copy, Debug, PartialEq, Eq, Error)]
pub enum CheckingFault {
    /// A file can't be read, or the playlist isn't UTF-8.
    #[error("a file can't be read")]
    Unread,
    /// The playlist isn't one, or its segments don't unpack.
    #[error("{0}")]
    Faulty(CheckFault),
    /// A write failed; what was written is a prefix of the line.
    #[error("the line can't be written")]
    Unwritten,
    #[error("out of memory")]
    NoMemory,
}

impl From<Kept<CheckingFault>> for CheckingFault {
    ghost from_gives = { λ why fault. fault ≡ why.fault };

    fn from(why: Kept<CheckingFault>) -> CheckingFault {
        why.into_fault()
    }
}

impl From<AllocError> for Kept<CheckingFault> {
    ghost use Rattle.commands.specs.declared.checking.CheckingFault.TheVariants.{NoMemory};

    ghost from_gives = { λ _ why. why.fault ≡ NoMemory };

    fn from(_: AllocError) -> Kept<CheckingFault> {
        CheckingFault::NoMemory.into()
    }
}

impl From<FileFault> for Kept<CheckingFault> {
    ghost use Rattle.commands.specs.Told.{checking_of};

    ghost from_gives = { λ found why. why.fault ≡ checking_of found };

    fn from(found: FileFault) -> Kept<CheckingFault> {
        let fault = match found {
            FileFault::Unread => CheckingFault::Unread,
            FileFault::NoMemory => CheckingFault::NoMemory,
        };
        fault.into()
    }
}

impl From<ListFault> for Kept<CheckingFault> {
    ghost use Rattle.commands.specs.declared.checking.CheckingFault.TheVariants.{Faulty};
    ghost use Rattle.hls_check.specs.declared.checking.CheckFault.TheVariants.{Text};

    ghost from_gives = { λ found why. why.fault ≡ Faulty (Text found) };

    fn from(found: ListFault) -> Kept<CheckingFault> {
        CheckingFault::Faulty(CheckFault::Text(found)).into()
    }
}

impl From<UnpackFault> for Kept<CheckingFault> {
    ghost use Rattle.commands.specs.declared.checking.CheckingFault.TheVariants.{Faulty};
    ghost use Rattle.hls_check.specs.declared.checking.CheckFault.TheVariants.{Segments};

    ghost from_gives = { λ found why. why.fault ≡ Faulty (Segments found) };

    fn from(found: UnpackFault) -> Kept<CheckingFault> {
        CheckingFault::Faulty(CheckFault::Segments(found)).into()
    }
}

impl From<OutletFault> for CheckingFault {
    ghost use Rattle.commands.specs.declared.checking.CheckingFault.TheVariants.{Unwritten};

    ghost from_gives = { λ _ fault. fault ≡ Unwritten };

    fn from(_: OutletFault) -> CheckingFault {
        CheckingFault::Unwritten
    }
}

/// The folder in which a file lies.
fn folder_of(path: &str) -> &str
    ensures { result.now ≡ Checking.folder_of path.now }
{
    match Path::new(path).parent() {
        Some(folder) => folder.as_str(),
        None => "",
    }
}

/// The path of a segment, in the folder of its playlist.
fn segment_path(
    alloc: Global,
    playlist: &str,
    name: &str,
    number: u64,
) -> Result<PathBuf, AllocError>
    ensures { IfOk result (λ path. path_buf_bytes path ≡ Checking.segment_path playlist.now name.now number) }
{
    let mut file = String::new(alloc);
    push_segment_file_name(&mut file, name, number)?;
    Path::new(folder_of(playlist)).join(alloc, file.as_str())
}

/// The text of a playlist.
fn read_text<F: FileReader>(alloc: Global, files: &F, playlist: &str) -> Result<String, FileFault>
    ensures ok { IfOk result (λ text. F.gives files.now playlist.now (string_bytes text)) }
    ensures unread { IsErrOf result FileFault.Unread → Checking.IsNoText (F.gives files.now) (F.refuses files.now) playlist.now }
    ensures no_memory { IsErrOf result FileFault.NoMemory → F.wants files.now playlist.now }
{
    let bytes = files.read(alloc, playlist)?;
    match String::from_utf8(bytes) {
        Ok(text) => Ok(text),
        Err(_) => Err(FileFault::Unread),
    }
}

/// The paths of the segments that a playlist lists, and a place for the bytes of each.
#[derive(Drop)]
struct SegmentRoom {
    paths: Vec<PathBuf>,
    segments: Vec<Vec<u8>>,
}

/// Takes the memory for that, before any segment is read.
fn segment_room(alloc: Global, playlist: &str, listing: &Listing) -> Result<SegmentRoom, AllocError>
    ensures paths { IfOk result (λ room. map path_buf_bytes room.paths.items ≡ Checking.segment_paths playlist.now listing.now) }
    ensures places { IfOk result (λ room. length room.segments.items ≡ length room.paths.items) }
    ensures none { OnErr result (0 < length listing.now.entries) }
{
    let mut paths = Vec::new(alloc);
    let mut segments = Vec::new(alloc);
    for entry in &listing.entries {
        let path = segment_path(alloc, playlist, &listing.name, entry.number)?;
        paths.push(path)?;
        segments.push(Vec::new(alloc))?;
    }
    Ok(SegmentRoom { paths, segments })
}

/// Reads the file at each path into its place. Only a file wants memory here.
fn fill_segments<F: FileReader>(
    alloc: Global,
    files: &F,
    paths: &[PathBuf],
    segments: &mut [Vec<u8>],
) -> Result<(), FileFault>
    requires places { length segments.now ≡ length paths.now }
    ensures ok { OnOk result (Checking.AllGive (F.gives files.now) (map path_buf_bytes paths.now) (map (λ s. s.items) segments.new)) }
    ensures unread { IsErrOf result FileFault.Unread → Checking.RefusesOne (F.gives files.now) (F.refuses files.now) (map path_buf_bytes paths.now) }
    ensures no_memory { IsErrOf result FileFault.NoMemory → Checking.RefusesOne (F.gives files.now) (F.wants files.now) (map path_buf_bytes paths.now) }
{
    for place in 0..paths.len() {
        segments[place] = files.read(alloc, paths[place].as_str())?;
    }
    Ok(())
}

/// The bytes of the files at these paths, each read into its place. Only a file wants memory here.
fn read_segments<F: FileReader>(
    alloc: Global,
    files: &F,
    room: SegmentRoom,
) -> Result<Vec<Vec<u8>>, FileFault>
    requires places { length room.segments.items ≡ length room.paths.items }
    ensures ok { IfOk result (λ segments. Checking.AllGive (F.gives files.now) (map path_buf_bytes room.paths.items) (map (λ s. s.items) segments.items)) }
    ensures unread { IsErrOf result FileFault.Unread → Checking.RefusesOne (F.gives files.now) (F.refuses files.now) (map path_buf_bytes room.paths.items) }
    ensures no_memory { IsErrOf result FileFault.NoMemory → Checking.RefusesOne (F.gives files.now) (F.wants files.now) (map path_buf_bytes room.paths.items) }
{
    let SegmentRoom {
        paths,
        mut segments,
    } = room;
    fill_segments(alloc, files, &paths, &mut segments)?;
    Ok(segments)
}

/// How many segments a playlist lists, and to how many bytes those at these paths unpack. What a segment holds is told as
/// such; NoMemory only where a file wanted it.
fn check_segments<F: FileReader>(
    alloc: Global,
    files: &F,
    keys: &[[u8; 16]],
    listing: &Listing,
    room: SegmentRoom,
) -> Result<Checked, Kept<CheckingFault>>
    requires places { length room.segments.items ≡ length room.paths.items }
    ensures ok { IfOk result (Checking.UnpackWell (F.gives files.now) keys.now listing.now (map path_buf_bytes room.paths.items)) }
    ensures err { IfErr result (λ why. Checking.IsSegmentsFault (F.gives files.now) (F.refuses files.now) (F.wants files.now) keys.now listing.now
        (map path_buf_bytes room.paths.items) why.fault) }
{
    let segments = read_segments(alloc, files, room)?;
    Ok(check_listing(alloc, listing, &segments, keys)?)
}

/// How many segments a playlist lists, and to how many bytes they unpack.
fn check_files<F: FileReader>(
    alloc: Global,
    files: &F,
    keys: &[[u8; 16]],
    playlist: &str,
) -> Result<Checked, Kept<CheckingFault>>
    ensures ok { IfOk result (Checking.ChecksWell (F.gives files.now) keys.now playlist.now) }
    ensures err { IfErr result (λ why. Checking.IsCheckFault (F.gives files.now) (F.refuses files.now) (F.wants files.now) keys.now playlist.now why.fault) }
{
    let text = read_text(alloc, files, playlist)?;
    let listing = read_media(alloc, &text)?;
    let room = segment_room(alloc, playlist, &listing)?;
    check_segments(alloc, files, keys, &listing, room)
}

/// The line that says so.
fn checked_line(alloc: Global, checked: Checked) -> Result<String, AllocError>
    ensures { IfOk result (λ line. string_bytes line ≡ Checking.checked_line checked) }
{
    let mut line = String::from_str(alloc, "ok ")?;
    push_decimal(&mut line, checked.segments as u128)?;
    line.push_str(" ")?;
    push_decimal(&mut line, checked.bytes as u128)?;
    line.push_str("\n")?;
    Ok(line)
}

/// What `check` writes of a playlist and its segments. Nothing is written yet, so no fault here is that of a write.
fn line_of_files<F: FileReader>(
    alloc: Global,
    files: &F,
    keys: &[[u8; 16]],
    playlist: &str,
) -> Result<String, Kept<CheckingFault>>
    ensures ok { IfOk result (λ line. Checking.TellsWhole (F.gives files.now) keys.now playlist.now (string_bytes line)) }
    ensures err { IfErr result (λ why. Checking.IsCheckFault (F.gives files.now) (F.refuses files.now) (F.wants files.now) keys.now playlist.now why.fault) }
{
    let checked = check_files(alloc, files, keys, playlist)?;
    let line = checked_line(alloc, checked)?;
    Ok(line)
}

/// The command `check`: reads a playlist and, from its folder, the segments that it lists, unpacks them under the keys of
/// their rendition, and writes how many there are and to how many bytes they unpack, as the line `ok SEGMENTS BYTES`.
///
/// A playlist that can't be read, or isn't UTF-8, is Unread. What is none is told before a segment that can't be read,
/// and that before all that a segment holds. NoMemory comes only where the file of the playlist wanted it, or gave a
/// playlist. Before every fault but Unwritten nothing was written; at Unwritten a prefix of the line was.
pub fn check<F: FileReader, W: Output>(
    alloc: Global,
    files: &F,
    keys: &[[u8; 16]],
    playlist: &str,
    output: &mut W,
) -> Result<(), CheckingFault>
    ensures ok { OnOk result (Checking.WritesChecked (F.gives files.now) keys.now playlist.now (W.contents output.old) (W.contents output.new)) }
    ensures unwritten { IsErrOf result CheckingFault.Unwritten →
        Checking.BeginsChecked (F.gives files.now) keys.now playlist.now (W.contents output.old) (W.contents output.new) }
    ensures flushed { OnOk result (W.flushed output.new) }
    ensures left { IsErrOf result CheckingFault.Unwritten →
        Checking.LeavesChecked (W.unflushed output.new) (F.gives files.now) keys.now playlist.now (W.contents output.old) (W.contents output.new) }
    ensures other { IfErr result (λ fault. fault ≢ CheckingFault.Unwritten →
        Checking.IsCheckFault (F.gives files.now) (F.refuses files.now) (F.wants files.now) keys.now playlist.now fault) }
    ensures untouched { IfErr result (λ fault. fault ≢ CheckingFault.Unwritten → output.new ≡ output.old) }
{
    let line = line_of_files(alloc, files, keys, playlist)?;
    write_all(output, line.as_bytes())?;
    Ok(())
}
