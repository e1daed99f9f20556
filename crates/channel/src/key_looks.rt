//! Whether the keys of a ladder are those that its listed segments were sealed under.

ghost use Rattle.std.specs.Prelude.{◌≡◌, ◌≢◌, ◌⊎◌, ◌↔◌, ◌<◌, ℕ, Some, true, false, IsTrue, ◌∷◌, [], All, length, map, slice_get};
ghost use Rattle.std.specs.Prelude.{IfErr, IfOk, IsErr, OnOk};
ghost use Rattle.std.specs.String.{string_bytes};
ghost use Rattle.item_io.specs.FileNames.{segment_file_name};
ghost use Rattle.limits.specs.declared.TheConstants.{MOST_KEYS};
ghost use Rattle.media_playlist.specs.Lines.{entry_of};
ghost use Rattle.channel_folder.specs.Shut.{CannotRead};
ghost use Rattle.channel.specs.Looking;
ghost use Rattle.hls_check.specs.Checks.{AreUnpacked};
ghost use Rattle.hls_check.specs.Unpacking.{HasHead, packed};
ghost use Rattle.hls_check.specs.declared.checking.Checked.{Checked};
ghost use Rattle.channel.specs.Faults.{of_unpacking};
ghost use Rattle.channel.specs.Looking.{alone, AllKeysOpen, KeysOpen, OpensAsListed, TakeTurns};
ghost use Rattle.channel.specs.Looking.{IsKeyFault, IsLookFault, IsPackedFault, IsReadFault, IsRowFault, IsShutFault};

use crate::fault::ResumingFault;
use crate::kept::Kept;
use channel_folder::{FilesByName, WhyNot};
use hls_check::{UnpackFault, check_listing};
use item_io::push_segment_file_name;
use ladder_items::{Rendition, Row};
use limits::MOST_KEYS;
use media_reading::{Entry, Listing};
use resume::Restored;
use std::alloc::{AllocError, Global};

/// Looks at the keys of each rendition: of each key that its playlist lists, the last segment has to open.
pub(crate) fn look_at_keys<F: FilesByName>(
    alloc: Global,
    folder: &F,
    renditions: &[Rendition],
    found: &[Option<Restored>],
) -> Result<(), Kept<ResumingFault>>
    requires each { length found.now ≡ length renditions.now }
    requires turns { TakeTurns found.now }
    ensures ok { OnOk result (AllKeysOpen (F.gives folder.now) renditions.now found.now) }
    ensures err { let shut = CannotRead (F.refuses folder.now) (F.shuts folder.now) in
        IfErr result (λ kept. IsLookFault shut (F.gives folder.now) (F.lacks folder.now) renditions.now found.now kept.fault) }
    ensures none { IsErr result → 0 < length renditions.now }
{
    for r in 0..renditions.len() {
        let one = found_at(found, r);
        look_at(alloc, folder, r, rendition_at(renditions, r), rows_of(one))?;
    }
    Ok(())
}

/// The rendition at a place.
fn rendition_at(renditions: &[Rendition], r: usize) -> &Rendition
    requires { r < length renditions.now }
    ensures { slice_get renditions.now r ≡ Some result.now }
{
    &renditions[r]
}

/// What was found of the rendition at a place.
pub(crate) fn found_at(found: &[Option<Restored>], r: usize) -> &Option<Restored>
    requires { r < length found.now }
    ensures { slice_get found.now r ≡ Some result.now }
{
    &found[r]
}

/// The rows of earlier runs that a rendition goes on behind.
fn rows_of(found: &Option<Restored>) -> &[Row]
    ensures { result.now ≡ Looking.rows_of found.now }
{
    match found {
        Some(restored) => &restored.earlier,
        None => &[],
    }
}

/// Looks at the keys of a rendition that goes on behind these rows, from the last row on.
fn look_at<F: FilesByName>(
    alloc: Global,
    folder: &F,
    r: usize,
    rendition: &Rendition,
    rows: &[Row],
) -> Result<(), Kept<ResumingFault>>
    requires { All (λ row. row.key < MOST_KEYS) rows.now }
    ensures ok { OnOk result (KeysOpen (F.gives folder.now) rendition.now rows.now) }
    ensures err { let shut = CannotRead (F.refuses folder.now) (F.shuts folder.now) in
        IfErr result (λ kept. IsKeyFault shut (F.gives folder.now) (F.lacks folder.now) r rendition.now rows.now kept.fault) }
    ensures none { IsErr result → 0 < length rows.now }
{
    let mut seen = [false; MOST_KEYS as usize];
    for i in 0..rows.len() {
        let row = row_at(rows, rows.len() - 1 - i);
        if mark(&mut seen, row.key) {
            continue;
        }
        open_row(alloc, folder, r, rendition, row)?;
    }
    Ok(())
}

/// The row at a place.
fn row_at(rows: &[Row], i: usize) -> &Row
    requires { i < length rows.now }
    ensures { slice_get rows.now i ≡ Some result.now }
{
    &rows[i]
}

/// Marks a key, and tells whether it was marked.
fn mark(seen: &mut [bool], key: u64) -> bool
    requires { key < length seen.old }
    ensures was { IsTrue result ↔ (slice_get seen.old key ≡ Some true) }
    ensures marks { (k : ℕ) → (slice_get seen.new k ≡ Some true) ↔ ((k ≡ key) ⊎ (slice_get seen.old k ≡ Some true)) }
    ensures same { length seen.new ≡ length seen.old }
{
    let was = seen[key as usize];
    seen[key as usize] = true;
    was
}

/// Opens a segment of a rendition, as its playlist lists it.
fn open_row<F: FilesByName>(
    alloc: Global,
    folder: &F,
    r: usize,
    rendition: &Rendition,
    row: &Row,
) -> Result<(), Kept<ResumingFault>>
    ensures ok { OnOk result (OpensAsListed (F.gives folder.now) rendition.now row.now) }
    ensures err { let shut = CannotRead (F.refuses folder.now) (F.shuts folder.now) in
        IfErr result (λ kept. IsRowFault shut (F.gives folder.now) (F.lacks folder.now) r rendition.now row.now kept.fault) }
{
    let file = segment_file(alloc, &rendition.name, row.number)?;
    let bytes = read_row(alloc, folder, r, &file, row.number)?;
    opens(alloc, r, rendition, row, bytes)
}

/// The bytes of a segment's file, which is listed.
fn read_row<F: FilesByName>(
    alloc: Global,
    folder: &F,
    r: usize,
    file: &str,
    number: u64,
) -> Result<Vec<u8>, Kept<ResumingFault>>
    ensures ok { IfOk result (λ bytes. F.gives folder.now file.now bytes.items) }
    ensures err { let shut = CannotRead (F.refuses folder.now) (F.shuts folder.now) file.now in
        IfErr result (λ kept. IsReadFault shut (F.wants folder.now) (F.lacks folder.now file.now) r number kept.fault) }
{
    match folder.read_file(alloc, file)? {
        Some(bytes) => Ok(bytes),
        None => Err(ResumingFault::Not(r, WhyNot::Lost(number)).into()),
    }
}

/// Opens these bytes as a segment of a rendition, as its playlist lists it.
fn opens(
    alloc: Global,
    r: usize,
    rendition: &Rendition,
    row: &Row,
    bytes: Vec<u8>,
) -> Result<(), Kept<ResumingFault>>
    ensures ok { OnOk result (HasHead (alone rendition.now row.now bytes.items) 0) }
    ensures err { IfErr result (λ kept. IsShutFault (alone rendition.now row.now bytes.items) r row.now.key kept.fault) }
{
    let segments = segments_of(alloc, bytes)?;
    let listing = listing_of(alloc, rendition, row)?;
    unpacks(
        alloc,
        &listing,
        &segments,
        rendition.keys.all(),
        OfKey { r, key: row.key },
    )
}

/// A rendition, and the index of one of its keys.
#[derive(Clone, Copy)]
struct OfKey {
    r: usize,
    key: u64,
}

/// Unpacks what is listed. NoMemory is told only where that may want it.
fn unpacks(
    alloc: Global,
    listing: &Listing,
    segments: &[Vec<u8>],
    keys: &[[u8; 16]],
    of: OfKey,
) -> Result<(), Kept<ResumingFault>>
    ensures ok { let p = packed listing.now.salt listing.now.entries (map (λ s. s.items) segments.now) keys.now in
        OnOk result ((found : Checked) × AreUnpacked p found) }
    ensures err { let p = packed listing.now.salt listing.now.entries (map (λ s. s.items) segments.now) keys.now in
        IfErr result (λ kept. IsPackedFault p of.r of.key kept.fault) }
{
    match check_listing(alloc, listing, segments, keys) {
        Ok(_) => Ok(()),
        Err(fault) => Err(not_opened(of, fault)),
    }
}

/// Bytes with any fault but a want of memory don't open under their key.
fn not_opened(of: OfKey, fault: UnpackFault) -> Kept<ResumingFault>
    ensures { result.fault ≡ of_unpacking of.r of.key fault }
{
    let fault = match fault {
        UnpackFault::NoMemory => ResumingFault::NoMemory,
        _ => ResumingFault::OtherKeys(of.r, of.key),
    };
    fault.into()
}

/// One segment alone.
fn segments_of(alloc: Global, bytes: Vec<u8>) -> Result<Vec<Vec<u8>>, AllocError>
    ensures { IfOk result (λ segments. map (λ s. s.items) segments.items ≡ bytes.items ∷ []) }
{
    let mut segments = Vec::new(alloc);
    segments.push(bytes)?;
    Ok(segments)
}

/// The file of a segment.
fn segment_file(alloc: Global, name: &str, number: u64) -> Result<String, AllocError>
    ensures { IfOk result (λ file. string_bytes file ≡ segment_file_name name.now number) }
{
    let mut file = String::new(alloc);
    push_segment_file_name(&mut file, name, number)?;
    Ok(file)
}

/// What lists this segment alone.
fn listing_of(alloc: Global, rendition: &Rendition, row: &Row) -> Result<Listing, AllocError>
    ensures salt { IfOk result (λ l. l.salt ≡ rendition.now.salt) }
    ensures entries { IfOk result (λ l. l.entries ≡ entry_of row.now ∷ []) }
{
    let mut entries = Vec::new(alloc);
    entries.push(Entry {
        number: row.number,
        key: row.key,
        micros: row.micros,
        discontinuity: row.discontinuity,
    })?;
    Ok(Listing {
        name: rendition.name.clone()?,
        target: 0,
        sequence: row.number,
        discontinuity_sequence: 0,
        event: false,
        salt: rendition.salt,
        entries,
        ended: false,
    })
}
