//! Whether a playlist and its segments are whole.

ghost use Rattle.std.specs.Prelude.{◌≡◌, ◌↔◌, ℕ, map, IfOk, IfErr, IsErrOf, MatchResult};
ghost use Rattle.hls_check.specs.declared.checking.Checked as TheChecked;
ghost use Rattle.hls_check.specs.declared.checking.CheckFault.TheVariants.{Text, Segments};
ghost use Rattle.hls_check.specs.declared.fault.UnpackFault.TheVariants.{NoMemory};
ghost use Rattle.media_reading.specs.declared.list_fault.ListFault.TheVariants.{NoMemory as NoMemoryForText};
ghost use Rattle.media_reading.specs.MediaTexts.{WantsMemory};
ghost use Rattle.hls_check.specs.Unpacking.{packed, HasBytes, IsTold};
ghost use Rattle.hls_check.specs.Checks.{AreUnpacked, AreWhole, IsFaulty, IsMemory, WantsBytes};

use crate::counting::count_bytes;
use crate::fault::UnpackFault;
use media_reading::{ListFault, Listing, read_media};
use std::alloc::Global;
use thiserror::Error;

/// How many segments a playlist lists, and to how many bytes they unpack.
#[derive(Clone, Copy, Debug, PartialEq, Eq)]
pub struct Checked {
    pub segments: usize,
    pub bytes: usize,
}

/// Why a playlist and its segments aren't whole.
#[derive(Clone, Copy, Debug, PartialEq, Eq, Error)]
pub enum CheckFault {
    /// The text is that of no playlist, or there was no memory for it.
    #[error("{0}")]
    Text(ListFault),
    /// The segments of the playlist don't unpack, or there was no memory for them.
    #[error("{0}")]
    Segments(UnpackFault),
}

impl From<ListFault> for CheckFault {
    ghost from_gives = { λ why fault. fault ≡ Text why };

    fn from(why: ListFault) -> CheckFault {
        CheckFault::Text(why)
    }
}

impl From<UnpackFault> for CheckFault {
    ghost from_gives = { λ why fault. fault ≡ Segments why };

    fn from(why: UnpackFault) -> CheckFault {
        CheckFault::Segments(why)
    }
}

/// How many segments the playlist of this text lists, and to how many bytes they unpack. `segments` are the sealed bytes in
/// the order of the entries, `keys` the keys of the rendition by their indexes. Segments behind the last entry aren't looked
/// at. A text that isn't read is told before any fault of a segment.
pub fn check(
    alloc: Global,
    text: &str,
    segments: &[Vec<u8>],
    keys: &[[u8; 16]],
) -> Result<Checked, CheckFault>
    ensures ok { IfOk result (AreWhole text.now (map (λ s. s.items) segments.now) keys.now) }

    // Where they are whole, that is the answer, or there was no memory for it.
    ensures whole { (c : TheChecked.Checked) → AreWhole text.now (map (λ s. s.items) segments.now) keys.now c
        → MatchResult result (λ found. found ≡ c) IsMemory }
    ensures err { IfErr result (IsFaulty text.now (map (λ s. s.items) segments.now) keys.now) }

    // Memory is wanted only for a line that is kept or compared, or for a segment with bytes.
    ensures scarce_text { IsErrOf result (Text NoMemoryForText) → WantsMemory text.now }
    ensures scarce { IsErrOf result (Segments NoMemory) → WantsBytes text.now (map (λ s. s.items) segments.now) keys.now }
{
    let listing = read_media(alloc, text)?;
    Ok(check_listing(alloc, &listing, segments, keys)?)
}

/// How many segments a playlist lists, and to how many bytes they unpack. `segments` are the sealed bytes in the order of the
/// entries, `keys` the keys of the rendition by their indexes. Segments behind the last entry aren't looked at.
///
/// No more than one segment is held unsealed at a time.
pub fn check_listing(
    alloc: Global,
    listing: &Listing,
    segments: &[Vec<u8>],
    keys: &[[u8; 16]],
) -> Result<Checked, UnpackFault>
    ensures ok { let p = packed listing.now.salt listing.now.entries (map (λ s. s.items) segments.now) keys.now in
        IfOk result (AreUnpacked p) }

    // Where all entries unpack, that is the answer, or there was no memory for it.
    ensures unpacks { let p = packed listing.now.salt listing.now.entries (map (λ s. s.items) segments.now) keys.now in
        (c : TheChecked.Checked) → AreUnpacked p c
        → MatchResult result (λ found. found ≡ c) (λ fault. fault ≡ NoMemory) }
    ensures err { let p = packed listing.now.salt listing.now.entries (map (λ s. s.items) segments.now) keys.now in
        IfErr result (IsTold p) }
    ensures missing { let p = packed listing.now.salt listing.now.entries (map (λ s. s.items) segments.now) keys.now in
        (i : ℕ) → IsErrOf result (UnpackFault.Missing i) ↔ IsTold p (UnpackFault.Missing i) }

    // Memory is wanted only for a segment with bytes.
    ensures scarce { let p = packed listing.now.salt listing.now.entries (map (λ s. s.items) segments.now) keys.now in
        IsErrOf result UnpackFault.NoMemory → HasBytes p }
{
    let bytes = count_bytes(alloc, listing.salt, &listing.entries, segments, keys)?;
    Ok(Checked {
        segments: listing.entries.len(),
        bytes,
    })
}
