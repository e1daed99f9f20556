//! What the segments of a playlist unpack to.

ghost use Rattle.std.specs.Prelude.{◌≡◌, ℕ, ◌↔◌, List, map, IfOk, IfErr, IsErrOf, MatchResult};
ghost use Rattle.std.specs.List.{concat};
ghost use Rattle.hls_check.specs.declared.fault.UnpackFault.TheVariants.{NoMemory};
ghost use Rattle.hls_check.specs.Unpacking.{packed, AllUnpack, IsTold};
ghost use Rattle.hls_check.specs.Texts.{AreRests, IsNoRest};

use crate::fault::UnpackFault;
use crate::head::behind_head;
use crate::opening::{first_missing, open_segments};
use media_reading::{Entry, Listing};
use psi_tables::one_head_begins_bytes;
use std::alloc::Global;

/// The packets of a playlist's segments, one behind another, without the head of each. `segments` are the sealed bytes in
/// the order of the entries, `keys` the keys of the rendition by their indexes. Segments behind the last entry aren't looked
/// at.
///
/// An entry's bytes open under its key and the vector of its number under the listing's salt (RFC 8216, 5.2), and begin with the packets of its
/// tables (3.2).
pub fn unpack(
    alloc: Global,
    listing: &Listing,
    segments: &[Vec<u8>],
    keys: &[[u8; 16]],
) -> Result<Vec<u8>, UnpackFault>
    ensures ok { let p = packed listing.now.salt listing.now.entries (map (λ s. s.items) segments.now) keys.now in
        IfOk result (λ bytes. (rests : List (List ℕ)) × AllUnpack p rests × (bytes.items ≡ concat rests)) }

    // Where all entries unpack, what they unpack to is the answer, or there was no memory for it.
    ensures unpacks { let p = packed listing.now.salt listing.now.entries (map (λ s. s.items) segments.now) keys.now in
        (rests : List (List ℕ)) → AllUnpack p rests
        → MatchResult result (λ bytes. bytes.items ≡ concat rests) (λ fault. fault ≡ NoMemory) }
    ensures err { let p = packed listing.now.salt listing.now.entries (map (λ s. s.items) segments.now) keys.now in
        IfErr result (IsTold p) }
    ensures missing { let p = packed listing.now.salt listing.now.entries (map (λ s. s.items) segments.now) keys.now in
        (i : ℕ) → IsErrOf result (UnpackFault.Missing i) ↔ IsTold p (UnpackFault.Missing i) }
{
    unpack_entries(alloc, listing.salt, &listing.entries, segments, keys)
}

/// The packets of entries.
fn unpack_entries(
    alloc: Global,
    salt: Option<[u8; 16]>,
    entries: &[Entry],
    segments: &[Vec<u8>],
    keys: &[[u8; 16]],
) -> Result<Vec<u8>, UnpackFault>
    ensures ok { let p = packed salt entries.now (map (λ s. s.items) segments.now) keys.now in
        IfOk result (λ bytes. (rests : List (List ℕ)) × AllUnpack p rests × (bytes.items ≡ concat rests)) }
    ensures unpacks { let p = packed salt entries.now (map (λ s. s.items) segments.now) keys.now in
        (rests : List (List ℕ)) → AllUnpack p rests
        → MatchResult result (λ bytes. bytes.items ≡ concat rests) (λ fault. fault ≡ NoMemory) }
    ensures err { let p = packed salt entries.now (map (λ s. s.items) segments.now) keys.now in
        IfErr result (IsTold p) }
    ensures missing { let p = packed salt entries.now (map (λ s. s.items) segments.now) keys.now in
        (i : ℕ) → IsErrOf result (UnpackFault.Missing i) ↔ IsTold p (UnpackFault.Missing i) }
{
    if let Some(i) = first_missing(entries, segments, keys, salt) {
        return Err(UnpackFault::Missing(i));
    }
    let texts = open_segments(alloc, salt, entries, segments, keys)?;
    one_head_begins_bytes();
    join_rests(alloc, &texts)
}

/// What stands behind the heads of texts, joined, up to the first that doesn't begin with one.
fn join_rests(alloc: Global, texts: &[Vec<u8>]) -> Result<Vec<u8>, UnpackFault>
    ensures ok { IfOk result (λ bytes. (rests : List (List ℕ)) × AreRests (map (λ t. t.items) texts.now) rests
        × (bytes.items ≡ concat rests)) }
    ensures err { IfErr result (IsNoRest (map (λ t. t.items) texts.now)) }
{
    let mut joined = Vec::new(alloc);
    for (i, text) in texts.iter().enumerate() {
        let Some(rest) = behind_head(alloc, text)? else {
            return Err(UnpackFault::NoHead(i));
        };
        joined.extend_from_slice(rest)?;
    }
    Ok(joined)
}
