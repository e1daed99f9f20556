//! The texts of sealed segments.

ghost use Rattle.std.specs.Prelude.{◌≡◌, ◌<◌, ℕ, List, [], map, length, IfOk, IfErr, OnErr, MatchOption};
ghost use Rattle.aes_cbc.specs.Opening.{Seals};
ghost use Rattle.hls_check.specs.Unpacking.{packed, IsThere, IsOpen, Opens, IsFirstWithout, OfAll};
ghost use Rattle.hls_check.specs.Texts.{AreTexts, IsNoText, IsTheText, OpensAlone};

use crate::fault::UnpackFault;
use aes_cbc::{Key, OpenFault, open};
use media_reading::Entry;
use playlist_text::salted_vector;
use std::alloc::{AllocError, Global};

/// The place of the first entry that has no bytes, or no key.
pub fn first_missing(
    entries: &[Entry],
    segments: &[Vec<u8>],
    keys: &[[u8; 16]],
    _salt: Option<[u8; 16]>,
) -> Option<usize>
    ensures { let p = packed _salt entries.now (map (λ s. s.items) segments.now) keys.now in
        MatchOption result (OfAll p (IsThere p)) (IsFirstWithout p (IsThere p)) }
{
    for (i, entry) in entries.iter().enumerate() {
        if i >= segments.len() || entry.key >= keys.len() as u64 {
            return Some(i);
        }
    }
    None
}

/// The texts of the segments, in the order of the entries, up to the first that doesn't open.
pub fn open_segments(
    alloc: Global,
    salt: Option<[u8; 16]>,
    entries: &[Entry],
    segments: &[Vec<u8>],
    keys: &[[u8; 16]],
) -> Result<Vec<Vec<u8>>, UnpackFault>
    requires { let p = packed salt entries.now (map (λ s. s.items) segments.now) keys.now in
        OfAll p (IsThere p) }
    ensures ok { let p = packed salt entries.now (map (λ s. s.items) segments.now) keys.now in
        IfOk result (λ texts. AreTexts p (map (λ t. t.items) texts.items)) }
    ensures err { let p = packed salt entries.now (map (λ s. s.items) segments.now) keys.now in
        IfErr result (IsNoText p) }
{
    let mut texts = Vec::new(alloc);
    for i in 0..entries.len() {
        let Some(text) = open_entry(alloc, salt, entries, segments, keys, i)? else {
            return Err(UnpackFault::Closed(i));
        };
        texts.push(text)?;
    }
    Ok(texts)
}

/// The text of an entry's segment, if there is one. Only such a text wants memory, and only one with bytes.
pub fn open_entry(
    alloc: Global,
    salt: Option<[u8; 16]>,
    entries: &[Entry],
    segments: &[Vec<u8>],
    keys: &[[u8; 16]],
    i: usize,
) -> Result<Option<Vec<u8>>, AllocError>
    requires entry { i < length entries.now }
    requires there { IsThere (packed salt entries.now (map (λ s. s.items) segments.now) keys.now) i }
    ensures found { let p = packed salt entries.now (map (λ s. s.items) segments.now) keys.now in
        IfOk result (λ found. MatchOption found (¬ IsOpen p i) (λ text. OpensAlone p i text.items)) }
    ensures memory { let p = packed salt entries.now (map (λ s. s.items) segments.now) keys.now in
        OnErr result (IsOpen p i) }
    ensures some { let p = packed salt entries.now (map (λ s. s.items) segments.now) keys.now in
        OnErr result (¬ Opens p i []) }
{
    let entry = entries[i];
    let key = keys[entry.key as usize];
    open_segment(
        alloc,
        &key,
        &salted_vector(salt, entry.number),
        &segments[i],
    )
}

/// The text of a sealed segment, if there is one. Only such a text wants memory, and only one with bytes.
fn open_segment(
    alloc: Global,
    key: &[u8; 16],
    vector: &[u8; 16],
    sealed: &[u8],
) -> Result<Option<Vec<u8>>, AllocError>
    ensures found { IfOk result (λ found. MatchOption found
        ((text : List ℕ) → ¬ Seals key.now vector.now text sealed.now)
        (λ text. IsTheText key.now vector.now sealed.now text.items)) }
    ensures memory { OnErr result ((text : List ℕ) × Seals key.now vector.now text sealed.now) }
    ensures some { OnErr result (¬ Seals key.now vector.now [] sealed.now) }
{
    match open(alloc, &Key::new(*key), vector, sealed) {
        Ok(text) => Ok(Some(text)),
        Err(OpenFault::NotBlocks) => Ok(None),
        Err(OpenFault::BadPadding) => Ok(None),
        Err(OpenFault::NoMemory) => Err(AllocError),
    }
}
