//! How many bytes the segments of a playlist unpack to.

ghost use Rattle.std.specs.Prelude.{◌≡◌, ℕ, ◌↔◌, List, Option, None, map, length, IfOk, IfErr, IsErrOf, MatchResult};
ghost use Rattle.std.specs.List.{concat};
ghost use Rattle.hls_check.specs.declared.fault.UnpackFault.TheVariants.{NoMemory};
ghost use Rattle.hls_check.specs.Unpacking.{packed, AllUnpack, HasBytes, IsThere, OfAll, IsTold};
ghost use Rattle.hls_check.specs.Texts.{AreTexts, HaveBytes, IsNotCounted};

use crate::fault::UnpackFault;
use crate::head::behind_head;
use crate::opening::{first_missing, open_entry};
use media_reading::Entry;
use psi_tables::one_head_begins_bytes;
use std::alloc::Global;

/// How many bytes the entries unpack to. No more than one entry's text is held at a time.
pub fn count_bytes(
    alloc: Global,
    salt: Option<[u8; 16]>,
    entries: &[Entry],
    segments: &[Vec<u8>],
    keys: &[[u8; 16]],
) -> Result<usize, UnpackFault>
    ensures ok { let p = packed salt entries.now (map (λ s. s.items) segments.now) keys.now in
        IfOk result (λ bytes. (rests : List (List ℕ)) × AllUnpack p rests × (bytes ≡ length (concat rests))) }
    ensures unpacks { let p = packed salt entries.now (map (λ s. s.items) segments.now) keys.now in
        (rests : List (List ℕ)) → AllUnpack p rests
        → MatchResult result (λ bytes. bytes ≡ length (concat rests)) (λ fault. fault ≡ NoMemory) }
    ensures err { let p = packed salt entries.now (map (λ s. s.items) segments.now) keys.now in
        IfErr result (IsTold p) }
    ensures missing { let p = packed salt entries.now (map (λ s. s.items) segments.now) keys.now in
        (i : ℕ) → IsErrOf result (UnpackFault.Missing i) ↔ IsTold p (UnpackFault.Missing i) }
    ensures scarce { let p = packed salt entries.now (map (λ s. s.items) segments.now) keys.now in
        IsErrOf result UnpackFault.NoMemory → HasBytes p }
{
    if let Some(i) = first_missing(entries, segments, keys, salt) {
        return Err(UnpackFault::Missing(i));
    }
    one_head_begins_bytes();
    count_opened(alloc, salt, entries, segments, keys)
}

/// The same, where each entry has its bytes and its key.
fn count_opened(
    alloc: Global,
    salt: Option<[u8; 16]>,
    entries: &[Entry],
    segments: &[Vec<u8>],
    keys: &[[u8; 16]],
) -> Result<usize, UnpackFault>
    requires { let p = packed salt entries.now (map (λ s. s.items) segments.now) keys.now in
        OfAll p (IsThere p) }
    ensures ok { let p = packed salt entries.now (map (λ s. s.items) segments.now) keys.now in
        IfOk result (λ bytes. (texts : List (List ℕ)) × AreTexts p texts × HaveBytes texts None bytes) }
    ensures err { let p = packed salt entries.now (map (λ s. s.items) segments.now) keys.now in
        IfErr result (IsNotCounted p) }
    ensures scarce { let p = packed salt entries.now (map (λ s. s.items) segments.now) keys.now in
        IsErrOf result UnpackFault.NoMemory → HasBytes p }
{
    let mut bytes: usize = 0;
    let mut headless = None;
    for i in 0..entries.len() {
        let Some(text) = open_entry(alloc, salt, entries, segments, keys, i)? else {
            return Err(UnpackFault::Closed(i));
        };
        if headless.is_some() {
            continue;
        }
        let Some(rest) = behind_head(alloc, &text)? else {
            headless = Some(i);
            continue;
        };
        let Some(more) = bytes.checked_add(rest.len()) else {
            return Err(UnpackFault::NoMemory);
        };
        bytes = more;
    }
    match headless {
        Some(i) => Err(UnpackFault::NoHead(i)),
        None => Ok(bytes),
    }
}
