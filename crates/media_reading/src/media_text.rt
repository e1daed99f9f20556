//! Media playlists, read back (RFC 8216, 4.3).

ghost use Rattle.std.specs.Prelude.{◌≡◌, ◌∷◌, ◌++◌, IfOk, IfErr, IsErrOf, MatchResult, MatchOption};
ghost use Rattle.playlist_text.specs.MediaLines;
ghost use Rattle.media_reading.specs.declared.list_fault.ListFault.TheVariants.{NoMemory};
ghost use Rattle.media_reading.specs.MediaTexts.{IsListing, listing_text, IsUnread, WantsMemory, IsLine};

use crate::list_fault::ListFault;
use crate::listing::Listing;
use crate::reading::Reading;
use std::alloc::Global;

/// The playlist of which this is the text, byte for byte, within the bounds: a target of 1 to 3,600 s, at least one
/// entry, numbers that rise by one from the media sequence and are below 2^33, a discontinuity sequence below 2^33,
/// indexes of keys below 4,096, and durations above 0 that round to at most the target. A playlist of an event (4.3.3.5)
/// has both sequences at 0.
///
/// Where the first line of a key lists a vector (4.3.2.4), each entry has a line of its key, and its vector is one salt xor
/// its number, in upper-case digits.
///
/// NotProfile tells the first line, counted from 1, that no such text goes on with; where the text ends too early, or in a
/// line without its LF, the line behind its last LF at the latest.
pub fn read_media(alloc: Global, text: &str) -> Result<Listing, ListFault>
    ensures ok { IfOk result (λ l. IsListing l × (text.now ≡ listing_text l)) }

    // The playlist of which it is the text is the answer, or there was no memory for it.
    ensures reads { (l : MediaLines.Listing) → IsListing l → text.now ≡ listing_text l
        → MatchResult result (λ found. found ≡ l) (λ fault. fault ≡ NoMemory) }
    ensures err { IfErr result (IsUnread text.now) }
    ensures scarce { IsErrOf result NoMemory → WantsMemory text.now }
{
    let mut reading = Reading::new(alloc);
    let mut number = 1;
    let mut rest = text.as_bytes();
    'line: while let Some((line, behind)) = split_line(rest) {
        if !reading.take(line)? {
            return Err(ListFault::NotProfile(number));
        }
        number += 1;
        rest = behind;
    }
    if !rest.is_empty() {
        return Err(ListFault::NotProfile(number));
    }
    match reading.finish() {
        Some(listing) => Ok(listing),
        None => Err(ListFault::NotProfile(number)),
    }
}

/// The first line of a text, without its LF, and what stands behind it; None where there is no LF.
pub fn split_line(text: &[u8]) -> Option<(&[u8], &[u8])>
    ensures { MatchOption result (IsLine text.now) (λ parts. IsLine parts.0.now × (text.now ≡ parts.0.now ++ 10 ∷ parts.1.now)) }
{
    let place = text.iter().position(|b| *b == b'\n')?;
    let (line, behind) = text.split_at(place);
    let (_, rest) = behind.split_first()?;
    Some((line, rest))
}
