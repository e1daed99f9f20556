//! Texts that stand in lines, found there without a copy.

ghost use Rattle.std.specs.Prelude.{◌≡◌, ◌≢◌, ◌<◌, ◌++◌, ◌∷◌, [], ℕ, List, MatchOption, slice_index};
ghost use Rattle.std.specs.Str.{bytes_eq};
ghost use Rattle.hex.specs.Hex.{encode_upper, upper_digits};
ghost use Rattle.playlist_text.specs.Uris.{escaped, segment_uri};
ghost use Rattle.media_reading.specs.State.{key_begin, key_in, vector_end};

use crate::numbers::read_between;
use limits::MOST_KEYS;
use percent_encoding::utf8_percent_encode;
use playlist_text::{ESCAPED, salted_vector};

/// What the line of a key begins with, before the name.
pub const KEY_BEGIN: &str = "#EXT-X-KEY:METHOD=AES-128,URI=\"";

/// The digits of hexadecimal sequences.
const DIGITS: &[u8; 16] = b"0123456789ABCDEF";

/// What stands behind the escaped name with which a text begins.
fn strip_name<'a>(text: &'a [u8], name: &str) -> Option<&'a [u8]>
    ensures { MatchOption result ((rest : List ℕ) → text.now ≢ escaped name.now ++ rest) (λ rest. text.now ≡ escaped name.now ++ rest.now) }
{
    let mut rest = text;
    for piece in utf8_percent_encode(name, ESCAPED) {
        rest = rest.strip_prefix(piece.as_bytes())?;
    }
    Some(rest)
}

/// Both digits of a byte.
#[tactic(auto, unfolding(hex::specs::Hex::encode_with))]
fn digits_of(byte: u8) -> [u8; 2]
    ensures { result ≡ encode_upper (byte ∷ []) }
{
    [
        DIGITS[usize::from(byte / 16)],
        DIGITS[usize::from(byte % 16)],
    ]
}

/// What stands behind the digits of some bytes with which a text begins.
fn strip_digits<'a>(text: &'a [u8], bytes: &[u8]) -> Option<&'a [u8]>
    ensures { MatchOption result ((rest : List ℕ) → text.now ≢ encode_upper bytes.now ++ rest) (λ rest. text.now ≡ encode_upper bytes.now ++ rest.now) }
{
    let mut rest = text;
    for byte in bytes {
        rest = rest.strip_prefix(&digits_of(*byte))?;
    }
    Some(rest)
}

/// Whether a text is the digits of a vector.
fn is_vector(text: &[u8], vector: &[u8; 16]) -> bool
    ensures { result ≡ bytes_eq text.now (encode_upper vector.now) }
{
    match strip_digits(text, vector) {
        Some(rest) => rest.is_empty(),
        None => false,
    }
}

/// What stands before the vector in the line of a key; without a salt there is none.
fn strip_vector<'a>(text: &'a [u8], salt: Option<[u8; 16]>, number: u64) -> Option<&'a [u8]>
    ensures { MatchOption result ((front : List ℕ) → text.now ≢ front ++ vector_end salt number) (λ front. text.now ≡ front.now ++ vector_end salt number) }
{
    let Some(salt) = salt else {
        return Some(text);
    };
    let (front, digits) = text.split_last_chunk::<32>()?;
    if !is_vector(digits, &salted_vector(Some(salt), number)) {
        return None;
    }
    front.strip_suffix(b",IV=0x")
}

/// What stands between the name and the vector in the line of a key.
fn key_index<'a>(
    line: &'a [u8],
    name: &str,
    salt: Option<[u8; 16]>,
    number: u64,
) -> Option<&'a [u8]>
    ensures { MatchOption result
        ((index : List ℕ) → line.now ≢ key_begin ++ escaped name.now ++ index ++ vector_end salt number)
        (λ index. line.now ≡ key_begin ++ escaped name.now ++ index.now ++ vector_end salt number) }
{
    let uri = line.strip_prefix(KEY_BEGIN.as_bytes())?;
    strip_vector(strip_name(uri, name)?, salt, number)
}

/// The index of the key in the line of a key of a rendition, below 4,096. The number is that of the entry behind it.
pub fn read_key(line: &[u8], name: &str, salt: Option<[u8; 16]>, number: u64) -> Option<u64>
    ensures { result ≡ key_in name.now salt number line.now }
{
    let index = key_index(line, name, salt, number)?;
    let key = read_between(index, b".", b".key\"")?;
    if key >= MOST_KEYS {
        return None;
    }
    Some(key)
}

/// Whether a line is the URI of a segment.
pub fn is_segment_uri(line: &[u8], name: &str, number: u64) -> bool
    ensures { result ≡ bytes_eq line.now (segment_uri name.now number) }
{
    let Some(rest) = strip_name(line, name) else {
        return false;
    };
    match read_between(rest, b".", b".ts") {
        Some(found) => found == number,
        None => false,
    }
}
