ghost use Rattle.std.specs.Prelude.{◌≡◌, ◌++◌, ◌+◌, ◌<◌, ◌≤◌, length, OnErr, OnOk};
ghost use Rattle.std.specs.String.{string_bytes, string_capacity, string_len};
ghost use Rattle.playlist_text.specs.Appended.{AppendsPart};
ghost use Rattle.playlist_text.specs.Uris.{escaped, segment_uri, key_uri, media_uri, frames_uri};

use crate::number::push_decimal;
use percent_encoding::{AsciiSet, NON_ALPHANUMERIC, ascii_set, utf8_percent_encode};
use std::alloc::AllocError;

/// The URI of the master playlist.
pub const MASTER_URI: &str = "master.m3u8";

/// The bytes of ASCII that are escaped in the URIs of a name.
pub const ESCAPED: AsciiSet = ascii_set!(NON_ALPHANUMERIC.remove(b'-').remove(b'_').remove(b'~'));

/// Appends a name as it stands in URIs: bytes other than letters, digits, `-`, `_` and `~` as `%XX`, in upper case.
pub fn push_escaped(out: &mut String, name: &str) -> Result<(), AllocError>
    ensures ok { OnOk result (string_bytes out.new ≡ string_bytes out.old ++ escaped name.now) }
    ensures full { OnErr result (string_capacity out.old < string_len out.old + length (escaped name.now)) }
    ensures capacity { string_capacity out.old ≤ string_capacity out.new }
    ensures part { OnErr result (AppendsPart (string_bytes out.old) (escaped name.now) (string_bytes out.new)) }
{
    for piece in utf8_percent_encode(name, ESCAPED) {
        out.push_str(piece)?;
    }
    Ok(())
}

/// Appends the URI of a segment: `NAME.number.ts`.
#[tactic(auto, unfolding(crate::specs::Uris::segment_uri))]
pub fn push_segment_uri(out: &mut String, name: &str, number: u64) -> Result<(), AllocError>
    ensures ok { OnOk result (string_bytes out.new ≡ string_bytes out.old ++ segment_uri name.now number) }
    ensures full { OnErr result (string_capacity out.old < string_len out.old + length (segment_uri name.now number)) }
    ensures capacity { string_capacity out.old ≤ string_capacity out.new }
    ensures part { OnErr result (AppendsPart (string_bytes out.old) (segment_uri name.now number) (string_bytes out.new)) }
{
    push_escaped(out, name)?;
    out.push_str(".")?;
    push_decimal(out, u128::from(number))?;
    out.push_str(".ts")
}

/// Appends the URI of a key: `NAME.index.key`.
#[tactic(auto, unfolding(crate::specs::Uris::key_uri))]
pub fn push_key_uri(out: &mut String, name: &str, index: u64) -> Result<(), AllocError>
    ensures ok { OnOk result (string_bytes out.new ≡ string_bytes out.old ++ key_uri name.now index) }
    ensures full { OnErr result (string_capacity out.old < string_len out.old + length (key_uri name.now index)) }
    ensures capacity { string_capacity out.old ≤ string_capacity out.new }
    ensures part { OnErr result (AppendsPart (string_bytes out.old) (key_uri name.now index) (string_bytes out.new)) }
{
    push_escaped(out, name)?;
    out.push_str(".")?;
    push_decimal(out, u128::from(index))?;
    out.push_str(".key")
}

/// Appends the URI of a media playlist: `NAME.m3u8`.
#[tactic(auto, unfolding(crate::specs::Uris::media_uri))]
pub fn push_media_uri(out: &mut String, name: &str) -> Result<(), AllocError>
    ensures ok { OnOk result (string_bytes out.new ≡ string_bytes out.old ++ media_uri name.now) }
    ensures full { OnErr result (string_capacity out.old < string_len out.old + length (media_uri name.now)) }
    ensures capacity { string_capacity out.old ≤ string_capacity out.new }
    ensures part { OnErr result (AppendsPart (string_bytes out.old) (media_uri name.now) (string_bytes out.new)) }
{
    push_escaped(out, name)?;
    out.push_str(".m3u8")
}

/// Appends the URI of a playlist of I-frames: `NAME.iframes.m3u8`.
#[tactic(auto, unfolding(crate::specs::Uris::frames_uri))]
pub fn push_frames_uri(out: &mut String, name: &str) -> Result<(), AllocError>
    ensures ok { OnOk result (string_bytes out.new ≡ string_bytes out.old ++ frames_uri name.now) }
    ensures full { OnErr result (string_capacity out.old < string_len out.old + length (frames_uri name.now)) }
    ensures capacity { string_capacity out.old ≤ string_capacity out.new }
    ensures part { OnErr result (AppendsPart (string_bytes out.old) (frames_uri name.now) (string_bytes out.new)) }
{
    push_escaped(out, name)?;
    out.push_str(".iframes.m3u8")
}
