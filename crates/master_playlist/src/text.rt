ghost use Rattle.std.specs.Prelude.{◌≡◌, ◌+◌, ◌<◌, ◌≤◌, [], ◌∷◌, ◌++◌, length, map, Some, None, IfOk, IsOk, OnOk, OnErr, MatchOption, IsOkUnless};
ghost use Rattle.std.specs.List.{flat_map};
ghost use Rattle.std.specs.String.{string_bytes, string_capacity, string_len};
ghost use Rattle.playlist_text.specs.Appended.{AppendsPart};
ghost use Rattle.playlist_text.specs.Lines.{text_of};
ghost use Rattle.playlist_text.specs.AttributeValues.{attribute_text, HaveNoHexadecimal};
ghost use Rattle.master_playlist.specs.MasterLines;
ghost use Rattle.master_playlist.specs.MasterLines.{attributes, stream_lines, frames_line};
ghost use Rattle.master_playlist.specs.Faults.{fault_of};

use crate::fault::MasterFault;
use crate::variant::Variant;
use playlist_text::{
    Attribute, Value, push_attribute_list, push_frames_uri, push_line, push_media_uri,
};
use std::alloc::{AllocError, Global};

/// The text of the master playlist: the lines of all variants, then those of all their I-frame playlists (RFC 8216,
/// 4.3.4). No variants have the empty text, which takes no memory.
pub fn master_text(alloc: Global, variants: &[Variant<'_>]) -> Result<String, MasterFault>
    ensures told { MatchOption (fault_of variants.now) (IsOkUnless result MasterFault.NoMemory)
        (λ fault. result ≡ Err fault) }
    ensures text { IfOk result (λ text. string_bytes text ≡ MasterLines.master_text variants.now) }
    ensures none { variants.now ≡ [] → IsOk result }
{
    if let Some(fault) = crate::fault::fault_of(variants) {
        return Err(fault);
    }
    let text = text_of_lines(alloc, variants)?;
    Ok(text)
}

fn text_of_lines(alloc: Global, variants: &[Variant<'_>]) -> Result<String, AllocError>
    ensures text { IfOk result (λ text. string_bytes text ≡ MasterLines.master_text variants.now) }
    ensures none { variants.now ≡ [] → IsOk result }
{
    let mut text = String::new(alloc);
    if variants.is_empty() {
        return Ok(text);
    }
    push_line(&mut text, "#EXTM3U")?;
    push_line(&mut text, "#EXT-X-VERSION:4")?;
    push_streams(&mut text, variants)?;
    push_frames(&mut text, variants)?;
    Ok(text)
}

fn push_streams(out: &mut String, variants: &[Variant<'_>]) -> Result<(), AllocError>
    ensures ok { OnOk result
        (string_bytes out.new ≡ string_bytes out.old ++ text_of (flat_map stream_lines variants.now)) }
    ensures full { OnErr result
        (string_capacity out.old < string_len out.old + length (text_of (flat_map stream_lines variants.now))) }
    ensures capacity { string_capacity out.old ≤ string_capacity out.new }
{
    for variant in variants {
        push_stream(out, variant)?;
    }
    Ok(())
}

fn push_frames(out: &mut String, variants: &[Variant<'_>]) -> Result<(), AllocError>
    ensures ok { OnOk result
        (string_bytes out.new ≡ string_bytes out.old ++ text_of (map frames_line variants.now)) }
    ensures none { variants.now ≡ [] → IsOk result }
    ensures capacity { string_capacity out.old ≤ string_capacity out.new }
{
    for variant in variants {
        push_frame(out, variant)?;
    }
    Ok(())
}

/// Appends the line of a variant and the URI of its media playlist (RFC 8216, 4.3.4.2).
fn push_stream(out: &mut String, variant: &Variant<'_>) -> Result<(), AllocError>
    ensures ok { OnOk result (string_bytes out.new ≡ string_bytes out.old ++ text_of (stream_lines variant.now)) }
    ensures full { OnErr result (string_capacity out.old < string_len out.old + length (text_of (stream_lines variant.now))) }
    ensures capacity { string_capacity out.old ≤ string_capacity out.new }
{
    let rates = attributes_of(variant, variant.peak, variant.average);
    out.push_str("#EXT-X-STREAM-INF:")?;
    push_attribute_list(out, &rates)?;
    out.push_str("\n")?;
    push_media_uri(out, variant.name)?;
    out.push_str("\n")?;
    Ok(())
}

/// Appends the line of its I-frame playlist (RFC 8216, 4.3.4.3).
fn push_frame(out: &mut String, variant: &Variant<'_>) -> Result<(), AllocError>
    ensures ok { OnOk result (string_bytes out.new ≡ string_bytes out.old ++ text_of (frames_line variant.now ∷ [])) }
    ensures capacity { string_capacity out.old ≤ string_capacity out.new }
    ensures part { OnErr result (AppendsPart (string_bytes out.old) (text_of (frames_line variant.now ∷ [])) (string_bytes out.new)) }
{
    let mut uri = String::new(*out.allocator());
    push_frames_uri(&mut uri, variant.name)?;
    let rates = attributes_of(variant, variant.frame_peak, variant.frame_average);
    let uri = Attribute {
        name: "URI",
        value: Value::Quoted(&uri),
    };
    out.push_str("#EXT-X-I-FRAME-STREAM-INF:")?;
    push_attribute_list(out, &rates)?;
    out.push_str(",")?;
    push_attribute_list(out, &[uri])?;
    out.push_str("\n")?;
    Ok(())
}

/// The attributes that both kinds of lines have.
#[tactic(auto, unfolding(crate::specs::MasterLines::attributes))]
fn attributes_of<'a>(variant: &Variant<'a>, peak: u64, average: u64) -> [Attribute<'a>; 4]
    ensures ok { map attribute_text result ≡ attributes variant.now peak average }
    ensures plain { HaveNoHexadecimal result }
{
    [
        Attribute {
            name: "BANDWIDTH",
            value: Value::Decimal(peak),
        },
        Attribute {
            name: "AVERAGE-BANDWIDTH",
            value: Value::Decimal(average),
        },
        Attribute {
            name: "CODECS",
            value: Value::Quoted(variant.codecs),
        },
        Attribute {
            name: "RESOLUTION",
            value: Value::Resolution(variant.width, variant.height),
        },
    ]
}
