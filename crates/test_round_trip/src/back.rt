//! What is packed is read back.
use crate::asserts::assert_same;
use crate::run::{PLAY, Play, Ran, last_media, played};
use crate::stream::Video::{Key, Other};
use hls_check::check;
use item_io::Item;
use media_reading::{Entry, ListFault, Listing, read_media};
use std::alloc::{AllocError, Global};
use std::test::Fail;

/// Whether the segments that a playlist lists, of all those so far, unpack.
fn comes_back(
    alloc: Global,
    text: &str,
    segments: &[Vec<u8>],
    keys: &[[u8; 16]],
) -> Result<bool, AllocError> {
    let Ok(listing) = read_media(alloc, text) else {
        return Ok(false);
    };
    let Some(listed) = segments.get(listing.sequence as usize..) else {
        return Ok(false);
    };
    match check(alloc, text, listed, keys) {
        Ok(checked) => Ok(checked.segments == listing.entries.len()),
        Err(_) => Ok(false),
    }
}

/// The place of the first media playlist of rendition r that isn't read back, or whose segments don't unpack.
pub fn first_lost(
    alloc: Global,
    items: &[Item],
    r: usize,
    keys: &[[u8; 16]],
) -> Result<Option<usize>, AllocError> {
    let mut segments = Vec::new(alloc);
    for (place, item) in items.iter().enumerate() {
        match item {
            Item::Segment {
                rendition,
                bytes,
                ..
            } if *rendition == r => {
                let mut copy = Vec::new(alloc);
                copy.extend_from_slice(bytes)?;
                segments.push(copy)?;
            }
            Item::Media {
                rendition,
                text,
                ..
            } if *rendition == r => {
                if !comes_back(alloc, text, &segments, keys)? {
                    return Ok(Some(place));
                }
            }
            _ => {}
        }
    }
    Ok(None)
}

/// Whether a run of one rendition ended well with so many items, and all that it packed under these keys comes back.
pub fn is_whole(
    alloc: Global,
    ran: &Ran,
    count: usize,
    keys: &[[u8; 16]],
) -> Result<bool, AllocError> {
    let lost = first_lost(alloc, ran.outlet.items(), 0, keys)?;
    Ok(lost.is_none() && ran.told() == (None, count))
}

/// Adds the line of a key.
fn push_key_line(alloc: Global, name: &str, key: u64, text: &mut String) -> Result<(), AllocError> {
    let line = format!(in alloc; "#EXT-X-KEY:METHOD=AES-128,URI=\"{name}.{key}.key\"\n")?;
    text.push_str(line.as_str())
}

/// Adds the lines of a segment.
fn push_segment_lines(
    alloc: Global,
    name: &str,
    entry: &Entry,
    text: &mut String,
) -> Result<(), AllocError> {
    let seconds = entry.micros / 1_000_000;
    let rest = entry.micros % 1_000_000;
    let number = entry.number;
    let lines = format!(in alloc; "#EXTINF:{seconds}.{rest:06},\n{name}.{number}.ts\n")?;
    text.push_str(lines.as_str())
}

/// Adds the lines of an entry behind one with this key.
fn push_entry(
    alloc: Global,
    name: &str,
    before: Option<u64>,
    entry: &Entry,
    text: &mut String,
) -> Result<(), AllocError> {
    if entry.discontinuity {
        text.push_str("#EXT-X-DISCONTINUITY\n")?;
    }
    if before != Some(entry.key) {
        push_key_line(alloc, name, entry.key, text)?;
    }
    push_segment_lines(alloc, name, entry, text)
}

/// Adds the line of a number.
fn push_number(alloc: Global, tag: &str, number: u64, text: &mut String) -> Result<(), AllocError> {
    let line = format!(in alloc; "#EXT-X-{tag}:{number}\n")?;
    text.push_str(line.as_str())
}

/// Adds the lines that a playlist begins with.
fn push_head(alloc: Global, listing: &Listing, text: &mut String) -> Result<(), AllocError> {
    let count = listing.discontinuity_sequence;
    text.push_str("#EXTM3U\n#EXT-X-VERSION:4\n")?;
    push_number(alloc, "TARGETDURATION", listing.target, text)?;
    push_number(alloc, "MEDIA-SEQUENCE", listing.sequence, text)?;
    push_number(alloc, "DISCONTINUITY-SEQUENCE", count, text)
}

/// Adds the text of a playlist whose name needs no escapes.
fn push_text(alloc: Global, listing: &Listing, text: &mut String) -> Result<(), AllocError> {
    push_head(alloc, listing, text)?;
    let mut before = None;
    for entry in &listing.entries {
        push_entry(alloc, &listing.name, before, entry, text)?;
        before = Some(entry.key);
    }
    if listing.ended {
        text.push_str("#EXT-X-ENDLIST\n")?;
    }
    Ok(())
}

/// Whether this is the text of a playlist whose name needs no escapes.
fn is_text(alloc: Global, listing: &Listing, text: &str) -> Result<bool, AllocError> {
    let mut written = String::new(alloc);
    push_text(alloc, listing, &mut written)?;
    Ok(written.as_str() == text)
}

/// Whether a text is refused, or read as what it says.
fn has_one_meaning(alloc: Global, text: &[u8]) -> Result<bool, AllocError> {
    let Ok(text) = str::from_utf8(text) else {
        return Ok(true);
    };
    match read_media(alloc, text) {
        Ok(listing) => is_text(alloc, &listing, text),
        Err(ListFault::NotProfile(_)) => Ok(true),
        Err(ListFault::NoMemory) => Err(AllocError),
    }
}

/// The first byte of a text that may be changed so that the text is read as another.
fn first_changed(alloc: Global, text: &str) -> Result<Option<usize>, AllocError> {
    let mut bytes = Vec::new(alloc);
    bytes.extend_from_slice(text.as_bytes())?;
    for i in 0..bytes.len() {
        for change in [1, 2, 4, 8, 16, 32, 64] {
            bytes[i] ^= change;
            let one = has_one_meaning(alloc, &bytes)?;
            bytes[i] ^= change;
            if !one {
                return Ok(Some(i));
            }
        }
    }
    Ok(None)
}

/// A text in which one line comes so many times.
fn with_line(alloc: Global, text: &str, line: usize, times: usize) -> Result<String, AllocError> {
    let mut changed = String::new(alloc);
    for (n, part) in text.split_inclusive('\n').enumerate() {
        let count = if n == line { times } else { 1 };
        for _ in 0..count {
            changed.push_str(part)?;
        }
    }
    Ok(changed)
}

/// The first line of a text that may be left out or doubled so that the text is read as another.
fn first_doubled(alloc: Global, text: &str) -> Result<Option<usize>, AllocError> {
    for line in 0..text.lines().count() {
        for times in [0, 2] {
            let changed = with_line(alloc, text, line, times)?;
            if !has_one_meaning(alloc, changed.as_bytes())? {
                return Ok(Some(line));
            }
        }
    }
    Ok(None)
}

/// Whether a text is refused, or read as what it says, with any one byte changed and any one line left out or doubled.
pub fn has_one_meaning_changed(alloc: Global, text: &str) -> Result<bool, AllocError> {
    Ok(first_changed(alloc, text)?.is_none() && first_doubled(alloc, text)?.is_none())
}

/// A stream with a jump of time, whose two keys take turns.
const JUMP: Play = Play {
    frames: &[
        Key(0),
        Key(540_000),
        Other(810_000),
        Key(90_000_000),
        Key(90_540_000),
        Other(90_900_000),
    ],
    keys: (2, 2),
    ..PLAY
};

/// Its last playlist.
fn playlist(alloc: Global) -> Result<String, Fail> {
    let ran = played(alloc, &JUMP)?;
    if !is_whole(alloc, &ran, 18, &[[0; 16], [1; 16]])? {
        return Err(Fail::from("lost"));
    }
    Ok(String::from_str(alloc, last_media(ran.outlet.items()))?)
}

/// How many segments a playlist lists, whether it has ended, whether it is written as it was read, and whether it has one
/// meaning with any one byte changed and any one line left out or doubled.
fn told_of_text(alloc: Global, text: &str) -> Result<(usize, bool, bool, bool), Fail> {
    let changed = has_one_meaning_changed(alloc, text)?;
    let listing = read_media(alloc, text)?;
    let (count, ended) = (listing.entries.len(), listing.ended);
    Ok((count, ended, is_text(alloc, &listing, text)?, changed))
}

#[test]
fn a_changed_playlist_has_one_meaning(rt: HostRuntime) -> Result<(), Fail> {
    let text = playlist(rt.alloc())?;
    let told = told_of_text(rt.alloc(), &text)?;
    assert_same(
        &rt,
        "a changed playlist has one meaning",
        told,
        (4, true, true, true),
    );
    Ok(())
}
