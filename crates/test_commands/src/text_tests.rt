use crate::asserts::assert_same;
use crate::texts::MEDIA;
use media_reading::{Entry, Listing, read_media};
use playlist_text::{
    push_decimal, push_key_uri, push_line, push_quoted, push_seconds, push_segment_uri,
};
use std::alloc::{AllocError, Global};
use std::test::Fail;

/// Appends a line with a number.
fn push_numbered(out: &mut String, tag: &str, number: u64) -> Result<(), AllocError> {
    out.push_str(tag)?;
    push_decimal(out, u128::from(number))?;
    push_line(out, "")
}

/// Appends the lines of an entry behind one with this key.
fn push_entry(
    alloc: Global,
    out: &mut String,
    name: &str,
    before: Option<u64>,
    entry: &Entry,
) -> Result<(), AllocError> {
    if entry.discontinuity {
        push_line(out, "#EXT-X-DISCONTINUITY")?;
    }
    if before != Some(entry.key) {
        push_key_line(alloc, out, name, entry.key)?;
    }
    out.push_str("#EXTINF:")?;
    push_seconds(out, u128::from(entry.micros))?;
    push_line(out, ",")?;
    push_segment_uri(out, name, entry.number)?;
    push_line(out, "")
}

fn push_key_line(alloc: Global, out: &mut String, name: &str, key: u64) -> Result<(), AllocError> {
    let mut uri = String::new(alloc);
    push_key_uri(&mut uri, name, key)?;
    out.push_str("#EXT-X-KEY:METHOD=AES-128,URI=")?;
    push_quoted(out, &uri)?;
    push_line(out, "")
}

/// Appends the text of a playlist, line by line.
fn push_text(alloc: Global, out: &mut String, listing: &Listing) -> Result<(), AllocError> {
    out.push_str("#EXTM3U\n#EXT-X-VERSION:4\n")?;
    push_numbered(out, "#EXT-X-TARGETDURATION:", listing.target)?;
    push_numbered(out, "#EXT-X-MEDIA-SEQUENCE:", listing.sequence)?;
    let count = listing.discontinuity_sequence;
    push_numbered(out, "#EXT-X-DISCONTINUITY-SEQUENCE:", count)?;
    let mut before = None;
    for entry in &listing.entries {
        push_entry(alloc, out, &listing.name, before, entry)?;
        before = Some(entry.key);
    }
    if listing.ended {
        push_line(out, "#EXT-X-ENDLIST")?;
    }
    Ok(())
}

fn text_of(alloc: Global, listing: &Listing) -> Result<String, AllocError> {
    let mut out = String::new(alloc);
    push_text(alloc, &mut out, listing)?;
    Ok(out)
}

/// Whether a text is read, and then as what it says. None where it isn't read.
fn reads_as_itself(alloc: Global, text: &str) -> Result<Option<bool>, AllocError> {
    let Ok(listing) = read_media(alloc, text) else {
        return Ok(None);
    };
    Ok(Some(text_of(alloc, &listing)?.as_str() == text))
}

/// Turns a bit of a byte.
fn turn(bytes: &mut [u8], at: usize) {
    if let Some(byte) = bytes.get_mut(at) {
        *byte ^= 1;
    }
}

/// Of the standard text with one byte in another way, a bit of it, how many are read, and the first byte with which it is read
/// as another text.
fn told_of_bytes(alloc: Global) -> Result<(u64, Option<usize>), AllocError> {
    let mut read = 0u64;
    let mut bytes = Vec::from_slice(alloc, MEDIA.as_bytes())?;
    for at in 0..bytes.len() {
        turn(&mut bytes, at);
        let itself = match str::from_utf8(&bytes) {
            Ok(text) => reads_as_itself(alloc, text)?,
            Err(_) => None,
        };
        turn(&mut bytes, at);
        match itself {
            Some(true) => read = read.wrapping_add(1),
            Some(false) => return Ok((read, Some(at))),
            None => {}
        }
    }
    Ok((read, None))
}

/// Read are those with another target, discontinuity sequence or index of the key, with one of the six digits behind the first
/// point, or with one of all seven of the second duration.
#[test]
fn each_byte_in_another_way(rt: HostRuntime) -> Result<(), Fail> {
    let told = told_of_bytes(rt.alloc())?;
    assert_same(&rt, "each byte in another way", told, (16, None));
    Ok(())
}
