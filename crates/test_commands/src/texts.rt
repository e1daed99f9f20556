//! Texts of playlists, and what comes of them with a line in another way.
use media_reading::{ListFault, read_media};
use std::alloc::{AllocError, Global};

/// The text that lists the segments of the standard stream.
pub const MEDIA: &str = "#EXTM3U
#EXT-X-VERSION:4
#EXT-X-TARGETDURATION:6
#EXT-X-MEDIA-SEQUENCE:0
#EXT-X-DISCONTINUITY-SEQUENCE:0
#EXT-X-KEY:METHOD=AES-128,URI=\"v.0.key\"
#EXTINF:6.000000,
v.0.ts
#EXTINF:3.040000,
v.1.ts
#EXT-X-ENDLIST
";

/// A salt of the bytes from F0 on.
pub const SALT: [u8; 16] = [
    0xF0, 0xF1, 0xF2, 0xF3, 0xF4, 0xF5, 0xF6, 0xF7, 0xF8, 0xF9, 0xFA, 0xFB, 0xFC, 0xFD, 0xFE, 0xFF,
];

/// The text that lists the segments of the standard stream under that salt.
pub const SALTED: &str = "#EXTM3U
#EXT-X-VERSION:4
#EXT-X-TARGETDURATION:6
#EXT-X-MEDIA-SEQUENCE:0
#EXT-X-DISCONTINUITY-SEQUENCE:0
#EXT-X-KEY:METHOD=AES-128,URI=\"v.0.key\",IV=0xF0F1F2F3F4F5F6F7F8F9FAFBFCFDFEFF
#EXTINF:6.000000,
v.0.ts
#EXT-X-KEY:METHOD=AES-128,URI=\"v.0.key\",IV=0xF0F1F2F3F4F5F6F7F8F9FAFBFCFDFEFE
#EXTINF:3.040000,
v.1.ts
#EXT-X-ENDLIST
";

/// The text that lists them as an event.
pub const EVENT: &str = "#EXTM3U
#EXT-X-VERSION:4
#EXT-X-TARGETDURATION:6
#EXT-X-MEDIA-SEQUENCE:0
#EXT-X-DISCONTINUITY-SEQUENCE:0
#EXT-X-PLAYLIST-TYPE:EVENT
#EXT-X-KEY:METHOD=AES-128,URI=\"v.0.key\"
#EXTINF:6.000000,
v.0.ts
#EXTINF:3.040000,
v.1.ts
";

fn push_lines(out: &mut String, lines: &[&str]) -> Result<(), AllocError> {
    for line in lines {
        out.push_str(line)?;
        out.push('\n')?;
    }
    Ok(())
}

/// A text in which some lines stand in place of one, counted from 1.
pub fn changed(
    alloc: Global,
    text: &str,
    line: usize,
    others: &[&str],
) -> Result<String, AllocError> {
    let mut out = String::new(alloc);
    for (at, one) in text.lines().enumerate() {
        if at.wrapping_add(1) == line {
            push_lines(&mut out, others)?;
        } else {
            push_lines(&mut out, &[one])?;
        }
    }
    Ok(out)
}

/// Why a text isn't read, or None.
pub fn fault(alloc: Global, text: &str) -> Option<ListFault> {
    read_media(alloc, text).err()
}

/// Why a text isn't read in which some lines stand in place of one, or None.
pub fn fault_changed(
    alloc: Global,
    text: &str,
    line: usize,
    others: &[&str],
) -> Result<Option<ListFault>, AllocError> {
    let text = changed(alloc, text, line, others)?;
    Ok(fault(alloc, &text))
}
