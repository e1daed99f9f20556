//! Lines that are written in another way, left out or doubled.
use crate::asserts::assert_same;
use crate::texts::{EVENT, MEDIA, SALTED, fault_changed};
use media_reading::ListFault;
use std::alloc::{AllocError, Global};
use std::test::Fail;

/// A line of a text, the lines in its place, and the line that is told to be wrong then.
type Row = (usize, &'static [&'static str], u64);

const OF_MEDIA: [Row; 26] = [
    (1, &["#EXTM3U "], 1),
    (2, &["#EXT-X-VERSION:3"], 2),
    (3, &["#EXT-X-TARGETDURATION:06"], 3),
    (3, &["#EXT-X-TARGETDURATION:0"], 3),
    (3, &["#EXT-X-TARGETDURATION:3601"], 3),
    (3, &["#EXT-X-TARGETDURATION:5"], 7),
    (4, &["#EXT-X-MEDIA-SEQUENCE:8589934592"], 4),
    (4, &["#EXT-X-MEDIA-SEQUENCE:+0"], 4),
    (4, &["#EXT-X-MEDIA-SEQUENCE:1"], 8),
    (5, &["#EXT-X-DISCONTINUITY-SEQUENCE:8589934592"], 5),
    (6, &["#EXTINF:6.000000,"], 6),
    (6, &["#EXT-X-KEY:METHOD=AES-128,URI=\"v.4096.key\""], 6),
    (6, &["#EXT-X-KEY:METHOD=AES-128,URI=\"v.00.key\""], 6),
    (6, &["#EXT-X-KEY:METHOD=AES-128,URI=\"%76.0.key\""], 6),
    (6, &["#EXT-X-KEY:METHOD=AES-128,URI=\"master.0.key\""], 6),
    (6, &["#EXT-X-KEY:METHOD=AES-128,URI=\"%FF.0.key\""], 6),
    (6, &["#EXT-X-KEY:METHOD=AES-128,URI=\"w.0.key\""], 8),
    (7, &["#EXTINF:06.000000,"], 7),
    (7, &["#EXTINF:6.00000,"], 7),
    (7, &["#EXTINF:6.500000,"], 7),
    (7, &["#EXTINF:0.000000,"], 7),
    (9, &["#EXT-X-KEY:METHOD=AES-128,URI=\"v.0.key\""], 9),
    (9, &["#EXT-X-DISCONTINUITY"], 10),
    (10, &["v.2.ts"], 10),
    (10, &["v.01.ts"], 10),
    (11, &["#EXT-X-ENDLIST "], 11),
];

/// The first key line, the second, and none in its place.
const OF_SALTED: [Row; 9] = [
    (
        6,
        &["#EXT-X-KEY:METHOD=AES-128,URI=\"v.0.key\",IV=0xf0F1F2F3F4F5F6F7F8F9FAFBFCFDFEFF"],
        6,
    ),
    (
        6,
        &["#EXT-X-KEY:METHOD=AES-128,URI=\"v.0.key\",IV=0XF0F1F2F3F4F5F6F7F8F9FAFBFCFDFEFF"],
        6,
    ),
    (
        6,
        &["#EXT-X-KEY:METHOD=AES-128,URI=\"v.0.key\",IV=0xF0F1F2F3F4F5F6F7F8F9FAFBFCFDFE"],
        6,
    ),
    (6, &["#EXT-X-KEY:METHOD=AES-128,URI=\"v.0.key\",IV=0x"], 6),
    (6, &["#EXT-X-KEY:METHOD=AES-128,URI=\"v.0.key\""], 9),
    (
        6,
        &["#EXT-X-KEY:METHOD=AES-128,URI=\"v.0.key\",IV=0xF0F1F2F3F4F5F6F7F8F9FAFBFCFDFEFD"],
        9,
    ),
    (
        9,
        &["#EXT-X-KEY:METHOD=AES-128,URI=\"v.0.key\",IV=0xF0F1F2F3F4F5F6F7F8F9FAFBFCFDFEFF"],
        9,
    ),
    (9, &["#EXT-X-KEY:METHOD=AES-128,URI=\"v.1.key\""], 9),
    (9, &[], 9),
];

const OF_EVENT: [Row; 4] = [
    (4, &["#EXT-X-MEDIA-SEQUENCE:1"], 6),
    (5, &["#EXT-X-DISCONTINUITY-SEQUENCE:1"], 6),
    (6, &["#EXT-X-PLAYLIST-TYPE:VOD"], 6),
    (7, &["#EXT-X-PLAYLIST-TYPE:EVENT"], 7),
];

/// The first row of a text that is told otherwise.
fn first_other(alloc: Global, text: &str, rows: &[Row]) -> Result<Option<usize>, AllocError> {
    for (at, (line, others, told)) in rows.iter().enumerate() {
        if fault_changed(alloc, text, *line, others)? != Some(ListFault::NotProfile(*told)) {
            return Ok(Some(at));
        }
    }
    Ok(None)
}

#[test]
fn lines_in_another_way(rt: HostRuntime) -> Result<(), Fail> {
    for (text, rows) in [
        (MEDIA, OF_MEDIA.as_slice()),
        (SALTED, OF_SALTED.as_slice()),
        (EVENT, OF_EVENT.as_slice()),
    ] {
        let other = first_other(rt.alloc(), text, rows)?;
        assert_same(&rt, text, other, None);
    }
    Ok(())
}

/// The first line of the standard text that is told otherwise than where it stands where it is left out, and behind it where it
/// stands twice. Without its last line the text is one that hasn't ended.
fn first_line_told_otherwise(alloc: Global) -> Result<Option<usize>, AllocError> {
    for (at, line) in MEDIA.lines().enumerate() {
        let number = at as u64;
        let without = fault_changed(alloc, MEDIA, at.wrapping_add(1), &[])?;
        let twice = fault_changed(alloc, MEDIA, at.wrapping_add(1), &[line, line])?;
        let told = if at == 10 {
            None
        } else {
            Some(ListFault::NotProfile(number.wrapping_add(1)))
        };
        if without != told || twice != Some(ListFault::NotProfile(number.wrapping_add(2))) {
            return Ok(Some(at));
        }
    }
    Ok(None)
}

#[test]
fn each_line_left_out_and_twice(rt: HostRuntime) -> Result<(), Fail> {
    let other = first_line_told_otherwise(rt.alloc())?;
    assert_same(&rt, "each line left out and twice", other, None);
    Ok(())
}
