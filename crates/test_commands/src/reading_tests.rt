//! What is read of texts.
use crate::asserts::assert_same;
use crate::texts::{EVENT, MEDIA, SALT, SALTED, changed, fault};
use media_reading::{ListFault, Listing, read_media};
use std::alloc::{AllocError, Global};
use std::test::Fail;

/// An entry: its number, the index of its key, its microseconds, and whether it is a discontinuity.
type Row = (u64, u64, u64, bool);

/// Whether a listing has a name; its target, sequence and discontinuity sequence; whether it is of an event and has ended; its
/// salt; and its entries, of which there are two.
type Read = (
    bool,
    (u64, u64, u64),
    (bool, bool),
    Option<[u8; 16]>,
    [Option<Row>; 3],
);

fn facts(listing: &Listing, name: &str) -> Read {
    let entry = |at: usize| {
        let entry = listing.entries.get(at)?;
        Some((entry.number, entry.key, entry.micros, entry.discontinuity))
    };
    (
        listing.name.as_str() == name,
        (
            listing.target,
            listing.sequence,
            listing.discontinuity_sequence,
        ),
        (listing.event, listing.ended),
        listing.salt,
        [entry(0), entry(1), entry(2)],
    )
}

/// What is read of a text of a rendition of this name.
fn read(alloc: Global, text: &str, name: &str) -> Result<Read, ListFault> {
    let listing = read_media(alloc, text)?;
    Ok(facts(&listing, name))
}

/// The segments of the standard stream.
const ENTRIES: [Option<Row>; 3] = [
    Some((0, 0, 6_000_000, false)),
    Some((1, 0, 3_040_000, false)),
    None,
];

/// The least and the greatest numbers, and a name with escapes.
const BOUNDS: &str = "#EXTM3U
#EXT-X-VERSION:4
#EXT-X-TARGETDURATION:3600
#EXT-X-MEDIA-SEQUENCE:8589934590
#EXT-X-DISCONTINUITY-SEQUENCE:8589934591
#EXT-X-DISCONTINUITY
#EXT-X-KEY:METHOD=AES-128,URI=\"hd%201%C3%A9.4095.key\"
#EXTINF:0.000001,
hd%201%C3%A9.8589934590.ts
#EXT-X-KEY:METHOD=AES-128,URI=\"hd%201%C3%A9.0.key\"
#EXTINF:3600.499999,
hd%201%C3%A9.8589934591.ts
";

/// A salted text whose first segments are gone.
const LATER: &str = "#EXTM3U
#EXT-X-VERSION:4
#EXT-X-TARGETDURATION:6
#EXT-X-MEDIA-SEQUENCE:256
#EXT-X-DISCONTINUITY-SEQUENCE:1
#EXT-X-KEY:METHOD=AES-128,URI=\"v.3.key\",IV=0xF0F1F2F3F4F5F6F7F8F9FAFBFCFDFFFF
#EXTINF:6.000000,
v.256.ts
#EXT-X-DISCONTINUITY
#EXT-X-KEY:METHOD=AES-128,URI=\"v.0.key\",IV=0xF0F1F2F3F4F5F6F7F8F9FAFBFCFDFFFE
#EXTINF:3.040000,
v.257.ts
";

/// Texts, the names of their renditions, and what is read of them.
const TEXTS: [(&str, &str, Read); 5] = [
    (MEDIA, "v", (true, (6, 0, 0), (false, true), None, ENTRIES)),
    (
        SALTED,
        "v",
        (true, (6, 0, 0), (false, true), Some(SALT), ENTRIES),
    ),
    (EVENT, "v", (true, (6, 0, 0), (true, false), None, ENTRIES)),
    (
        BOUNDS,
        "hd 1é",
        (
            true,
            (3600, 8_589_934_590, 8_589_934_591),
            (false, false),
            None,
            [
                Some((8_589_934_590, 4095, 1, true)),
                Some((8_589_934_591, 0, 3_600_499_999, false)),
                None,
            ],
        ),
    ),
    (
        LATER,
        "v",
        (
            true,
            (6, 256, 1),
            (false, false),
            Some(SALT),
            [
                Some((256, 3, 6_000_000, false)),
                Some((257, 0, 3_040_000, true)),
                None,
            ],
        ),
    ),
];

#[test]
fn texts_are_read(rt: HostRuntime) -> Result<(), Fail> {
    for (text, name, told) in TEXTS {
        assert_same(&rt, text, read(rt.alloc(), text, name), Ok(told));
    }
    Ok(())
}

/// What is read of a text with these lines in place of its sixth.
fn read_changed(
    alloc: Global,
    text: &str,
    sixth: &[&str],
) -> Result<Result<Read, ListFault>, AllocError> {
    let text = changed(alloc, text, 6, sixth)?;
    Ok(read(alloc, &text, "v"))
}

/// The line of an event before the first key line of the salted text.
const SALTED_EVENT: [&str; 2] = [
    "#EXT-X-PLAYLIST-TYPE:EVENT",
    "#EXT-X-KEY:METHOD=AES-128,URI=\"v.0.key\",IV=0xF0F1F2F3F4F5F6F7F8F9FAFBFCFDFEFF",
];

#[test]
fn an_event_by_its_line_alone(rt: HostRuntime) -> Result<(), Fail> {
    let table: [(&str, &[&str], Read); 2] = [
        (
            SALTED,
            &SALTED_EVENT,
            (true, (6, 0, 0), (true, true), Some(SALT), ENTRIES),
        ),
        (EVENT, &[], (true, (6, 0, 0), (false, false), None, ENTRIES)),
    ];
    for (text, sixth, told) in table {
        let came = read_changed(rt.alloc(), text, sixth)?;
        assert_same(&rt, text, came, Ok(told));
    }
    Ok(())
}

/// The line that is told of a text that ends in another way: of the standard text without its last line end, with one more, and
/// of the text that ends at the last possible number with a segment more.
fn told_of_ends(alloc: Global) -> Result<[Option<ListFault>; 3], AllocError> {
    let mut text = String::new(alloc);
    text.push_str(MEDIA)?;
    text.pop();
    let without = fault(alloc, &text);
    text.push_str("\n\n")?;
    let with = fault(alloc, &text);
    text.clear();
    text.push_str(BOUNDS)?;
    text.push_str("#EXTINF:6.000000,\n")?;
    Ok([without, with, fault(alloc, &text)])
}

#[test]
fn texts_that_end_in_another_way(rt: HostRuntime) -> Result<(), Fail> {
    for (told, line) in told_of_ends(rt.alloc())?.into_iter().zip([11, 12, 13]) {
        assert_same(&rt, "an end", told, Some(ListFault::NotProfile(line)));
    }
    for text in ["", "\u{feff}#EXTM3U\n", "#EXTM3U\r\n"] {
        let told = fault(rt.alloc(), text);
        assert_same(&rt, text, told, Some(ListFault::NotProfile(1)));
    }
    Ok(())
}

/// The first number of lines after which the standard text ends early and is told otherwise: the line behind the last is, but
/// where a playlist may end.
fn first_end_told_otherwise(alloc: Global) -> Result<Option<usize>, AllocError> {
    let mut text = String::new(alloc);
    for (at, line) in MEDIA.lines().enumerate() {
        let told = match at {
            8 | 10 => None,
            _ => Some(ListFault::NotProfile(at as u64 + 1)),
        };
        if fault(alloc, &text) != told {
            return Ok(Some(at));
        }
        text.push_str(line)?;
        text.push('\n')?;
    }
    Ok(None)
}

#[test]
fn texts_that_end_early(rt: HostRuntime) -> Result<(), Fail> {
    let other = first_end_told_otherwise(rt.alloc())?;
    assert_same(&rt, "texts that end early", other, None);
    Ok(())
}
