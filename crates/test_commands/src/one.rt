use crate::asserts::assert_same;
use crate::fixtures::{BrokenReader, settings, stream_bytes};
use packing::{Packed, one};
use pipeline::PackFault;
use std::alloc::Global;
use std::test::Fail;

/// What `one` writes of a stream that it reads to its end.
fn whole(alloc: Global, stream: &[u8]) -> Result<String, Fail> {
    let settings = settings(alloc, "640x360")?;
    let Packed {
        source,
        outlet,
        answer,
    } = one(alloc, &settings, stream, Vec::new(alloc));
    let left = source.into_reader().len();
    let text = String::from_utf8(outlet.into_writer());
    if answer.is_err() || left > 0 {
        return Err(Fail::from("not packed to its end"));
    }
    match text {
        Ok(text) => Ok(text),
        Err(_) => Err(Fail::from("not UTF-8")),
    }
}

/// The lines with which the items of the standard stream begin.
const ITEMS: [&str; 10] = [
    "segment v.0.ts 768",
    "media v.m3u8 8",
    "frames v.iframes.m3u8 10",
    "master master.m3u8 5",
    "segment v.1.ts 768",
    "media v.m3u8 10",
    "frames v.iframes.m3u8 14",
    "master master.m3u8 5",
    "media v.m3u8 11",
    "frames v.iframes.m3u8 15",
];

/// Whether an item begins with this line.
fn begins_item(line: &str) -> bool {
    line.starts_with("segment ")
        || line.starts_with("media ")
        || line.starts_with("frames ")
        || line.starts_with("master ")
}

/// How many items a text has; none where one begins with another line, or there are more.
fn items_of(text: &str) -> Option<usize> {
    let mut wanted = ITEMS.iter();
    let mut found: usize = 0;
    for line in text.lines() {
        if begins_item(line) {
            if wanted.next() != Some(&line) {
                return None;
            }
            found = found.saturating_add(1);
        }
    }
    Some(found)
}

#[test]
fn ten_items(rt: HostRuntime) -> Result<(), Fail> {
    let stream = stream_bytes(rt.alloc())?;
    let text = whole(rt.alloc(), &stream)?;
    assert_same(&rt, "ten items", items_of(&text), Some(10));
    Ok(())
}

#[test]
fn no_program(rt: HostRuntime) -> Result<(), Fail> {
    let alloc = rt.alloc();
    let settings = settings(alloc, "640x360")?;
    let empty: &[u8] = &[];
    let packed = one(alloc, &settings, empty, Vec::new(alloc));
    let count = packed.outlet.into_writer().len();
    assert_same(
        &rt,
        "no program",
        (packed.answer.err(), count),
        (Some(PackFault::NoProgram(0)), 0),
    );
    Ok(())
}

/// What `one` writes of a stream whose reader fails behind its bytes, how many of those it left, and its fault.
fn before_a_failed_read(
    alloc: Global,
    bytes: &[u8],
) -> Result<(Vec<u8>, usize, Option<PackFault>), Fail> {
    let settings = settings(alloc, "640x360")?;
    let Packed {
        source,
        outlet,
        answer,
    } = one(alloc, &settings, BrokenReader { bytes }, Vec::new(alloc));
    let left = source.into_reader().bytes.len();
    Ok((outlet.into_writer(), left, answer.err()))
}

/// Whether a text is another one up to its second segment.
fn is_first(output: &[u8], whole: &str) -> bool {
    match whole.split_once("segment v.1.ts") {
        Some((first, _)) => output == first.as_bytes(),
        None => false,
    }
}

/// How many bytes are left of a stream whose reader fails behind its bytes, the fault, and whether the output is what `one`
/// writes of the whole stream up to its second segment.
fn told_before_a_failed_read(
    alloc: Global,
    bytes: &[u8],
    whole: &str,
) -> Result<(usize, Option<PackFault>, bool), Fail> {
    let (output, left, fault) = before_a_failed_read(alloc, bytes)?;
    Ok((left, fault, is_first(&output, whole)))
}

/// The first 940 of the stream's 1,128 bytes end behind the packet that closes the first segment.
#[test]
fn a_read_that_fails_in_mid_stream(rt: HostRuntime) -> Result<(), Fail> {
    let stream = stream_bytes(rt.alloc())?;
    let whole = whole(rt.alloc(), &stream)?;
    let front = stream.get(..940).unwrap_or(&[]);
    let told = told_before_a_failed_read(rt.alloc(), front, &whole)?;
    assert_same(
        &rt,
        "a read that fails in mid stream",
        (front.len(), told),
        (940, (0, Some(PackFault::Read(0)), true)),
    );
    Ok(())
}
