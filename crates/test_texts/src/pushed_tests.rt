//! What is appended to texts: numbers, names, URIs and attributes.

use crate::fixtures::assert_text;
use playlist_text::{
    Attribute, Value, push_attribute_list, push_decimal, push_escaped, push_frames_uri,
    push_hexadecimal, push_key_uri, push_line, push_media_uri, push_quoted, push_resolution,
    push_seconds, push_segment_uri,
};
use std::alloc::{AllocError, Global};
use std::process::Abort;

/// What is appended.
enum Given {
    Decimal(u128),
    Seconds(u128),
    Escaped(&'static str),
    SegmentUri(&'static str, u64),
    KeyUri(&'static str, u64),
    MediaUri(&'static str),
    FramesUri(&'static str),
    Line(&'static str),
    Attributes(&'static [Attribute<'static>]),
    Quoted(&'static str),
    Hexadecimal([u8; 16]),
    Resolution(u64, u64),
}

use Given::{
    Attributes, Decimal, Escaped, FramesUri, Hexadecimal, KeyUri, Line, MediaUri, Quoted,
    Resolution, Seconds, SegmentUri,
};

fn push(out: &mut String, given: &Given) -> Result<(), AllocError> {
    match given {
        Decimal(number) => push_decimal(out, *number),
        Seconds(micros) => push_seconds(out, *micros),
        Escaped(name) => push_escaped(out, name),
        SegmentUri(name, number) => push_segment_uri(out, name, *number),
        KeyUri(name, index) => push_key_uri(out, name, *index),
        MediaUri(name) => push_media_uri(out, name),
        FramesUri(name) => push_frames_uri(out, name),
        Line(line) => push_line(out, line),
        Attributes(attributes) => push_attribute_list(out, attributes),
        Quoted(text) => push_quoted(out, text),
        Hexadecimal(bytes) => push_hexadecimal(out, bytes),
        Resolution(width, height) => push_resolution(out, *width, *height),
    }
}

/// What is appended, one behind another, and the text that comes of it.
type Case = (&'static [Given], &'static str);

fn push_all(out: &mut String, all: &[Given]) -> Result<(), AllocError> {
    for given in all {
        push(out, given)?;
    }
    Ok(())
}

fn assert_texts(rt: &impl Abort, alloc: Global, cases: &[Case]) -> Result<(), AllocError> {
    for (all, wanted) in cases {
        let mut out = String::new(alloc);
        push_all(&mut out, all)?;
        assert_text(rt, &out, wanted);
    }
    Ok(())
}

const DECIMALS: [Case; 5] = [
    (&[Decimal(0)], "0"),
    (&[Decimal(7)], "7"),
    (&[Decimal(10)], "10"),
    (&[Decimal(4_294_967_295)], "4294967295"),
    (
        &[Decimal(340_282_366_920_938_463_463_374_607_431_768_211_455)],
        "340282366920938463463374607431768211455",
    ),
];

#[test]
fn decimal_numbers(rt: HostRuntime) -> Result<(), AllocError> {
    assert_texts(&rt, rt.alloc(), &DECIMALS)
}

const SECONDS: [Case; 7] = [
    (&[Seconds(0)], "0.000000"),
    (&[Seconds(1)], "0.000001"),
    (&[Seconds(40_000)], "0.040000"),
    (&[Seconds(3_040_000)], "3.040000"),
    (&[Seconds(6_499_989)], "6.499989"),
    (&[Seconds(10_000_000)], "10.000000"),
    (&[Seconds(3_600_123_456)], "3600.123456"),
];

#[test]
fn seconds_of_micros(rt: HostRuntime) -> Result<(), AllocError> {
    assert_texts(&rt, rt.alloc(), &SECONDS)
}

const ESCAPED: [Case; 6] = [
    (&[Escaped("hd 1")], "hd%201"),
    (&[Escaped("AZaz09-_~")], "AZaz09-_~"),
    (&[Escaped("é")], "%C3%A9"),
    (&[Escaped("%")], "%25"),
    (&[Escaped("a+b\"|")], "a%2Bb%22%7C"),
    (&[Escaped("@[`{")], "%40%5B%60%7B"),
];

#[test]
fn escaped_names(rt: HostRuntime) -> Result<(), AllocError> {
    assert_texts(&rt, rt.alloc(), &ESCAPED)
}

const URIS: [Case; 1] = [(
    &[
        SegmentUri("hd 1", 0),
        Line(""),
        KeyUri("v", 4095),
        Line(""),
        MediaUri("hd 1"),
        Line(""),
        FramesUri("v"),
        Line(","),
    ],
    "hd%201.0.ts\nv.4095.key\nhd%201.m3u8\nv.iframes.m3u8,\n",
)];

#[test]
fn uris(rt: HostRuntime) -> Result<(), AllocError> {
    assert_texts(&rt, rt.alloc(), &URIS)
}

/// An attribute of each kind.
const LIST: &[Attribute<'static>] = &[
    Attribute {
        name: "METHOD",
        value: Value::Enumerated("AES-128"),
    },
    Attribute {
        name: "URI",
        value: Value::Quoted("v.0.key"),
    },
    Attribute {
        name: "IV",
        value: Value::Hexadecimal(&[0, 0, 0, 0, 0, 0, 0, 0, 0, 0, 0, 0, 0, 0, 0xAB, 0x0C]),
    },
    Attribute {
        name: "BANDWIDTH",
        value: Value::Decimal(2022),
    },
    Attribute {
        name: "RESOLUTION",
        value: Value::Resolution(640, 360),
    },
];

const ATTRIBUTES: [Case; 3] = [
    (&[Line("#:"), Attributes(&[])], "#:\n"),
    (
        &[Line("#:"), Attributes(&[]), Attributes(LIST)],
        "#:\nMETHOD=AES-128,URI=\"v.0.key\",IV=0x0000000000000000000000000000AB0C,BANDWIDTH=2022,RESOLUTION=640x360",
    ),
    (
        &[
            Quoted("avc1.4d401e,mp4a.40.2"),
            Hexadecimal([0xF0; 16]),
            Resolution(16_384, 1),
        ],
        "\"avc1.4d401e,mp4a.40.2\"0xF0F0F0F0F0F0F0F0F0F0F0F0F0F0F0F016384x1",
    ),
];

#[test]
fn attribute_lists_and_single_values(rt: HostRuntime) -> Result<(), AllocError> {
    assert_texts(&rt, rt.alloc(), &ATTRIBUTES)
}
