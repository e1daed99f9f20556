ghost use Rattle.std.specs.Prelude.{◌≡◌, IfOk, map};
ghost use Rattle.std.specs.String.{string_bytes};

use crate::asserts::assert_same;
use crate::fixtures::assert_text;
use crate::name_tests::{LONGER_CODECS, LONGEST_CODECS};
use master_playlist::{MasterFault, Variant, master_text};
use std::alloc::{AllocError, Global};
use std::process::Abort;

/// After the last segment of the stream of two key frames.
const LAST: &str = "#EXTM3U
#EXT-X-VERSION:4
#EXT-X-STREAM-INF:BANDWIDTH=2022,AVERAGE-BANDWIDTH=1360,CODECS=\"avc1.4d401e\",RESOLUTION=640x360
v.m3u8
#EXT-X-I-FRAME-STREAM-INF:BANDWIDTH=495,AVERAGE-BANDWIDTH=333,CODECS=\"avc1.4d401e\",RESOLUTION=640x360,URI=\"v.iframes.m3u8\"
";

/// After its first segment.
const FIRST: &str = "#EXTM3U
#EXT-X-VERSION:4
#EXT-X-STREAM-INF:BANDWIDTH=1024,AVERAGE-BANDWIDTH=1024,CODECS=\"avc1.4d401e\",RESOLUTION=640x360
v.m3u8
#EXT-X-I-FRAME-STREAM-INF:BANDWIDTH=251,AVERAGE-BANDWIDTH=251,CODECS=\"avc1.4d401e\",RESOLUTION=640x360,URI=\"v.iframes.m3u8\"
";

/// Two renditions.
const LADDER: &str = "#EXTM3U
#EXT-X-VERSION:4
#EXT-X-STREAM-INF:BANDWIDTH=2022,AVERAGE-BANDWIDTH=1360,CODECS=\"avc1.4d401e\",RESOLUTION=640x360
a.m3u8
#EXT-X-STREAM-INF:BANDWIDTH=2022,AVERAGE-BANDWIDTH=1360,CODECS=\"avc1.4d401e\",RESOLUTION=640x360
hd%201.m3u8
#EXT-X-I-FRAME-STREAM-INF:BANDWIDTH=495,AVERAGE-BANDWIDTH=333,CODECS=\"avc1.4d401e\",RESOLUTION=640x360,URI=\"a.iframes.m3u8\"
#EXT-X-I-FRAME-STREAM-INF:BANDWIDTH=495,AVERAGE-BANDWIDTH=333,CODECS=\"avc1.4d401e\",RESOLUTION=640x360,URI=\"hd%201.iframes.m3u8\"
";

/// The peak and the average, and those of the I-frames.
type Rates = (u64, u64, u64, u64);

/// At the end of the stream of two key frames.
const RATES: Rates = (2022, 1360, 495, 333);

fn variant<'a>(name: &'a str, codecs: &'a str, width: u64, height: u64, rates: Rates) -> Variant<'a>
    ensures { result.name ≡ name.now }
{
    let (peak, average, frame_peak, frame_average) = rates;
    Variant {
        name,
        codecs,
        width,
        height,
        peak,
        average,
        frame_peak,
        frame_average,
    }
}

/// A rendition's name, its codecs, its width and its height.
type Listed = (&'static str, &'static str, u64, u64);

const CODECS: &str = "avc1.4d401e";

const A: Listed = ("a", CODECS, 640, 360);

const B: Listed = ("b", CODECS, 640, 360);

fn variants_of(
    alloc: Global,
    listed: &[Listed],
    rates: Rates,
) -> Result<Vec<Variant<'static>>, AllocError> {
    let mut variants = Vec::new(alloc);
    for (name, codecs, width, height) in listed {
        variants.push(variant(name, codecs, *width, *height, rates))?;
    }
    Ok(variants)
}

/// The master playlist of renditions.
fn master_of(alloc: Global, listed: &[Listed], rates: Rates) -> Result<String, MasterFault> {
    let variants = variants_of(alloc, listed, rates)?;
    master_text(alloc, &variants)
}

const TEXTS: [(&[Listed], Rates, &str); 4] = [
    (&[], RATES, ""),
    (&[("v", CODECS, 640, 360)], (1024, 1024, 251, 251), FIRST),
    (&[("v", CODECS, 640, 360)], RATES, LAST),
    (&[A, ("hd 1", CODECS, 640, 360)], RATES, LADDER),
];

#[test]
fn texts_of_renditions(rt: HostRuntime) -> Result<(), MasterFault> {
    for (listed, rates, wanted) in TEXTS {
        assert_text(&rt, &master_of(rt.alloc(), listed, rates)?, wanted);
    }
    Ok(())
}

/// A rendition with texts of its own.
#[derive(Drop)]
struct Rendition {
    name: String,
    codecs: String,
}

fn owned(alloc: Global, name: &str) -> Result<Rendition, AllocError> {
    let name = String::from_str(alloc, name)?;
    Ok(Rendition {
        name,
        codecs: String::from_str(alloc, "avc1.4d401e")?,
    })
}

/// Variants with the texts of renditions, in their order.
fn variants<'a>(alloc: Global, renditions: &'a [Rendition]) -> Result<Vec<Variant<'a>>, AllocError>
    ensures { IfOk result
        (λ variants. map (λ v. v.name) variants.items ≡ map (λ r. string_bytes r.name) renditions.now) }
{
    let mut variants = Vec::new(alloc);
    for rendition in renditions {
        variants.push(variant(&rendition.name, &rendition.codecs, 640, 360, RATES))?;
    }
    Ok(variants)
}

fn ladder(alloc: Global) -> Result<Vec<Rendition>, AllocError> {
    let mut renditions = Vec::new(alloc);
    for name in ["a", "hd 1"] {
        renditions.push(owned(alloc, name)?)?;
    }
    Ok(renditions)
}

/// Looks at the master playlist of the ladder.
fn assert_ladder(
    rt: &impl Abort,
    alloc: Global,
    renditions: &[Rendition],
) -> Result<(), MasterFault> {
    let variants = variants(alloc, renditions)?;
    assert_text(rt, &master_text(alloc, &variants)?, LADDER);
    Ok(())
}

#[test]
fn renditions_with_texts_of_their_own(rt: HostRuntime) -> Result<(), MasterFault> {
    let renditions = ladder(rt.alloc())?;
    assert_ladder(&rt, rt.alloc(), &renditions)
}

/// Renditions, and why they have no master playlist, if they have none.
type Case = (&'static [Listed], Option<MasterFault>);

fn are_told(rt: &impl Abort, alloc: Global, cases: &[Case]) {
    for (listed, wanted) in cases {
        let fault = master_of(alloc, listed, RATES).err();
        assert_same(rt, *listed, fault, *wanted);
    }
}

const NAMES: [Case; 8] = [
    (&[A, ("", CODECS, 640, 360)], Some(MasterFault::BadName)),
    (&[A, ("a.b", CODECS, 640, 360)], Some(MasterFault::BadName)),
    (&[A, ("a/b", CODECS, 640, 360)], Some(MasterFault::BadName)),
    (&[A, ("a:b", CODECS, 640, 360)], Some(MasterFault::BadName)),
    (
        &[A, ("master", CODECS, 640, 360)],
        Some(MasterFault::BadName),
    ),
    (&[A, B, A], Some(MasterFault::SameName)),
    (&[A, B, B], Some(MasterFault::SameName)),
    (&[A, B, ("A", CODECS, 640, 360)], None),
];

#[test]
fn names(rt: HostRuntime) {
    are_told(&rt, rt.alloc(), &NAMES);
}

const OF_CODECS: [Case; 6] = [
    (&[("v", LONGEST_CODECS, 640, 360)], None),
    (
        &[("v", LONGER_CODECS, 640, 360)],
        Some(MasterFault::BadCodecs),
    ),
    (&[("v", "", 640, 360)], Some(MasterFault::BadCodecs)),
    (&[("v", "avc1\"", 640, 360)], Some(MasterFault::BadCodecs)),
    (&[("v", "avc1\n", 640, 360)], Some(MasterFault::BadCodecs)),
    (&[("v", "é", 640, 360)], Some(MasterFault::BadCodecs)),
];

#[test]
fn codecs(rt: HostRuntime) {
    are_told(&rt, rt.alloc(), &OF_CODECS);
}

const RESOLUTIONS: [Case; 6] = [
    (&[("v", CODECS, 0, 360)], Some(MasterFault::BadResolution)),
    (&[("v", CODECS, 640, 0)], Some(MasterFault::BadResolution)),
    (&[("v", CODECS, 1, 1)], None),
    (&[("v", CODECS, 16_384, 16_384)], None),
    (
        &[("v", CODECS, 16_385, 360)],
        Some(MasterFault::BadResolution),
    ),
    (
        &[("v", CODECS, 640, 16_385)],
        Some(MasterFault::BadResolution),
    ),
];

#[test]
fn resolutions(rt: HostRuntime) {
    are_told(&rt, rt.alloc(), &RESOLUTIONS);
}

const SEVERAL: [Case; 3] = [
    (
        &[("a", "avc1", 0, 1), ("b", "", 1, 1)],
        Some(MasterFault::BadCodecs),
    ),
    (&[("c", "", 1, 1), A, A], Some(MasterFault::SameName)),
    (
        &[("a", "", 0, 1), ("a", "", 0, 1), ("a.b", CODECS, 640, 360)],
        Some(MasterFault::BadName),
    ),
];

#[test]
fn the_least_of_several(rt: HostRuntime) {
    are_told(&rt, rt.alloc(), &SEVERAL);
}
