use super::words::{KEY, KeyFiles, VERSION};
use crate::asserts::assert_same;
use command_line::{Fault, Job, StreamJob, line};
use pipeline::{Kind, Settings};
use std::alloc::{AllocError, Global};
use std::process::Abort;
use std::test::Fail;

/// The settings of a command line that ends with these words.
fn settings<'a>(alloc: Global, more: &[&'a str]) -> Result<Settings, Fault> {
    let mut words: Vec<&'a str> = Vec::new(alloc);
    words.extend_from_slice(&["tshls", "one", "--codecs", "avc1.4d401e"])?;
    words.extend_from_slice(more)?;
    one_of(line(alloc, &KeyFiles, words.as_slice(), VERSION)?)
}

/// The settings of the command `one`.
fn one_of(job: Job<'_>) -> Result<Settings, Fault> {
    match job {
        Job::Stream(StreamJob::One(settings)) => Ok(settings),
        job => {
            drop(job);
            Err(Fault::NoMemory)
        }
    }
}

/// The line that a command line with these words prints, and the status that it ends with.
fn told(alloc: Global, more: &[&str]) -> Result<(String, u8), Fail> {
    match settings(alloc, more) {
        Ok(_) => Ok((String::new(alloc), 0)),
        Err(fault) => Ok((format!(in alloc; "{fault}")?, fault.status())),
    }
}

/// The numbers of settings: of the window, and of how a stream is cut; and the program.
fn numbers(settings: &Settings) -> ([u64; 6], Option<u16>) {
    let cut = &settings.cut;
    (
        [
            settings.window,
            cut.target,
            cut.segment,
            cut.frame,
            cut.gap,
            cut.most,
        ],
        cut.program,
    )
}

/// The name, the codecs and the size of the one rendition of settings, if there is one.
fn rendition(settings: &Settings) -> Option<(&str, &str, u64, u64)> {
    let [one] = settings.renditions.as_slice() else {
        return None;
    };
    Some((
        one.name.as_str(),
        one.codecs.as_str(),
        one.width,
        one.height,
    ))
}

/// The index of the key of segment 1, the first byte of the key of segment 2, whether the keys hold the salt of the rendition,
/// and the last bytes of the vectors of segments 0 and 1.
fn keys(settings: &Settings) -> Option<(u64, u8, bool, [u8; 2])> {
    let [one] = settings.renditions.as_slice() else {
        return None;
    };
    Some((
        one.keys.index(1),
        one.keys.key(2)[0],
        one.keys.salt() == one.salt,
        [one.keys.vector(0)[15], one.keys.vector(1)[15]],
    ))
}

#[test]
fn defaults(rt: HostRuntime) -> Result<(), Fail> {
    let words = ["--size", "640x360", "--keys", KEY];
    let settings = settings(rt.alloc(), &words).map_err(|_| "line")?;
    let is_live = settings.kind == Kind::Live;
    assert_same(
        &rt,
        "defaults",
        (
            rendition(&settings),
            numbers(&settings),
            keys(&settings),
            is_live,
        ),
        (
            Some(("v", "avc1.4d401e", 640, 360)),
            ([5, 6, 540_000, 3600, 900_000, 1_000_000], None),
            Some((0, 0, true, [0, 1])),
            true,
        ),
    );
    Ok(())
}

/// An option for each thing that can be said.
const OPTIONS: [&str; 22] = [
    "--size",
    "+1x0007",
    "--keys",
    "000102030405060708090a0b0c0d0e0f+100102030405060708090A0B0C0D0E0F",
    "--name",
    "hd",
    "--target",
    "8",
    "--segment",
    "2",
    "--window",
    "3",
    "--frame",
    "4",
    "--gap",
    "5",
    "--most",
    "6",
    "--period",
    "2",
    "--program",
    "65535",
];

#[test]
fn settings_of_options(rt: HostRuntime) -> Result<(), Fail> {
    let settings = settings(rt.alloc(), &OPTIONS).map_err(|_| "line")?;
    assert_same(
        &rt,
        "settings of options",
        (rendition(&settings), numbers(&settings), keys(&settings)),
        (
            Some(("hd", "avc1.4d401e", 1, 7)),
            ([3, 8, 180_000, 4, 5, 6], Some(65_535)),
            Some((0, 0x10, true, [0, 1])),
        ),
    );
    Ok(())
}

#[test]
fn a_salt_and_an_event(rt: HostRuntime) -> Result<(), Fail> {
    let salt = "f0f1f2f3f4f5f6f7f8f9FAFBFCFDFEFF";
    let words = ["--size", "1x1", "--keys", KEY, "--salt", salt, "--event"];
    let settings = settings(rt.alloc(), &words).map_err(|_| "line")?;
    let is_event = settings.kind == Kind::Event;
    assert_same(
        &rt,
        "a salt and an event",
        (keys(&settings), is_event),
        (Some((0, 0, true, [0xFF, 0xFE])), true),
    );
    Ok(())
}

#[test]
fn a_target_gives_the_segment(rt: HostRuntime) -> Result<(), Fail> {
    let words = ["--size", "1x1", "--keys", KEY, "--target", "8"];
    let settings = settings(rt.alloc(), &words).map_err(|_| "line")?;
    assert_same(
        &rt,
        "a target gives the segment",
        settings.cut.segment,
        720_000,
    );
    Ok(())
}

/// A size, keys, more options, and what they print, with the status.
type Refusal = (
    &'static str,
    &'static str,
    &'static [&'static str],
    &'static str,
    u8,
);

const REFUSALS: [Refusal; 13] = [
    ("1X1", KEY, &["--salt", "00"], "tshls: BadSize\n", 2),
    ("1x1", KEY, &["--salt", "00"], "tshls: BadVector\n", 2),
    ("1x1", KEY, &["--salt", ""], "tshls: BadVector\n", 2),
    (
        "1x1",
        KEY,
        &["--salt", "0", "--period", "0"],
        "tshls: BadVector\n",
        2,
    ),
    ("1x1", "00", &[], "tshls: BadKey\n", 2),
    ("1X1", "00", &[], "tshls: BadKey\n", 2),
    ("1X1", KEY, &[], "tshls: BadSize\n", 2),
    ("1x1x1", KEY, &[], "tshls: BadSize\n", 2),
    ("1X1", KEY, &["--period", "0"], "tshls: BadSize\n", 2),
    ("1x1", KEY, &["--period", "0"], "tshls: ZeroPeriod\n", 1),
    (
        "1x1",
        KEY,
        &["--period", "0", "--program", "65536"],
        "tshls: ZeroPeriod\n",
        1,
    ),
    ("1x1", KEY, &["--program", "65536"], "tshls: Settings\n", 1),
    (
        "1x1",
        KEY,
        &["--segment", "204963823041218"],
        "tshls: Settings\n",
        1,
    ),
];

/// Stops a test where a command line with these words prints otherwise, or ends with another status.
fn check(
    rt: &impl Abort,
    alloc: Global,
    more: &[&str],
    text: &str,
    status: u8,
) -> Result<(), Fail> {
    let told = told(alloc, more)?;
    assert_same(rt, more, (told.0.as_str(), told.1), (text, status));
    Ok(())
}

/// The same of a size, keys and more options.
fn check_refusal(rt: &impl Abort, alloc: Global, refusal: Refusal) -> Result<(), Fail> {
    let (size, keys, more, text, status) = refusal;
    let mut words: Vec<&'static str> = Vec::new(alloc);
    words.extend_from_slice(&["--size", size, "--keys", keys])?;
    words.extend_from_slice(more)?;
    check(rt, alloc, words.as_slice(), text, status)
}

#[test]
fn refusals(rt: HostRuntime) -> Result<(), Fail> {
    for refusal in REFUSALS {
        check_refusal(&rt, rt.alloc(), refusal)?;
    }
    Ok(())
}

/// Appends so many keys.
fn push_keys(keys: &mut String, count: usize) -> Result<(), AllocError> {
    keys.push_str(KEY)?;
    for _ in 1..count {
        keys.push_str("+")?;
        keys.push_str(KEY)?;
    }
    Ok(())
}

/// Stops a test where so many keys, with this period, print otherwise, or end with another status.
fn check_count(
    rt: &impl Abort,
    alloc: Global,
    count: usize,
    period: &str,
    text: &str,
    status: u8,
) -> Result<(), Fail> {
    let mut keys = String::new(alloc);
    push_keys(&mut keys, count)?;
    let words = ["--size", "1x1", "--keys", keys.as_str(), "--period", period];
    let told = told(alloc, &words)?;
    assert_same(
        rt,
        (count, "keys"),
        (told.0.as_str(), told.1),
        (text, status),
    );
    Ok(())
}

#[test]
fn too_many_keys(rt: HostRuntime) -> Result<(), Fail> {
    check_count(&rt, rt.alloc(), 4096, "1", "", 0)?;
    check_count(&rt, rt.alloc(), 4097, "0", "tshls: TooMany\n", 1)
}
