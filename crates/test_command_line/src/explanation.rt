use super::words::{KeyFiles, VERSION};
use crate::asserts::assert_same;
use command_line::{Fault, explain, line};
use commands::LadderPackingFault;
use pipeline::PackFault;
use read_ahead::InputFault;
use std::alloc::{AllocError, Global};
use std::process::Abort;
use std::test::Fail;

const KEY: &str = "000102030405060708090a0b0c0d0e0f";

const LOW: &str = "low:avc1:640x360:000102030405060708090a0b0c0d0e0f:/in/low.ts";

const HIGH: &str = "high:avc1:1280x720:000102030405060708090a0b0c0d0e0f:/in/high.ts";

/// Stops a test where the words are explained otherwise, by the fault that they are refused with or, where they aren't, by this one.
fn check(
    rt: &impl Abort,
    alloc: Global,
    words: &[&str],
    fault: Fault,
    text: &str,
) -> Result<(), AllocError> {
    let fault = match line(alloc, &KeyFiles, words, VERSION) {
        Ok(_) => fault,
        Err(refused) => refused,
    };
    let told = explain(alloc, words, &fault)?;
    let told = match &told {
        Some(told) => told.as_str(),
        None => "",
    };
    assert_same(rt, words, told, text);
    Ok(())
}

fn of_packing(fault: PackFault) -> Fault {
    Fault::LadderPacking(LadderPackingFault::Packing(fault))
}

/// Options, numbers outside their ranges, and what is said of them.
const RANGES: [(&str, &str, &str); 16] = [
    (
        "--target",
        "3601",
        "  --target is outside its range, 1 to 3600 seconds\n",
    ),
    (
        "--segment",
        "7",
        "  --segment is outside its range, 1 second to the target\n",
    ),
    (
        "--window",
        "0",
        "  --window is outside its range, 1 to 10000 segments\n",
    ),
    (
        "--frame",
        "900001",
        "  --frame is outside its range, 1 to 900000 ticks\n",
    ),
    (
        "--gap",
        "4294967296",
        "  --gap is outside its range, 1 to 4294967295 ticks\n",
    ),
    (
        "--most",
        "1000001",
        "  --most is outside its range, 1 to 1000000 packets\n",
    ),
    (
        "--program",
        "65536",
        "  --program is outside its range, 1 to 65535\n",
    ),
    (
        "--workers",
        "65",
        "  --workers is outside its range, 1 to 64\n",
    ),
    (
        "--queue",
        "257",
        "  --queue is outside its range, 1 to 256 segments\n",
    ),
    (
        "--batch",
        "0",
        "  --batch is outside its range, 1 to 256 segments\n",
    ),
    (
        "--stall",
        "0",
        "  --stall is outside its range, 1 to 86400 seconds\n",
    ),
    (
        "--stall",
        "86401",
        "  --stall is outside its range, 1 to 86400 seconds\n",
    ),
    (
        "--ahead",
        "0",
        "  --ahead is outside its range, 1 to 65536 MiB\n",
    ),
    (
        "--ahead",
        "65537",
        "  --ahead is outside its range, 1 to 65536 MiB\n",
    ),
    (
        "--period",
        "0",
        "  --period is 0: a key seals at least one segment\n",
    ),
    ("--salt", "00", "  --salt is not 32 hex digits\n"),
];

#[test]
fn numbers_out_of_their_ranges(rt: HostRuntime) -> Result<(), Fail> {
    for (option, value, text) in RANGES {
        let words = ["tshls", "pack", "--out", "hls", option, value, LOW];
        check(&rt, rt.alloc(), &words, Fault::NotUtf8, text)?;
    }
    Ok(())
}

#[test]
fn entries_that_cannot_be_listed(rt: HostRuntime) -> Result<(), Fail> {
    let table = [
        (
            "high:avc1",
            "  entry 2 has fewer than four colons: NAME:CODECS:WxH:KEY[+KEY..]:PATH\n",
        ),
        (
            "high:avc1:12:000102030405060708090a0b0c0d0e0f:x",
            "  entry 2, high: its size is not WIDTHxHEIGHT, or a key is not 32 hex digits\n",
        ),
        (LOW, "  entry 2 has the name of an earlier one, low\n"),
        (
            "master:avc1:1x1:000102030405060708090a0b0c0d0e0f:x",
            "  entry 2: the name is not 1 to 64 bytes without control bytes, '/', '.' and ':', or it is 'master'\n",
        ),
        (
            "high::1x1:000102030405060708090a0b0c0d0e0f:x",
            "  entry 2: the codecs are not 1 to 128 printable ASCII bytes without a quotation mark\n",
        ),
        (
            "high:avc1:1x16385:000102030405060708090a0b0c0d0e0f:x",
            "  entry 2: a side of the size is outside 1 to 16384 pixels\n",
        ),
    ];
    for (entry, text) in table {
        let words = ["tshls", "pack", "--out", "hls", LOW, entry];
        let fault = of_packing(PackFault::Settings);
        check(&rt, rt.alloc(), &words, fault, text)?;
    }
    Ok(())
}

#[test]
fn faults_of_a_run(rt: HostRuntime) -> Result<(), Fail> {
    let table = [
        (
            PackFault::Read(1),
            "  high, from /in/high.ts: a read failed\n",
        ),
        (
            PackFault::NoStart(0),
            "  low, from /in/low.ts: no key frame to begin at: one with random_access_indicator set, a PTS, and not scrambled\n",
        ),
        (
            PackFault::LongSegment(1, 7),
            "  high, from /in/high.ts: segment 7 would last longer than --target: if the GOP doesn't divide it, set --segment to the target minus one GOP\n",
        ),
        (
            PackFault::BigSegment(0, 3),
            "  low, from /in/low.ts: segment 3 has more packets than --most\n",
        ),
        (
            PackFault::Outlet,
            "  the output can't be written: missing, not writable, closed, or full\n",
        ),
        (PackFault::NoMemory, "  out of memory\n"),
    ];
    let words = ["tshls", "pack", "--out", "hls", LOW, HIGH];
    for (fault, text) in table {
        check(&rt, rt.alloc(), &words, of_packing(fault), text)?;
    }
    Ok(())
}

#[test]
fn faults_of_other_commands(rt: HostRuntime) -> Result<(), Fail> {
    let one = [
        "tshls", "one", "--codecs", "c", "--size", "1x1", "--keys", KEY, "--name", "a/b",
    ];
    let name =
        "  the name is not 1 to 64 bytes without control bytes, '/', '.' and ':', or it is 'master'\n";
    let seal = ["tshls", "seal", "--key", KEY];
    let both = "  exactly one of --seq and --iv is wanted, and --iv as 32 hex digits\n";
    let pack = ["tshls", "pack", "--out", "hls", LOW];
    let path = "  the path of an entry can't be opened; nothing was written\n";
    let table: [(&[&str], Fault, &str); 4] = [
        (&one, Fault::Packing(PackFault::Settings), name),
        (&seal, Fault::NotUtf8, both),
        (&pack, Fault::Unopened(InputFault::Unread), path),
        (&["tshls"], Fault::NotUtf8, ""),
    ];
    for (words, fault, text) in table {
        check(&rt, rt.alloc(), words, fault, text)?;
    }
    Ok(())
}
