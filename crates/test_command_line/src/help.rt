use super::words::{VERSION, told};
use crate::asserts::assert_same;
use command_line::version;
use commands::{
    DEFAULT_FRAME, DEFAULT_GAP, DEFAULT_MOST, DEFAULT_NAME, DEFAULT_PERIOD, DEFAULT_QUEUE,
    DEFAULT_TARGET, DEFAULT_WINDOW, DEFAULT_WORKERS, MOST_AHEAD, MOST_STALL,
};
use limits::{
    LEAST, MOST_FRAME, MOST_GAP, MOST_KEYS, MOST_PACKETS, MOST_PIXELS, MOST_PROGRAM, MOST_QUEUE,
    MOST_TARGET, MOST_WINDOW, MOST_WORKERS,
};
use std::alloc::Global;
use std::process::Abort;
use std::test::Fail;

/// What help tells of an option of a command.
fn shown(alloc: Global, command: &str, option: &str) -> Result<String, Fail> {
    let help = told(alloc, &["tshls", command, "--help"])?.0;
    for line in help.as_str().lines() {
        if line.trim_start().starts_with(option) {
            return Ok(String::from_str(alloc, line)?);
        }
    }
    Err(Fail::from("no such option"))
}

/// Stops a test where help doesn't tell this range of an option of a command.
fn check_range(
    rt: &impl Abort,
    alloc: Global,
    command: &str,
    option: &str,
    most: u64,
) -> Result<(), Fail> {
    let range = format!(in alloc; "{LEAST} to {most}")?;
    let line = shown(alloc, command, option)?;
    let line = line.as_str();
    assert_same(
        rt,
        (option, line, most),
        line.contains(range.as_str()),
        true,
    );
    Ok(())
}

/// Stops a test where help doesn't tell this default of an option of a command at the end of its line.
fn check_default(
    rt: &impl Abort,
    alloc: Global,
    command: &str,
    option: &str,
    value: u64,
) -> Result<(), Fail> {
    let text = format!(in alloc; "[default: {value}]")?;
    check_end(rt, alloc, command, option, text.as_str())
}

/// Stops a test where help tells of an option of a command something else, at the end of its line, than what stands where it is
/// absent.
fn check_end(
    rt: &impl Abort,
    alloc: Global,
    command: &str,
    option: &str,
    text: &str,
) -> Result<(), Fail> {
    let line = shown(alloc, command, option)?;
    let line = line.as_str();
    assert_same(rt, (option, line, text), line.ends_with(text), true);
    Ok(())
}

#[test]
fn ranges(rt: HostRuntime) -> Result<(), Fail> {
    let table = [
        ("--target <SECONDS>", MOST_TARGET),
        ("--window <SEGMENTS>", MOST_WINDOW),
        ("--frame <TICKS>", MOST_FRAME),
        ("--gap <TICKS>", MOST_GAP),
        ("--most <PACKETS>", MOST_PACKETS),
        ("--program <NUMBER>", MOST_PROGRAM),
        ("--size <WIDTHxHEIGHT>", MOST_PIXELS),
        ("--keys <KEY[+KEY..]>", MOST_KEYS),
    ];
    for (option, most) in table {
        check_range(&rt, rt.alloc(), "one", option, most)?;
    }
    Ok(())
}

#[test]
fn defaults(rt: HostRuntime) -> Result<(), Fail> {
    let table = [
        ("--target", DEFAULT_TARGET),
        ("--window", DEFAULT_WINDOW),
        ("--frame", DEFAULT_FRAME),
        ("--gap", DEFAULT_GAP),
        ("--most", DEFAULT_MOST),
        ("--period", DEFAULT_PERIOD),
    ];
    for (option, value) in table {
        check_default(&rt, rt.alloc(), "one", option, value)?;
    }
    Ok(())
}

#[test]
fn what_is_absent_that_is_no_number(rt: HostRuntime) -> Result<(), Fail> {
    let name = format!(in rt.alloc(); "[default: {DEFAULT_NAME}]")?;
    for (option, text) in [
        ("--name", name.as_str()),
        ("--segment", "[default: the target]"),
    ] {
        check_end(&rt, rt.alloc(), "one", option, text)?;
    }
    Ok(())
}

#[test]
fn of_a_pool(rt: HostRuntime) -> Result<(), Fail> {
    let table = [
        ("--workers <NUMBER>", MOST_WORKERS),
        ("--queue <SEGMENTS>", MOST_QUEUE),
        ("--batch <SEGMENTS>", MOST_QUEUE),
        ("--stall <SECONDS>", MOST_STALL),
        ("--ahead <MIB>", MOST_AHEAD),
        ("--target <SECONDS>", MOST_TARGET),
    ];
    for (option, most) in table {
        check_range(&rt, rt.alloc(), "pack", option, most)?;
    }
    for (option, value) in [("--workers", DEFAULT_WORKERS), ("--queue", DEFAULT_QUEUE)] {
        check_default(&rt, rt.alloc(), "pack", option, value)?;
    }
    Ok(())
}

/// Whether a command's help has this text, and ends with status 2.
fn has_text(alloc: Global, command: &str, text: &str) -> Result<bool, Fail> {
    let help = told(alloc, &["tshls", command, "--help"])?;
    Ok(help.0.as_str().contains(text) && help.1 == 2)
}

#[test]
fn each_command_tells_its_faults(rt: HostRuntime) -> Result<(), Fail> {
    let table = [
        ("seal", "\n  ReadLimit  "),
        ("open", "\n  BadPadding  "),
        ("one", "\n  LongSegment  "),
        ("pack", "\n  BadEntry N  "),
        ("check", "\n  NotProfile  "),
    ];
    for (command, text) in table {
        let has = has_text(rt.alloc(), command, text)?;
        assert_same(&rt, command, has, true);
    }
    Ok(())
}

#[test]
fn the_version(rt: HostRuntime) -> Result<(), Fail> {
    let version = version(rt.alloc(), "x86-64-v3")?;
    assert_same(&rt, "the version", version.as_str(), VERSION);
    let told = told(rt.alloc(), &["tshls", "--version"])?;
    assert_same(
        &rt,
        "what is printed",
        (told.0.as_str(), told.1),
        ("tshls 0.1.0 x86-64-v3\n", 2),
    );
    Ok(())
}
