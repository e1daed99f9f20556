use crate::asserts::assert_same;
use crate::fixtures::{KEY, NO_FILES, no_numbers};
use commands::{
    LadderFault, LadderOptions, LadderWords, NumberWords, PoolWords, read_ladder_options,
};
use limits::MOST_KEYS;
use packing::summary;
use pipeline::{Kind, Rendition, Report, Settings};
use std::alloc::{AllocError, Global};
use std::test::Fail;

const A: &str = "a:avc1.4d401e:640x360:000102030405060708090a0b0c0d0e0f:/in/a:1.ts";

const B: &str = "b:avc1.64001f:1280x720:000102030405060708090a0b0c0d0e0f:b.ts";

const NO_SIZE: &str = "c:avc1.4d401e:640:000102030405060708090a0b0c0d0e0f:c.ts";

const NO_PIXELS: &str = "c:avc1.4d401e:0x360:000102030405060708090a0b0c0d0e0f:c.ts";

/// Entries with a salt or none.
fn words<'a>(entries: &'a [&'a str], salt: Option<&'a str>) -> LadderWords<'a, 'a> {
    LadderWords {
        entries,
        salt,
        event: false,
    }
}

/// None of a pool's numbers.
fn no_pool() -> PoolWords {
    PoolWords {
        workers: None,
        queue: None,
        batch: None,
        stall: None,
        ahead: None,
    }
}

/// No numbers but this period.
fn period(period: u64) -> NumberWords {
    let mut numbers = no_numbers();
    numbers.period = Some(period);
    numbers
}

/// The options of the entries b and a, in this order.
fn two(alloc: Global) -> Result<LadderOptions<'static>, Fail> {
    let words = LadderWords {
        entries: &[B, A],
        salt: Some(KEY),
        event: true,
    };
    Ok(read_ladder_options(alloc, &NO_FILES, words, no_numbers(), no_pool()).map_err(
        |_| "options",
    )?)
}

/// A rendition's name, its size, and whether it has a salt.
fn facts(rendition: &Rendition) -> (&str, u64, u64, bool) {
    (
        rendition.name.as_str(),
        rendition.width,
        rendition.height,
        rendition.salt.is_some(),
    )
}

/// Whether there are two renditions, b and a, and these are the paths of their inputs.
fn are_two(options: &LadderOptions) -> bool {
    let [b, a] = options.settings.renditions.as_slice() else {
        return false;
    };
    facts(b) == ("b", 1280, 720, true)
        && facts(a) == ("a", 640, 360, true)
        && options.paths.as_slice() == ["b.ts", "/in/a:1.ts"].as_slice()
}

#[test]
fn a_ladder_of_two(rt: HostRuntime) -> Result<(), Fail> {
    let options = two(rt.alloc())?;
    let settings = &options.settings;
    let is_event = settings.kind == Kind::Event;
    assert_same(
        &rt,
        "a ladder of two",
        (
            are_two(&options),
            is_event,
            settings.queue,
            options.pool.workers,
        ),
        (true, true, 16, 4),
    );
    Ok(())
}

/// Why these entries with this salt and this period tell no ladder.
fn told<'a>(
    alloc: Global,
    entries: &'a [&'a str],
    salt: Option<&'a str>,
    turns: u64,
) -> Option<LadderFault> {
    read_ladder_options(
        alloc,
        &NO_FILES,
        words(entries, salt),
        period(turns),
        no_pool(),
    )
    .err()
}

/// Entries, a salt and a period, and what is told of them.
const FAULTS: [(&[&str], Option<&str>, u64, LadderFault); 7] = [
    (&[A, NO_SIZE, "x"], Some("0"), 0, LadderFault::BadEntry(2)),
    (&["a:b:1x1:00:p"], None, 1, LadderFault::BadEntry(1)),
    (&[A], Some("0"), 0, LadderFault::BadVector),
    (&[A, A], None, 0, LadderFault::ZeroPeriod),
    (&[A, A], None, 1, LadderFault::Settings),
    (&[A, NO_PIXELS], None, 1, LadderFault::Settings),
    (&[], None, 1, LadderFault::Settings),
];

#[test]
fn faults_in_their_order(rt: HostRuntime) -> Result<(), Fail> {
    for (entries, salt, period, fault) in FAULTS {
        let told = told(rt.alloc(), entries, salt, period);
        assert_same(&rt, (entries, salt, period), told, Some(fault));
    }
    Ok(())
}

/// Appends an entry with a key more than there may be.
fn push_many(entry: &mut String) -> Result<(), AllocError> {
    entry.push_str("m:avc1.4d401e:640x360:")?;
    for _ in 0..MOST_KEYS {
        entry.push_str(KEY)?;
        entry.push_str("+")?;
    }
    entry.push_str(KEY)?;
    entry.push_str(":m.ts")
}

#[test]
fn too_many_keys_before_no_period(rt: HostRuntime) -> Result<(), Fail> {
    let alloc = rt.alloc();
    let mut many = String::new(alloc);
    push_many(&mut many)?;
    let many = many.as_str();
    let salted = told(alloc, &[many], Some("0"), 0);
    let plain = told(alloc, &[many], None, 0);
    assert_same(
        &rt,
        "too many keys before no period",
        (salted, plain),
        (Some(LadderFault::BadVector), Some(LadderFault::TooMany)),
    );
    Ok(())
}

#[test]
fn a_pool_out_of_range(rt: HostRuntime) -> Result<(), Fail> {
    let mut pool = no_pool();
    pool.workers = Some(65);
    let told = read_ladder_options(
        rt.alloc(),
        &NO_FILES,
        words(&[A], None),
        no_numbers(),
        pool,
    ).err();
    assert_same(&rt, "65 workers", told, Some(LadderFault::Settings));
    let mut numbers = no_numbers();
    numbers.segment = Some(u64::MAX);
    let told = read_ladder_options(
        rt.alloc(),
        &NO_FILES,
        words(&[A], None),
        numbers,
        no_pool(),
    ).err();
    assert_same(&rt, "a segment too long", told, Some(LadderFault::Settings));
    Ok(())
}

#[test]
fn statuses_of_ladders(rt: HostRuntime) -> Result<(), Fail> {
    let table = [
        (LadderFault::BadEntry(3), 2),
        (LadderFault::BadVector, 2),
        (LadderFault::TooMany, 1),
        (LadderFault::ZeroPeriod, 1),
        (LadderFault::Settings, 1),
        (LadderFault::NoMemory, 1),
    ];
    for (fault, status) in table {
        assert_same(&rt, fault, fault.status(), status);
    }
    Ok(())
}

/// What a run of b and a tells.
fn report(alloc: Global) -> Result<Report, AllocError> {
    Ok(Report {
        counts: vec![in alloc; 2, 11]?,
        micros: vec![in alloc; 9_040_000, 66_000_001]?,
        peaks: vec![in alloc; 2022, 4044]?,
        averages: vec![in alloc; 1360, 2720]?,
        skipped: vec![in alloc; 0, 0]?,
        workers: Vec::new(alloc),
        own: 13,
        thrown: 0,
        rounds: 0,
    })
}

/// Whether this is the summary of such a run.
fn is_summary(alloc: Global, settings: &Settings, wanted: &str) -> Result<bool, Fail> {
    let report = report(alloc)?;
    Ok(summary(alloc, settings, &report)?.as_str() == wanted)
}

#[test]
fn lines_in_byte_order_of_names(rt: HostRuntime) -> Result<(), Fail> {
    let options = two(rt.alloc())?;
    let wanted = "a 11 66.000001 4044 2720\nb 2 9.040000 2022 1360\n";
    let is = is_summary(rt.alloc(), &options.settings, wanted)?;
    assert_same(&rt, "lines in byte order of names", is, true);
    Ok(())
}
