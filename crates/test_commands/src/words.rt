use crate::asserts::assert_same;
use crate::fixtures::{KEY, NO_FILES, VECTOR, no_numbers, settings, words};
use commands::{
    CheckOptions, CheckWords, CipherFault, CipherWords, DEFAULT_FRAME, DEFAULT_GAP, DEFAULT_MOST,
    DEFAULT_NAME, DEFAULT_PERIOD, DEFAULT_TARGET, DEFAULT_WINDOW, EntryWords, KeyListFault,
    SettingsFault, entries, first_bad, read_check_options, read_cipher_options, read_settings,
};
use limits::{MOST_KEYS, MOST_PROGRAM, TICKS};
use packing::one;
use pipeline::PackFault;
use std::alloc::{AllocError, Global};
use std::test::Fail;

#[test]
fn defaults(rt: HostRuntime) -> Result<(), Fail> {
    let numbers = no_numbers().numbers();
    let told = [
        numbers.target,
        numbers.segment,
        numbers.window,
        numbers.frame,
        numbers.gap,
        numbers.most,
        numbers.period,
    ];
    assert_same(
        &rt,
        "defaults",
        (told, numbers.program),
        ([6, 6, 5, 3600, 900_000, 1_000_000, 1], None),
    );
    let named = [
        DEFAULT_TARGET,
        DEFAULT_WINDOW,
        DEFAULT_FRAME,
        DEFAULT_GAP,
        DEFAULT_MOST,
        DEFAULT_PERIOD,
    ];
    assert_same(
        &rt,
        "named defaults",
        named,
        [6, 5, 3600, 900_000, 1_000_000, 1],
    );
    Ok(())
}

#[test]
fn a_default_name_and_segment(rt: HostRuntime) -> Result<(), Fail> {
    let settings = settings(rt.alloc(), "1x1")?;
    let name = settings
        .renditions
        .first()
        .map(|rendition| rendition.name.as_str());
    assert_same(
        &rt,
        "the default name and segment",
        (name, settings.cut.segment),
        (Some(DEFAULT_NAME), 6 * TICKS),
    );
    Ok(())
}

#[test]
fn a_target_gives_the_segment(rt: HostRuntime) -> Result<(), Fail> {
    let mut words = no_numbers();
    words.target = Some(8);
    assert_same(&rt, "a target", words.numbers().segment, 8);
    words.segment = Some(2);
    assert_same(&rt, "a target and a segment", words.numbers().segment, 2);
    Ok(())
}

#[test]
fn a_vector_is_given_in_one_way(rt: HostRuntime) -> Result<(), Fail> {
    let table = [
        (KEY, Some(7), None, None),
        (KEY, None, Some(VECTOR), None),
        (KEY, None, None, Some(CipherFault::BadVector)),
        (KEY, Some(7), Some(VECTOR), Some(CipherFault::BadVector)),
        (KEY, None, Some("00"), Some(CipherFault::BadVector)),
        ("00", None, Some("00"), Some(CipherFault::BadKey)),
    ];
    for (key, seq, iv, wanted) in table {
        let told = read_cipher_options(rt.alloc(), &NO_FILES, CipherWords { key, seq, iv }).err();
        assert_same(&rt, (key, seq, iv), told, wanted);
    }
    Ok(())
}

/// How many keys are read of these words, and the last byte of the first; or why none are. The playlist comes as it is.
fn checked(alloc: Global, keys: &str) -> Result<(usize, Option<u8>, bool), KeyListFault> {
    let words = CheckWords {
        keys,
        playlist: "a/v.m3u8",
    };
    let CheckOptions { keys, playlist } = read_check_options(alloc, &NO_FILES, words)?;
    let last = keys.first().map(|key| key[15]);
    Ok((keys.len(), last, playlist.as_str() == "a/v.m3u8"))
}

#[test]
fn keys_and_a_playlist(rt: HostRuntime) -> Result<(), Fail> {
    assert_same(
        &rt,
        "keys and a playlist",
        (checked(rt.alloc(), KEY), checked(rt.alloc(), "00")),
        (Ok((1, Some(15), true)), Err(KeyListFault::BadKey)),
    );
    Ok(())
}

#[test]
fn statuses(rt: HostRuntime) -> Result<(), Fail> {
    let of_cipher = (
        CipherFault::BadKey.status(),
        CipherFault::BadVector.status(),
    );
    let of_keys = (
        KeyListFault::BadKey.status(),
        KeyListFault::NoMemory.status(),
    );
    assert_same(&rt, "statuses", (of_cipher, of_keys), ((2, 2), (2, 1)));
    let table = [
        (SettingsFault::BadKey, 2),
        (SettingsFault::BadSize, 2),
        (SettingsFault::BadVector, 2),
        (SettingsFault::TooMany, 1),
        (SettingsFault::ZeroPeriod, 1),
        (SettingsFault::Settings, 1),
        (SettingsFault::NoMemory, 1),
    ];
    for (fault, status) in table {
        assert_same(&rt, fault, fault.status(), status);
    }
    Ok(())
}

/// Appends so many keys.
fn push_keys(keys: &mut String, count: u64) -> Result<(), AllocError> {
    keys.push_str(KEY)?;
    for _ in 1..count {
        keys.push_str("+")?;
        keys.push_str(KEY)?;
    }
    Ok(())
}

/// Why so many keys aren't taken.
fn fault_of_keys(alloc: Global, count: u64) -> Result<Option<SettingsFault>, AllocError> {
    let mut keys = String::new(alloc);
    push_keys(&mut keys, count)?;
    Ok(read_settings(alloc, &NO_FILES, words("1x1", keys.as_str()), no_numbers()).err())
}

#[test]
fn as_many_keys_as_there_may_be(rt: HostRuntime) -> Result<(), Fail> {
    let most = fault_of_keys(rt.alloc(), MOST_KEYS)?;
    let more = fault_of_keys(rt.alloc(), MOST_KEYS + 1)?;
    assert_same(
        &rt,
        "as many keys as there may be",
        (most, more),
        (None, Some(SettingsFault::TooMany)),
    );
    Ok(())
}

/// Whether settings of a size and a program, or none, are taken.
fn is_taken(alloc: Global, size: &str, program: Option<u64>) -> bool {
    let mut numbers = no_numbers();
    numbers.program = program;
    let settings = match read_settings(alloc, &NO_FILES, words(size, KEY), numbers) {
        Ok(settings) => settings,
        Err(fault) => return fault != SettingsFault::Settings,
    };
    let empty: &[u8] = &[];
    let packed = one(alloc, &settings, empty, Vec::new(alloc));
    packed.answer == Err(PackFault::NoProgram(0))
}

#[test]
fn the_ends_of_sizes_and_programs(rt: HostRuntime) -> Result<(), Fail> {
    let table = [
        ("1x1", None, true),
        ("16384x16384", None, true),
        ("16385x1", None, false),
        ("1x16385", None, false),
        ("0x1", None, false),
        ("1x1", Some(1), true),
        ("1x1", Some(MOST_PROGRAM), true),
        ("1x1", Some(MOST_PROGRAM + 1), false),
        ("1x1", Some(0), false),
    ];
    for (size, program, wanted) in table {
        let told = is_taken(rt.alloc(), size, program);
        assert_same(&rt, (size, program), told, wanted);
    }
    Ok(())
}

/// The parts of a good entry.
fn parts(alloc: Global, text: &str) -> Result<EntryWords<'_>, Fail> {
    let texts = [text];
    if first_bad(&texts).is_some() {
        return Err(Fail::from("a bad entry"));
    }
    let mut read = entries(alloc, &texts)?;
    match read.pop() {
        Some(words) => Ok(words),
        None => Err(Fail::from("no entry")),
    }
}

#[test]
fn entries_at_their_first_four_colons(rt: HostRuntime) -> Result<(), Fail> {
    let good = "a %20:avc1:640x360:000102030405060708090a0b0c0d0e0f:/in/a:b.ts";
    let read = parts(rt.alloc(), good)?;
    let words = [read.name, read.codecs, read.size, read.keys, read.path];
    assert_same(
        &rt,
        "the parts of an entry",
        words,
        ["a %20", "avc1", "640x360", KEY, "/in/a:b.ts"],
    );
    let bad = [
        first_bad(&[good]),
        first_bad(&[good, "a:b:1x1:00:p", "a"]),
        first_bad(&["a:b:1:000102030405060708090a0b0c0d0e0f:p"]),
        first_bad(&["a:b:1x1:000102030405060708090a0b0c0d0e0f"]),
    ];
    assert_same(
        &rt,
        "the first bad entry",
        bad,
        [None, Some(1), Some(0), Some(0)],
    );
    Ok(())
}
