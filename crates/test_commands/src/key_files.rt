use crate::asserts::assert_same;
use crate::fixtures::{KEY, KEY_BYTES, KeyFiles, no_numbers, words};
use commands::{
    CheckOptions, CheckWords, CipherFault, CipherOptions, CipherWords, KeyListFault, LadderFault,
    LadderOptions, LadderWords, PoolWords, SettingsFault, read_check_options, read_cipher_options,
    read_ladder_options, read_settings,
};
use std::alloc::Global;
use std::test::Fail;

/// Bytes that all differ from the key's.
const OTHER: [u8; 16] = [10; 16];

/// Files with the fixtures' key, one with another, and some that hold none.
const FILES: KeyFiles = KeyFiles {
    files: &[
        ("raw", &KEY_BYTES),
        ("hex", b"000102030405060708090a0b0c0d0e0f"),
        ("upper", b"000102030405060708090A0B0C0D0E0F\n"),
        ("a:b", b"000102030405060708090a0b0c0d0e0f\n"),
        ("ten", &OTHER),
        ("empty", b""),
        ("fifteen", &[0; 15]),
        ("seventeen", &[0; 17]),
        ("less", b"000102030405060708090a0b0c0d0e0"),
        ("more", b"000102030405060708090a0b0c0d0e0f0"),
        ("spaces", b"00 0102030405060708090a0b0c0d0e0f"),
        ("two", b"000102030405060708090a0b0c0d0e0f\n\n"),
        ("return", b"000102030405060708090a0b0c0d0e0f\r\n"),
        ("front", b"\n000102030405060708090a0b0c0d0e0f"),
        ("long", &[b'0'; 40]),
    ],
};

/// The files that hold no key.
const BAD: [&str; 10] = [
    "empty",
    "fifteen",
    "seventeen",
    "less",
    "more",
    "spaces",
    "two",
    "return",
    "front",
    "long",
];

/// What the words of some keys tell.
fn keys(alloc: Global, keys: &str) -> Result<Vec<[u8; 16]>, KeyListFault> {
    let words = CheckWords {
        keys,
        playlist: "v.m3u8",
    };
    let CheckOptions { keys, .. } = read_check_options(alloc, &FILES, words)?;
    Ok(keys)
}

#[test]
fn files_hold_keys(rt: HostRuntime) -> Result<(), Fail> {
    let table: [(&str, &[[u8; 16]]); 6] = [
        ("@raw", &[KEY_BYTES]),
        ("@hex", &[KEY_BYTES]),
        ("@upper", &[KEY_BYTES]),
        ("@a:b", &[KEY_BYTES]),
        ("@ten+@raw", &[OTHER, KEY_BYTES]),
        (
            "000102030405060708090a0b0c0d0e0f+@ten+@hex",
            &[KEY_BYTES, OTHER, KEY_BYTES],
        ),
    ];
    for (words, wanted) in table {
        let told = keys(rt.alloc(), words);
        assert_same(&rt, words, told.as_deref(), Ok(wanted));
    }
    Ok(())
}

#[test]
fn files_that_hold_none(rt: HostRuntime) -> Result<(), Fail> {
    for name in BAD {
        let words = format!(in rt.alloc(); "@raw+@{name}+@none")?;
        let told = keys(rt.alloc(), words.as_str()).err();
        assert_same(&rt, name, told, Some(KeyListFault::BadKeyFile(2)));
    }
    Ok(())
}

#[test]
fn the_first_that_gives_none_is_told(rt: HostRuntime) -> Result<(), Fail> {
    let table = [
        ("@none", KeyListFault::Unread),
        ("@@raw", KeyListFault::Unread),
        ("@raw+@none+@empty", KeyListFault::Unread),
        ("@empty+@none", KeyListFault::BadKeyFile(1)),
        ("@full+@empty", KeyListFault::NoMemory),
        ("@empty+@full", KeyListFault::BadKeyFile(1)),
        ("@none+00", KeyListFault::BadKey),
        ("@none+@", KeyListFault::BadKey),
        ("@none+", KeyListFault::BadKey),
        ("a@raw", KeyListFault::BadKey),
    ];
    for (words, fault) in table {
        let told = keys(rt.alloc(), words).err();
        assert_same(&rt, words, told, Some(fault));
    }
    Ok(())
}

/// The key that a command that seals asks for, or its fault.
fn sealing_key(alloc: Global, key: &str, seq: Option<u64>) -> Result<[u8; 16], CipherFault> {
    let words = CipherWords { key, seq, iv: None };
    let CipherOptions { key, .. } = read_cipher_options(alloc, &FILES, words)?;
    Ok(*key.as_bytes())
}

#[test]
fn a_key_of_a_cipher(rt: HostRuntime) -> Result<(), Fail> {
    let table = [
        ("@raw", Some(7), Ok(KEY_BYTES)),
        ("@upper", Some(7), Ok(KEY_BYTES)),
        (KEY, Some(7), Ok(KEY_BYTES)),
        ("@none", None, Err(CipherFault::BadVector)),
        ("@none", Some(7), Err(CipherFault::Unread)),
        ("@two", Some(7), Err(CipherFault::BadKeyFile(1))),
        ("@full", Some(7), Err(CipherFault::NoMemory)),
        ("@", None, Err(CipherFault::BadKey)),
    ];
    for (key, seq, wanted) in table {
        let told = sealing_key(rt.alloc(), key, seq);
        assert_same(&rt, key, told, wanted);
    }
    Ok(())
}

/// The first key that a packager of one rendition asks for, or its fault.
fn first_key(alloc: Global, size: &str, keys: &str) -> Result<Option<[u8; 16]>, SettingsFault> {
    let settings = read_settings(alloc, &FILES, words(size, keys), no_numbers())?;
    let first = settings.renditions.first();
    Ok(first.map(|rendition| rendition.keys.key(0)))
}

#[test]
fn keys_of_one(rt: HostRuntime) -> Result<(), Fail> {
    let table = [
        ("1x1", "@raw+@ten", Ok(Some(KEY_BYTES))),
        ("1x1", "@ten+@raw", Ok(Some(OTHER))),
        ("1", "@none", Err(SettingsFault::BadSize)),
        ("0x1", "@none", Err(SettingsFault::Settings)),
        ("1x1", "@none", Err(SettingsFault::Unread)),
        ("1x1", "@raw+@two", Err(SettingsFault::BadKeyFile(2))),
        ("1x1", "@full", Err(SettingsFault::NoMemory)),
    ];
    for (size, keys, wanted) in table {
        let told = first_key(rt.alloc(), size, keys);
        assert_same(&rt, (size, keys), told, wanted);
    }
    Ok(())
}

/// The options of a ladder of these entries and so many workers.
fn ladder<'a>(
    alloc: Global,
    entries: &'a [&'a str],
    workers: u64,
) -> Result<LadderOptions<'a>, LadderFault> {
    let words = LadderWords {
        entries,
        salt: None,
        event: false,
    };
    let pool = PoolWords {
        workers: Some(workers),
        queue: None,
        batch: None,
        stall: None,
        ahead: None,
    };
    read_ladder_options(alloc, &FILES, words, no_numbers(), pool)
}

/// The first two keys of each of two renditions.
fn two_keys(options: &LadderOptions<'_>) -> [[[u8; 16]; 2]; 2] {
    [0, 1].map(|r| match options.settings.renditions.get(r) {
        Some(rendition) => [rendition.keys.key(0), rendition.keys.key(1)],
        None => [[0; 16]; 2],
    })
}

#[test]
fn keys_of_a_ladder(rt: HostRuntime) -> Result<(), Fail> {
    let entries = ["b:c:1x1:@ten:b.ts", "a:c:1x1:@hex+@ten:a:1.ts"];
    let keys = match ladder(rt.alloc(), &entries, 1) {
        Ok(options) => two_keys(&options),
        Err(_) => [[[0; 16]; 2]; 2],
    };
    assert_same(
        &rt,
        "keys of a ladder",
        keys,
        [[OTHER, OTHER], [KEY_BYTES, OTHER]],
    );
    Ok(())
}

const GOOD: &str = "b:c:1x1:@ten+@raw:b.ts";

/// Entries, how many workers there are, and the fault of their keys or what comes before it.
const NO_KEYS: [(&[&str], u64, LadderFault); 8] = [
    (&[GOOD, "a:c:1x1:@two:a"], 1, LadderFault::BadKeyFile(2)),
    (&["a:c:1x1:@two:a", GOOD], 1, LadderFault::BadKeyFile(1)),
    (&[GOOD, "a:c:1x1:@raw+@none:a"], 1, LadderFault::Unread),
    (&[GOOD, "a:c:1x1:@full:a"], 1, LadderFault::NoMemory),
    (&["a:c:1x1:@none:a", "x"], 1, LadderFault::BadEntry(2)),
    (&["a:c:1x1:@:a"], 1, LadderFault::BadEntry(1)),
    (&["a:c:1x1:@none:a"], 65, LadderFault::Settings),
    (&[GOOD, "b:c:1x1:@none:a"], 1, LadderFault::Settings),
];

#[test]
fn key_files_of_a_ladder_that_give_none(rt: HostRuntime) -> Result<(), Fail> {
    for (entries, workers, fault) in NO_KEYS {
        let told = ladder(rt.alloc(), entries, workers).err();
        assert_same(&rt, entries, told, Some(fault));
    }
    Ok(())
}
