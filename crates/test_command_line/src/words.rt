use crate::asserts::assert_same;
use command_line::{Fault, Job, StreamJob, line};
use commands::{CheckOptions, FileFault, FileReader};
use std::alloc::{AllocError, Global};
use std::process::Abort;
use std::test::Fail;

/// A key.
pub const KEY: &str = "000102030405060708090a0b0c0d0e0f";

/// What `--version` prints behind the program's name.
pub const VERSION: &str = "0.1.0 x86-64-v3";

/// Files of keys: `raw`, `hex`, `line` and `bad`.
#[derive(Clone, Copy, Drop)]
pub struct KeyFiles;

impl FileReader for KeyFiles {
    ghost use Rattle.std.specs.Prelude.{⊤};

    ghost gives = { λ _ _ _. ⊤ };

    ghost refuses = { λ _ _. ⊤ };

    ghost wants = { λ _ _. ⊤ };

    fn read(&self, alloc: Global, path: &str) -> Result<Vec<u8>, FileFault> {
        let files: [(&str, &[u8]); 4] = [
            ("raw", &OTHER),
            ("hex", KEY.as_bytes()),
            ("line", b"100102030405060708090A0B0C0D0E0F\n"),
            ("bad", b"bad"),
        ];
        for (name, bytes) in files {
            if name == path {
                return Ok(Vec::from_slice(alloc, bytes)?);
            }
        }
        Err(FileFault::Unread)
    }

    fn read_front(&self, alloc: Global, path: &str, _most: usize) -> Result<Vec<u8>, FileFault> {
        self.read(alloc, path)
    }
}

/// What a refused command line prints, and the status that it ends with; nothing and 0 where it isn't refused.
pub fn told(alloc: Global, words: &[&str]) -> Result<(String, u8), AllocError> {
    match line(alloc, &KeyFiles, words, VERSION) {
        Ok(_) => Ok((String::new(alloc), 0)),
        Err(fault) => Ok((format!(in alloc; "{fault}")?, fault.status())),
    }
}

/// How many keys, and two of them at most.
type Keys = (usize, [[u8; 16]; 2]);

/// The keys that a command line of `check` asks for, and its playlist; or what its refusal prints. With the status.
fn asked(alloc: Global, words: &[&str]) -> Result<(Keys, String, u8), AllocError> {
    let options = match line(alloc, &KeyFiles, words, VERSION) {
        Ok(Job::Stream(StreamJob::Check(options))) => options,
        Ok(job) => {
            drop(job);
            return Ok((NO_KEYS, String::new(alloc), 0));
        }
        Err(fault) => {
            return Ok((NO_KEYS, format!(in alloc; "{fault}")?, fault.status()));
        }
    };
    let CheckOptions { keys, playlist } = options;
    let first = [0, 1].map(|at| keys.get(at).copied().unwrap_or([0; 16]));
    Ok(((keys.len(), first), playlist, 0))
}

/// Stops a test where a command line of `check` with these words asks for other keys or another playlist, or prints something else,
/// or ends with another status.
fn check(
    rt: &impl Abort,
    alloc: Global,
    more: &[&str],
    keys: Keys,
    text: &str,
    status: u8,
) -> Result<(), AllocError> {
    let mut words = Vec::new(alloc);
    words.extend_from_slice(&["tshls", "check"])?;
    words.extend_from_slice(more)?;
    let told = asked(alloc, words.as_slice())?;
    assert_same(
        rt,
        more,
        (told.0, told.1.as_str(), told.2),
        (keys, text, status),
    );
    Ok(())
}

const NO_KEYS: Keys = (0, [[0; 16]; 2]);

const ONE: [u8; 16] = [0, 1, 2, 3, 4, 5, 6, 7, 8, 9, 10, 11, 12, 13, 14, 15];

const OTHER: [u8; 16] = [16, 1, 2, 3, 4, 5, 6, 7, 8, 9, 10, 11, 12, 13, 14, 15];

const TWO_KEYS: &str = "000102030405060708090a0b0c0d0e0f+100102030405060708090A0B0C0D0E0F";

#[test]
fn options(rt: HostRuntime) -> Result<(), Fail> {
    let table: [(&[&str], Keys, &str, u8); 4] = [
        (
            &["--keys", KEY, "a/v.m3u8"],
            (1, [ONE, [0; 16]]),
            "a/v.m3u8",
            0,
        ),
        (
            &["v.m3u8", "--keys", TWO_KEYS],
            (2, [ONE, OTHER]),
            "v.m3u8",
            0,
        ),
        (
            &["--keys", "@hex+@raw", "v.m3u8"],
            (2, [ONE, OTHER]),
            "v.m3u8",
            0,
        ),
        (
            &["--keys", "@line", "v.m3u8"],
            (1, [OTHER, [0; 16]]),
            "v.m3u8",
            0,
        ),
    ];
    for (more, keys, text, status) in table {
        check(&rt, rt.alloc(), more, keys, text, status)?;
    }
    Ok(())
}

#[test]
fn keys_that_are_refused(rt: HostRuntime) -> Result<(), Fail> {
    let table: [(&[&str], Keys, &str, u8); 4] = [
        (
            &["--keys", "@raw+@bad+@none", "v.m3u8"],
            NO_KEYS,
            "tshls: BadKeyFile 2\n",
            1,
        ),
        (
            &["--keys", "@none+@bad", "v.m3u8"],
            NO_KEYS,
            "tshls: Unread\n",
            1,
        ),
        (&["--keys", "00", "v.m3u8"], NO_KEYS, "tshls: BadKey\n", 2),
        (&["--keys", "", "v.m3u8"], NO_KEYS, "tshls: BadKey\n", 2),
    ];
    for (more, keys, text, status) in table {
        check(&rt, rt.alloc(), more, keys, text, status)?;
    }
    Ok(())
}

#[test]
fn keys_and_a_playlist_are_wanted(rt: HostRuntime) -> Result<(), Fail> {
    for more in ["--keys", "v.m3u8"] {
        let told = told(rt.alloc(), &["tshls", "check", more])?;
        assert_same(&rt, more, told.1, 2);
    }
    Ok(())
}
