//! A key, as one word tells it: by its digits, or by the name of a file.
ghost use Rattle.std.specs.Prelude.{◌≡◌, ℕ, true, Some, IfOk, IfErr, IsErrOf, IsSome, OnOk, length, map};
ghost use Rattle.std.specs.List.{list_all};
ghost use Rattle.std.specs.Option.{option_map};
ghost use Rattle.commands.specs.Hex.{bytes_of_hex};
ghost use Rattle.commands.specs.KeyFiles.{GivesNoKey, IsKeyFault, IsOfFile, TellKeys, TellsKey, file_of, is_key_word, key_of_file, texts_of, told};

use crate::cipher::block;
use crate::files::{FileFault, FileReader};
use crate::opening::without_end;
use hex::FromHex;
use std::alloc::Global;
use thiserror::Error;

/// Why a file that a word names gives no key.
#[derive(Clone, Copy, Debug, PartialEq, Eq, Error)]
pub enum KeyFileFault {
    /// It can't be read.
    #[error("a key file can't be read")]
    Unread,
    /// It is neither 16 bytes nor 32 hex digits with at most one LF behind them. Which one it is, counted from 1.
    #[error("key file {0} is neither 16 bytes nor 32 hex digits")]
    BadKeyFile(usize),
    #[error("out of memory")]
    NoMemory,
}

impl From<FileFault> for KeyFileFault {
    ghost use Rattle.commands.specs.Told.{key_fault_of};

    ghost from_gives = { λ why fault. fault ≡ key_fault_of why };

    fn from(why: FileFault) -> KeyFileFault {
        match why {
            FileFault::Unread => KeyFileFault::Unread,
            FileFault::NoMemory => KeyFileFault::NoMemory,
        }
    }
}

/// A word of a key, and the number by which a fault of its file is told.
#[derive(Clone, Copy, Drop)]
pub struct KeyWord<'a> {
    pub number: usize,
    pub text: &'a str,
}

/// The most bytes of a key file that are read: one more than it may have.
const MOST: usize = 34;

/// The name of the file that a word names: what stands behind an `@`, if anything does.
fn file_name(word: &str) -> Option<&str>
    ensures { option_map (λ t. t.now) result ≡ file_of word.now }
{
    let (before, name) = word.split_once('@')?;
    if !before.is_empty() || name.is_empty() {
        return None;
    }
    Some(name)
}

/// Whether a word names a file or is 32 hex digits.
pub(crate) fn is_key_word(word: &str) -> bool
    ensures { result ≡ is_key_word word.now }
{
    file_name(word).is_some() || block(word).is_some()
}

/// The key in a file of these bytes: they themselves, or those that 32 hex digits stand for.
fn key_of_file(bytes: &[u8]) -> Option<[u8; 16]>
    ensures { result ≡ key_of_file bytes.now }
{
    if let Ok(key) = <[u8; 16]>::try_from(bytes) {
        return Some(key);
    }
    <[u8; 16]>::from_hex(without_end(bytes)).ok()
}

/// The key that a word tells.
pub(crate) fn read_word<F: FileReader>(
    alloc: Global,
    files: &F,
    word: KeyWord<'_>,
) -> Result<[u8; 16], KeyFileFault>
    requires { is_key_word word.text.now ≡ true }
    ensures ok { IfOk result (λ key. TellsKey (F.gives files.now) word.entry.text.now key) }
    ensures unread { IsErrOf result KeyFileFault.Unread → IsOfFile (F.refuses files.now) word.entry.text.now }
    ensures bad { (n : ℕ) → IsErrOf result (KeyFileFault.BadKeyFile n) → (n ≡ word.entry.number) ×
        IsOfFile (GivesNoKey (F.gives files.now)) word.entry.text.now }
    ensures no_memory { IsErrOf result KeyFileFault.NoMemory → IsOfFile (F.wants files.now) word.entry.text.now }
{
    let Some(name) = file_name(word.text) else {
        return Ok(digits(word.text));
    };
    let bytes = files.read_front(alloc, name, MOST)?;
    match key_of_file(&bytes) {
        Some(key) => Ok(key),
        None => Err(KeyFileFault::BadKeyFile(word.number)),
    }
}

/// The key of a word of 32 hex digits.
fn digits(word: &str) -> [u8; 16]
    requires { IsSome (bytes_of_hex word.now) }
    ensures { bytes_of_hex word.now ≡ Some result }
{
    match block(word) {
        Some(key) => key,
        None => unreachable!(),
    }
}

/// Reads the key of each word into its place. No file behind the first that gives no key is read.
pub(crate) fn fill_keys<F: FileReader>(
    alloc: Global,
    files: &F,
    words: &[KeyWord<'_>],
    keys: &mut [[u8; 16]],
) -> Result<(), KeyFileFault>
    requires words { list_all (λ word. is_key_word word.text) (map told words.now) ≡ true }
    requires places { length words.now ≡ length keys.now }
    ensures ok { OnOk result (TellKeys (F.gives files.now) (texts_of (map told words.now)) keys.new) }
    ensures err { IfErr result (IsKeyFault (F.gives files.now) (F.refuses files.now) (F.wants files.now) (map told words.now)) }
{
    for place in 0..words.len() {
        keys[place] = read_word(alloc, files, words[place])?;
    }
    Ok(())
}
