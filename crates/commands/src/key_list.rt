//! The keys of a rendition, as one word tells them.
ghost use Rattle.std.specs.Prelude.{◌≡◌, ◌<◌, map, length, true, IfOk, IfErr, OnErr};
ghost use Rattle.std.specs.List.{list_all};
ghost use Rattle.commands.specs.KeyFiles.{IsKeyFault, TellKeys, counted, is_key_word, texts_of, told};
ghost use Rattle.commands.specs.KeyLists.{key_texts, are_keys};

use crate::files::FileReader;
use crate::kept::Kept;
use crate::key_word::{KeyFileFault, KeyWord, fill_keys, is_key_word};
use std::alloc::{AllocError, AllocFailed, Global};
use thiserror::Error;

/// Why a word tells no keys.
#[derive(Clone, Copy, Debug, PartialEq, Eq, Error)]
pub enum KeyListFault {
    /// A key is neither 32 hex digits nor the name of a file.
    #[error("a key isn't 32 hex digits")]
    BadKey,
    /// The file of a key can't be read.
    #[error("a key file can't be read")]
    Unread,
    /// The file of this key, counted from 1, is neither 16 bytes nor 32 hex digits with at most one LF behind them.
    #[error("the file of key {0} is neither 16 bytes nor 32 hex digits")]
    BadKeyFile(usize),
    #[error("out of memory")]
    NoMemory,
}

impl KeyListFault {
    ghost use Rattle.commands.specs.Statuses.{key_list_status};

    /// The status that a process ends with: 2 for a bad key, else 1.
    pub fn status(&self) -> u8
        ensures { result ≡ key_list_status self.now }
    {
        match self {
            KeyListFault::BadKey => 2,
            KeyListFault::Unread | KeyListFault::BadKeyFile(_) | KeyListFault::NoMemory => 1,
        }
    }
}

impl From<AllocError> for KeyListFault {
    ghost use Rattle.commands.specs.declared.key_list.KeyListFault.TheVariants.{NoMemory};

    ghost from_gives = { λ _ fault. fault ≡ NoMemory };

    fn from(_: AllocError) -> KeyListFault {
        KeyListFault::NoMemory
    }
}

impl<T: Drop> From<AllocFailed<T>> for KeyListFault {
    ghost use Rattle.commands.specs.declared.key_list.KeyListFault.TheVariants.{NoMemory};

    ghost from_gives = { λ _ fault. fault ≡ NoMemory };

    fn from(_: AllocFailed<T>) -> KeyListFault {
        KeyListFault::NoMemory
    }
}

impl From<Kept<KeyFileFault>> for KeyListFault {
    ghost use Rattle.commands.specs.Told.{key_list_fault_of};

    ghost from_gives = { λ why fault. fault ≡ key_list_fault_of why.fault };

    fn from(why: Kept<KeyFileFault>) -> KeyListFault {
        match why.into_fault() {
            KeyFileFault::Unread => KeyListFault::Unread,
            KeyFileFault::BadKeyFile(number) => KeyListFault::BadKeyFile(number),
            KeyFileFault::NoMemory => KeyListFault::NoMemory,
        }
    }
}

/// Whether each text between the `+` names a file or is 32 hex digits.
pub(crate) fn are_keys(text: &str) -> bool
    ensures { result ≡ are_keys text.now }
{
    text.split('+').all(|piece| is_key_word(piece))
}

/// How many texts there are between the `+`.
pub(crate) fn key_count(text: &str) -> usize
    ensures { result ≡ length (key_texts text.now) }
{
    text.split('+').count()
}

/// The texts between the `+`.
pub(crate) fn key_texts<'a>(alloc: Global, text: &'a str) -> Result<Vec<&'a str>, AllocError>
    ensures { IfOk result (λ texts. map (λ t. t.now) texts.items ≡ key_texts text.now) }
{
    text.split('+').collect(alloc)
}

/// Each text, told by its place, counted from 1.
fn counted<'a>(alloc: Global, texts: &[&'a str]) -> Result<Vec<KeyWord<'a>>, AllocError>
    ensures ok { IfOk result (λ words. map told words.items ≡ counted 1 (map (λ t. t.now) texts.now)) }
    ensures scarce { OnErr result (0 < length texts.now) }
{
    let mut words = Vec::new(alloc);
    for place in 0..texts.len() {
        words.push(KeyWord {
            number: place + 1,
            text: texts[place],
        })?;
    }
    Ok(words)
}

/// Room for so many keys.
pub(crate) fn room(alloc: Global, count: usize) -> Result<Vec<[u8; 16]>, AllocError>
    ensures ok { IfOk result (λ keys. length keys.items ≡ count) }
    ensures scarce { OnErr result (0 < count) }
{
    let mut keys = Vec::new(alloc);
    keys.resize(count, [0; 16])?;
    Ok(keys)
}

/// The words of some keys, and room for the keys.
#[derive(Drop)]
pub(crate) struct KeyRoom<'a> {
    words: Vec<KeyWord<'a>>,
    pub keys: Vec<[u8; 16]>,
}

/// Takes the memory for the keys of the words between the `+`.
pub(crate) fn key_room<'a>(alloc: Global, text: &'a str) -> Result<KeyRoom<'a>, AllocError>
    ensures words { IfOk result (λ room. map told room.words.items ≡ counted 1 (key_texts text.now)) }
    ensures keys { IfOk result (λ room. length room.keys.items ≡ length room.words.items) }
{
    let texts = key_texts(alloc, text)?;
    let words = counted(alloc, &texts)?;
    let keys = room(alloc, words.len())?;
    Ok(KeyRoom { words, keys })
}

/// The room with the key of each word in its place.
pub(crate) fn filled<F: FileReader>(
    alloc: Global,
    files: &F,
    words: &[KeyWord<'_>],
    room: Vec<[u8; 16]>,
) -> Result<Vec<[u8; 16]>, Kept<KeyFileFault>>
    requires words { list_all (λ word. is_key_word word.text) (map told words.now) ≡ true }
    requires places { length words.now ≡ length room.items }
    ensures ok { IfOk result (λ keys. TellKeys (F.gives files.now) (texts_of (map told words.now)) keys.items) }
    ensures err { IfErr result (λ why. IsKeyFault (F.gives files.now) (F.refuses files.now) (F.wants files.now) (map told words.now) why.fault) }
{
    let mut keys = room;
    fill_keys(alloc, files, words, &mut keys)?;
    Ok(keys)
}

/// Reads the keys for which memory was taken.
pub(crate) fn read_keys<F: FileReader>(
    alloc: Global,
    files: &F,
    room: KeyRoom<'_>,
    text: &str,
) -> Result<Vec<[u8; 16]>, Kept<KeyFileFault>>
    requires words { map told room.words.items ≡ counted 1 (key_texts text.now) }
    requires keys { length room.keys.items ≡ length room.words.items }
    requires good { are_keys text.now ≡ true }
    ensures ok { IfOk result (λ keys. TellKeys (F.gives files.now) (key_texts text.now) keys.items) }
    ensures err { IfErr result (λ why. IsKeyFault (F.gives files.now) (F.refuses files.now) (F.wants files.now) (counted 1 (key_texts text.now)) why.fault) }
{
    let KeyRoom { words, keys } = room;
    filled(alloc, files, &words, keys)
}
