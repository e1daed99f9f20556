//! A key and a vector, as the words of `seal` and `open` tell them.
ghost use Rattle.std.specs.Prelude.{◌≡◌, ◌↔◌, ℕ, true, false, Some, None, IfOk, IsErr, IsErrOf};
ghost use Rattle.std.specs.Option.{option_map};
ghost use Rattle.commands.specs.CipherWords.{AreGood, cipher_words};
ghost use Rattle.commands.specs.Hex.{bytes_of_hex, chosen_vector};
ghost use Rattle.commands.specs.KeyFiles.{GivesNoKey, IsOfFile, TellsKey, is_key_word};

use crate::files::FileReader;
use crate::key_word::{KeyFileFault, KeyWord, is_key_word, read_word};
use aes_cbc::Key;
use hex::FromHex;
use std::alloc::Global;
use thiserror::Error;

/// The words of a key and a vector, as they stand.
#[derive(Clone, Copy, Debug, Drop)]
pub struct CipherWords<'a> {
    pub key: &'a str,
    /// A segment's number, which gives the vector.
    pub seq: Option<u64>,
    /// The vector itself.
    pub iv: Option<&'a str>,
}

/// A key and a vector.
#[derive(Drop)]
pub struct CipherOptions {
    pub key: Key,
    pub vector: [u8; 16],
}

/// Why words tell no key and vector.
#[derive(Clone, Copy, Debug, PartialEq, Eq, Error)]
pub enum CipherFault {
    /// The key is neither 32 hex digits nor the name of a file.
    #[error("the key isn't 32 hex digits")]
    BadKey,
    /// The vector isn't 32 hex digits, or not exactly one of the two ways to give it was used.
    #[error("there isn't exactly one vector, or it isn't 32 hex digits")]
    BadVector,
    /// The file of the key can't be read.
    #[error("a key file can't be read")]
    Unread,
    /// The file of this key, which is the first, is neither 16 bytes nor 32 hex digits with at most one LF behind them.
    #[error("the file of key {0} is neither 16 bytes nor 32 hex digits")]
    BadKeyFile(usize),
    #[error("out of memory")]
    NoMemory,
}

impl CipherFault {
    ghost use Rattle.commands.specs.Statuses.{cipher_status};

    /// The status that a process ends with: 2 for a bad key or vector, else 1.
    pub fn status(&self) -> u8
        ensures { result ≡ cipher_status self.now }
    {
        match self {
            CipherFault::BadKey | CipherFault::BadVector => 2,
            _ => 1,
        }
    }
}

impl From<KeyFileFault> for CipherFault {
    ghost use Rattle.commands.specs.Told.{cipher_fault_of};

    ghost from_gives = { λ why fault. fault ≡ cipher_fault_of why };

    fn from(why: KeyFileFault) -> CipherFault {
        match why {
            KeyFileFault::Unread => CipherFault::Unread,
            KeyFileFault::BadKeyFile(number) => CipherFault::BadKeyFile(number),
            KeyFileFault::NoMemory => CipherFault::NoMemory,
        }
    }
}

/// The 16 bytes of 32 hex digits of either case.
pub(crate) fn block(text: &str) -> Option<[u8; 16]>
    ensures { result ≡ bytes_of_hex text.now }
{
    <[u8; 16]>::from_hex(text).ok()
}

/// The vector of a segment's number or of 32 hex digits; BadVector for any other text, and where neither or both are
/// given.
fn read_vector(number: Option<u64>, text: Option<&str>) -> Result<[u8; 16], CipherFault>
    ensures ok { IfOk result (λ vector. chosen_vector number (option_map (λ t. t.now) text.entry) ≡ Some vector) }
    ensures bad { IsErrOf result CipherFault.BadVector ↔ (chosen_vector number (option_map (λ t. t.now) text.entry) ≡ None) }
    ensures only { IsErr result → IsErrOf result CipherFault.BadVector }
{
    match (number, text) {
        (Some(number), None) => Ok(segment_job::vector(number)),
        (None, Some(text)) => block(text).ok_or(CipherFault::BadVector),
        _ => Err(CipherFault::BadVector),
    }
}

/// The options of a command that seals or opens. BadKey is told before BadVector, and that before a file is read. The number
/// of a bad key file is 1.
pub fn read_cipher_options<F: FileReader>(
    alloc: Global,
    files: &F,
    words: CipherWords<'_>,
) -> Result<CipherOptions, CipherFault>
    ensures key { IfOk result (λ options. TellsKey (F.gives files.now) words.entry.key.now options.key) }
    ensures vector { IfOk result (λ options. chosen_vector words.entry.seq (option_map (λ t. t.now) words.entry.iv) ≡ Some options.vector) }
    ensures bad_key { IsErrOf result CipherFault.BadKey ↔ (is_key_word words.entry.key.now ≡ false) }
    ensures bad_vector { IsErrOf result CipherFault.BadVector ↔
        ((is_key_word words.entry.key.now ≡ true) × (chosen_vector words.entry.seq (option_map (λ t. t.now) words.entry.iv) ≡ None)) }
    ensures unread { IsErrOf result CipherFault.Unread → AreGood (cipher_words words.entry) × IsOfFile (F.refuses files.now) words.entry.key.now }
    ensures bad_file { (n : ℕ) → IsErrOf result (CipherFault.BadKeyFile n) → AreGood (cipher_words words.entry) × (n ≡ 1) ×
        IsOfFile (GivesNoKey (F.gives files.now)) words.entry.key.now }
    ensures no_memory { IsErrOf result CipherFault.NoMemory → AreGood (cipher_words words.entry) × IsOfFile (F.wants files.now) words.entry.key.now }
{
    if !is_key_word(words.key) {
        return Err(CipherFault::BadKey);
    }
    let vector = read_vector(words.seq, words.iv)?;
    let word = KeyWord {
        number: 1,
        text: words.key,
    };
    let key = Key::new(read_word(alloc, files, word)?);
    Ok(CipherOptions { key, vector })
}
