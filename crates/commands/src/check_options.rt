//! The keys and the playlist of `check`, as its words tell them.
ghost use Rattle.std.specs.Prelude.{◌≡◌, ◌↔◌, ℕ, true, false, IfErr, IfOk, IsErrOf, length, map};
ghost use Rattle.std.specs.String.{string_bytes};
ghost use Rattle.commands.specs.KeyFiles.{IsKeyFault, TellKeys, counted, told};
ghost use Rattle.commands.specs.KeyLists.{IsBadKeyFile, IsUnreadKey, key_texts, are_keys};

use crate::files::FileReader;
use crate::kept::Kept;
use crate::key_list::{KeyListFault, KeyRoom, are_keys, key_room, read_keys};
use crate::key_word::KeyFileFault;
use std::alloc::{AllocError, Global};

/// The words of the keys of a rendition and of a playlist's path, as they stand.
#[derive(Clone, Copy, Debug, Drop)]
pub struct CheckWords<'a> {
    pub keys: &'a str,
    pub playlist: &'a str,
}

/// The keys of a rendition, and the path of a media playlist.
#[derive(Drop)]
pub struct CheckOptions {
    pub keys: Vec<[u8; 16]>,
    pub playlist: String,
}

/// What the options take memory for: a place for each key, and the playlist's path.
#[derive(Drop)]
struct CheckRoom<'a> {
    keys: KeyRoom<'a>,
    playlist: String,
}

/// Takes that memory, before any file is read.
fn check_room(alloc: Global, words: CheckWords<'_>) -> Result<CheckRoom<'_>, AllocError>
    ensures words { IfOk result (λ room. map told room.keys.words.items ≡ counted 1 (key_texts words.entry.keys.now)) }
    ensures places { IfOk result (λ room. length room.keys.keys.items ≡ length room.keys.words.items) }
    ensures playlist { IfOk result (λ room. string_bytes room.playlist ≡ words.entry.playlist.now) }
{
    Ok(CheckRoom {
        keys: key_room(alloc, words.keys)?,
        playlist: String::from_str(alloc, words.playlist)?,
    })
}

/// The options for which memory was taken. NoMemory is told only of a file that wanted it.
fn filled_options<F: FileReader>(
    alloc: Global,
    files: &F,
    words: CheckWords<'_>,
    room: CheckRoom<'_>,
) -> Result<CheckOptions, Kept<KeyFileFault>>
    requires good { are_keys words.keys.now ≡ true }
    requires words { map told room.keys.words.items ≡ counted 1 (key_texts words.keys.now) }
    requires places { length room.keys.keys.items ≡ length room.keys.words.items }
    ensures keys { IfOk result (λ options. TellKeys (F.gives files.now) (key_texts words.entry.keys.now) options.keys.items) }
    ensures playlist { IfOk result (λ options. string_bytes options.playlist ≡ string_bytes room.entry.playlist) }
    ensures err { IfErr result (λ why. IsKeyFault (F.gives files.now) (F.refuses files.now) (F.wants files.now)
        (counted 1 (key_texts words.entry.keys.now)) why.fault) }
{
    let CheckRoom { keys, playlist } = room;
    let keys = read_keys(alloc, files, keys, words.keys)?;
    Ok(CheckOptions { keys, playlist })
}

/// The options that the words of `check` ask for, with the keys that they tell.
///
/// BadKey is told before all else, and NoMemory before any file is read where memory was wanted for the options. Unread and
/// BadKeyFile are told of the first key whose file gives none, counted from 1.
pub fn read_check_options<F: FileReader>(
    alloc: Global,
    files: &F,
    words: CheckWords<'_>,
) -> Result<CheckOptions, KeyListFault>
    ensures keys { IfOk result (λ options. TellKeys (F.gives files.now) (key_texts words.entry.keys.now) options.keys.items) }
    ensures playlist { IfOk result (λ options. string_bytes options.playlist ≡ words.entry.playlist.now) }
    ensures bad { IsErrOf result KeyListFault.BadKey ↔ (are_keys words.entry.keys.now ≡ false) }
    ensures unread { IsErrOf result KeyListFault.Unread → IsUnreadKey (F.gives files.now) (F.refuses files.now) words.entry.keys.now }
    ensures bad_file { (n : ℕ) → IsErrOf result (KeyListFault.BadKeyFile n) → IsBadKeyFile (F.gives files.now) words.entry.keys.now n }
{
    if !are_keys(words.keys) {
        return Err(KeyListFault::BadKey);
    }
    let room = check_room(alloc, words)?;
    let options = filled_options(alloc, files, words, room)?;
    Ok(options)
}
