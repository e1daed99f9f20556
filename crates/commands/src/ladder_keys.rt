//! The words of a ladder's keys, those of all entries one behind another.
ghost use Rattle.std.specs.Prelude.{length, ◌<◌, OnErr, ◌≡◌, ◌++◌, map, IfOk, OnOk};
ghost use Rattle.commands.specs.Entries.{entry_value};
ghost use Rattle.commands.specs.KeyFiles.{told};
ghost use Rattle.commands.specs.KeyLists.{key_texts};
ghost use Rattle.commands.specs.LadderOptions.{key_words, numbered};

use crate::entry::EntryWords;
use crate::key_list::key_texts;
use crate::key_word::KeyWord;
use std::alloc::{AllocError, Global};

/// Appends texts, each told by this number.
fn push_texts<'a>(
    words: &mut Vec<KeyWord<'a>>,
    number: usize,
    texts: &[&'a str],
) -> Result<(), AllocError>
    ensures ok { OnOk result (map told words.new.items ≡ map told words.old.items ++ numbered number (map (λ t. t.now) texts.now)) }
    ensures scarce { OnErr result (0 < length texts.now) }
{
    for text in texts {
        words.push(KeyWord { number, text })?;
    }
    Ok(())
}

/// Appends the words of an entry's keys, each told by the entry's number.
fn push_entry<'a>(
    alloc: Global,
    words: &mut Vec<KeyWord<'a>>,
    number: usize,
    keys: &'a str,
) -> Result<(), AllocError>
    ensures { OnOk result (map told words.new.items ≡ map told words.old.items ++ numbered number (key_texts keys.now)) }
{
    let texts = key_texts(alloc, keys)?;
    push_texts(words, number, &texts)
}

/// The words of the keys of all entries, each told by its entry's number, counted from 1.
pub(crate) fn ladder_words<'a>(
    alloc: Global,
    entries: &[EntryWords<'a>],
) -> Result<Vec<KeyWord<'a>>, AllocError>
    ensures ok { IfOk result (λ words. map told words.items ≡ key_words 1 (map entry_value entries.now)) }
    ensures scarce { OnErr result (0 < length entries.now) }
{
    let mut words = Vec::new(alloc);
    for place in 0..entries.len() {
        push_entry(alloc, &mut words, place + 1, entries[place].keys)?;
    }
    Ok(words)
}
