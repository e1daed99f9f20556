ghost use Rattle.std.specs.Prelude.{◌≡◌, ◌≢◌, None, ℕ, ◌<◌, ◌≤◌, ◌⊎◌, map, length, false, true, All, Any, Decides, IfOk, IfErr, OnErr};
ghost use Rattle.std.specs.Option.{option_map};
ghost use Rattle.commands.specs.Hex.{chosen_salt};
ghost use Rattle.commands.specs.Entries.{entry_of, entry_value, IsGood};
ghost use Rattle.commands.specs.KeyLists.{key_texts};
ghost use Rattle.commands.specs.LadderOptions.{asked_of, key_count, key_total, IsWhole, entry_words, HasTurns, ShareKeys, IsAskedLadder};
ghost use Rattle.commands.specs.LadderOptions.{IsWithin, IsOutside, IsReadLadder};
ghost use Rattle.commands.specs.LadderOptions.{HasUnreadKey, HasBadKeyFile, IsBehindTexts};
ghost use Rattle.commands.specs.Pools.{IsPool};
ghost use Rattle.commands.specs.Ranges.{AreNumbersWithin, IsUpTo};
ghost use Rattle.commands.specs.Settings.{FitsCut, IsRenditionOf};

use crate::entry::{EntryWords, cut_entry};
use crate::files::FileReader;
use crate::kept::Kept;
use crate::key_list::{filled, key_count, room};
use crate::ladder_fault::LadderFault;
use crate::ladder_keys::ladder_words;
use crate::ladder_options::LadderWords;
use crate::numbers::{Numbers, cut};
use crate::outside::{are_within, is_up_to};
use crate::pool::Pool;
use crate::settings::{PackingWords, kind, rendition_of};
use crate::within::within_limits;
use ladder_items::{Rendition, Settings};
use limits::{MOST_KEYS, MOST_RENDITIONS};
use std::alloc::{AllocError, Global};

/// Whether an entry has more than 4,096 keys.
fn has_many_keys(text: &str) -> bool
    requires { IsGood text.now }
    ensures many { result ≡ true → MOST_KEYS < key_count text.now }
    ensures few { result ≡ false → key_count text.now ≤ MOST_KEYS }
{
    let Some(words) = cut_entry(text) else {
        unreachable!()
    };
    key_count(words.keys) as u64 > MOST_KEYS
}

/// Whether some entry has more than 4,096 keys.
pub(crate) fn has_too_many(texts: &[&str]) -> bool
    requires { All IsGood (map (λ t. t.now) texts.now) }
    ensures many { result ≡ true → Any (λ text. MOST_KEYS < key_count text) (map (λ t. t.now) texts.now) }
    ensures few { result ≡ false → All (λ text. key_count text ≤ MOST_KEYS) (map (λ t. t.now) texts.now) }
{
    for place in 0..texts.len() {
        if has_many_keys(texts[place]) {
            return true;
        }
    }
    false
}

/// The rendition of an entry and its keys.
fn rendition(
    alloc: Global,
    words: LadderWords<'_, '_>,
    entry: EntryWords<'_>,
    keys: &[[u8; 16]],
    period: u64,
) -> Result<Rendition, AllocError>
    requires whole { IsWhole (entry_value entry) }
    requires keys { length keys.now ≡ length (key_texts entry.keys.now) }
    requires salt { chosen_salt (option_map (λ t. t.now) words.salt) ≢ None }
    requires some { 0 < period }
    ensures { IfOk result (λ made. IsRenditionOf (entry_words (option_map (λ t. t.now) words.entry.salt) words.entry.event
        (entry_value entry.entry)) period keys.now made) }
{
    let words = PackingWords {
        name: Some(entry.name),
        codecs: entry.codecs,
        size: entry.size,
        keys: entry.keys,
        salt: words.salt,
        event: words.event,
    };
    rendition_of(alloc, words, keys, period)
}

/// The rendition of each entry, in their order: each has as many of the keys as its entry has words of keys.
fn renditions(
    alloc: Global,
    words: LadderWords<'_, '_>,
    entries: &[EntryWords<'_>],
    keys: &[[u8; 16]],
    period: u64,
) -> Result<Vec<Rendition>, AllocError>
    requires whole { All IsWhole (map entry_value entries.now) }
    requires keys { length keys.now ≡ key_total (map entry_value entries.now) }
    requires salt { chosen_salt (option_map (λ t. t.now) words.salt) ≢ None }
    requires some { 0 < period }
    ensures ok { IfOk result (λ made. ShareKeys (entry_words (option_map (λ t. t.now) words.entry.salt) words.entry.event) period
        (map entry_value entries.now) keys.now made.items) }
    ensures scarce { OnErr result (0 < length entries.now) }
{
    let mut renditions = Vec::new(alloc);
    let mut rest = keys;
    for entry in entries {
        let (own, more) = rest.split_at(key_count(entry.keys));
        rest = more;
        renditions.push(rendition(alloc, words, *entry, own, period)?)?;
    }
    Ok(renditions)
}

/// Whether the number of renditions, the numbers and the pool are within their ranges.
pub(crate) fn are_in_range(renditions: usize, numbers: &Numbers, pool: Pool) -> bool
    ensures { Decides result (IsUpTo renditions MOST_RENDITIONS × AreNumbersWithin numbers.now × IsPool pool) }
{
    if !is_up_to(renditions as u64, MOST_RENDITIONS) {
        return false;
    }
    if !are_within(numbers) {
        return false;
    }
    pool.is_allowed()
}

/// The settings of the ladder that is asked for, under these keys.
fn ladder_under(
    alloc: Global,
    words: LadderWords<'_, '_>,
    entries: &[EntryWords<'_>],
    keys: &[[u8; 16]],
    numbers: Numbers,
    pool: Pool,
) -> Result<Settings, AllocError>
    requires turns { HasTurns (asked_of words numbers pool) }
    requires each { map entry_value entries.now ≡ map entry_of (map (λ t. t.now) words.entries.now) }
    requires keys { length keys.now ≡ key_total (map entry_value entries.now) }
    requires fits { FitsCut numbers }
    ensures ladder { IfOk result (λ made. IsAskedLadder (asked_of words.entry numbers pool) keys.now made) }
    ensures scarce { OnErr result (0 < length entries.now) }
{
    let renditions = renditions(alloc, words, entries, keys, numbers.period)?;
    Ok(Settings {
        renditions,
        cut: cut(numbers),
        kind: kind(words.event),
        window: numbers.window,
        queue: pool.queue,
    })
}

/// The settings of the ladder that is asked for, with the keys that its entries tell; Settings where it isn't within its
/// limits, which is told before any file is read.
pub(crate) fn read_ladder<F: FileReader>(
    alloc: Global,
    files: &F,
    words: LadderWords<'_, '_>,
    entries: &[EntryWords<'_>],
    numbers: Numbers,
    pool: Pool,
) -> Result<Settings, Kept<LadderFault>>
    requires turns { HasTurns (asked_of words numbers pool) }
    requires each { map entry_value entries.now ≡ map entry_of (map (λ t. t.now) words.entries.now) }
    requires fits { FitsCut numbers × IsPool pool }
    ensures ok { IfOk result (IsReadLadder (F.gives files.now) (asked_of words.entry numbers pool)) }
    ensures outside { IfErr result (λ why. why.fault ≡ LadderFault.Settings → IsOutside (asked_of words.entry numbers pool)) }
    ensures unread { IfErr result (λ why. why.fault ≡ LadderFault.Unread →
        HasUnreadKey (F.gives files.now) (F.refuses files.now) (asked_of words.entry numbers pool)) }
    ensures bad_file { (n : ℕ) → IfErr result (λ why. why.fault ≡ LadderFault.BadKeyFile n →
        HasBadKeyFile (F.gives files.now) (asked_of words.entry numbers pool) n) }
    ensures only { IfErr result (λ why. IsBehindTexts why.fault) }
    ensures scarce { IfErr result (λ why. why.fault ≡ LadderFault.NoMemory → 0 < length entries.now) }
{
    let key_words = ladder_words(alloc, entries)?;
    let blank = room(alloc, key_words.len())?;
    let settings = ladder_under(alloc, words, entries, &blank, numbers, pool)?;
    within_limits(&settings)?;
    let keys = filled(alloc, files, &key_words, blank)?;
    let renditions = renditions(alloc, words, entries, &keys, numbers.period)?;
    Ok(Settings {
        renditions,
        ..settings
    })
}
