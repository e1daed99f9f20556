//! A packager's settings, as words tell them.
ghost use Rattle.std.specs.Prelude.{◌≡◌, ◌↔◌, ◌≢◌, ◌<◌, ◌≤◌, ◌⊎◌, ℕ, Some, None, length, false, true, OnOk, IfOk, IfErr, IsErr, IsErrAnd, IsErrOf};
ghost use Rattle.std.specs.Option.{option_map};
ghost use Rattle.commands.specs.Defaults.{numbers_of};
ghost use Rattle.commands.specs.Hex.{chosen_salt};
ghost use Rattle.commands.specs.KeyLists.{IsBadKeyFile, IsUnreadKey, are_keys, key_texts};
ghost use Rattle.commands.specs.Ranges.{AreNumbersWithin};
ghost use Rattle.commands.specs.Sizes.{IsSize, HasSize};
ghost use Rattle.commands.specs.Settings.{words_of, kind_of, AreGoodWords, HasSalt, AreFit, IsRenditionOf, IsReadLadderOf, FitsCut, TakeTurns};
ghost use Rattle.commands.specs.Settings.{AreInside, AreOutside, IsBehindWords, IsLadderOf};

use crate::cipher::block;
use crate::files::FileReader;
use crate::frame_size::{FrameSize, size};
use crate::kept::Kept;
use crate::key_list::{are_keys, key_count, key_room, read_keys};
use crate::key_word::KeyFileFault;
use crate::numbers::{NumberWords, Numbers, cut, name};
use crate::outside::are_within;
use crate::within::{OutsideLimits, within_limits};
use ladder_items::{Gone, Kind, Rendition, Settings};
use limits::MOST_KEYS;
use segment_job::Keys;
use std::alloc::{AllocError, Global};
use thiserror::Error;

/// The words of a packager of one rendition, as they stand.
#[derive(Clone, Copy, Debug, Drop)]
pub struct PackingWords<'a> {
    pub name: Option<&'a str>,
    pub codecs: &'a str,
    pub size: &'a str,
    pub keys: &'a str,
    /// The salt of the vectors.
    pub salt: Option<&'a str>,
    /// Whether the playlists list all segments of an event.
    pub event: bool,
}

/// Why words and numbers tell no settings.
#[derive(Clone, Copy, Debug, PartialEq, Eq, Error)]
pub enum SettingsFault {
    /// A key is neither 32 hex digits nor the name of a file.
    #[error("a key isn't 32 hex digits")]
    BadKey,
    /// The size isn't two numbers round an `x`.
    #[error("the size isn't two numbers round an x")]
    BadSize,
    /// The salt isn't 32 hex digits.
    #[error("the salt isn't 32 hex digits")]
    BadVector,
    /// There are more than 4,096 keys.
    #[error("there are too many keys")]
    TooMany,
    /// The keys take turns after no segment at all.
    #[error("the keys take turns after no segment")]
    ZeroPeriod,
    /// A number is outside its limits, or the rendition can't be listed.
    #[error("the settings aren't allowed")]
    Settings,
    /// The file of a key can't be read.
    #[error("a key file can't be read")]
    Unread,
    /// The file of this key, counted from 1, is neither 16 bytes nor 32 hex digits with at most one LF behind them.
    #[error("the file of key {0} is neither 16 bytes nor 32 hex digits")]
    BadKeyFile(usize),
    #[error("out of memory")]
    NoMemory,
}

impl SettingsFault {
    ghost use Rattle.commands.specs.Statuses.{settings_status};

    /// The status that a process ends with: 2 for a bad key, size or salt, else 1.
    pub fn status(&self) -> u8
        ensures { result ≡ settings_status self.now }
    {
        match self {
            SettingsFault::BadKey | SettingsFault::BadSize | SettingsFault::BadVector => 2,
            _ => 1,
        }
    }
}

impl From<Kept<SettingsFault>> for SettingsFault {
    ghost from_gives = { λ why fault. fault ≡ why.fault };

    fn from(why: Kept<SettingsFault>) -> SettingsFault {
        why.into_fault()
    }
}

impl From<AllocError> for Kept<SettingsFault> {
    ghost use Rattle.commands.specs.declared.settings.SettingsFault.TheVariants.{NoMemory};

    ghost from_gives = { λ _ why. why.fault ≡ NoMemory };

    fn from(_: AllocError) -> Kept<SettingsFault> {
        SettingsFault::NoMemory.into()
    }
}

impl From<OutsideLimits> for Kept<SettingsFault> {
    ghost use Rattle.commands.specs.declared.settings.SettingsFault.TheVariants.{Settings};

    ghost from_gives = { λ _ why. why.fault ≡ Settings };

    fn from(found: OutsideLimits) -> Kept<SettingsFault> {
        let OutsideLimits = found;
        SettingsFault::Settings.into()
    }
}

impl From<Kept<KeyFileFault>> for Kept<SettingsFault> {
    ghost use Rattle.commands.specs.Told.{settings_fault_of};

    ghost from_gives = { λ found why. why.fault ≡ settings_fault_of found.fault };

    fn from(found: Kept<KeyFileFault>) -> Kept<SettingsFault> {
        let fault = match found.into_fault() {
            KeyFileFault::Unread => SettingsFault::Unread,
            KeyFileFault::BadKeyFile(number) => SettingsFault::BadKeyFile(number),
            KeyFileFault::NoMemory => SettingsFault::NoMemory,
        };
        fault.into()
    }
}

/// One thread has one segment on its way.
const QUEUE: u64 = 1;

/// The salt of 32 hex digits, where there is one; BadVector for any other text.
pub(crate) fn read_salt(text: Option<&str>) -> Result<Option<[u8; 16]>, SettingsFault>
    ensures ok { IfOk result (λ salt. chosen_salt (option_map (λ t. t.now) text.entry) ≡ Some salt) }
    ensures bad { IsErrOf result SettingsFault.BadVector ↔ (chosen_salt (option_map (λ t. t.now) text.entry) ≡ None) }
    ensures only { IsErr result → IsErrOf result SettingsFault.BadVector }
{
    let Some(text) = text else {
        return Ok(None);
    };
    match block(text) {
        Some(salt) => Ok(Some(salt)),
        None => Err(SettingsFault::BadVector),
    }
}

/// Looks at the words of a rendition, before any memory is taken.
fn look(words: PackingWords<'_>, period: u64) -> Result<(), SettingsFault>
    ensures good { OnOk result (AreGoodWords (words_of words.entry) period) }
    ensures bad_key { IsErrOf result SettingsFault.BadKey ↔ (are_keys words.entry.keys.now ≡ false) }
    ensures bad_size { IsErrOf result SettingsFault.BadSize ↔ ((are_keys words.entry.keys.now ≡ true) × ¬ HasSize words.entry.size.now) }
    ensures bad_vector { IsErrOf result SettingsFault.BadVector ↔
        ((are_keys words.entry.keys.now ≡ true) × HasSize words.entry.size.now × (chosen_salt (words_of words.entry).salt ≡ None)) }
    ensures too_many { IsErrOf result SettingsFault.TooMany ↔
        ((are_keys words.entry.keys.now ≡ true) × HasSize words.entry.size.now × HasSalt (words_of words.entry) ×
        (MOST_KEYS < length (key_texts words.entry.keys.now))) }
    ensures zero_period { IsErrOf result SettingsFault.ZeroPeriod ↔
        ((are_keys words.entry.keys.now ≡ true) × HasSize words.entry.size.now × HasSalt (words_of words.entry) ×
        (length (key_texts words.entry.keys.now) ≤ MOST_KEYS) × (period ≡ 0)) }
    ensures unread { IsErrOf result SettingsFault.Unread → ⊥ }
    ensures bad_file { (n : ℕ) → IsErrOf result (SettingsFault.BadKeyFile n) → ⊥ }
    ensures only { IfErr result (λ fault. (fault ≢ SettingsFault.Settings) × (fault ≢ SettingsFault.NoMemory)) }
{
    if !are_keys(words.keys) {
        return Err(SettingsFault::BadKey);
    }
    if size(words.size).is_none() {
        return Err(SettingsFault::BadSize);
    }
    read_salt(words.salt)?;
    if key_count(words.keys) as u64 > MOST_KEYS {
        return Err(SettingsFault::TooMany);
    }
    if period == 0 {
        return Err(SettingsFault::ZeroPeriod);
    }
    Ok(())
}

/// Keys that take turns by the period, with a salt where there is one.
fn rotation(keys: Vec<[u8; 16]>, period: u64, salt: Option<[u8; 16]>) -> Keys
    requires some { 0 < length keys.items }
    requires turns { TakeTurns keys.items period }
    ensures { result ≡ record { keys = keys.items; period = period; salt = salt; first = 0 } }
{
    let made = match salt {
        None => Keys::new(keys, period),
        Some(salt) => Keys::salted(keys, period, salt),
    };
    match made {
        Ok(keys) => keys,
        Err(_) => unreachable!(),
    }
}

/// What the words of a rendition tell of its size and its salt.
#[derive(Clone, Copy, Drop)]
struct Parts {
    size: FrameSize,
    salt: Option<[u8; 16]>,
}

/// The rendition of good words and their keys, which take turns after as many segments as the period says.
fn rendition(
    alloc: Global,
    words: PackingWords<'_>,
    keys: Vec<[u8; 16]>,
    parts: Parts,
    period: u64,
) -> Result<Rendition, AllocError>
    requires good { AreGoodWords (words_of words) period }
    requires keys { length keys.items ≡ length (key_texts words.keys.now) }
    requires size { IsSize words.size.now parts.size.width parts.size.height }
    requires salt { chosen_salt (words_of words).salt ≡ Some parts.salt }
    ensures { IfOk result (λ made. IsRenditionOf (words_of words.entry) period keys.items made) }
{
    Ok(Rendition {
        name: String::from_str(alloc, name(words.name))?,
        codecs: String::from_str(alloc, words.codecs)?,
        width: parts.size.width,
        height: parts.size.height,
        keys: rotation(keys, period, parts.salt),
        salt: parts.salt,
        gone: Gone::nothing(),
        earlier: Vec::new(alloc),
    })
}

/// The rendition of words that are known to be good, and of their keys.
pub(crate) fn rendition_of(
    alloc: Global,
    words: PackingWords<'_>,
    keys: &[[u8; 16]],
    period: u64,
) -> Result<Rendition, AllocError>
    requires good { AreGoodWords (words_of words) period }
    requires keys { length keys.now ≡ length (key_texts words.keys.now) }
    ensures { IfOk result (λ made. IsRenditionOf (words_of words.entry) period keys.now made) }
{
    let Some(size) = size(words.size) else {
        unreachable!()
    };
    let Ok(salt) = read_salt(words.salt) else {
        unreachable!()
    };
    let keys = Vec::from_slice(alloc, keys)?;
    rendition(alloc, words, keys, Parts { size, salt }, period)
}

/// Playlists that slide, or those of an event.
pub(crate) fn kind(event: bool) -> Kind
    ensures { result ≡ kind_of event }
{
    if event { Kind::Event } else { Kind::Live }
}

/// The settings of one rendition, of good words and these keys.
fn settings_under(
    alloc: Global,
    words: PackingWords<'_>,
    keys: &[[u8; 16]],
    numbers: Numbers,
) -> Result<Settings, AllocError>
    requires fit { AreFit (words_of words) numbers }
    requires keys { length keys.now ≡ length (key_texts words.keys.now) }
    ensures { IfOk result (IsLadderOf (words_of words.entry) numbers keys.now) }
{
    let rendition = rendition_of(alloc, words, keys, numbers.period)?;
    let mut renditions = Vec::new(alloc);
    renditions.push(rendition)?;
    Ok(Settings {
        renditions,
        cut: cut(numbers),
        kind: kind(words.event),
        window: numbers.window,
        queue: QUEUE,
    })
}

/// The settings of one rendition with the keys that its words tell; Settings where they aren't within their limits, which is
/// told before any file is read.
fn read_within<F: FileReader>(
    alloc: Global,
    files: &F,
    words: PackingWords<'_>,
    numbers: Numbers,
) -> Result<Settings, Kept<SettingsFault>>
    requires fit { AreFit (words_of words) numbers }
    ensures ok { IfOk result (IsReadLadderOf (F.gives files.now) (words_of words.entry) numbers) }
    ensures settings { IfErr result (λ why. why.fault ≡ SettingsFault.Settings → AreOutside (words_of words.entry) numbers) }
    ensures outside { AreOutside (words_of words.entry) numbers →
        IsErrAnd result (λ why. (why.fault ≡ SettingsFault.Settings) ⊎ (why.fault ≡ SettingsFault.NoMemory)) }
    ensures unread { IfErr result (λ why. why.fault ≡ SettingsFault.Unread → AreInside (words_of words.entry) numbers ×
        IsUnreadKey (F.gives files.now) (F.refuses files.now) words.entry.keys.now) }
    ensures bad_file { (n : ℕ) → IfErr result (λ why. why.fault ≡ SettingsFault.BadKeyFile n → AreInside (words_of words.entry) numbers ×
        IsBadKeyFile (F.gives files.now) words.entry.keys.now n) }
    ensures only { IfErr result (λ why. IsBehindWords why.fault) }
{
    let room = key_room(alloc, words.keys)?;
    let blank = settings_under(alloc, words, &room.keys, numbers)?;
    within_limits(&blank)?;
    let keys = read_keys(alloc, files, room, words.keys)?;
    let settings = settings_under(alloc, words, &keys, numbers)?;
    Ok(settings)
}

/// The settings of one rendition, with the keys that its words tell.
///
/// BadKey is told before BadSize, that before BadVector, that before TooMany, that before ZeroPeriod, and that before Settings.
/// For Settings NoMemory may stand, but not where a number is outside its range: that is told before any memory is taken, as
/// all the others are. All of them are told before any file is read, and so is NoMemory where memory was wanted for the
/// settings. Unread and BadKeyFile are told of the first key whose file gives none, counted from 1.
pub fn read_settings<F: FileReader>(
    alloc: Global,
    files: &F,
    words: PackingWords<'_>,
    numbers: NumberWords,
) -> Result<Settings, SettingsFault>
    ensures ok { IfOk result (IsReadLadderOf (F.gives files.now) (words_of words.entry) (numbers_of numbers)) }
    ensures bad_key { IsErrOf result SettingsFault.BadKey ↔ (are_keys words.entry.keys.now ≡ false) }
    ensures bad_size { IsErrOf result SettingsFault.BadSize ↔ ((are_keys words.entry.keys.now ≡ true) × ¬ HasSize words.entry.size.now) }
    ensures bad_vector { IsErrOf result SettingsFault.BadVector ↔
        ((are_keys words.entry.keys.now ≡ true) × HasSize words.entry.size.now × (chosen_salt (words_of words.entry).salt ≡ None)) }
    ensures too_many { IsErrOf result SettingsFault.TooMany ↔
        ((are_keys words.entry.keys.now ≡ true) × HasSize words.entry.size.now × HasSalt (words_of words.entry) ×
        (MOST_KEYS < length (key_texts words.entry.keys.now))) }
    ensures zero_period { IsErrOf result SettingsFault.ZeroPeriod ↔
        ((are_keys words.entry.keys.now ≡ true) × HasSize words.entry.size.now × HasSalt (words_of words.entry) ×
        (length (key_texts words.entry.keys.now) ≤ MOST_KEYS) × ((numbers_of numbers).period ≡ 0)) }
    ensures settings { IsErrOf result SettingsFault.Settings → AreOutside (words_of words.entry) (numbers_of numbers) }
    ensures outside { AreOutside (words_of words.entry) (numbers_of numbers) → IsErrOf result SettingsFault.Settings ⊎
        IsErrOf result SettingsFault.NoMemory }
    ensures unread { IsErrOf result SettingsFault.Unread → AreInside (words_of words.entry) (numbers_of numbers) ×
        IsUnreadKey (F.gives files.now) (F.refuses files.now) words.entry.keys.now }
    ensures bad_file { (n : ℕ) → IsErrOf result (SettingsFault.BadKeyFile n) → AreInside (words_of words.entry) (numbers_of numbers) ×
        IsBadKeyFile (F.gives files.now) words.entry.keys.now n }
    ensures no_memory { IsErrOf result SettingsFault.NoMemory → AreFit (words_of words.entry) (numbers_of numbers) }
    ensures in_range { IsErrOf result SettingsFault.NoMemory → AreNumbersWithin (numbers_of numbers) }
{
    let numbers = numbers.numbers();
    look(words, numbers.period)?;
    if !are_within(&numbers) {
        return Err(SettingsFault::Settings);
    }
    let settings = read_within(alloc, files, words, numbers)?;
    Ok(settings)
}
