//! The settings of a ladder, as words tell them.
ghost use Rattle.std.specs.Prelude.{length, ◌<◌, OnErr, ◌≡◌, ◌≢◌, ◌↔◌, ◌⊎◌, ℕ, map, IfOk, IfErr, IsErrOf, OnOk};
ghost use Rattle.commands.specs.Defaults.{numbers_of};
ghost use Rattle.commands.specs.Pools.{pool_of, IsPool};
ghost use Rattle.commands.specs.Ranges.{AreNumbersWithin, IsUpTo};
ghost use Rattle.limits.specs.declared.TheConstants.{MOST_RENDITIONS};
ghost use Rattle.commands.specs.Settings.{FitsCut};
ghost use Rattle.commands.specs.Entries.{entry_value};
ghost use Rattle.commands.specs.LadderOptions.{asked_of, IsBadEntry, HasBadSalt, HasTooMany, HasNoPeriod, HasTurns, IsOutside};
ghost use Rattle.commands.specs.LadderOptions.{HasUnreadKey, HasBadKeyFile, AreOptionsOf};

use crate::entry::{EntryWords, entries, first_bad};
use crate::files::FileReader;
use crate::ladder_fault::LadderFault;
use crate::ladder_settings::{are_in_range, has_too_many, read_ladder};
use crate::numbers::{NumberWords, Numbers};
use crate::pool::{Pool, PoolWords};
use crate::settings::read_salt;
use ladder_items::Settings;
use std::alloc::{AllocError, Global};

/// The words of a ladder, as they stand.
#[derive(Clone, Copy, Debug, Drop)]
pub struct LadderWords<'b, 'a> {
    /// A text of five parts for each rendition: NAME:CODECS:WxH:KEY[+KEY..]:PATH.
    pub entries: &'b [&'a str],
    /// The salt of the vectors.
    pub salt: Option<&'a str>,
    /// Whether the playlists list all segments of an event.
    pub event: bool,
}

/// What a ladder is packed by, and where its inputs are.
#[derive(Drop)]
pub struct LadderOptions<'a> {
    pub settings: Settings,
    pub pool: Pool,
    /// The path of each rendition's input.
    pub paths: Vec<&'a str>,
}

/// Looks at the texts and the period, before any memory is taken.
fn look(words: LadderWords<'_, '_>, numbers: Numbers, pool: Pool) -> Result<(), LadderFault>
    ensures ok { OnOk result (HasTurns (asked_of words.entry numbers pool)) }
    ensures bad_entry { (n : ℕ) → IsErrOf result (LadderFault.BadEntry n) ↔ IsBadEntry (asked_of words.entry numbers pool) n }
    ensures bad_vector { IsErrOf result LadderFault.BadVector ↔ HasBadSalt (asked_of words.entry numbers pool) }
    ensures too_many { IsErrOf result LadderFault.TooMany ↔ HasTooMany (asked_of words.entry numbers pool) }
    ensures zero_period { IsErrOf result LadderFault.ZeroPeriod ↔ HasNoPeriod (asked_of words.entry numbers pool) }
    ensures unread { IsErrOf result LadderFault.Unread → ⊥ }
    ensures bad_file { (n : ℕ) → IsErrOf result (LadderFault.BadKeyFile n) → ⊥ }
    ensures only { IfErr result (λ fault. (fault ≢ LadderFault.Settings) × (fault ≢ LadderFault.NoMemory)) }
{
    if let Some(place) = first_bad(words.entries) {
        return Err(LadderFault::BadEntry(place + 1));
    }
    if read_salt(words.salt).is_err() {
        return Err(LadderFault::BadVector);
    }
    if has_too_many(words.entries) {
        return Err(LadderFault::TooMany);
    }
    if numbers.period == 0 {
        return Err(LadderFault::ZeroPeriod);
    }
    Ok(())
}

/// The path of each entry.
fn paths<'a>(alloc: Global, entries: &[EntryWords<'a>]) -> Result<Vec<&'a str>, AllocError>
    ensures ok { IfOk result (λ paths. map (λ t. t.now) paths.items ≡ map (λ entry. (entry_value entry).path) entries.now) }
    ensures scarce { OnErr result (0 < length entries.now) }
{
    let mut paths = Vec::new(alloc);
    for entry in entries {
        paths.push(entry.path)?;
    }
    Ok(paths)
}

/// The settings of a ladder with the keys that its entries tell, the numbers of its pool, and the paths of its inputs.
///
/// BadEntry is told before BadVector, that before TooMany, that before ZeroPeriod, and that before Settings. For Settings
/// NoMemory may stand, but not where a number or that of the renditions is outside its range: that is told before any memory
/// is taken, as all the others are. All of them are told before any file is read, and so is NoMemory where memory was wanted
/// for the settings; Unread and BadKeyFile are told of the first key whose file gives none.
pub fn read_ladder_options<'a, F: FileReader>(
    alloc: Global,
    files: &F,
    words: LadderWords<'_, 'a>,
    numbers: NumberWords,
    pool: PoolWords,
) -> Result<LadderOptions<'a>, LadderFault>
    ensures ok { IfOk result (λ options. AreOptionsOf (F.gives files.now) (asked_of words.entry (numbers_of numbers) (pool_of pool)) options) }
    ensures bad_entry { (n : ℕ) → IsErrOf result (LadderFault.BadEntry n) ↔ IsBadEntry (asked_of words.entry (numbers_of numbers) (pool_of pool)) n }
    ensures bad_vector { IsErrOf result LadderFault.BadVector ↔ HasBadSalt (asked_of words.entry (numbers_of numbers) (pool_of pool)) }
    ensures too_many { IsErrOf result LadderFault.TooMany ↔ HasTooMany (asked_of words.entry (numbers_of numbers) (pool_of pool)) }
    ensures zero_period { IsErrOf result LadderFault.ZeroPeriod ↔ HasNoPeriod (asked_of words.entry (numbers_of numbers) (pool_of pool)) }
    ensures settings { IsErrOf result LadderFault.Settings → IsOutside (asked_of words.entry (numbers_of numbers) (pool_of pool)) }
    ensures outside { IsOutside (asked_of words.entry (numbers_of numbers) (pool_of pool)) → IsErrOf result LadderFault.Settings ⊎
        IsErrOf result LadderFault.NoMemory }
    ensures unread { IsErrOf result LadderFault.Unread → HasUnreadKey (F.gives files.now) (F.refuses files.now)
        (asked_of words.entry (numbers_of numbers) (pool_of pool)) }
    ensures bad_file { (n : ℕ) → IsErrOf result (LadderFault.BadKeyFile n) →
        HasBadKeyFile (F.gives files.now) (asked_of words.entry (numbers_of numbers) (pool_of pool)) n }
    ensures no_memory { IsErrOf result LadderFault.NoMemory → HasTurns (asked_of words.entry (numbers_of numbers) (pool_of pool)) ×
        FitsCut (numbers_of numbers) × IsPool (pool_of pool) }
    ensures in_range { IsErrOf result LadderFault.NoMemory → IsUpTo (length words.entry.entries.now) MOST_RENDITIONS ×
        AreNumbersWithin (numbers_of numbers) }

    // A ladder without entries wants none.
    ensures scarce { IsErrOf result LadderFault.NoMemory → 0 < length words.entry.entries.now }
{
    let numbers = numbers.numbers();
    let pool = pool.pool();
    look(words, numbers, pool)?;
    if !are_in_range(words.entries.len(), &numbers, pool) {
        return Err(LadderFault::Settings);
    }
    let entries = entries(alloc, words.entries)?;
    let settings = read_ladder(alloc, files, words, &entries, numbers, pool)?;
    Ok(LadderOptions {
        settings,
        pool,
        paths: paths(alloc, &entries)?,
    })
}
