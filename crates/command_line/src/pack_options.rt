//! The options of `pack`: how help shows them, and the words that were given.
ghost use Rattle.std.specs.Prelude.{◌≡◌, [], Some, codes, false, map, option_map, IfOk, OnErr, length, ◌<◌};
ghost use Rattle.clap.specs.Words.{first_value, found_of, items_of, rule_of};
ghost use Rattle.command_line.specs.Offered.{Offers, flag_offered, ladder_offered};
ghost use Rattle.command_line.specs.Options.{flagged};
ghost use Rattle.command_line.specs.Words.{ArePoolWords, IsFlagOf, text_of, texts_of};

use crate::options::{
    NUMBERS, NumberOption, flag, given_number, needed_text, with_forms, with_numbers, with_option,
};
use crate::shown;
use clap::{Arg, ArgMatches};
use commands::{LadderWords, PoolWords};
use std::alloc::{AllocError, Global};

/// Options, and those of a ladder, of the threads that seal it and of reading it ahead, its entries, and the numbers of a packager.
pub fn with_ladder<'a>(alloc: Global, options: Vec<Arg<'a>>) -> Result<Vec<Arg<'a>>, AllocError>
    ensures { IfOk result (λ made. Offers options.entry.items ladder_offered made.items) }
{
    let options = with_option(options, shown::out(alloc))?;
    let options = with_flags(alloc, options, &FOLDER)?;
    let options = with_option(options, shown::metrics(alloc))?;
    let options = with_numbers(alloc, options, &POOL)?;
    let options = with_option(options, shown::entries(alloc))?;
    let options = with_forms(alloc, options)?;
    with_numbers(alloc, options, &NUMBERS)
}

/// An option without a value: its name, and what help says of it.
type FlagOption = (&'static str, &'static str);

/// How the folder is dealt with: what an earlier run left there, what goes, and whether it is synced.
const FOLDER: [FlagOption; 3] = [
    (
        "resume",
        "Go on from the playlists in DIR, where there are any: the next numbers, behind a discontinuity",
    ),
    (
        "remove",
        "Remove segments that no player can want any more: for a live ladder, whose streams come as fast as they play",
    ),
    (
        "sync",
        "Wait until each file is on the disk: a machine that loses its power then keeps all that was listed",
    ),
];

/// An option without a value, as a table tells it.
fn flag_from<'a>(alloc: Global, option: FlagOption) -> Arg<'a>
    ensures rule { rule_of result ≡ flagged option.entry }
    ensures alone { result.global ≡ false }
    ensures bare { items_of result.val_names ≡ [] }
    ensures help { result.help ≡ Some option.entry.1 }
{
    let (name, help) = option;
    flag(alloc, name, help)
}

/// Options, and those of a table, without values.
fn with_flags<'a>(
    alloc: Global,
    options: Vec<Arg<'a>>,
    flags: &[FlagOption],
) -> Result<Vec<Arg<'a>>, AllocError>
    ensures ok { IfOk result (λ made. Offers options.entry.items (map flag_offered flags.now) made.items) }
    ensures scarce { OnErr result (0 < length flags.now) }
{
    let mut options = options;
    for &option in flags {
        options = with_option(options, flag_from(alloc, option))?;
    }
    Ok(options)
}

/// The numbers of the threads that seal, and of reading ahead.
const POOL: [NumberOption; 5] = [
    (
        "workers",
        "NUMBER",
        "How many threads seal, 1 to 64",
        Some("4"),
    ),
    (
        "queue",
        "SEGMENTS",
        "How many segments may be on their way, 1 to 256",
        Some("16"),
    ),
    (
        "batch",
        "SEGMENTS",
        "With how many closed segments a round of sealing begins at the latest, 1 to 256; with fewer where no stream has more to read [default: the queue]",
        None,
    ),
    (
        "stall",
        "SECONDS",
        "A stream that gives nothing for so long can't be read, 1 to 86400 [default: it is waited for]",
        None,
    ),
    (
        "ahead",
        "MIB",
        "How much is read ahead of all streams together, 1 to 65536 [default: 32 for each, 8 for a plain file]",
        None,
    ),
];

/// The texts of a ladder's renditions.
pub fn entry_words<'a>(alloc: Global, options: &ArgMatches<'a>) -> Result<Vec<&'a str>, AllocError>
    ensures ok { IfOk result (λ texts. map (λ t. t.now) texts.items ≡ texts_of (found_of options.now) (codes "entries")) }
    ensures scarce { OnErr result (0 < length (texts_of (found_of options.now) (codes "entries"))) }
{
    let mut entries = Vec::new(alloc);
    if let Some(texts) = options.get_strs("entries") {
        entries.extend_from_slice(texts)?;
    }
    Ok(entries)
}

/// The words of a ladder of these entries.
pub fn ladder_words<'b, 'a>(options: &ArgMatches<'a>, entries: &'b [&'a str]) -> LadderWords<'b, 'a>
    ensures entries { result.entries.now ≡ entries.now }
    ensures salt { option_map (λ t. t.now) result.salt ≡ first_value (found_of options.now) (codes "salt") }
    ensures event { IsFlagOf (found_of options.now) (codes "event") result.event }
{
    LadderWords {
        entries,
        salt: options.get_str("salt"),
        event: options.get_flag("event"),
    }
}

/// The folder that a ladder goes to.
pub fn folder_word<'a>(options: &ArgMatches<'a>) -> &'a str
    ensures { result.now ≡ text_of (found_of options.now) (codes "out") }
{
    needed_text(options, "out")
}

/// Whether the ladder goes on from the playlists in its folder.
pub fn resume_word(options: &ArgMatches<'_>) -> bool
    ensures { IsFlagOf (found_of options.now) (codes "resume") result }
{
    options.get_flag("resume")
}

/// Whether segments are removed that no player can want any more.
pub fn remove_word(options: &ArgMatches<'_>) -> bool
    ensures { IsFlagOf (found_of options.now) (codes "remove") result }
{
    options.get_flag("remove")
}

/// Whether the folder is synced.
pub fn sync_word(options: &ArgMatches<'_>) -> bool
    ensures { IsFlagOf (found_of options.now) (codes "sync") result }
{
    options.get_flag("sync")
}

/// The file of metrics, where one is named.
pub fn metrics_word<'a>(options: &ArgMatches<'a>) -> Option<&'a str>
    ensures { option_map (λ t. t.now) result ≡ first_value (found_of options.now) (codes "metrics") }
{
    options.get_str("metrics")
}

/// The numbers of the threads that seal, and of reading ahead, as they were given.
pub fn pool_words(options: &ArgMatches<'_>) -> PoolWords
    ensures { ArePoolWords (found_of options.now) result }
{
    PoolWords {
        workers: given_number(options, "workers"),
        queue: given_number(options, "queue"),
        batch: given_number(options, "batch"),
        stall: given_number(options, "stall"),
        ahead: given_number(options, "ahead"),
    }
}
