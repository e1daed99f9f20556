//! Why settings aren't allowed: the option, or the entry of a ladder, that is outside its limits.
ghost use Rattle.std.specs.Prelude.{◌≡◌, Any, Decides, IfOk, MatchOption, Some, false, map, option_map, true};
ghost use Rattle.std.specs.Fmt.{DisplaysOnOk};
ghost use Rattle.commands.specs.Defaults.{numbers_of};
ghost use Rattle.commands.specs.Pools.{pool_of};
ghost use Rattle.commands.specs.Ranges.{AreWithin, outside_of};
ghost use Rattle.command_line.specs.Explanations.{IsListable, MayBeSide, MayBeSize, TellsFirstOutside, TellsUnlistable, WritesOutside};
ghost use Rattle.command_line.specs.Explanations.{option_word, outside_text, range_text};
ghost use Rattle.command_line.specs.EntryTexts.{IsNamed};
ghost use Rattle.command_line.specs.SettingsWords.{entries_words, is_among, may_be_size, rendition_words, unlistable};

use commands::{NumberWords, PoolWords, Ranged, cut_entry, first_outside};
use limits::{MOST_PIXELS, MOST_RENDITIONS};
use playlist_text::{is_codecs, is_name};
use std::fmt;

/// The option, its range and its unit.
fn range_of(option: Ranged) -> (&'static str, &'static str)
    ensures option { result.0.now ≡ option_word option }
    ensures range { result.1.now ≡ range_text option }
{
    match option {
        Ranged::Target => ("--target", "1 to 3600 seconds"),
        Ranged::Segment => ("--segment", "1 second to the target"),
        Ranged::Window => ("--window", "1 to 10000 segments"),
        Ranged::Frame => ("--frame", "1 to 900000 ticks"),
        Ranged::Gap => ("--gap", "1 to 4294967295 ticks"),
        Ranged::Most => ("--most", "1 to 1000000 packets"),
        Ranged::Program => ("--program", "1 to 65535"),
        Ranged::Workers => ("--workers", "1 to 64"),
        Ranged::Queue => ("--queue", "1 to 256 segments"),
        Ranged::Batch => ("--batch", "1 to 256 segments"),
        Ranged::Stall => ("--stall", "1 to 86400 seconds"),
        Ranged::Ahead => ("--ahead", "1 to 65536 MiB"),
    }
}

/// Writes that this option is outside its range.
fn write_option<W: fmt::Write>(f: &mut fmt::Formatter<W>, option: Ranged) -> fmt::Result
    ensures { DisplaysOnOk W.write_str_gives f.old result (Some (outside_text option)) f.new }
{
    let (name, range) = range_of(option);
    write!(f, "{name} is outside its range, {range}")
}

/// Writes which option is outside its range, and answers whether one is.
pub(crate) fn write_outside<W: fmt::Write>(
    f: &mut fmt::Formatter<W>,
    numbers: NumberWords,
    pool: PoolWords,
) -> Result<bool, fmt::Error>
    ensures some { IfOk result (λ told. told ≡ true → TellsFirstOutside W.write_str_gives (numbers_of numbers) (pool_of pool) f.old f.new) }
    ensures none { IfOk result (λ told. told ≡ false → AreWithin (numbers_of numbers) (pool_of pool)) }
    ensures words { IfOk result (λ told. WritesOutside W.write_str_gives (outside_of (numbers_of numbers) (pool_of pool)) told f.old f.new) }
{
    match first_outside(&numbers.numbers(), pool.pool()) {
        Some(option) => {
            write_option(f, option)?;
            Ok(true)
        }
        None => Ok(false),
    }
}

/// Whether a side of a size has 1 to 16,384 pixels, if it is a number.
fn is_side(text: &str) -> bool
    ensures { Decides result (MayBeSide text.now) }
{
    match text.parse::<u64>() {
        Ok(pixels) => 1 <= pixels && pixels <= MOST_PIXELS,
        Err(_) => true,
    }
}

/// Whether both sides round the first x of a size may be sides.
fn may_be_size(text: &str) -> bool
    ensures ok { Decides result (MayBeSize text.now) }
    ensures same { result ≡ may_be_size text.now }
{
    let Some((width, height)) = text.split_once('x') else {
        return false;
    };
    is_side(width) && is_side(height)
}

/// What a rendition can't be listed by, if there is such a thing.
#[tactic(auto, unfolding(crate::specs::SettingsWords::unlistable))]
fn unlistable(name: &str, codecs: &str, size: &str) -> Option<&'static str>
    ensures ok { MatchOption result (IsListable name.now codecs.now size.now) (λ why. TellsUnlistable name.now codecs.now size.now why.now) }
    ensures words { option_map (λ t. t.now) result ≡ unlistable name.now codecs.now size.now }
{
    if !is_name(name) {
        return Some(
            "the name is not 1 to 64 bytes without control bytes, '/', '.' and ':', or it is 'master'",
        );
    }
    if !is_codecs(codecs) {
        return Some("the codecs are not 1 to 128 printable ASCII bytes without a quotation mark");
    }
    if !may_be_size(size) {
        return Some("a side of the size is outside 1 to 16384 pixels");
    }
    None
}

/// Writes why the rendition of `one` can't be listed.
pub(crate) fn write_unlistable<W: fmt::Write>(
    f: &mut fmt::Formatter<W>,
    name: &str,
    codecs: &str,
    size: &str,
) -> fmt::Result
    ensures { DisplaysOnOk W.write_str_gives f.old result (Some (rendition_words name.now codecs.now size.now)) f.new }
{
    f.write_str(unlistable(name, codecs, size).unwrap_or("an option is outside its range"))
}

/// Writes why the entries of a ladder can't be listed together.
pub(crate) fn write_unlistable_entries<W: fmt::Write>(
    f: &mut fmt::Formatter<W>,
    entries: &[&str],
) -> fmt::Result
    ensures { DisplaysOnOk W.write_str_gives f.old result (Some (entries_words (map (λ t. t.now) entries.now))) f.new }
{
    if entries.len() as u64 > MOST_RENDITIONS {
        return write!(f, "there are more than {MOST_RENDITIONS} entries");
    }
    for place in 0..entries.len() {
        let Some(words) = cut_entry(entries[place]) else {
            continue;
        };
        let number = place as u64 + 1;
        if let Some(why) = unlistable(words.name, words.codecs, words.size) {
            return write!(f, "entry {number}: {why}");
        }
        if is_among(words.name, &entries[..place]) {
            return write!(
                f,
                "entry {number} has the name of an earlier one, {}",
                words.name
            );
        }
    }
    f.write_str("an option is outside its range")
}

/// Whether one of these entries has the name.
fn is_among(name: &str, entries: &[&str]) -> bool
    ensures ok { Decides result (Any (IsNamed name.now) (map (λ t. t.now) entries.now)) }
    ensures same { result ≡ is_among name.now (map (λ t. t.now) entries.now) }
{
    for place in 0..entries.len() {
        if is_named(entries[place], name) {
            return true;
        }
    }
    false
}

/// Whether an entry has the name.
fn is_named(text: &str, name: &str) -> bool
    ensures { Decides result (IsNamed name.now text.now) }
{
    let Some(words) = cut_entry(text) else {
        return false;
    };
    words.name == name
}
