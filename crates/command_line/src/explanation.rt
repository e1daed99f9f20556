//! What a fault means, in words, for whoever reads it at a terminal: which option, entry or path is meant, and why.
ghost use Rattle.std.specs.Prelude.{◌≡◌, ◌≢◌, ◌++◌, IfOk, IfSome, IsSome, None, Ok, Some, codes, map, option_map, true};
ghost use Rattle.std.specs.Fmt.{DisplaysOnOk};
ghost use Rattle.std.specs.String.{string_bytes};
ghost use Rattle.clap.specs.Words.{found_of, subcommand_of, takes};
ghost use Rattle.clap.specs.declared.error.Error.{Error};
ghost use Rattle.commands.specs.Entries.{entry_value};
ghost use Rattle.command_line.specs.EntryTexts.{
  bad_entry_text,
  bad_key_file_text,
  entry_at,
  entry_numbered,
  entry_text,
  read_reason,
  rendition_text,
  resuming_words,
  segment_text,
};
ghost use Rattle.command_line.specs.FaultWords.{Explains, fault_words, fault_words_line, one_words, pack_words, run_words};
ghost use Rattle.command_line.specs.Faults.{IsIndentedLine};
ghost use Rattle.command_line.specs.Jobs.{IsCommand};
ghost use Rattle.command_line.specs.Options.{tshls};
ghost use Rattle.command_line.specs.SettingsWords.{settings_words};
ghost use Rattle.command_line.specs.Words.{is_given, texts_of};

use crate::fault::Fault;
use crate::job::program;
use crate::options::{is_given, number_words, packing_words};
use crate::pack_options::pool_words;
use crate::reasons::{
    BAD_KEY_FILE, BAD_KEYS, NO_MEMORY, UNREAD_KEY, checking_reason, cipher_reason, key_list_reason,
    opening_reason, resuming_reason, sealing_reason, unopened_reason,
};
use crate::settings_reason::{write_outside, write_unlistable, write_unlistable_entries};
use channel::ResumingFault;
use clap::ArgMatches;
use clap::error::ErrorKind;
use commands::{
    DEFAULT_NAME, EntryWords, LadderFault, LadderPackingFault, SettingsFault, cut_entry,
};
use ladder_items::PackFault;
use std::alloc::{AllocError, Global};
use std::convert::AsStr;
use std::fmt;

/// The words of a fault, by the options of the command that it comes from.
#[derive(Clone, Copy, Drop)]
struct Explanation<'f, 'b, 'a> {
    fault: &'f Fault,
    options: &'b ArgMatches<'a>,
}

/// The words of a fault, as a line that is indented by two spaces. None where the fault's own text has them already. No key
/// is ever in them.
pub fn explain<S: AsStr>(
    alloc: Global,
    words: &[S],
    fault: &Fault,
) -> Result<Option<String>, AllocError>
    ensures line { IfOk result (λ found. IfSome found (λ text. IsIndentedLine (string_bytes text))) }
    ensures usage { (error : Error) → fault.now ≡ Fault.Usage error → result ≡ Ok None }
    ensures told { ((error : Error) → fault.now ≢ Fault.Usage error) → takes tshls (map S.text words.now) ≡ true →
        IsCommand (subcommand_of tshls (map S.text words.now)) → IfOk result (λ found. IsSome found) }
    ensures words { IfOk result (λ found. IfSome found (λ text.
        Explains (subcommand_of tshls (map S.text words.now)) fault.now (string_bytes text))) }
{
    if matches!(fault, Fault::Usage(_)) {
        return Ok(None);
    }
    let mut program = program(alloc, "")?;
    let matches = match program.matches(words) {
        Ok(matches) => matches,
        Err(error) if error.kind() == ErrorKind::OutOfMemory => return Err(AllocError),
        Err(_) => return Ok(None),
    };
    match matches.subcommand() {
        Some((_, options)) => Ok(Some(explained(alloc, options, fault)?)),
        None => Ok(None),
    }
}

/// The same, by the options of a command.
fn explained(alloc: Global, options: &ArgMatches<'_>, fault: &Fault) -> Result<String, AllocError>
    ensures ok { IfOk result (λ text. IsIndentedLine (string_bytes text)) }
    ensures words { IfOk result (λ text. string_bytes text ≡ fault_words_line (found_of options.now) fault.now) }
{
    let words = format!(in alloc; "{}", Explanation { fault, options })?;
    format!(in alloc; "  {words}\n")
}

impl fmt::Display for Explanation<'_, '_, '_> {
    ghost output = { λ e. Some (fault_words (found_of e.options.now) e.fault.now) };

    fn fmt<W: fmt::Write>(&self, f: &mut fmt::Formatter<W>) -> fmt::Result {
        match self.fault {
            Fault::Usage(_) => f.write_str("out of memory"),
            Fault::NoMemory => f.write_str("out of memory"),
            Fault::Busy => f.write_str(
                "another tshls packs into this folder; nothing was read or written",
            ),
            Fault::NotUtf8 => f.write_str("a word of the command line is not UTF-8"),
            Fault::Cipher(fault) => f.write_str(cipher_reason(*fault)),
            Fault::KeyList(fault) => f.write_str(key_list_reason(*fault)),
            Fault::Settings(fault) => write_one(f, self.options, *fault),
            Fault::Ladder(fault) => write_pack(f, self.options, *fault),
            Fault::Sealing(fault) => f.write_str(sealing_reason(*fault)),
            Fault::Opening(fault) => f.write_str(opening_reason(*fault)),
            Fault::Resuming(fault) => write_resuming(f, self.options, *fault),
            Fault::Unopened(fault) => f.write_str(unopened_reason(*fault)),
            Fault::Packing(fault) => write_packing(f, self.options, *fault),
            Fault::LadderPacking(LadderPackingFault::Packing(fault)) => {
                write_packing(f, self.options, *fault)
            }
            Fault::LadderPacking(LadderPackingFault::Unwritten) => {
                f.write_str("all was packed, but standard output can't be written")
            }
            Fault::LadderPacking(LadderPackingFault::NoMemory) => f.write_str("out of memory"),
            Fault::Checking(fault) => f.write_str(checking_reason(*fault)),
        }
    }
}

const BAD_SALT: &str = "--salt is not 32 hex digits";

const TOO_MANY: &str = "more than 4096 keys for one rendition";

const ZERO_PERIOD: &str = "--period is 0: a key seals at least one segment";

/// Writes why the words of `one` tell no settings.
fn write_one<W: fmt::Write>(
    f: &mut fmt::Formatter<W>,
    options: &ArgMatches<'_>,
    fault: SettingsFault,
) -> fmt::Result
    ensures { DisplaysOnOk W.write_str_gives f.old result (Some (one_words (found_of options.now) fault)) f.new }
{
    match fault {
        SettingsFault::BadKey => f.write_str(BAD_KEYS),
        SettingsFault::BadSize => {
            f.write_str("--size is not WIDTHxHEIGHT in pixels, as 1280x720")
        }
        SettingsFault::BadVector => f.write_str(BAD_SALT),
        SettingsFault::TooMany => f.write_str(TOO_MANY),
        SettingsFault::ZeroPeriod => f.write_str(ZERO_PERIOD),
        SettingsFault::Settings => write_settings(f, options),
        SettingsFault::Unread => f.write_str(UNREAD_KEY),
        SettingsFault::BadKeyFile(_) => f.write_str(BAD_KEY_FILE),
        SettingsFault::NoMemory => f.write_str(NO_MEMORY),
    }
}

/// Writes why those of `pack` tell no ladder.
fn write_pack<W: fmt::Write>(
    f: &mut fmt::Formatter<W>,
    options: &ArgMatches<'_>,
    fault: LadderFault,
) -> fmt::Result
    ensures { DisplaysOnOk W.write_str_gives f.old result (Some (pack_words (found_of options.now) fault)) f.new }
{
    match fault {
        LadderFault::BadEntry(n) => write_bad_entry(f, options, n),
        LadderFault::BadVector => f.write_str(BAD_SALT),
        LadderFault::TooMany => f.write_str(TOO_MANY),
        LadderFault::ZeroPeriod => f.write_str(ZERO_PERIOD),
        LadderFault::Settings => write_settings(f, options),
        LadderFault::Unread => f.write_str(UNREAD_KEY),
        LadderFault::BadKeyFile(n) => write_bad_key_file(f, options, n),
        LadderFault::NoMemory => f.write_str(NO_MEMORY),
    }
}

/// Writes which setting isn't allowed.
fn write_settings<W: fmt::Write>(f: &mut fmt::Formatter<W>, options: &ArgMatches<'_>) -> fmt::Result
    ensures { DisplaysOnOk W.write_str_gives f.old result (Some (settings_words (found_of options.now))) f.new }
{
    if write_outside(f, number_words(options), pool_words(options))? {
        return Ok(());
    }
    if let Some(entries) = options.get_strs("entries") {
        return write_unlistable_entries(f, entries);
    }
    let given = packing_words(options);
    let name = given.name.unwrap_or(DEFAULT_NAME);
    write_unlistable(f, name, given.codecs, given.size)
}

/// Writes what is wrong with the entry of this number, counted from 1.
fn write_bad_entry<W: fmt::Write>(
    f: &mut fmt::Formatter<W>,
    options: &ArgMatches<'_>,
    number: usize,
) -> fmt::Result
    ensures { DisplaysOnOk W.write_str_gives f.old result
        (Some (bad_entry_text (entry_numbered (texts_of (found_of options.now) (codes "entries")) number) number)) f.new }
{
    match entry_numbered(options, number) {
        Some(words) => write!(
            f,
            "entry {number}, {}: its size is not WIDTHxHEIGHT, or a key is not 32 hex digits",
            words.name
        ),
        None => write!(
            f,
            "entry {number} has fewer than four colons: NAME:CODECS:WxH:KEY[+KEY..]:PATH"
        ),
    }
}

/// Writes that a key file of the entry of this number, counted from 1, holds no key.
fn write_bad_key_file<W: fmt::Write>(
    f: &mut fmt::Formatter<W>,
    options: &ArgMatches<'_>,
    number: usize,
) -> fmt::Result
    ensures { DisplaysOnOk W.write_str_gives f.old result
        (Some (bad_key_file_text (entry_numbered (texts_of (found_of options.now) (codes "entries")) number) number)) f.new }
{
    write_entry(f, options, number, NO_KEY_FILE)
}

const NO_KEY_FILE: &str =
    "a key file is neither 16 bytes nor 32 hex digits with at most one line end";

/// Writes a reason that speaks of the entry of this number, counted from 1.
fn write_entry<W: fmt::Write>(
    f: &mut fmt::Formatter<W>,
    options: &ArgMatches<'_>,
    number: usize,
    why: &str,
) -> fmt::Result
    ensures { DisplaysOnOk W.write_str_gives f.old result
        (Some (entry_text (entry_numbered (texts_of (found_of options.now) (codes "entries")) number) number why.now)) f.new }
{
    match entry_numbered(options, number) {
        Some(words) => write!(f, "entry {number}, {}: {why}", words.name),
        None => write!(f, "entry {number}: {why}"),
    }
}

/// The parts of the entry at a place; None where there is none, or where it has fewer.
fn entry_at<'a>(options: &ArgMatches<'a>, place: usize) -> Option<EntryWords<'a>>
    ensures { option_map entry_value result ≡ entry_at (texts_of (found_of options.now) (codes "entries")) place }
{
    let entries = options.get_strs("entries")?;
    if place >= entries.len() {
        return None;
    }
    cut_entry(entries[place])
}

/// Those of the entry of this number, counted from 1.
fn entry_numbered<'a>(options: &ArgMatches<'a>, number: usize) -> Option<EntryWords<'a>>
    ensures { option_map entry_value result ≡ entry_numbered (texts_of (found_of options.now) (codes "entries")) number }
{
    if number == 0 {
        return None;
    }
    entry_at(options, number - 1)
}

/// Writes which rendition of a ladder is meant, by its entry and its path; nothing of `one`.
fn write_rendition<W: fmt::Write>(
    f: &mut fmt::Formatter<W>,
    options: &ArgMatches<'_>,
    r: usize,
) -> fmt::Result
    ensures { DisplaysOnOk W.write_str_gives f.old result (Some (rendition_text (entry_at (texts_of (found_of options.now) (codes "entries")) r))) f.new }
{
    if let Some(words) = entry_at(options, r) {
        return write!(f, "{}, from {}: ", words.name, words.path);
    }
    Ok(())
}

/// Writes why a ladder doesn't go on.
fn write_resuming<W: fmt::Write>(
    f: &mut fmt::Formatter<W>,
    options: &ArgMatches<'_>,
    fault: ResumingFault,
) -> fmt::Result
    ensures { DisplaysOnOk W.write_str_gives f.old result (Some (resuming_words (texts_of (found_of options.now) (codes "entries")) fault)) f.new }
{
    if let ResumingFault::Not(r, _) | ResumingFault::OtherKeys(r, _) = fault {
        write_rendition(f, options, r)?;
    }
    f.write_str(resuming_reason(fault))
}

/// Why a rendition's input can't be read; where `--stall` is given, it may also have been silent for too long.
fn read_reason(options: &ArgMatches<'_>) -> &'static str
    ensures { result.now ≡ read_reason (is_given (found_of options.now) (codes "stall")) }
{
    if is_given(options, "stall") {
        "a read failed, or nothing came for --stall seconds"
    } else {
        "a read failed"
    }
}

/// Why a rendition's input isn't read to its end.
const READ_LIMIT: &str = "2^40 reads did not reach the end of the stream";

/// What a rendition that can't go on has passed.
const LIMIT: &str = "the last segment number, or the range of time, is passed";

/// Writes why a run ended.
fn write_packing<W: fmt::Write>(
    f: &mut fmt::Formatter<W>,
    options: &ArgMatches<'_>,
    fault: PackFault,
) -> fmt::Result
    ensures { DisplaysOnOk W.write_str_gives f.old result (Some (run_words (found_of options.now) fault)) f.new }
{
    match fault {
        PackFault::Settings => write_settings(f, options),
        PackFault::Read(r) => write_stream(f, options, r, read_reason(options)),
        PackFault::ReadLimit(r) => write_stream(f, options, r, READ_LIMIT),
        PackFault::NoProgram(r) => write_stream(f, options, r, NO_PROGRAM),
        PackFault::NoStart(r) => write_stream(f, options, r, NO_START),
        PackFault::Limit(r) => write_stream(f, options, r, LIMIT),
        PackFault::LongSegment(r, n) => write_segment(f, options, r, n, LONG_SEGMENT),
        PackFault::BigSegment(r, n) => write_segment(f, options, r, n, BIG_SEGMENT),
        PackFault::Held(r, n) => write_segment(f, options, r, n, "was held back"),
        PackFault::Outlet => f.write_str(OUTLET),
        PackFault::NoMemory => f.write_str("out of memory"),
    }
}

const NO_PROGRAM: &str =
    "no program: empty, not a transport stream, or its PAT or PMT is missing or damaged";

const NO_START: &str =
    "no key frame to begin at: one with random_access_indicator set, a PTS, and not scrambled";

const LONG_SEGMENT: &str =
    "would last longer than --target: if the GOP doesn't divide it, set --segment to the target minus one GOP";

const BIG_SEGMENT: &str = "has more packets than --most";

const OUTLET: &str = "the output can't be written: missing, not writable, closed, or full";

/// Writes a reason that speaks of one rendition's stream.
fn write_stream<W: fmt::Write>(
    f: &mut fmt::Formatter<W>,
    options: &ArgMatches<'_>,
    r: usize,
    why: &str,
) -> fmt::Result
    ensures { DisplaysOnOk W.write_str_gives f.old result
        (Some (rendition_text (entry_at (texts_of (found_of options.now) (codes "entries")) r) ++ why.now)) f.new }
{
    write_rendition(f, options, r)?;
    f.write_str(why)
}

/// Writes a reason that speaks of one of its segments.
fn write_segment<W: fmt::Write>(
    f: &mut fmt::Formatter<W>,
    options: &ArgMatches<'_>,
    r: usize,
    n: u64,
    why: &str,
) -> fmt::Result
    ensures { DisplaysOnOk W.write_str_gives f.old result
        (Some (rendition_text (entry_at (texts_of (found_of options.now) (codes "entries")) r) ++ segment_text n why.now)) f.new }
{
    write_rendition(f, options, r)?;
    write!(f, "segment {n} {why}")
}
