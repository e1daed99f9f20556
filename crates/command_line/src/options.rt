//! The options of each command: how help shows them, and the words that were given.
ghost use Rattle.std.specs.Prelude.{◌≡◌, ◌<◌, ◌∷◌, ◌++◌, [], codes, false, length, map, option_map, IfOk, OnErr, Some};
ghost use Rattle.clap.specs.Words.{first_value, found_of, items_of, rule_of};
ghost use Rattle.command_line.specs.Offered.{Offers, check_offered, cipher_offered, form_offered, number_offered, rendition_offered, stream_offered};
ghost use Rattle.command_line.specs.Options.{flag, needed, number_option, numbered, text_option, word};
ghost use Rattle.command_line.specs.Words.{AreNumberWords, IsFlagOf, IsGivenNumber, IsNumberOf, given_text, is_given, text_of};

use crate::shown;
use clap::parser::ValueSource;
use clap::{Arg, ArgAction, ArgMatches};
use commands::{CheckWords, CipherWords, NumberWords, PackingWords};
use std::alloc::{AllocError, Global};

/// Options, and one more.
pub(crate) fn with_option<'a>(
    options: Vec<Arg<'a>>,
    option: Arg<'a>,
) -> Result<Vec<Arg<'a>>, AllocError>
    ensures { IfOk result (λ made. made.items ≡ options.entry.items ++ (option.entry ∷ [])) }
{
    let mut options = options;
    options.push(option)?;
    Ok(options)
}

/// Options, and those of a key and a vector.
pub fn with_cipher_options<'a>(
    alloc: Global,
    options: Vec<Arg<'a>>,
) -> Result<Vec<Arg<'a>>, AllocError>
    ensures { IfOk result (λ made. Offers options.entry.items cipher_offered made.items) }
{
    let options = with_option(options, shown::key(alloc))?;
    let options = with_option(options, shown::seq(alloc))?;
    with_option(options, shown::iv(alloc))
}

/// The words of a key and a vector.
pub fn cipher_words<'a>(options: &ArgMatches<'a>) -> CipherWords<'a>
    ensures key { result.key.now ≡ text_of (found_of options.now) (codes "key") }
    ensures seq { IsNumberOf (found_of options.now) (codes "seq") result.seq }
    ensures iv { option_map (λ t. t.now) result.iv ≡ first_value (found_of options.now) (codes "iv") }
{
    CipherWords {
        key: needed_text(options, "key"),
        seq: number_of(options, "seq"),
        iv: options.get_str("iv"),
    }
}

/// Options, and those of a stream of one rendition.
pub fn with_stream<'a>(alloc: Global, options: Vec<Arg<'a>>) -> Result<Vec<Arg<'a>>, AllocError>
    ensures { IfOk result (λ made. Offers options.entry.items stream_offered made.items) }
{
    let options = with_rendition(alloc, options)?;
    let options = with_forms(alloc, options)?;
    with_numbers(alloc, options, &NUMBERS)
}

/// Options, and those of one rendition.
fn with_rendition<'a>(alloc: Global, options: Vec<Arg<'a>>) -> Result<Vec<Arg<'a>>, AllocError>
    ensures { IfOk result (λ made. Offers options.entry.items rendition_offered made.items) }
{
    let options = with_option(options, shown::codecs(alloc))?;
    let options = with_option(options, shown::size(alloc))?;
    let options = with_option(options, shown::keys(alloc))?;
    with_option(options, shown::name(alloc))
}

/// Options, and those of vectors, and of which segments are listed.
pub fn with_forms<'a>(alloc: Global, options: Vec<Arg<'a>>) -> Result<Vec<Arg<'a>>, AllocError>
    ensures { IfOk result (λ made. Offers options.entry.items form_offered made.items) }
{
    let options = with_option(options, shown::salt(alloc))?;
    with_option(options, shown::event(alloc))
}

/// The words of a rendition.
pub fn packing_words<'a>(options: &ArgMatches<'a>) -> PackingWords<'a>
    ensures name { option_map (λ t. t.now) result.name ≡ given_text (found_of options.now) (codes "name") }
    ensures codecs { result.codecs.now ≡ text_of (found_of options.now) (codes "codecs") }
    ensures size { result.size.now ≡ text_of (found_of options.now) (codes "size") }
    ensures keys { result.keys.now ≡ text_of (found_of options.now) (codes "keys") }
    ensures salt { option_map (λ t. t.now) result.salt ≡ first_value (found_of options.now) (codes "salt") }
    ensures event { IsFlagOf (found_of options.now) (codes "event") result.event }
{
    PackingWords {
        name: if is_given(options, "name") {
            options.get_str("name")
        } else {
            None
        },
        codecs: needed_text(options, "codecs"),
        size: needed_text(options, "size"),
        keys: needed_text(options, "keys"),
        salt: options.get_str("salt"),
        event: options.get_flag("event"),
    }
}

/// An option whose value is a number: its name, what it counts, what help says of it, and what stands where it is absent.
pub(crate) type NumberOption = (
    &'static str,
    &'static str,
    &'static str,
    Option<&'static str>,
);

/// The numbers of a packager.
pub(crate) const NUMBERS: [NumberOption; 8] = [
    (
        "target",
        "SECONDS",
        "The target duration, 1 to 3600",
        Some("6"),
    ),
    (
        "segment",
        "SECONDS",
        "Cut at the first key frame so long after a segment's start, 1 to the target [default: the target]",
        None,
    ),
    (
        "window",
        "SEGMENTS",
        "The least number of segments that a playlist lists, 1 to 10000",
        Some("5"),
    ),
    (
        "frame",
        "TICKS",
        "What the last frame before a jump of time lasts, 1 to 900000",
        Some("3600"),
    ),
    (
        "gap",
        "TICKS",
        "How far time may step without being a jump, 1 to 4294967295",
        Some("900000"),
    ),
    (
        "most",
        "PACKETS",
        "The most packets of a segment, 1 to 1000000",
        Some("1000000"),
    ),
    (
        "period",
        "SEGMENTS",
        "How many segments in a row a key seals, from 1 on",
        Some("1"),
    ),
    (
        "program",
        "NUMBER",
        "The program to pack, 1 to 65535 [default: the first]",
        None,
    ),
];

/// An option whose value is a number, as a table tells it.
fn number_from<'a>(alloc: Global, option: NumberOption) -> Arg<'a>
    ensures rule { rule_of result ≡ numbered option.entry }
    ensures alone { result.global ≡ false }
    ensures value { items_of result.val_names ≡ option.entry.1 ∷ [] }
    ensures help { result.help ≡ Some option.entry.2 }
{
    let (name, value, help, default) = option;
    let arg = number(alloc, name, value, help);
    match default {
        Some(default) => arg.default_value(default),
        None => arg,
    }
}

/// Options, and those of a table, whose values are numbers.
pub(crate) fn with_numbers<'a>(
    alloc: Global,
    options: Vec<Arg<'a>>,
    numbers: &[NumberOption],
) -> Result<Vec<Arg<'a>>, AllocError>
    ensures ok { IfOk result (λ made. Offers options.entry.items (map number_offered numbers.now) made.items) }
    ensures scarce { OnErr result (0 < length numbers.now) }
{
    let mut options = options;
    for &option in numbers {
        options = with_option(options, number_from(alloc, option))?;
    }
    Ok(options)
}

/// The numbers that were given.
pub fn number_words(options: &ArgMatches<'_>) -> NumberWords
    ensures { AreNumberWords (found_of options.now) result }
{
    NumberWords {
        target: given_number(options, "target"),
        segment: given_number(options, "segment"),
        window: given_number(options, "window"),
        frame: given_number(options, "frame"),
        gap: given_number(options, "gap"),
        most: given_number(options, "most"),
        period: given_number(options, "period"),
        program: given_number(options, "program"),
    }
}

/// Options, and those of `check`.
pub fn with_check_options<'a>(
    alloc: Global,
    options: Vec<Arg<'a>>,
) -> Result<Vec<Arg<'a>>, AllocError>
    ensures { IfOk result (λ made. Offers options.entry.items check_offered made.items) }
{
    let options = with_option(options, shown::sealed_under(alloc))?;
    with_option(options, shown::playlist(alloc))
}

/// The words of `check`.
pub fn check_words<'a>(options: &ArgMatches<'a>) -> CheckWords<'a>
    ensures keys { result.keys.now ≡ text_of (found_of options.now) (codes "keys") }
    ensures playlist { result.playlist.now ≡ text_of (found_of options.now) (codes "playlist") }
{
    CheckWords {
        keys: needed_text(options, "keys"),
        playlist: needed_text(options, "playlist"),
    }
}

/// An option of this name without a value.
pub(crate) fn flag<'a>(alloc: Global, name: &'a str, help: &'a str) -> Arg<'a>
    ensures rule { rule_of result ≡ flag name.entry.now }
    ensures alone { result.global ≡ false }
    ensures bare { items_of result.val_names ≡ [] }
    ensures help { result.help ≡ Some help.entry }
{
    Arg::new(alloc, name)
        .long(name)
        .action(ArgAction::SetTrue)
        .help(help)
}

/// A word that stands alone, and has to be there.
pub(crate) fn word<'a>(alloc: Global, name: &'a str, value: &'a str, help: &'a str) -> Arg<'a>
    ensures rule { rule_of result ≡ word name.entry.now }
    ensures alone { result.global ≡ false }
    ensures value { items_of result.val_names ≡ value.entry ∷ [] }
    ensures help { result.help ≡ Some help.entry }
{
    Arg::new(alloc, name)
        .value_name(value)
        .required(true)
        .help(help)
}

/// An option of this name.
pub(crate) fn text<'a>(alloc: Global, name: &'a str, value: &'a str, help: &'a str) -> Arg<'a>
    ensures rule { rule_of result ≡ text_option name.entry.now }
    ensures alone { result.global ≡ false }
    ensures value { items_of result.val_names ≡ value.entry ∷ [] }
    ensures help { result.help ≡ Some help.entry }
{
    Arg::new(alloc, name)
        .long(name)
        .value_name(value)
        .help(help)
}

/// An option of this name, which has to be given.
pub(crate) fn needed<'a>(alloc: Global, name: &'a str, value: &'a str, help: &'a str) -> Arg<'a>
    ensures rule { rule_of result ≡ needed (text_option name.entry.now) }
    ensures alone { result.global ≡ false }
    ensures value { items_of result.val_names ≡ value.entry ∷ [] }
    ensures help { result.help ≡ Some help.entry }
{
    text(alloc, name, value, help).required(true)
}

/// An option of this name, whose value is a u64.
pub(crate) fn number<'a>(alloc: Global, name: &'a str, value: &'a str, help: &'a str) -> Arg<'a>
    ensures rule { rule_of result ≡ number_option name.entry.now }
    ensures alone { result.global ≡ false }
    ensures value { items_of result.val_names ≡ value.entry ∷ [] }
    ensures help { result.help ≡ Some help.entry }
{
    text(alloc, name, value, help).value_parser(clap::value_parser!(u64))
}

/// The text of an option that has to be given.
pub(crate) fn needed_text<'a>(options: &ArgMatches<'a>, name: &str) -> &'a str
    ensures { result.now ≡ text_of (found_of options.now) name.now }
{
    options.get_str(name).unwrap_or("")
}

/// The number of an option.
fn number_of(options: &ArgMatches<'_>, name: &str) -> Option<u64>
    ensures { IsNumberOf (found_of options.now) name.now result }
{
    options.get_one::<u64>(name)
}

/// Whether an option was given. The defaults here are only shown.
pub(crate) fn is_given(options: &ArgMatches<'_>, name: &str) -> bool
    ensures { result ≡ is_given (found_of options.now) name.now }
{
    matches!(options.value_source(name), Some(ValueSource::CommandLine))
}

/// The number of an option that was given.
pub(crate) fn given_number(options: &ArgMatches<'_>, name: &str) -> Option<u64>
    ensures { IsGivenNumber (found_of options.now) name.now result }
{
    if is_given(options, name) {
        number_of(options, name)
    } else {
        None
    }
}
