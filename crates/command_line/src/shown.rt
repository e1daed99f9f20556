//! The options of the commands, each with what help shows of it.
ghost use Rattle.std.specs.Prelude.{◌≡◌, [], Some, codes, false, option_map};
ghost use Rattle.clap.specs.Words.{items_of, rule_of};
ghost use Rattle.command_line.specs.Options.{entries, flag, needed, number_option, text_option, with_default, word};
ghost use Rattle.command_line.specs.Shown.{IsShown};

use crate::options::{flag, needed, number, text, word};
use clap::{Arg, ArgAction};
use std::alloc::Global;

/// The key of `seal` and `open`.
pub(crate) fn key<'a>(alloc: Global) -> Arg<'a>
    ensures rule { rule_of result ≡ needed (text_option (codes "key")) }
    ensures alone { result.global ≡ false }
    ensures shown { IsShown (codes "HEX")
        (codes "The key: 32 hex digits, or @FILE, which holds its 16 bytes or those digits") result }
{
    let help = "The key: 32 hex digits, or @FILE, which holds its 16 bytes or those digits";
    needed(alloc, "key", "HEX", help)
}

/// The number of the segment that is sealed.
pub(crate) fn seq<'a>(alloc: Global) -> Arg<'a>
    ensures rule { rule_of result ≡ number_option (codes "seq") }
    ensures alone { result.global ≡ false }
    ensures shown { IsShown (codes "NUMBER")
        (codes "The segment's number, which gives the vector") result }
{
    let help = "The segment's number, which gives the vector";
    number(alloc, "seq", "NUMBER", help)
}

/// The vector.
pub(crate) fn iv<'a>(alloc: Global) -> Arg<'a>
    ensures rule { rule_of result ≡ text_option (codes "iv") }
    ensures alone { result.global ≡ false }
    ensures shown { IsShown (codes "HEX")
        (codes "The vector itself: 32 hex digits") result }
{
    let help = "The vector itself: 32 hex digits";
    text(alloc, "iv", "HEX", help)
}

/// The codecs of a rendition.
pub(crate) fn codecs<'a>(alloc: Global) -> Arg<'a>
    ensures rule { rule_of result ≡ needed (text_option (codes "codecs")) }
    ensures alone { result.global ≡ false }
    ensures shown { IsShown (codes "CODECS")
        (codes "The codecs, as a master playlist lists them") result }
{
    let help = "The codecs, as a master playlist lists them";
    needed(alloc, "codecs", "CODECS", help)
}

/// The size of its pictures.
pub(crate) fn size<'a>(alloc: Global) -> Arg<'a>
    ensures rule { rule_of result ≡ needed (text_option (codes "size")) }
    ensures alone { result.global ≡ false }
    ensures shown { IsShown (codes "WIDTHxHEIGHT")
        (codes "The width and the height of the pictures, 1 to 16384 pixels each") result }
{
    let help = "The width and the height of the pictures, 1 to 16384 pixels each";
    needed(alloc, "size", "WIDTHxHEIGHT", help)
}

/// Its keys.
pub(crate) fn keys<'a>(alloc: Global) -> Arg<'a>
    ensures rule { rule_of result ≡ needed (text_option (codes "keys")) }
    ensures alone { result.global ≡ false }
    ensures shown { IsShown (codes "KEY[+KEY..]")
        (codes "The keys, 32 hex digits or @FILE each, 1 to 4096 of them") result }
{
    let help = "The keys, 32 hex digits or @FILE each, 1 to 4096 of them";
    needed(alloc, "keys", "KEY[+KEY..]", help)
}

/// Its name.
pub(crate) fn name<'a>(alloc: Global) -> Arg<'a>
    ensures rule { rule_of result ≡ with_default (codes "v") (text_option (codes "name")) }
    ensures alone { result.global ≡ false }
    ensures shown { IsShown (codes "NAME")
        (codes "The name of the rendition") result }
{
    let help = "The name of the rendition";
    text(alloc, "name", "NAME", help).default_value("v")
}

/// The salt of its vectors.
pub(crate) fn salt<'a>(alloc: Global) -> Arg<'a>
    ensures rule { rule_of result ≡ text_option (codes "salt") }
    ensures alone { result.global ≡ false }
    ensures shown { IsShown (codes "HEX")
        (codes "A salt of the segments' vectors, 32 hex digits: each is then the salt xor the number, and is listed") result }
{
    let help =
        "A salt of the segments' vectors, 32 hex digits: each is then the salt xor the number, and is listed";
    text(alloc, "salt", "HEX", help)
}

/// Whether its playlists list all segments.
pub(crate) fn event<'a>(alloc: Global) -> Arg<'a>
    ensures rule { rule_of result ≡ flag (codes "event") }
    ensures alone { result.global ≡ false }
    ensures bare { items_of result.val_names ≡ [] }
    ensures help { option_map (λ t. t.now) result.help ≡ Some (codes "List all segments, as those of an event") }
{
    let help = "List all segments, as those of an event";
    flag(alloc, "event", help)
}

/// The folder that `pack` writes to.
pub(crate) fn out<'a>(alloc: Global) -> Arg<'a>
    ensures rule { rule_of result ≡ needed (text_option (codes "out")) }
    ensures alone { result.global ≡ false }
    ensures shown { IsShown (codes "DIR")
        (codes "The folder that the files are written to, which has to be there") result }
{
    let help = "The folder that the files are written to, which has to be there";
    needed(alloc, "out", "DIR", help)
}

/// The file of its metrics.
pub(crate) fn metrics<'a>(alloc: Global) -> Arg<'a>
    ensures rule { rule_of result ≡ text_option (codes "metrics") }
    ensures alone { result.global ≡ false }
    ensures shown { IsShown (codes "FILE")
        (codes "A file that is replaced every five seconds and at the end: the run's numbers, in the text format of Prometheus") result }
{
    let help =
        "A file that is replaced every five seconds and at the end: the run's numbers, in the text format of Prometheus";
    text(alloc, "metrics", "FILE", help)
}

/// Its renditions.
pub(crate) fn entries<'a>(alloc: Global) -> Arg<'a>
    ensures rule { rule_of result ≡ entries }
    ensures alone { result.global ≡ false }
    ensures shown { IsShown (codes "NAME:CODECS:WxH:KEY[+KEY..]:PATH")
        (codes "A rendition: its name, codecs, size, keys and the path of its stream, with a colon between") result }
{
    let help =
        "A rendition: its name, codecs, size, keys and the path of its stream, with a colon between";
    word(alloc, "entries", "NAME:CODECS:WxH:KEY[+KEY..]:PATH", help)
        .num_args(1..)
        .action(ArgAction::Append)
}

/// The keys of a playlist that is checked.
pub(crate) fn sealed_under<'a>(alloc: Global) -> Arg<'a>
    ensures rule { rule_of result ≡ needed (text_option (codes "keys")) }
    ensures alone { result.global ≡ false }
    ensures shown { IsShown (codes "KEY[+KEY..]")
        (codes "The keys of the rendition, 32 hex digits or @FILE each") result }
{
    let help = "The keys of the rendition, 32 hex digits or @FILE each";
    needed(alloc, "keys", "KEY[+KEY..]", help)
}

/// That playlist.
pub(crate) fn playlist<'a>(alloc: Global) -> Arg<'a>
    ensures rule { rule_of result ≡ word (codes "playlist") }
    ensures alone { result.global ≡ false }
    ensures shown { IsShown (codes "PLAYLIST")
        (codes "The media playlist; its segments lie in the same folder") result }
{
    let help = "The media playlist; its segments lie in the same folder";
    word(alloc, "playlist", "PLAYLIST", help)
}
