//! The program and its commands, each with what help shows of it, before they have options.
ghost use Rattle.std.specs.Prelude.{◌≡◌, Some, codes, false, option_map};
ghost use Rattle.clap.specs.Words.{app_of, new_app};
ghost use Rattle.clap.specs.declared.builder.command.Command.TheViews.{out-Command};
ghost use Rattle.command_line.specs.Options.{unversioned};
ghost use Rattle.command_line.specs.declared.help.TheConstants.{CHECK, ONE, OPEN, PACK, SEAL};

use crate::help;
use clap::Command;
use std::alloc::Global;

/// The program: what it does.
pub(crate) fn bare_program<'a>(alloc: Global) -> Command<'a>
    ensures app { app_of result ≡ unversioned }
    ensures local { (out-Command result).has_globals ≡ false }
    ensures about { option_map (λ t. t.now) (out-Command result).about ≡ Some (codes "MPEG-2 transport streams to encrypted HLS") }
{
    Command::new(alloc, "tshls")
        .about("MPEG-2 transport streams to encrypted HLS")
        .subcommand_required(true)
        .arg_required_else_help(true)
}

/// The command `seal`: what it does, and its faults.
pub(crate) fn bare_seal<'a>(alloc: Global) -> Command<'a>
    ensures app { app_of result ≡ new_app (codes "seal") }
    ensures local { (out-Command result).has_globals ≡ false }
    ensures about { option_map (λ t. t.now) (out-Command result).about ≡
        Some (codes "Read a transport stream, and print its packets, sealed, as one line of hex digits") }
    ensures faults { option_map (λ t. t.now) (out-Command result).after_help ≡ Some SEAL.now }
{
    let about = "Read a transport stream, and print its packets, sealed, as one line of hex digits";
    Command::new(alloc, "seal")
        .about(about)
        .after_help(help::SEAL)
}

/// The command `open`: what it does, and its faults.
pub(crate) fn bare_open<'a>(alloc: Global) -> Command<'a>
    ensures app { app_of result ≡ new_app (codes "open") }
    ensures local { (out-Command result).has_globals ≡ false }
    ensures about { option_map (λ t. t.now) (out-Command result).about ≡
        Some (codes "Read what seal prints, and print what was sealed, as one line of hex digits") }
    ensures faults { option_map (λ t. t.now) (out-Command result).after_help ≡ Some OPEN.now }
{
    let about = "Read what seal prints, and print what was sealed, as one line of hex digits";
    Command::new(alloc, "open")
        .about(about)
        .after_help(help::OPEN)
}

/// The command `one`: what it does, and its faults.
pub(crate) fn bare_one<'a>(alloc: Global) -> Command<'a>
    ensures app { app_of result ≡ new_app (codes "one") }
    ensures local { (out-Command result).has_globals ≡ false }
    ensures about { option_map (λ t. t.now) (out-Command result).about ≡
        Some (codes "Read a transport stream, and print its segments, sealed, and its playlists as lines") }
    ensures faults { option_map (λ t. t.now) (out-Command result).after_help ≡ Some ONE.now }
{
    let about =
        "Read a transport stream, and print its segments, sealed, and its playlists as lines";
    Command::new(alloc, "one")
        .about(about)
        .after_help(help::ONE)
}

/// The command `pack`: what it does, and its faults.
pub(crate) fn bare_pack<'a>(alloc: Global) -> Command<'a>
    ensures app { app_of result ≡ new_app (codes "pack") }
    ensures local { (out-Command result).has_globals ≡ false }
    ensures about { option_map (λ t. t.now) (out-Command result).about ≡
        Some (codes "Read the transport streams of a ladder, and write its segments, sealed, and its playlists as files of a folder") }
    ensures faults { option_map (λ t. t.now) (out-Command result).after_help ≡ Some PACK.now }
{
    let about =
        "Read the transport streams of a ladder, and write its segments, sealed, and its playlists as files of a folder";
    Command::new(alloc, "pack")
        .about(about)
        .after_help(help::PACK)
}

/// The command `check`: what it does, and its faults.
pub(crate) fn bare_check<'a>(alloc: Global) -> Command<'a>
    ensures app { app_of result ≡ new_app (codes "check") }
    ensures local { (out-Command result).has_globals ≡ false }
    ensures about { option_map (λ t. t.now) (out-Command result).about ≡
        Some (codes "Read a media playlist and the segments beside it, and print how many bytes they unpack to") }
    ensures faults { option_map (λ t. t.now) (out-Command result).after_help ≡ Some CHECK.now }
{
    let about =
        "Read a media playlist and the segments beside it, and print how many bytes they unpack to";
    Command::new(alloc, "check")
        .about(about)
        .after_help(help::CHECK)
}
