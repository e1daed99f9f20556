//! The commands as the program offers them, each with its options. They are made here alone.
ghost use Rattle.std.specs.Prelude.{IfOk, codes};
ghost use Rattle.clap.specs.Words.{AddsArg, AddsInTurn};
ghost use Rattle.command_line.specs.Offered.{IsOffered, check_offered, cipher_offered, ladder_offered, stream_offered};
ghost use Rattle.command_line.specs.declared.help.TheConstants.{CHECK, ONE, OPEN, PACK, SEAL};

use crate::bare_commands::{bare_check, bare_one, bare_open, bare_pack, bare_seal};
use crate::options::{with_check_options, with_cipher_options, with_stream};
use crate::pack_options::with_ladder;
use clap::{Arg, Command};
use std::alloc::{AllocError, Global};

/// A command, and the options that it gets.
#[derive(Drop)]
pub(crate) struct OfferedCommand<'a> {
    bare: Command<'a>,
    options: Vec<Arg<'a>>,
}

impl<'a> OfferedCommand<'a> {
    /// The command with its options.
    pub(crate) fn into_command(self) -> Result<Command<'a>, AllocError>
        ensures { IfOk result (AddsInTurn AddsArg self.entry.bare self.entry.options.items) }
    {
        let OfferedCommand { bare, options } = self;
        bare.args(options)
    }
}

/// The command `seal`.
pub(crate) fn offered_seal<'a>(alloc: Global) -> Result<OfferedCommand<'a>, AllocError>
    ensures { IfOk result (IsOffered (codes "seal")
        (codes "Read a transport stream, and print its packets, sealed, as one line of hex digits") SEAL.now cipher_offered) }
{
    let bare = bare_seal(alloc);
    let options = with_cipher_options(alloc, Vec::new(alloc))?;
    Ok(OfferedCommand { bare, options })
}

/// The command `open`.
pub(crate) fn offered_open<'a>(alloc: Global) -> Result<OfferedCommand<'a>, AllocError>
    ensures { IfOk result (IsOffered (codes "open")
        (codes "Read what seal prints, and print what was sealed, as one line of hex digits") OPEN.now cipher_offered) }
{
    let bare = bare_open(alloc);
    let options = with_cipher_options(alloc, Vec::new(alloc))?;
    Ok(OfferedCommand { bare, options })
}

/// The command `one`.
pub(crate) fn offered_one<'a>(alloc: Global) -> Result<OfferedCommand<'a>, AllocError>
    ensures { IfOk result (IsOffered (codes "one")
        (codes "Read a transport stream, and print its segments, sealed, and its playlists as lines") ONE.now stream_offered) }
{
    let bare = bare_one(alloc);
    let options = with_stream(alloc, Vec::new(alloc))?;
    Ok(OfferedCommand { bare, options })
}

/// The command `pack`.
pub(crate) fn offered_pack<'a>(alloc: Global) -> Result<OfferedCommand<'a>, AllocError>
    ensures { IfOk result (IsOffered (codes "pack")
        (codes "Read the transport streams of a ladder, and write its segments, sealed, and its playlists as files of a folder")
        PACK.now ladder_offered) }
{
    let bare = bare_pack(alloc);
    let options = with_ladder(alloc, Vec::new(alloc))?;
    Ok(OfferedCommand { bare, options })
}

/// The command `check`.
pub(crate) fn offered_check<'a>(alloc: Global) -> Result<OfferedCommand<'a>, AllocError>
    ensures { IfOk result (IsOffered (codes "check")
        (codes "Read a media playlist and the segments beside it, and print how many bytes they unpack to") CHECK.now check_offered) }
{
    let bare = bare_check(alloc);
    let options = with_check_options(alloc, Vec::new(alloc))?;
    Ok(OfferedCommand { bare, options })
}
