//! The program, as words are matched with it. Its commands are those that are offered, each added here, and nothing else gets at it.
ghost use Rattle.std.specs.Prelude.{◌≡◌, [], IfErr, IfOk, List, MatchResult, Some, ℕ, false, map, true};
ghost use Rattle.clap.specs.Values.{kind_of};
ghost use Rattle.clap.specs.Words.{HasKind, HasMatchesOf, app_of, fault_of, is_simple_and_free, takes};
ghost use Rattle.clap.specs.declared.builder.command.Command.TheViews.{out-Command};
ghost use Rattle.clap.specs.declared.error.kind.ErrorKind.TheVariants.{OutOfMemory};
ghost use Rattle.command_line.specs.Offered.{IsOffered, Offered};
ghost use Rattle.command_line.specs.Options.{GetsCommand, GetsVersion, command_of, unversioned};

use crate::bare_commands::bare_program;
use crate::offered::OfferedCommand;
use clap::error::ErrorKind;
use clap::{ArgMatches, Command};
use std::alloc::{AllocError, Global};
use std::convert::AsStr;

/// The program, and the commands that it got.
#[derive(Drop)]
pub(crate) struct Program<'a> {
    command: Command<'a>,
}

impl<'a> Program<'a> {
    /// The program before it has a command or a version.
    pub(crate) fn new(alloc: Global) -> Program<'a>
        ensures app { app_of result.command ≡ unversioned }
        ensures local { (out-Command result.command).has_globals ≡ false }
    {
        Program {
            command: bare_program(alloc),
        }
    }

    /// The program with one command more.
    pub(crate) fn with_command(self, command: OfferedCommand<'a>) -> Result<Program<'a>, AllocError>
        ensures { IfOk result (λ made. (name about faults : List ℕ) (options : List Offered) → IsOffered name about faults options command.entry →
            GetsCommand self.entry.command (command_of name (map (λ (o : Offered). o.rule) options)) made.command) }
    {
        let Program { command: program } = self;
        let command = command.into_command()?;
        let command = program.subcommand(command)?;
        Ok(Program { command })
    }

    /// The program with a version, which it tells where it's asked for it.
    pub(crate) fn with_version(self, version: &'a str) -> Program<'a>
        ensures { GetsVersion self.entry.command version.entry result.command }
    {
        let Program { command } = self;
        Program {
            command: command.version(version),
        }
    }

    /// What words ask for.
    pub(crate) fn matches<S: AsStr>(
        &mut self,
        words: &'a [S],
    ) -> Result<ArgMatches<'a>, clap::Error>
        ensures ok { IfOk result (HasMatchesOf (app_of self.old.command) (map S.text words.entry.now)) }
        ensures passes { IfErr result (λ error. takes (app_of self.old.command) (map S.text words.entry.now) ≡ true → kind_of error ≡ OutOfMemory) }
        ensures kinds { is_simple_and_free (app_of self.old.command) ≡ true → MatchResult result
            (λ _. fault_of (app_of self.old.command) (map S.text words.entry.now) ≡ [])
            (λ error. HasKind (fault_of (app_of self.old.command) (map S.text words.entry.now)) error) }
    {
        self.command.try_get_matches_from_mut(words)
    }

    /// What a line without a command is told.
    pub(crate) fn no_command(&mut self) -> Result<clap::Error, AllocError>
        ensures kind { IfOk result (λ error. kind_of error ≡ ErrorKind.MissingSubcommand) }
    {
        self.command
            .error(ErrorKind::MissingSubcommand, "a command is wanted")
    }
}
