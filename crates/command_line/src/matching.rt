//! Words, matched with the commands of the program.
ghost use Rattle.std.specs.Prelude.{◌≡◌, [], IfErr, IfOk, MatchResult, Some, map, true};
ghost use Rattle.clap.specs.Values.{kind_of};
ghost use Rattle.clap.specs.Words.{HasKind, HasMatchesOf, app_of, fault_of, is_simple_and_free, takes};
ghost use Rattle.clap.specs.declared.builder.command.Command.TheViews.{out-Command};
ghost use Rattle.clap.specs.declared.error.kind.ErrorKind.TheVariants.{OutOfMemory};

use crate::fault::Fault;
use crate::program::Program;
use clap::ArgMatches;
use std::convert::AsStr;

/// Why words don't match. It can't be let go: all that can be done with it is to tell it as a fault.
pub(crate) struct Unmatched {
    error: clap::Error,
}

impl From<Unmatched> for Fault {
    ghost use Rattle.command_line.specs.Faults.{IsRefusal};

    ghost from_gives = { λ unmatched fault. IsRefusal unmatched.error fault };

    fn from(unmatched: Unmatched) -> Fault {
        let Unmatched { error } = unmatched;
        Fault::from(error)
    }
}

/// What words ask for of the program, which tells this version where they ask for it.
pub(crate) fn matched<'a, S: AsStr>(
    program: &mut Program<'a>,
    _version: &'a str,
    words: &'a [S],
) -> Result<ArgMatches<'a>, Unmatched>
    requires version { (out-Command program.old.command).version ≡ Some _version }
    ensures ok { IfOk result (HasMatchesOf (app_of program.old.command) (map S.text words.entry.now)) }
    ensures passes { IfErr result (λ unmatched. takes (app_of program.old.command) (map S.text words.entry.now) ≡ true
        → kind_of unmatched.error ≡ OutOfMemory) }
    ensures kinds { is_simple_and_free (app_of program.old.command) ≡ true → MatchResult result
        (λ _. fault_of (app_of program.old.command) (map S.text words.entry.now) ≡ [])
        (λ unmatched. HasKind (fault_of (app_of program.old.command) (map S.text words.entry.now)) unmatched.error) }
{
    match program.matches(words) {
        Ok(matches) => Ok(matches),
        Err(error) => Err(Unmatched { error }),
    }
}
