//! The command line: which command it asks for, with its options as values.
ghost use Rattle.std.specs.Prelude.{◌≡◌, ⊤, Some, codes, false, map, IfErr, IfOk, IsErrOf};
ghost use Rattle.clap.specs.Values.{kind_of};
ghost use Rattle.clap.specs.Words.{app_of, found_of, subcommand_of, subcommand_rows_of};
ghost use Rattle.clap.specs.declared.builder.command.Command.TheViews.{out-Command};
ghost use Rattle.clap.specs.declared.error.Error.{Error};
ghost use Rattle.clap.specs.declared.error.kind.ErrorKind.TheVariants.{MissingSubcommand};
ghost use Rattle.command_line.specs.Faults.{IsRefusal, IsRefused};
ghost use Rattle.command_line.specs.Jobs.{AreCheckOptions, AreCipherOptions, AreSettings, IsCommand, IsJobOf, IsLadderJob, IsNoCall};
ghost use Rattle.command_line.specs.Refusals.{AreNoKeys, AreNoSettings, IsNoCipher, IsNoJob, IsNoLadder, IsUsage, MayWantMemory, files_view};
ghost use Rattle.command_line.specs.Options.{tshls};

use crate::fault::Fault;
use crate::matching::matched;
use crate::offered::{offered_check, offered_one, offered_open, offered_pack, offered_seal};
use crate::options::{check_words, cipher_words, number_words, packing_words};
use crate::pack_options::{
    entry_words, folder_word, ladder_words, metrics_word, pool_words, remove_word, resume_word,
    sync_word,
};
use crate::program::Program;
use clap::ArgMatches;
use commands::{
    CheckOptions, CipherOptions, FileReader, LadderOptions, read_check_options,
    read_cipher_options, read_ladder_options, read_settings,
};
use ladder_items::Settings;
use std::alloc::{AllocError, Global};
use std::convert::AsStr;

/// A command with its options.
#[derive(Drop)]
pub enum Job<'a> {
    Stream(StreamJob),
    /// `pack`: reads the transport streams of a ladder, and writes their segments and playlists as files of a folder.
    Ladder(LadderJob<'a>),
}

/// A command that reads one stream, or one playlist.
#[derive(Drop)]
pub enum StreamJob {
    /// Reads a transport stream and writes its packets, sealed, as one line of hex digits.
    Seal(CipherOptions),
    /// Reads a line of hex digits and writes what was sealed, as one line of hex digits.
    Open(CipherOptions),
    /// Reads a transport stream and writes its segments and playlists as lines.
    One(Settings),
    /// Reads a playlist and its segments and tells whether they unpack.
    Check(CheckOptions),
}

/// A ladder, and the folder that it goes to.
#[derive(Drop)]
pub struct LadderJob<'a> {
    pub options: LadderOptions<'a>,
    pub folder: &'a str,
    /// Whether it goes on from the playlists there.
    pub resumes: bool,
    /// Whether segments are removed that no player can want any more.
    pub removes: bool,
    /// Whether the folder is synced.
    pub syncs: bool,
    /// The file that the run's metrics are written to.
    pub metrics: Option<&'a str>,
}

/// The job that the words of a command line ask for, the program's name first. Where they name files of keys, those are read
/// behind all faults of the words, and nothing else is read or written. The version is what `--version` prints behind that name.
pub fn line<'a, S: AsStr, F: FileReader>(
    alloc: Global,
    files: &F,
    words: &'a [S],
    version: &'a str,
) -> Result<Job<'a>, Fault>
    ensures job { IfOk result (IsJobOf (F.gives files.now) (subcommand_of tshls (map S.text words.entry.now))) }
    ensures fault { IfErr result (IsNoJob (files_view (F.gives files.now) (F.refuses files.now) (F.wants files.now))
        (IsNoCall (map S.text words.entry.now)) (subcommand_of tshls (map S.text words.entry.now))) }
    ensures usage { (error : Error) → IsErrOf result (Fault.Usage error) → IsUsage (map S.text words.entry.now) error }
{
    let mut program = program(alloc, version)?;
    let matches = matched(&mut program, version, words)?;
    job_of(alloc, files, &mut program, &matches)
}

/// The job of the command that was matched, by its options.
fn job_of<'a, F: FileReader>(
    alloc: Global,
    files: &F,
    program: &mut Program<'_>,
    matches: &ArgMatches<'a>,
) -> Result<Job<'a>, Fault>
    ensures job { IfOk result (IsJobOf (F.gives files.now) (subcommand_rows_of matches.now)) }
    ensures fault { IfErr result (IsNoJob (files_view (F.gives files.now) (F.refuses files.now) (F.wants files.now))
        (IsCommand (subcommand_rows_of matches.now) → ⊥) (subcommand_rows_of matches.now)) }
    ensures scarce { IsErrOf result Fault.NoMemory → MayWantMemory (subcommand_rows_of matches.now) }
    ensures usage { (error : Error) → IsErrOf result (Fault.Usage error) →
        (IsCommand (subcommand_rows_of matches.now) → ⊥) × (kind_of error ≡ MissingSubcommand) }
{
    let Some((name, options)) = matches.subcommand() else {
        return Err(no_command(program));
    };
    match name {
        "seal" => {
            let options = cipher_options(alloc, files, options)?;
            Ok(Job::Stream(StreamJob::Seal(options)))
        }
        "open" => {
            let options = cipher_options(alloc, files, options)?;
            Ok(Job::Stream(StreamJob::Open(options)))
        }
        "one" => {
            let settings = settings(alloc, files, options)?;
            Ok(Job::Stream(StreamJob::One(settings)))
        }
        "pack" => {
            let job = ladder_job(alloc, files, options)?;
            Ok(Job::Ladder(job))
        }
        "check" => {
            let options = check_options(alloc, files, options)?;
            Ok(Job::Stream(StreamJob::Check(options)))
        }
        _ => Err(no_command(program)),
    }
}

/// What a line without a command is told.
fn no_command(program: &mut Program<'_>) -> Fault
    ensures refused { IsRefused ⊤ result }
    ensures told { (error : Error) → result ≡ Fault.Usage error → kind_of error ≡ MissingSubcommand }
{
    refusal(program.no_command())
}

/// What clap refuses, as a fault; want of memory where its refusal couldn't be made.
fn refusal(made: Result<clap::Error, AllocError>) -> Fault
    ensures made { IfOk made (λ error. IsRefusal error result) }
    ensures scarce { IfErr made (λ _. result ≡ Fault.NoMemory) }
{
    match made {
        Ok(error) => Fault::from(error),
        Err(_) => Fault::NoMemory,
    }
}

/// The key and the vector that the words of `seal` or `open` tell.
fn cipher_options<F: FileReader>(
    alloc: Global,
    files: &F,
    options: &ArgMatches<'_>,
) -> Result<CipherOptions, Fault>
    ensures job { IfOk result (AreCipherOptions (F.gives files.now) (found_of options.now)) }
    ensures fault { IfErr result (IsNoCipher (files_view (F.gives files.now) (F.refuses files.now) (F.wants files.now)) (found_of options.now)) }
{
    Ok(read_cipher_options(alloc, files, cipher_words(options))?)
}

/// The settings that the words of `one` tell.
fn settings<F: FileReader>(
    alloc: Global,
    files: &F,
    options: &ArgMatches<'_>,
) -> Result<Settings, Fault>
    ensures job { IfOk result (AreSettings (F.gives files.now) (found_of options.now)) }
    ensures fault { IfErr result (AreNoSettings (files_view (F.gives files.now) (F.refuses files.now) (F.wants files.now)) (found_of options.now)) }
{
    let words = packing_words(options);
    Ok(read_settings(alloc, files, words, number_words(options))?)
}

/// The keys and the playlist that the words of `check` tell.
fn check_options<F: FileReader>(
    alloc: Global,
    files: &F,
    options: &ArgMatches<'_>,
) -> Result<CheckOptions, Fault>
    ensures job { IfOk result (AreCheckOptions (F.gives files.now) (found_of options.now)) }
    ensures fault { IfErr result (AreNoKeys (files_view (F.gives files.now) (F.refuses files.now) (F.wants files.now)) (found_of options.now)) }
{
    Ok(read_check_options(alloc, files, check_words(options))?)
}

/// The ladder that the words of `pack` tell.
fn ladder_job<'a, F: FileReader>(
    alloc: Global,
    files: &F,
    options: &ArgMatches<'a>,
) -> Result<LadderJob<'a>, Fault>
    ensures job { IfOk result (IsLadderJob (F.gives files.now) (found_of options.now)) }
    ensures fault { IfErr result (IsNoLadder (files_view (F.gives files.now) (F.refuses files.now) (F.wants files.now)) (found_of options.now)) }
{
    let entries = entry_words(alloc, options)?;
    let words = ladder_words(options, &entries);
    let numbers = number_words(options);
    let ladder = read_ladder_options(alloc, files, words, numbers, pool_words(options))?;
    Ok(LadderJob {
        options: ladder,
        folder: folder_word(options),
        resumes: resume_word(options),
        removes: remove_word(options),
        syncs: sync_word(options),
        metrics: metrics_word(options),
    })
}

/// The program, with its commands in the order in which help shows them.
pub(crate) fn program<'a>(alloc: Global, version: &'a str) -> Result<Program<'a>, AllocError>
    ensures app { IfOk result (λ made. app_of made.command ≡ tshls) }
    ensures globals { IfOk result (λ made. (out-Command made.command).has_globals ≡ false) }
    ensures version { IfOk result (λ made. (out-Command made.command).version ≡ Some version.entry) }
{
    let program = Program::new(alloc);
    let command = offered_seal(alloc)?;
    let program = program.with_command(command)?;
    let command = offered_open(alloc)?;
    let program = program.with_command(command)?;
    let command = offered_one(alloc)?;
    let program = program.with_command(command)?;
    let command = offered_pack(alloc)?;
    let program = program.with_command(command)?;
    let command = offered_check(alloc)?;
    let program = program.with_command(command)?;
    Ok(program.with_version(version))
}
