//! What the program does, whatever processor it's built for.
#![tactic(auto)]

ghost use Rattle.std.specs.Prelude.{◌≡◌, ◌≢◌, ◌++◌, Err, IfErr, IfOk, IsErrOf, Ok, OnErr, OnOk, codes, false, true};
ghost use Rattle.std.specs.String.{string_bytes};
ghost use Rattle.std.specs.IoError.{error_kind};
ghost use Rattle.std.specs.Process.{exit_status};
ghost use Rattle.std.specs.declared.io.ErrorKind.TheVariants.{OutOfMemory};
ghost use Rattle.command_line.specs.Faults.{status_of};
ghost use Rattle.command_line.specs.declared.fault.Fault.TheVariants.{NoMemory, NotUtf8};
ghost use Rattle.program.specs.Lines.{PackEnds};

mod bulletin;
mod fault_names;
mod file_answers;
mod holding;
mod ladder;
mod lock;
mod metrics_file;
mod metrics_writer;
mod obeying;
mod pairs;
mod processor;
mod run_clock;
mod streaming;
mod telling;
mod told;
mod told_unwritten;
mod watching;

use crate::holding::hold;
use crate::ladder::{LadderRun, begin_channel, pack_ladder};
use crate::obeying::{Line, obey};
pub use crate::processor::Processor;
use crate::telling::{Teller, tell};
pub use crate::told::each_has_a_place;
use command_line::{Fault, LadderJob, line, version};
use read_ahead::InputFiles;
use std::alloc::{AllocGlobal, Global};
use std::env::{self, Args};
use std::fs::Files;
use std::io;
use std::io::{Eprint, Write};
use std::process::ExitCode;
use std::sync::Wait;
use std::thread::Threads;
use std::time::Clock;

/// Why the words of the command line can't be had.
fn unread_words(error: io::Error) -> Fault
    ensures no_memory { error_kind error ≡ OutOfMemory → result ≡ NoMemory }
    ensures not_utf8 { error_kind error ≢ OutOfMemory → result ≡ NotUtf8 }
{
    match error.kind() {
        io::ErrorKind::OutOfMemory => Fault::NoMemory,
        _ => Fault::NotUtf8,
    }
}

/// The words of the command line.
fn words(rt: &HostRuntime) -> Result<Vec<String>, Fault> {
    words_of(rt.alloc(), env::args(rt))
}

/// The words, if they could be read.
fn words_of(alloc: Global, args: io::Result<Args>) -> Result<Vec<String>, Fault>
    ensures memory { IfErr args (λ error. error_kind error ≡ OutOfMemory → result ≡ Err NoMemory) }
    ensures utf8 { IfErr args (λ error. error_kind error ≢ OutOfMemory → result ≡ Err NotUtf8) }
    ensures scarce { OnOk args (OnErr result (result ≡ Err NoMemory)) }
{
    match args {
        Ok(args) => Ok(args.collect(alloc)?),
        Err(error) => Err(unread_words(error)),
    }
}

/// Packs a ladder, with a worker that has a segment taking a second one wherever one waits or not, and tells how that ends. A fault that
/// was told as it stood isn't told once more.
fn pack<
    R: Threads
        + Wait
        + Clock
        + Eprint
        + Files
        + InputFiles
        + AllocGlobal
        + Clone
        + Copy
        + Send
        + Sync
        + Drop
        + 'static,
    W: Write,
>(
    rt: R,
    host: &HostRuntime,
    words: &[String],
    job: LadderJob<'_>,
    pairs: bool,
    output: &mut W,
) -> ExitCode
where
    R::Reader: Send + 'static,
    R::File: Send + 'static,
    R::Dir: Send + 'static,
    ensures { PackEnds R (R.holds rt) job.entry (W.contents output.old) (W.contents output.new) (exit_status result) }
{
    let held = match hold(host, job.folder) {
        Ok(held) => held,
        Err(fault) => return ended(host, words, Err(fault)),
    };
    let channel = match begin_channel(rt, host.alloc(), held, job) {
        Ok(channel) => channel,
        Err(fault) => return ended(host, words, Err(fault)),
    };
    let Ok(teller) = Teller::new(rt, *host, words, &channel.job.options.settings) else {
        return ended(host, words, Err(Fault::NoMemory));
    };
    match pack_ladder(rt, host.alloc(), &channel, pairs, output, &teller) {
        Ok(
            LadderRun {
                sources: _,
                outlet: _,
                answer,
                look: _,
            },
        ) => end_of(host, words, &teller, answer),
        Err(fault) => end_of(host, words, &teller, Err(fault)),
    }
}

/// Tells how a ladder ends: a fault that was told as it stood isn't told once more.
fn end_of<R: Wait>(
    host: &HostRuntime,
    words: &[String],
    teller: &Teller<'_, R>,
    answer: Result<(), Fault>,
) -> ExitCode
    ensures well { OnOk answer (exit_status result ≡ 0) }
    ensures fault { IfErr answer (λ fault. exit_status result ≡ status_of fault) }
{
    match answer {
        Ok(()) => ended(host, words, Ok(())),
        Err(fault) => {
            if teller.has_told(&fault) {
                return ExitCode::from(fault.status());
            }
            ended(host, words, Err(teller.seen(fault)))
        }
    }
}

/// Tells how the program ends.
fn ended(rt: &HostRuntime, words: &[String], answer: Result<(), Fault>) -> ExitCode
    ensures well { OnOk answer (exit_status result ≡ 0) }
    ensures fault { IfErr answer (λ fault. exit_status result ≡ status_of fault) }
{
    match answer {
        Ok(()) => ExitCode::SUCCESS,
        Err(fault) => {
            tell(rt, words, &fault);
            ExitCode::from(fault.status())
        }
    }
}

/// The version of the program, built for this processor.
fn version_of(alloc: Global, processor: &str) -> Result<String, Fault>
    ensures ok { IfOk result (λ text. string_bytes text ≡ codes "0.1.0 " ++ processor.now) }
    ensures scarce { OnErr result (result ≡ Err NoMemory) }
{
    Ok(version(alloc, processor)?)
}

/// The program, built for this processor: it reads its words, does what they ask for, and tells how that ends.
pub fn run<
    R: Threads
        + Wait
        + Clock
        + Eprint
        + Files
        + InputFiles
        + AllocGlobal
        + Clone
        + Copy
        + Send
        + Sync
        + Drop
        + 'static,
>(rt: R, host: HostRuntime, processor: Processor) -> ExitCode
where
    R::Reader: Send + 'static,
    R::File: Send + 'static,
    R::Dir: Send + 'static,
{
    let words = match words(&host) {
        Ok(words) => words,
        Err(fault) => return ended(&host, &[], Err(fault)),
    };
    let version = match version_of(host.alloc(), processor.level()) {
        Ok(version) => version,
        Err(fault) => return ended(&host, words.as_slice(), Err(fault)),
    };
    let asked = Line {
        words: words.as_slice(),
        job: line(host.alloc(), &host, words.as_slice(), version.as_str()),
        pairs: processor.seals_pairs(),
    };
    obey(rt, &host, &host, asked, host.stdin(), host.stdout()).status
}
