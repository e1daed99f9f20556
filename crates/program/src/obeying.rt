//! What a line comes to.
ghost use Rattle.std.specs.Process.{exit_status};
ghost use Rattle.program.specs.Lines.{LineEnds, StreamEnds};
ghost use Rattle.program.specs.Streaming.{FileView, Passed};

use crate::streaming::{Streamed, stream};
use crate::{ended, pack};
use command_line::{Fault, Job, StreamJob};
use commands::FileReader;
use item_io::ReaderSource;
use read_ahead::InputFiles;
use std::alloc::AllocGlobal;
use std::fs::Files;
use std::io::{Eprint, Read, Write};
use std::process::ExitCode;
use std::sync::Wait;
use std::thread::Threads;
use std::time::Clock;

/// The words of a line, by which faults are explained, and the job that they ask for, or why they ask for none.
#[derive(Drop)]
pub struct Line<'a> {
    pub words: &'a [String],
    pub job: Result<Job<'a>, Fault>,
    /// Whether two segments are sealed side by side in about the time of one.
    pub pairs: bool,
}

/// What a line read from and wrote to, and the status that it ended with.
#[derive(Drop)]
pub struct Obeyed<Q, W> {
    pub source: ReaderSource<Q>,
    pub output: W,
    pub status: ExitCode,
}

/// Does what a line asks for, and tells how that ends. It reads streams as inputs, and playlists as files.
pub fn obey<
    R: Threads
        + Wait
        + Clock
        + Eprint
        + Files
        + InputFiles
        + AllocGlobal
        + Clone
        + Copy
        + Send
        + Sync
        + Drop
        + 'static,
    F: FileReader,
    Q: Read + Drop,
    W: Write + Drop,
>(rt: R, host: &HostRuntime, files: &F, asked: Line<'_>, input: Q, output: W) -> Obeyed<Q, W>
where
    R::Reader: Send + 'static,
    R::File: Send + 'static,
    R::Dir: Send + 'static,
    ensures { let files_are : FileView = record { gives = F.gives files.now; refuses = F.refuses files.now; wants = F.wants files.now } in
        let passed : Passed = record {
          left = Q.remaining input;
          left_then = Q.remaining result.source.reader;
          reads = result.source.reads;
          failures = result.source.failures;
          held = W.contents output;
          held_then = W.contents result.output;
        } in
        LineEnds R (R.holds rt) files_are asked.entry.job passed (exit_status result.status) }
{
    let Line { words, job, pairs } = asked;
    match job {
        Ok(Job::Stream(job)) => obey_stream(host, words, files, input, output, job),
        Ok(Job::Ladder(job)) => {
            let mut output = output;
            let status = pack(rt, host, words, job, pairs, &mut output);
            Obeyed {
                source: ReaderSource::new(input),
                output,
                status,
            }
        }
        Err(fault) => Obeyed {
            source: ReaderSource::new(input),
            output,
            status: ended(host, words, Err(fault)),
        },
    }
}

/// Does what a command asks for that reads in the calling thread alone, and tells how that ends.
fn obey_stream<Q: Read + Drop, W: Write + Drop, F: FileReader>(
    host: &HostRuntime,
    words: &[String],
    files: &F,
    input: Q,
    output: W,
    job: StreamJob,
) -> Obeyed<Q, W>
    ensures { let files_are : FileView = record { gives = F.gives files.now; refuses = F.refuses files.now; wants = F.wants files.now } in
        let passed : Passed = record {
          left = Q.remaining input;
          left_then = Q.remaining result.source.reader;
          reads = result.source.reads;
          failures = result.source.failures;
          held = W.contents output;
          held_then = W.contents result.output;
        } in
        StreamEnds files_are job passed (exit_status result.status) }
{
    let Streamed {
        source,
        output,
        answer,
    } = stream(host.alloc(), files, input, output, job);
    Obeyed {
        source,
        output,
        status: ended(host, words, answer),
    }
}
