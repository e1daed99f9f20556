//! What a command does that reads in the calling thread alone.
ghost use Rattle.std.specs.Prelude.{◌≡◌, IfErr, OnOk};
ghost use Rattle.commands.specs.declared.check_options.CheckOptions.{CheckOptions};
ghost use Rattle.command_line.specs.declared.fault.Fault.TheVariants.{Checking, Opening, Packing, Sealing};
ghost use Rattle.command_line.specs.declared.job.StreamJob.TheVariants.{Check};
ghost use Rattle.program.specs.Streaming.{Checks, DoesStream, FailsChecking, FailsOpening, FailsPacking, FailsSealing};
ghost use Rattle.program.specs.Streaming.{FileView, IsOfStream, Opens, Packs, Passed, Seals};

use command_line::{Fault, StreamJob};
use commands::{CheckOptions, CipherOptions, FileReader, check, open, seal};
use item_io::ReaderSource;
use packing::{Packed, one};
use pipeline::Settings;
use std::alloc::Global;
use std::io::{Read, Write};

/// What a command read from and wrote to, and how it ended.
#[derive(Drop)]
pub struct Streamed<R, W> {
    pub source: ReaderSource<R>,
    pub output: W,
    pub answer: Result<(), Fault>,
}

/// Does what a command asks for that reads its input, or files, in the calling thread alone.
pub fn stream<R: Read + Drop, W: Write + Drop, F: FileReader>(
    alloc: Global,
    files: &F,
    input: R,
    output: W,
    job: StreamJob,
) -> Streamed<R, W>
    ensures ok { OnOk result.answer (DoesStream (F.gives files.now) job (R.remaining input) (W.contents output) (W.contents result.output)) }
    ensures fault { let files_are : FileView = record { gives = F.gives files.now; refuses = F.refuses files.now; wants = F.wants files.now } in
        let passed : Passed = record {
          left = R.remaining input;
          left_then = R.remaining result.source.reader;
          reads = result.source.reads;
          failures = result.source.failures;
          held = W.contents output;
          held_then = W.contents result.output;
        } in
        IfErr result.answer (IsOfStream files_are job passed) }

    // A check leaves its input alone.
    ensures unread { (options : CheckOptions) → job ≡ Check options →
        (result.source.reader ≡ input) × (result.source.reads ≡ 0) × (result.source.failures ≡ 0) }
{
    match job {
        StreamJob::Seal(options) => sealed(alloc, options, input, output),
        StreamJob::Open(options) => opened(alloc, options, input, output),
        StreamJob::One(settings) => packed(alloc, settings, input, output),
        StreamJob::Check(options) => checked(alloc, files, options, input, output),
    }
}

/// The command `seal`.
fn sealed<R: Read + Drop, W: Write>(
    alloc: Global,
    options: CipherOptions,
    input: R,
    output: W,
) -> Streamed<R, W>
    ensures ok { OnOk result.answer (Seals options (R.remaining input) (W.contents output) (W.contents result.output)) }
    ensures fault { let passed : Passed = record {
      left = R.remaining input;
      left_then = R.remaining result.source.reader;
      reads = result.source.reads;
      failures = result.source.failures;
      held = W.contents output;
      held_then = W.contents result.output;
    } in
        IfErr result.answer (λ fault. (why : _) × (fault ≡ Sealing why) × FailsSealing options passed why) }
{
    let mut source = ReaderSource::new(input);
    let mut output = output;
    match seal(
        alloc,
        &options.key,
        &options.vector,
        &mut source,
        &mut output,
    ) {
        Ok(()) => Streamed {
            source,
            output,
            answer: Ok(()),
        },
        Err(why) => Streamed {
            source,
            output,
            answer: Err(Fault::Sealing(why)),
        },
    }
}

/// The command `open`.
fn opened<R: Read + Drop, W: Write>(
    alloc: Global,
    options: CipherOptions,
    input: R,
    output: W,
) -> Streamed<R, W>
    ensures ok { OnOk result.answer (Opens options (R.remaining input) (W.contents output) (W.contents result.output)) }
    ensures fault { let passed : Passed = record {
      left = R.remaining input;
      left_then = R.remaining result.source.reader;
      reads = result.source.reads;
      failures = result.source.failures;
      held = W.contents output;
      held_then = W.contents result.output;
    } in
        IfErr result.answer (λ fault. (why : _) × (fault ≡ Opening why) × FailsOpening options passed why) }
{
    let mut source = ReaderSource::new(input);
    let mut output = output;
    match open(
        alloc,
        &options.key,
        &options.vector,
        &mut source,
        &mut output,
    ) {
        Ok(()) => Streamed {
            source,
            output,
            answer: Ok(()),
        },
        Err(why) => Streamed {
            source,
            output,
            answer: Err(Fault::Opening(why)),
        },
    }
}

/// The command `one`.
fn packed<R: Read + Drop, W: Write>(
    alloc: Global,
    settings: Settings,
    input: R,
    output: W,
) -> Streamed<R, W>
    ensures ok { OnOk result.answer (Packs settings (R.remaining input) (W.contents output) (W.contents result.output)) }
    ensures fault { let passed : Passed = record {
      left = R.remaining input;
      left_then = R.remaining result.source.reader;
      reads = result.source.reads;
      failures = result.source.failures;
      held = W.contents output;
      held_then = W.contents result.output;
    } in
        IfErr result.answer (λ fault. (why : _) × (fault ≡ Packing why) × FailsPacking settings passed why) }
{
    let Packed {
        source,
        outlet,
        answer,
    } = one(alloc, &settings, input, output);
    let output = outlet.into_writer();
    match answer {
        Ok(()) => Streamed {
            source,
            output,
            answer: Ok(()),
        },
        Err(why) => Streamed {
            source,
            output,
            answer: Err(Fault::Packing(why)),
        },
    }
}

/// The command `check`.
fn checked<R: Read + Drop, W: Write, F: FileReader>(
    alloc: Global,
    files: &F,
    options: CheckOptions,
    input: R,
    output: W,
) -> Streamed<R, W>
    ensures ok { OnOk result.answer (Checks (F.gives files.now) options (W.contents output) (W.contents result.output)) }
    ensures fault { let files_are : FileView = record { gives = F.gives files.now; refuses = F.refuses files.now; wants = F.wants files.now } in
        let passed : Passed = record {
          left = R.remaining input;
          left_then = R.remaining result.source.reader;
          reads = result.source.reads;
          failures = result.source.failures;
          held = W.contents output;
          held_then = W.contents result.output;
        } in
        IfErr result.answer (λ fault. (why : _) × (fault ≡ Checking why) × FailsChecking files_are options passed why) }

    // Its input is left alone.
    ensures unread { (result.source.reader ≡ input) × (result.source.reads ≡ 0) × (result.source.failures ≡ 0) }
{
    let source = ReaderSource::new(input);
    let mut output = output;
    match check(alloc, files, &options.keys, &options.playlist, &mut output) {
        Ok(()) => Streamed {
            source,
            output,
            answer: Ok(()),
        },
        Err(why) => Streamed {
            source,
            output,
            answer: Err(Fault::Checking(why)),
        },
    }
}
