//! A thread for each input, and the sources of what they read.
ghost use Rattle.std.specs.Prelude.{◌≡◌, ◌+◌, ◌<◌, ◌≤◌, [], All, false, map, length, IfOk, IsErrOf, IsOk, OnErr};
ghost use Rattle.std.specs.Arc.{arc_value};
ghost use Rattle.std.specs.List.{AllZip, range_with_len};
ghost use Rattle.std.specs.String.{string_bytes};
ghost use Rattle.std.specs.Vec.{vec_capacity, vec_len};
ghost use Rattle.rtrb.specs.Ring.{received, sent};
ghost use Rattle.read_ahead.specs.Messages.{Asks, IsNumbered};
ghost use Rattle.read_ahead.specs.Shares.{room_for};
ghost use Rattle.read_ahead.specs.Sources.{IsSound, MayBegin, all_seen, rest_of, seen_first};
ghost use Rattle.read_ahead.specs.declared.incoming.Phase.TheVariants.{Opening};
ghost use Rattle.read_ahead.specs.declared.starting.InputFault.TheVariants.{NoMemory, Unread};

use crate::ahead::Ahead;
use crate::backlogs::Backlogs;
use crate::incoming::{Incoming, Phase};
use crate::input::{Contents, Input};
use crate::input_files::{InputAt, InputFiles, inputs_at};
use crate::limits::{Limits, SLOTS};
use crate::message::{InOrder, Message};
use crate::reading::open_and_read;
use crate::sender::Sender;
use crate::waiting::{Unopened, wait_open};
use rtrb::{Producer, RingBuffer};
use std::alloc::{AllocError, Global};
use std::snapshot::Snapshot;
use std::sync::{Arc, Wait};
use std::thread;
use std::thread::Threads;
use std::time::Clock;
use thiserror::Error;

/// Why inputs can't be read ahead.
#[derive(Clone, Copy, Debug, PartialEq, Eq, Error)]
pub enum InputFault {
    /// One of them can't be opened.
    #[error("an input can't be opened")]
    Unread,
    /// Memory, or a thread, is refused.
    #[error("out of memory")]
    NoMemory,
}

impl From<AllocError> for InputFault {
    ghost from_gives = { λ _ fault. fault ≡ NoMemory };

    fn from(_: AllocError) -> InputFault {
        InputFault::NoMemory
    }
}

impl From<Unopened> for InputFault {
    ghost from_gives = { λ _ fault. fault ≡ Unread };

    fn from(unopened: Unopened) -> InputFault {
        let Unopened = unopened;
        InputFault::Unread
    }
}

/// Opens the input at each path in a thread of its own, which then reads it ahead, and waits until all are open. Where one
/// can't be opened, others may wait for their writers as long as the program runs.
pub fn open_paths<
    R: Threads + Wait + Clock + Copy + Send + Drop + 'static,
    F: InputFiles + Copy + Send + Drop + 'static,
>(
    rt: R,
    alloc: Global,
    files: F,
    paths: &[&str],
    limits: Limits,
) -> Result<Vec<Ahead<R, InputAt<F>>>, InputFault>
where
    F::Reader: Send + 'static,
    ensures left { IfOk result (λ sources. map (λ source. source.left) sources.items ≡ map (λ path. F.holds files path.now) paths.now) }
    ensures unread { IfOk result (λ sources. All (λ source. (source.reads ≡ 0) × (source.failures ≡ 0)) sources.items) }
    ensures unleft { IfOk result (λ sources. All (λ source. source.is_left ≡ false) sources.items) }
    ensures numbers { IfOk result (λ sources. map (λ source. source.number) sources.items ≡ range_with_len 0 (length paths.now)) }
    ensures limits { IfOk result (λ sources.
        All (λ source. (source.stall ≡ limits.stall) × (source.room ≡ room_for limits.ahead (length paths.now) source.is_file)) sources.items) }

    // Each is of a plain file if its path is told to be one.
    ensures files { IfOk result (λ sources.
        AllZip (λ path. F.plain files path.now) paths.now (map (λ source. source.is_file) sources.items)) }
    ensures inputs { IfOk result (λ sources. All (λ source. source.inputs ≡ length paths.now) sources.items) }
    ensures none { IsErrOf result InputFault.Unread → 0 < length paths.now }
{
    open_all(rt, alloc, inputs_at(alloc, files, paths)?, limits)
}

/// Opens each input in a thread of its own, which then reads it ahead, and waits until all are open.
pub fn open_all<
    R: Threads + Wait + Clock + Copy + Send + Drop + 'static,
    I: Input + Drop + Send + 'static,
>(rt: R, alloc: Global, inputs: Vec<I>, limits: Limits) -> Result<Vec<Ahead<R, I>>, InputFault>
where
    I::Reader: Send + 'static,
    ensures left { IfOk result (λ sources. map (λ source. source.left) sources.items ≡ map I.holds inputs.items) }
    ensures unread { IfOk result (λ sources. All (λ source. (source.reads ≡ 0) × (source.failures ≡ 0)) sources.items) }
    ensures unleft { IfOk result (λ sources. All (λ source. source.is_left ≡ false) sources.items) }
    ensures numbers { IfOk result (λ sources. map (λ source. source.number) sources.items ≡ range_with_len 0 (length inputs.items)) }
    ensures limits { IfOk result (λ sources.
        All (λ source. (source.stall ≡ limits.stall) × (source.room ≡ room_for limits.ahead (length inputs.items) source.is_file)) sources.items) }

    // Each is of a plain file if its input says that it is one.
    ensures files { IfOk result (λ sources. AllZip I.plain inputs.items (map (λ source. source.is_file) sources.items)) }
    ensures inputs { IfOk result (λ sources. All (λ source. source.inputs ≡ length inputs.items) sources.items) }
    ensures none { IsErrOf result InputFault.Unread → 0 < length inputs.items }
{
    let backlogs = Backlogs::new(&rt, alloc, &inputs, limits)?;
    let room = Vec::with_capacity(alloc, inputs.len())?;
    let incoming = start_all(rt, alloc, &backlogs, inputs)?;
    Ok(begin(rt, &backlogs, room, incoming)?)
}

/// Waits until a run may begin with all inputs, and answers their sources, in a vector that has room for them.
fn begin<R: Wait + Clock + Copy + Drop, I: Contents + Drop>(
    rt: R,
    backlogs: &Backlogs,
    room: Vec<Ahead<R, I>>,
    incoming: Vec<Incoming<I>>,
) -> Result<Vec<Ahead<R, I>>, Unopened>
    requires empty { room.items ≡ [] }
    requires room { vec_len room + length incoming.items ≤ vec_capacity room }
    requires sound { All (IsSound I.holds) incoming.items }
    ensures ok { IfOk result (λ sources. sources.items ≡ map (seen_first I.holds) incoming.items) }
    ensures none { incoming.items ≡ [] → IsOk result }
{
    let mut incoming = incoming;
    wait_open(&rt, backlogs, &mut incoming)?;
    Ok(sources_of(rt, room, incoming))
}

/// The sources of inputs with which a run may begin, in a vector that has room for them.
fn sources_of<R: Wait + Clock + Copy + Drop, I: Contents + Drop>(
    rt: R,
    room: Vec<Ahead<R, I>>,
    incoming: Vec<Incoming<I>>,
) -> Vec<Ahead<R, I>>
    requires empty { room.items ≡ [] }
    requires room { vec_len room + length incoming.items ≤ vec_capacity room }
    requires sound { All (IsSound I.holds) incoming.items }
    requires begun { All MayBegin incoming.items }
    ensures { result.items ≡ map (seen_first I.holds) incoming.items }
{
    let mut sources = room;
    for one in incoming {
        sources.push_reserved(Ahead::new(rt, one));
    }
    sources
}

/// Starts a thread for each input, and answers what comes of them.
fn start_all<
    R: Threads + Wait + Clock + Copy + Send + Drop + 'static,
    I: Input + Drop + Send + 'static,
>(
    rt: R,
    alloc: Global,
    backlogs: &Arc<Backlogs, Global>,
    inputs: Vec<I>,
) -> Result<Vec<Incoming<I>>, AllocError>
where
    I::Reader: Send + 'static,
    ensures sound { IfOk result (λ incoming. All (IsSound I.holds) incoming.items) }
    ensures seen { IfOk result (λ incoming. map (seen_first I.holds) incoming.items ≡ all_seen (arc_value backlogs.now) 0 (map I.holds inputs.items)) }
    ensures none { inputs.items ≡ [] → IsOk result }
{
    let mut incoming = Vec::with_capacity(alloc, inputs.len())?;
    for input in inputs {
        let number = incoming.len();
        incoming.push(start(rt, alloc, backlogs, number, input)?)?;
    }
    Ok(incoming)
}

/// Starts a thread that opens an input and reads it ahead, and answers what comes of it.
fn start<R: Threads + Wait + Clock + Copy + Send + 'static, I: Input + Drop + Send + 'static>(
    rt: R,
    alloc: Global,
    backlogs: &Arc<Backlogs, Global>,
    number: usize,
    input: I,
) -> Result<Incoming<I>, AllocError>
where
    I::Reader: Send + 'static,
    ensures sound { IfOk result (IsSound I.holds) }
    ensures opening { IfOk result (λ incoming. incoming.phase ≡ Opening) }
    ensures left { IfOk result (λ incoming. rest_of I.holds incoming ≡ I.holds input) }
    ensures number { IfOk result (λ incoming. incoming.number ≡ number) }
    ensures asked { IfOk result (λ incoming. IsNumbered number (received incoming.consumer)) }
    ensures waits { IfOk result (λ incoming. I.waits input incoming.may_wait) }
    ensures backlogs { IfOk result (λ incoming. arc_value incoming.backlogs ≡ arc_value backlogs.now) }
{
    let may_wait = input.may_wait();
    let (mut producer, mut consumer) = RingBuffer::with_protocol::<Global, InOrder<I>>(
        alloc, SLOTS,
    )?;
    producer.push_reserved(Message::Asked(Snapshot::of(&input), Snapshot::of(&number)));
    consumer.slots_beside(&mut producer);
    let _ = consumer.pop_known();
    let theirs = Arc::try_clone(backlogs)?;
    thread::spawn(
        &rt,
        move ||
            requires { Asks (sent producer) number input }
        { run(&rt, alloc, producer, theirs, number, input) },
    )?;
    Ok(Incoming {
        consumer,
        backlogs: Arc::try_clone(backlogs)?,
        number,
        front: Vec::new(alloc),
        at: 0,
        may_wait,
        phase: Phase::Opening,
    })
}

/// What the thread of an input does. What isn't told of the input is thrown away, so that its writer isn't held up.
fn run<R: Wait + Clock, I: Input>(
    rt: &R,
    alloc: Global,
    producer: Producer<Message<I>, Global, InOrder<I>>,
    backlogs: Arc<Backlogs, Global>,
    number: usize,
    input: I,
)
    requires { Asks (sent producer) number input }
{
    let mut sender = Sender::new(producer, backlogs, number);
    let untold = open_and_read(rt, alloc, &mut sender, input);
    sender.close(&untold);
    let _ = untold.throw_away(rt);
}
