//! What the thread of an input does.
ghost use Rattle.std.specs.Prelude.{◌≡◌, ◌≢◌, ◌<◌, ◌≤◌, ◌⊎◌, ◌++◌, ◌∷◌, [], Ok, false, true, length, take, IfNone, IfOk, IfSome, OnErr};
ghost use Rattle.std.specs.Io.KnownBytes.{Consumes, IsAtEnd, Keeps};
ghost use Rattle.rtrb.specs.Ring.{sent};
ghost use Rattle.read_ahead.specs.Messages.{Asks, EndsWith, IsOpen, LeavesOut, MayEnd, Tells, goes_on};
ghost use Rattle.read_ahead.specs.declared.message.Message.TheVariants.{End, Failed};
ghost use Rattle.read_ahead.specs.declared.reading.ReadingEnd.TheVariants.{AtEnd, Left, NoMemory};

use crate::input::Input;
use crate::message::Message;
use crate::opening::open;
use crate::sender::Sender;
use crate::spares::Spares;
use crate::untold::Untold;
use item_io::{ReadFault, read_some};
use std::alloc::{AllocError, Global};
use std::io::Read;
use std::mem;
use std::sync::Wait;
use std::time::Clock;

/// Why nothing more is told of an input.
#[derive(Clone, Copy)]
pub enum ReadingEnd {
    /// All of it was.
    AtEnd,
    /// No more of it is given.
    Left,
    /// Memory for its next bytes is refused.
    NoMemory,
}

/// Opens an input, and tells all that it gives. Answers what isn't told: no more of the input is given, or memory was refused.
#[tactic(auto, using(crate::proofs::Telling::ends_snoc))]
pub fn open_and_read<R: Wait + Clock, I: Input>(
    rt: &R,
    alloc: Global,
    sender: &mut Sender<I>,
    input: I,
) -> Untold<I::Reader>
    requires { Asks (sent sender.old.producer) sender.old.number input }
    ensures none { IfNone result.reader (goes_on (sent sender.new.producer) ≡ false) }
    ensures some { IfSome result.reader (λ reader. (goes_on (sent sender.new.producer) ≡ false)
        ⊎ LeavesOut I.holds (sent sender.new.producer) (I.Reader.remaining reader)) }
{
    match open(input) {
        Ok((reader, openness)) => {
            sender.send(rt, Message::Opened(openness));
            let mut reader = reader;
            let stop = read_ahead(rt, alloc, sender, &mut reader);
            Untold::of(stop, reader)
        }
        Err(refusal) => {
            sender.send(rt, Message::Refused(refusal));
            Untold::nothing()
        }
    }
}

/// Tells all that an open input gives, and its end or a failure. Want of memory is told as a failed read; where no more of the input
/// is given, that isn't told.
fn read_ahead<R: Wait + Clock, I: Input>(
    rt: &R,
    alloc: Global,
    sender: &mut Sender<I>,
    reader: &mut I::Reader,
) -> Result<ReadingEnd, ReadFault>
    requires { Tells I.holds (sent sender.old.producer) (I.Reader.remaining reader.old) }
    ensures last { result ≢ Ok Left → goes_on (sent sender.new.producer) ≡ false }
    ensures end { result ≡ Ok AtEnd → EndsWith End (sent sender.new.producer) }
    ensures failed { result ≢ Ok AtEnd → result ≢ Ok Left → EndsWith Failed (sent sender.new.producer) }
    ensures was_left { result ≡ Ok Left → sender.new.is_left ≡ true }
    ensures left { result ≡ Ok Left → LeavesOut I.holds (sent sender.new.producer) (I.Reader.remaining reader.new) }
{
    let Ok(mut buffer) = sender.backlogs.spares.take(rt) else {
        tell_failure(rt, sender);
        return Ok(ReadingEnd::NoMemory);
    };
    let stop = copy_by(rt, alloc, sender, reader, &mut buffer);
    tell_stop(rt, sender, stop);
    stop
}

/// Tells the end or the failure of an input that stopped so; nothing where no more of it is given.
#[tactic(auto, using(crate::proofs::Telling::ends_snoc))]
fn tell_stop<R: Wait, I: Input>(rt: &R, sender: &mut Sender<I>, stop: Result<ReadingEnd, ReadFault>)
    requires open { IsOpen (sent sender.old.producer) }
    requires end { stop ≡ Ok AtEnd → MayEnd I.holds (sent sender.old.producer) }
    ensures last { stop ≢ Ok Left → goes_on (sent sender.new.producer) ≡ false }
    ensures left { stop ≡ Ok Left → sent sender.new.producer ≡ sent sender.old.producer }
    ensures end { stop ≡ Ok AtEnd → sent sender.new.producer ≡ sent sender.old.producer ++ End ∷ [] }
    ensures failed { stop ≢ Ok AtEnd → stop ≢ Ok Left → sent sender.new.producer ≡ sent sender.old.producer ++ Failed ∷ [] }
    ensures same { sender.new.is_left ≡ sender.old.is_left }
{
    match stop {
        Ok(ReadingEnd::AtEnd) => sender.send(rt, Message::End),
        Ok(ReadingEnd::Left) => {}
        Ok(ReadingEnd::NoMemory) => tell_failure(rt, sender),
        Err(_) => tell_failure(rt, sender),
    }
}

/// Tells that a read failed.
fn tell_failure<R: Wait, I: Input>(rt: &R, sender: &mut Sender<I>)
    requires { IsOpen (sent sender.old.producer) }
    ensures ok { sent sender.new.producer ≡ sent sender.old.producer ++ Failed ∷ [] }
    ensures same { sender.new.is_left ≡ sender.old.is_left }
{
    sender.send(rt, Message::Failed);
}

/// Tells all that an input gives, up to its end, by reads into this buffer.
fn copy_by<R: Wait + Clock, I: Input>(
    rt: &R,
    alloc: Global,
    sender: &mut Sender<I>,
    reader: &mut I::Reader,
    buffer: &mut Vec<u8>,
) -> Result<ReadingEnd, ReadFault>
    requires room { 0 < length buffer.old.items }
    requires tells { Tells I.holds (sent sender.old.producer) (I.Reader.remaining reader.old) }
    ensures told { result ≡ Ok AtEnd → Tells I.holds (sent sender.new.producer) (I.Reader.remaining reader.new) }
    ensures end { result ≡ Ok AtEnd → IsAtEnd (I.Reader.remaining reader.new) }
    ensures open { IsOpen (sent sender.new.producer) }

    // A block that came isn't told where no more is given, or memory is refused.
    ensures left { result ≡ Ok Left → LeavesOut I.holds (sent sender.new.producer) (I.Reader.remaining reader.new) }
    ensures scarce { result ≡ Ok NoMemory → LeavesOut I.holds (sent sender.new.producer) (I.Reader.remaining reader.new) }
    ensures was_left { result ≡ Ok Left → sender.new.is_left ≡ true }
    ensures was_given { result ≡ Ok NoMemory → sender.new.is_left ≡ false }

    // A failed read loses nothing.
    ensures failed { OnErr result (Tells I.holds (sent sender.new.producer) (I.Reader.remaining reader.new)) }
{
    for _ in rt.forever() {
        let awaited = sender.begin_wait(rt);
        let read = read_into(reader, buffer);
        let waited = sender.end_wait(rt, awaited);
        let count = read?;
        if count == 0 {
            return Ok(ReadingEnd::AtEnd);
        }
        let room = sender.wait_for_room(rt, waited, count);
        if !room.is_given() {
            return Ok(ReadingEnd::Left);
        }
        let Ok(block) = block_of(rt, alloc, &sender.backlogs.spares, buffer, count) else {
            return Ok(ReadingEnd::NoMemory);
        };
        sender.send_block(rt, block, room);
    }
    unreachable!()
}

/// One read into a buffer, which stays as long as it is.
fn read_into<Q: Read>(reader: &mut Q, buffer: &mut Vec<u8>) -> Result<usize, ReadFault>
    ensures within { IfOk result (λ count. count ≤ length buffer.new.items) }
    ensures gave { IfOk result (λ count. Consumes (Q.remaining reader.old) (Q.remaining reader.new) (take count buffer.new.items)) }
    ensures end { IfOk result (λ count. count ≡ 0 → 0 < length buffer.new.items → IsAtEnd (Q.remaining reader.new)) }
    ensures kept { OnErr result (Keeps (Q.remaining reader.old) (Q.remaining reader.new)) }
    ensures len { length buffer.new.items ≡ length buffer.old.items }
{
    read_some(reader, buffer.as_mut_slice())
}

/// A block of the first bytes of a buffer: the buffer itself where they fill it, so that another takes its place, and else a copy.
fn block_of<R: Wait>(
    rt: &R,
    alloc: Global,
    spares: &Spares,
    buffer: &mut Vec<u8>,
    count: usize,
) -> Result<Vec<u8>, AllocError>
    requires some { 0 < count }
    requires within { count ≤ length buffer.old.items }
    ensures ok { IfOk result (λ block. block.items ≡ take count buffer.old.items) }
    ensures err { OnErr result (buffer.new ≡ buffer.old) }
    ensures scarce { OnErr result (0 < length (take count buffer.old.items)) }
    ensures room { 0 < length buffer.new.items }
{
    if count < buffer.len() {
        return copy_of(alloc, &buffer[..count]);
    }
    let next = spares.take(rt)?;
    Ok(mem::replace(buffer, next))
}

/// A copy of these bytes.
fn copy_of(alloc: Global, bytes: &[u8]) -> Result<Vec<u8>, AllocError>
    ensures ok { IfOk result (λ block. block.items ≡ bytes.now) }
    ensures scarce { OnErr result (0 < length bytes.now) }
{
    let mut block = Vec::with_capacity(alloc, bytes.len())?;
    block.extend_from_slice(bytes)?;
    Ok(block)
}
