ghost use Rattle.std.specs.Prelude.{◌≡◌, ◌⊎◌, [], ◌∷◌, ◌++◌, false, length, not, true, IfNone, IfSome};
ghost use Rattle.std.specs.Arc.{arc_value};
ghost use Rattle.rtrb.specs.Ring.{sent};
ghost use Rattle.read_ahead.specs.Messages.{LeavesOut, MayFollow, MayTell, bytes_of, goes_on};
ghost use Rattle.read_ahead.specs.Sources.{room_of};
ghost use Rattle.read_ahead.specs.declared.message.Message.TheVariants.{Bytes};

use crate::backlogs::Backlogs;
use crate::counts::{Awaited, Room, Waited};
use crate::input::{Contents, Input};
use crate::message::{InOrder, Message};
use crate::pushing::push;
use crate::untold::Untold;
use rtrb::Producer;
use std::alloc::Global;
use std::sync::{Arc, Wait};
use std::time::Clock;

/// The end of a thread that reads an input. `sent` of its producer is what was told. It can't be let go, so that the end is told, or
/// that something is left untold.
pub struct Sender<I: Contents> {
    pub producer: Producer<Message<I>, Global, InOrder<I>>,
    pub backlogs: Arc<Backlogs, Global>,
    pub number: usize,
    /// Whether no more of the input was given when room was waited for last.
    pub is_left: bool,
}

impl<I: Contents> Sender<I> {
    /// The end by which the input of this number is told.
    pub fn new(
        producer: Producer<Message<I>, Global, InOrder<I>>,
        backlogs: Arc<Backlogs, Global>,
        number: usize,
    ) -> Sender<I>
        ensures sent { sent result.producer ≡ sent producer }
        ensures number { result.number ≡ number }
        ensures left { result.is_left ≡ false }
    {
        Sender {
            producer,
            backlogs,
            number,
            is_left: false,
        }
    }

    /// Tells something more that isn't a block, once there is a slot for it.
    pub fn send<R: Wait>(&mut self, rt: &R, message: Message<I>)
        requires order { MayFollow I.holds I.refuses (sent self.old.producer) message }
        requires plain { bytes_of message ≡ [] }
        ensures ok { sent self.new.producer ≡ sent self.old.producer ++ message ∷ [] }
        ensures number { self.new.number ≡ self.old.number }
        ensures left { self.new.is_left ≡ self.old.is_left }
    {
        self.push(rt, message);
    }

    /// Tells a block for which there is room, once there is a slot for it.
    pub fn send_block<R: Wait>(&mut self, rt: &R, block: Vec<u8>, _room: Room)
        requires order { MayTell I.holds (sent self.old.producer) block.items }
        requires of { _room.number ≡ self.old.number }
        requires counted { _room.count ≡ length block.items }
        requires given { _room.is_given ≡ true }
        requires bound { _room.room ≡ room_of (arc_value self.old.backlogs) self.old.number }
        ensures ok { sent self.new.producer ≡ sent self.old.producer ++ Bytes block ∷ [] }
        ensures number { self.new.number ≡ self.old.number }
        ensures left { self.new.is_left ≡ self.old.is_left }
    {
        self.push(rt, Message::Bytes(block));
    }

    fn push<R: Wait>(&mut self, rt: &R, message: Message<I>)
        requires { MayFollow I.holds I.refuses (sent self.old.producer) message }
        ensures ok { sent self.new.producer ≡ sent self.old.producer ++ message ∷ [] }
        ensures number { self.new.number ≡ self.old.number }
        ensures left { self.new.is_left ≡ self.old.is_left }
    {
        let pushed = push(rt, &mut self.producer, message);
        self.backlogs.tell(rt, pushed);
    }

    /// The next bytes of the input are waited for from now on.
    pub fn begin_wait<R: Wait + Clock>(&self, rt: &R) -> Awaited
        ensures { result.number ≡ self.now.number }
    {
        self.backlogs.begin_wait(rt, self.number)
    }

    /// They came, or none do.
    pub fn end_wait<R: Wait>(&self, rt: &R, awaited: Awaited) -> Waited
        requires { awaited.number ≡ self.now.number }
        ensures { result.number ≡ self.now.number }
    {
        self.backlogs.end_wait(rt, awaited)
    }

    /// Waits until there is room for a block of so many bytes that was waited for, or no more of the input is given.
    pub fn wait_for_room<R: Wait>(&mut self, rt: &R, _waited: Waited, count: usize) -> Room
        requires { _waited.number ≡ self.old.number }
        ensures of { result.number ≡ self.old.number }
        ensures counted { result.is_given ≡ true → result.count ≡ count }
        ensures bound { result.is_given ≡ true → result.room ≡ room_of (arc_value self.old.backlogs) self.old.number }
        ensures told { sent self.new.producer ≡ sent self.old.producer }
        ensures number { self.new.number ≡ self.old.number }
        ensures backlogs { self.new.backlogs ≡ self.old.backlogs }
        ensures left { self.new.is_left ≡ not result.is_given }
    {
        let room = self.backlogs.put(rt, self.number, count);
        self.is_left = !room.is_given();
        room
    }
}

impl<I: Input> Sender<I> {
    /// No more is told: all was, or this is left untold.
    pub fn close(self, _untold: &Untold<I::Reader>)
        requires none { IfNone _untold.now.reader (goes_on (sent self.producer) ≡ false) }
        requires some { IfSome _untold.now.reader (λ reader. (goes_on (sent self.producer) ≡ false)
            ⊎ LeavesOut I.holds (sent self.producer) (I.Reader.remaining reader)) }
    {
        let Sender {
            producer: _,
            backlogs: _,
            number: _,
            is_left: _,
        } = self;
    }
}
