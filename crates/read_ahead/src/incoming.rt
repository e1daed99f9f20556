//! What comes of an input: the bytes that its thread told, in the order in which it told them.
ghost use Rattle.std.specs.Prelude.{◌≡◌, ◌≢◌, ◌+◌, ◌-◌, ◌^◌, ◌≤◌, ◌<◌, [], ◌∷◌, ◌++◌, ◌⊎◌, ◌&&◌, if◌then◌else◌, true, false};
ghost use Rattle.std.specs.Prelude.{length, take, drop, min, Some, None, IfErr, IfNone, IfOk, IfSome, IsOk, IsSome, OnErr};
ghost use Rattle.std.specs.Arc.{arc_value};
ghost use Rattle.std.specs.Io.KnownBytes.{Consumes, IsAtEnd, Keeps};
ghost use Rattle.rtrb.specs.Ring.{known_items, received};
ghost use Rattle.read_ahead.specs.Messages.{MayFollow};
ghost use Rattle.read_ahead.specs.Sources.{IsDry, IsSound, LiesReady, StandsBy, StandsByLast, TakesNext, Waits};
ghost use Rattle.read_ahead.specs.Sources.{bytes_of_piece, going_by, opened_by, passed_of, rest_of};
ghost use Rattle.read_ahead.specs.declared.incoming.Phase.TheVariants.{Opening, Going, Ended, Failed};

use crate::backlogs::Backlogs;
use crate::counts::{Given, Leaving, Share, Silence};
use crate::input::Contents;
use crate::limits::FILE_MOMENT;
use crate::message::{InOrder, Message};
use crate::readiness::{Readiness, Unready};
use item_io::ReadFault;
use rtrb::Consumer;
use std::alloc::Global;
use std::mem;
use std::sync::{Arc, Wait};
use std::time::{Clock, Duration};

/// What is known of an input.
#[derive(Clone, Copy, PartialEq, Eq)]
pub enum Phase {
    /// It's being opened.
    Opening,
    /// It's open, and more comes.
    Going,
    /// Its end was told.
    Ended,
    /// It can't be opened, a read failed, or no more of it is given.
    Failed,
}

/// The end of a source that gives the bytes of an input.
#[derive(Drop)]
pub struct Incoming<I: Contents> {
    pub consumer: Consumer<Message<I>, Global, InOrder<I>>,
    pub backlogs: Arc<Backlogs, Global>,
    /// The number of the input.
    pub number: usize,
    /// The block that bytes are taken of, from the byte `at` on.
    pub front: Vec<u8>,
    pub at: usize,
    /// Whether its opening may wait for a writer.
    pub may_wait: bool,
    pub phase: Phase,
}

/// What a read gave: bytes of the front block, which has passed them, where they are lent, and else bytes at a buffer's front.
#[derive(Drop)]
pub struct Piece {
    pub given: Given,
    pub is_lent: bool,
}

impl<I: Contents> Incoming<I> {
    /// Whether the next message is needed before a byte can be given.
    pub fn is_used_up(&self) -> bool
        requires { IsSound I.holds self.now }
        ensures yes { result ≡ true → (self.now.at ≡ length self.now.front.items) × (self.now.phase ≡ Going) }
        ensures no { result ≡ false → (self.now.at < length self.now.front.items) ⊎ (self.now.phase ≢ Going) }
    {
        self.at >= self.front.len() && matches!(self.phase, Phase::Going)
    }

    /// Whether a read would answer at once.
    pub fn is_ready(&mut self) -> bool
        requires { IsSound I.holds self.old }
        ensures sound { IsSound I.holds self.new }
        ensures number { self.new.number ≡ self.old.number }
        ensures backlogs { self.new.backlogs ≡ self.old.backlogs }
        ensures same { rest_of I.holds self.new ≡ rest_of I.holds self.old }
        ensures phase { self.new.phase ≡ self.old.phase }
        ensures kept { received self.new.consumer ≡ received self.old.consumer }
        ensures ready { (self.old.at < length self.old.front.items) ⊎ (self.old.phase ≡ Ended) ⊎ (self.old.phase ≡ Failed) → result ≡ true }
        ensures exact { result ≡ true → (self.old.at < length self.old.front.items) ⊎ (self.old.phase ≡ Ended) ⊎ (self.old.phase ≡ Failed)
            ⊎ (0 < length (known_items self.new.consumer)) }
        ensures empty { result ≡ false → known_items self.new.consumer ≡ [] }
        ensures yes { result ≡ true → LiesReady self.new }
        ensures no { result ≡ false → Waits self.new }
    {
        self.at < self.front.len()
            || matches!(self.phase, Phase::Ended | Phase::Failed)
            || !self.consumer.is_empty()
    }

    /// The same, but the next bytes of a plain file are waited for, for a moment: it gives them as fast as they are read.
    fn is_ready_soon<R: Wait + Clock>(&mut self, rt: &R) -> bool
        requires { IsSound I.holds self.old }
        ensures sound { IsSound I.holds self.new }
        ensures number { self.new.number ≡ self.old.number }
        ensures backlogs { self.new.backlogs ≡ self.old.backlogs }
        ensures same { rest_of I.holds self.new ≡ rest_of I.holds self.old }
        ensures phase { self.new.phase ≡ self.old.phase }
        ensures kept { received self.new.consumer ≡ received self.old.consumer }
        ensures yes { result ≡ true → LiesReady self.new }
        ensures no { result ≡ false → Waits self.new }
    {
        if self.is_ready() {
            return true;
        }
        if !self.backlogs.is_file(self.number) {
            return false;
        }
        let seen = self.backlogs.news(rt);
        if self.is_ready() {
            return true;
        }
        let _ = self
            .backlogs
            .wait_for(rt, seen, Duration::from_millis(FILE_MOMENT));
        self.is_ready()
    }

    /// Whether a read would answer at once, of a source that was left if it was: not then. An input that is silent for too long has failed.
    pub fn readiness<R: Wait + Clock>(&mut self, rt: &R, was_left: bool) -> Readiness
        requires { IsSound I.holds self.old }
        ensures sound { IsSound I.holds self.new }
        ensures number { self.new.number ≡ self.old.number }
        ensures backlogs { self.new.backlogs ≡ self.old.backlogs }
        ensures same { rest_of I.holds self.new ≡ rest_of I.holds self.old }
        ensures phase { self.old.phase ≢ Opening → self.new.phase ≡ self.old.phase }
        ensures of { result.number ≡ self.old.number }
        ensures left { was_left ≡ true → result.is_ready ≡ false }
        ensures waits { was_left ≡ false → result.is_ready ≡ false → Waits self.new }
        ensures patient { (arc_value self.old.backlogs).limits.stall ≡ None → result.is_ready ≡ true → LiesReady self.new }
    {
        let _ = self.is_open(rt, true);
        if was_left {
            return Readiness::of_left(self.number, was_left);
        }
        if self.is_ready_soon(rt) {
            return Readiness::of_ready(self);
        }
        Readiness::of_silence(self.backlogs.silence(rt, self.number))
    }

    /// Whether it can be begun with the input: false where that can't be opened, none while that isn't known. An input that may
    /// wait for a writer `was_awaited` long enough.
    pub fn is_open<R: Wait + Clock>(&mut self, rt: &R, was_awaited: bool) -> Option<bool>
        requires { IsSound I.holds self.old }
        ensures sound { IsSound I.holds self.new }
        ensures number { self.new.number ≡ self.old.number }
        ensures backlogs { self.new.backlogs ≡ self.old.backlogs }
        ensures may_wait { self.new.may_wait ≡ self.old.may_wait }
        ensures same { rest_of I.holds self.new ≡ rest_of I.holds self.old }
        ensures kept { self.old.phase ≢ Opening → self.new.phase ≡ self.old.phase }
        ensures stands { self.old.phase ≡ Opening → ((received self.new.consumer ≡ received self.old.consumer) × (self.new.phase ≡ Opening))
            ⊎ StandsBy opened_by (received self.old.consumer) (received self.new.consumer) self.new.phase }
        ensures failed { self.new.phase ≡ Failed → result ≡ Some false }
        ensures waits { self.new.phase ≡ Opening → result ≡ (if was_awaited && self.old.may_wait then Some true else None) }
        ensures empty { self.new.phase ≡ Opening → known_items self.new.consumer ≡ [] }
        ensures open { self.new.phase ≢ Opening → self.new.phase ≢ Failed → result ≡ Some true }
        ensures patient { (arc_value self.old.backlogs).limits.stall ≡ None → self.new.phase ≡ Failed →
            (self.old.phase ≡ Failed) ⊎ (length (received self.old.consumer) < length (received self.new.consumer)) }
    {
        if matches!(self.phase, Phase::Opening) {
            if self.consumer.is_empty() {
                return (was_awaited && self.may_wait).then_some(true);
            }
            self.wait_open(rt);
        }
        Some(!matches!(self.phase, Phase::Failed))
    }

    /// No more is given behind the front block, as was said under the lock.
    pub fn stop(&mut self, _leaving: Leaving)
        requires sound { IsSound I.holds self.old }
        requires left { _leaving.number ≡ self.old.number }
        ensures sound { IsSound I.holds self.new }
        ensures number { self.new.number ≡ self.old.number }
        ensures backlogs { self.new.backlogs ≡ self.old.backlogs }
        ensures same { rest_of I.holds self.new ≡ rest_of I.holds self.old }
        ensures phase { self.new.phase ≢ Opening }
        ensures over { self.new.phase ≢ Going }
        ensures ended { self.old.phase ≡ Ended → self.new.phase ≡ Ended }
        ensures failed { self.old.phase ≢ Ended → self.new.phase ≡ Failed }
    {
        if !matches!(self.phase, Phase::Ended) {
            self.phase = Phase::Failed;
        }
    }

    /// The input was silent for too long, so no more is given behind the front block, and that is a failure.
    fn fall_silent(&mut self, _silence: Silence)
        requires sound { IsSound I.holds self.old }
        requires of { _silence.number ≡ self.old.number }
        requires silent { _silence.is_over ≡ true }
        ensures sound { IsSound I.holds self.new }
        ensures number { self.new.number ≡ self.old.number }
        ensures backlogs { self.new.backlogs ≡ self.old.backlogs }
        ensures may_wait { self.new.may_wait ≡ self.old.may_wait }
        ensures same { rest_of I.holds self.new ≡ rest_of I.holds self.old }
        ensures phase { self.new.phase ≡ Failed }
        ensures told { received self.new.consumer ≡ received self.old.consumer }
    {
        self.phase = Phase::Failed;
    }

    /// Waits until the input is open, or can't be opened, or is silent for too long.
    fn wait_open<R: Wait + Clock>(&mut self, rt: &R)
        requires sound { IsSound I.holds self.old }
        requires opening { self.old.phase ≡ Opening }
        ensures sound { IsSound I.holds self.new }
        ensures number { self.new.number ≡ self.old.number }
        ensures backlogs { self.new.backlogs ≡ self.old.backlogs }
        ensures may_wait { self.new.may_wait ≡ self.old.may_wait }
        ensures same { rest_of I.holds self.new ≡ rest_of I.holds self.old }
        ensures phase { self.new.phase ≢ Opening }
        ensures stands { StandsBy opened_by (received self.old.consumer) (received self.new.consumer) self.new.phase }
        ensures patient { (arc_value self.old.backlogs).limits.stall ≡ None →
            TakesNext opened_by (received self.old.consumer) (received self.new.consumer) self.new.phase }
    {
        let message = match wait_message(rt, &self.backlogs, self.number, &mut self.consumer) {
            Ok(message) => message,
            Err(silence) => return self.fall_silent(silence),
        };
        match message {
            Message::Opened(_) => self.phase = Phase::Going,
            Message::Refused(_) => self.phase = Phase::Failed,
            Message::Asked(_, _) => self.phase = Phase::Failed,
            Message::Bytes(_) => self.phase = Phase::Failed,
            Message::End => self.phase = Phase::Failed,
            Message::Failed => self.phase = Phase::Failed,
        }
    }

    /// Waits for what is told next, and takes it. An input that is silent for too long has failed.
    fn wait_next<R: Wait + Clock>(&mut self, rt: &R)
        requires sound { IsSound I.holds self.old }
        requires used { self.old.at ≡ length self.old.front.items }
        requires going { self.old.phase ≡ Going }
        ensures sound { IsSound I.holds self.new }
        ensures number { self.new.number ≡ self.old.number }
        ensures backlogs { self.new.backlogs ≡ self.old.backlogs }
        ensures same { rest_of I.holds self.new ≡ rest_of I.holds self.old }
        ensures some { (self.new.at < length self.new.front.items) ⊎ (self.new.phase ≢ Going) }
        ensures phase { self.new.phase ≢ Opening }
        ensures stands { StandsBy going_by (received self.old.consumer) (received self.new.consumer) self.new.phase }
        ensures patient { (arc_value self.old.backlogs).limits.stall ≡ None →
            TakesNext going_by (received self.old.consumer) (received self.new.consumer) self.new.phase }
        ensures ready { 0 < length (known_items self.old.consumer) →
            TakesNext going_by (received self.old.consumer) (received self.new.consumer) self.new.phase }
    {
        let message = match wait_message(rt, &self.backlogs, self.number, &mut self.consumer) {
            Ok(message) => message,
            Err(silence) => return self.fall_silent(silence),
        };
        match message {
            Message::Bytes(block) => {
                let given = mem::replace(&mut self.front, block);
                self.at = 0;
                self.backlogs.spares.put(rt, given);
                self.backlogs.begin(rt, self.number).is_of(self.number);
            }
            Message::End => self.phase = Phase::Ended,
            Message::Failed => self.phase = Phase::Failed,
            Message::Refused(_) => self.phase = Phase::Failed,
            Message::Opened(_) => self.phase = Phase::Failed,
            Message::Asked(_, _) => self.phase = Phase::Failed,
        }
    }

    /// Waits until a byte can be given, or none comes any more.
    fn go_on<R: Wait + Clock>(&mut self, rt: &R)
        requires { IsSound I.holds self.old }
        ensures sound { IsSound I.holds self.new }
        ensures number { self.new.number ≡ self.old.number }
        ensures backlogs { self.new.backlogs ≡ self.old.backlogs }
        ensures same { rest_of I.holds self.new ≡ rest_of I.holds self.old }
        ensures some { (self.new.at < length self.new.front.items) ⊎ (self.new.phase ≢ Going) }
        ensures phase { self.new.phase ≢ Opening }
        ensures ended { self.old.phase ≡ Ended → self.new.phase ≡ Ended }
        ensures stands { self.old.phase ≡ Going → ((received self.new.consumer ≡ received self.old.consumer) × (self.new.phase ≡ Going))
            ⊎ StandsBy going_by (received self.old.consumer) (received self.new.consumer) self.new.phase }
        ensures patient { (arc_value self.old.backlogs).limits.stall ≡ None → self.new.phase ≡ Failed →
            (self.old.phase ≡ Failed) ⊎ (length (received self.old.consumer) < length (received self.new.consumer)) }
        ensures grows { length (received self.old.consumer) ≤ length (received self.new.consumer) }
    {
        if matches!(self.phase, Phase::Opening) {
            self.wait_open(rt);
        }
        if self.is_used_up() {
            self.wait_next(rt);
        }
    }

    /// Takes bytes of the front block, and answers how many.
    fn take_front(&mut self, buffer: &mut [u8]) -> usize
        requires sound { IsSound I.holds self.old }
        requires phase { self.old.phase ≢ Opening }
        ensures sound { IsSound I.holds self.new }
        ensures number { self.new.number ≡ self.old.number }
        ensures backlogs { self.new.backlogs ≡ self.old.backlogs }
        ensures phase { self.new.phase ≢ Opening }
        ensures stays { self.new.phase ≡ self.old.phase }
        ensures told { received self.new.consumer ≡ received self.old.consumer }
        ensures within { result ≤ length buffer.old }
        ensures some { self.old.at < length self.old.front.items → 0 < length buffer.old → 0 < result }
        ensures many { result ≡ min (length buffer.old) (length self.old.front.items - self.old.at) }
        ensures gave { Consumes (rest_of I.holds self.old) (rest_of I.holds self.new) (take result buffer.new) }
    {
        let count = copy_some(&self.front, self.at, buffer);
        self.at += count;
        count
    }

    /// Takes bytes of the front block, and goes on to the next one if the front is used up and it lies ready. Answers how many.
    fn take_some<R: Wait + Clock>(&mut self, rt: &R, buffer: &mut [u8]) -> usize
        requires sound { IsSound I.holds self.old }
        requires phase { self.old.phase ≢ Opening }
        ensures sound { IsSound I.holds self.new }
        ensures number { self.new.number ≡ self.old.number }
        ensures backlogs { self.new.backlogs ≡ self.old.backlogs }
        ensures phase { self.new.phase ≢ Opening }
        ensures within { result ≤ length buffer.old }
        ensures some { self.old.at < length self.old.front.items → 0 < length buffer.old → 0 < result }
        ensures gave { Consumes (rest_of I.holds self.old) (rest_of I.holds self.new) (take result buffer.new) }
        ensures stands { ((received self.new.consumer ≡ received self.old.consumer) × (self.new.phase ≡ self.old.phase))
            ⊎ TakesNext going_by (received self.old.consumer) (received self.new.consumer) self.new.phase }
        ensures next { (self.new.at < length self.new.front.items) ⊎ IsDry self.new }
    {
        let count = self.take_front(buffer);
        if self.is_used_up() && !self.consumer.is_empty() {
            self.wait_next(rt);
        }
        count
    }

    /// Waits until a byte can be given, or none comes any more, and gives as much of the buffer as is a fair share.
    pub fn read<R: Wait + Clock>(&mut self, rt: &R, buffer: &mut [u8]) -> Result<Given, ReadFault>
        requires { IsSound I.holds self.old }
        ensures sound { IsSound I.holds self.new }
        ensures number { self.new.number ≡ self.old.number }
        ensures backlogs { self.new.backlogs ≡ self.old.backlogs }
        ensures of { IfOk result (λ given. given.number ≡ self.old.number) }
        ensures within { IfOk result (λ given. given.count ≤ length buffer.new) }
        ensures gave { IfOk result (λ given. Consumes (rest_of I.holds self.old) (rest_of I.holds self.new) (take given.count buffer.new)) }
        ensures end { IfOk result (λ given. given.count ≡ 0 → 0 < length buffer.new → IsAtEnd (rest_of I.holds self.new)) }
        ensures kept { OnErr result (Keeps (rest_of I.holds self.old) (rest_of I.holds self.new)) }
        ensures failed { OnErr result (self.new.phase ≡ Failed) }
        ensures drained { OnErr result (self.new.at ≡ length self.new.front.items) }
        ensures ended { self.old.phase ≡ Ended → IsOk result }
        ensures patient { (arc_value self.old.backlogs).limits.stall ≡ None → self.new.phase ≡ Failed →
            (self.old.phase ≡ Failed) ⊎ (length (received self.old.consumer) < length (received self.new.consumer)) }
    {
        let share = self.next_share(rt);
        let count = self.give_share(rt, share, buffer)?;
        Ok(self.backlogs.give(rt, self.number, count))
    }

    /// Waits and gives as `read` does, but where the front block has all that is given, it is lent: nothing is copied, and the block
    /// stays as long as no more is read.
    pub fn lend<R: Wait + Clock>(&mut self, rt: &R, buffer: &mut [u8]) -> Result<Piece, ReadFault>
        requires { IsSound I.holds self.old }
        ensures sound { IsSound I.holds self.new }
        ensures number { self.new.number ≡ self.old.number }
        ensures backlogs { self.new.backlogs ≡ self.old.backlogs }
        ensures of { IfOk result (λ piece. piece.given.number ≡ self.old.number) }
        ensures within { IfOk result (λ piece. piece.given.count ≤ length buffer.new) }
        ensures passed { IfOk result (λ piece. piece.is_lent ≡ true → piece.given.count ≤ self.new.at) }
        ensures gave { IfOk result (λ piece. Consumes (rest_of I.holds self.old) (rest_of I.holds self.new) (bytes_of_piece piece self.new buffer.new)) }
        ensures end { IfOk result (λ piece. piece.given.count ≡ 0 → 0 < length buffer.new → IsAtEnd (rest_of I.holds self.new)) }
        ensures kept { OnErr result (Keeps (rest_of I.holds self.old) (rest_of I.holds self.new)) }
        ensures failed { OnErr result (self.new.phase ≡ Failed) }
        ensures drained { OnErr result (self.new.at ≡ length self.new.front.items) }
        ensures ended { self.old.phase ≡ Ended → IsOk result }
        ensures patient { (arc_value self.old.backlogs).limits.stall ≡ None → self.new.phase ≡ Failed →
            (self.old.phase ≡ Failed) ⊎ (length (received self.old.consumer) < length (received self.new.consumer)) }
    {
        let share = self.next_share(rt);
        if let Some(passed) = self.pass_share(&share, buffer.len()) {
            return Ok(Piece {
                given: self.backlogs.give(rt, self.number, passed),
                is_lent: true,
            });
        }
        let copied = self.give_share(rt, share, buffer)?;
        Ok(Piece {
            given: self.backlogs.give(rt, self.number, copied),
            is_lent: false,
        })
    }

    /// Waits until a byte can be given, or none comes any more, and tells how many may be given.
    fn next_share<R: Wait + Clock>(&mut self, rt: &R) -> Share
        requires { IsSound I.holds self.old }
        ensures of { result.number ≡ self.old.number }
        ensures bytes { 0 < result.bytes }
        ensures sound { IsSound I.holds self.new }
        ensures number { self.new.number ≡ self.old.number }
        ensures backlogs { self.new.backlogs ≡ self.old.backlogs }
        ensures same { rest_of I.holds self.new ≡ rest_of I.holds self.old }
        ensures some { (self.new.at < length self.new.front.items) ⊎ (self.new.phase ≢ Going) }
        ensures phase { self.new.phase ≢ Opening }
        ensures ended { self.old.phase ≡ Ended → self.new.phase ≡ Ended }
        ensures patient { (arc_value self.old.backlogs).limits.stall ≡ None → self.new.phase ≡ Failed →
            (self.old.phase ≡ Failed) ⊎ (length (received self.old.consumer) < length (received self.new.consumer)) }
        ensures grows { length (received self.old.consumer) ≤ length (received self.new.consumer) }
    {
        self.go_on(rt);
        self.backlogs.share(rt, self.number)
    }

    /// Passes as many bytes of the front block as the share and a room for so many allow, where it has them all, and answers how
    /// many; else none.
    fn pass_share(&mut self, share: &Share, room: usize) -> Option<usize>
        requires of { share.now.number ≡ self.old.number }
        requires bytes { 0 < share.now.bytes }
        requires sound { IsSound I.holds self.old }
        requires phase { self.old.phase ≢ Opening }
        ensures sound { IsSound I.holds self.new }
        ensures number { self.new.number ≡ self.old.number }
        ensures backlogs { self.new.backlogs ≡ self.old.backlogs }
        ensures phase { self.new.phase ≡ self.old.phase }
        ensures told { received self.new.consumer ≡ received self.old.consumer }
        ensures most { IfSome result (λ count. count ≡ min share.now.bytes room) }
        ensures passed { IfSome result (λ count. count ≤ self.new.at) }
        ensures gave { IfSome result (λ count. Consumes (rest_of I.holds self.old) (rest_of I.holds self.new) (passed_of count self.new)) }
        ensures some { self.old.at < length self.old.front.items → min share.now.bytes room ≤ length self.old.front.items - self.old.at → IsSome result }
        ensures none { IfNone result (self.new ≡ self.old) }
    {
        let most = share.bytes().min(room);
        let ready = self.front.len() - self.at;
        if ready == 0 || ready < most {
            return None;
        }
        self.at += most;
        Some(most)
    }

    /// The bytes of the front block that were passed last, so many of them.
    pub fn passed(&self, count: usize) -> &[u8]
        requires sound { IsSound I.holds self.now }
        requires behind { count ≤ self.now.at }
        ensures value { result.now ≡ passed_of count self.now }
        ensures many { length result.now ≡ count }
    {
        let (_, rest) = self.front.split_at(self.at - count);
        &rest[..count]
    }

    /// Fills a buffer as far as bytes lie ready, but not with more than the share, and answers how many they are; where none do, the
    /// end or the failure.
    fn give_share<R: Wait + Clock>(
        &mut self,
        rt: &R,
        share: Share,
        buffer: &mut [u8],
    ) -> Result<usize, ReadFault>
        requires of { share.number ≡ self.old.number }
        requires bytes { 0 < share.bytes }
        requires sound { IsSound I.holds self.old }
        requires phase { self.old.phase ≢ Opening }
        requires some { (self.old.at < length self.old.front.items) ⊎ (self.old.phase ≢ Going) }
        ensures sound { IsSound I.holds self.new }
        ensures number { self.new.number ≡ self.old.number }
        ensures backlogs { self.new.backlogs ≡ self.old.backlogs }
        ensures most { IfOk result (λ count. count ≤ share.bytes) }
        ensures within { IfOk result (λ count. count ≤ length buffer.new) }
        ensures gave { IfOk result (λ count. Consumes (rest_of I.holds self.old) (rest_of I.holds self.new) (take count buffer.new)) }
        ensures end { IfOk result (λ count. count ≡ 0 → 0 < length buffer.new → IsAtEnd (rest_of I.holds self.new)) }
        ensures kept { OnErr result (Keeps (rest_of I.holds self.old) (rest_of I.holds self.new)) }
        ensures failed { OnErr result ((self.old.phase ≡ Failed) × (self.old.at ≡ length self.old.front.items)) }
        ensures same { OnErr result (self.new ≡ self.old) }
        ensures dry { IfOk result (λ count. (count ≡ min share.bytes (length buffer.new)) ⊎ IsDry self.new) }
        ensures stands { StandsByLast (received self.old.consumer) (received self.new.consumer) self.old.phase self.new.phase }
    {
        let most = share.bytes().min(buffer.len());
        self.give(rt, &mut buffer[..most])
    }

    /// Fills a buffer as far as bytes lie ready, and answers how many they are; where none do, the end or the failure.
    fn give<R: Wait + Clock>(&mut self, rt: &R, buffer: &mut [u8]) -> Result<usize, ReadFault>
        requires sound { IsSound I.holds self.old }
        requires phase { self.old.phase ≢ Opening }
        requires some { (self.old.at < length self.old.front.items) ⊎ (self.old.phase ≢ Going) }
        ensures sound { IsSound I.holds self.new }
        ensures number { self.new.number ≡ self.old.number }
        ensures backlogs { self.new.backlogs ≡ self.old.backlogs }
        ensures within { IfOk result (λ count. count ≤ length buffer.new) }
        ensures gave { IfOk result (λ count. Consumes (rest_of I.holds self.old) (rest_of I.holds self.new) (take count buffer.new)) }
        ensures end { IfOk result (λ count. count ≡ 0 → 0 < length buffer.new → IsAtEnd (rest_of I.holds self.new)) }
        ensures kept { OnErr result (Keeps (rest_of I.holds self.old) (rest_of I.holds self.new)) }
        ensures failed { OnErr result ((self.old.phase ≡ Failed) × (self.old.at ≡ length self.old.front.items)) }
        ensures same { OnErr result (self.new ≡ self.old) }
        ensures dry { IfOk result (λ count. (count ≡ length buffer.new) ⊎ IsDry self.new) }
        ensures stands { StandsByLast (received self.old.consumer) (received self.new.consumer) self.old.phase self.new.phase }
    {
        if self.at < self.front.len() {
            return Ok(self.fill(rt, buffer));
        }
        if matches!(self.phase, Phase::Ended) {
            return Ok(0);
        }
        Err(ReadFault)
    }

    /// Fills a buffer as far as bytes lie ready, of which there are some, and answers how many they are.
    fn fill<R: Wait + Clock>(&mut self, rt: &R, buffer: &mut [u8]) -> usize
        requires sound { IsSound I.holds self.old }
        requires phase { self.old.phase ≢ Opening }
        requires some { self.old.at < length self.old.front.items }
        ensures sound { IsSound I.holds self.new }
        ensures number { self.new.number ≡ self.old.number }
        ensures backlogs { self.new.backlogs ≡ self.old.backlogs }
        ensures within { result ≤ length buffer.new }
        ensures some { 0 < length buffer.new → 0 < result }
        ensures full { (result ≡ length buffer.new) ⊎ (length self.new.front.items ≤ self.new.at) }
        ensures dry { (result ≡ length buffer.new) ⊎ IsDry self.new }
        ensures gave { Consumes (rest_of I.holds self.old) (rest_of I.holds self.new) (take result buffer.new) }
        ensures stands { StandsByLast (received self.old.consumer) (received self.new.consumer) self.old.phase self.new.phase }
    {
        let mut given = 0;
        while given < buffer.len() && self.at < self.front.len() {
            given += self.take_some(rt, &mut buffer[given..]);
        }
        given
    }
}

/// Copies bytes from `at` on to the buffer's front, and answers how many.
fn copy_some(bytes: &[u8], at: usize, buffer: &mut [u8]) -> usize
    requires { at ≤ length bytes.now }
    ensures many { result ≡ min (length buffer.old) (length bytes.now - at) }
    ensures copied { take result buffer.new ≡ take result (drop at bytes.now) }
{
    let (_, rest) = bytes.split_at(at);
    let count = buffer.len().min(rest.len());
    buffer[..count].copy_from_slice(&rest[..count]);
    count
}

/// Waits for what is told next of the input of this number; or that is too long, which was seen under the lock.
fn wait_message<R: Wait + Clock, I: Contents>(
    rt: &R,
    backlogs: &Backlogs,
    number: usize,
    consumer: &mut Consumer<Message<I>, Global, InOrder<I>>,
) -> Result<Message<I>, Silence>
    ensures order { IfOk result (λ message. received consumer.new ≡ received consumer.old ++ message ∷ []) }
    ensures allowed { IfOk result (MayFollow I.holds I.refuses (received consumer.old)) }
    ensures none { OnErr result (received consumer.new ≡ received consumer.old) }
    ensures ready { 0 < length (known_items consumer.old) → IsOk result }
    ensures of { IfErr result (λ silence. silence.number ≡ number) }
    ensures silent { IfErr result (λ silence. silence.is_over ≡ true) }
    ensures patient { OnErr result (backlogs.now.limits.stall ≢ None) }
{
    for _ in rt.forever() {
        let seen = backlogs.news(rt);
        if let Ok(message) = consumer.pop() {
            return Ok(message);
        }
        let silence = backlogs.silence(rt, number);
        if silence.is_over() {
            return Err(silence);
        }
        let _ = backlogs.wait_past(rt, seen, Unready::of(silence));
    }
    unreachable!()
}
