use crate::input::Contents;
use crate::opening::{Openness, Refusal};
use rtrb::Protocol;
use std::marker::PhantomData;
use std::snapshot::Snapshot;

/// What the thread that reads an input tells the source that gives its bytes.
#[derive(Drop)]
pub enum Message<I> {
    /// The thread is started. For proofs: the input that it's to open, and its number.
    Asked(Snapshot<I>, Snapshot<usize>),
    /// The input is open.
    Opened(Openness),
    /// Its next bytes.
    Bytes(Vec<u8>),
    /// Its end.
    End,
    /// A read failed.
    Failed,
    /// It can't be opened.
    Refused(Refusal),
}

/// The order of messages: the blocks, joined, begin the bytes that the input has, the end is told only where they are all, and a
/// refusal only where the input may refuse to be opened.
pub struct InOrder<I> {
    of: PhantomData<I>,
}

impl<I: Contents> Protocol<Message<I>> for InOrder<I> {
    ghost use Rattle.read_ahead.specs.Messages.{MayFollow};

    ghost allows = { MayFollow I.holds I.refuses };
}
