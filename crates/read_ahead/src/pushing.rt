//! Messages are pushed.
ghost use Rattle.std.specs.Prelude.{◌≡◌, [], ◌∷◌, ◌++◌};
ghost use Rattle.rtrb.specs.Ring.{sent};
ghost use Rattle.read_ahead.specs.Messages.{MayFollow};

use crate::counts::Told;
use crate::input::Contents;
use crate::message::{InOrder, Message};
use rtrb::{Producer, PushError};
use std::alloc::Global;
use std::sync::Wait;
use std::thread;

/// A message lies ready. It can't be let go, so that whoever waits is told.
pub struct Pushed {
    _of: (),
}

impl Pushed {
    /// It is told: it counts as news.
    pub fn is_told(self, _told: Told) {
        let Pushed { _of: _ } = self;
    }
}

/// Pushes a message, once there is a slot for it. No more blocks lie ready than there are slots.
pub fn push<R: Wait, I: Contents>(
    rt: &R,
    producer: &mut Producer<Message<I>, Global, InOrder<I>>,
    message: Message<I>,
) -> Pushed
    requires { MayFollow I.holds I.refuses (sent producer.old) message }
    ensures { sent producer.new ≡ sent producer.old ++ message ∷ [] }
{
    let mut message = message;
    for _ in rt.forever() {
        match producer.push(message) {
            Ok(()) => return Pushed { _of: () },
            Err(PushError::Full(back)) => message = back,
        }
        thread::yield_now();
    }
    unreachable!()
}
