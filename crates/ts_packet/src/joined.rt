ghost use Rattle.std.specs.Prelude.{◌≡◌, ◌+◌, ◌<◌, ◌≤◌, ◌^◌, ◌++◌, ℕ, List, length, take, drop, slice_index};

use crate::lengths::{PACKET, UNDECIDED};
use arrayvec::ArrayVec;
use std::marker::Model;

/// Two slices that are read as one, so that no byte is copied to join them.
#[derive(Drop)]
pub(crate) struct Joined<'a> {
    front: &'a [u8],
    back: &'a [u8],
}

impl<'a> Model for Joined<'a> {
    ghost use Rattle.std.specs.Prelude.{◌+◌, ◌<◌, ◌^◌, ◌++◌, ℕ, List, length};

    ghost Value = { List ℕ };

    ghost view = { λ j. j.front.now ++ j.back.now };

    ghost invariant = { λ j. length j.front.now + length j.back.now < 2 ^ 63 };
}

impl<'a> Joined<'a> {
    pub(crate) fn new(front: &'a [u8], back: &'a [u8]) -> Joined<'a>
        requires { length front.now + length back.now < 2 ^ 63 }
        ensures { result ≡ front.now ++ back.now }
    {
        Joined { front, back }
    }

    pub(crate) fn len(&self) -> usize
        ensures { result ≡ length self.now }
    {
        self.front.len() + self.back.len()
    }

    pub(crate) fn byte(&self, at: usize) -> u8
        requires { at < length self.now }
        ensures { result ≡ slice_index self.now at }
    {
        if at < self.front.len() {
            self.front[at]
        } else {
            self.back[at - self.front.len()]
        }
    }

    /// The bytes from a place on, in two parts.
    fn parts_from(&self, at: usize) -> (&[u8], &[u8])
        requires { at ≤ length self.now }
        ensures { result.0.now ++ result.1.now ≡ drop at self.now }
    {
        if at < self.front.len() {
            (&self.front[at..], self.back)
        } else {
            (&self.back[at - self.front.len()..], &[])
        }
    }

    /// The 188 bytes from a place on.
    pub(crate) fn packet(&self, at: usize) -> [u8; 188]
        requires { at + PACKET ≤ length self.now }
        ensures { result ≡ take PACKET (drop at self.now) }
    {
        let (front, back) = self.parts_from(at);
        first_packet(front, back)
    }

    /// The bytes from a place on, where they are few.
    pub(crate) fn rest(&self, at: usize) -> ArrayVec<u8, UNDECIDED>
        requires within { at ≤ length self.now }
        requires few { length self.now ≤ at + UNDECIDED }
        ensures { result.items ≡ drop at self.now }
    {
        let (front, back) = self.parts_from(at);
        let mut rest = ArrayVec::new();
        rest.try_extend_from_slice(front).unwrap();
        rest.try_extend_from_slice(back).unwrap();
        rest
    }
}

/// The first 188 bytes of two parts.
fn first_packet(front: &[u8], back: &[u8]) -> [u8; 188]
    requires { PACKET ≤ length front.now + length back.now }
    ensures { result ≡ take PACKET (front.now ++ back.now) }
{
    if let Some(packet) = front.first_chunk::<188>() {
        return *packet;
    }
    let mut packet = [0; 188];
    let (head, tail) = packet.split_at_mut(front.len());
    head.copy_from_slice(front);
    tail.copy_from_slice(&back[..PACKET - front.len()]);
    packet
}
