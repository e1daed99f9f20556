//! Texts with the key and the vector that they are sealed under.

ghost use Rattle.std.specs.Prelude.{◌≡◌};
ghost use Rattle.ghost_list.specs.Bytes.{AreBytes};
ghost use Rattle.aes_cbc.specs.Block.{IsBlock};
ghost use Rattle.segment_job.specs.Texts.{IsSealedText, HasRoom};

use aes_cbc::{Key, seal_behind, seal_four_behind, seal_two_behind};

/// A text, plain or sealed, with its key and its vector.
#[derive(Drop)]
pub(crate) struct Text {
    pub key: [u8; 16],
    pub vector: [u8; 16],
    pub bytes: Vec<u8>,
}

impl Text {
    /// A text with its key and its vector, which are 16 bytes each.
    pub(crate) fn new(key: [u8; 16], vector: [u8; 16], bytes: Vec<u8>) -> Text
        ensures value { result ≡ record { key = key; vector = vector; bytes = bytes } }
        ensures key { IsBlock key }
        ensures vector { IsBlock vector }
        ensures bytes { AreBytes bytes.items }
    {
        Text { key, vector, bytes }
    }
}

/// Appends a body to a text and seals both.
pub(crate) fn seal_text(text: &mut Text, body: &[u8])
    requires { HasRoom text.old body.now }
    ensures { IsSealedText text.old body.now text.new }
{
    seal_behind(&Key::new(text.key), &text.vector, &mut text.bytes, body).unwrap();
}

/// Appends a body to each of two texts and seals them side by side.
pub(crate) fn seal_two_texts(first: &mut Text, second: &mut Text, bodies: (&[u8], &[u8]))
    requires first { HasRoom first.old bodies.0.now }
    requires second { HasRoom second.old bodies.1.now }
    ensures first { IsSealedText first.old bodies.entry.0.now first.new }
    ensures second { IsSealedText second.old bodies.entry.1.now second.new }
{
    seal_two_behind(
        (&Key::new(first.key), &Key::new(second.key)),
        &[first.vector, second.vector],
        &mut first.bytes,
        &mut second.bytes,
        bodies,
    )
    .unwrap();
}

/// Appends a body to each of four texts and seals them side by side.
pub(crate) fn seal_four_texts(
    first: &mut Text,
    second: &mut Text,
    third: &mut Text,
    fourth: &mut Text,
    bodies: (&[u8], &[u8], &[u8], &[u8]),
)
    requires first { HasRoom first.old bodies.0.now }
    requires second { HasRoom second.old bodies.1.now }
    requires third { HasRoom third.old bodies.2.now }
    requires fourth { HasRoom fourth.old bodies.3.now }
    ensures first { IsSealedText first.old bodies.entry.0.now first.new }
    ensures second { IsSealedText second.old bodies.entry.1.now second.new }
    ensures third { IsSealedText third.old bodies.entry.2.now third.new }
    ensures fourth { IsSealedText fourth.old bodies.entry.3.now fourth.new }
{
    seal_four_behind(
        (
            &Key::new(first.key),
            &Key::new(second.key),
            &Key::new(third.key),
            &Key::new(fourth.key),
        ),
        &[first.vector, second.vector, third.vector, fourth.vector],
        &mut first.bytes,
        &mut second.bytes,
        &mut third.bytes,
        &mut fourth.bytes,
        bodies,
    )
    .unwrap();
}
