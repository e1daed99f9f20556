use crate::asserts::assert_same;
use std::process::Abort;

/// Fails unless a text is this one.
pub(crate) fn assert_text(rt: &impl Abort, text: &str, wanted: &str) {
    assert_same(rt, "text", text, wanted);
}

/// A salt of the bytes from F0 on.
pub(crate) const SALT: [u8; 16] = [
    0xF0, 0xF1, 0xF2, 0xF3, 0xF4, 0xF5, 0xF6, 0xF7, 0xF8, 0xF9, 0xFA, 0xFB, 0xFC, 0xFD, 0xFE, 0xFF,
];
