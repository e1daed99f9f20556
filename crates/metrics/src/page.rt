//! A text that grows.

/// What is written so far, and the text of one number.
#[derive(Drop)]
pub(crate) struct Page {
    pub out: Vec<u8>,
    pub text: String,
}
