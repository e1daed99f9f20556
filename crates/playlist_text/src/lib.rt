//! The texts of playlists (RFC 8216, 4.1 to 4.3): numbers, names, URIs, attributes and lines.
//!
//! Each function that begins with `push` appends to a text. Where a growth is refused, the text may have got a part of
//! what was to be appended: whoever writes it drops it then.
#![tactic(auto)]

mod attribute;
mod line;
mod name;
mod number;
mod uri;
mod vectors;

pub use attribute::{
    Attribute, Value, push_attribute_list, push_hexadecimal, push_quoted, push_resolution,
};
pub use line::push_line;
pub use name::{is_codecs, is_name};
pub use number::{micros, push_decimal, push_seconds, rounded_seconds};
pub use uri::{
    ESCAPED, MASTER_URI, push_escaped, push_frames_uri, push_key_uri, push_media_uri,
    push_segment_uri,
};
pub use vectors::{salted_vector, vector};
