//! How long a segment is kept that no playlist lists any more: for its own duration and that of the longest playlist so far
//! (RFC 8216, 6.2.2), in the stream's own time.
//!
//! A [`Retention`] is told each segment, and where the media playlist behind it begins. It answers from which segment on all
//! are kept, and those before may be removed. The definitions are in `specs/Steps.antt`; the laws say what they are good for.
#![tactic(auto)]

mod laws;
mod queue;
mod retention;
mod step;

pub use laws::{
    files_that_are_kept_are_bounded, none_is_removed_that_is_listed, none_is_removed_too_early,
    one_place_is_kept_from, what_may_go_may_go_later,
};
pub use retention::Retention;
pub use step::Step;
