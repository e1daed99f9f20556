//! Laws of the items that a ladder gives.
#![tactic(auto)]

mod byte_names;
mod laws;
mod playing_laws;
mod resuming_laws;
mod segment_laws;

pub use byte_names::names_are_bytes;
pub use laws::{each_rendition_has_a_part, each_rendition_is_seen_alone, rows_stand_together};
pub use playing_laws::{listed_files_are_put_before, what_each_kill_leaves_is_playable};
pub use resuming_laws::{numbers_go_on_behind_a_discontinuity, two_runs_show_one_window};
pub use segment_laws::{
    each_segment_has_its_iframes_listed, each_segment_opens_as_listed,
    segments_are_those_of_the_plans,
};
