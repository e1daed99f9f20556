//! A rendition of an earlier run goes on: what its two playlists list, as the rows that the next run begins behind; and how
//! the renditions of a ladder come to one number of discontinuities.
#![tactic(auto)]

mod beginning;
mod even;
mod fault;
mod laws;
mod picking;
mod reading_back;
mod restored;
mod restoring;

pub use beginning::{begin, go_on_beside, lags};
pub use even::{UnevenFault, most_breaks};
pub use fault::ResumeFault;
pub use laws::{
    a_list_begun_anew_goes_on, a_restored_rendition_goes_on, renditions_go_on_evenly,
    restored_playlists_go_on,
};
pub use restored::{Restored, Wanted};
pub use restoring::{look, restore};
