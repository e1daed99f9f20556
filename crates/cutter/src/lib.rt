//! Cuts a transport stream into segments at key frames: which packets of a stream belong to the output, where a segment
//! may begin, and the plan of each segment.
#![tactic(auto)]

mod cutter;
mod fault;
mod following;
mod framing;
mod going;
mod laws;
mod lent;
mod look;
mod place;
mod plan;
mod point;
mod reel;
mod room;
mod settings;
mod spool;
mod spool_cutter;
mod stream;

pub use crate::cutter::Cutter;
pub use fault::CutFault;
pub use laws::{
    faults_stand_at_the_least_packet, frames_share_the_time, greatest_is_the_greatest,
    plans_are_in_order, plans_only_grow, points_count_above_all_earlier,
    seconds_of_ticks_are_those_of_microseconds, segments_divide_a_stream,
};
pub use lent::{Lent, PlanRef};
pub use plan::{Frame, Plan};
pub use settings::CutSettings;
pub use spool::Spool;
pub use spool_cutter::SpoolCutter;
pub use stream::cut_stream;
