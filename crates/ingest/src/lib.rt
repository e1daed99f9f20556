//! Turns the bytes of a rendition's input into the plans of its segments.
#![tactic(auto)]

mod fault;
mod intake;
mod lane;
mod stream_laws;

pub use fault::StreamFault;
pub use intake::{Intake, closed_plans_begin_all};
pub use lane::{Lane, Stop};
pub use stream_laws::{
    bodies_are_the_accepted_packets, closed_plans_are_in_order, plans_of_bytes_are_in_order,
    plans_of_bytes_can_be_sealed,
};
