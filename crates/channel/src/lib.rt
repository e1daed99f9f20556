//! A channel goes on in its folder behind what an earlier run left: the next numbers, behind a discontinuity, under keys that
//! open what is listed. And the numbers that players see of its faults.
#![tactic(auto)]

mod fault;
mod going_on;
mod kept;
mod key_looks;
mod resuming;
mod rolling;
mod seen;

pub use fault::ResumingFault;
pub use resuming::{Resumed, resume};
pub use seen::seen_fault;
