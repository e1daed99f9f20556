//! A desk at which workers in threads of their own seal segments, while one thread feeds it with plans and takes what is
//! done.
//!
//! [`Desk::new`] opens one, with a [`Pass`] for each worker and one for the taker. A worker is a thread that runs [`work`].
//! Under the desk's lock stands a queue of `flow_core`, and each call makes one step of it: what can't be said of a call
//! that takes a lock, the queue's own contract says. What comes of a call is known by its type: a claim is of one plan, a
//! sealed segment is its own plan's, and the count of a pass is its share of the queue's books.
#![tactic(auto)]

mod desk;
mod gate;
mod known;
mod no_file;
mod pass;
mod permitted;
mod ready;
mod sealing;
mod shelf;
mod singles;
mod steps;
mod waking;
mod worker;

pub use desk::{Desk, Opened};
pub use flow_core::{Claim, Delivery, Fed, FeedFault, Obstacle, Outcome};
pub use gate::{FreeGate, Gate, Permit};
pub use no_file::NoFile;
pub use pass::{Pass, Tally};
pub use permitted::PermittedQueue;
pub use shelf::Shelf;
pub use singles::SinglesTaken;
pub use steps::Seen;
pub use waking::Closed;
pub use worker::work;
