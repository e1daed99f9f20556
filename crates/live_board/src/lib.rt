//! A board on which one publisher shows snapshots to viewers in threads of their own, which never wait.
//!
//! [`board`] gives the publisher and its viewers. Contracts see each of them as the list of snapshots that it knows of,
//! the oldest first. A publisher's list is what it showed, a viewer's list only grows: [`Viewer::view`] looks at the last
//! snapshot of a list that begins with all that this viewer saw or was told of before.
//!
//! Two copies of what is shown lie side by side, and viewers look at one of them with no lock. So a viewer never waits;
//! the publisher waits until those who still look at the other copy have closed their view.
#![tactic(auto)]

mod counts;
mod fault;
mod held;
mod history;
mod knowledge;
mod publisher;
mod rule;
mod shown;
mod snapshot;
mod steps;
mod totals;
mod viewer;

pub use fault::BoardFault;
pub use held::HeldPublisher;
pub use publisher::{MOST_VIEWERS, Publisher, board, bounds_are_these};
pub use snapshot::Snapshot;
pub use totals::Totals;
pub use viewer::{View, Viewer};
