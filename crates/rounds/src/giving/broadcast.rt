//! A broadcast: a course with the publisher of its snapshots.

use crate::run::course::Course;
use live_board::HeldPublisher;
use std::sync::Wait;

/// A run under way, and the publisher of what it has given.
#[derive(Drop)]
pub struct Broadcast<'r, S, O, R: Wait> {
    pub course: Course<S, O>,
    pub held: HeldPublisher<'r, R>,
}
