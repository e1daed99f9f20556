//! What a run gives back.

ghost use Rattle.std.specs.Prelude.{◌≡◌};

use crate::giving::broadcast::Broadcast;
use crate::run::course::Course;
use ladder_items::{PackFault, Report};
use live_board::Publisher;
use std::sync::Wait;

/// What a run gives back, whatever its answer.
pub struct Ran<S, O> {
    pub sources: Vec<S>,
    pub publisher: Publisher,
    pub outlet: O,
    pub answer: Result<Report, PackFault>,
}

/// Gives back what the run was given, with its answer.
pub fn give_back<S, O, R: Wait>(
    broadcast: Broadcast<'_, S, O, R>,
    answer: Result<Report, PackFault>,
) -> Ran<S, O>
    ensures sources { result.sources ≡ broadcast.entry.course.sources }
    ensures publisher { result.publisher ≡ broadcast.entry.held.publisher }
    ensures outlet { result.outlet ≡ broadcast.entry.course.outlet }
    ensures answer { result.answer ≡ answer }
{
    let Broadcast { course, held } = broadcast;
    let Course {
        sources,
        outlet,
        lanes: _,
        playlists: _,
        ended: _,
        turns: _,
        reads: _,
    } = course;
    Ran {
        sources,
        publisher: held.release(),
        outlet,
        answer,
    }
}
