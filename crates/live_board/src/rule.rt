//! The rule of the two copies: readers and the writer each know a prefix of what was shown.

ghost use Rattle.live_board.specs.State.{Holds, nothing_known, Enters, Publishes, all_of_it, informed};

use crate::knowledge::Knowledge;
use crate::shown::{Moment, Shown};
use atomic_table::{Join, Split};
use crossbeam_utils::rule::{Outcome, Protocol};
use left_right::reader::{Reader, Reading};
use left_right::writer::Writer;
use std::sync::Arc;

/// What always holds of the copy that is shown, and of what each reader and the writer know.
pub struct BoardRule;

impl Protocol<Shown, Knowledge> for BoardRule {
    ghost holds = { Holds };

    ghost first = { nothing_known };
}

/// A reader enters a copy.
pub struct Entered;

impl Outcome<Shown, Knowledge> for Entered {
    ghost then = { Enters };
}

/// The writer shows a moment.
pub struct Published;

impl Outcome<Shown, Knowledge> for Published {
    ghost then = { Publishes };
}

/// The writer tells all that it knows, and still knows it.
pub struct Told;

impl Split<Knowledge> for Told {
    ghost left = { all_of_it };

    ghost right = { all_of_it };
}

/// A reader learns what it is told.
pub struct Informed;

impl Join<Knowledge> for Informed {
    ghost both = { informed };

    ghost spent = { nothing_known };
}

pub type BoardReader = Reader<Shown, Knowledge, BoardRule>;

pub type BoardReading = Reading<Shown, Knowledge, BoardRule>;

pub type BoardWriter = Writer<Shown, Arc<Moment>, Knowledge, BoardRule>;
