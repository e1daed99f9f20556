//! Viewers, which never wait.

ghost use Rattle.std.specs.Prelude.{◌≡◌, ◌<◌, length, Some, IfOk, IfErr, OnErr};
ghost use Rattle.ghost_list.specs.Lists.{IsBeginning};
ghost use Rattle.left_right.specs.Sides.{view as known_by};
ghost use Rattle.live_board.specs.Counts.{last_of, NeverFalls};
ghost use Rattle.live_board.specs.State.{knowing, moment_of, IsLast};

use crate::history::History;
use crate::rule::{BoardReader, BoardReading, Entered};
use crate::snapshot::Snapshot;
use std::marker::Model;

/// Someone who looks at a board now and then.
///
/// Clauses see it as the list of snapshots that it knows of, and its board.
#[derive(Drop)]
pub struct Viewer {
    reader: BoardReader,
    history: History,
}

impl Model for Viewer {
    ghost use Rattle.left_right.specs.Sides.{view as known_by};
    ghost use Rattle.live_board.specs.Snapshots.{Known};
    ghost use Rattle.live_board.specs.State.{KnowsFrontOf};

    ghost Value = { Known };

    ghost view = { λ v. v.history };

    ghost invariant = { λ v. KnowsFrontOf (known_by v.reader.place) v.history };
}

/// A look at the last snapshot of a viewer's list. The publisher waits while it is kept.
///
/// Clauses see it as that list, and its board.
pub struct View {
    reading: BoardReading,
    history: History,
    ghost mine: { known_by reading.place ≡ knowing history },
    ghost last: { last_of history.list ≡ Some (moment_of reading.part.value).snapshot },
}

impl Model for View {
    ghost use Rattle.live_board.specs.Snapshots.{Known};

    ghost Value = { Known };

    ghost view = { λ v. v.history };
}

/// The look of a viewer that has entered a copy. It comes back as it was only where it was told of more than the copy has.
fn entered(reading: BoardReading, history: History) -> Result<View, Viewer>
    requires mine { known_by reading.place ≡ knowing (moment_of reading.part.value).history }
    requires last { IsLast (moment_of reading.part.value) }
    requires board { (moment_of reading.part.value).history.board ≡ history.board }
    ensures ok { IfOk result (λ v. v ≡ (moment_of reading.part.value).history) }
    ensures grows { IfOk result (λ v. IsBeginning history.list v.list) }
    ensures rises { IfOk result (λ v. NeverFalls v.list) }
    ensures err { IfErr result (λ v. v ≡ history) }
    ensures behind { OnErr result (length (moment_of reading.part.value).history.list < length history.list) }
{
    match reading.get().moment.history.after(&history) {
        Some(now) => Ok(View {
            reading,
            history: now,
        }),
        None => Err(Viewer {
            reader: reading.leave(),
            history,
        }),
    }
}

impl Viewer {
    /// A viewer that knows of these snapshots.
    pub(crate) fn new(reader: BoardReader, history: History) -> Viewer
        requires { known_by reader.place ≡ knowing history }
        ensures { result ≡ history }
    {
        Viewer { reader, history }
    }

    /// Looks at the board, with no lock, no wait and no memory. Where the publisher is gone, the viewer comes
    /// back as it was.
    pub fn view(self) -> Result<View, Viewer>
        ensures grows { IfOk result (λ v. IsBeginning self.list v.list) }
        ensures rises { IfOk result (λ v. NeverFalls v.list) }
        ensures board { IfOk result (λ v. v.board ≡ self.board) }
        ensures err { IfErr result (λ v. v ≡ self) }
    {
        let Viewer { reader, history } = self;
        match reader.enter_as::<Entered>() {
            Ok(reading) => entered(reading, history),
            Err(reader) => Err(Viewer { reader, history }),
        }
    }

    /// From now on the viewer knows of these snapshots too.
    pub(crate) fn learn(&mut self, told: &History)
        requires { self.old.board ≡ told.now.board }
        ensures board { self.new.board ≡ self.old.board }
        ensures told { IsBeginning told.now.list self.new.list }
        ensures own { IsBeginning self.old.list self.new.list }
    {
        self.history = self.history.longer(told);
    }
}

impl View {
    /// The last snapshot of the list.
    pub fn snapshot(&self) -> &Snapshot
        ensures { last_of self.now.list ≡ Some result.now }
    {
        &self.reading.get().moment.snapshot
    }

    /// Ends the look. The viewer knows of all that the view does.
    pub fn close(self) -> Viewer
        ensures { result ≡ self }
    {
        let View { reading, history } = self;
        Viewer {
            reader: reading.leave(),
            history,
        }
    }
}
