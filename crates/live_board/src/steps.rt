//! The steps of a publisher: a moment is made, appended, shown; copies and viewers are made.

ghost use Rattle.std.specs.Prelude.{◌<◌, ◌≡◌, ◌≤◌, ◌++◌, ◌∷◌, [], length, drop, All, vec_len, vec_capacity, IfSome, IfNone, IfOk, OnErr, Err};
ghost use Rattle.std.specs.Arc.{arc_value};
ghost use Rattle.left_right.specs.Sides.{view as known_by};
ghost use Rattle.live_board.specs.declared.fault.BoardFault.TheVariants.{NoPlace};
ghost use Rattle.live_board.specs.Counts.{MayFollow};
ghost use Rattle.live_board.specs.State.{knowing, moment_of, shown_after, IsLast, GoesOn};
ghost use Rattle.live_board.specs.declared.publisher.TheConstants.{MOST_VIEWERS};

use crate::fault::BoardFault;
use crate::history::{Head, History};
use crate::rule::{BoardWriter, Informed, Published, Told};
use crate::shown::{Moment, Shown};
use crate::snapshot::Snapshot;
use crate::viewer::Viewer;
use left_right::writer::Writer;
use std::alloc::Global;
use std::sync::{Arc, Wait};

/// The snapshot, with the whole history, which it ends. `None` for want of memory, or where the history is as long as can be
/// counted; the history is then as it was.
#[tactic(auto, using(crate::proofs::Lists::last_is))]
pub fn next_moment<R: Wait>(
    rt: &R,
    alloc: Global,
    head: &mut Head,
    snapshot: Snapshot,
) -> Option<Arc<Moment>>
    requires { MayFollow head.old.list snapshot }
    ensures history { IfSome result (λ m. (arc_value m).history.list ≡ head.old.list ++ snapshot ∷ []) }
    ensures whole { IfSome result (λ m. (arc_value m).history ≡ head.new) }
    ensures last { IfSome result (λ m. IsLast (arc_value m)) }
    ensures none { IfNone result (head.new ≡ head.old) }
    ensures board { head.new.board ≡ head.old.board }
{
    if head.is_full() {
        return None;
    }
    let history = head.all().again();
    let mut moment = Arc::new(alloc, Moment { snapshot, history }).ok()?;
    match Arc::get_mut(&mut moment) {
        Some(inside) => {
            head.add(rt, &inside.snapshot);
            inside.history = head.all().again();
        }
        None => return None,
    }
    Some(moment)
}

/// Two copies that hold the moment, with places for so many readers.
pub fn two_copies(alloc: Global, moment: &Arc<Moment>, viewers: usize) -> Option<BoardWriter>
    requires count { (1 ≤ viewers) × (viewers ≤ MOST_VIEWERS) }
    requires last { IsLast (arc_value moment.now) }
    ensures shown { IfSome result (λ w. moment_of w.desk.shown.value ≡ arc_value moment.now) }
    ensures pending { IfSome result (λ w. drop w.behind w.log.items ≡ []) }
{
    let first = Shown {
        moment: Arc::try_clone(moment).ok()?,
    };
    let second = Shown {
        moment: Arc::try_clone(moment).ok()?,
    };
    Writer::new(alloc, first, second, viewers).ok()
}

/// Appends the moment, for which there has been room since the board was made.
pub fn append_now<R: Wait>(rt: &R, writer: BoardWriter, moment: Arc<Moment>) -> BoardWriter
    ensures desk { result.desk ≡ writer.desk }
    ensures last { shown_after (moment_of writer.desk.shown.value) (drop result.behind result.log.items) ≡ arc_value moment }
{
    let mut writer = writer;
    let mut moment = moment;
    for _ in rt.forever() {
        match writer.append(moment) {
            Ok(()) => return writer,
            Err(back) => moment = back,
        }
    }
    unreachable!()
}

/// Shows the moment that was appended last, in one exchange, and waits for the readers of the other copy. It is made
/// again where a moment can't be shared once more, which takes more copies than there is memory.
pub fn show_now<R: Wait>(rt: &R, writer: BoardWriter) -> BoardWriter
    requires last { IsLast (shown_after (moment_of writer.desk.shown.value) (drop writer.behind writer.log.items)) }
    requires goes_on { GoesOn (moment_of writer.desk.shown.value) (shown_after (moment_of writer.desk.shown.value) (drop writer.behind writer.log.items)) }
    ensures shown { moment_of result.desk.shown.value ≡ shown_after (moment_of writer.desk.shown.value) (drop writer.behind writer.log.items) }
    ensures known { known_by result.desk.place ≡ knowing (moment_of result.desk.shown.value).history }
{
    let mut writer = writer;
    for _ in rt.forever() {
        let (next, answer) = writer.publish_as::<Published, R>(rt);
        writer = next;
        if answer.is_ok() {
            return writer;
        }
    }
    unreachable!()
}

/// A viewer that knows what the history has.
pub fn new_viewer(writer: &mut BoardWriter, history: &History) -> Result<Viewer, BoardFault>
    requires { known_by writer.old.desk.place ≡ knowing history.now }
    ensures shown { writer.new.desk.shown ≡ writer.old.desk.shown }
    ensures known { known_by writer.new.desk.place ≡ known_by writer.old.desk.place }
    ensures viewer { IfOk result (λ v. v ≡ history.now) }
    ensures fault { OnErr result (result ≡ Err NoPlace) }
{
    let Ok(mut reader) = writer.factory().reader() else {
        return Err(BoardFault::NoPlace);
    };
    reader.learn::<Informed>(writer.tell::<Told>());
    Ok(Viewer::new(reader, history.again()))
}

/// So many viewers that know what the history has, in a vector that has room for them.
pub fn new_viewers(
    writer: &mut BoardWriter,
    history: &History,
    room: Vec<Viewer>,
    viewers: usize,
) -> Result<Vec<Viewer>, BoardFault>
    requires known { known_by writer.old.desk.place ≡ knowing history.now }
    requires room { (room.items ≡ []) × (vec_len room ≡ 0) × (viewers ≤ vec_capacity room) }
    ensures shown { writer.new.desk.shown ≡ writer.old.desk.shown }
    ensures known { known_by writer.new.desk.place ≡ known_by writer.old.desk.place }
    ensures count { IfOk result (λ all. length all.items ≡ viewers) }
    ensures viewers { IfOk result (λ all. All (λ v. v ≡ history.now) all.items) }
    ensures fault { OnErr result (result ≡ Err NoPlace) }
    ensures scarce { OnErr result (0 < viewers) }
{
    let mut all = room;
    for _ in 0..viewers {
        let viewer = new_viewer(writer, history)?;
        all.push(viewer).unwrap();
    }
    Ok(all)
}
