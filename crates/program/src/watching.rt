//! Watches a run: a thread with a viewer of its board writes its metrics to a file. The run waits for nothing of it.
ghost use Rattle.std.specs.Prelude.{◌≡◌, ◌↔◌, ◌⊎◌, Contains, IfSome, IsSome, None, Some, length, map, option_map, replicate};
ghost use Rattle.std.specs.Arc.{arc_value};
ghost use Rattle.std.specs.String.{string_bytes};
ghost use Rattle.ghost_list.specs.Lists.{IsBeginning};
ghost use Rattle.metrics.specs.Glances.{IsOfTheLast};
ghost use Rattle.metrics.specs.Seens.{unseen};
ghost use Rattle.metrics.specs.declared.glance.Glance.{Glance};
ghost use Rattle.program.specs.Faulted.{last_fault};
ghost use Rattle.program.specs.Metered.{IsFileOf, IsLastFile, IsLastLook, IsSeenOn, IsWriterFor, StaysWriter};
ghost use Rattle.program.specs.declared.watching.LastLook.{LastLook};
ghost use Rattle.program.specs.declared.watching.Watching.{Watching};
ghost use Rattle.program.specs.declared.watching.RunLook.TheVariants as look;
ghost use Rattle.program.specs.declared.watching.RunWatch.TheVariants.{Runs, Unasked, Unwritten};

use crate::fault_names::last_of;
use crate::file_answers::Put;
use crate::metrics_writer::Writer;
use crate::pairs::pair_of;
use crate::told::Tellings;
use crate::told_unwritten::{ToldUnwritten, tell_unwritten};
use commands::LadderPackingFault;
use live_board::{Publisher, Viewer};
use metrics::look;
use pipeline::{PackFault, Rendition};
use read_ahead::InputsView;
use std::alloc::Global;
use std::fs::Files;
use std::io::Eprint;
use std::snapshot::Snapshot;
use std::sync::{Arc, Condvar, Mutex, Wait};
use std::thread::{self, Promise, PromisedHandle, Threads};
use std::time::{Clock, Duration};

/// How often the metrics are written, in seconds.
const TICK: u64 = 5;

/// By which the thread is stopped.
#[derive(Drop)]
struct StopSignal {
    is_over: Mutex<bool>,
    told: Condvar,
}

impl StopSignal {
    /// Waits for a tick, or until it's over. Whether it is.
    fn wait<R: Wait + Clock>(&self, rt: &R) -> bool {
        let tick = Duration::from_secs(TICK);
        let is_over = self.is_over.lock(rt);
        let waited = self
            .told
            .wait_timeout_while(rt, is_over, tick, |is_over| !*is_over);
        *waited.0
    }

    /// It's over.
    fn tell<R: Wait>(&self, rt: &R) {
        let mut is_over = self.is_over.lock(rt);
        *is_over = true;
        self.told.notify_all();
    }
}

/// Looks at the board, and then writes what it saw. It holds no view while it writes. None where it couldn't, which was told.
fn look_and_write<R: Files + Clock + Eprint + Wait>(
    rt: &R,
    alloc: Global,
    viewer: Viewer,
    writer: &mut Writer,
    fault: Option<PackFault>,
) -> (Viewer, Option<Put>)
    // It stays the writer of this run, and what was told once stays told.
    ensures kept { StaysWriter writer.old writer.new }
    ensures told { IsSome writer.old.unwritten → IsSome writer.new.unwritten }

    // What was seen stands, or is seen again with what the board showed last.
    ensures seen { (writer.new.seen.items ≡ writer.old.seen.items) ⊎ ((glance : Glance) × IsOfTheLast result.0.list glance ×
        IsSeenOn writer.old.seen.items glance.counts.items writer.new.seen.items) }

    // Its file holds that and the fault, or it was told that the metrics can't be written.
    ensures put { IfSome result.1 (λ put. (glance : Glance) × IsOfTheLast result.0.list glance ×
        IsFileOf writer.old writer.new glance fault put) }
    ensures untold { result.1 ≡ None → IsSome writer.new.unwritten }

    // The viewer is the same one, and has taken what the board showed.
    ensures board { result.0.board ≡ viewer.board }
    ensures grows { IsBeginning viewer.list result.0.list }
{
    let (viewer, seen) = look(alloc, viewer);
    match seen {
        Ok(glance) => {
            let put = writer.write(rt, alloc, &glance, fault);
            (viewer, put)
        }
        Err(_) => {
            writer.tell_once(rt);
            (viewer, None)
        }
    }
}

/// What watches a run of these renditions that begins now: its viewer, and the writer of what that shows. None where there is no memory
/// or no viewer for it.
fn watchers<R: Clock>(
    rt: &R,
    alloc: Global,
    renditions: &[Rendition],
    path: &str,
    watched: Watched,
) -> Option<(Viewer, Writer)>
    ensures names { IfSome result (λ both. map string_bytes both.1.names.items ≡ map (λ r. r.name) renditions.now) }
    ensures seen { IfSome result (λ both. both.1.seen.items ≡ replicate (length renditions.now) unseen) }
    ensures path { IfSome result (λ both. string_bytes both.1.path ≡ path.now) }
    ensures views { IfSome result (λ both. (both.1.inputs ≡ watched.inputs) × (both.1.told ≡ watched.told)) }
    ensures untold { IfSome result (λ both. both.1.unwritten ≡ None) }
    ensures viewer { IfSome result (λ both. Contains watched.viewers.items both.0) }
{
    let Watched {
        mut viewers,
        inputs,
        told,
    } = watched;
    let viewer = viewers.pop()?;
    let writer = Writer::new(rt, alloc, renditions, path, inputs, told).ok()?;
    Some((viewer, writer))
}

/// What the thread does: it looks at each tick, until it's stopped.
fn look_at_ticks<R: Files + Clock + Eprint + Wait>(
    rt: &R,
    alloc: Global,
    viewer: Viewer,
    writer: Writer,
    stop: &StopSignal,
) -> (Viewer, Writer)
    ensures { (result.0.board ≡ viewer.board) × StaysWriter writer result.1 }
{
    let mut viewer = viewer;
    let mut writer = writer;
    for _ in rt.forever() {
        let (next, _) = look_and_write(rt, alloc, viewer, &mut writer, None);
        viewer = next;
        if stop.wait(rt) {
            break;
        }
    }
    (viewer, writer)
}

/// By what a run is watched: views of its board and of its inputs, and what it tells of itself.
#[derive(Drop)]
pub struct Watched {
    pub viewers: Vec<Viewer>,
    pub inputs: Option<InputsView>,
    pub told: Arc<Tellings>,
}

/// Whether a run is watched. It ends with the run.
pub enum RunWatch {
    /// Nobody asked for it.
    Unasked,
    /// It can't be, which was told.
    Unwritten(ToldUnwritten),
    /// A thread does.
    Runs(Watching),
}

/// The viewer and the writer that a thread was begun with: it gives those of the same board and the same run back.
#[derive(Drop)]
struct OfWatchers {
    viewer: Snapshot<Viewer>,
    writer: Snapshot<Writer>,
}

impl Promise<(Viewer, Writer)> for OfWatchers {
    ghost use Rattle.std.specs.Prelude.{◌≡◌};
    ghost use Rattle.program.specs.Metered.{StaysWriter};

    ghost kept_by = { λ begun both. (both.0.board ≡ begun.viewer.value.board) × StaysWriter begun.writer.value both.1 };
}

/// The thread that watches a run.
pub struct Watching {
    stop: Arc<StopSignal>,
    thread: PromisedHandle<(Viewer, Writer), OfWatchers>,
}

/// The last look at a run that ended: its writer, and the file that it put last; none where it couldn't, which was told.
#[derive(Drop)]
pub struct LastLook {
    writer: Writer,
    put: Option<Put>,
}

/// What is left of watching a run that ended.
#[derive(Drop)]
pub enum RunLook {
    /// Nobody asked for it.
    Unasked,
    /// It couldn't be watched, which was told.
    Unwritten(ToldUnwritten),
    /// It was looked at for the last time.
    Last(LastLook),
}

impl Watching {
    /// Watches a run of these renditions that is about to begin. None where there is no memory, no thread or no viewer for it.
    fn start<R: Files + Clock + Eprint + Threads + Wait + Copy + Send + Drop + 'static>(
        rt: R,
        alloc: Global,
        renditions: &[Rendition],
        path: &str,
        watched: Watched,
    ) -> Option<Watching>
    where
        R::File: Send + 'static,
        R::Dir: Send + 'static,
        ensures writer { IfSome result (λ watching. IsWriterFor (map (λ r. r.name) renditions.now) path.now watched.inputs (arc_value watched.told)
            watching.thread.promise.writer.value) }
        ensures viewer { IfSome result (λ watching. Contains watched.viewers.items watching.thread.promise.viewer.value) }
    {
        let (stop, theirs) = pair_of(
            alloc,
            StopSignal {
                is_over: Mutex::new(false),
                told: Condvar::new(),
            },
        )
        .ok()?;
        let (viewer, writer) = watchers(&rt, alloc, renditions, path, watched)?;
        let begun = OfWatchers {
            viewer: Snapshot::of(&viewer),
            writer: Snapshot::of(&writer),
        };
        let thread = thread::spawn_with(
            &rt,
            begun,
            move || look_at_ticks(&rt, alloc, viewer, writer, &theirs),
        )
        .ok()?;
        Some(Watching { stop, thread })
    }

    /// Stops, and writes the last metrics of a run that ended so: they show all that was published on its board.
    fn end<R: Files + Clock + Eprint + Threads + Wait>(
        self,
        rt: &R,
        alloc: Global,
        board: &Publisher,
        fault: Option<&LadderPackingFault>,
    ) -> LastLook
        requires board { self.thread.promise.viewer.value.board ≡ board.now.board }
        ensures kept { StaysWriter self.thread.promise.writer.value result.writer }
        ensures put { IfSome result.put
            (IsLastFile self.thread.promise.writer.value board.now.list (last_fault (option_map (λ f. f.now) fault.entry))) }
        ensures untold { result.put ≡ None → IsSome result.writer.unwritten }
    {
        let Watching { stop, thread } = self;
        stop.tell(rt);
        let (mut viewer, mut writer) = thread.join(rt);
        board.tell(&mut viewer);
        let (_viewer, put) = look_and_write(rt, alloc, viewer, &mut writer, last_of(fault));
        LastLook { writer, put }
    }
}

impl RunWatch {
    /// Watches a run of these renditions that is about to begin, if there is a path. Where it can't, that is told, and the run goes on.
    pub fn begin<R: Files + Clock + Eprint + Threads + Wait + Copy + Send + Drop + 'static>(
        rt: R,
        alloc: Global,
        renditions: &[Rendition],
        path: Option<&str>,
        watched: Watched,
    ) -> RunWatch
    where
        R::File: Send + 'static,
        R::Dir: Send + 'static,
        ensures asked { result ≡ Unasked → path.entry ≡ None }
        ensures none { path.entry ≡ None → result ≡ Unasked }
        ensures begun { (to : _) (watching : Watching) → path.entry ≡ Some to → result ≡ Runs watching →
            IsWriterFor (map (λ r. r.name) renditions.now) to.now watched.inputs (arc_value watched.told) watching.thread.promise.writer.value }

        // It looks through one of these viewers.
        ensures viewer { (watching : Watching) → result ≡ Runs watching → Contains watched.viewers.items watching.thread.promise.viewer.value }
    {
        let Some(path) = path else {
            return RunWatch::Unasked;
        };
        match Watching::start(rt, alloc, renditions, path, watched) {
            Some(watching) => RunWatch::Runs(watching),
            None => RunWatch::Unwritten(tell_unwritten(&rt)),
        }
    }

    /// Ends with the run, which ended so. Its last metrics show all that was published on its board.
    pub fn end<R: Files + Clock + Eprint + Threads + Wait>(
        self,
        rt: &R,
        alloc: Global,
        board: &Publisher,
        fault: Option<&LadderPackingFault>,
    ) -> RunLook
        requires board { (watching : Watching) → self ≡ Runs watching → watching.thread.promise.viewer.value.board ≡ board.now.board }
        ensures unasked { self ≡ Unasked ↔ result ≡ look.Unasked }
        ensures unwritten { (told : _) → self ≡ Unwritten told → result ≡ look.Unwritten told }
        ensures runs { (watching : Watching) → self ≡ Runs watching → (last : LastLook) × (result ≡ look.Last last) ×
            IsLastLook watching.thread.promise.writer.value board.now.list (last_fault (option_map (λ f. f.now) fault.entry)) last }
    {
        match self {
            RunWatch::Unasked => RunLook::Unasked,
            RunWatch::Unwritten(told) => RunLook::Unwritten(told),
            RunWatch::Runs(watching) => RunLook::Last(watching.end(rt, alloc, board, fault)),
        }
    }
}
