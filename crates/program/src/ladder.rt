ghost use Rattle.std.specs.Prelude.{OnErr, OnSome, ◌≡◌, ◌⊎◌, ◌*◌, ◌<◌, ◌↔◌, [], All, Any, IfErr};
ghost use Rattle.program.specs.declared.watching.RunLook.TheVariants as look;
ghost use Rattle.program.specs.declared.watching.RunWatch.TheVariants.{Runs, Unasked, Unwritten};
ghost use Rattle.std.specs.Prelude.{IfOk, IfSome, IsErrOf, IsOk, IsSome, None, OnOk, Some, false, length, map, option_map, replicate, true};
ghost use Rattle.std.specs.Result.{result_err};
ghost use Rattle.std.specs.List.{range_with_len};
ghost use Rattle.std.specs.Duration.{as_nanos};
ghost use Rattle.std.specs.String.{string_bytes};
ghost use Rattle.live_board.specs.Counts.{counts_shown};
ghost use Rattle.folder.specs.Aheads.{hidden_path};
ghost use Rattle.folder.specs.AheadFolders.{ahead_path, ahead_syncs};
ghost use Rattle.folder.specs.FileFolders.{file_moves, folder_path, may_sync};
ghost use Rattle.channel.specs.Resuming.{IsNotResumed, IsResumed};
ghost use Rattle.channel.specs.Views.{folder_view};
ghost use Rattle.channel.specs.declared.fault.ResumingFault.{ResumingFault};
ghost use Rattle.channel.specs.declared.fault.ResumingFault.TheVariants as resuming;
ghost use Rattle.command_line.specs.declared.fault.Fault.TheVariants.{LadderPacking, NoMemory, Resuming, Unopened};
ghost use Rattle.packing.specs.LadderPacking.{WritesSummary};
ghost use Rattle.read_ahead.specs.Sources.{inputs_of};
ghost use Rattle.read_ahead.specs.declared.starting.InputFault.TheVariants.{Unread};
ghost use Rattle.program.specs.Asked.{IsAsAsked};
ghost use Rattle.program.specs.Channels.{GoesNotOn, GoesOn, IsJobBehind, MayHoldFile};
ghost use Rattle.program.specs.LadderEnds.{FailsLadder, HearsOf, IsUnbegun, ended_by};
ghost use Rattle.program.specs.LadderRuns.{IsPrunedRun, IsWholeRun};
ghost use Rattle.program.specs.Faulted.{last_fault};
ghost use Rattle.program.specs.Metered.{IsLastLook, IsWriterFor};
ghost use Rattle.program.specs.declared.watching.LastLook.{LastLook};
ghost use Rattle.program.specs.declared.watching.Watching.{Watching};

use crate::lock::FolderLock;
use crate::told::KeepsTellings;
use crate::watching::{RunLook, RunWatch, Watched};
use channel::{Resumed, resume};
use command_line::{Fault, LadderJob};
use commands::{LadderOptions, LadderPackingFault, Pool};
use folder::{AheadFolder, FileFolder, Folder, FolderReader};
use item_io::FolderOutlet;
use keeping::KeepingOutlet;
use live_board::{BoardFault, Publisher};
use packing::{AheadGate, Destination, LadderSetup, PackedLadder, pack_into_folder};
use pipeline::{Herald, Report, opening_board};
use read_ahead::{Ahead, InputAt, InputFiles, InputsView, Limits, open_paths};
use removal::{RemovalHerald, keepings, pack_and_remove};
use std::alloc::{AllocError, AllocGlobal, Global};
use std::fs::Files;
use std::io::{Eprint, Write};
use std::sync::Wait;
use std::thread::Threads;
use std::time::{Clock, Duration};

/// A ladder as it is packed: in its folder, which is held, it may go on behind an earlier run.
#[derive(Drop)]
pub struct Channel<'a> {
    held: FolderLock<'a>,
    pub job: LadderJob<'a>,
    /// For each rendition the numbers of segments of earlier runs that no playlist lists any more.
    pub older: Vec<Vec<u64>>,
}

/// The ladder that was asked for, behind what an earlier run left in its folder, if it is to go on. The folder is held.
pub fn begin_channel<'a, R: Files + AllocGlobal + Clone + Copy + Drop>(
    rt: R,
    alloc: Global,
    held: FolderLock<'a>,
    job: LadderJob<'a>,
) -> Result<Channel<'a>, Fault>
    requires { held.path.now ≡ job.folder.now }
    ensures held { IfOk result (λ channel. channel.held.path.now ≡ channel.job.folder.now) }
    ensures behind { IfOk result (λ channel. IsJobBehind job.entry channel.job) }
    ensures first { job.entry.resumes ≡ false → IfOk result (λ channel. (channel.job ≡ job.entry) × (channel.older.items ≡ [])) }
    ensures none { job.entry.resumes ≡ false → IsOk result }
    ensures resumed { job.entry.resumes ≡ true → IfOk result (λ channel. GoesOn R job.entry channel.job (map (λ n. n.items) channel.older.items)) }
    ensures refused { IfErr result (λ fault. (fault ≡ NoMemory) ⊎ GoesNotOn R job.entry fault) }

    // Memory alone is wanted for the folder's path.
    ensures scarce { IsErrOf result NoMemory → 0 < length job.entry.folder.now }
{
    if !job.resumes {
        let older = Vec::new(alloc);
        return Ok(Channel { held, job, older });
    }
    let mut folder = folder_of(rt, alloc, &job)?;
    go_on(alloc, &mut folder, held, job)
}

/// The ladder behind what an earlier run left in a folder.
fn go_on<'a, F: Folder + FolderReader>(
    alloc: Global,
    folder: &mut F,
    held: FolderLock<'a>,
    job: LadderJob<'a>,
) -> Result<Channel<'a>, Fault>
    requires { held.path.now ≡ job.folder.now }
    ensures held { IfOk result (λ channel. channel.held.path.now ≡ channel.job.folder.now) }
    ensures behind { IfOk result (λ channel. IsJobBehind job.entry channel.job) }
    ensures ok { let view = folder_view F.lists F.gives F.lacks F.refuses F.made in
        IfOk result (λ channel. IsResumed view job.entry.options.settings folder.old folder.new
        channel.job.options.settings (map (λ n. n.items) channel.older.items)) }
    ensures err { let view = folder_view F.lists F.gives F.lacks F.refuses F.made in
        IfErr result (λ fault. (why : ResumingFault) × (fault ≡ Resuming why) ×
        IsNotResumed view job.entry.options.settings folder.old folder.new why) }

    // What can't be changed was tried.
    ensures failed { IsErrOf result (Resuming resuming.Outlet) → (found : F) × F.fails found folder.new }

    // Memory is wanted to look at the folder, for a rendition, or for a file.
    ensures scarce { IsErrOf result (Resuming resuming.NoMemory) → F.wants folder.old ⊎ (0 < length job.entry.options.settings.renditions)
        ⊎ MayHoldFile (F.lists folder.old) }
{
    let LadderJob {
        options,
        folder: path,
        resumes,
        removes,
        syncs,
        metrics,
    } = job;
    let LadderOptions {
        settings,
        pool,
        paths,
    } = options;
    let Resumed { settings, older } = resume(alloc, folder, settings)?;
    let options = LadderOptions {
        settings,
        pool,
        paths,
    };
    let job = LadderJob {
        options,
        folder: path,
        resumes,
        removes,
        syncs,
        metrics,
    };
    Ok(Channel { held, job, older })
}

/// Where the files of a ladder go.
#[derive(Drop)]
pub enum LadderOutlet<F> {
    /// All of them stay.
    Whole(FolderOutlet<F>),
    /// Segments go once no player can want them any more.
    Pruned(KeepingOutlet<F>),
}

/// A ladder that was packed: its inputs and its outlet, how that ended, and the last look at it.
pub struct LadderRun<S, F> {
    pub sources: Vec<S>,
    pub outlet: LadderOutlet<F>,
    pub answer: Result<(), Fault>,
    pub look: RunLook,
}

/// Packs a ladder of files into a folder. All paths but those of FIFOs that have no writer are open before anything is
/// written. The herald is told of a rendition's fault as soon as it stands; what it keeps of what the run tells of itself, the run's
/// metrics find there. An Err is why it wasn't begun.
pub fn pack_ladder<
    R: InputFiles + Files + Clock + Eprint + Threads + Wait + Copy + Send + Sync + Drop + 'static,
    W: Write,
    H: Herald + RemovalHerald + KeepsTellings,
>(
    rt: R,
    alloc: Global,
    channel: &Channel<'_>,
    pairs: bool,
    output: &mut W,
    herald: &H,
) -> Result<LadderRun<Ahead<R, InputAt<R>>, FileFolder<R>>, Fault>
where
    R::Reader: Send + 'static,
    R::File: Send + 'static,
    R::Dir: Send + 'static,

    // Its folder is held.
    requires held { channel.now.held.path.now ≡ channel.now.job.folder.now }

    // It ends well only where all was packed and the summary was written.
    ensures written { IfOk result (λ run. OnOk run.answer ((report : _) ×
        WritesSummary channel.now.job.options.settings report (W.contents output.old) (W.contents output.new))) }

    // It ends by a fault of its run, which says what was written.
    ensures fault { IfOk result (λ run. IfErr run.answer (FailsLadder channel.now.job.options.settings (W.contents output.old) (W.contents output.new))) }

    // The herald heard of a rendition's fault that the run ends by.
    ensures told { IfOk result (λ run. IfErr run.answer (HearsOf (H.was_told herald.now))) }

    // Where it wasn't begun, nothing was written.
    ensures unbegun { IfErr result (λ fault. IsUnbegun fault × (W.contents output.new ≡ W.contents output.old)) }

    // Each rendition is read from its own path, and its files go to the folder that was asked for.
    ensures whole { channel.now.job.removes ≡ false → IfOk result (IsWholeRun
        (map (λ path. R.holds rt path.now) channel.now.job.options.paths.items) channel.now.job (H.kept herald.now)
        (W.contents output.old) (W.contents output.new)) }

    // Segments go if that was asked for, and no others do than may by what the run before left.
    ensures pruned { channel.now.job.removes ≡ true → IfOk result (IsPrunedRun
        (map (λ path. R.holds rt path.now) channel.now.job.options.paths.items) channel.now.job (H.kept herald.now)
        (map (λ n. n.items) channel.now.older.items) (W.contents output.old) (W.contents output.new)) }
{
    let (job, older) = (&channel.job, &channel.older);
    let Inputs { sources, view } = open_inputs(rt, alloc, &job.options)?;
    let into = destination(rt, alloc, job)?;
    let kept = keepings(alloc, &job.options.settings, older)?;
    let Board { publisher, watch } = open_board(rt, alloc, job, view, herald)?;
    let gate = AheadGate::new(open_ahead(rt, alloc, &channel.held, job));
    let setup = LadderSetup {
        rt: &rt,
        alloc,
        settings: &job.options.settings,
        pool: job.options.pool,
        pairs,
        gate: &gate,
        herald,
    };
    if job.removes {
        let PackedLadder {
            sources,
            publisher,
            outlet,
            answer,
        } = pack_and_remove(&setup, sources, publisher, into, kept, output);
        drop(setup);
        close_ahead(gate);
        let RunEnd { answer, look } = end_run(&rt, alloc, watch, publisher, answer);
        return Ok(LadderRun {
            sources,
            outlet: LadderOutlet::Pruned(outlet),
            answer,
            look,
        });
    }
    let PackedLadder {
        sources,
        publisher,
        outlet,
        answer,
    } = pack_into_folder(&setup, sources, publisher, into, output);
    drop(setup);
    close_ahead(gate);
    let RunEnd { answer, look } = end_run(&rt, alloc, watch, publisher, answer);
    Ok(LadderRun {
        sources,
        outlet: LadderOutlet::Whole(outlet),
        answer,
        look,
    })
}

/// The board of a ladder, and whether it is watched.
struct Board {
    publisher: Publisher,
    watch: RunWatch,
}

/// Opens the board of a ladder that is about to begin: it has a place for each rendition, and shows no segment. Who watches it sees
/// all of the ladder's inputs, and what the herald keeps.
fn open_board<
    R: Files + Clock + Eprint + Threads + Wait + Copy + Send + Drop + 'static,
    H: KeepsTellings,
>(
    rt: R,
    alloc: Global,
    job: &LadderJob<'_>,
    inputs: Option<InputsView>,
    herald: &H,
) -> Result<Board, BoardFault>
where
    R::File: Send + 'static,
    R::Dir: Send + 'static,
    requires view { IsSome inputs ↔ 0 < length job.now.options.paths.items }
    requires shown { IfSome inputs (λ view. inputs_of view ≡ length job.now.options.paths.items) }
    ensures none { IfOk result (λ board. counts_shown board.publisher.list ≡ replicate (length job.now.options.settings.renditions) 0) }
    ensures asked { IfOk result (λ board. board.watch ≡ Unasked → job.now.metrics ≡ None) }
    ensures unasked { job.now.metrics ≡ None → IfOk result (λ board. board.watch ≡ Unasked) }

    // What watches it writes to the path that was asked for, of these renditions, of these inputs and of what the herald keeps.
    ensures watched { IfOk result (λ board. (to : _) (watching : Watching) → job.now.metrics ≡ Some to → board.watch ≡ Runs watching →
        IsWriterFor (map (λ r. r.name) job.now.options.settings.renditions) to.now inputs (H.kept herald.now)
        watching.thread.promise.writer.value) }

    // It looks at this board.
    ensures board { IfOk result (λ board. (watching : Watching) → board.watch ≡ Runs watching →
        watching.thread.promise.viewer.value.board ≡ board.publisher.board) }
{
    let Ok(told) = herald.tellings() else {
        return Err(BoardFault::NoMemory);
    };
    let renditions = &job.options.settings.renditions;
    let (publisher, viewers) = opening_board(&rt, alloc, renditions.len(), 1)?;
    let watched = Watched {
        viewers,
        inputs,
        told,
    };
    let watch = RunWatch::begin(rt, alloc, renditions, job.metrics, watched);
    Ok(Board { publisher, watch })
}

/// How a run ended, and the last look at it.
#[derive(Drop)]
struct RunEnd {
    answer: Result<(), Fault>,
    look: RunLook,
}

/// Ends what watches a run, and its board, and tells how the run ended.
fn end_run<R: Files + Clock + Eprint + Threads + Wait>(
    rt: &R,
    alloc: Global,
    watch: RunWatch,
    publisher: Publisher,
    answer: Result<Report, LadderPackingFault>,
) -> RunEnd
    // It was watched through this board.
    requires board { (watching : Watching) → watch ≡ Runs watching → watching.thread.promise.viewer.value.board ≡ publisher.board }
    ensures well { OnOk answer (IsOk result.answer) }
    ensures fault { IfErr answer (λ why. IsErrOf result.answer (LadderPacking why)) }
    ensures unasked { watch ≡ Unasked ↔ result.look ≡ look.Unasked }
    ensures unwritten { (told : _) → watch ≡ Unwritten told → result.look ≡ look.Unwritten told }

    // The last metrics show all that it published, and tell of the fault that it ended by.
    ensures shown { (watching : Watching) → watch ≡ Runs watching → (last : LastLook) × (result.look ≡ look.Last last) ×
        IsLastLook watching.thread.promise.writer.value publisher.list (ended_by result.answer) last }
{
    let look = watch.end(rt, alloc, &publisher, fault_of(&answer));
    publisher.end(rt);
    RunEnd {
        answer: told_as(answer),
        look,
    }
}

/// How a run ended, as the program tells it.
fn told_as(answer: Result<Report, LadderPackingFault>) -> Result<(), Fault>
    ensures well { OnOk answer (IsOk result) }
    ensures fault { IfErr answer (λ why. IsErrOf result (LadderPacking why)) }
    ensures ended { last_fault (result_err answer) ≡ ended_by result }
{
    match answer {
        Ok(_) => Ok(()),
        Err(why) => Err(Fault::LadderPacking(why)),
    }
}

/// The fault that a run ended by, if it did.
fn fault_of(answer: &Result<Report, LadderPackingFault>) -> Option<&LadderPackingFault>
    ensures { option_map (λ f. f.now) result ≡ result_err answer.now }
{
    match answer {
        Ok(_) => None,
        Err(why) => Some(why),
    }
}

/// The inputs of a ladder, which are read ahead, and a view of them, if there are any.
struct Inputs<S> {
    sources: Vec<S>,
    view: Option<InputsView>,
}

/// Opens the inputs of a ladder.
fn open_inputs<R: InputFiles + Clock + Threads + Wait + Copy + Send + Drop + 'static>(
    rt: R,
    alloc: Global,
    options: &LadderOptions<'_>,
) -> Result<Inputs<Ahead<R, InputAt<R>>>, Fault>
where
    R::Reader: Send + 'static,
    ensures left { IfOk result (λ inputs. map (λ source. source.left) inputs.sources.items ≡ map (λ path. R.holds rt path.now) options.now.paths.items) }
    ensures unread { IfOk result (λ inputs. All (λ source. (source.reads ≡ 0) × (source.failures ≡ 0)) inputs.sources.items) }
    ensures numbers { IfOk result (λ inputs. map (λ source. source.number) inputs.sources.items ≡ range_with_len 0 (length options.now.paths.items)) }
    ensures limits { IfOk result (λ inputs. All (λ source.
        IsAsAsked options.now.pool.stall options.now.pool.ahead (length options.now.paths.items) source.stall source.is_file source.room)
        inputs.sources.items) }
    ensures view { IfOk result (λ inputs. IsSome inputs.view ↔ 0 < length options.now.paths.items) }

    // The view is of all of them.
    ensures shown { IfOk result (λ inputs. IfSome inputs.view (λ view. inputs_of view ≡ length options.now.paths.items)) }
    ensures fault { IfErr result (λ fault. (fault ≡ NoMemory) ⊎ ((why : _) × (fault ≡ Unopened why))) }
    ensures none { IsErrOf result (Unopened Unread) → 0 < length options.now.paths.items }
{
    let limits = limits_of(options.pool);
    let sources = open_paths(rt, alloc, rt, options.paths.as_slice(), limits)?;
    let view = view_of(sources.as_slice())?;
    Ok(Inputs { sources, view })
}

/// A view of inputs that were opened together, if there are any.
fn view_of<R: InputFiles + Clock + Threads + Wait + Copy + Send + Drop + 'static>(
    sources: &[Ahead<R, InputAt<R>>],
) -> Result<Option<InputsView>, AllocError>
where
    R::Reader: Send + 'static,
    ensures ok { IfOk result (λ view. IsSome view ↔ 0 < length sources.now) }

    // It shows as many as were opened with them.
    ensures shown { IfOk result (λ view. IfSome view (λ shown. Any (λ source. inputs_of shown ≡ source.inputs) sources.now)) }
    ensures scarce { OnErr result (0 < length sources.now) }
{
    match sources.first() {
        Some(source) => {
            let view = source.view()?;
            Ok(Some(view))
        }
        None => Ok(None),
    }
}

/// How the inputs are read ahead.
fn limits_of(pool: Pool) -> Limits
    ensures stall { option_map as_nanos result.stall ≡ option_map (λ seconds. seconds * 1_000_000_000) pool.stall }
    ensures ahead { result.ahead ≡ pool.ahead }
{
    let stall = match pool.stall {
        Some(seconds) => Some(Duration::from_secs(seconds)),
        None => None,
    };
    Limits {
        stall,
        ahead: pool.ahead,
    }
}

/// The folder that the files go to, to which nothing was done yet.
fn destination<R: Copy>(
    rt: R,
    alloc: Global,
    job: &LadderJob<'_>,
) -> Result<Destination<FileFolder<R>>, AllocError>
    ensures fresh { IfOk result (λ into. file_moves into.folder ≡ []) }
    ensures syncs { IfOk result (λ into. into.syncs ≡ job.now.syncs) }
    ensures folder { IfOk result (λ into. (folder_path into.folder ≡ job.now.folder.now) × (may_sync into.folder ≡ job.now.syncs)) }
    ensures scarce { OnErr result (0 < length job.now.folder.now) }
{
    Ok(Destination {
        folder: folder_of(rt, alloc, job)?,
        syncs: job.syncs,
    })
}

/// What writes the segments of a ladder ahead: a hidden folder of the ladder's own, where that is locked, so that nobody else's is
/// cleared.
fn open_ahead<R: Files + Copy + Drop>(
    rt: R,
    alloc: Global,
    held: &FolderLock<'_>,
    job: &LadderJob<'_>,
) -> Option<AheadFolder<R>>
    ensures locked { OnSome result (IsSome held.now.lock) }
    ensures path { IfSome result (λ ahead. ahead_path ahead ≡ hidden_path job.now.folder.now) }
    ensures syncs { IfSome result (λ ahead. ahead_syncs ahead ≡ job.now.syncs) }
{
    if !held.is_held() {
        return None;
    }
    AheadFolder::open(rt, alloc, job.folder, job.syncs)
}

/// Removes what was written ahead and is still there.
fn close_ahead<R: Files + Drop>(gate: AheadGate<Option<AheadFolder<R>>>) {
    if let Some(ahead) = gate.into_ahead() {
        ahead.close();
    }
}

/// The folder of a ladder, to which nothing was done yet.
fn folder_of<R: Copy>(
    rt: R,
    alloc: Global,
    job: &LadderJob<'_>,
) -> Result<FileFolder<R>, AllocError>
    ensures fresh { IfOk result (λ folder. file_moves folder ≡ []) }
    ensures path { IfOk result (λ folder. folder_path folder ≡ job.now.folder.now) }
    ensures syncs { IfOk result (λ folder. may_sync folder ≡ job.now.syncs) }
    ensures scarce { OnErr result (0 < length job.now.folder.now) }
{
    let path = path_of(alloc, job.folder)?;
    if job.syncs {
        return Ok(FileFolder::new_synced(rt, alloc, path));
    }
    Ok(FileFolder::new(rt, alloc, path))
}

/// A path of its own.
fn path_of(alloc: Global, path: &str) -> Result<String, AllocError>
    ensures ok { IfOk result (λ own. string_bytes own ≡ path.now) }
    ensures scarce { OnErr result (0 < length path.now) }
{
    let mut own = String::new(alloc);
    own.push_str(path)?;
    Ok(own)
}
