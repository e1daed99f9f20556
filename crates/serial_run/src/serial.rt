ghost use Rattle.std.specs.Prelude.{◌≡◌, ◌≢◌, ◌<◌, ◌≤◌, ◌^◌, ◌⊎◌, ℕ, [], Some, None, All, true, false, length, slice_get, IfOk, IfErr, OnOk, OnErr};
ghost use Rattle.ladder_items.specs.declared.fault.PackFault.TheVariants.{Settings as SettingsFault, Outlet as OutletFault, NoMemory, Held};
ghost use Rattle.ingest.specs.declared.lane.Lane.{Lane};
ghost use Rattle.ladder_items.specs.Ladder.{Ladder, IsAllowed};
ghost use Rattle.ladder_items.specs.Runs.{run_of};
ghost use Rattle.ladder_items.specs.Putting.{PutAll, SaysFailures};
ghost use Rattle.ladder_items.specs.World.{HaveRoom, NothingDue, turns_of};
ghost use Rattle.ladder_items.specs.Packed.{IsPacked, IsAlone, FaultSays};
ghost use Rattle.serial_run.specs.Answers.{IsAnswer, IsAnswered};
ghost use Rattle.serial_run.specs.Leaving.{AreLeftAtStops};
ghost use Rattle.serial_run.specs.OneThread.{IsCutAtOnce, StopsInOrder};

use crate::due::{RenditionAt, give_due};
use cutter::Spool;
use ingest::Lane;
use item_io::{Outlet, PIECE, READS, Source};
use ladder_items::{
    PackFault, Playlists, Report, Settings, first_lanes, first_playlists, have_stopped, is_allowed,
    report_of, standing,
};
use std::alloc::Global;

/// What was read of each rendition, and its playlists.
#[derive(Drop)]
struct Renditions {
    lanes: Vec<Lane>,
    playlists: Vec<Playlists>,
}

/// Packs the streams of all inputs, one for each rendition, on one thread.
///
/// Goes in turn over the renditions that aren't at their end, with one read of at most 18,800 bytes each. For each
/// segment it puts the segment, the media playlist and the I-frame playlist of its rendition, and the master playlist;
/// at a rendition's good end both playlists with an end. A fault of an input ends its rendition alone; the others go on
/// to their ends, and then the fault is told, of several that of the first rendition. After a failed put, and for want
/// of memory, the run stops at once.
///
/// An input of which 2^40 reads gave a byte is read no further: where its end hasn't come by then, ReadLimit is told.
pub fn pack_serial<S: Source, O: Outlet>(
    alloc: Global,
    sources: &mut Vec<S>,
    settings: &Settings,
    outlet: &mut O,
) -> Result<Report, PackFault>
    requires room { HaveRoom S.input READS sources.old.items }
    requires failures { O.output.failures outlet.old < 2 ^ 63 }
    ensures ok { IfOk result (IsPacked (run_of S.input O.output READS sources.old.items sources.new.items outlet.old outlet.new) settings.now) }
    ensures failures { OnOk result (O.output.failures outlet.new ≡ O.output.failures outlet.old) }
    ensures count { length sources.new.items ≡ length sources.old.items }
    ensures fault { IfErr result (FaultSays (run_of S.input O.output READS sources.old.items sources.new.items outlet.old outlet.new) settings.now) }
    ensures at_once { IfErr result (λ fault. (fault ≡ OutletFault) ⊎ (fault ≡ NoMemory) →
        IsCutAtOnce (run_of S.input O.output READS sources.old.items sources.new.items outlet.old outlet.new) settings.now) }
    ensures never_held { IfErr result (λ fault. (r n : ℕ) → fault ≢ Held r n) }
    ensures alone { IfOk result IsAlone }
    ensures left { OnOk result (All (λ source. S.input.is_left source ≡ true) sources.new.items) }
    ensures allowed { OnOk result (IsAllowed settings.now × (length sources.old.items ≡ length settings.now.renditions)) }
    ensures breach { IfErr result (λ fault. ((IsAllowed settings.now × (length sources.old.items ≡ length settings.now.renditions)) → ⊥) →
        (fault ≡ SettingsFault) × (sources.new.items ≡ sources.old.items) × PutAll O.output outlet.old outlet.new []) }
{
    pack_serial_reads(alloc, sources, settings, outlet, READS)
}

/// Packs as `pack_serial` does, with another limit of reads.
///
/// An input of which `reads` reads gave a byte is read no further: where its end hasn't come by then, ReadLimit is told.
pub fn pack_serial_reads<S: Source, O: Outlet>(
    alloc: Global,
    sources: &mut Vec<S>,
    settings: &Settings,
    outlet: &mut O,
    reads: u64,
) -> Result<Report, PackFault>
    requires least { 1 ≤ reads }
    requires most { reads ≤ READS }
    requires room { HaveRoom S.input reads sources.old.items }
    requires failures { O.output.failures outlet.old < 2 ^ 63 }
    ensures ok { IfOk result (IsPacked (run_of S.input O.output reads sources.old.items sources.new.items outlet.old outlet.new) settings.now) }
    ensures failures { OnOk result (O.output.failures outlet.new ≡ O.output.failures outlet.old) }
    ensures count { length sources.new.items ≡ length sources.old.items }
    ensures fault { IfErr result (FaultSays (run_of S.input O.output reads sources.old.items sources.new.items outlet.old outlet.new) settings.now) }
    ensures at_once { IfErr result (λ fault. (fault ≡ OutletFault) ⊎ (fault ≡ NoMemory) →
        IsCutAtOnce (run_of S.input O.output reads sources.old.items sources.new.items outlet.old outlet.new) settings.now) }
    ensures never_held { IfErr result (λ fault. (r n : ℕ) → fault ≢ Held r n) }
    ensures alone { IfOk result IsAlone }
    ensures left { OnOk result (All (λ source. S.input.is_left source ≡ true) sources.new.items) }
    ensures allowed { OnOk result (IsAllowed settings.now × (length sources.old.items ≡ length settings.now.renditions)) }
    ensures breach { IfErr result (λ fault. ((IsAllowed settings.now × (length sources.old.items ≡ length settings.now.renditions)) → ⊥) →
        (fault ≡ SettingsFault) × (sources.new.items ≡ sources.old.items) × PutAll O.output outlet.old outlet.new []) }
{
    if !is_allowed(settings, sources.len()) {
        return Err(PackFault::Settings);
    }
    let lanes = first_lanes(alloc, settings)?;
    let playlists = first_playlists(alloc, settings)?;
    let mut renditions = Renditions { lanes, playlists };
    turns(alloc, sources, outlet, settings, reads, &mut renditions)?;
    answer_of(alloc, &renditions.lanes, &renditions.playlists)
}

/// The report of a run that has given everything, or the first standing fault if not each rendition came to its good end.
fn answer_of(alloc: Global, lanes: &[Lane], playlists: &[Playlists]) -> Result<Report, PackFault>
    requires each { length lanes.now ≡ length playlists.now }
    requires going { All (λ shown. shown.ended ≡ false) playlists.now }
    requires few { (ladder : Ladder) × IsAllowed ladder × (length playlists.now ≡ length ladder.renditions) }
    ensures ok { IfOk result (IsAnswer lanes.now playlists.now) }
    ensures fault { IfErr result (IsAnswered lanes.now) }
{
    if let Some(fault) = standing(lanes) {
        return Err(fault);
    }
    Ok(report_of(alloc, lanes, playlists)?)
}

/// Gives each rendition its turns, until none goes on or one has had all its reads.
fn turns<S: Source, O: Outlet>(
    alloc: Global,
    sources: &mut Vec<S>,
    outlet: &mut O,
    settings: &Settings,
    reads: u64,
    renditions: &mut Renditions,
) -> Result<(), PackFault>
    requires failures { O.output.failures outlet.old < 2 ^ 63 }
    requires allowed { IsAllowed settings.now }
    requires most { reads ≤ READS }
    requires room { HaveRoom S.input reads sources.old.items }
    requires start { NothingDue (run_of S.input O.output reads sources.old.items sources.old.items outlet.old outlet.old) settings.now
        (turns_of 0 0) renditions.old.lanes.items renditions.old.playlists.items }
    requires going { (k : ℕ) (lane : Lane) → slice_get renditions.old.lanes.items k ≡ Some lane → lane.stop ≡ None }
    ensures ok { OnOk result ((rounds : ℕ) × (rounds ≤ reads) ×
        NothingDue (run_of S.input O.output reads sources.old.items sources.new.items outlet.old outlet.new) settings.now
        (turns_of rounds 0) renditions.new.lanes.items renditions.new.playlists.items
        × ((k : ℕ) (lane : Lane) → slice_get renditions.new.lanes.items k ≡ Some lane → lane.stop ≡ None → rounds ≡ reads)) }
    ensures left { OnOk result (AreLeftAtStops S.input sources.old.items sources.new.items renditions.new.lanes.items) }
    ensures err { OnErr result (IsCutAtOnce (run_of S.input O.output reads sources.old.items sources.new.items outlet.old outlet.new) settings.now) }
    ensures order { OnErr result (StopsInOrder (run_of S.input O.output reads sources.old.items sources.new.items outlet.old outlet.new) settings.now) }
    ensures failures { OnOk result (O.output.failures outlet.new ≡ O.output.failures outlet.old) }
    ensures fault { IfErr result (λ fault. SaysFailures fault (O.output.failures outlet.old) (O.output.failures outlet.new)) }
{
    let mut buffer = [0; PIECE];
    let mut spare = Spool::new(alloc);
    for _ in 0..reads {
        if have_stopped(&renditions.lanes) {
            return Ok(());
        }
        for r in 0..renditions.lanes.len() {
            let lane = &mut renditions.lanes[r];
            if lane.stop.is_some() {
                continue;
            }
            lane.turn(&mut sources[r], &mut buffer)?;
            let rendition = RenditionAt {
                settings,
                number: r,
            };
            give_due(
                alloc,
                outlet,
                rendition,
                lane,
                &mut spare,
                &mut renditions.playlists,
            )?;
        }
    }
    Ok(())
}
