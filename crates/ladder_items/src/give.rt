ghost use Rattle.std.specs.Prelude.{◌≡◌, ◌+◌, ◌<◌, ◌^◌, [], ℕ, List, false, None, All, map, length, IsOk, IfOk, IfErr, IfSome, OnOk, OnErr};
ghost use Rattle.cutter.specs.Lent.{lent};
ghost use Rattle.segment_job.specs.Rotation.{number_of};
ghost use Rattle.segment_job.specs.Segments.{sealed_segment};
ghost use Rattle.master_playlist.specs.Faults.{fault_of};
ghost use Rattle.ladder_items.specs.declared.fault.PackFault.TheVariants.{NoMemory};
ghost use Rattle.ladder_items.specs.Ladder.{rendition_at, unmeasured, IsAllowed};
ghost use Rattle.ladder_items.specs.Items.{Part, shown_all};
ghost use Rattle.ladder_items.specs.Weave.{Row, End, after, after_all, block, blocks};
ghost use Rattle.ladder_items.specs.Giving.{IsGoing, IsNext, AreNextPlans, rows, block_of};
ghost use Rattle.ladder_items.specs.Putting.{PutAll, PutFewer, PutSome, SaysFailures};
ghost use Rattle.ladder_items.specs.Leaving.{LeavesRow, LeavesRows, TakesNoRow};

use crate::fault::PackFault;
use crate::playlists::Playlists;
use crate::put::{put_master, put_playlists, put_segment};
use crate::row::row_of;
use crate::settings::{Rendition, Settings};
use cutter::{PlanRef, Spool};
use item_io::Outlet;
use segment_job::{Keys, Sealed, seal_plan};
use std::alloc::{AllocError, Global};

/// Gives the segments of the plans of a spool, the next of rendition `r`, each with the playlists behind it.
pub fn give_segments<O: Outlet>(
    alloc: Global,
    outlet: &mut O,
    settings: &Settings,
    r: usize,
    spool: &Spool,
    playlists: &mut Vec<Playlists>,
) -> Result<(), PackFault>
    requires failures { O.output.failures outlet.old < 2 ^ 63 }
    requires allowed { IsAllowed settings.now }
    requires next { (parts : List Part) × AreNextPlans settings.now r parts playlists.old.items spool.now }
    ensures ok { OnOk result ((parts : List Part) → AreNextPlans settings.now r parts playlists.old.items spool.now →
        PutAll O.output outlet.old outlet.new (blocks settings.now parts (rows r spool.now))
        × (playlists.new.items ≡ shown_all settings.now (after_all parts (rows r spool.now)))) }
    ensures err { OnErr result ((parts : List Part) → AreNextPlans settings.now r parts playlists.old.items spool.now →
        PutSome O.output outlet.old outlet.new (blocks settings.now parts (rows r spool.now))) }
    ensures left { OnErr result ((parts : List Part) → AreNextPlans settings.now r parts playlists.old.items spool.now →
        PutFewer O.output outlet.old outlet.new (blocks settings.now parts (rows r spool.now))) }
    ensures stopped { OnErr result ((parts : List Part) → AreNextPlans settings.now r parts playlists.old.items spool.now →
        LeavesRows O.output outlet.old outlet.new settings.now r parts spool.now playlists.new.items) }
    ensures failures { OnOk result (O.output.failures outlet.new ≡ O.output.failures outlet.old) }
    ensures fault { IfErr result (λ fault. SaysFailures fault (O.output.failures outlet.old) (O.output.failures outlet.new)) }
    ensures none { spool.now ≡ [] → IsOk result }
{
    for i in 0..spool.plans() {
        let Some(plan) = spool.plan(i) else {
            continue;
        };
        give_segment(alloc, outlet, settings, r, plan, playlists)?;
    }
    Ok(())
}

/// Gives the last playlists of rendition `r`, which end.
pub fn give_end<O: Outlet>(
    outlet: &mut O,
    settings: &Settings,
    r: usize,
    playlists: &[Playlists],
) -> Result<(), PackFault>
    requires failures { O.output.failures outlet.old < 2 ^ 63 }
    requires rendition { r < length settings.now.renditions }
    requires within { r < length playlists.now }
    ensures ok { OnOk result ((parts : List Part) → IsGoing settings.now r parts playlists.now →
        PutAll O.output outlet.old outlet.new (block settings.now parts (End r))) }
    ensures err { OnErr result ((parts : List Part) → IsGoing settings.now r parts playlists.now →
        PutSome O.output outlet.old outlet.new (block settings.now parts (End r))) }
    ensures left { OnErr result ((parts : List Part) → IsGoing settings.now r parts playlists.now →
        PutFewer O.output outlet.old outlet.new (block settings.now parts (End r))) }
    ensures failures { OnOk result (O.output.failures outlet.new ≡ O.output.failures outlet.old) }
    ensures fault { IfErr result (λ fault. SaysFailures fault (O.output.failures outlet.old) (O.output.failures outlet.new)) }
{
    let rendition = rendition_of(settings, r);
    put_playlists(outlet, r, rendition, &playlists[r], true)?;
    Ok(())
}

/// Gives the next segment of rendition `r`, its playlists and the master playlist behind it.
fn give_segment<O: Outlet>(
    alloc: Global,
    outlet: &mut O,
    settings: &Settings,
    r: usize,
    plan: PlanRef<'_>,
    playlists: &mut Vec<Playlists>,
) -> Result<(), PackFault>
    requires failures { O.output.failures outlet.old < 2 ^ 63 }
    requires allowed { IsAllowed settings.now }
    requires next { (parts : List Part) × IsNext settings.now r parts playlists.old.items (lent plan) }
    ensures ok { OnOk result ((parts : List Part) → IsNext settings.now r parts playlists.old.items (lent plan.entry) →
        PutAll O.output outlet.old outlet.new (block settings.now parts (Row r (lent plan.entry)))
        × (playlists.new.items ≡ shown_all settings.now (after parts (Row r (lent plan.entry))))) }
    ensures err { OnErr result ((parts : List Part) → IsNext settings.now r parts playlists.old.items (lent plan.entry) →
        PutSome O.output outlet.old outlet.new (block settings.now parts (Row r (lent plan.entry)))) }
    ensures left { OnErr result ((parts : List Part) → IsNext settings.now r parts playlists.old.items (lent plan.entry) →
        PutFewer O.output outlet.old outlet.new (block settings.now parts (Row r (lent plan.entry)))) }
    ensures stopped { OnErr result ((parts : List Part) → IsNext settings.now r parts playlists.old.items (lent plan.entry) →
        LeavesRow O.output outlet.old outlet.new [] settings.now r parts (lent plan.entry) playlists.new.items) }
    ensures failures { OnOk result (O.output.failures outlet.new ≡ O.output.failures outlet.old) }
    ensures fault { IfErr result (λ fault. SaysFailures fault (O.output.failures outlet.old) (O.output.failures outlet.new)) }
{
    let sealed = seal(alloc, settings, r, plan)?;
    give_sealed(alloc, outlet, settings, r, sealed, playlists)?;
    Ok(())
}

/// Seals a segment of rendition `r`.
fn seal<'s>(
    alloc: Global,
    settings: &Settings,
    r: usize,
    plan: PlanRef<'s>,
) -> Result<Sealed<'s>, AllocError>
    requires { r < length settings.now.renditions }
    ensures { IfOk result (λ sealed. sealed ≡ sealed_segment (rendition_at settings.now r).keys (lent plan.entry)) }
{
    seal_plan(alloc, plan, keys_of(settings, r))
}

/// Gives the next segment of rendition `r`, which is sealed under the rendition's keys, its playlists and the master
/// playlist behind it. Returns the buffer that the segment lay in, if it did, in which another may be sealed.
pub fn give_sealed<O: Outlet>(
    alloc: Global,
    outlet: &mut O,
    settings: &Settings,
    r: usize,
    sealed: Sealed<'_>,
    playlists: &mut Vec<Playlists>,
) -> Result<Option<Vec<u8>>, PackFault>
    requires failures { O.output.failures outlet.old < 2 ^ 63 }
    requires allowed { IsAllowed settings.now }
    requires next { (parts : List Part) × IsNext settings.now r parts playlists.old.items sealed.plan }
    requires sealed { sealed ≡ sealed_segment (rendition_at settings.now r).keys sealed.plan }
    ensures ok { OnOk result ((parts : List Part) → IsNext settings.now r parts playlists.old.items sealed.entry.plan →
        PutAll O.output outlet.old outlet.new (block settings.now parts (Row r sealed.entry.plan))
        × (playlists.new.items ≡ shown_all settings.now (after parts (Row r sealed.entry.plan)))) }
    ensures err { OnErr result ((parts : List Part) → IsNext settings.now r parts playlists.old.items sealed.entry.plan →
        PutSome O.output outlet.old outlet.new (block settings.now parts (Row r sealed.entry.plan))) }
    ensures left { OnErr result ((parts : List Part) → IsNext settings.now r parts playlists.old.items sealed.entry.plan →
        PutFewer O.output outlet.old outlet.new (block settings.now parts (Row r sealed.entry.plan))) }
    ensures stopped { OnErr result ((parts : List Part) → IsNext settings.now r parts playlists.old.items sealed.entry.plan →
        LeavesRow O.output outlet.old outlet.new [] settings.now r parts sealed.entry.plan playlists.new.items) }
    ensures buffer { IfOk result (λ buffer. IfSome buffer (λ it. it.items ≡ sealed.entry.bytes)) }
    ensures failures { OnOk result (O.output.failures outlet.new ≡ O.output.failures outlet.old) }
    ensures fault { IfErr result (λ fault. SaysFailures fault (O.output.failures outlet.old) (O.output.failures outlet.new)) }
{
    add_row(alloc, settings, r, &sealed, playlists)?;
    let buffer = put_block(alloc, outlet, settings, r, sealed, playlists)?;
    Ok(buffer)
}

/// Puts a segment of rendition `r`, and the playlists with it. Returns the buffer that the segment lay in, if it did.
fn put_block<O: Outlet>(
    alloc: Global,
    outlet: &mut O,
    settings: &Settings,
    r: usize,
    sealed: Sealed<'_>,
    playlists: &[Playlists],
) -> Result<Option<Vec<u8>>, PackFault>
    requires failures { O.output.failures outlet.old < 2 ^ 63 }
    requires listable { fault_of (map unmeasured settings.now.renditions) ≡ None }
    requires each { length playlists.now ≡ length settings.now.renditions }
    requires within { r < length playlists.now }
    requires going { All (λ shown. shown.ended ≡ false) playlists.now }
    requires number { number_of (rendition_at settings.now r).keys sealed.plan.number < 2 ^ 64 }
    ensures ok { OnOk result (PutAll O.output outlet.old outlet.new (block_of settings.now r sealed.entry playlists.now)) }
    ensures err { OnErr result (PutSome O.output outlet.old outlet.new (block_of settings.now r sealed.entry playlists.now)) }
    ensures left { OnErr result (PutFewer O.output outlet.old outlet.new (block_of settings.now r sealed.entry playlists.now)) }
    ensures buffer { IfOk result (λ buffer. IfSome buffer (λ it. it.items ≡ sealed.entry.bytes)) }
    ensures fault { IfErr result (λ fault. SaysFailures fault (O.output.failures outlet.old) (O.output.failures outlet.new)) }
{
    let rendition = rendition_of(settings, r);
    let buffer = put_segment(alloc, outlet, r, rendition, sealed)?;
    put_playlists(outlet, r, rendition, &playlists[r], false)?;
    put_master(alloc, outlet, &settings.renditions, playlists)?;
    Ok(buffer)
}

/// Adds the row of the next segment of rendition `r`, which is sealed, to the rendition's playlists.
fn add_row(
    alloc: Global,
    settings: &Settings,
    r: usize,
    sealed: &Sealed<'_>,
    playlists: &mut Vec<Playlists>,
) -> Result<(), PackFault>
    requires allowed { IsAllowed settings.now }
    requires next { (parts : List Part) × IsNext settings.now r parts playlists.old.items sealed.now.plan }
    requires sealed { sealed.now ≡ sealed_segment (rendition_at settings.now r).keys sealed.now.plan }
    ensures shown { OnOk result ((parts : List Part) → IsNext settings.now r parts playlists.old.items sealed.now.plan →
        playlists.new.items ≡ shown_all settings.now (after parts (Row r sealed.now.plan))) }
    ensures stopped { OnErr result (TakesNoRow r playlists.old.items playlists.new.items) }
    ensures fault { IfErr result (λ fault. fault ≡ NoMemory) }
{
    cutter::frames_share_the_time();
    cutter::seconds_of_ticks_are_those_of_microseconds();
    let keys = keys_of(settings, r);
    let row = row_of(alloc, sealed, keys)?;
    playlists[r].push(row)?;
    Ok(())
}

/// The keys of rendition `r`.
fn keys_of(settings: &Settings, r: usize) -> &Keys
    requires { r < length settings.now.renditions }
    ensures { result.now ≡ (rendition_at settings.now r).keys }
{
    &rendition_of(settings, r).keys
}

/// Rendition `r`.
fn rendition_of(settings: &Settings, r: usize) -> &Rendition
    requires { r < length settings.now.renditions }
    ensures { result.now ≡ rendition_at settings.now r }
{
    &settings.renditions[r]
}
