ghost use Rattle.std.specs.Prelude.{◌≡◌, ◌<◌, ◌^◌, [], ◌++◌, ℕ, List, true, false, length, IsOk, IfErr, OnOk, OnErr};
ghost use Rattle.ingest.specs.Lanes.{is_good};
ghost use Rattle.ingest.specs.Streams.{HasNoneOpen};
ghost use Rattle.ladder_items.specs.Ladder.{IsAllowed};
ghost use Rattle.ladder_items.specs.Items.{Part, shown_all};
ghost use Rattle.ladder_items.specs.Weave.{after_all, blocks};
ghost use Rattle.ladder_items.specs.Giving.{AreNextPlans, rows};
ghost use Rattle.ladder_items.specs.Putting.{PutAll, PutFewer, PutSome, SaysFailures};
ghost use Rattle.serial_run.specs.Dues.{due};
ghost use Rattle.serial_run.specs.Leaving.{LeavesClosed, LeavesDue, turned_out};

use cutter::Spool;
use ingest::{Intake, Lane};
use item_io::Outlet;
use ladder_items::{PackFault, Playlists, Settings, give_end, give_segments};
use std::alloc::{AllocError, Global};
use std::mem;

/// A rendition of the settings, by its number.
#[derive(Clone, Copy)]
pub struct RenditionAt<'s> {
    pub settings: &'s Settings,
    pub number: usize,
}

/// Gives all segments that a rendition has closed, and behind them its last playlists where it came to a good end.
///
/// Its spool is turned out against the spare one, which is the full one then.
pub fn give_due<O: Outlet>(
    alloc: Global,
    outlet: &mut O,
    rendition: RenditionAt<'_>,
    lane: &mut Lane,
    spare: &mut Spool,
    playlists: &mut Vec<Playlists>,
) -> Result<(), PackFault>
    requires failures { O.output.failures outlet.old < 2 ^ 63 }
    requires allowed { IsAllowed rendition.settings.now }
    requires next { (parts : List Part) × AreNextPlans rendition.settings.now rendition.number parts playlists.old.items lane.old.intake.filled }
    ensures ok { OnOk result ((parts : List Part) →
        AreNextPlans rendition.entry.settings.now rendition.entry.number parts playlists.old.items lane.old.intake.filled →
        PutAll O.output outlet.old outlet.new (blocks rendition.entry.settings.now parts (due rendition.entry.number lane.old))
        × (playlists.new.items ≡ shown_all rendition.entry.settings.now (after_all parts (due rendition.entry.number lane.old)))) }
    ensures err { OnErr result ((parts : List Part) →
        AreNextPlans rendition.entry.settings.now rendition.entry.number parts playlists.old.items lane.old.intake.filled →
        PutSome O.output outlet.old outlet.new (blocks rendition.entry.settings.now parts (due rendition.entry.number lane.old))) }
    ensures left { OnErr result ((parts : List Part) →
        AreNextPlans rendition.entry.settings.now rendition.entry.number parts playlists.old.items lane.old.intake.filled →
        PutFewer O.output outlet.old outlet.new (blocks rendition.entry.settings.now parts (due rendition.entry.number lane.old))) }
    ensures stopped { OnErr result ((parts : List Part) →
        AreNextPlans rendition.entry.settings.now rendition.entry.number parts playlists.old.items lane.old.intake.filled →
        LeavesDue O.output outlet.old outlet.new rendition.entry.settings.now rendition.entry.number parts
        lane.old lane.new playlists.old.items playlists.new.items) }
    ensures stop { lane.new.stop ≡ lane.old.stop }
    ensures intake { OnOk result (lane.new.intake ≡ turned_out lane.old.intake) }
    ensures failures { OnOk result (O.output.failures outlet.new ≡ O.output.failures outlet.old) }
    ensures fault { IfErr result (λ fault. SaysFailures fault (O.output.failures outlet.old) (O.output.failures outlet.new)) }

    // Where nothing is due, nothing fails.
    ensures none { lane.old.intake.filled ≡ [] → is_good lane.old.stop ≡ false → IsOk result }
{
    give_closed(alloc, outlet, rendition, &mut lane.intake, spare, playlists)?;
    if !lane.is_good() {
        return Ok(());
    }
    give_end(outlet, rendition.settings, rendition.number, playlists)?;
    Ok(())
}

/// Gives the segments that are closed in the spool of a rendition, if there are any.
fn give_closed<O: Outlet>(
    alloc: Global,
    outlet: &mut O,
    rendition: RenditionAt<'_>,
    intake: &mut Intake,
    spare: &mut Spool,
    playlists: &mut Vec<Playlists>,
) -> Result<(), PackFault>
    requires failures { O.output.failures outlet.old < 2 ^ 63 }
    requires allowed { IsAllowed rendition.settings.now }
    requires next { (parts : List Part) × AreNextPlans rendition.settings.now rendition.number parts playlists.old.items intake.old.filled }
    ensures ok { OnOk result ((parts : List Part) →
        AreNextPlans rendition.entry.settings.now rendition.entry.number parts playlists.old.items intake.old.filled →
        PutAll O.output outlet.old outlet.new (blocks rendition.entry.settings.now parts (rows rendition.entry.number intake.old.filled))
        × (playlists.new.items ≡ shown_all rendition.entry.settings.now (after_all parts (rows rendition.entry.number intake.old.filled)))) }
    ensures err { OnErr result ((parts : List Part) →
        AreNextPlans rendition.entry.settings.now rendition.entry.number parts playlists.old.items intake.old.filled →
        PutSome O.output outlet.old outlet.new (blocks rendition.entry.settings.now parts (rows rendition.entry.number intake.old.filled))) }
    ensures left { OnErr result ((parts : List Part) →
        AreNextPlans rendition.entry.settings.now rendition.entry.number parts playlists.old.items intake.old.filled →
        PutFewer O.output outlet.old outlet.new (blocks rendition.entry.settings.now parts (rows rendition.entry.number intake.old.filled))) }
    ensures stopped { OnErr result ((parts : List Part) →
        AreNextPlans rendition.entry.settings.now rendition.entry.number parts playlists.old.items intake.old.filled →
        LeavesClosed O.output outlet.old outlet.new rendition.entry.settings.now rendition.entry.number parts
        intake.old intake.new playlists.old.items playlists.new.items) }
    ensures intake { OnOk result (intake.new ≡ turned_out intake.old) }
    ensures failures { OnOk result (O.output.failures outlet.new ≡ O.output.failures outlet.old) }
    ensures fault { IfErr result (λ fault. SaysFailures fault (O.output.failures outlet.old) (O.output.failures outlet.new)) }
    ensures none { intake.old.filled ≡ [] → IsOk result }
{
    if intake.plans() == 0 {
        return Ok(());
    }
    turn_out(alloc, intake, spare)?;
    let RenditionAt { settings, number } = rendition;
    give_segments(alloc, outlet, settings, number, spare, playlists)?;
    Ok(())
}

/// Turns out the spool of an intake, against the spare one.
fn turn_out(alloc: Global, intake: &mut Intake, spare: &mut Spool) -> Result<(), AllocError>
    ensures full { OnOk result (spare.new ≡ intake.old.filled) }
    ensures turned { OnOk result (intake.new ≡ turned_out intake.old) }

    // For want of memory the intake goes on as it was.
    ensures kept { OnErr result (intake.new ≡ intake.old) }
    ensures spare { OnErr result (spare.new ≡ []) }
    ensures ended { intake.old.ended ≡ true → IsOk result }
    ensures none { intake.old.ended ≡ false → HasNoneOpen intake.old → IsOk result }
{
    let empty = mem::replace(spare, Spool::new(alloc));
    match intake.swap(empty) {
        Ok(full) => {
            *spare = full;
            Ok(())
        }
        Err(_) => Err(AllocError),
    }
}
