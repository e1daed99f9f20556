//! Where a packet goes: into the segment that goes on, or into a new one behind a cut.

ghost use Rattle.std.specs.Prelude.{◌≡◌, ◌≢◌, ◌+◌, ◌<◌, ◌≤◌, ◌*◌, ◌^◌, nat_lt, true, false, Some, None, IfOk, IfErr, OnErr, OnOk, option_copied};
ghost use Rattle.cutter.specs.Settings.{IsAllowed};
ghost use Rattle.cutter.specs.Segments;
ghost use Rattle.cutter.specs.SegmentState;
ghost use Rattle.cutter.specs.SegmentState.{added, begun, carried, sized, taken, finished, gives, faults, renewed, over, held_in, Places};
ghost use Rattle.cutter.specs.SegmentState.{Refuses, IsIdle, IsInRange, HasRange, LeavesAll, LeavesBody};
ghost use Rattle.cutter.specs.Segments.{AddsNothing};
ghost use Rattle.cutter.specs.declared.fault.CutFault.TheVariants.{NoMemory};
ghost use Rattle.limits.specs.declared.TheConstants.{MOST_FRAME};

use crate::fault::CutFault;
use crate::going::Going;
use crate::point::{Mark, Point};
use crate::reel::Reel;
use crate::settings::CutSettings;
use limits::{LAST_SEGMENT, TICKS};
use psi_tables::Tables;
use ts_packet::PACKET;

/// Places a packet, by the tables before it, and says whether it closed a segment: its plan then stands last in the reel.
pub(crate) fn place(
    rendition: usize,
    settings: CutSettings,
    reel: &mut Reel,
    going: &mut Option<Going>,
    tables: Option<&Tables>,
    mark: &Mark<'_>,
) -> Result<bool, CutFault>
    requires settings { IsAllowed settings }
    requires idle { IsIdle going.old reel.old }
    ensures ok { IfOk result (Places (taken rendition settings (held_in going.old reel.old)
        (option_copied tables.entry) mark.now.counted mark.now) reel.old reel.new going.new) }
    ensures err { IfErr result (Refuses (taken rendition settings (held_in going.old reel.old) (option_copied tables.entry) mark.now.counted mark.now)) }
    ensures kept { OnErr result (reel.new.plans ≡ reel.old.plans) }
    ensures none { LeavesAll going.old (option_copied tables.entry) mark.now.counted mark.now → IfErr result (λ e. e ≢ NoMemory) }
{
    let Some(tables) = tables else {
        return carry(settings, reel, going, mark);
    };
    let Some(stamp) = mark.counted else {
        return carry(settings, reel, going, mark);
    };
    let point = Point { stamp, tables };
    let Some(segment) = going else {
        *going = Some(first(settings, reel, &point, mark)?);
        return Ok(false);
    };
    if segment.is_cut(settings, &point) {
        cut(rendition, settings, reel, segment, &point, mark)?;
        return Ok(true);
    }
    grow(settings, reel, segment, mark)?;
    Ok(false)
}

/// The segment goes on with this packet, if there is one.
fn carry(
    settings: CutSettings,
    reel: &mut Reel,
    going: &mut Option<Going>,
    mark: &Mark<'_>,
) -> Result<bool, CutFault>
    requires settings { IsAllowed settings }
    requires idle { IsIdle going.old reel.old }
    ensures ok { IfOk result (Places (carried settings (held_in going.old reel.old) mark.now) reel.old reel.new going.new) }
    ensures err { IfErr result (Refuses (carried settings (held_in going.old reel.old) mark.now)) }
    ensures kept { OnErr result (reel.new.plans ≡ reel.old.plans) }
    ensures none { LeavesBody going.old mark.now → IfErr result (λ e. e ≢ NoMemory) }
{
    if let Some(segment) = going {
        grow(settings, reel, segment, mark)?;
    }
    Ok(false)
}

/// The segment goes on with this packet.
fn grow(
    settings: CutSettings,
    reel: &mut Reel,
    going: &mut Going,
    mark: &Mark<'_>,
) -> Result<(), CutFault>
    requires { IsAllowed settings }
    ensures ok { OnOk result (Places (sized settings (added (over going.old reel.old) mark.now) None) reel.old reel.new (Some going.new) false) }
    ensures err { IfErr result (Refuses (sized settings (added (over going.old reel.old) mark.now) None)) }
    ensures kept { OnErr result (reel.new.plans ≡ reel.old.plans) }
    ensures none { AddsNothing mark.now → IfErr result (λ e. e ≢ NoMemory) }
{
    if is_big(settings, reel.size_with(mark)) {
        return Err(CutFault::BigSegment(going.number()));
    }
    reel.add(going.start(), mark)?;
    going.see(mark);
    Ok(())
}

/// The first segment begins with this packet.
fn first(
    settings: CutSettings,
    reel: &mut Reel,
    point: &Point<'_>,
    mark: &Mark<'_>,
) -> Result<Going, CutFault>
    requires settings { IsAllowed settings }
    requires idle { IsIdle None reel.old }
    ensures ok { IfOk result (λ going. Places (begun settings point.now mark.now) reel.old reel.new (Some going) false) }
    ensures err { IfErr result (Refuses (begun settings point.now mark.now)) }
    ensures kept { OnErr result (reel.new.plans ≡ reel.old.plans) }
{
    if is_big(settings, reel.size_with(mark)) {
        return Err(CutFault::BigSegment(0));
    }
    let mut going = Going::first(point)?;
    reel.add(going.start(), mark)?;
    going.see(mark);
    Ok(going)
}

/// The segment ends here, and the next one begins with this packet.
fn cut(
    rendition: usize,
    settings: CutSettings,
    reel: &mut Reel,
    going: &mut Going,
    point: &Point<'_>,
    mark: &Mark<'_>,
) -> Result<(), CutFault>
    requires { IsAllowed settings }
    ensures ok { OnOk result (Places (SegmentState.cut rendition settings (over going.old reel.old) point.now mark.now) reel.old reel.new
        (Some going.new) true) }
    ensures err { IfErr result (Refuses (SegmentState.cut rendition settings (over going.old reel.old) point.now mark.now)) }
    ensures kept { OnErr result (reel.new.plans ≡ reel.old.plans) }
{
    let number = going.number();
    if is_long(settings, going.ticks(settings, Some(point.stamp))) {
        return Err(CutFault::LongSegment(number));
    }
    if number >= LAST_SEGMENT {
        return Err(CutFault::Limit);
    }
    renew(rendition, settings, reel, going, point, mark)
}

/// The next segment, behind the plan of the one before.
fn renew(
    rendition: usize,
    settings: CutSettings,
    reel: &mut Reel,
    going: &mut Going,
    point: &Point<'_>,
    mark: &Mark<'_>,
) -> Result<(), CutFault>
    requires settings { IsAllowed settings }
    requires number { going.old.number < 2 ^ 32 }
    ensures ok { OnOk result (Places (renewed rendition settings (over going.old reel.old) point.now mark.now) reel.old reel.new (Some going.new) true) }
    ensures err { IfErr result (Refuses (renewed rendition settings (over going.old reel.old) point.now mark.now)) }
    ensures kept { OnErr result (reel.new.plans ≡ reel.old.plans) }
{
    if is_big(settings, mark.bytes().len() as u64) {
        return Err(CutFault::BigSegment(going.number() + 1));
    }
    let mut next = going.next(point)?;
    next.see(mark);
    let label = going.pass(next, rendition, settings, point.stamp);
    reel.close(label, mark.bytes(), mark.pending(point.stamp))?;
    Ok(())
}

/// Whether a body of so many bytes has too many packets.
fn is_big(settings: CutSettings, size: u64) -> bool
    requires { IsAllowed settings }
    ensures { result ≡ nat_lt (PACKET * settings.most) size }
{
    PACKET as u64 * settings.most < size
}

/// Whether so many ticks, in whole seconds, are more than the target.
fn is_long(settings: CutSettings, ticks: u64) -> bool
    requires { ticks ≤ 2 ^ 63 + MOST_FRAME }
    ensures { result ≡ nat_lt settings.target (Segments.seconds ticks) }
{
    settings.target < (ticks + TICKS / 2) / TICKS
}

/// Closes the last segment, at the end of the stream: its plan then stands last in the reel.
pub(crate) fn finish(
    rendition: usize,
    settings: CutSettings,
    reel: &mut Reel,
    tables: Option<&Tables>,
    going: Option<Going>,
) -> Result<(), CutFault>
    requires { IsAllowed settings }
    ensures ok { OnOk result (Places (finished rendition settings (option_copied tables.entry) (held_in going reel.old)) reel.old reel.new None true) }
    ensures err { IfErr result (Refuses (finished rendition settings (option_copied tables.entry) (held_in going reel.old))) }
    ensures kept { OnErr result (reel.new.plans ≡ reel.old.plans) }
{
    let Some(going) = going else {
        return Err(if tables.is_none() {
            CutFault::NoProgram
        } else {
            CutFault::NoStart
        });
    };
    if is_long(settings, going.ticks(settings, None)) {
        return Err(CutFault::LongSegment(going.number()));
    }
    let label = going.label(rendition, settings, None);
    reel.close(label, &[], None)?;
    Ok(())
}
