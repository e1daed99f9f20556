ghost use Rattle.std.specs.Prelude.{◌≡◌, ◌<◌, ◌≤◌, ◌+◌, None, map, length, All, Decides};
ghost use Rattle.master_playlist.specs.Faults;
ghost use Rattle.media_playlist.specs.Gone.{IsSmall};
ghost use Rattle.ladder_items.specs.Ladder.{unmeasured, IsProgram, IsCutAllowed, HasAll, GoesOn, IsAllowed};
ghost use Rattle.ladder_items.specs.Ladder;
ghost use Rattle.ladder_items.specs.Shown.{AreNextRows};
ghost use Rattle.ladder_items.specs.declared.settings.TheConstants.{MOST_EARLIER};
ghost use Rattle.limits.specs.declared.TheConstants.{MOST_RENDITIONS as MOST};

use crate::earlier::follow;
use crate::settings::{Kind, MOST_EARLIER, Rendition, Settings};
use arrayvec::ArrayVec;
use cutter::CutSettings;
use limits::{
    LAST_SEGMENT, LEAST, MOST_FRAME, MOST_GAP, MOST_KEYS, MOST_PACKETS, MOST_QUEUE,
    MOST_RENDITIONS, MOST_TARGET, MOST_WINDOW, TICKS,
};
use master_playlist::{Variant, fault_of};
use media_playlist::{Gone, Row};
use segment_job::Keys;

/// A place for each rendition that there may be.
const PLACES: usize = MOST_RENDITIONS as usize;

/// Whether the settings are within their limits, the keys of each rendition hold its salt and begin behind what came before,
/// there are as many inputs as renditions, and a master playlist can list the renditions. It takes no memory.
pub fn is_allowed(settings: &Settings, inputs: usize) -> bool
    ensures { Decides result (IsAllowed settings.now × (inputs ≡ length settings.now.renditions)) }
{
    if inputs != settings.renditions.len() || !is_ladder(settings) || !is_cut(settings.cut) {
        return false;
    }
    if !hold_their_salts(&settings.renditions)
        || !go_on(settings.kind, settings.cut.target, &settings.renditions)
    {
        return false;
    }
    are_listable(&settings.renditions)
}

/// Whether the number of renditions, the window and the queue are within their limits.
fn is_ladder(settings: &Settings) -> bool
    ensures { Decides result (((LEAST ≤ length settings.now.renditions) × (length settings.now.renditions ≤ MOST_RENDITIONS))
        × ((LEAST ≤ settings.now.window) × (settings.now.window ≤ MOST_WINDOW))
        × ((LEAST ≤ settings.now.queue) × (settings.now.queue ≤ MOST_QUEUE))) }
{
    is_up_to(settings.renditions.len() as u64, MOST_RENDITIONS)
        && is_up_to(settings.window, MOST_WINDOW)
        && is_up_to(settings.queue, MOST_QUEUE)
}

/// Whether the keys of each rendition hold its salt.
fn hold_their_salts(renditions: &[Rendition]) -> bool
    ensures { Decides result (All (λ rendition. rendition.keys.salt ≡ rendition.salt) renditions.now) }
{
    renditions
        .iter()
        .all(|rendition| rendition.keys.salt() == rendition.salt)
}

/// Whether each rendition goes on from what came before.
fn go_on(kind: Kind, target: u64, renditions: &[Rendition]) -> bool
    ensures { Decides result (All (GoesOn kind target) renditions.now) }
{
    renditions
        .iter()
        .all(|rendition| goes_on(kind, target, rendition))
}

/// Whether a rendition goes on from what came before.
fn goes_on(kind: Kind, target: u64, rendition: &Rendition) -> bool
    ensures { Decides result (GoesOn kind target rendition.now) }
{
    let earlier = &rendition.earlier;
    if !begins_behind(kind, &rendition.keys, rendition.gone, earlier) {
        return false;
    }
    have_keys(earlier) && follow(target, rendition.gone.rows, earlier)
}

/// Whether the keys of rows are of those that a rendition may have.
fn have_keys(rows: &[Row]) -> bool
    ensures { Decides result (All (λ row. row.key < MOST_KEYS) rows.now) }
{
    rows.iter().all(|row| row.key < MOST_KEYS)
}

/// Whether keys begin behind what came before, which is within its limits.
fn begins_behind(kind: Kind, keys: &Keys, gone: Gone, earlier: &[Row]) -> bool
    ensures { Decides result ((keys.now.first ≡ gone.rows + length earlier.now) × (length earlier.now ≤ MOST_EARLIER)
        × (keys.now.first ≤ LAST_SEGMENT) × (gone.discontinuities + length earlier.now ≤ LAST_SEGMENT)
        × IsSmall gone × HasAll kind gone) }
{
    keys.number(0) == u128::from(gone.rows) + earlier.len() as u128
        && earlier.len() as u64 <= MOST_EARLIER
        && keys.number(0) <= u128::from(LAST_SEGMENT)
        && gone.discontinuities <= LAST_SEGMENT
        && gone.discontinuities + earlier.len() as u64 <= LAST_SEGMENT
        && gone.frames <= 1 << 126
        && has_all(kind, gone)
}

/// Whether nothing is gone of an event.
fn has_all(kind: Kind, gone: Gone) -> bool
    ensures { Decides result (HasAll kind gone) }
{
    match kind {
        Kind::Live => true,
        Kind::Event => gone.rows == 0 && gone.discontinuities == 0,
    }
}

/// Whether a cutter's settings are within their limits.
fn is_cut(cut: CutSettings) -> bool
    ensures { Decides result (IsCutAllowed cut) }
{
    is_program(cut.program)
        && is_up_to(cut.target, MOST_TARGET)
        && is_up_to(cut.segment, cut.target * TICKS)
        && is_up_to(cut.gap, MOST_GAP)
        && is_up_to(cut.frame, MOST_FRAME)
        && is_up_to(cut.most, MOST_PACKETS)
}

/// Whether a program may be asked for.
fn is_program(program: Option<u16>) -> bool
    ensures { Decides result (IsProgram program) }
{
    match program {
        Some(program) => u64::from(program) >= LEAST,
        None => true,
    }
}

fn is_up_to(value: u64, most: u64) -> bool
    ensures { Decides result ((LEAST ≤ value) × (value ≤ most)) }
{
    LEAST <= value && value <= most
}

/// Whether a master playlist can list these renditions, of which there aren't too many.
fn are_listable(renditions: &[Rendition]) -> bool
    requires { length renditions.now ≤ MOST }
    ensures { Decides result (Faults.fault_of (map unmeasured renditions.now) ≡ None) }
{
    fault_of(&unmeasured_variants(renditions)).is_none()
}

/// The renditions, of which nothing is measured yet.
fn unmeasured_variants(renditions: &[Rendition]) -> ArrayVec<Variant<'_>, PLACES>
    requires { length renditions.now ≤ MOST }
    ensures { result.items ≡ map unmeasured renditions.now }
{
    let mut variants = ArrayVec::new();
    for rendition in renditions {
        variants.push(unmeasured(rendition));
    }
    variants
}

/// A rendition of which nothing is measured yet.
fn unmeasured(rendition: &Rendition) -> Variant<'_>
    ensures { result ≡ Ladder.unmeasured rendition.now }
{
    Variant {
        name: &rendition.name,
        codecs: &rendition.codecs,
        width: rendition.width,
        height: rendition.height,
        peak: 0,
        average: 0,
        frame_peak: 0,
        frame_average: 0,
    }
}
