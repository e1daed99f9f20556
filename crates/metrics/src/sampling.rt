//! The samples of all renditions.

ghost use Rattle.std.specs.Prelude.{◌≡◌, [], map, option_map, length, get_or, IfOk, IsOk};
ghost use Rattle.std.specs.List.{range_with_len};
ghost use Rattle.std.specs.String.{string_bytes};
ghost use Rattle.metrics.specs.Told.{told_of, told_at};
ghost use Rattle.metrics.specs.Samples.{facts_of};

use crate::glance::Glance;
use crate::known::{InputSample, Known};
use crate::sample::Sample;
use crate::seen::Sighting;
use live_board::Totals;
use std::alloc::{AllocError, Global};

/// What no segments are together.
const NO_TOTALS: Totals = Totals {
    micros: 0,
    bytes: 0,
    peak: 0,
    average: 0,
};

/// What was seen of a rendition that wasn't looked at.
const UNSEEN: Sighting = Sighting { count: 0, at: 0 };

/// An input of which nothing came yet, and for which nobody waits.
const NO_INPUT: InputSample = InputSample {
    ahead: 0,
    silent: 0,
};

/// The sample of rendition `r`.
#[tactic(auto, unfolding(crate::specs::Told::told_of))]
fn sample<'a>(name: &'a str, glance: &Glance, known: Known<'_>, now: u128, r: usize) -> Sample<'a>
    ensures { facts_of result ≡ told_of name.now glance.now known.entry now r }
{
    let totals = glance.totals.get(r).copied().unwrap_or(NO_TOTALS);
    let seen = known.seen.get(r).copied().unwrap_or(UNSEEN);
    let input = known.inputs.get(r).copied().unwrap_or(NO_INPUT);
    Sample {
        name,
        segments: glance.counts.get(r).copied().unwrap_or(0),
        micros: totals.micros,
        bytes: totals.bytes,
        peak: totals.peak,
        average: totals.average,
        quiet: now.saturating_sub(seen.at),
        ahead: input.ahead,
        silent: input.silent,
        ended: glance.ended.get(r).copied().unwrap_or(false),
        fault: known.faults.get(r).copied().unwrap_or(None),
    }
}

/// The samples of renditions of these names, now: their numbers as a board showed them, and what is known of them besides.
/// Times are in microseconds of one clock.
pub fn samples<'a>(
    alloc: Global,
    names: &[&'a str],
    glance: &Glance,
    known: Known<'_>,
    now: u128,
) -> Result<Vec<Sample<'a>>, AllocError>
    ensures ok { IfOk result (λ samples. map facts_of samples.items ≡
        map (told_at (map (λ t. t.now) names.now) glance.now known.entry now) (range_with_len 0 (length names.now))) }
    ensures none { names.now ≡ [] → IsOk result }
{
    let mut samples = Vec::new(alloc);
    for r in 0..names.len() {
        let name = &names[r];
        samples.push(sample(*name, glance, known, now, r))?;
    }
    Ok(samples)
}
