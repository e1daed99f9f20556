//! A rendition begins beside others, or goes on beside them.

ghost use Rattle.std.specs.Prelude.{◌≡◌, ◌+◌, ◌≤◌, [], MatchOption};
ghost use Rattle.limits.specs.declared.TheConstants.{LAST_SEGMENT};
ghost use Rattle.media_playlist.specs.Listed.{frame_count};
ghost use Rattle.resume.specs.Evening;
ghost use Rattle.resume.specs.Evening.{anew, beside, gone_at_first, MayBeAnew, MayGoBeside};

use crate::even::breaks_of;
use crate::restored::Restored;
use ladder_items::{Gone, Row};
use limits::LAST_SEGMENT;
use std::alloc::Global;

/// What a rendition without playlists begins behind, where one of the others had so many discontinuities, or none has
/// playlists: no segment, and one discontinuity more than the others. So its first segment has the discontinuity sequence number of their
/// next ones (RFC 8216, 6.2.4). None where that number is past the last.
pub fn begin(alloc: Global, most: Option<u128>) -> Option<Restored>
    ensures { MatchOption result
        (¬ ((gone_at_first most).discontinuities ≤ LAST_SEGMENT))
        (λ begun. ((gone_at_first most).discontinuities ≤ LAST_SEGMENT)
        × (begun ≡ record { gone = gone_at_first most; earlier = []; next = 0 })) }
{
    let gone = match most {
        None => Gone::nothing(),
        Some(count) => Gone {
            rows: 0,
            frames: 0,
            discontinuities: next_break(count)?,
        },
    };
    Some(Restored {
        gone,
        earlier: Vec::new(alloc),
        next: 0,
    })
}

/// The number behind so many discontinuities.
fn next_break(count: u128) -> Option<u64>
    ensures { MatchOption result (¬ (count + 1 ≤ LAST_SEGMENT)) (λ next. (next ≡ count + 1) × (next ≤ LAST_SEGMENT)) }
{
    if count >= u128::from(LAST_SEGMENT) {
        return None;
    }
    Some(count as u64 + 1)
}

/// Whether a rendition had fewer discontinuities than another.
pub fn lags(restored: &Restored, most: Option<u128>) -> bool
    ensures { result ≡ Evening.lags most restored.now }
{
    match most {
        Some(most) => breaks_of(restored) < most,
        None => false,
    }
}

/// What a rendition with playlists goes on behind, where one of all renditions had the most discontinuities. One that had fewer
/// begins its list anew: none of its earlier segments is listed any more, and as many discontinuities came before its next one
/// as before the others'. So the next segments of all have one discontinuity sequence number (RFC 8216, 6.2.4). None where a
/// number would be past the last.
pub fn go_on_beside(alloc: Global, restored: Restored, most: Option<u128>) -> Option<Restored>
    ensures { MatchOption result
        (¬ MayGoBeside most restored)
        (λ it. MayGoBeside most restored × (it ≡ beside most restored)) }
{
    match most {
        Some(most) if breaks_of(&restored) < most => list_anew(alloc, restored, most),
        _ => Some(restored),
    }
}

/// The most I-frames that may have come before a list.
const MOST_FRAMES: u128 = 1 << 126;

/// A rendition whose list begins anew behind so many discontinuities.
fn list_anew(alloc: Global, restored: Restored, most: u128) -> Option<Restored>
    ensures { MatchOption result
        (¬ MayBeAnew most restored)
        (λ it. MayBeAnew most restored × (it ≡ anew most restored)) }
{
    let frames = restored
        .gone
        .frames
        .checked_add(frames_of(&restored.earlier))?;
    if most > u128::from(LAST_SEGMENT) || frames > MOST_FRAMES {
        return None;
    }
    Some(Restored {
        gone: Gone {
            rows: restored.next,
            frames,
            discontinuities: most as u64,
        },
        earlier: Vec::new(alloc),
        next: restored.next,
    })
}

/// How many I-frames rows have.
fn frames_of(rows: &[Row]) -> u128
    ensures { result ≡ frame_count rows.now }
{
    let mut frames = 0;
    for row in rows {
        frames += row.frames.len() as u128;
    }
    frames
}
