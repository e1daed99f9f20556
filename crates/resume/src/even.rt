//! The numbers of discontinuities in the renditions of a ladder.

ghost use Rattle.std.specs.Prelude.{◌≡◌, ◌<◌, ℕ, Option, Some, IfOk, IfErr, Decides, slice_get};
ghost use Rattle.resume.specs.Restoring.{RestoredValue};
ghost use Rattle.resume.specs.Evening;
ghost use Rattle.resume.specs.Evening.{breaks, most_with, GoTogether, AreEven, IsUneven};

use crate::restored::Restored;
use ladder_items::Kind;
use thiserror::Error;

/// The renditions of an event had different numbers of discontinuities: this one, counted from 0, is the first that doesn't go
/// with one before it.
#[derive(Clone, Copy, Debug, PartialEq, Eq, Error)]
#[error("rendition {0} had another number of discontinuities")]
pub struct UnevenFault(pub usize);

/// The most discontinuities that a rendition of a ladder had so far; None where none has playlists. In an event either none has
/// playlists, or all have and had as many. In a live ladder a rendition may have had fewer: see `go_on_beside`.
pub fn most_breaks(kind: Kind, found: &[Option<Restored>]) -> Result<Option<u128>, UnevenFault>
    ensures even { IfOk result (λ _. AreEven kind found.now) }
    ensures count { IfOk result (λ most. most ≡ Evening.most_breaks found.now) }
    ensures err { IfErr result (λ fault. IsUneven kind found.now fault.0) }
{
    for r in 0..found.len() {
        for i in 0..r {
            if !go_together(kind, &found[i], &found[r]) {
                return Err(UnevenFault(r));
            }
        }
    }
    Ok(most_of(found))
}

/// Whether two renditions of a ladder go on together.
fn go_together(kind: Kind, a: &Option<Restored>, b: &Option<Restored>) -> bool
    ensures { Decides result (GoTogether kind a.now b.now) }
{
    match (kind, a, b) {
        (Kind::Live, _, _) => true,
        (Kind::Event, Some(a), Some(b)) => breaks_of(a) == breaks_of(b),
        (Kind::Event, None, None) => true,
        (Kind::Event, _, _) => false,
    }
}

/// How many discontinuities a rendition had so far.
pub fn breaks_of(restored: &Restored) -> u128
    ensures { result ≡ breaks restored.now }
{
    let earlier = restored
        .earlier
        .iter()
        .filter(|row| row.discontinuity)
        .count();
    u128::from(restored.gone.discontinuities) + earlier as u128
}

/// The most that one of them had.
fn most_of(found: &[Option<Restored>]) -> Option<u128>
    ensures { result ≡ Evening.most_breaks found.now }
{
    let mut most = None;
    for k in 0..found.len() {
        most = with_one(&found[found.len() - 1 - k], most);
    }
    most
}

/// The most that some renditions had, and one more.
fn with_one(one: &Option<Restored>, most: Option<u128>) -> Option<u128>
    ensures { result ≡ most_with one.now most }
{
    match one {
        Some(restored) => Some(breaks_of(restored).max(most.unwrap_or(0))),
        None => most,
    }
}
