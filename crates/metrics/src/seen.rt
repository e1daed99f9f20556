//! When a rendition's last segment was seen first.

ghost use Rattle.std.specs.Prelude.{◌≡◌, [], map, length, get_or, IfOk, IsOk};
ghost use Rattle.std.specs.List.{range_with_len};
ghost use Rattle.metrics.specs.Seens;
ghost use Rattle.metrics.specs.Seens.{again_at};

use std::alloc::{AllocError, Global};

/// How many segments a rendition had, and when they were seen to be so many.
#[derive(Clone, Copy, Debug, PartialEq, Eq, Drop)]
pub struct Sighting {
    pub count: u64,
    /// In microseconds of any clock.
    pub at: u128,
}

/// What was seen of rendition `r`, once it's seen again with its count of these.
fn again(seen: &Sighting, counts: &[u64], now: u128, r: usize) -> Sighting
    ensures { result ≡ Seens.again seen.now (get_or counts.now r 0) now }
{
    let count = counts.get(r).copied().unwrap_or(0);
    if count == seen.count {
        *seen
    } else {
        Sighting { count, at: now }
    }
}

/// What was seen of each rendition, once they are seen again with these counts.
pub fn seen_again(
    alloc: Global,
    seen: &[Sighting],
    counts: &[u64],
    now: u128,
) -> Result<Vec<Sighting>, AllocError>
    ensures ok { IfOk result (λ next. next.items ≡ map (again_at seen.now counts.now now) (range_with_len 0 (length seen.now))) }
    ensures none { seen.now ≡ [] → IsOk result }
{
    let mut next = Vec::new(alloc);
    for r in 0..seen.len() {
        next.push(again(&seen[r], counts, now, r))?;
    }
    Ok(next)
}
