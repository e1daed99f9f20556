//! How long a segment is kept at least where an earlier run is gone on from.
ghost use Rattle.std.specs.Prelude.{◌≡◌, ◌-◌, ◌*◌, ◌^◌, min};
ghost use Rattle.media_playlist.specs.Lengths;

/// How many microseconds a segment has to be kept beyond its own duration where an earlier run is gone on from: the longest
/// that a playlist of that run may have lasted, and a row more, so that it suffices for each row before. The target is in
/// seconds; that run listed at least `window` rows, or all of its rows, which were `listed` at most.
///
/// Where that is 2^64 or more it answers 2^64 - 1.
#[tactic(auto, using(crate::proofs::Saturating::least_is))]
pub fn least_behind(target: u64, window: u64, listed: u64) -> u64
    ensures { result ≡ min (Lengths.least_behind target window listed) (2 ^ 64 - 1) }
{
    let row = longest_row(target);
    let rows = window.max(listed);
    let sliding = rows.saturating_mul(row);
    let three = target.saturating_mul(3_000_000);
    let least = three.saturating_add(row);
    sliding.max(least).saturating_add(row)
}

/// The longest that a row lasts which rounds to the target.
fn longest_row(target: u64) -> u64
    ensures { result ≡ min (Lengths.longest_row target) (2 ^ 64 - 1) }
{
    target.saturating_mul(1_000_000).saturating_add(499_999)
}
