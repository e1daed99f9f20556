//! Counts that fall.

ghost use Rattle.std.specs.Prelude.{MatchOption};
ghost use Rattle.live_board.specs.Counts.{NoneFalls, IsBackwards};

/// The least rendition whose count falls, or else the smaller number of renditions where the numbers differ, with the
/// old count there, 0 where there is none.
pub fn backwards(old: &[u64], new: &[u64]) -> Option<(usize, u64)>
    ensures { MatchOption result (NoneFalls old.now new.now) (λ p. IsBackwards old.now new.now p.0 p.1) }
{
    let most = old.len().min(new.len());
    for rendition in 0..most {
        if new[rendition] < old[rendition] {
            return Some((rendition, old[rendition]));
        }
    }
    if old.len() == new.len() {
        return None;
    }
    let shown = if most < old.len() { old[most] } else { 0 };
    Some((most, shown))
}
