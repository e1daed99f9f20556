//! Whether settings are within their limits, once they are made.
ghost use Rattle.std.specs.Prelude.{OnErr, OnOk};
ghost use Rattle.ladder_items.specs.Ladder.{IsAllowed};

use ladder_items::{Settings, is_allowed};

/// Settings aren't within their limits. It can't be let go, so that it's told as that.
pub(crate) struct OutsideLimits;

/// Looks at the settings. That takes no memory, so want of it can't be told in place of what is found.
pub(crate) fn within_limits(settings: &Settings) -> Result<(), OutsideLimits>
    ensures inside { OnOk result (IsAllowed settings.now) }
    ensures outside { OnErr result (¬ IsAllowed settings.now) }
{
    if !is_allowed(settings, settings.renditions.len()) {
        return Err(OutsideLimits);
    }
    Ok(())
}
