//! A ladder behind what its renditions go on behind.

ghost use Rattle.std.specs.Prelude.{◌≡◌, IfOk, IfErr, OnOk, MatchOption, length, map};
ghost use Rattle.channel_folder.specs.Reopened.{MayGo, gone_on};
ghost use Rattle.channel.specs.GoingOn;
ghost use Rattle.channel.specs.GoingOn.{behind_of, all_behind, AllGo, IsPastFault};

use crate::fault::ResumingFault;
use crate::kept::Kept;
use channel_folder::{Reopened, WhyNot};
use ladder_items::{Rendition, Settings};
use resume::{Restored, begin, go_on_beside};
use std::alloc::Global;

/// The settings of a ladder whose renditions go on behind these, rendition r behind the one at place r. One without playlists
/// begins beside the others, and one that had fewer discontinuities than another begins its list anew; that is Limit where a
/// number would be past the last.
pub(crate) fn ladder_behind(
    alloc: Global,
    settings: Settings,
    reopened: Reopened,
) -> Result<Settings, Kept<ResumingFault>>
    requires { length reopened.found ≡ length settings.renditions }
    ensures ok { IfOk result (λ behind. behind ≡ GoingOn.ladder_behind settings reopened) }
    ensures within { OnOk result (AllGo reopened.found reopened.most) }
    ensures err { IfErr result (λ kept. IsPastFault reopened.found reopened.most kept.fault) }
{
    let Reopened { found, most } = reopened;
    let mut behind = settings;
    each_behind(alloc, &mut behind.renditions, found, most)?;
    Ok(behind)
}

/// Each rendition goes on behind its own.
fn each_behind(
    alloc: Global,
    renditions: &mut [Rendition],
    found: Vec<Option<Restored>>,
    most: Option<u128>,
) -> Result<(), Kept<ResumingFault>>
    requires { length found.items ≡ length renditions.old }
    ensures ok { OnOk result (renditions.new ≡ all_behind renditions.old (map (gone_on most) found.items)) }
    ensures within { OnOk result (AllGo found.items most) }
    ensures err { IfErr result (λ kept. IsPastFault found.items most kept.fault) }
{
    let mut r = 0;
    for one in found {
        let Some(begun) = one_of(alloc, one, most) else {
            return Err(ResumingFault::Not(r, WhyNot::Limit).into());
        };
        go_on(&mut renditions[r], begun);
        r += 1;
    }
    Ok(())
}

/// What a rendition goes on behind. None where a number would be past the last.
fn one_of(alloc: Global, found: Option<Restored>, most: Option<u128>) -> Option<Restored>
    ensures { MatchOption result (¬ MayGo most found) (λ r. (r ≡ gone_on most found) × MayGo most found) }
{
    match found {
        Some(restored) => go_on_beside(alloc, restored, most),
        None => begin(alloc, most),
    }
}

/// The rendition goes on behind this.
fn go_on(rendition: &mut Rendition, one: Restored)
    ensures { rendition.new ≡ behind_of rendition.old one }
{
    let Restored {
        gone,
        earlier,
        next,
    } = one;
    rendition.keys.begin_at(next);
    rendition.gone = gone;
    rendition.earlier = earlier;
}
