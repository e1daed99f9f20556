//! How many segments are complete: those that were given, and those of the round that begins.

ghost use Rattle.std.specs.Prelude.{◌≡◌, ◌<◌, ◌^◌, length, sum_by};
ghost use Rattle.rounds.specs.Heralds.{complete_in};

use cutter::Spool;
use ladder_items::Playlists;

/// How many segments are complete as a round begins: those that were given, and those whose plans these spools hold.
pub fn complete_by(playlists: &[Playlists], full: &[Spool]) -> u128
    ensures { result ≡ complete_in playlists.now full.now }
{
    given_of(playlists) + closed_of(full)
}

/// How many segments were given of all renditions.
fn given_of(playlists: &[Playlists]) -> u128
    ensures is { result ≡ sum_by (λ shown. length shown.rows) playlists.now }
    ensures small { result < 2 ^ 127 }
{
    let mut all = 0;
    for rendition in playlists {
        all += u128::from(rendition.count());
    }
    all
}

/// How many plans these spools hold.
pub fn closed_of(full: &[Spool]) -> u128
    ensures is { result ≡ sum_by (λ plans. length plans) full.now }
    ensures small { result < 2 ^ 127 }
{
    let mut all = 0;
    for spool in full {
        all += spool.plans() as u128;
    }
    all
}
