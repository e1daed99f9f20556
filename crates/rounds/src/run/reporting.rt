//! The answer of a run that has given everything: its report, or the fault that stands.

ghost use Rattle.std.specs.Prelude.{◌≡◌, ◌⊎◌, ◌+◌, ◌<◌, ◌≤◌, All, IfErr, IfOk, OnErr, false, length, map, sum};
ghost use Rattle.ingest.specs.declared.lane.Lane.{Lane};
ghost use Rattle.ladder_items.specs.Packed.{IsReport, gone_of};
ghost use Rattle.ladder_items.specs.declared.fault.PackFault.TheVariants.{NoMemory};
ghost use Rattle.ladder_items.specs.Standing.{IsFirstStanding, NoneStands};
ghost use Rattle.rounds.specs.Begun.{IsStanding, IsTold};
ghost use Rattle.rounds.specs.Showing.{counts_of};
ghost use Rattle.limits.specs.declared.TheConstants.{MOST_RENDITIONS};

use crate::run::books::Books;
use ingest::Lane;
use ladder_items::{PackFault, Playlists, Report, report_of, standing};
use std::alloc::{AllocError, Global};

/// The report of a run in which every input ended well.
fn report_with(
    alloc: Global,
    lanes: &[Lane],
    playlists: &[Playlists],
    books: Books,
) -> Result<Report, AllocError>
    requires each { length lanes.now ≡ length playlists.now }
    requires going { All (λ shown. shown.ended ≡ false) playlists.now }
    requires few { length playlists.now ≤ MOST_RENDITIONS }
    requires right { books.right ≤ sum (counts_of playlists.now) }
    ensures numbers { IfOk result (IsReport playlists.now (map (λ lane. gone_of lane.stop) lanes.now)) }
    ensures workers { IfOk result (λ report. report.workers.items ≡ books.workers.items) }
    ensures total { IfOk result (λ report. sum report.workers.items + report.own ≡ sum report.counts.items + report.thrown) }
    ensures own { IfOk result (λ report. report.own + books.right ≡ sum report.counts.items) }
    ensures thrown { IfOk result (λ report. report.thrown ≡ books.thrown) }
    ensures rounds { IfOk result (λ report. report.rounds ≡ books.rounds) }
    ensures scarce { OnErr result (0 < length playlists.now) }
{
    let Books {
        workers,
        right,
        thrown,
        rounds,
    } = books;
    let mut report = report_of(alloc, lanes, playlists)?;
    report.workers = workers;
    report.own -= right;
    report.thrown = thrown;
    report.rounds = rounds;
    Ok(report)
}

/// The report of a run that has given everything, or the first standing fault if not every input ended well.
pub fn answer_of(
    alloc: Global,
    lanes: &[Lane],
    playlists: &[Playlists],
    books: Books,
) -> Result<Report, PackFault>
    requires each { length lanes.now ≡ length playlists.now }
    requires going { All (λ shown. shown.ended ≡ false) playlists.now }
    requires few { length playlists.now ≤ MOST_RENDITIONS }
    requires right { books.right ≤ sum (counts_of playlists.now) }
    ensures ok { IfOk result (IsTold playlists.now lanes.now books) }
    ensures fault { IfErr result (λ fault. (fault ≡ NoMemory) ⊎ IsFirstStanding lanes.now fault) }
    ensures scarce { IfErr result (λ fault. IsStanding lanes.now fault ⊎ (NoneStands lanes.now × (0 < length playlists.now))) }
{
    if let Some(fault) = standing(lanes) {
        return Err(fault);
    }
    Ok(report_with(alloc, lanes, playlists, books)?)
}
