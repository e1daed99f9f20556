//! What a ladder's run gave, as a text.
ghost use Rattle.std.specs.Prelude.{length, ◌<◌, OnErr, ◌≡◌, map, IfOk};
ghost use Rattle.std.specs.String.{string_bytes};
ghost use Rattle.packing.specs.SummaryLines.{told_value};
ghost use Rattle.packing.specs.Summaries.{told_of, tolds_of, IsSummaryOf};

use crate::summary_text::{SummaryRow, sorted_lines};
use pipeline::{Rendition, Report, Settings};
use std::alloc::{AllocError, Global};

/// The numbers of a rendition in a report; 0 where it has none.
fn summary_row<'a>(rendition: &'a Rendition, report: &Report, r: usize) -> SummaryRow<'a>
    ensures { told_value result ≡ told_of rendition.now report.now r }
{
    SummaryRow {
        name: &rendition.name,
        count: report.counts.get(r).copied().unwrap_or(0),
        micros: report.micros.get(r).copied().unwrap_or(0),
        peak: report.peaks.get(r).copied().unwrap_or(0),
        average: report.averages.get(r).copied().unwrap_or(0),
    }
}

/// Those of each rendition, in their order.
fn summary_rows<'a>(
    alloc: Global,
    renditions: &'a [Rendition],
    report: &Report,
) -> Result<Vec<SummaryRow<'a>>, AllocError>
    ensures ok { IfOk result (λ rows. map told_value rows.items ≡ tolds_of renditions.now report.now) }
    ensures scarce { OnErr result (0 < length renditions.now) }
{
    let mut rows = Vec::new(alloc);
    for r in 0..renditions.len() {
        rows.push(summary_row(&renditions[r], report, r))?;
    }
    Ok(rows)
}

/// One line a rendition, in byte order of their names: name, segments, seconds, peak and average bit rate.
pub fn summary(alloc: Global, settings: &Settings, report: &Report) -> Result<String, AllocError>
    ensures ok { IfOk result (λ text. IsSummaryOf settings.now report.now (string_bytes text)) }

    // A ladder without renditions wants no memory.
    ensures scarce { OnErr result (0 < length settings.now.renditions) }
{
    let rows = summary_rows(alloc, &settings.renditions, report)?;
    sorted_lines(alloc, rows)
}
