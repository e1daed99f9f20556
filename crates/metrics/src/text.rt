//! The metrics of a run.

ghost use Rattle.std.specs.Prelude.{◌≡◌, ◌⊎◌, ◌+◌, ◌<◌, ◌≤◌, ◌++◌, length, map, vec_len, vec_capacity, Any, IfOk, OnErr, OnOk};
ghost use Rattle.std.specs.String.{string_capacity};
ghost use Rattle.std.specs.Fmt.{decimal};
ghost use Rattle.playlist_text.specs.Numbers.{seconds};
ghost use Rattle.metrics.specs.Metrics;
ghost use Rattle.metrics.specs.Metrics.{IsRunShort, metric, run_metric, start_text, segments_text, run_text, counters, rates, inputs, states, fault_text};
ghost use Rattle.metrics.specs.Samples.{IsShort, facts_of, value_of};

use crate::column::{Column, write_decimal, write_seconds};
use crate::family::{push_column, push_faults, push_head};
use crate::label::push;
use crate::page::Page;
use crate::sample::{RunSample, Sample};
use std::alloc::{AllocError, Global};

/// Appends a metric with a sample of each rendition.
#[tactic(auto, unfolding(crate::specs::Metrics::metric))]
fn push_metric(
    page: &mut Page,
    name: &str,
    kind: &str,
    help: &str,
    column: Column,
    samples: &[Sample<'_>],
) -> Result<(), AllocError>
    ensures ok { OnOk result (page.new.out.items ≡ page.old.out.items ++ metric name.now kind.now help.now column (map facts_of samples.now)) }
    ensures full { OnErr result (
        (vec_capacity page.old.out < vec_len page.old.out + length (metric name.now kind.now help.now column (map facts_of samples.now)))
        ⊎ Any (λ s. string_capacity page.old.text < length (value_of column (facts_of s))) samples.now) }
    ensures room { (vec_capacity page.old.out ≤ vec_capacity page.new.out) × (string_capacity page.old.text ≤ string_capacity page.new.text) }
{
    push_head(&mut page.out, name, kind, help)?;
    push_column(page, name, column, samples)
}

/// Appends when the run began.
#[tactic(auto, unfolding(crate::specs::Metrics::start_text))]
fn push_start(page: &mut Page, start: u128) -> Result<(), AllocError>
    ensures ok { OnOk result (page.new.out.items ≡ page.old.out.items ++ start_text start) }
    ensures full { OnErr result ((vec_capacity page.old.out < vec_len page.old.out + length (start_text start))
        ⊎ (string_capacity page.old.text < length (seconds start))) }
    ensures room { (vec_capacity page.old.out ≤ vec_capacity page.new.out) × (string_capacity page.old.text ≤ string_capacity page.new.text) }
{
    write_seconds(&mut page.text, start)?;
    let help = "When the run began, in seconds since 1970.";
    push_head(&mut page.out, "tshls_start_time_seconds", "gauge", help)?;
    push(&mut page.out, "tshls_start_time_seconds ")?;
    push(&mut page.out, &page.text)?;
    push(&mut page.out, "\n")
}

/// Appends a metric of the whole run.
#[tactic(auto, unfolding(crate::specs::Metrics::run_metric))]
fn push_run_metric(
    page: &mut Page,
    name: &str,
    kind: &str,
    help: &str,
    value: u128,
) -> Result<(), AllocError>
    ensures ok { OnOk result (page.new.out.items ≡ page.old.out.items ++ run_metric name.now kind.now help.now value) }
    ensures full { OnErr result ((vec_capacity page.old.out < vec_len page.old.out + length (run_metric name.now kind.now help.now value))
        ⊎ (string_capacity page.old.text < length (decimal value))) }
    ensures room { (vec_capacity page.old.out ≤ vec_capacity page.new.out) × (string_capacity page.old.text ≤ string_capacity page.new.text) }
{
    write_decimal(&mut page.text, value)?;
    push_head(&mut page.out, name, kind, help)?;
    push(&mut page.out, name)?;
    push(&mut page.out, " ")?;
    push(&mut page.out, &page.text)?;
    push(&mut page.out, "\n")
}

/// Appends how many segments wait, and how many were removed.
#[tactic(auto, unfolding(crate::specs::Metrics::segments_text))]
fn push_segments(page: &mut Page, waiting: u128, removed: u128) -> Result<(), AllocError>
    ensures ok { OnOk result (page.new.out.items ≡ page.old.out.items ++ segments_text waiting removed) }
    ensures full { OnErr result ((vec_capacity page.old.out < vec_len page.old.out + length (segments_text waiting removed))
        ⊎ (string_capacity page.old.text < length (decimal waiting)) ⊎ (string_capacity page.old.text < length (decimal removed))) }
    ensures room { (vec_capacity page.old.out ≤ vec_capacity page.new.out) × (string_capacity page.old.text ≤ string_capacity page.new.text) }
{
    let help = "Complete segments that are being encrypted and aren't listed yet.";
    push_run_metric(page, "tshls_waiting_segments", "gauge", help, waiting)?;
    let help = "Segments that were removed.";
    push_run_metric(
        page,
        "tshls_removed_segments_total",
        "counter",
        help,
        removed,
    )
}

/// Appends how the whole run stands.
#[tactic(auto, unfolding(crate::specs::Metrics::run_text))]
fn push_run(page: &mut Page, run: RunSample) -> Result<(), AllocError>
    ensures ok { OnOk result (page.new.out.items ≡ page.old.out.items ++ run_text run) }
    ensures full { OnErr result ((vec_capacity page.old.out < vec_len page.old.out + length (run_text run))
        ⊎ IsRunShort (string_capacity page.old.text) run) }
    ensures room { (vec_capacity page.old.out ≤ vec_capacity page.new.out) × (string_capacity page.old.text ≤ string_capacity page.new.text) }
{
    push_start(page, run.start)?;
    push_segments(page, run.waiting, run.removed)
}

/// Appends the faults of renditions.
#[tactic(auto, unfolding(crate::specs::Metrics::fault_text))]
fn push_fault_metric(page: &mut Page, samples: &[Sample<'_>]) -> Result<(), AllocError>
    ensures ok { OnOk result (page.new.out.items ≡ page.old.out.items ++ fault_text (map facts_of samples.now)) }
    ensures full { OnErr result (vec_capacity page.old.out < vec_len page.old.out + length (fault_text (map facts_of samples.now))) }
{
    let help = "1 for a rendition that ended by a fault.";
    push_head(&mut page.out, "tshls_fault", "gauge", help)?;
    push_faults(&mut page.out, "tshls_fault", samples)
}

/// Appends what only grows.
#[tactic(auto, unfolding(crate::specs::Metrics::counters))]
fn push_counters(page: &mut Page, samples: &[Sample<'_>]) -> Result<(), AllocError>
    ensures ok { OnOk result (page.new.out.items ≡ page.old.out.items ++ counters (map facts_of samples.now)) }
    ensures full { OnErr result ((vec_capacity page.old.out < vec_len page.old.out + length (counters (map facts_of samples.now)))
        ⊎ IsShort (string_capacity page.old.text) samples.now) }
    ensures room { (vec_capacity page.old.out ≤ vec_capacity page.new.out) × (string_capacity page.old.text ≤ string_capacity page.new.text) }
{
    let help = "Segments that were written and listed.";
    push_metric(
        page,
        "tshls_segments_total",
        "counter",
        help,
        Column::Segments,
        samples,
    )?;
    let help = "How long the segments last together.";
    push_metric(
        page,
        "tshls_stream_seconds_total",
        "counter",
        help,
        Column::Time,
        samples,
    )?;
    let help = "How many bytes the segments have together.";
    push_metric(
        page,
        "tshls_segment_bytes_total",
        "counter",
        help,
        Column::Bytes,
        samples,
    )
}

/// Appends the bit rates.
#[tactic(auto, unfolding(crate::specs::Metrics::rates))]
fn push_rates(page: &mut Page, samples: &[Sample<'_>]) -> Result<(), AllocError>
    ensures ok { OnOk result (page.new.out.items ≡ page.old.out.items ++ rates (map facts_of samples.now)) }
    ensures full { OnErr result ((vec_capacity page.old.out < vec_len page.old.out + length (rates (map facts_of samples.now)))
        ⊎ IsShort (string_capacity page.old.text) samples.now) }
    ensures room { (vec_capacity page.old.out ≤ vec_capacity page.new.out) × (string_capacity page.old.text ≤ string_capacity page.new.text) }
{
    let help = "The peak bit rate that the master playlist lists, in bits per second.";
    push_metric(
        page,
        "tshls_peak_bitrate",
        "gauge",
        help,
        Column::Peak,
        samples,
    )?;
    let help = "The average bit rate that the master playlist lists, in bits per second.";
    push_metric(
        page,
        "tshls_average_bitrate",
        "gauge",
        help,
        Column::Average,
        samples,
    )
}

/// Appends how inputs stand.
#[tactic(auto, unfolding(crate::specs::Metrics::inputs))]
fn push_inputs(page: &mut Page, samples: &[Sample<'_>]) -> Result<(), AllocError>
    ensures ok { OnOk result (page.new.out.items ≡ page.old.out.items ++ inputs (map facts_of samples.now)) }
    ensures full { OnErr result ((vec_capacity page.old.out < vec_len page.old.out + length (inputs (map facts_of samples.now)))
        ⊎ IsShort (string_capacity page.old.text) samples.now) }
    ensures room { (vec_capacity page.old.out ≤ vec_capacity page.new.out) × (string_capacity page.old.text ≤ string_capacity page.new.text) }
{
    let help = "Bytes of the input that were read ahead and aren't packed yet.";
    push_metric(
        page,
        "tshls_read_ahead_bytes",
        "gauge",
        help,
        Column::Ahead,
        samples,
    )?;
    let help = "For how long nothing came of the input.";
    push_metric(
        page,
        "tshls_input_silent_seconds",
        "gauge",
        help,
        Column::Silent,
        samples,
    )
}

/// Appends how renditions stand.
#[tactic(auto, unfolding(crate::specs::Metrics::states))]
fn push_states(page: &mut Page, samples: &[Sample<'_>]) -> Result<(), AllocError>
    ensures ok { OnOk result (page.new.out.items ≡ page.old.out.items ++ states (map facts_of samples.now)) }
    ensures full { OnErr result ((vec_capacity page.old.out < vec_len page.old.out + length (states (map facts_of samples.now)))
        ⊎ IsShort (string_capacity page.old.text) samples.now) }
    ensures room { (vec_capacity page.old.out ≤ vec_capacity page.new.out) × (string_capacity page.old.text ≤ string_capacity page.new.text) }
{
    let help = "For how long no segment came.";
    push_metric(
        page,
        "tshls_quiet_seconds",
        "gauge",
        help,
        Column::Quiet,
        samples,
    )?;
    let help = "Whether the end of the playlist was written.";
    push_metric(page, "tshls_ended", "gauge", help, Column::Ended, samples)
}

/// The metrics of a run and of its renditions, in the text format of Prometheus, version 0.0.4. The only refusal is want of
/// memory.
pub fn metrics_text(
    alloc: Global,
    run: RunSample,
    samples: &[Sample<'_>],
) -> Result<Vec<u8>, AllocError>
    ensures { IfOk result (λ text. text.items ≡ Metrics.metrics_text run (map facts_of samples.now)) }
{
    let mut page = Page {
        out: Vec::new(alloc),
        text: String::new(alloc),
    };
    push_run(&mut page, run)?;
    push_counters(&mut page, samples)?;
    push_rates(&mut page, samples)?;
    push_inputs(&mut page, samples)?;
    push_states(&mut page, samples)?;
    push_fault_metric(&mut page, samples)?;
    let Page { out, .. } = page;
    Ok(out)
}
