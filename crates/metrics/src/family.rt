//! A metric of all renditions.

ghost use Rattle.std.specs.String.{string_capacity};
ghost use Rattle.std.specs.Prelude.{◌≡◌, ◌≢◌, ◌⊎◌, ◌<◌, ◌≤◌, ◌+◌, ◌++◌, length, map, vec_len, vec_capacity, option_map, Any, IsOk, None, OnErr, OnOk};
ghost use Rattle.metrics.specs.Format.{head_text, sample_line, fault_line};
ghost use Rattle.metrics.specs.Samples.{facts_of, value_of, column_text, fault_of, faults_text};

use crate::column::{Column, write_value};
use crate::label::{push, push_label};
use crate::page::Page;
use crate::sample::Sample;
use std::alloc::AllocError;

/// Appends the lines before the samples of a metric: what help says of it, and its type.
#[tactic(auto, unfolding(crate::specs::Format::head_text))]
pub(crate) fn push_head(
    out: &mut Vec<u8>,
    name: &str,
    kind: &str,
    help: &str,
) -> Result<(), AllocError>
    ensures ok { OnOk result (out.new.items ≡ out.old.items ++ head_text name.now kind.now help.now) }
    ensures full { OnErr result (vec_capacity out.old < vec_len out.old + length (head_text name.now kind.now help.now)) }
    ensures capacity { vec_capacity out.old ≤ vec_capacity out.new }
{
    push(out, "# HELP ")?;
    push(out, name)?;
    push(out, " ")?;
    push(out, help)?;
    push(out, "\n# TYPE ")?;
    push(out, name)?;
    push(out, " ")?;
    push(out, kind)?;
    push(out, "\n")
}

/// Appends the sample of a rendition.
#[tactic(auto, unfolding(crate::specs::Format::sample_line))]
fn push_line(out: &mut Vec<u8>, name: &str, label: &str, value: &str) -> Result<(), AllocError>
    ensures ok { OnOk result (out.new.items ≡ out.old.items ++ sample_line name.now label.now value.now) }
    ensures full { OnErr result (vec_capacity out.old < vec_len out.old + length (sample_line name.now label.now value.now)) }
    ensures capacity { vec_capacity out.old ≤ vec_capacity out.new }
{
    push(out, name)?;
    push(out, "{rendition=\"")?;
    push_label(out, label)?;
    push(out, "\"} ")?;
    push(out, value)?;
    push(out, "\n")
}

/// Appends a sample of each rendition.
pub(crate) fn push_column(
    page: &mut Page,
    name: &str,
    column: Column,
    samples: &[Sample<'_>],
) -> Result<(), AllocError>
    ensures text { OnOk result (page.new.out.items ≡ page.old.out.items ++ column_text name.now column (map facts_of samples.now)) }
    ensures full { OnErr result ((vec_capacity page.old.out < vec_len page.old.out + length (column_text name.now column (map facts_of samples.now)))
        ⊎ Any (λ s. string_capacity page.old.text < length (value_of column (facts_of s))) samples.now) }
    ensures room { (vec_capacity page.old.out ≤ vec_capacity page.new.out) × (string_capacity page.old.text ≤ string_capacity page.new.text) }
{
    for sample in samples {
        write_value(&mut page.text, column, sample)?;
        push_line(&mut page.out, name, sample.name, &page.text)?;
    }
    Ok(())
}

/// Appends the sample of a rendition's fault.
#[tactic(auto, unfolding(crate::specs::Format::fault_line))]
fn push_fault(out: &mut Vec<u8>, name: &str, label: &str, fault: &str) -> Result<(), AllocError>
    ensures ok { OnOk result (out.new.items ≡ out.old.items ++ fault_line name.now label.now fault.now) }
    ensures full { OnErr result (vec_capacity out.old < vec_len out.old + length (fault_line name.now label.now fault.now)) }
    ensures capacity { vec_capacity out.old ≤ vec_capacity out.new }
{
    push(out, name)?;
    push(out, "{rendition=\"")?;
    push_label(out, label)?;
    push(out, "\",fault=\"")?;
    push_label(out, fault)?;
    push(out, "\"} 1\n")
}

/// Appends that of a rendition that has a fault.
fn push_fault_of(out: &mut Vec<u8>, name: &str, sample: &Sample<'_>) -> Result<(), AllocError>
    ensures told { OnOk result (out.new.items ≡ out.old.items ++ fault_of name.now (facts_of sample.now).name (facts_of sample.now).fault) }
    ensures none { (facts_of sample.now).fault ≡ None → IsOk result }
    ensures full { OnErr result (vec_capacity out.old < vec_len out.old + length (fault_of name.now (facts_of sample.now).name (facts_of sample.now).fault)) }
    ensures capacity { vec_capacity out.old ≤ vec_capacity out.new }
{
    match sample.fault {
        Some(fault) => push_fault(out, name, sample.name, fault),
        None => Ok(()),
    }
}

/// Appends a sample of each rendition that has a fault.
pub(crate) fn push_faults(
    out: &mut Vec<u8>,
    name: &str,
    samples: &[Sample<'_>],
) -> Result<(), AllocError>
    ensures text { OnOk result (out.new.items ≡ out.old.items ++ faults_text name.now (map facts_of samples.now)) }
    ensures scarce { OnErr result (Any (λ s. (facts_of s).fault ≢ None) samples.now) }
    ensures full { OnErr result (vec_capacity out.old < vec_len out.old + length (faults_text name.now (map facts_of samples.now))) }
{
    for sample in samples {
        push_fault_of(out, name, sample)?;
    }
    Ok(())
}
