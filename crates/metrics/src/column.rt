//! The values of a metric, one for each rendition.

ghost use Rattle.std.specs.Prelude.{◌≡◌, ◌<◌, ◌≤◌, length, OnErr, OnOk};
ghost use Rattle.std.specs.Fmt.{decimal};
ghost use Rattle.std.specs.String.{string_bytes, string_capacity};
ghost use Rattle.playlist_text.specs.Numbers.{seconds};
ghost use Rattle.metrics.specs.Samples.{facts_of, value_of};

use crate::sample::Sample;
use playlist_text::{push_decimal, push_seconds};
use std::alloc::AllocError;

/// Which of a rendition's numbers a metric tells.
#[derive(Clone, Copy, Debug, PartialEq, Eq, Drop)]
pub(crate) enum Column {
    Segments,
    Time,
    Bytes,
    Peak,
    Average,
    Quiet,
    Ahead,
    Silent,
    Ended,
}

/// Writes a number in place of a text, without zeros in front.
pub(crate) fn write_decimal(text: &mut String, number: u128) -> Result<(), AllocError>
    ensures ok { OnOk result (string_bytes text.new ≡ decimal number) }
    ensures full { OnErr result (string_capacity text.old < length (decimal number)) }
    ensures capacity { string_capacity text.old ≤ string_capacity text.new }
{
    text.clear();
    push_decimal(text, number)
}

/// Writes microseconds in place of a text, as seconds with six digits behind the point.
pub(crate) fn write_seconds(text: &mut String, micros: u128) -> Result<(), AllocError>
    ensures ok { OnOk result (string_bytes text.new ≡ seconds micros) }
    ensures full { OnErr result (string_capacity text.old < length (seconds micros)) }
    ensures capacity { string_capacity text.old ≤ string_capacity text.new }
{
    text.clear();
    push_seconds(text, micros)
}

/// Writes the value of a rendition in place of a text.
pub(crate) fn write_value(
    text: &mut String,
    column: Column,
    sample: &Sample<'_>,
) -> Result<(), AllocError>
    ensures ok { OnOk result (string_bytes text.new ≡ value_of column (facts_of sample.now)) }
    ensures full { OnErr result (string_capacity text.old < length (value_of column (facts_of sample.now))) }
    ensures capacity { string_capacity text.old ≤ string_capacity text.new }
{
    match column {
        Column::Segments => write_decimal(text, u128::from(sample.segments)),
        Column::Time => write_seconds(text, sample.micros),
        Column::Bytes => write_decimal(text, sample.bytes),
        Column::Peak => write_decimal(text, u128::from(sample.peak)),
        Column::Average => write_decimal(text, u128::from(sample.average)),
        Column::Quiet => write_seconds(text, sample.quiet),
        Column::Ahead => write_decimal(text, u128::from(sample.ahead)),
        Column::Silent => write_seconds(text, sample.silent),
        Column::Ended => {
            if sample.ended {
                write_decimal(text, 1)
            } else {
                write_decimal(text, 0)
            }
        }
    }
}
