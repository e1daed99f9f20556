//! The lines that tell what a ladder's run gave.
ghost use Rattle.std.specs.Prelude.{length, ◌<◌, OnErr, ◌≡◌, ◌∷◌, ◌++◌, map, OnOk, IfOk};
ghost use Rattle.std.specs.List.{flat_map};
ghost use Rattle.std.specs.List.Sorted.{IsPermutation};
ghost use Rattle.std.specs.String.{string_bytes};
ghost use Rattle.std.specs.Fmt.{decimal};
ghost use Rattle.packing.specs.SummaryLines.{told_value, line_of, AreByName, AreLinesOf, KeepTies};

use playlist_text::{push_decimal, push_seconds};
use std::alloc::{AllocError, Global};

/// What the summary tells of a rendition.
#[derive(Clone, Copy, Drop)]
pub(crate) struct SummaryRow<'a> {
    pub name: &'a str,
    /// How many segments.
    pub count: u64,
    /// How long they last together, in microseconds.
    pub micros: u128,
    /// Their peak bit rate, in bits per second.
    pub peak: u64,
    /// Their average bit rate, in bits per second.
    pub average: u64,
}

/// Appends a blank and a number.
fn push_number(out: &mut String, number: u64) -> Result<(), AllocError>
    ensures { OnOk result (string_bytes out.new ≡ string_bytes out.old ++ 32 ∷ decimal number) }
{
    out.push(' ')?;
    push_decimal(out, u128::from(number))
}

/// Appends the line of a rendition.
fn push_row(out: &mut String, row: SummaryRow<'_>) -> Result<(), AllocError>
    ensures { OnOk result (string_bytes out.new ≡ string_bytes out.old ++ line_of (told_value row.entry)) }
{
    out.push_str(row.name)?;
    push_number(out, row.count)?;
    out.push(' ')?;
    push_seconds(out, row.micros)?;
    push_number(out, row.peak)?;
    push_number(out, row.average)?;
    out.push('\n')
}

/// Puts rows in byte order of their names; those of one name stay in their order. Up to 20 rows want no memory.
fn sort_by_name(rows: &mut Vec<SummaryRow<'_>>) -> Result<(), AllocError>
    ensures same { IsPermutation rows.old.items rows.new.items }
    ensures ascending { OnOk result (AreByName (map told_value rows.new.items)) }
    ensures len { length rows.new.items ≡ length rows.old.items }
    ensures stable { KeepTies rows.old.items rows.new.items }
    ensures err { OnErr result (rows.new.items ≡ rows.old.items) }
    ensures scarce { OnErr result (20 < length rows.old.items) }
{
    rows.sort_by_key(|row| row.name)?;
    Ok(())
}

/// The lines of rows, one behind another.
fn lines(alloc: Global, rows: &[SummaryRow<'_>]) -> Result<String, AllocError>
    ensures ok { IfOk result (λ text. string_bytes text ≡ flat_map line_of (map told_value rows.now)) }
    ensures scarce { OnErr result (0 < length rows.now) }
{
    let mut text = String::new(alloc);
    for row in rows {
        push_row(&mut text, *row)?;
    }
    Ok(text)
}

/// The lines of rows, in byte order of their names.
pub(crate) fn sorted_lines(alloc: Global, rows: Vec<SummaryRow<'_>>) -> Result<String, AllocError>
    ensures ok { IfOk result (λ text. AreLinesOf (map told_value rows.entry.items) (string_bytes text)) }
    ensures scarce { OnErr result (0 < length rows.entry.items) }
{
    let mut rows = rows;
    sort_by_name(&mut rows)?;
    lines(alloc, &rows)
}
