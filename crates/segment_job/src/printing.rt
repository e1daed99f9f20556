//! What is printed for debugging, whatever a formatter is asked for.

ghost use Rattle.std.specs.Fmt.{WritesStyledOnOk, formatter_spec, styled_decimal};
ghost use Rattle.segment_job.specs.Printed.{printed};

use std::fmt::{self, Display, Formatter, Write};

/// Writes two numbers by the formatter's options, a text before each, and that there is more.
pub(crate) fn write_numbers<W: Write>(
    f: &mut Formatter<W>,
    name: &str,
    first: u64,
    between: &str,
    second: u64,
) -> fmt::Result
    ensures { WritesStyledOnOk W.write_str_gives f.old result (printed
        name.now (styled_decimal (formatter_spec f.old) first)
        between.now (styled_decimal (formatter_spec f.old) second)) f.new }
{
    f.write_str(name)?;
    Display::fmt(&first, f)?;
    f.write_str(between)?;
    Display::fmt(&second, f)?;
    f.write_str(", .. }")
}
