//! Appending to a text.

ghost use Rattle.std.specs.Prelude.{◌≡◌, ◌+◌, ◌<◌, ◌≤◌, ◌++◌, length, vec_len, vec_capacity, OnErr, OnOk};
ghost use Rattle.metrics.specs.Format.{escaped, escaped_byte};

use std::alloc::AllocError;

/// Appends a text.
pub(crate) fn push(out: &mut Vec<u8>, text: &str) -> Result<(), AllocError>
    ensures ok { OnOk result (out.new.items ≡ out.old.items ++ text.now) }
    ensures full { OnErr result (vec_capacity out.old < vec_len out.old + length text.now) }
    ensures capacity { vec_capacity out.old ≤ vec_capacity out.new }
{
    out.extend_from_slice(text.as_bytes())?;
    Ok(())
}

/// Appends a byte of a label's value.
fn push_byte(out: &mut Vec<u8>, byte: u8) -> Result<(), AllocError>
    ensures ok { OnOk result (out.new.items ≡ out.old.items ++ escaped_byte byte) }
    ensures full { OnErr result (vec_capacity out.old < vec_len out.old + length (escaped_byte byte)) }
    ensures capacity { vec_capacity out.old ≤ vec_capacity out.new }
{
    match byte {
        b'\\' => push(out, "\\\\"),
        b'"' => push(out, "\\\""),
        b'\n' => push(out, "\\n"),
        _ => {
            out.push(byte)?;
            Ok(())
        }
    }
}

/// Appends the value of a label: a backslash, a quotation mark and a line feed have a backslash before them.
pub(crate) fn push_label(out: &mut Vec<u8>, text: &str) -> Result<(), AllocError>
    ensures ok { OnOk result (out.new.items ≡ out.old.items ++ escaped text.now) }
    ensures full { OnErr result (vec_capacity out.old < vec_len out.old + length (escaped text.now)) }
    ensures capacity { vec_capacity out.old ≤ vec_capacity out.new }
{
    for byte in text.as_bytes() {
        push_byte(out, *byte)?;
    }
    Ok(())
}
