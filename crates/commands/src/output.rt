//! Texts are written whole and flushed.
ghost use Rattle.std.specs.Prelude.{⊤, IsErr, IsOk, OnErr, OnOk};
ghost use Rattle.std.specs.Io.KnownBytes.{Appends, Keeps};
ghost use Rattle.commands.specs.Streams.{IsUnwritten};
ghost use Rattle.item_io.specs.Writing.{WritesBeginning, hex_line};

use item_io::OutletFault;
use std::io;
use std::io::Write;

/// A writer, and whether a flush of it went well. What code here says of that is known from a flush alone.
pub trait Output: Write {
    /// It was flushed.
    ghost flushed: { Self → Type 0 };

    /// A flush of it failed.
    ghost unflushed: { Self → Type 0 };

    /// Flushes it.
    fn flush_all(&mut self) -> Result<(), OutletFault>
        ensures kept { Keeps (Self.contents self.old) (Self.contents self.new) }
        ensures ok { OnOk result (flushed self.new) }
        ensures err { OnErr result (unflushed self.new) };
}

/// Writers don't tell of themselves that they were flushed, so nothing is claimed of them.
impl<W: Write> Output for W {
    ghost flushed = { λ _. ⊤ };

    ghost unflushed = { λ _. ⊤ };

    fn flush_all(&mut self) -> Result<(), OutletFault> {
        told(self.flush())
    }
}

/// What a flush was answered.
fn told(answer: io::Result<()>) -> Result<(), OutletFault>
    ensures ok { OnOk answer (IsOk result) }
    ensures err { OnErr answer (IsErr result) }
{
    match answer {
        Ok(()) => Ok(()),
        Err(_) => Err(OutletFault),
    }
}

/// Writes a whole text and flushes it. Where a write fails, a prefix of it was written, and not all of it unless the flush
/// failed.
pub fn write_all<W: Output>(output: &mut W, text: &[u8]) -> Result<(), OutletFault>
    ensures ok { OnOk result (Appends (W.contents output.old) (W.contents output.new) text.now) }
    ensures flushed { OnOk result (W.flushed output.new) }
    ensures err { OnErr result (WritesBeginning (W.contents output.old) (W.contents output.new) text.now) }
    ensures unwritten { OnErr result (IsUnwritten (W.unflushed output.new) (W.contents output.old) (W.contents output.new) text.now) }
{
    item_io::write_bytes(output, text)?;
    output.flush_all()
}

/// Writes bytes as one line of lower-case hex digits and flushes it. Where a write fails, a prefix of that line was
/// written, and not all of it unless the flush failed.
pub(crate) fn write_hex_line<W: Output>(output: &mut W, bytes: &[u8]) -> Result<(), OutletFault>
    ensures ok { OnOk result (Appends (W.contents output.old) (W.contents output.new) (hex_line bytes.now)) }
    ensures flushed { OnOk result (W.flushed output.new) }
    ensures err { OnErr result (WritesBeginning (W.contents output.old) (W.contents output.new) (hex_line bytes.now)) }
    ensures unwritten { OnErr result (IsUnwritten (W.unflushed output.new) (W.contents output.old) (W.contents output.new) (hex_line bytes.now)) }
{
    item_io::write_hex_line(output, bytes)?;
    output.flush_all()
}
