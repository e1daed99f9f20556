//! What isn't told of an input.
ghost use Rattle.std.specs.Prelude.{◌≡◌, ◌≢◌, Ok, ◌⊎◌, IfNone, IfOk, IfSome, None, OnOk, is_some};
ghost use Rattle.std.specs.Io.KnownBytes.{IsAtEnd};
ghost use Rattle.read_ahead.specs.declared.reading.ReadingEnd.TheVariants.{Left, NoMemory};

use crate::limits::WASTE;
use crate::reading::ReadingEnd;
use item_io::{ReadFault, read_some};
use std::io::Read;
use std::sync::Wait;

/// The reader of an input of which more may come that isn't told, if there is one. It can't be let go, so that this is thrown away.
pub struct Untold<Q> {
    reader: Option<Q>,
}

impl<Q: Drop> Untold<Q> {
    /// Of an input that isn't open.
    pub fn nothing() -> Untold<Q>
        ensures { result.reader ≡ None }
    {
        Untold { reader: None }
    }

    /// Of an input that stopped so: no more of it is given, or memory was refused.
    pub fn of(stop: Result<ReadingEnd, ReadFault>, reader: Q) -> Untold<Q>
        ensures some { IfSome result.reader (λ q. (q ≡ reader) × ((stop ≡ Ok Left) ⊎ (stop ≡ Ok NoMemory))) }
        ensures none { IfNone result.reader ((stop ≢ Ok Left) × (stop ≢ Ok NoMemory)) }
    {
        let reader = match stop {
            Ok(ReadingEnd::AtEnd) => None,
            Ok(ReadingEnd::Left) => Some(reader),
            Ok(ReadingEnd::NoMemory) => Some(reader),
            Err(_) => None,
        };
        Untold { reader }
    }
}

impl<Q: Read + Drop> Untold<Q> {
    /// Reads the input to its end, so that its writer isn't held up, and throws away what it gives. Answers its reader.
    pub fn throw_away<R: Wait>(self, rt: &R) -> Result<Option<Q>, ReadFault>
        ensures end { IfOk result (λ reader. IfSome reader (λ q. IsAtEnd (Q.remaining q))) }
        ensures same { IfOk result (λ reader. is_some reader ≡ is_some self.reader) }
    {
        let Untold { reader } = self;
        let Some(reader) = reader else {
            return Ok(None);
        };
        let mut reader = reader;
        throw_away(rt, &mut reader)?;
        Ok(Some(reader))
    }
}

/// Reads an input to its end, and throws away what it gives. This takes no memory.
fn throw_away<R: Wait, Q: Read>(rt: &R, reader: &mut Q) -> Result<(), ReadFault>
    ensures { OnOk result (IsAtEnd (Q.remaining reader.new)) }
{
    let mut buffer = [0; WASTE];
    for _ in rt.forever() {
        if read_some(reader, &mut buffer)? == 0 {
            return Ok(());
        }
    }
    unreachable!()
}
