//! Inputs are opened.
ghost use Rattle.std.specs.Prelude.{◌≡◌, IfOk, OnErr};

use crate::input::Input;

/// An input was opened. Only `open` makes one.
#[derive(Drop)]
pub struct Openness {
    _of: (),
}

/// An input can't be opened. Only `open` makes one.
#[derive(Drop)]
pub struct Refusal {
    _of: (),
}

/// Opens an input, or answers that it can't be opened.
pub fn open<I: Input>(input: I) -> Result<(I::Reader, Openness), Refusal>
    ensures ok { IfOk result (λ opened. I.Reader.remaining opened.0 ≡ I.holds input) }
    ensures refused { OnErr result (I.refuses input) }
{
    match input.open() {
        Some(reader) => Ok((reader, Openness { _of: () })),
        None => Err(Refusal { _of: () }),
    }
}
