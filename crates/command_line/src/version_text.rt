//! What `--version` prints behind the program's name.
ghost use Rattle.std.specs.Prelude.{◌≡◌, ◌++◌, codes, IfOk};
ghost use Rattle.std.specs.String.{string_bytes};

use std::alloc::{AllocError, Global};

/// The version, and the processor that the program is built for.
pub fn version(alloc: Global, processor: &str) -> Result<String, AllocError>
    ensures { IfOk result (λ text. string_bytes text ≡ codes "0.1.0 " ++ processor.now) }
{
    let mut text = String::from_str(alloc, "0.1.0 ")?;
    text.push_str(processor)?;
    Ok(text)
}
