//! Calls that a signal interrupted.
ghost use Rattle.std.specs.Prelude.{◌≡◌, ◌≢◌, ◌+◌, ◌<◌, ◌^◌, Err, IsOk, OnErr};
ghost use Rattle.std.specs.IoError.{error_kind};
ghost use Rattle.std.specs.declared.io.ErrorKind.TheVariants.{Interrupted};

use std::io;
use std::io::ErrorKind;

/// How often one call was interrupted in a row. Only the answer of a call that was counts on.
#[derive(Drop)]
pub struct Interruptions {
    count: u32,
}

impl Interruptions {
    /// Of a call that wasn't made yet.
    pub fn none() -> Interruptions
        ensures { result.count ≡ 0 }
    {
        Interruptions { count: 0 }
    }

    /// A call failed so: one more if it was interrupted, and otherwise why it failed.
    pub fn add(&mut self, error: io::Error) -> io::Result<()>
        requires { self.old.count + 1 < 2 ^ 32 }
        ensures interrupted { error_kind error ≡ Interrupted → IsOk result × (self.new.count ≡ self.old.count + 1) }
        ensures other { error_kind error ≢ Interrupted → (result ≡ Err error) × (self.new ≡ self.old) }
    {
        if error.kind() != ErrorKind::Interrupted {
            return Err(error);
        }
        self.count += 1;
        Ok(())
    }
}
