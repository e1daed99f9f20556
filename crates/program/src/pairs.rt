//! One value that two owners share.
ghost use Rattle.std.specs.Prelude.{◌≡◌, IfOk};
ghost use Rattle.std.specs.Arc.{arc_value};

use std::alloc::{AllocError, Global};
use std::sync::Arc;

/// A value for two owners.
pub fn pair_of<T: Drop>(alloc: Global, value: T) -> Result<(Arc<T>, Arc<T>), AllocError>
    ensures { IfOk result (λ both. (arc_value both.0 ≡ value) × (arc_value both.1 ≡ value)) }
{
    let one = Arc::new(alloc, value)?;
    let other = Arc::try_clone(&one)?;
    Ok((one, other))
}
