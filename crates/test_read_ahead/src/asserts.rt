//! What tests fail by.

use std::fmt::Debug;
use std::process::Abort;

/// Fails unless a case gave what was wanted.
pub(crate) fn assert_same<C: Copy + Debug, T: Copy + Debug + PartialEq>(
    rt: &impl Abort,
    case: C,
    came: T,
    wanted: T,
) {
    assert_eq!(rt; came, wanted, "{case:?}");
}
