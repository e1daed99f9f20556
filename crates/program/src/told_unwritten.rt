//! What standard error gets where metrics can't be written.

use std::io::Eprint;

/// What is told.
const UNWRITTEN: &str = "tshls: Metrics\n";

/// It was told that the metrics of a run can't be written. Only that this was printed makes one.
#[derive(Drop)]
pub struct ToldUnwritten {
    _of: (),
}

/// Tells that the metrics can't be written.
pub fn tell_unwritten<R: Eprint>(rt: &R) -> ToldUnwritten {
    let _ = rt.eprint(UNWRITTEN);
    ToldUnwritten { _of: () }
}
