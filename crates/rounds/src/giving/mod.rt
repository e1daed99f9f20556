//! Giving: the items of a segment or an end are put to the outlet, then a snapshot is published.

pub mod broadcast;
pub mod ends;
pub mod segments;
pub mod snapshots;
