//! Renditions that go on from what an earlier run wrote, playlists that are refused, and the ladder's discontinuities.

mod ladders;
mod refused;
mod renditions;
mod rows;
