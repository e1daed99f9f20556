//! The packager: the transport streams of a ladder go in, encrypted segments and their playlists come out, on one thread or on
//! many. Each item stands where it is proved: what a ladder gives in `ladder_items`, the run on one thread in `serial_run`,
//! the run on many threads in `rounds`.
#![tactic(auto)]

pub use ladder_items::{
    FrameRow, Gone, Kind, PackFault, Rendition, Report, Row, Settings, seen_number,
};
pub use rounds::{
    Endpoints, Herald, Nobody, Ran, Setup, opening_board, pack_heralded, pack_parallel,
    pack_parallel_reads,
};
pub use serial_run::{pack_serial, pack_serial_reads};
