ghost use Rattle.std.specs.Prelude.{◌≡◌};

use crate::asserts::assert_same;
use live_board::{HeldPublisher, Snapshot, Totals, Viewer, board};
use metrics::{
    Glance, GlanceFault, InputSample, Known, RunSample, Sighting, look, metrics_text, samples,
    seen_again, waiting,
};
use std::alloc::{AllocError, Global};
use std::test::Fail;

/// The names of two renditions, of which one has to be escaped.
const NAMES: [&str; 2] = ["v", "a\\\"b\nc"];

/// What is told where the first has three segments and the second ended by a fault.
const TEXT: &str = "\
# HELP tshls_start_time_seconds When the run began, in seconds since 1970.
# TYPE tshls_start_time_seconds gauge
tshls_start_time_seconds 1700000000.000007
# HELP tshls_waiting_segments Complete segments that are being encrypted and aren't listed yet.
# TYPE tshls_waiting_segments gauge
tshls_waiting_segments 2
# HELP tshls_removed_segments_total Segments that were removed.
# TYPE tshls_removed_segments_total counter
tshls_removed_segments_total 12
# HELP tshls_segments_total Segments that were written and listed.
# TYPE tshls_segments_total counter
tshls_segments_total{rendition=\"v\"} 3
tshls_segments_total{rendition=\"a\\\\\\\"b\\nc\"} 1
# HELP tshls_stream_seconds_total How long the segments last together.
# TYPE tshls_stream_seconds_total counter
tshls_stream_seconds_total{rendition=\"v\"} 3.500000
tshls_stream_seconds_total{rendition=\"a\\\\\\\"b\\nc\"} 0.000040
# HELP tshls_segment_bytes_total How many bytes the segments have together.
# TYPE tshls_segment_bytes_total counter
tshls_segment_bytes_total{rendition=\"v\"} 192560
tshls_segment_bytes_total{rendition=\"a\\\\\\\"b\\nc\"} 376
# HELP tshls_peak_bitrate The peak bit rate that the master playlist lists, in bits per second.
# TYPE tshls_peak_bitrate gauge
tshls_peak_bitrate{rendition=\"v\"} 541568
tshls_peak_bitrate{rendition=\"a\\\\\\\"b\\nc\"} 8
# HELP tshls_average_bitrate The average bit rate that the master playlist lists, in bits per second.
# TYPE tshls_average_bitrate gauge
tshls_average_bitrate{rendition=\"v\"} 513494
tshls_average_bitrate{rendition=\"a\\\\\\\"b\\nc\"} 7
# HELP tshls_read_ahead_bytes Bytes of the input that were read ahead and aren't packed yet.
# TYPE tshls_read_ahead_bytes gauge
tshls_read_ahead_bytes{rendition=\"v\"} 18800
tshls_read_ahead_bytes{rendition=\"a\\\\\\\"b\\nc\"} 0
# HELP tshls_input_silent_seconds For how long nothing came of the input.
# TYPE tshls_input_silent_seconds gauge
tshls_input_silent_seconds{rendition=\"v\"} 1.000001
tshls_input_silent_seconds{rendition=\"a\\\\\\\"b\\nc\"} 0.000000
# HELP tshls_quiet_seconds For how long no segment came.
# TYPE tshls_quiet_seconds gauge
tshls_quiet_seconds{rendition=\"v\"} 0.000000
tshls_quiet_seconds{rendition=\"a\\\\\\\"b\\nc\"} 9.000000
# HELP tshls_ended Whether the end of the playlist was written.
# TYPE tshls_ended gauge
tshls_ended{rendition=\"v\"} 1
tshls_ended{rendition=\"a\\\\\\\"b\\nc\"} 0
# HELP tshls_fault 1 for a rendition that ended by a fault.
# TYPE tshls_fault gauge
tshls_fault{rendition=\"a\\\\\\\"b\\nc\",fault=\"Read\"} 1
";

/// What the board shows of them.
fn shown(alloc: Global) -> Result<Snapshot, AllocError> {
    let first = Totals {
        micros: 3_500_000,
        bytes: 192_560,
        peak: 541_568,
        average: 513_494,
    };
    let second = Totals {
        micros: 40,
        bytes: 376,
        peak: 8,
        average: 7,
    };
    Ok(Snapshot {
        counts: Vec::from_array(alloc, [3, 1])?,
        ended: Vec::from_array(alloc, [true, false])?,
        totals: Vec::from_array(alloc, [first, second])?,
        media: Vec::new(alloc),
        frames: Vec::new(alloc),
        master: String::new(alloc),
    })
}

/// The text of what was seen, where both had been looked at before.
fn text(alloc: Global, seen: &Glance) -> Result<Vec<u8>, AllocError> {
    let before = [Sighting { count: 2, at: 1 }, Sighting { count: 1, at: 1 }];
    let now = 9_000_001;
    let next = seen_again(alloc, &before, &seen.counts, now)?;
    let input = InputSample {
        ahead: 18_800,
        silent: 1_000_001,
    };
    let known = Known {
        seen: &next,
        inputs: &[input],
        faults: &[None, Some("Read")],
    };
    let all = samples(alloc, &NAMES, seen, known, now)?;
    let run = RunSample {
        start: 1_700_000_000_000_007,
        waiting: waiting(6, seen),
        removed: 12,
    };
    metrics_text(alloc, run, &all)
}

/// The text of what a viewer sees, or why it sees nothing.
fn told(alloc: Global, viewer: Viewer) -> (Viewer, Result<Vec<u8>, GlanceFault>)
    ensures { result.0.board ≡ viewer.board }
{
    let (viewer, seen) = look(alloc, viewer);
    let told = match seen {
        Ok(seen) => text(alloc, &seen).map_err(GlanceFault::from),
        Err(fault) => Err(fault),
    };
    (viewer, told)
}

#[test]
fn the_text_tells_what_the_board_shows(rt: HostRuntime) -> Result<(), Fail> {
    let alloc = rt.alloc();
    let (publisher, mut viewers) = board(&rt, alloc, shown(alloc)?, 1)?;
    let held = HeldPublisher { publisher, rt: &rt };
    let Some(viewer) = viewers.pop() else {
        return Err(Fail::from("no viewer"));
    };
    let (viewer, text) = told(alloc, viewer);
    assert_same(
        &rt,
        "the text tells what the board shows",
        text.as_deref(),
        Ok(TEXT.as_bytes()),
    );
    held.release().end(&rt);
    let after = told(alloc, viewer).1;
    assert_same(&rt, "behind the end", after.err(), Some(GlanceFault::Gone));
    Ok(())
}
