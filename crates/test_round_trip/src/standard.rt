//! The standard stream of two segments, its texts byte for byte.
use crate::asserts::assert_same;
use crate::run::{
    PLAY, Play, Ran, WELL, Ways, are_sizes, last_frames, last_master, last_media, played_each_way,
};
use crate::stream::Change;
use item_io::Item;
use std::test::Fail;

const MEDIA: &str = "#EXTM3U
#EXT-X-VERSION:4
#EXT-X-TARGETDURATION:6
#EXT-X-MEDIA-SEQUENCE:0
#EXT-X-DISCONTINUITY-SEQUENCE:0
#EXT-X-KEY:METHOD=AES-128,URI=\"v.0.key\"
#EXTINF:6.000000,
v.0.ts
#EXTINF:3.040000,
v.1.ts
#EXT-X-ENDLIST
";

const FRAMES: &str = "#EXTM3U
#EXT-X-VERSION:4
#EXT-X-TARGETDURATION:6
#EXT-X-MEDIA-SEQUENCE:0
#EXT-X-DISCONTINUITY-SEQUENCE:0
#EXT-X-I-FRAMES-ONLY
#EXT-X-KEY:METHOD=AES-128,URI=\"v.0.key\",IV=0x00000000000000000000000000000000
#EXTINF:6.000000,
#EXT-X-BYTERANGE:188@376
v.0.ts
#EXT-X-KEY:METHOD=AES-128,URI=\"v.0.key\",IV=0x00000000000000000000000000000001
#EXTINF:3.040000,
#EXT-X-BYTERANGE:188@376
v.1.ts
#EXT-X-ENDLIST
";

const MASTER: &str = "#EXTM3U
#EXT-X-VERSION:4
#EXT-X-STREAM-INF:BANDWIDTH=2022,AVERAGE-BANDWIDTH=1360,CODECS=\"avc1.4d401e\",RESOLUTION=640x360
v.m3u8
#EXT-X-I-FRAME-STREAM-INF:BANDWIDTH=495,AVERAGE-BANDWIDTH=333,CODECS=\"avc1.4d401e\",RESOLUTION=640x360,URI=\"v.iframes.m3u8\"
";

const FIRST_MASTER: &str = "#EXTM3U
#EXT-X-VERSION:4
#EXT-X-STREAM-INF:BANDWIDTH=1024,AVERAGE-BANDWIDTH=1024,CODECS=\"avc1.4d401e\",RESOLUTION=640x360
v.m3u8
#EXT-X-I-FRAME-STREAM-INF:BANDWIDTH=251,AVERAGE-BANDWIDTH=251,CODECS=\"avc1.4d401e\",RESOLUTION=640x360,URI=\"v.iframes.m3u8\"
";

/// The first text that isn't as wanted, by its kind.
fn wrong_text(items: &[Item]) -> Option<&'static str> {
    let Some(Item::Master { text }) = items.get(3) else {
        return Some("no master playlist behind the first segment");
    };
    if text.as_str() != FIRST_MASTER {
        return Some("first master");
    }
    if last_media(items) != MEDIA {
        return Some("media");
    }
    if last_frames(items) != FRAMES {
        return Some("I-frames");
    }
    if last_master(items) != MASTER {
        return Some("master");
    }
    None
}

#[test]
fn two_segments_in_pieces(rt: HostRuntime) -> Result<(), Fail> {
    for piece in [1, 188, 1000, 18_800] {
        let ways = Ways { piece, ..WELL };
        let ran = played_each_way(&rt, rt.alloc(), &Play { ways, ..PLAY })?;
        let items = ran.outlet.items();
        assert_same(
            &rt,
            ("pieces of", piece),
            (ran.told(), wrong_text(items), are_sizes(items, &[768, 768])),
            ((None, 10), None, true),
        );
    }
    Ok(())
}

/// How many segments a report tells, their microseconds, peak and average, and the bytes passed over.
type OfRendition = (
    Option<u64>,
    Option<u128>,
    Option<u64>,
    Option<u64>,
    Option<u64>,
);

/// What is reported of the rendition; how many workers there were, how many segments the calling thread sealed, and how many
/// it threw away. None where the run ended in a fault.
fn reported(ran: &Ran) -> Option<(OfRendition, (usize, u128, u128))> {
    let Ok(report) = &ran.answer else {
        return None;
    };
    let of_rendition = (
        report.counts.first().copied(),
        report.micros.first().copied(),
        report.peaks.first().copied(),
        report.averages.first().copied(),
        report.skipped.first().copied(),
    );
    Some((
        of_rendition,
        (report.workers.len(), report.own, report.thrown),
    ))
}

#[test]
fn a_report(rt: HostRuntime) -> Result<(), Fail> {
    let change = Change::NoiseBefore;
    let ran = played_each_way(&rt, rt.alloc(), &Play { change, ..PLAY })?;
    let wanted = (Some(2), Some(9_040_000), Some(2022), Some(1360), Some(5));
    assert_same(&rt, "a report", reported(&ran), Some((wanted, (0, 2, 0))));
    Ok(())
}
