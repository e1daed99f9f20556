//! Packs the stream, on one thread and on many.

ghost use Rattle.std.specs.Prelude.{◌≡◌, All, IfOk};

use crate::nowhere::Nowhere;
use crate::stream::{PACKETS, packet};
use fixture_standard_stream::{SETTINGS, keys};
use item_io::ReaderSource;
use pipeline::{Gone, Kind, Ran, Rendition, Settings, opening_board, pack_parallel, pack_serial};
use std::alloc::{AllocError, Global};
use std::sync::Wait;
use std::thread::Threads;
use work_desk::FreeGate;

/// The bytes of the stream.
fn bytes_of_stream(alloc: Global) -> Option<Vec<u8>> {
    let mut bytes = Vec::with_capacity(alloc, PACKETS as usize * 188).ok()?;
    for n in 0..PACKETS {
        bytes.extend_from_slice(&packet(n)).ok()?;
    }
    Some(bytes)
}

/// One rendition with one key, and room for 16 segments on their way.
fn settings(alloc: Global) -> Option<Settings> {
    let rendition = Rendition {
        name: String::from_str(alloc, "v").ok()?,
        codecs: String::from_str(alloc, "avc1.4d401e").ok()?,
        width: 640,
        height: 360,
        keys: keys(alloc)?.pop()?,
        salt: None,
        gone: Gone::nothing(),
        earlier: Vec::new(alloc),
    };
    Some(Settings {
        renditions: Vec::from_array(alloc, [rendition]).ok()?,
        cut: SETTINGS,
        kind: Kind::Live,
        window: 5,
        queue: 16,
    })
}

/// A source of these bytes.
fn sources(alloc: Global, bytes: &[u8]) -> Result<Vec<ReaderSource<&[u8]>>, AllocError>
    ensures { IfOk result (λ sources. All (λ source. (source.reads ≡ 0) × (source.failures ≡ 0)) sources.items) }
{
    let mut sources = Vec::new(alloc);
    sources.push(ReaderSource::new(bytes))?;
    Ok(sources)
}

/// How many bytes the stream has.
pub fn made(alloc: Global) -> Option<u64> {
    Some(bytes_of_stream(alloc)?.len() as u64)
}

/// How many bytes the items have that one thread gives.
pub fn on_one_thread(alloc: Global) -> Option<u64> {
    let bytes = bytes_of_stream(alloc)?;
    let settings = settings(alloc)?;
    let mut sources = sources(alloc, &bytes).ok()?;
    let mut outlet = Nowhere { bytes: 0 };
    pack_serial(alloc, &mut sources, &settings, &mut outlet).ok()?;
    Some(outlet.bytes)
}

/// How many bytes the items have that a run with so many workers gives.
pub fn on_many_threads<R: Threads + Wait + Sync>(
    rt: &R,
    alloc: Global,
    workers: usize,
) -> Option<u64> {
    let bytes = bytes_of_stream(alloc)?;
    let settings = settings(alloc)?;
    let sources = sources(alloc, &bytes).ok()?;
    let (publisher, _viewers) = opening_board(rt, alloc, 1, 1).ok()?;
    let Ran {
        sources: _,
        publisher,
        outlet,
        answer,
    } = pack_parallel(
        rt,
        alloc,
        sources,
        &settings,
        workers,
        &FreeGate,
        publisher,
        Nowhere { bytes: 0 },
    );
    publisher.end(rt);
    answer.ok()?;
    Some(outlet.bytes)
}
