ghost use Rattle.std.specs.Prelude.{◌≡◌, ◌≤◌, ◌^◌, All, IfOk};

use crate::many::{Sealers, run_on};
use crate::same::first_other;
use crate::stream::{Change, TWO_SEGMENTS, Video, stream_of};
use cutter::CutSettings;
use fixture_standard_stream::SETTINGS;
use item_io::{FailingOutlet, FailingReader, Item, READS};
use pipeline::{Gone, Kind, PackFault, Rendition, Report, Settings, pack_serial_reads};
use segment_job::Keys;
use std::alloc::{AllocError, Global};
use std::sync::Wait;
use std::test::Fail;
use std::thread::Threads;
use work_desk::FreeGate;

/// Segments of six seconds.
pub const CUT: CutSettings = SETTINGS;

/// What a run answered, and the items that its outlet holds.
#[derive(Drop)]
pub struct Ran {
    pub answer: Result<Report, PackFault>,
    pub outlet: FailingOutlet,
}

impl Ran {
    /// The fault, and how many items were given.
    pub fn told(&self) -> (Option<PackFault>, usize) {
        let fault = match &self.answer {
            Ok(_) => None,
            Err(fault) => Some(*fault),
        };
        (fault, self.outlet.items().len())
    }
}

/// How inputs are read and items are put: the most bytes of a read, how many reads an input has, and which read of the
/// first input and which put fails, counted from 1.
#[derive(Clone, Copy)]
pub struct Ways {
    pub piece: usize,
    pub reads: u64,
    pub failing_read: u64,
    pub failing_put: u64,
}

/// All goes well, in reads of any length.
pub const WELL: Ways = Ways {
    piece: 18_800,
    reads: READS,
    failing_read: 0,
    failing_put: 0,
};

impl Ways {
    /// How many reads an input has: at least one, and no more than an input may have.
    pub fn reads(self) -> u64
        ensures { (1 ≤ result) × (result ≤ 2 ^ 40) }
    {
        self.reads.clamp(1, READS)
    }
}

/// Which segments are listed, and the salt of the vectors.
#[derive(Clone, Copy)]
pub struct Form {
    pub kind: Kind,
    pub salt: Option<[u8; 16]>,
}

/// Playlists that slide, without a salt.
pub const PLAIN: Form = Form {
    kind: Kind::Live,
    salt: None,
};

/// One rendition, `v`: the frames of its stream and what is done to it, how many keys it has and how many segments in a row
/// each seals, how it is cut, how many segments are listed at least, and how it is read and put.
#[derive(Clone, Copy)]
pub struct Play {
    pub frames: &'static [Video],
    pub change: Change,
    pub keys: (u8, u64),
    pub cut: CutSettings,
    pub window: u64,
    pub form: Form,
    pub ways: Ways,
}

/// Two segments under one key.
pub const PLAY: Play = Play {
    frames: TWO_SEGMENTS,
    change: Change::None,
    keys: (1, 1),
    cut: CUT,
    window: 5,
    form: PLAIN,
    ways: WELL,
};

/// What one thread makes of it.
pub fn played(alloc: Global, play: &Play) -> Result<Ran, Fail> {
    let settings = settings_of(alloc, &["v"], play.keys, play.cut, play.window, play.form)?;
    let stream = stream_of(alloc, play.frames, play.change)?;
    run(alloc, &[&stream], play.ways, &settings)
}

/// The same, where many threads give the same.
pub fn played_each_way<R: Threads + Wait + Sync>(
    rt: &R,
    alloc: Global,
    play: &Play,
) -> Result<Ran, Fail> {
    let settings = settings_of(alloc, &["v"], play.keys, play.cut, play.window, play.form)?;
    let stream = stream_of(alloc, play.frames, play.change)?;
    run_each_way(rt, alloc, &[&stream], play.ways, &settings)
}

/// What is told of it then, and whether its items are a prefix of these.
pub fn told_beside<R: Threads + Wait + Sync>(
    rt: &R,
    alloc: Global,
    play: &Play,
    whole: &[Item],
) -> Result<(Option<PackFault>, usize, bool), Fail> {
    let ran = played_each_way(rt, alloc, play)?;
    let (fault, count) = ran.told();
    Ok((fault, count, whole.starts_with(ran.outlet.items())))
}

/// So many keys.
fn keys_of(alloc: Global, keys: u8, period: u64, salt: Option<[u8; 16]>) -> Result<Keys, Fail> {
    let mut all = Vec::new(alloc);
    for key in 0..keys {
        all.push([key; 16])?;
    }
    Ok(match salt {
        None => Keys::new(all, period)?,
        Some(salt) => Keys::salted(all, period, salt)?,
    })
}

/// A rendition with keys of its own.
pub fn rendition(
    alloc: Global,
    name: &str,
    keys: u8,
    period: u64,
    salt: Option<[u8; 16]>,
) -> Result<Rendition, Fail> {
    Ok(Rendition {
        name: String::from_str(alloc, name)?,
        codecs: String::from_str(alloc, "avc1.4d401e")?,
        width: 640,
        height: 360,
        keys: keys_of(alloc, keys, period, salt)?,
        salt,
        gone: Gone::nothing(),
        earlier: Vec::new(alloc),
    })
}

/// Settings of renditions of these names, with so many keys each, of which each seals so many segments in a row.
pub fn settings(
    alloc: Global,
    names: &[&str],
    keys: u8,
    period: u64,
    cut: CutSettings,
    window: u64,
) -> Result<Settings, Fail> {
    settings_of(alloc, names, (keys, period), cut, window, PLAIN)
}

/// The same of this form; the keys come with their period.
pub fn settings_of(
    alloc: Global,
    names: &[&str],
    keys: (u8, u64),
    cut: CutSettings,
    window: u64,
    form: Form,
) -> Result<Settings, Fail> {
    let mut renditions = Vec::new(alloc);
    for name in names {
        renditions.push(rendition(alloc, name, keys.0, keys.1, form.salt)?)?;
    }
    Ok(Settings {
        renditions,
        cut,
        kind: form.kind,
        window,
        queue: 16,
    })
}

/// The inputs as sources.
pub fn sources_of(
    alloc: Global,
    inputs: &[&[u8]],
    ways: Ways,
) -> Result<Vec<FailingReader>, AllocError>
    ensures { IfOk result (λ sources. All (λ source. (source.reads ≡ 0) × (source.failures ≡ 0)) sources.items) }
{
    let mut sources = Vec::new(alloc);
    for (r, input) in inputs.iter().enumerate() {
        let mut bytes = Vec::new(alloc);
        bytes.extend_from_slice(input)?;
        let failing_read = if r == 0 { ways.failing_read } else { 0 };
        sources.push(FailingReader::new(bytes, ways.piece.max(1), failing_read))?;
    }
    Ok(sources)
}

/// Packs these inputs on one thread.
pub fn run(alloc: Global, inputs: &[&[u8]], ways: Ways, settings: &Settings) -> Result<Ran, Fail> {
    let mut sources = sources_of(alloc, inputs, ways)?;
    let mut outlet = FailingOutlet::new(alloc, ways.failing_put);
    let answer = pack_serial_reads(alloc, &mut sources, settings, &mut outlet, ways.reads());
    Ok(Ran { answer, outlet })
}

/// Packs these inputs on one thread, and on many with one worker, with two and with four, where each rendition gets the
/// same. Tells what one thread makes of them.
pub fn run_each_way<R: Threads + Wait + Sync>(
    rt: &R,
    alloc: Global,
    inputs: &[&[u8]],
    ways: Ways,
    settings: &Settings,
) -> Result<Ran, Fail> {
    run_beside(rt, alloc, inputs, ways, settings, &[1, 2, 4])
}

/// The same with other numbers of workers.
pub fn run_beside<R: Threads + Wait + Sync>(
    rt: &R,
    alloc: Global,
    inputs: &[&[u8]],
    ways: Ways,
    settings: &Settings,
    numbers: &[usize],
) -> Result<Ran, Fail> {
    let ran = run(alloc, inputs, ways, settings)?;
    for workers in numbers {
        let sealers = Sealers {
            workers: *workers,
            gate: &FreeGate,
        };
        let many = run_on(rt, alloc, inputs, ways, settings, sealers)?;
        if let Some(other) = first_other(&ran, &many, inputs.len(), *workers) {
            return Err(Fail::new(other));
        }
    }
    Ok(ran)
}

/// Whether the segments that were given have these sizes.
pub fn are_sizes(items: &[Item], sizes: &[usize]) -> bool {
    let mut wanted = sizes.iter();
    for item in items {
        if let Item::Segment { bytes, .. } = item {
            if wanted.next() != Some(&bytes.len()) {
                return false;
            }
        }
    }
    wanted.next().is_none()
}

/// The last media playlist. No text stands for none.
pub fn last_media(items: &[Item]) -> &str {
    let mut last = "";
    for item in items {
        if let Item::Media { text, .. } = item {
            last = text;
        }
    }
    last
}

/// The last I-frame playlist. No text stands for none.
pub fn last_frames(items: &[Item]) -> &str {
    let mut last = "";
    for item in items {
        if let Item::Frames { text, .. } = item {
            last = text;
        }
    }
    last
}

/// The last master playlist. No text stands for none.
pub fn last_master(items: &[Item]) -> &str {
    let mut last = "";
    for item in items {
        if let Item::Master { text } = item {
            last = text;
        }
    }
    last
}

/// What stands behind this tag, a space behind each.
fn values(alloc: Global, text: &str, tag: &str) -> Result<String, AllocError> {
    let mut values = String::new(alloc);
    for line in text.lines() {
        if let Some(value) = line.strip_prefix(tag) {
            values.push_str(value)?;
            values.push(' ')?;
        }
    }
    Ok(values)
}

/// Whether this is what stands behind this tag.
pub fn has_values(alloc: Global, text: &str, tag: &str, wanted: &str) -> Result<bool, AllocError> {
    let values = values(alloc, text, tag)?;
    Ok(values.as_str() == wanted)
}
