//! The settings of runs for tests.

use fixture_standard_stream::{SETTINGS, key};
use ladder_items::{Gone, Kind, Rendition, Settings};
use std::alloc::Global;
use std::test::Fail;

/// A rendition of this name.
pub(crate) fn rendition(alloc: Global, name: &str) -> Result<Rendition, Fail> {
    Ok(Rendition {
        name: String::from_str(alloc, name)?,
        codecs: String::from_str(alloc, "avc1.4d401e")?,
        width: 640,
        height: 360,
        keys: key(alloc).ok_or("no key")?,
        salt: None,
        gone: Gone::nothing(),
        earlier: Vec::new(alloc),
    })
}

/// The settings of one rendition.
pub(crate) fn settings(alloc: Global) -> Result<Settings, Fail> {
    let mut renditions = Vec::new(alloc);
    renditions.push(rendition(alloc, "v")?)?;
    Ok(Settings {
        renditions,
        cut: SETTINGS,
        kind: Kind::Live,
        window: 5,
        queue: 4,
    })
}
