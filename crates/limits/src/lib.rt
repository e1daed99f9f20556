//! The limits of what is packed, each once: contracts cite them, and a test holds the ranges that help prints to them.
#![tactic(auto)]

/// The ticks of a second: times are counted in 1/90000 s (ISO/IEC 13818-1, 2.4.3.7).
pub const TICKS: u64 = 90_000;

/// The least of each number of settings.
pub const LEAST: u64 = 1;

/// The longest target duration, in seconds.
pub const MOST_TARGET: u64 = 3_600;

/// The longest last frame of an epoch, in ticks.
pub const MOST_FRAME: u64 = 900_000;

/// The greatest distance of two times of one epoch, in ticks.
pub const MOST_GAP: u64 = 0xFFFF_FFFF;

/// The most packets of a segment's body.
pub const MOST_PACKETS: u64 = 1_000_000;

/// The last number of a program.
pub const MOST_PROGRAM: u64 = 65_535;

/// The last number that a segment may have; the first is 0.
pub const LAST_SEGMENT: u64 = 0xFFFF_FFFE;

/// The most keys of a rendition.
pub const MOST_KEYS: u64 = 4_096;

/// The most renditions of a ladder.
pub const MOST_RENDITIONS: u64 = 32;

/// The greatest width and height of a picture.
pub const MOST_PIXELS: u64 = 16_384;

/// The greatest number of segments that a window may ask for.
pub const MOST_WINDOW: u64 = 10_000;

/// The most segments that may be on their way.
pub const MOST_QUEUE: u64 = 256;

/// The most threads that seal.
pub const MOST_WORKERS: u64 = 64;
