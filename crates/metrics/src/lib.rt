//! What a run is watched by: its numbers at one moment, as a text in the format that Prometheus reads.
//!
//! [`look`] copies the numbers of a board's last snapshot, and closes its view at once; [`seen_again`] remembers when each
//! rendition got its last segment; [`samples`] puts both together, and [`metrics_text`] writes them.
#![tactic(auto)]

mod column;
mod family;
mod glance;
mod known;
mod label;
mod page;
mod sample;
mod sampling;
mod seen;
mod text;

pub use glance::{Glance, GlanceFault, look};
pub use known::{InputSample, Known, waiting};
pub use sample::{RunSample, Sample};
pub use sampling::samples;
pub use seen::{Sighting, seen_again};
pub use text::metrics_text;
