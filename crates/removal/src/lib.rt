//! A ladder whose old segments go: how long each rendition keeps its own, and the packager over a folder from which they go.
#![tactic(auto)]

mod removing;
mod retaining;
mod tally;

pub use removing::pack_and_remove;
pub use retaining::keepings;
pub use tally::RemovalHerald;
