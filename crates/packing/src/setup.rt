use crate::ahead_gate::AheadGate;
use commands::Pool;
use pipeline::Settings;
use std::alloc::Global;

/// What stays the same while a ladder is packed.
#[derive(Drop)]
pub struct LadderSetup<'a, R, H, A> {
    pub rt: &'a R,
    pub alloc: Global,
    pub settings: &'a Settings,
    /// How many threads seal, and how many segments wait for them.
    pub pool: Pool,
    /// Whether two segments are sealed side by side in about the time of one, as with AVX2.
    pub pairs: bool,
    /// It has the threads that seal segments write them into files, before their turn comes.
    pub gate: &'a AheadGate<A>,
    /// It is told of a rendition's fault as soon as it stands.
    pub herald: &'a H,
}
