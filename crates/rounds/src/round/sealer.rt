//! What the calling thread seals with.

use std::alloc::Global;

/// What the calling thread has to seal a plan with, besides its keys: memory, and the gate that it asks first.
#[derive(Drop)]
pub struct Sealer<'g, G> {
    pub alloc: Global,
    pub gate: &'g G,
}
