//! A round under way, as the calling thread drives it.

use crate::round::permitted_broadcast::PermittedBroadcast;
use crate::round::permitted_collector::PermittedCollector;
use crate::round::taker::Taker;
use std::sync::Wait;
use std::sync::ledger::Ledger;
use work_desk::{Desk, Permit};

/// A round under way: plans are fed to its desk and expected by its collector, sealed segments are taken from the desk, and
/// those that are next in sequence are given and published.
#[derive(Drop)]
pub struct Round<'d, 's, 'r, S, O, L: Ledger, M: Ledger, P: Permit, R: Wait> {
    pub desk: &'d Desk<'s, L, M, P>,
    pub broadcast: PermittedBroadcast<'r, S, O, P, R>,
    pub collector: PermittedCollector<'s, P>,
    pub taker: Taker<M>,
}
