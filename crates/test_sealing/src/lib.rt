//! Tests of sealing: the cipher, sealed segments, and the queue, the collector and the flow.
#![tactic(auto)]

#[cfg(test)]
mod asserts;
#[cfg(test)]
mod behind;
#[cfg(test)]
mod cipher;
#[cfg(test)]
mod collector;
#[cfg(test)]
mod fixtures;
#[cfg(test)]
mod flow;
#[cfg(test)]
mod into_four_tests;
#[cfg(test)]
mod into_tests;
#[cfg(test)]
mod model;
#[cfg(test)]
mod queue;
#[cfg(test)]
mod segments;
#[cfg(test)]
mod side_by_side;
#[cfg(test)]
mod told;
