//! Tests of what comes in: packets, tables, times and plans of segments.
#![tactic(auto)]

#[cfg(test)]
mod asserts;
#[cfg(test)]
mod cutting;
#[cfg(test)]
mod gathering;
#[cfg(test)]
mod heads;
#[cfg(test)]
mod outcomes;
#[cfg(test)]
mod packets;
#[cfg(test)]
mod pat_and_pmt;
#[cfg(test)]
mod plans;
#[cfg(test)]
mod refusals;
#[cfg(test)]
mod spools;
#[cfg(test)]
mod stream_fixtures;
#[cfg(test)]
mod table_fixtures;
#[cfg(test)]
mod times;
#[cfg(test)]
mod watching;
