//! Tests of `read_ahead`: what its sources give, how much is read ahead of each input, and inputs that are silent, left or can't be
//! opened.
#![tactic(auto)]

#[cfg(test)]
mod asserts;
#[cfg(test)]
mod fixtures;
#[cfg(test)]
mod leaving;
#[cfg(test)]
mod moment;
#[cfg(test)]
mod opening;
#[cfg(test)]
mod room;
#[cfg(test)]
mod shares;
#[cfg(test)]
mod silence;
#[cfg(test)]
mod sources;
