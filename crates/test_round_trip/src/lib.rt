//! Tests of whole runs, from the bytes of streams to items and back, and of runs that go on from what an earlier one wrote.
#![tactic(auto)]

#[cfg(test)]
mod allowed;
#[cfg(test)]
mod asserts;
#[cfg(test)]
mod back;
#[cfg(test)]
mod cases;
#[cfg(test)]
mod damaged;
#[cfg(test)]
mod failing;
#[cfg(test)]
mod forms;
#[cfg(test)]
mod gates;
#[cfg(test)]
mod going_on;
#[cfg(test)]
mod ladder;
#[cfg(test)]
mod many;
#[cfg(test)]
mod reads;
#[cfg(test)]
mod resumed;
#[cfg(test)]
mod run;
#[cfg(test)]
mod same;
#[cfg(test)]
mod standard;
#[cfg(test)]
mod stream;
#[cfg(test)]
mod turns;
