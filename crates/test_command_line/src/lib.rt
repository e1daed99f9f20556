//! Tests of `command_line`: what each command's words ask for, what refuses them, what help shows, and how faults are told.
#![tactic(auto)]

#[cfg(test)]
mod asserts;
#[cfg(test)]
mod cipher;
#[cfg(test)]
mod explanation;
#[cfg(test)]
mod faults;
#[cfg(test)]
mod help;
#[cfg(test)]
mod one;
#[cfg(test)]
mod pack;
#[cfg(test)]
mod words;
