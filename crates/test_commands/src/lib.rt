//! Tests of `commands` and `packing`: each command over inputs and outputs in memory, and its words; and of `media_reading` and
//! `hls_check`, by which `check` reads back: texts that list a playlist, texts that don't, and segments that open or don't.
#![tactic(auto)]

#[cfg(test)]
mod asserts;
#[cfg(test)]
mod changed_tests;
#[cfg(test)]
mod check;
#[cfg(test)]
mod fixtures;
#[cfg(test)]
mod into_folder;
#[cfg(test)]
mod key_files;
#[cfg(test)]
mod ladder;
#[cfg(test)]
mod offered;
#[cfg(test)]
mod one;
#[cfg(test)]
mod open;
#[cfg(test)]
mod pack;
#[cfg(test)]
mod reading_tests;
#[cfg(test)]
mod seal;
#[cfg(test)]
mod text_tests;
#[cfg(test)]
mod texts;
#[cfg(test)]
mod unpacking_tests;
#[cfg(test)]
mod words;
