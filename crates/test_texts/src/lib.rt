//! Tests of what goes out: attributes and numbers, media and master playlists, bandwidth, items, files that are written ahead; and of segments that go once no
//! player can want them.
#![tactic(auto)]

#[cfg(test)]
mod ahead_tests;
#[cfg(test)]
mod asserts;
#[cfg(test)]
mod bandwidth_tests;
#[cfg(test)]
mod fixtures;
#[cfg(test)]
mod folder_tests;
#[cfg(test)]
mod folders;
#[cfg(test)]
mod going_tests;
#[cfg(test)]
mod items;
#[cfg(test)]
mod keeping_runs;
#[cfg(test)]
mod lasting_tests;
#[cfg(test)]
mod line_tests;
#[cfg(test)]
mod master_tests;
#[cfg(test)]
mod media_tests;
#[cfg(test)]
mod name_tests;
#[cfg(test)]
mod number_tests;
#[cfg(test)]
mod outlet_tests;
#[cfg(test)]
mod pushed_tests;
#[cfg(test)]
mod resumed_tests;
#[cfg(test)]
mod retention_tests;
#[cfg(test)]
mod source_tests;
#[cfg(test)]
mod window_tests;
#[cfg(test)]
mod windows;
