//! Tests of what a run on many threads is made of: a `work_desk` with up to sixteen workers, `rounds` with its gates, stops and viewers,
//! a `live_board` beside a publisher in another thread, and the `metrics` that are read off it.
#![tactic(auto)]

#[cfg(test)]
mod asserts;
#[cfg(test)]
mod board_tests;
#[cfg(test)]
mod desk_runs;
#[cfg(test)]
mod desk_tests;
#[cfg(test)]
mod fixtures;
#[cfg(test)]
mod gates;
#[cfg(test)]
mod herald_tests;
#[cfg(test)]
mod metrics_tests;
#[cfg(test)]
mod pause_tests;
#[cfg(test)]
mod pausing;
#[cfg(test)]
mod run_jobs;
#[cfg(test)]
mod run_tests;
#[cfg(test)]
mod shelf_tests;
#[cfg(test)]
mod stop_tests;
#[cfg(test)]
mod viewer_tests;
