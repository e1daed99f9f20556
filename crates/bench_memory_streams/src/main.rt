//! Cuts or packs a stream of 800,000 packets that is made in memory, as its words ask, and prints how many bytes came of it.
//!
//! `plans`, the one where none is given, cuts it and lets each plan go at once, `spools` turns a spool out behind every four
//! plans, `all_plans` and `all_in_a_spool` keep all that was cut. `serial` packs it on one thread, and a number with so many
//! workers; `stream` makes it, and nothing of it.
#![tactic(auto)]

mod cutting;
mod nowhere;
mod packing;
mod stream;

use cutting::{by_plans, by_spools};
use packing::{made, on_many_threads, on_one_thread};
use std::alloc::Global;
use std::env;
use std::process::ExitCode;
use std::sync::Wait;
use std::thread::Threads;

/// The first word; an empty one where none is given.
fn asked(rt: &HostRuntime) -> Option<String> {
    let mut words = env::args(rt).ok()?;
    words.next();
    Some(words.next().unwrap_or_else(|| String::new(rt.alloc())))
}

/// What a word asks for; none where memory is refused, or a run has a fault.
fn run<R: Threads + Wait + Sync>(rt: &R, alloc: Global, word: &str) -> Option<u64> {
    match word {
        "stream" => made(alloc),
        "serial" => on_one_thread(alloc),
        "all_plans" => by_plans(alloc, true).ok(),
        "spools" => by_spools(alloc, 4).ok(),
        "all_in_a_spool" => by_spools(alloc, usize::MAX).ok(),
        _ => match word.parse() {
            Ok(workers) => on_many_threads(rt, alloc, workers),
            Err(_) => by_plans(alloc, false).ok(),
        },
    }
}

fn main(rt: HostRuntime) -> ExitCode {
    let Some(word) = asked(&rt) else {
        return ExitCode::FAILURE;
    };
    match run(&rt, rt.alloc(), word.as_str()) {
        Some(bytes) => {
            let _ = rt.println(&bytes);
            ExitCode::SUCCESS
        }
        None => ExitCode::FAILURE,
    }
}
