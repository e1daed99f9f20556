//! Asks what takes memory where it may be refused: each thing a few times, and again for what was refused, once it is seen to
//! be as it was. A cutter that was refused memory is asked whether it has ended.
//!
//! `stream` asks a reader, a cutter and a window, `flow` a collector, a queue and a flow, `board` a board, `desk` two workers;
//! no word asks all of them. Prints a line of each: `at once`, `again` or `wrong` for what was asked, and then what stands;
//! of workers, how many segments were sealed and how many refused. What can't be made to be asked is made again.
#![tactic(auto)]

mod collecting;
mod cutting;
mod feeding;
mod listing;
mod publishing;
mod reading;
mod sealing;
mod sealing_run;

use collecting::{collecting, expecting};
use cutting::cutting;
use feeding::{feeding, flowing};
use fixture_standard_stream::{packets, plans};
use listing::listing;
use publishing::publishing;
use reading::reading;
use sealing::sealing;
use std::alloc::Global;
use std::env;
use std::process::ExitCode;
use std::sync::Wait;
use std::thread::Threads;

/// The first word; an empty one where none is given.
fn asked(rt: &HostRuntime) -> Option<String> {
    let mut words = env::args(rt).ok()?;
    words.next();
    Some(words.next().unwrap_or_else(|| String::new(rt.alloc())))
}

fn stream<R: Print>(rt: &R, alloc: Global) -> Option<()> {
    let packets = packets(alloc).or_else(|| packets(alloc))?;
    reading(rt, alloc, packets.as_flattened());
    cutting(rt, alloc, &packets);
    listing(rt, alloc).or_else(|| listing(rt, alloc))
}

fn flow<R: Print>(rt: &R, alloc: Global) -> Option<()> {
    let plans = plans(alloc).or_else(|| plans(alloc))?;
    expecting(rt, alloc, &plans).or_else(|| expecting(rt, alloc, &plans))?;
    collecting(rt, alloc, &plans).or_else(|| collecting(rt, alloc, &plans))?;
    feeding(rt, alloc, &plans).or_else(|| feeding(rt, alloc, &plans))?;
    flowing(rt, alloc, &plans).or_else(|| flowing(rt, alloc, &plans))
}

fn board<R: Wait + Print>(rt: &R, alloc: Global) -> Option<()> {
    publishing(rt, alloc).or_else(|| publishing(rt, alloc))
}

/// Asks what the word says.
fn ask<R: Threads + Wait + Print + Sync>(rt: &R, alloc: Global, word: &str) -> Option<()> {
    match word {
        "stream" => stream(rt, alloc),
        "flow" => flow(rt, alloc),
        "board" => board(rt, alloc),
        "desk" => sealing(rt, alloc),
        "" => {
            stream(rt, alloc)?;
            flow(rt, alloc)?;
            board(rt, alloc)?;
            sealing(rt, alloc)
        }
        _ => None,
    }
}

fn main(rt: HostRuntime) -> ExitCode {
    let Some(word) = asked(&rt).or_else(|| asked(&rt)) else {
        return ExitCode::FAILURE;
    };
    match ask(&rt, rt.alloc(), word.as_str()) {
        Some(()) => ExitCode::SUCCESS,
        None => ExitCode::FAILURE,
    }
}
