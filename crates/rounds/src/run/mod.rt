//! A whole run: what it begins with, how it reads, how it goes from round to round, and its answer.

pub mod between;
pub mod books;
pub mod complete;
pub mod course;
pub mod first;
pub mod fitted;
pub mod fitting;
pub mod herald;
pub mod pace;
pub mod packing;
pub mod ran;
pub mod reading;
pub mod reporting;
pub mod rounds_loop;
pub mod setup;
pub mod swapping;
pub mod telling;
