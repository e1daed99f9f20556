//! Which option has a number outside its range, for whoever is told that the settings aren't allowed.
ghost use Rattle.std.specs.Prelude.{◌≡◌, None, IfSome, Decides};
ghost use Rattle.std.specs.Option.{unwrap_or};
ghost use Rattle.commands.specs.declared.numbers.Numbers.{Numbers as NumbersValue};
ghost use Rattle.commands.specs.Ranges.{IsUpTo, IsWithin, AreNumbersWithin, AreWithin, AreWithinBefore, is_up_to};
ghost use Rattle.commands.specs.Ranges.{outside_of, outside_of_numbers, outside_of_pool};
ghost use Rattle.commands.specs.declared.pool.Pool.{Pool as PoolValue};
ghost use Rattle.commands.specs.declared.outside.Ranged.TheVariants.{Workers};
ghost use Rattle.commands.specs.declared.pool.TheConstants.{MOST_AHEAD, MOST_STALL};
ghost use Rattle.limits.specs.declared.TheConstants.{LEAST, MOST_QUEUE, MOST_WORKERS};

use crate::numbers::Numbers;
use crate::pool::{MOST_AHEAD, MOST_STALL, Pool};
use limits::{
    LEAST, MOST_FRAME, MOST_GAP, MOST_PACKETS, MOST_PROGRAM, MOST_QUEUE, MOST_TARGET, MOST_WINDOW,
    MOST_WORKERS,
};

/// An option whose number has a range.
#[derive(Clone, Copy, Debug, PartialEq, Eq, Drop)]
pub enum Ranged {
    Target,
    Segment,
    Window,
    Frame,
    Gap,
    Most,
    Program,
    Workers,
    Queue,
    Batch,
    Stall,
    Ahead,
}

pub(crate) fn is_up_to(number: u64, most: u64) -> bool
    ensures ok { Decides result (IsUpTo number most) }
    ensures same { result ≡ is_up_to number most }
{
    LEAST <= number && number <= most
}

/// The first option whose number is outside its range: a packager's numbers come before those of the pool, and both in the order
/// in which help lists them. None where all numbers are within their ranges; the period has none.
pub fn first_outside(numbers: &Numbers, pool: Pool) -> Option<Ranged>
    ensures some { IfSome result (λ option. ¬ IsWithin option numbers.now pool) }
    ensures first { IfSome result (λ option. AreWithinBefore option numbers.now pool) }
    ensures none { result ≡ None → AreWithin numbers.now pool }
    ensures exact { result ≡ outside_of numbers.now pool }
{
    if let Some(option) = first_outside_of_numbers(numbers) {
        return Some(option);
    }
    first_outside_of_pool(pool)
}

/// Whether a packager's numbers are within their ranges, whatever the pool's are.
pub(crate) fn are_within(numbers: &Numbers) -> bool
    ensures { Decides result (AreNumbersWithin numbers.now) }
{
    first_outside_of_numbers(numbers).is_none()
}

/// The first of a packager's numbers.
#[tactic(auto, unfolding(crate::specs::Ranges::outside_of_numbers))]
fn first_outside_of_numbers(numbers: &Numbers) -> Option<Ranged>
    ensures some { IfSome result (λ option. (pool : PoolValue) → ¬ IsWithin option numbers.now pool) }
    ensures first { IfSome result (λ option. (pool : PoolValue) → AreWithinBefore option numbers.now pool) }
    ensures none { result ≡ None → AreNumbersWithin numbers.now }
    ensures exact { result ≡ outside_of_numbers numbers.now }
{
    if !is_up_to(numbers.target, MOST_TARGET) {
        return Some(Ranged::Target);
    }
    if !is_up_to(numbers.segment, numbers.target) {
        return Some(Ranged::Segment);
    }
    if !is_up_to(numbers.window, MOST_WINDOW) {
        return Some(Ranged::Window);
    }
    if !is_up_to(numbers.frame, MOST_FRAME) {
        return Some(Ranged::Frame);
    }
    if !is_up_to(numbers.gap, MOST_GAP) {
        return Some(Ranged::Gap);
    }
    if !is_up_to(numbers.most, MOST_PACKETS) {
        return Some(Ranged::Most);
    }
    if !is_up_to(numbers.program.unwrap_or(LEAST), MOST_PROGRAM) {
        return Some(Ranged::Program);
    }
    None
}

/// The same of the threads that seal, and of reading ahead.
#[tactic(auto, unfolding(crate::specs::Ranges::outside_of_pool))]
fn first_outside_of_pool(pool: Pool) -> Option<Ranged>
    ensures some { IfSome result (λ option. (numbers : NumbersValue) → ¬ IsWithin option numbers pool) }
    ensures first { IfSome result (λ option. (numbers : NumbersValue) → AreWithinBefore Workers numbers pool → AreWithinBefore option numbers pool) }
    ensures workers { result ≡ None → IsUpTo pool.workers MOST_WORKERS }
    ensures queue { result ≡ None → IsUpTo pool.queue MOST_QUEUE }
    ensures batch { result ≡ None → IsUpTo (unwrap_or pool.batch LEAST) MOST_QUEUE }
    ensures stall { result ≡ None → IsUpTo (unwrap_or pool.stall LEAST) MOST_STALL }
    ensures ahead { result ≡ None → IsUpTo (unwrap_or pool.ahead LEAST) MOST_AHEAD }
    ensures exact { result ≡ outside_of_pool pool }
{
    if !is_up_to(pool.workers, MOST_WORKERS) {
        return Some(Ranged::Workers);
    }
    if !is_up_to(pool.queue, MOST_QUEUE) {
        return Some(Ranged::Queue);
    }
    if !is_up_to(pool.batch.unwrap_or(LEAST), MOST_QUEUE) {
        return Some(Ranged::Batch);
    }
    if !is_up_to(pool.stall.unwrap_or(LEAST), MOST_STALL) {
        return Some(Ranged::Stall);
    }
    if !is_up_to(pool.ahead.unwrap_or(LEAST), MOST_AHEAD) {
        return Some(Ranged::Ahead);
    }
    None
}
