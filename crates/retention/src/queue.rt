//! The two queues of a retention: the segments that are listed, and those that wait to go.
ghost use Rattle.std.specs.Prelude.{◌≡◌, ◌⊎◌, ◌+◌, ◌-◌, ◌<◌, ◌≤◌, ◌^◌, ◌++◌, List, ℕ, All, IfOk, OnErr, OnOk, false, length, take, drop, map, sum};
ghost use Rattle.std.specs.VecDeque.{deque_len, deque_capacity};
ghost use Rattle.retention.specs.Waiting.{is_due};

use std::alloc::AllocError;
use std::collections::VecDeque;

/// Makes room for one more that is listed, and for those before `first` to wait, where those before `gone` wait already. Answers how
/// many they are.
pub fn make_room(
    listed: &mut VecDeque<u64>,
    due: &mut VecDeque<u128>,
    gone: u64,
    first: u64,
) -> Result<u64, AllocError>
    requires { first < 2 ^ 63 }
    ensures out { IfOk result (λ out. out ≡ first - gone) }
    ensures listed { listed.new.items ≡ listed.old.items }
    ensures due { due.new.items ≡ due.old.items }
    ensures len { (deque_len listed.new ≡ deque_len listed.old) × (deque_len due.new ≡ deque_len due.old) }
    ensures room { OnOk result ((deque_len listed.new < deque_capacity listed.new) × (deque_len due.new + (first - gone) ≤ deque_capacity due.new)) }
    ensures scarce { OnErr result ((deque_capacity listed.old ≤ deque_len listed.old) ⊎ (deque_capacity due.old < deque_len due.old + (first - gone))) }
{
    let out = first.saturating_sub(gone);
    listed.reserve(1)?;
    due.reserve(out as usize)?;
    Ok(out)
}

/// Moves the first `count` segments from those that are listed to those that wait: each may go at `time` and its own
/// duration. Answers how long the others last together, in microseconds.
pub fn move_on(
    listed: &mut VecDeque<u64>,
    due: &mut VecDeque<u128>,
    count: u64,
    listed_micros: u128,
    time: u128,
) -> u128
    requires count { count ≤ length listed.old.items }
    requires room { deque_len due.old + count ≤ deque_capacity due.old }
    requires micros { listed_micros ≡ sum listed.old.items }
    requires time { time < 2 ^ 127 }
    ensures listed { listed.new.items ≡ drop count listed.old.items }
    ensures due { due.new.items ≡ due.old.items ++ map (λ m. time + m) (take count listed.old.items) }
    ensures micros { result ≡ sum listed.new.items }
    ensures less { result ≤ listed_micros }
    ensures room { deque_capacity listed.new ≡ deque_capacity listed.old }
    ensures len { deque_len listed.new ≤ deque_len listed.old }
{
    let mut left = listed_micros;
    for _ in 0..count {
        if let Some(micros) = listed.pop_front() {
            left -= u128::from(micros);
            due.push_back_reserved(time + u128::from(micros));
        }
    }
    left
}

/// Takes away those at the front that are due, and answers how many they are.
pub fn let_go(due: &mut VecDeque<u128>, clock: u128) -> u64
    requires { length due.old.items < 2 ^ 63 }
    ensures up_to { result ≤ length due.old.items }
    ensures all { All (λ d. d ≤ clock) (take result due.old.items) }
    ensures left { due.new.items ≡ drop result due.old.items }
    ensures next { is_due clock due.new.items ≡ false }
{
    let mut gone = 0;
    while can_go(due, clock) {
        due.pop_front();
        gone += 1;
    }
    gone
}

/// Whether the first of those that wait is due.
fn can_go(due: &VecDeque<u128>, clock: u128) -> bool
    ensures { result ≡ is_due clock due.now.items }
{
    match due.front() {
        Some(first) => *first <= clock,
        None => false,
    }
}
