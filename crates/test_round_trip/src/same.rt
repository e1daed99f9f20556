//! Whether a run on many threads gives what one on one thread does.
use crate::run::{Ran, last_master};
use item_io::Item;
use pipeline::Report;

/// The first thing in which a run on many threads, with so many inputs and workers, differs from one on one thread. Between
/// renditions its items may come in another order.
pub fn first_other(
    one: &Ran,
    many: &Ran,
    renditions: usize,
    workers: usize,
) -> Option<&'static str> {
    match (&one.answer, &many.answer) {
        (Ok(alone), Ok(together)) => {
            if !has_same_numbers(alone, together) {
                return Some("another report of many threads");
            }
            if together.workers.len() != workers || together.own != 0 || together.thrown != 0 {
                return Some("segments that no worker sealed");
            }
        }
        (Err(alone), Err(together)) if alone == together => {}
        _ => return Some("another answer of many threads"),
    }
    if !has_same_items(one.outlet.items(), many.outlet.items(), renditions) {
        return Some("other items of many threads");
    }
    None
}

/// Whether two reports tell the same of each rendition.
fn has_same_numbers(one: &Report, other: &Report) -> bool {
    one.counts == other.counts
        && one.micros == other.micros
        && one.peaks == other.peaks
        && one.averages == other.averages
        && one.skipped == other.skipped
}

/// Whether each rendition has the same items in both, the same last master playlist, and there are as many.
fn has_same_items(one: &[Item], other: &[Item], renditions: usize) -> bool {
    if renditions == 1 {
        return one == other;
    }
    for r in 0..renditions {
        if !has_same_of(one, other, r) {
            return false;
        }
    }
    one.len() == other.len() && last_master(one) == last_master(other)
}

/// Whether this rendition has the same items in both.
fn has_same_of(one: &[Item], other: &[Item], r: usize) -> bool {
    let mut rest = other.iter();
    for item in one {
        if is_of(item, r) && rest.find(|item| is_of(item, r)) != Some(item) {
            return false;
        }
    }
    !rest.any(|item| is_of(item, r))
}

/// Whether an item is of this rendition alone.
fn is_of(item: &Item, r: usize) -> bool {
    match item {
        Item::Segment { rendition, .. }
        | Item::Media { rendition, .. }
        | Item::Frames { rendition, .. } => *rendition == r,
        Item::Master { .. } => false,
    }
}
