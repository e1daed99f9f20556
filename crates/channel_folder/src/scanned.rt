ghost use Rattle.std.specs.Prelude.{◌≡◌, ◌<◌, Any, MatchResult, filter, nat_lt, map, slice_index_or, []};
ghost use Rattle.channel_folder.specs.Scans.{numbers_at};
ghost use Rattle.std.specs.String.{string_bytes};

use std::alloc::{AllocError, Global};
use std::marker::Model;

/// The files of a ladder's renditions in a folder, as one look at it found them: for each rendition the numbers of its segments'
/// files, and the names of unfinished files.
#[derive(Drop)]
pub struct Scan {
    pub(crate) numbers: Vec<Vec<u64>>,
    pub(crate) unfinished: Vec<String>,
}

impl Model for Scan {
    ghost use Rattle.std.specs.Prelude.{map};
    ghost use Rattle.std.specs.String.{string_bytes};
    ghost use Rattle.channel_folder.specs.Scans.{ScanValue};

    ghost Value = { ScanValue };

    ghost view = { λ s. record { numbers = map (λ n. n.items) s.numbers.items; unfinished = map string_bytes s.unfinished.items } };
}

impl Scan {
    /// The numbers of a rendition's segments below one.
    pub fn older(&self, alloc: Global, r: usize, base: u64) -> Result<Vec<u64>, AllocError>
        ensures { MatchResult result (λ older. older.items ≡ filter (λ n. nat_lt n base) (numbers_at self.now r))
            (λ _. Any (λ n. n < base) (numbers_at self.now r)) }
    {
        below(alloc, self.numbers_of(r), base)
    }

    /// The numbers of a rendition's segments.
    pub(crate) fn numbers_of(&self, r: usize) -> &[u64]
        ensures { result.now ≡ numbers_at self.now r }
    {
        numbers_in(&self.numbers, r)
    }

    /// The names of the unfinished files.
    pub(crate) fn unfinished(&self) -> &[String]
        ensures { map string_bytes result.now ≡ self.now.unfinished }
    {
        &self.unfinished
    }
}

/// Those at a place; none past the last.
fn numbers_in(numbers: &[Vec<u64>], r: usize) -> &[u64]
    ensures { result.now ≡ slice_index_or (map (λ n. n.items) numbers.now) r [] }
{
    match numbers.get(r) {
        Some(found) => found,
        None => &[],
    }
}

/// Those below one.
fn below(alloc: Global, numbers: &[u64], base: u64) -> Result<Vec<u64>, AllocError>
    ensures { MatchResult result (λ older. older.items ≡ filter (λ n. nat_lt n base) numbers.now)
        (λ _. Any (λ n. n < base) numbers.now) }
{
    let mut older = Vec::new(alloc);
    for n in numbers {
        if *n >= base {
            continue;
        }
        older.push(*n)?;
    }
    Ok(older)
}
