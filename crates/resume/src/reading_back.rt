//! The rows of what a media playlist lists.

ghost use Rattle.std.specs.Prelude.{◌<◌, ◌≡◌, ◌⊎◌, ◌+◌, ◌≤◌, ℕ, List, All, length, IfOk, IfSome, IsSomeAnd, OnErr, Decides};
ghost use Rattle.media_playlist.specs.Rows.{SegmentRow};
ghost use Rattle.media_reading.specs.MediaTexts.{IsListing};
ghost use Rattle.resume.specs.declared.restored.Wanted as TheWanted;
ghost use Rattle.resume.specs.Restoring.{RestoredValue, LiesWithin, IsRestored};
ghost use Rattle.resume.specs.Picked.{picks_of};
ghost use Rattle.limits.specs.declared.TheConstants.{LAST_SEGMENT};
ghost use Rattle.media_playlist.specs.Lines.{entry_of};
ghost use Rattle.ladder_items.specs.Shown.{IsNextRow, IsSmallFrame};
ghost use Rattle.resume.specs.Picking.{MayWantMemory};
ghost use Rattle.resume.specs.Reading.{ArePicked, AreRowsOf, IsFirstFrame, IsReadBack, MayBeOf, MayBegin, MayBeginWith};

use crate::picking::{Picked, pick};
use crate::restored::Restored;
use ladder_items::{FrameRow, Gone, Row};
use limits::MOST_PACKETS;
use media_playlist::is_long;
use media_reading::{Entry, Listing};
use std::alloc::{AllocError, Global};

/// The rows of what a media playlist lists, with the sizes of their files and the I-frames that an I-frame playlist lists for
/// them. None where these aren't of as many segments, or can't be of one.
pub fn read_back(
    alloc: Global,
    listing: &Listing,
    frames: &str,
    sizes: &[u64],
) -> Result<Option<Restored>, AllocError>
    requires listing { IsListing listing.now }
    requires within { listing.now.sequence + length listing.now.entries ≤ LAST_SEGMENT }
    ensures read { IfOk result (λ found. IfSome found (IsReadBack listing.now sizes.now)) }
    ensures whole { (name : List ℕ) (wanted : TheWanted.Wanted) (r : RestoredValue) →
        IsRestored name wanted listing.now frames.now sizes.now r → IfOk result (λ found. IsSomeAnd found (λ it. it ≡ r)) }
    ensures first { IfOk result (λ found. IfSome found (λ it. IsFirstFrame frames.now it.gone.frames)) }

    // Memory is wanted for a line of the text that adds to what is picked, and for rows only where they may be had.
    ensures scarce { OnErr result (MayWantMemory frames.now ⊎ MayBeOf listing.now frames.now sizes.now) }
    ensures some { OnErr result (MayWantMemory frames.now ⊎ (0 < length listing.now.entries)) }
    ensures begun { OnErr result (MayWantMemory frames.now ⊎ MayBeginWith listing.now frames.now sizes.now) }
{
    let picked = pick(alloc, frames)?;
    if picked.first >= 1 << 63 {
        return Ok(None);
    }
    let Some(earlier) = read_rows(alloc, listing, &picked, sizes)? else {
        return Ok(None);
    };
    Ok(Some(Restored {
        gone: Gone {
            rows: listing.sequence,
            frames: u128::from(picked.first),
            discontinuities: listing.discontinuity_sequence,
        },
        next: listing.sequence + earlier.len() as u64,
        earlier,
    }))
}

fn read_rows(
    alloc: Global,
    listing: &Listing,
    picked: &Picked,
    sizes: &[u64],
) -> Result<Option<Vec<Row>>, AllocError>
    requires { listing.now.sequence + length listing.now.entries ≤ LAST_SEGMENT }
    ensures read { IfOk result (λ found. IfSome found (λ rows. AreRowsOf listing.now sizes.now rows.items)) }
    ensures whole { (first : ℕ) (rows : List SegmentRow) → AreRowsOf listing.now sizes.now rows →
        ArePicked (picks_of picked.now) first rows → IfOk result (λ found. IsSomeAnd found (λ it. it.items ≡ rows)) }
    ensures scarce { OnErr result (length sizes.now ≡ length listing.now.entries) }
    ensures some { OnErr result (0 < length listing.now.entries) }
    ensures begun { OnErr result (MayBegin listing.now sizes.now (picks_of picked.now)) }
{
    if sizes.len() != listing.entries.len() {
        return Ok(None);
    }
    let mut rows = Vec::new(alloc);
    for (place, entry) in listing.entries.iter().enumerate() {
        let Some(frames) = picked.at(place) else {
            return Ok(None);
        };
        let row = row_of(alloc, *entry, sizes[place], frames)?;
        if !may_follow(listing.target, listing.sequence + place as u64, &row) {
            return Ok(None);
        }
        rows.push(row)?;
    }
    Ok(Some(rows))
}

/// The row of an entry.
fn row_of(alloc: Global, entry: Entry, size: u64, frames: &[FrameRow]) -> Result<Row, AllocError>
    ensures entry { IfOk result (λ row. entry_of row ≡ entry) }
    ensures size { IfOk result (λ row. row.size ≡ size) }
    ensures frames { IfOk result (λ row. row.frames ≡ frames.now) }
    ensures scarce { OnErr result (0 < length frames.now) }
{
    let mut listed = Vec::new(alloc);
    listed.extend_from_slice(frames)?;
    Ok(Row {
        number: entry.number,
        size,
        micros: entry.micros,
        key: entry.key,
        discontinuity: entry.discontinuity,
        frames: listed,
    })
}

/// Whether a row may have this number and come behind those before it, and its I-frames lie within its file.
fn may_follow(target: u64, number: u64, row: &Row) -> bool
    ensures { Decides result (IsNextRow target number row.now × All (LiesWithin row.now.size) row.now.frames) }
{
    is_next(target, number, row) && row.frames.iter().all(|frame| lies_within(row.size, *frame))
}

/// Whether an I-frame lies within a file of this size.
fn lies_within(size: u64, frame: FrameRow) -> bool
    ensures { Decides result (LiesWithin size frame) }
{
    frame.len <= size && frame.offset <= size - frame.len
}

/// Whether a row may have this number and come behind those before it.
fn is_next(target: u64, number: u64, row: &Row) -> bool
    ensures { Decides result (IsNextRow target number row.now) }
{
    if row.number != number || is_long(target, row) || row.frames.len() as u64 > MOST_PACKETS {
        return false;
    }
    row.size < 1 << 32
        && 0 < row.micros
        && row.micros < 1 << 32
        && row.frames.iter().all(|frame| is_measured(*frame))
}

/// Whether an I-frame is one that a rate is measured of.
fn is_measured(frame: FrameRow) -> bool
    ensures { Decides result (IsSmallFrame frame) }
{
    frame.len < 1 << 32 && 0 < frame.micros && frame.micros < 1 << 32
}
