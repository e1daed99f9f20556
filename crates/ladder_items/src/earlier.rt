//! The rows of earlier runs, which a rendition goes on behind.
ghost use Rattle.std.specs.Prelude.{◌≡◌, ◌+◌, ◌*◌, ◌<◌, ◌≤◌, ◌^◌, ◌++◌, [], false, length, All, Decides, IfOk, IsOk, OnOk, OnErr};
ghost use Rattle.ladder_items.specs.Shown.{IsNextRow, IsSmallFrame, AreNextRows, known};

use crate::playlists::Playlists;
use limits::MOST_PACKETS;
use media_playlist::{FrameRow, Row, is_long};
use std::alloc::{AllocError, Global};

/// Whether rows follow on one another from a number on.
pub fn follow(target: u64, first: u64, rows: &[Row]) -> bool
    requires { first < 2 ^ 63 }
    ensures { Decides result (AreNextRows target first rows.now) }
{
    for (i, row) in rows.iter().enumerate() {
        if !is_next(target, first + i as u64, row) {
            return false;
        }
    }
    true
}

/// Whether a row may come behind so many.
fn is_next(target: u64, count: u64, row: &Row) -> bool
    ensures { Decides result (IsNextRow target count row.now) }
{
    row.number == count
        && !is_long(target, row)
        && row.size < 1 << 32
        && row.micros > 0
        && row.micros < 1 << 32
        && row.frames.len() as u64 <= MOST_PACKETS
        && row.frames.iter().all(|frame| is_small(*frame))
}

/// Whether a meter takes an I-frame.
fn is_small(frame: FrameRow) -> bool
    ensures { Decides result (IsSmallFrame frame) }
{
    frame.len < 1 << 32 && frame.micros > 0 && frame.micros < 1 << 32
}

/// The same row once more.
fn copy_of(alloc: Global, row: &Row) -> Result<Row, AllocError>
    ensures ok { IfOk result (λ copy. copy ≡ row.now) }
    ensures scarce { OnErr result (0 < length row.now.frames) }
{
    let mut frames = Vec::new(alloc);
    frames.extend_from_slice(&row.frames)?;
    Ok(Row {
        number: row.number,
        size: row.size,
        micros: row.micros,
        key: row.key,
        discontinuity: row.discontinuity,
        frames,
    })
}

/// Pushes rows that follow on what was pushed.
pub fn push_rows(alloc: Global, playlists: &mut Playlists, rows: &[Row]) -> Result<(), AllocError>
    requires going { playlists.old.ended ≡ false }
    requires none { known playlists.old ≡ [] }
    requires few { length rows.now < 2 ^ 32 }
    requires follow { AreNextRows playlists.old.target playlists.old.gone.rows rows.now }
    ensures ok { OnOk result (playlists.new ≡ record playlists.old { rows = playlists.old.rows ++ rows.now }) }
    ensures none { rows.now ≡ [] → IsOk result }
{
    for row in rows {
        let copy = copy_of(alloc, row)?;
        if playlists.push_row(copy).is_err() {
            return Err(AllocError);
        }
    }
    Ok(())
}
