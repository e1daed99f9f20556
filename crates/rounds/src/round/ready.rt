//! Gives what is ready: the sealed segments that come next in their rendition, without a gap.

ghost use Rattle.std.specs.Prelude.{◌<◌, ◌≡◌, ◌≤◌, IfErr, IfOk, OnErr, OnOk, false, true};
ghost use Rattle.flow_core.specs.Gatherings.{awaited};
ghost use Rattle.rounds.specs.Gated.{IsUnheld};
ghost use Rattle.rounds.specs.Rounds.{Breaks, IsDry, IsSomewhere, KeepsCounts, KeepsOthers, Moves, NoneReady, ReadsNoneIn, due_in, snapshots_in};

use crate::round::machine::Round;
use item_io::{Outlet, Source};
use ladder_items::{PackFault, Settings};
use std::alloc::Global;
use std::sync::Wait;
use std::sync::ledger::Ledger;
use work_desk::{Permit, Seen, Shelf};

impl<'d, 's, 'r, S: Source, O: Outlet, L: Ledger, M: Ledger, P: Permit, R: Wait> Round<
    'd,
    's,
    'r,
    S,
    O,
    L,
    M,
    P,
    R,
> {
    /// Gives the sealed segments of every rendition, up to its first gap, once the desk was seen with nothing done.
    pub fn give_all_ready(
        &mut self,
        alloc: Global,
        settings: &Settings,
        _seen: Seen,
    ) -> Result<(), PackFault>
        requires none_done { _seen.done ≡ 0 }
        requires somewhere { IsSomewhere S.input O.output settings.now self.old }
        ensures ok { OnOk result (Moves S.input O.output settings.now self.old self.new) }
        ensures err { IfErr result (Breaks S.input O.output settings.now self.old self.new) }
        ensures unheld { IfErr result IsUnheld }
        ensures none_read { ReadsNoneIn self.old self.new }
        ensures due { OnOk result (due_in self.new ≡ due_in self.old) }
        ensures short { OnErr result (snapshots_in self.new.broadcast < due_in self.old) }
        ensures counts { OnOk result (KeepsCounts self.old self.new) }
        ensures dry { OnOk result (NoneReady self.new.collector) }
        ensures none { OnErr result (NoneReady self.old.collector → ⊥) }
        ensures fewer { OnOk result (awaited self.new.collector.sequences ≤ awaited self.old.collector.sequences) }
        ensures fell { OnErr result (awaited self.new.collector.sequences < awaited self.old.collector.sequences) }
    {
        for r in 0..settings.renditions.len() {
            self.give_ready(alloc, settings, r)?;
        }
        Ok(())
    }

    /// Gives the sealed segments of rendition `r`, up to the first gap.
    fn give_ready(&mut self, alloc: Global, settings: &Settings, r: usize) -> Result<(), PackFault>
        requires somewhere { IsSomewhere S.input O.output settings.now self.old }
        ensures ok { OnOk result (Moves S.input O.output settings.now self.old self.new) }
        ensures err { IfErr result (Breaks S.input O.output settings.now self.old self.new) }
        ensures unheld { IfErr result IsUnheld }
        ensures none_read { ReadsNoneIn self.old self.new }
        ensures due { OnOk result (due_in self.new ≡ due_in self.old) }
        ensures short { OnErr result (snapshots_in self.new.broadcast < due_in self.old) }
        ensures counts { OnOk result (KeepsCounts self.old self.new) }
        ensures dry { OnOk result (IsDry r self.new) }
        ensures others { OnOk result (KeepsOthers r self.old self.new) }
        ensures idle { OnOk result (IsDry r self.old → self.new ≡ self.old) }
        ensures none { OnErr result (IsDry r self.old → ⊥) }
        ensures fewer { OnOk result (awaited self.new.collector.sequences ≤ awaited self.old.collector.sequences) }
        ensures fell { OnErr result (awaited self.new.collector.sequences < awaited self.old.collector.sequences) }
    {
        while self.give_next(alloc, settings, r)? {}
        Ok(())
    }

    /// Gives the next segment of rendition `r` if it has come sealed, and returns whether it had. Others are sealed in its buffer, if it lay in one.
    fn give_next(&mut self, alloc: Global, settings: &Settings, r: usize) -> Result<bool, PackFault>
        requires somewhere { IsSomewhere S.input O.output settings.now self.old }
        ensures ok { OnOk result (Moves S.input O.output settings.now self.old self.new) }
        ensures err { IfErr result (Breaks S.input O.output settings.now self.old self.new) }
        ensures unheld { IfErr result IsUnheld }
        ensures none_read { ReadsNoneIn self.old self.new }
        ensures due { OnOk result (due_in self.new ≡ due_in self.old) }
        ensures short { OnErr result (snapshots_in self.new.broadcast < due_in self.old) }
        ensures counts { OnOk result (KeepsCounts self.old self.new) }
        ensures fewer { IfOk result (λ any. any ≡ true → awaited self.new.collector.sequences < awaited self.old.collector.sequences) }
        ensures dry { IfOk result (λ any. any ≡ false → IsDry r self.new) }
        ensures stood { IfOk result (λ any. any ≡ true → IsDry r self.old → ⊥) }
        ensures idle { IfOk result (λ any. any ≡ false → self.new ≡ self.old) }
        ensures fell { OnErr result (awaited self.new.collector.sequences < awaited self.old.collector.sequences) }
        ensures none { OnErr result (IsDry r self.old → ⊥) }
        ensures others { OnOk result (KeepsOthers r self.old self.new) }
    {
        let Some(sealed) = self.collector.next(r) else {
            return Ok(false);
        };
        let buffer = self.broadcast.give_segment(alloc, settings, r, sealed)?;
        put_back(self.broadcast.rt(), self.desk.shelf(), buffer);
        Ok(true)
    }
}

/// Puts the buffer that a segment lay in, if it lay in one, on the shelf.
fn put_back<R: Wait>(rt: &R, shelf: &Shelf, buffer: Option<Vec<u8>>) {
    if let Some(buffer) = buffer {
        shelf.put(rt, buffer);
    }
}
