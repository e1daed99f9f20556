ghost use Rattle.std.specs.Prelude.{◌≡◌, ◌+◌, ◌<◌, ◌≤◌, ◌^◌, ◌⊎◌, ℕ, List, [], ◌++◌, None, true, false, length, IfOk, IfErr, IsOk, OnOk, OnErr};
ghost use Rattle.ghost_list.specs.Lists.{IsBeginning};
ghost use Rattle.ts_packet.specs.Packets.{packets, decided, skipped};
ghost use Rattle.cutter.specs.declared.settings.CutSettings.{CutSettings};
ghost use Rattle.cutter.specs.declared.fault.CutFault.TheVariants.{NoMemory};
ghost use Rattle.cutter.specs.Cuts.{closed};
ghost use Rattle.cutter.specs.Settings.{IsAllowed};
ghost use Rattle.ingest.specs.Streams.{untaken, plans_of, fault_of, closed_of, GrowsAlike, GrowsPart, Stops, LacksMemoryAtPacket, Faults, Stays};
ghost use Rattle.ingest.specs.Streams.{HasNoneOpen, LacksMemory, LacksMemoryAtEnd};

use cutter::{CutFault, CutSettings, Spool, SpoolCutter};
use std::alloc::Global;
use std::marker::Model;
use ts_packet::{Reader, Skipped};

/// Takes the bytes of a rendition's input, and closes the plans of its segments in a spool.
///
/// Clauses see an intake as its rendition, its settings, the list of the bytes that it took, whether it has ended, the
/// plans of the spools that were turned out, and those closed in the spool that is being filled.
#[derive(Drop)]
pub struct Intake {
    reader: Reader,
    cutter: SpoolCutter,
    packets: Vec<[u8; 188]>,
    ended: bool,
}

impl Model for Intake {
    ghost use Rattle.ingest.specs.Streams.{Taken};

    ghost Value = { Taken };

    ghost use Rattle.ingest.specs.State.{taken, IsTied};

    ghost view = { taken };

    ghost invariant = { IsTied };
}

impl Intake {
    /// An intake that took nothing, with an empty spool.
    pub fn new(alloc: Global, rendition: usize, settings: CutSettings) -> Intake
        requires { IsAllowed settings }
        ensures { result ≡ untaken rendition settings }
    {
        Intake {
            reader: Reader::new(),
            cutter: SpoolCutter::new(alloc, rendition, settings),
            packets: Vec::new(alloc),
            ended: false,
        }
    }

    /// How many plans stand in the spool that is being filled.
    pub fn plans(&self) -> usize
        ensures { result ≡ length self.now.filled }
    {
        self.cutter.plans()
    }

    /// Takes the next bytes of the input, and closes the segments that they close.
    ///
    /// A fault is that of the stream, however it goes on; the plans that come before it were then closed.
    pub fn take(&mut self, piece: &[u8]) -> Result<(), CutFault>
        requires few { length self.old.stream + length piece.now < 2 ^ 63 }
        requires going { self.old.ended ≡ false }
        ensures taken { OnOk result (self.new ≡ record self.old { stream = self.old.stream ++ piece.now; filled = self.new.filled }) }
        ensures plans { OnOk result (GrowsAlike self.old.rendition self.old.settings
            (closed_of self.old.rendition self.old.settings self.old.stream)
            (closed_of self.old.rendition self.old.settings (self.old.stream ++ piece.now))
            self.old.filled self.new.filled) }
        ensures fault { IfErr result (λ e. (e ≡ NoMemory)
            ⊎ (Faults self.old (self.old.stream ++ piece.now) e self.new.filled
            × Stays self.old.rendition self.old.settings (self.old.stream ++ piece.now) e)) }
        ensures scarce { IfErr result (λ e. e ≡ NoMemory → LacksMemory self.old piece.now) }

        // Before it, only plans that the bytes close were closed, the first ones first.
        ensures part { OnErr result (GrowsPart
            (closed_of self.old.rendition self.old.settings self.old.stream)
            (closed_of self.old.rendition self.old.settings (self.old.stream ++ piece.now))
            self.old.filled self.new.filled) }
        ensures err { OnErr result (self.new ≡ record self.old { stream = self.new.stream; ended = true; filled = self.new.filled }) }
    {
        decided_begin();
        self.ended = true;
        self.packets.clear();
        let lent = self.reader.feed_lending(piece, &mut self.packets)?;
        push_both(&mut self.cutter, lent, &self.packets)?;
        self.ended = false;
        Ok(())
    }

    /// Ends the input, closes the segments that weren't closed yet, and tells how many bytes lay in no packet.
    pub fn finish(&mut self) -> Result<Skipped, CutFault>
        requires few { length self.old.stream < 2 ^ 63 }
        requires going { self.old.ended ≡ false }
        ensures sound { OnOk result (fault_of self.old.rendition self.old.settings self.old.stream ≡ None) }
        ensures plans { OnOk result (GrowsAlike self.old.rendition self.old.settings
            (closed_of self.old.rendition self.old.settings self.old.stream)
            (plans_of self.old.rendition self.old.settings self.old.stream)
            self.old.filled self.new.filled) }
        ensures skipped { IfOk result (λ gone. gone.bytes ≡ skipped self.old.stream) }
        ensures fault { IfErr result (λ e. (e ≡ NoMemory)
            ⊎ Faults self.old self.old.stream e self.new.filled) }
        ensures scarce { IfErr result (λ e. e ≡ NoMemory → LacksMemoryAtEnd self.old) }
        ensures part { OnErr result (GrowsPart
            (closed_of self.old.rendition self.old.settings self.old.stream)
            (plans_of self.old.rendition self.old.settings self.old.stream)
            self.old.filled self.new.filled) }
        ensures ended { self.new ≡ record self.old { stream = self.new.stream; ended = true; filled = self.new.filled } }
    {
        decided_begin();
        self.ended = true;
        self.packets.clear();
        let skipped = self.reader.finish(&mut self.packets)?;
        push_all(&mut self.cutter, &self.packets)?;
        self.cutter.finish()?;
        Ok(skipped)
    }

    /// Ends the input where it stands: a read failed. No plan is closed.
    pub fn end(&mut self)
        ensures { self.new ≡ record self.old { ended = true } }
    {
        self.ended = true;
    }

    /// Empties a spool, goes on in it with the body that is open, and answers the full one. For want of memory it
    /// answers the spool that it was given, emptied, and goes on as it was. Once the intake has ended no body is open.
    pub fn swap(&mut self, spool: Spool) -> Result<Spool, Spool>
        ensures full { IfOk result (λ full. full ≡ self.old.filled) }
        ensures turned { OnOk result (self.new ≡ record self.old { turned = self.old.turned ++ self.old.filled; filled = [] }) }
        ensures spare { IfErr result (λ spare. spare ≡ []) }
        ensures err { OnErr result (self.new ≡ self.old) }

        // Where no segment goes on there is nothing to copy, and so no memory is wanted.
        ensures none { self.old.ended ≡ false → HasNoneOpen self.old → IsOk result }
        ensures ended { self.old.ended ≡ true → IsOk result }
    {
        if self.ended {
            self.cutter.end();
        }
        self.cutter.swap(spool)
    }
}

/// What is decided begins the packets of a stream, of which there are no more than bytes.
fn decided_begin()
    ensures begin { (stream : List ℕ) → IsBeginning (decided stream) (packets stream) }
    ensures always { (stream more : List ℕ) → IsBeginning (decided stream) (packets (stream ++ more)) }
    ensures few { (stream : List ℕ) → length (packets stream) ≤ length stream }
{
    ts_packet::decided_is_the_longest();
    ts_packet::each_byte_is_counted();
}

/// The plans that some bytes close begin those of each stream that begins with the bytes, and those that more bytes
/// close. No bytes close none.
pub fn closed_plans_begin_all()
    ensures none { (r : ℕ) (s : CutSettings) → closed_of r s [] ≡ [] }
    ensures begin { (r : ℕ) (s : CutSettings) (stream more : List ℕ) → IsBeginning (closed_of r s stream) (plans_of r s (stream ++ more)) }
    ensures grow { (r : ℕ) (s : CutSettings) (stream more : List ℕ) → IsBeginning (closed_of r s stream) (closed_of r s (stream ++ more)) }
{}

/// Pushes packets and those behind them, and closes the segments that they close.
fn push_both(
    cutter: &mut SpoolCutter,
    front: &[[u8; 188]],
    back: &[[u8; 188]],
) -> Result<(), CutFault>
    requires few { length cutter.old.list + (length front.now + length back.now) < 2 ^ 63 }
    requires going { cutter.old.ended ≡ false }
    ensures pushed { OnOk result (cutter.new ≡ record cutter.old { list = cutter.old.list ++ (front.now ++ back.now); filled = cutter.new.filled }) }
    ensures plans { OnOk result (GrowsAlike cutter.old.rendition cutter.old.settings
        (closed cutter.old.rendition cutter.old.settings cutter.old.list)
        (closed cutter.old.rendition cutter.old.settings (cutter.old.list ++ (front.now ++ back.now)))
        cutter.old.filled cutter.new.filled) }
    ensures fault { IfErr result (λ e. (e ≡ NoMemory) ⊎ ((more : List (List ℕ)) →
        Stops cutter.old ((cutter.old.list ++ (front.now ++ back.now)) ++ more) e cutter.new.filled)) }
    ensures scarce { IfErr result (λ e. e ≡ NoMemory → LacksMemoryAtPacket cutter.old.rendition cutter.old.settings cutter.old.list (front.now ++ back.now)) }
    ensures part { OnErr result (GrowsPart
        (closed cutter.old.rendition cutter.old.settings cutter.old.list)
        (closed cutter.old.rendition cutter.old.settings (cutter.old.list ++ (front.now ++ back.now)))
        cutter.old.filled cutter.new.filled) }
    ensures ended { OnErr result (cutter.new.ended ≡ true) }
    ensures kept { (cutter.new.rendition ≡ cutter.old.rendition) × (cutter.new.settings ≡ cutter.old.settings) × (cutter.new.turned ≡ cutter.old.turned) }
{
    push_all(cutter, front)?;
    push_all(cutter, back)?;
    Ok(())
}

/// Pushes packets, and closes the segments that they close.
fn push_all(cutter: &mut SpoolCutter, packets: &[[u8; 188]]) -> Result<(), CutFault>
    requires few { length cutter.old.list + length packets.now < 2 ^ 63 }
    requires going { cutter.old.ended ≡ false }
    ensures pushed { OnOk result (cutter.new ≡ record cutter.old { list = cutter.old.list ++ packets.now; filled = cutter.new.filled }) }
    ensures plans { OnOk result (GrowsAlike cutter.old.rendition cutter.old.settings
        (closed cutter.old.rendition cutter.old.settings cutter.old.list)
        (closed cutter.old.rendition cutter.old.settings (cutter.old.list ++ packets.now))
        cutter.old.filled cutter.new.filled) }
    ensures fault { IfErr result (λ e. (e ≡ NoMemory) ⊎ ((more : List (List ℕ)) →
        Stops cutter.old ((cutter.old.list ++ packets.now) ++ more) e cutter.new.filled)) }
    ensures scarce { IfErr result (λ e. e ≡ NoMemory → LacksMemoryAtPacket cutter.old.rendition cutter.old.settings cutter.old.list packets.now) }
    ensures part { OnErr result (GrowsPart
        (closed cutter.old.rendition cutter.old.settings cutter.old.list)
        (closed cutter.old.rendition cutter.old.settings (cutter.old.list ++ packets.now))
        cutter.old.filled cutter.new.filled) }
    ensures ended { OnErr result (cutter.new.ended ≡ true) }
    ensures kept { (cutter.new.rendition ≡ cutter.old.rendition) × (cutter.new.settings ≡ cutter.old.settings) × (cutter.new.turned ≡ cutter.old.turned) }
{
    for packet in packets {
        cutter.push(packet)?;
    }
    Ok(())
}
