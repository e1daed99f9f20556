ghost use Rattle.std.specs.Prelude.{◌≡◌, ◌≢◌, ◌+◌, ◌<◌, ◌≤◌, ◌^◌, ◌++◌, ℕ, List, None, Some, true, false, length, OnOk, OnErr};
ghost use Rattle.ghost_list.specs.Bytes.{AreBytes};
ghost use Rattle.cutter.specs.Settings.{IsAllowed};
ghost use Rattle.cutter.specs.declared.settings.CutSettings.{CutSettings};
ghost use Rattle.cutter.specs.declared.fault.CutFault.TheVariants.{Ended};
ghost use Rattle.ingest.specs.Inputs.{IsCutOff};
ghost use Rattle.ingest.specs.Streams.{LacksMemory, LacksMemoryAtEnd, fault_of};
ghost use Rattle.ingest.specs.declared.lane.Stop.TheVariants.{Read};
ghost use Rattle.ingest.specs.Lanes.{is_good, IsFirst, IsOfPiece, IsOfEnd, IsSpoiled, Takes, IsTurned};
ghost use Rattle.item_io.specs.declared.limits.TheConstants.{PIECE};

use crate::fault::{StreamFault, of_stream};
use crate::intake::Intake;
use cutter::CutSettings;
use item_io::Source;
use std::alloc::{AllocError, Global};

/// Why a rendition gives no more.
#[derive(Clone, Copy, Debug, PartialEq, Eq)]
pub enum Stop {
    /// Its input came to its end, and its stream has no fault. So many bytes lay in no packet.
    Good(u64),
    /// Its stream has a fault.
    Cut(StreamFault),
    /// A read failed.
    Read,
}

/// A rendition on its way: what takes its bytes, and why it gives no more, if it stopped.
#[derive(Drop)]
pub struct Lane {
    pub intake: Intake,
    pub stop: Option<Stop>,
}

impl Lane {
    /// A rendition whose input gave nothing yet.
    pub fn new(alloc: Global, rendition: usize, settings: CutSettings) -> Lane
        requires { IsAllowed settings }
        ensures { IsFirst rendition settings result }
    {
        Lane {
            intake: Intake::new(alloc, rendition, settings),
            stop: None,
        }
    }

    /// Whether it came to its end, and its stream has no fault.
    pub fn is_good(&self) -> bool
        ensures { result ≡ is_good self.now.stop }
    {
        matches!(self.stop, Some(Stop::Good(_)))
    }

    /// Reads once, at most as many bytes as `buffer` has room for, which is a whole piece, and closes in its spool all segments that
    /// they close, or at the end of the input the last ones. A fault of the input or of its stream stops the rendition, which is no refusal:
    /// its source is left.
    ///
    /// It has to go on. Want of memory leaves it of no use.
    pub fn turn<S: Source>(&mut self, source: &mut S, buffer: &mut [u8]) -> Result<(), AllocError>
        requires reads { S.input.reads source.old < 2 ^ 63 }
        requires failures { S.input.failures source.old < 2 ^ 63 }
        requires whole { length buffer.old ≡ PIECE }
        requires open { self.old.stop ≡ None }
        requires going { self.old.intake.ended ≡ false }
        requires few { length self.old.intake.stream + PIECE < 2 ^ 63 }
        ensures ok { OnOk result (IsTurned S.input source.old source.new self.old self.new) }
        ensures unread { OnOk result (self.new.stop ≡ Some Read → self.new.intake ≡ record self.old.intake { ended = true }) }
        ensures err { OnErr result (IsCutOff S.input source.old source.new self.old.intake) }
        ensures broken { OnErr result (self.new.intake.ended ≡ true) }
        ensures spoiled { OnErr result (IsSpoiled self.old.intake self.new.intake) }
        ensures no_read_failed { OnErr result (S.input.failures source.new ≡ S.input.failures source.old) }
        ensures stop { OnErr result (self.new.stop ≡ self.old.stop) }
        ensures ended { OnOk result (self.new.stop ≢ None → self.new.intake.ended ≡ true) }
        ensures left { OnOk result (self.new.stop ≢ None → S.input.is_left source.new ≡ true) }
        ensures unleft { OnOk result (self.new.stop ≡ None → S.input.is_left source.new ≡ false) }
        ensures unleft_at_err { OnErr result (S.input.is_left source.new ≡ false) }
    {
        self.read(source, buffer)?;
        if self.stop.is_some() {
            source.leave();
        }
        Ok(())
    }

    /// Reads once, and closes all that the bytes close, or at the end of the input the last ones.
    fn read<S: Source>(&mut self, source: &mut S, buffer: &mut [u8]) -> Result<(), AllocError>
        requires reads { S.input.reads source.old < 2 ^ 63 }
        requires failures { S.input.failures source.old < 2 ^ 63 }
        requires whole { length buffer.old ≡ PIECE }
        requires open { self.old.stop ≡ None }
        requires going { self.old.intake.ended ≡ false }
        requires few { length self.old.intake.stream + PIECE < 2 ^ 63 }
        ensures ok { OnOk result (IsTurned S.input source.old source.new self.old self.new) }
        ensures unread { OnOk result (self.new.stop ≡ Some Read → self.new.intake ≡ record self.old.intake { ended = true }) }
        ensures err { OnErr result (IsCutOff S.input source.old source.new self.old.intake) }
        ensures broken { OnErr result (self.new.intake.ended ≡ true) }
        ensures spoiled { OnErr result (IsSpoiled self.old.intake self.new.intake) }
        ensures no_read_failed { OnErr result (S.input.failures source.new ≡ S.input.failures source.old) }
        ensures stop { OnErr result (self.new.stop ≡ self.old.stop) }
        ensures ended { OnOk result (self.new.stop ≢ None → self.new.intake.ended ≡ true) }
        ensures unleft { S.input.is_left source.new ≡ false }
    {
        match source.lend(buffer) {
            Err(_) => {
                self.intake.end();
                self.stop = Some(Stop::Read);
            }
            Ok(piece) if piece.is_empty() => self.close()?,
            Ok(piece) => {
                pieces_are_bytes(piece);
                self.feed(piece)?;
            }
        }
        Ok(())
    }

    /// Takes the next bytes.
    fn feed(&mut self, piece: &[u8]) -> Result<(), AllocError>
        requires few { length self.old.intake.stream + length piece.now < 2 ^ 63 }
        requires open { self.old.stop ≡ None }
        requires going { self.old.intake.ended ≡ false }
        ensures takes { OnOk result (Takes self.old self.new (self.old.intake.stream ++ piece.now)) }
        ensures stays { OnOk result (IsOfPiece self.new.stop self.old.intake.rendition self.old.intake.settings (self.old.intake.stream ++ piece.now)) }
        ensures stop { OnErr result (self.new.stop ≡ self.old.stop) }
        ensures broken { OnErr result (self.new.intake.ended ≡ true) }
        ensures spoiled { OnErr result (IsSpoiled self.old.intake self.new.intake) }
        ensures scarce { OnErr result (LacksMemory self.old.intake piece.now) }
        ensures ended { OnOk result (self.new.stop ≢ None → self.new.intake.ended ≡ true) }
    {
        no_stream_has_ended();
        if let Err(fault) = self.intake.take(piece) {
            self.stop = Some(Stop::Cut(of_stream(fault)?));
        }
        Ok(())
    }

    /// Comes to the end of its input.
    fn close(&mut self) -> Result<(), AllocError>
        requires few { length self.old.intake.stream < 2 ^ 63 }
        requires open { self.old.stop ≡ None }
        requires going { self.old.intake.ended ≡ false }
        ensures takes { OnOk result (Takes self.old self.new self.old.intake.stream) }
        ensures ends { OnOk result (IsOfEnd self.new.stop) }
        ensures stop { OnErr result (self.new.stop ≡ self.old.stop) }
        ensures broken { OnErr result (self.new.intake.ended ≡ true) }
        ensures spoiled { OnErr result (IsSpoiled self.old.intake self.new.intake) }
        ensures scarce { OnErr result (LacksMemoryAtEnd self.old.intake) }
        ensures ended { OnOk result (self.new.stop ≢ None → self.new.intake.ended ≡ true) }
    {
        no_stream_has_ended();
        self.stop = match self.intake.finish() {
            Ok(skipped) => Some(Stop::Good(skipped.bytes)),
            Err(fault) => Some(Stop::Cut(of_stream(fault)?)),
        };
        Ok(())
    }
}

/// A piece of a stream is made of bytes.
fn pieces_are_bytes(piece: &[u8])
    ensures { AreBytes piece.now }
{}

/// No fault of a stream says that its cutter has ended.
fn no_stream_has_ended()
    ensures { (r : ℕ) (s : CutSettings) (stream : List ℕ) → fault_of r s stream ≢ Some Ended }
{
    cutter::faults_stand_at_the_least_packet();
}
