ghost use Rattle.std.specs.Prelude.{◌≡◌, ◌≢◌, ◌<◌, ◌^◌, ◌⊎◌, [], ◌∷◌, ◌++◌, ℕ, List, Ok, Err, true, false};
ghost use Rattle.std.specs.Prelude.{None, length, IfSome, IfOk, IfErr, IsOk, OnOk, OnErr};
ghost use Rattle.cutter.specs.declared.fault.CutFault.TheVariants.{NoMemory, Ended};
ghost use Rattle.cutter.specs.Cuts.{cuts, closed, fault, plans, made, Ends, HasSegment, MayWantBody};
ghost use Rattle.cutter.specs.Ordered.{IsPlan};
ghost use Rattle.cutter.specs.Settings.{IsAllowed};
ghost use Rattle.cutter.specs.Spooled.{IsOne};
ghost use Rattle.cutter.specs.Stream.{in_force, is_accepted, is_packet, MayWantMemory};

use crate::fault::CutFault;
use crate::plan::Plan;
use crate::settings::CutSettings;
use crate::spool::Spool;
use crate::spool_cutter::SpoolCutter;
use ghost_list::GhostList;
use std::alloc::{AllocError, Global};
use std::marker::Model;

/// Cuts the packets of a rendition into segments, and gives the plan of each as soon as the next one begins.
///
/// A segment begins at a key frame, an access unit of video with a PTS and random_access_indicator, that is later than all
/// key frames before it in its epoch: the first segment at the first of these, and each next one at the first that lies at
/// least `segment` behind the last cut, or in another epoch, or under other tables.
///
/// Clauses see a cutter as its rendition, its settings, the list of the packets that it was pushed, and whether it has
/// ended. It ends at a fault and at the end of the stream; from then on every call answers Ended.
#[derive(Drop)]
pub struct Cutter {
    alloc: Global,
    inner: SpoolCutter,
    ended: bool,
    fed: GhostList<[u8; 188]>,
}

impl Model for Cutter {
    ghost use Rattle.cutter.specs.Settings.{Pushed};

    ghost Value = { Pushed };

    ghost use Rattle.cutter.specs.State.{pushed, IsEmptied};
    ghost use Rattle.std.specs.Prelude.{◌≡◌, false};

    ghost view = { pushed };

    ghost invariant = { λ c. c.ended ≡ false → IsEmptied c };
}

impl Cutter {
    /// A cutter that was pushed nothing.
    pub fn new(alloc: Global, rendition: usize, settings: CutSettings) -> Cutter
        requires { IsAllowed settings }
        ensures { result ≡ record { rendition = rendition; settings = settings; list = []; ended = false } }
    {
        Cutter {
            alloc,
            inner: SpoolCutter::new(alloc, rendition, settings),
            ended: false,
            fed: GhostList::new(),
        }
    }

    /// Takes the next 188 bytes of the stream, and gives the plan of the segment that they close, if they close one. Bytes
    /// that are no packet take no part. The caller pushes fewer than 2^63 packets.
    ///
    /// A fault is told at the packet that brings it, however the stream goes on: LongSegment, BigSegment, Limit. The plans
    /// that were given before are then all that come before the fault. NoMemory stands in place of none of these.
    pub fn push(&mut self, packet: &[u8; 188]) -> Result<Option<Plan>, CutFault>
        requires { length self.old.list < 2 ^ 63 }
        ensures pushed { OnOk result (self.new ≡ record self.old { list = self.old.list ++ packet.now ∷ [] }) }
        ensures going { OnOk result (self.old.ended ≡ false) }
        ensures plan { IfOk result (λ plan.
            closed self.old.rendition self.old.settings (self.old.list ++ packet.now ∷ [])
            ≡ closed self.old.rendition self.old.settings self.old.list ++ made plan) }
        ensures order { IfOk result (λ plan. IfSome plan (λ plan.
            IsPlan self.old.rendition self.old.settings (length (closed self.old.rendition self.old.settings self.old.list)) plan)) }
        ensures sound { OnOk result ((cuts self.old.rendition self.old.settings (self.old.list ++ packet.now ∷ [])).fault ≡ None) }
        ensures ended { self.old.ended ≡ true → result ≡ Err Ended }
        ensures fault { self.old.ended ≡ false → IfErr result (λ e. (e ≡ NoMemory) ⊎ ((more : List (List ℕ)) →
            Ends self.old.rendition self.old.settings (self.old.list ++ packet.now ∷ more) e
            (closed self.old.rendition self.old.settings self.old.list))) }
        ensures scarce { IfErr result (λ e. e ≡ NoMemory →
            (cuts self.old.rendition self.old.settings (self.old.list ++ packet.now ∷ [])).fault ≡ None) }
        ensures err { OnErr result (self.new ≡ record self.old { ended = true }) }
        ensures dropped { is_packet packet.now ≡ false → self.old.ended ≡ false → result ≡ Ok None }

        // Only a packet that a body takes closes a segment. Only such a one, or one that brings something to the tables, wants memory.
        ensures accepted { IfOk result (λ plan. plan ≢ None → is_accepted (in_force self.old.settings self.old.list) packet.now ≡ true) }
        ensures memory { IfErr result (λ e. e ≡ NoMemory → MayWantMemory self.old.settings self.old.list packet.now) }

        // Behind one that closes a segment the next goes on, and so one does behind one that wants memory, but for the tables'.
        ensures next { IfOk result (λ plan. plan ≢ None → HasSegment self.old.rendition self.old.settings (self.old.list ++ packet.now ∷ [])) }
        ensures body { IfErr result (λ e. e ≡ NoMemory → MayWantBody self.old.rendition self.old.settings self.old.list packet.now) }
    {
        if self.ended {
            return Err(CutFault::Ended);
        }
        self.ended = true;
        let closed = self.inner.push(packet)?;
        let plan = take_plan(self.alloc, &mut self.inner, closed)?;
        self.fed.push(packet);
        self.ended = false;
        Ok(plan)
    }

    /// Ends the stream, and gives the plan of its last segment. The cutter has then ended.
    ///
    /// Told are NoProgram where no tables were ever in force, NoStart where no segment begins, and LongSegment. NoMemory
    /// stands in place of none of these.
    pub fn finish(&mut self) -> Result<Option<Plan>, CutFault>
        ensures done { self.new ≡ record self.old { ended = true } }
        ensures going { OnOk result (self.old.ended ≡ false) }
        ensures plan { IfOk result (λ plan.
            plans self.old.rendition self.old.settings self.old.list
            ≡ closed self.old.rendition self.old.settings self.old.list ++ made plan) }
        ensures order { IfOk result (λ plan. IfSome plan (λ plan.
            IsPlan self.old.rendition self.old.settings (length (closed self.old.rendition self.old.settings self.old.list)) plan)) }
        ensures sound { OnOk result (fault self.old.rendition self.old.settings self.old.list ≡ None) }
        ensures ended { self.old.ended ≡ true → result ≡ Err Ended }
        ensures fault { self.old.ended ≡ false → IfErr result (λ e. (e ≡ NoMemory)
            ⊎ Ends self.old.rendition self.old.settings self.old.list e
            (closed self.old.rendition self.old.settings self.old.list)) }
        ensures scarce { IfErr result (λ e. e ≡ NoMemory → fault self.old.rendition self.old.settings self.old.list ≡ None) }
    {
        if self.ended {
            return Err(CutFault::Ended);
        }
        self.ended = true;
        let closed = self.inner.finish()?;
        let plan = take_plan(self.alloc, &mut self.inner, closed)?;
        Ok(plan)
    }
}

/// Turns out the plan that was closed, if one was, and moves it out of its spool.
fn take_plan(
    alloc: Global,
    inner: &mut SpoolCutter,
    closed: bool,
) -> Result<Option<Plan>, AllocError>
    requires { IsOne inner.old.filled closed }
    ensures ok { IfOk result (λ plan. inner.old.filled ≡ made plan) }
    ensures same { OnOk result (inner.new ≡ record inner.old { turned = inner.new.turned; filled = [] }) }
    ensures err { OnErr result (inner.new ≡ inner.old) }
    ensures none { closed ≡ false → result ≡ Ok None }

    // Where no segment goes on there is nothing to copy.
    ensures open { inner.old.ended ≡ false → (cuts inner.old.rendition inner.old.settings inner.old.list).going ≡ None → IsOk result }
    ensures ended { inner.old.ended ≡ true → IsOk result }
{
    if !closed {
        return Ok(None);
    }
    match inner.swap(Spool::new(alloc)) {
        Ok(full) => Ok(full.into_first()),
        Err(_spare) => Err(AllocError),
    }
}
