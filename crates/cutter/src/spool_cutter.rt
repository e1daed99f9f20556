ghost use Rattle.std.specs.Prelude.{◌≡◌, ◌<◌, ◌^◌, ◌⊎◌, [], ◌∷◌, ◌++◌, ℕ, List, Option, is_some, Ok, Err, true, false, None, length, IfSome};
ghost use Rattle.std.specs.Prelude.{IfOk, IfErr, IsOk, OnOk, OnErr};
ghost use Rattle.cutter.specs.declared.fault.CutFault.TheVariants.{NoMemory, Ended};
ghost use Rattle.cutter.specs.Plans.{SegmentPlan};
ghost use Rattle.cutter.specs.Cuts.{cuts, closed, fault, plans, made, Ends, HasSegment, MayWantBody};
ghost use Rattle.cutter.specs.Stream.{in_force, is_accepted, is_packet, packet_list, MayWantMemory};
ghost use Rattle.psi_tables.specs.State.{BringsTables};
ghost use Rattle.cutter.specs.Settings.{IsAllowed};
ghost use Rattle.cutter.specs.Spooled.{Closes, all_plans};

use crate::fault::CutFault;
use crate::following::{Arrival, look_behind, watch_packet};
use crate::going::Going;
use crate::place::{finish, place};
use crate::point::{Mark, counted};
use crate::reel::Reel;
use crate::settings::CutSettings;
use crate::spool::Spool;
use ghost_list::GhostList;
use pes_time::{Clock, Stamp};
use psi_tables::Watch;
use std::alloc::{AllocError, Global};
use std::marker::Model;
use std::mem;

/// Cuts the packets of a rendition into segments as `Cutter` does, and closes their plans in a spool.
///
/// Clauses see it as its rendition, its settings, the list of the packets that it was pushed, whether it has ended, the
/// plans of each spool that was turned out, and those closed in the spool that is being filled. It ends at a fault and at
/// the end of the stream; from then on every push and finish answers Ended. Where its spool has room, a push takes memory
/// for tables alone: those that come, and a copy of those at which a segment begins.
#[derive(Drop)]
pub struct SpoolCutter {
    rendition: usize,
    settings: CutSettings,
    watch: Watch,
    clock: Clock,
    top: Option<Stamp>,
    going: Option<Going>,
    reel: Reel,
    ended: bool,
    fed: GhostList<[u8; 188]>,
    turned: GhostList<Spool>,
}

impl Model for SpoolCutter {
    ghost use Rattle.cutter.specs.Spooled.{Spooling};

    ghost Value = { Spooling };

    ghost use Rattle.cutter.specs.State.{spooled, IsTied};

    ghost view = { spooled };

    ghost invariant = { IsTied };
}

impl SpoolCutter {
    /// A cutter that was pushed nothing, with an empty spool.
    pub fn new(alloc: Global, rendition: usize, settings: CutSettings) -> SpoolCutter
        requires { IsAllowed settings }
        ensures { result ≡ record { rendition = rendition; settings = settings; list = []; ended = false; turned = []; filled = [] } }
    {
        SpoolCutter {
            rendition,
            settings,
            watch: Watch::new(alloc, settings.program),
            clock: Clock::new(settings.gap),
            top: None,
            going: None,
            reel: Reel::new(alloc),
            ended: false,
            fed: GhostList::new(),
            turned: GhostList::new(),
        }
    }

    /// How many plans stand in the spool that is being filled.
    pub fn plans(&self) -> usize
        ensures { result ≡ length self.now.filled }
    {
        self.reel.plans()
    }

    /// Takes the next 188 bytes of the stream, and says whether they close a segment: its plan then stands last in the
    /// spool. Bytes that are no packet take no part. The caller pushes fewer than 2^63 packets.
    ///
    /// A fault is told at the packet that brings it, however the stream goes on: LongSegment, BigSegment, Limit. The plans
    /// that were closed before are then all that come before the fault. NoMemory stands in place of none of these.
    pub fn push(&mut self, packet: &[u8; 188]) -> Result<bool, CutFault>
        requires { length self.old.list < 2 ^ 63 }
        ensures pushed { OnOk result (self.new ≡ record self.old { list = self.old.list ++ packet.now ∷ []; filled = self.new.filled }) }
        ensures going { OnOk result (self.old.ended ≡ false) }
        ensures closes { IfOk result (Closes self.old.rendition self.old.settings
            (closed self.old.rendition self.old.settings self.old.list)
            (closed self.old.rendition self.old.settings (self.old.list ++ packet.now ∷ []))
            self.old.filled self.new.filled) }
        ensures all { OnOk result (all_plans self.new ≡ closed self.old.rendition self.old.settings (self.old.list ++ packet.now ∷ [])) }
        ensures sound { OnOk result ((cuts self.old.rendition self.old.settings (self.old.list ++ packet.now ∷ [])).fault ≡ None) }
        ensures ended { self.old.ended ≡ true → result ≡ Err Ended }
        ensures fault { self.old.ended ≡ false → IfErr result (λ e. (e ≡ NoMemory) ⊎ ((more : List (List ℕ)) →
            Ends self.old.rendition self.old.settings (self.old.list ++ packet.now ∷ more) e
            (closed self.old.rendition self.old.settings self.old.list))) }
        ensures scarce { IfErr result (λ e. e ≡ NoMemory →
            (cuts self.old.rendition self.old.settings (self.old.list ++ packet.now ∷ [])).fault ≡ None) }
        ensures err { OnErr result (self.new ≡ record self.old { ended = true }) }

        // Bytes that are no packet take no part: they bring no fault, close no plan, and want no memory.
        ensures dropped { is_packet packet.now ≡ false → self.old.ended ≡ false → result ≡ Ok false }

        // Only a packet that a body takes closes a plan. Only such a one, or one that brings something to the tables, wants memory.
        ensures accepted { IfOk result (λ closed. closed ≡ true → is_accepted (in_force self.old.settings self.old.list) packet.now ≡ true) }
        ensures memory { IfErr result (λ e. e ≡ NoMemory → MayWantMemory self.old.settings self.old.list packet.now) }

        // Behind a packet that closes a plan a segment goes on, and so it does behind one that wants memory, but for the tables'.
        ensures next { IfOk result (λ closed. closed ≡ true → HasSegment self.old.rendition self.old.settings (self.old.list ++ packet.now ∷ [])) }
        ensures body { IfErr result (λ e. e ≡ NoMemory → MayWantBody self.old.rendition self.old.settings self.old.list packet.now) }
    {
        if self.ended {
            return Err(CutFault::Ended);
        }
        self.ended = true;
        let arrival = Arrival::new(packet);
        let look = look_behind(&self.watch, &mut self.clock, &arrival)?;
        let counted = counted(self.top, look);
        let mark = Mark {
            packet,
            look,
            counted,
        };
        let closed = place(
            self.rendition,
            self.settings,
            &mut self.reel,
            &mut self.going,
            self.watch.tables(),
            &mark,
        )?;
        watch_or_reopen(&mut self.watch, &mut self.reel, closed, &arrival)?;
        self.top = counted.or(self.top);
        self.fed.push(packet);
        self.ended = false;
        Ok(closed)
    }

    /// Ends the stream, and closes the plan of its last segment: true. The cutter has then ended.
    ///
    /// Told are NoProgram where no tables were ever in force, NoStart where no segment begins, and LongSegment. NoMemory
    /// stands in place of none of these.
    pub fn finish(&mut self) -> Result<bool, CutFault>
        ensures done { self.new ≡ record self.old { ended = true; filled = self.new.filled } }
        ensures going { OnOk result (self.old.ended ≡ false) }
        ensures closes { IfOk result (Closes self.old.rendition self.old.settings
            (closed self.old.rendition self.old.settings self.old.list)
            (plans self.old.rendition self.old.settings self.old.list)
            self.old.filled self.new.filled) }
        ensures all { OnOk result (all_plans self.new ≡ plans self.old.rendition self.old.settings self.old.list) }
        ensures sound { OnOk result (fault self.old.rendition self.old.settings self.old.list ≡ None) }
        ensures ended { self.old.ended ≡ true → result ≡ Err Ended }
        ensures fault { self.old.ended ≡ false → IfErr result (λ e. (e ≡ NoMemory)
            ⊎ Ends self.old.rendition self.old.settings self.old.list e
            (closed self.old.rendition self.old.settings self.old.list)) }
        ensures scarce { IfErr result (λ e. e ≡ NoMemory → fault self.old.rendition self.old.settings self.old.list ≡ None) }
        ensures err { OnErr result (self.new.filled ≡ self.old.filled) }
    {
        if self.ended {
            return Err(CutFault::Ended);
        }
        self.ended = true;
        let going = self.going.take();
        finish(
            self.rendition,
            self.settings,
            &mut self.reel,
            self.watch.tables(),
            going,
        )?;
        Ok(true)
    }

    /// Ends the stream where it stands. No plan is closed, and the body that went on is let go at the next swap.
    pub fn end(&mut self)
        ensures { self.new ≡ record self.old { ended = true } }
    {
        self.ended = true;
    }

    /// Empties a spool, copies the body that goes on with its I-frames into it, goes on in it, and answers the full one.
    /// For want of memory it answers the spool that it was given, emptied, and goes on as it was. Once the cutter has ended
    /// no body goes on.
    pub fn swap(&mut self, spool: Spool) -> Result<Spool, Spool>
        ensures full { IfOk result (λ full. full ≡ self.old.filled) }
        ensures turned { OnOk result (self.new ≡ record self.old { turned = self.old.turned ++ self.old.filled ∷ []; filled = [] }) }
        ensures spare { IfErr result (λ spare. spare ≡ []) }
        ensures err { OnErr result (self.new ≡ self.old) }

        // Where no segment goes on there is nothing to copy.
        ensures none { self.old.ended ≡ false → (cuts self.old.rendition self.old.settings self.old.list).going ≡ None → IsOk result }
        ensures ended { self.old.ended ≡ true → IsOk result }
    {
        let Spool { mut reel } = spool;
        if self.ended {
            reel.clear();
        } else if reel.copy_open(&self.reel).is_err() {
            reel.clear();
            return Err(Spool { reel });
        }
        let full = Spool {
            reel: mem::replace(&mut self.reel, reel),
        };
        self.turned.push(&full);
        Ok(full)
    }
}

/// Shows a packet to the watch; for want of memory the plan that it closed is let go of.
fn watch_or_reopen(
    watch: &mut Watch,
    reel: &mut Reel,
    closed: bool,
    arrival: &Arrival<'_>,
) -> Result<(), AllocError>
    ensures ok { OnOk result (watch.new ≡ record watch.old { packets = watch.old.packets ++ packet_list arrival.now }) }
    ensures same { OnOk result (reel.new ≡ reel.old) }
    ensures err { OnErr result ((plans : List SegmentPlan) (plan : Option SegmentPlan) →
        reel.old.plans ≡ plans ++ made plan → closed ≡ is_some plan → reel.new.plans ≡ plans) }
    ensures none { is_packet arrival.now ≡ false → IsOk result }
    ensures tables { OnErr result (BringsTables watch.old arrival.now) }
    ensures kept { OnErr result (watch.new ≡ watch.old) }
{
    let Err(error) = watch_packet(watch, arrival) else {
        return Ok(());
    };
    if closed {
        reel.reopen();
    }
    Err(error)
}
