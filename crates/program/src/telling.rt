//! Faults on standard error: each as soon as it stands, and none twice.
ghost use Rattle.std.specs.Prelude.{◌≡◌, ◌≢◌, Contains, Decides, IfOk, Some, false};
ghost use Rattle.commands.specs.declared.packing_fault.LadderPackingFault.TheVariants.{Packing};
ghost use Rattle.command_line.specs.declared.fault.Fault.TheVariants.{LadderPacking};
ghost use Rattle.command_line.specs.Faults.{status_of};
ghost use Rattle.channel.specs.Seen.{as_seen};

use crate::told::{KeepsTellings, Tellings};
use channel::seen_fault;
use command_line::{Fault, explain};
use commands::LadderPackingFault;
use pipeline::{Herald, PackFault, Settings};
use removal::RemovalHerald;
use std::alloc::AllocError;
use std::io::IsTerminal;
use std::sync::{Arc, Wait};

/// Tells a fault. At a terminal it's explained by a second line.
pub fn tell(rt: &HostRuntime, words: &[String], fault: &Fault) {
    let _ = rt.eprint(fault);
    if rt.stderr().is_terminal()
        && let Ok(Some(text)) = explain(rt.alloc(), words, fault)
    {
        let _ = rt.eprint(&text);
    }
}

/// Tells the faults of a ladder's renditions while the others are packed, and keeps in mind what the run tells of itself.
#[derive(Drop)]
pub struct Teller<'w, R> {
    rt: R,
    host: HostRuntime,
    words: &'w [String],
    settings: &'w Settings,
    told: Arc<Tellings>,
}

impl<'w, R: Drop> Teller<'w, R> {
    /// Nothing was told yet. The words are those of the command line, the settings those of the run.
    pub fn new(
        rt: R,
        host: HostRuntime,
        words: &'w [String],
        settings: &'w Settings,
    ) -> Result<Teller<'w, R>, AllocError>
        ensures { IfOk result (λ teller. (teller.words ≡ words.entry) × (teller.settings ≡ settings.entry)) }
    {
        let told = Arc::new(host.alloc(), Tellings::new())?;
        Ok(Teller {
            rt,
            host,
            words,
            settings,
            told,
        })
    }
}

impl<R: Wait> Teller<'_, R> {
    /// Whether this fault was told.
    pub fn has_told(&self, fault: &Fault) -> bool
        ensures other { ((why : _) → fault.now ≢ LadderPacking (Packing why)) → result ≡ false }
    {
        let Fault::LadderPacking(LadderPackingFault::Packing(fault)) = fault else {
            return false;
        };
        let told = self.told.so_far(&self.rt);
        is_among(&told.faults, *fault)
    }

    /// The fault, with the number that players see of the segment which it names.
    pub fn seen(&self, fault: Fault) -> Fault
        ensures packing { (why : _) → fault ≡ LadderPacking (Packing why) → result ≡ LadderPacking (Packing (as_seen self.now.settings.now why)) }
        ensures other { ((why : _) → fault ≢ LadderPacking (Packing why)) → result ≡ fault }
        ensures status { status_of result ≡ status_of fault }
    {
        match fault {
            Fault::LadderPacking(LadderPackingFault::Packing(fault)) => Fault::LadderPacking(
                LadderPackingFault::Packing(seen_fault(fault, self.settings)),
            ),
            other => other,
        }
    }
}

/// Whether a fault is among those that were told.
fn is_among(faults: &[Option<PackFault>], fault: PackFault) -> bool
    ensures { Decides result (Contains faults.now (Some fault)) }
{
    faults.contains(&Some(fault))
}

impl<R> KeepsTellings for Teller<'_, R> {
    ghost use Rattle.std.specs.Arc.{arc_value};

    ghost kept = { λ teller. arc_value teller.told };

    fn tellings(&self) -> Result<Arc<Tellings>, AllocError> {
        Arc::try_clone(&self.told)
    }
}

impl<R: Wait> Herald for Teller<'_, R> {
    fn tell(&self, fault: PackFault) {
        let _ = self.told.note_fault(&self.rt, fault);
        let fault = Fault::LadderPacking(LadderPackingFault::Packing(fault));
        tell(&self.host, self.words, &self.seen(fault));
    }

    fn completed(&self, segments: u128) {
        let _ = self.told.note_completed(&self.rt, segments);
    }
}

impl<R: Wait> RemovalHerald for Teller<'_, R> {
    fn removed(&self, segments: u128) {
        let _ = self.told.note_removed(&self.rt, segments);
    }
}
