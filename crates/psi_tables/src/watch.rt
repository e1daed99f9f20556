ghost use Rattle.std.specs.Prelude.{◌≡◌, [], ◌∷◌, ◌++◌, OnOk, OnErr, option_copied};
ghost use Rattle.psi_tables.specs.InForce.{tables_behind};
ghost use Rattle.psi_tables.specs.State.{BringsTables, CarriesTables};

use crate::assembler::Assembler;
use crate::choice::{Choice, choose, gathered_pid, is_same_pid};
use crate::tables::{Tables, last_tables};
use std::alloc::{AllocError, Global};
use std::marker::Model;
use ts_packet::Packet;

/// Watches the packets of a transport stream for its tables (ISO/IEC 13818-1, 2.4.4).
///
/// A good PAT chooses its first entry of the program that was asked for or, where none was, its first entry whose
/// program isn't 0. A good PMT on the chosen PID with the chosen program number puts tables in force from the next
/// packet on, and they stay until others come. The sections of PMTs are gathered anew when the chosen PID changes. A
/// packet that is dropped takes no part, so it can't be pushed. Clauses see a watch as the program that was asked for
/// and the list of the packets that it was pushed.
#[derive(Drop)]
pub struct Watch {
    program: Option<u16>,
    pats: Assembler,
    pmts: Assembler,
    choice: Option<Choice>,
    tables: Option<Tables>,
}

impl Model for Watch {
    ghost use Rattle.psi_tables.specs.State.{Watched, Watches};

    ghost Value = { Watched };

    ghost view = { λ w. record { program = w.program; packets = w.pats.packets } };

    ghost invariant = { λ w. Watches w.program w.pats w.pmts w.choice w.tables };
}

impl Watch {
    /// A watch that was pushed nothing, for this program or, where none is asked for, for the first of each PAT.
    pub fn new(alloc: Global, program: Option<u16>) -> Watch
        ensures { result ≡ record { program = program; packets = [] } }
    {
        Watch {
            program,
            pats: Assembler::new(alloc, 0),
            pmts: Assembler::new(alloc, 0),
            choice: None,
            tables: None,
        }
    }

    /// Takes the next packet. Only one that carries parts of the tables, and is no repeat, takes memory: where a section
    /// begins in it, or one that was begun goes on. A refusal leaves the watch as it was.
    pub fn push(&mut self, packet: &Packet) -> Result<(), AllocError>
        ensures pushed { OnOk result (self.new ≡ record self.old { packets = self.old.packets ++ packet.now ∷ [] }) }
        ensures err { OnErr result (self.new ≡ self.old) }
        ensures none { OnErr result (CarriesTables self.old packet.now) }
        ensures idle { OnErr result (BringsTables self.old packet.now) }
    {
        let is_taken = self.pats.takes(packet) || self.pmts.takes(packet);
        if is_taken {
            return self.take(packet);
        }
        self.pats.follow(packet, None);
        self.pmts.follow(packet, None);
        Ok(())
    }

    /// Takes the next packet, which may bring sections. A refusal leaves the watch as it was.
    fn take(&mut self, packet: &Packet) -> Result<(), AllocError>
        ensures pushed { OnOk result (self.new ≡ record self.old { packets = self.old.packets ++ packet.now ∷ [] }) }
        ensures err { OnErr result (self.new ≡ self.old) }
        ensures idle { OnErr result (BringsTables self.old packet.now) }
    {
        let pats = self.pats.next(packet)?;
        let pmts = self.pmts.next(packet)?;
        let alloc = *pats.found.allocator();
        let choice = choose(alloc, self.program, self.choice, &pats.found)?;
        let tables = last_tables(alloc, self.choice, &pmts.found)?;
        self.pats.follow(packet, pats.begun);
        if is_same_pid(self.choice, choice) {
            self.pmts.follow(packet, pmts.begun);
        } else {
            self.pmts = Assembler::new(alloc, gathered_pid(choice));
        }
        self.choice = choice;
        self.tables = tables.or(self.tables.take());
        Ok(())
    }

    /// The tables in force before the next packet.
    pub fn tables(&self) -> Option<&Tables>
        ensures { option_copied result ≡ tables_behind self.now.program self.now.packets }
    {
        self.tables.as_ref()
    }
}
