ghost use Rattle.std.specs.Prelude.{◌≡◌, ◌⊎◌, ◌≤◌, ◌<◌, ◌^◌, [], ◌∷◌, ◌++◌, None, false, true, map, vec_capacity, IfOk, OnOk, OnErr};
ghost use Rattle.ts_packet.specs.State.{GrowsAlike};
ghost use Rattle.psi_tables.specs.State.{gathered_sections, with_packet, IsCarried, IsKept, Follows, MayBring};

use crate::gather::gather;
use crate::next::{BegunSection, Next, continued, is_taken};
use ghost_list::GhostList;
use std::alloc::{AllocError, Global};
use std::marker::Model;
use ts_packet::Packet;

/// Gathers the sections of one PID (ISO/IEC 13818-1, 2.4.4) from packets of all PIDs.
///
/// Of a PID count the packets that have payload and aren't scrambled. One with the continuity_counter of the one before
/// is a repeat and is left out; where a counter is missing, the section that was begun is given up.
/// discontinuity_indicator isn't looked at. A packet that is dropped takes no part, so it can't be pushed. Clauses see
/// an assembler as its PID and the list of the packets that it was pushed. It keeps at most 1,024 bytes of them.
#[derive(Drop)]
pub struct Assembler {
    pid: u16,
    begun: BegunSection,
    pushed: GhostList<[u8; 188]>,
}

impl Model for Assembler {
    ghost use Rattle.psi_tables.specs.State.{Gathered, Keeps};

    ghost Value = { Gathered };

    ghost view = { λ a. record { pid = a.pid; packets = a.pushed.items } };

    ghost invariant = { λ a. Keeps (record { pid = a.pid; packets = a.pushed.items }) a.begun.counter a.begun.bytes.items };
}

impl Assembler {
    /// An assembler of the sections of this PID that was pushed nothing.
    pub fn new(alloc: Global, pid: u16) -> Assembler
        ensures { result ≡ record { pid = pid; packets = [] } }
    {
        Assembler {
            pid,
            begun: BegunSection {
                counter: None,
                bytes: Vec::new(alloc),
            },
            pushed: GhostList::new(),
        }
    }

    /// Takes the next packet, and appends the sections that it completes. Only one that carries parts of the PID's sections,
    /// and is no repeat, takes memory: where a section begins in it, or one that was begun goes on. A refusal leaves the
    /// assembler and the sections as they were.
    pub fn push(&mut self, packet: &Packet, out: &mut Vec<Vec<u8>>) -> Result<(), AllocError>
        ensures pushed { OnOk result (self.new ≡ with_packet self.old packet.now) }
        ensures sections { OnOk result (GrowsAlike (gathered_sections self.old) (gathered_sections self.new)
            (map (λ section. section.items) out.old.items) (map (λ section. section.items) out.new.items)) }
        ensures err { OnErr result ((self.new ≡ self.old) × (out.new.items ≡ out.old.items)) }
        ensures carried { OnErr result (IsCarried self.old packet.now) }
        ensures idle { OnErr result (MayBring self.old packet.now) }
        ensures capacity { vec_capacity out.old ≤ vec_capacity out.new }
    {
        let mut next = self.next(packet)?;
        out.append(&mut next.found)?;
        self.follow(packet, next.begun);
        Ok(())
    }

    /// How many bytes of a section are kept that was begun and isn't whole yet.
    pub fn kept(&self) -> usize
        ensures front { IsKept self.now result }
        ensures most { result ≤ 1024 }
    {
        self.begun.bytes.len()
    }

    /// The PID whose sections are gathered.
    pub fn pid(&self) -> u16
        ensures { result ≡ self.now.pid }
    {
        self.pid
    }

    /// Whether the next packet is taken. One that isn't completes no section, and nothing of it is kept.
    pub(crate) fn takes(&self, packet: &Packet) -> bool
        ensures follows { result ≡ false → Follows self.now packet.now None }
        ensures none { result ≡ false → gathered_sections (with_packet self.now packet.now) ≡ gathered_sections self.now }
        ensures carried { result ≡ true → IsCarried self.now packet.now }
    {
        is_taken(self.pid, self.begun.counter, packet)
    }

    /// What the next packet makes of the assembler, which stays as it is.
    pub(crate) fn next(&self, packet: &Packet) -> Result<Next, AllocError>
        ensures follows { IfOk result (λ next. Follows self.now packet.now next.begun) }
        ensures found { IfOk result (λ next. gathered_sections (with_packet self.now packet.now) ≡ gathered_sections self.now ++
            map (λ section. section.items) next.found.items) }
        ensures carried { OnErr result (IsCarried self.now packet.now) }
        ensures idle { OnErr result (MayBring self.now packet.now) }
        ensures some { IfOk result (λ next. (next.found.items ≡ []) ⊎ IsCarried self.now packet.now) }
        ensures none { IfOk result (λ next. (next.found.items ≡ []) ⊎ MayBring self.now packet.now) }
    {
        let alloc = *self.begun.bytes.allocator();
        if !is_taken(self.pid, self.begun.counter, packet) {
            return Ok(Next {
                found: Vec::new(alloc),
                begun: None,
            });
        }
        let brought = gather(alloc, continued(&self.begun, packet), packet)?;
        Ok(Next {
            found: brought.found,
            begun: Some(BegunSection {
                counter: Some(packet.counter()),
                bytes: brought.begun,
            }),
        })
    }

    /// Takes the next packet, of which `next` told what it makes of the assembler.
    pub(crate) fn follow(&mut self, packet: &Packet, begun: Option<BegunSection>)
        requires { Follows self.old packet.now begun }
        ensures { self.new ≡ with_packet self.old packet.now }
    {
        if let Some(begun) = begun {
            self.begun = begun;
        }
        self.pushed.push(packet.bytes());
    }
}
