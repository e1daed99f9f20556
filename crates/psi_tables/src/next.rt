ghost use Rattle.std.specs.Prelude.{◌≡◌};
ghost use Rattle.psi_tables.specs.Sections.{carrier};
ghost use Rattle.psi_tables.specs.State.{IsCounter};

use ts_packet::Packet;

/// The continuity_counter of the last packet that was taken, and the front of the section that was begun.
#[derive(Drop)]
pub(crate) struct BegunSection {
    pub counter: Option<u8>,
    pub bytes: Vec<u8>,
}

/// What a packet makes of an assembler: the sections that it completes, and what is kept behind it. None stands for a
/// packet that is left out.
#[derive(Drop)]
pub(crate) struct Next {
    pub found: Vec<Vec<u8>>,
    pub begun: Option<BegunSection>,
}

/// Whether a packet is of this PID, has payload, isn't scrambled, and is no repeat of the last one that was taken.
pub(crate) fn is_taken(pid: u16, last: Option<u8>, packet: &Packet) -> bool
    ensures { result ≡ Rattle.psi_tables.specs.Sections.is_taken pid last packet.now }
{
    packet.pid() == pid
        && !packet.scrambled()
        && !packet.payload().is_empty()
        && !is_repeat(last, packet)
}

/// Whether a packet has the counter of the last one.
fn is_repeat(last: Option<u8>, packet: &Packet) -> bool
    ensures { result ≡ Rattle.psi_tables.specs.Sections.is_repeat last packet.now }
{
    match last {
        None => false,
        Some(counter) => packet.counter() == counter,
    }
}

/// The front of the section that was begun, where no packet is missing before this one.
pub(crate) fn continued<'a>(begun: &'a BegunSection, packet: &Packet) -> &'a [u8]
    requires { IsCounter begun.now.counter }
    ensures { result.now ≡ Rattle.psi_tables.specs.State.continued begun.now.counter begun.now.bytes.items (carrier packet.now) }
{
    match begun.counter {
        None => &[],
        Some(counter) => {
            if packet.counter() == (counter + 1) % 16 {
                &begun.bytes
            } else {
                &[]
            }
        }
    }
}
