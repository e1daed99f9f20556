//! The sections of a PID that packets carry.

use crate::asserts::assert_same;
use crate::table_fixtures::Sent::{Exactly, Filled};
use crate::table_fixtures::{PAT, PMT, Sent, bytes_of};
use psi_tables::{Assembler, Pat};
use std::alloc::Global;
use std::process::Abort;
use std::test::Fail;
use ts_packet::Packet;

/// Packets, and the sections of a PID that they carry.
struct Carried {
    name: &'static str,
    pid: u16,
    packets: &'static [Sent],
    sections: &'static [&'static [u8]],
}

/// Shows a packet to an assembler.
fn show(assembler: &mut Assembler, sent: Sent, found: &mut Vec<Vec<u8>>) -> Result<(), Fail> {
    let bytes = bytes_of(sent);
    let packet = Packet::parse(&bytes)?;
    assembler.push(&packet, found)?;
    Ok(())
}

/// Whether sections are these.
fn are(found: &[Vec<u8>], sections: &[&[u8]]) -> bool {
    if found.len() != sections.len() {
        return false;
    }
    for at in 0..found.len() {
        if found[at].as_slice() != sections[at] {
            return false;
        }
    }
    true
}

/// Refuses packets that carry other sections.
fn carries(
    assembler: &mut Assembler,
    found: &mut Vec<Vec<u8>>,
    case: &Carried,
) -> Result<(), Fail> {
    for sent in case.packets {
        show(assembler, *sent, found)?;
    }
    if are(found, case.sections) {
        return Ok(());
    }
    Err(Fail::new(format_args!("{}: {found:?}", case.name)))
}

/// Refuses the first packets that carry other sections.
fn carry(alloc: Global, cases: &[Carried]) -> Result<(), Fail> {
    for case in cases {
        let mut assembler = Assembler::new(alloc, case.pid);
        let mut found = Vec::new(alloc);
        let end = carries(&mut assembler, &mut found, case);
        drop((assembler, found));
        end?;
    }
    Ok(())
}

/// The first half of the PAT behind its pointer_field.
const FRONT: &[u8] = b"\x00\x00\xb0\x0d\x00\x01\xc1\x00\x00";

/// The other half.
const BACK: &[u8] = b"\x00\x01\xf0\x00\x2a\xb1\x04\xb2";

/// The first half, at the end of a packet.
const FRONT_HALF: Sent = Exactly([0x47, 0x40, 0x00, 0x30], FRONT);

/// The other half, in the next packet.
const BACK_HALF: Sent = Filled([0x47, 0x00, 0x00, 0x11], BACK);

/// The other half, in the packet behind that.
const LATE_BACK_HALF: Sent = Filled([0x47, 0x00, 0x00, 0x12], BACK);

const HALVES: [Carried; 6] = [
    Carried {
        name: "both",
        pid: 0,
        packets: &[FRONT_HALF, BACK_HALF],
        sections: &[PAT],
    },
    Carried {
        name: "the first repeated",
        pid: 0,
        packets: &[FRONT_HALF, FRONT_HALF, BACK_HALF],
        sections: &[PAT],
    },
    Carried {
        name: "the second repeated",
        pid: 0,
        packets: &[FRONT_HALF, BACK_HALF, BACK_HALF],
        sections: &[PAT],
    },
    Carried {
        name: "another PID",
        pid: 0x1FFF,
        packets: &[FRONT_HALF, BACK_HALF],
        sections: &[],
    },
    Carried {
        name: "a gap",
        pid: 0,
        packets: &[FRONT_HALF, LATE_BACK_HALF],
        sections: &[],
    },
    Carried {
        name: "the first counter behind the last",
        pid: 0,
        packets: &[
            Exactly([0x47, 0x40, 0x00, 0x3F], FRONT),
            Filled([0x47, 0x00, 0x00, 0x10], BACK),
        ],
        sections: &[PAT],
    },
];

#[test]
fn a_section_in_two_packets(rt: HostRuntime) -> Result<(), Fail> {
    carry(rt.alloc(), &HALVES)
}

const SCRAMBLED: Sent = Filled([0x47, 0x00, 0x00, 0x91], BACK);

const WITHOUT_PAYLOAD: Sent = Filled([0x47, 0x00, 0x00, 0x21], b"\xb7\x00");

const OTHER_PID: Sent = Filled([0x47, 0x00, 0x01, 0x11], BACK);

/// A repeat that says other things.
const REPEAT: Sent = Filled([0x47, 0x40, 0x00, 0x10], b"\x00");

const WITH_OTHERS: [Carried; 8] = [
    Carried {
        name: "scrambled",
        pid: 0,
        packets: &[FRONT_HALF, SCRAMBLED, BACK_HALF],
        sections: &[PAT],
    },
    Carried {
        name: "scrambled, gap",
        pid: 0,
        packets: &[FRONT_HALF, SCRAMBLED, LATE_BACK_HALF],
        sections: &[],
    },
    Carried {
        name: "no payload",
        pid: 0,
        packets: &[FRONT_HALF, WITHOUT_PAYLOAD, BACK_HALF],
        sections: &[PAT],
    },
    Carried {
        name: "no payload, gap",
        pid: 0,
        packets: &[FRONT_HALF, WITHOUT_PAYLOAD, LATE_BACK_HALF],
        sections: &[],
    },
    Carried {
        name: "other PID",
        pid: 0,
        packets: &[FRONT_HALF, OTHER_PID, BACK_HALF],
        sections: &[PAT],
    },
    Carried {
        name: "other PID, gap",
        pid: 0,
        packets: &[FRONT_HALF, OTHER_PID, LATE_BACK_HALF],
        sections: &[],
    },
    Carried {
        name: "repeat",
        pid: 0,
        packets: &[FRONT_HALF, REPEAT, BACK_HALF],
        sections: &[PAT],
    },
    Carried {
        name: "repeat, gap",
        pid: 0,
        packets: &[FRONT_HALF, REPEAT, LATE_BACK_HALF],
        sections: &[],
    },
];

#[test]
fn packets_that_do_not_count(rt: HostRuntime) -> Result<(), Fail> {
    carry(rt.alloc(), &WITH_OTHERS)
}

/// The first third of the PMT, at the end of a packet.
const FIRST_THIRD: Sent = Exactly([0x47, 0x50, 0x00, 0x37], b"\x00\x02\xb0\x12\x00\x01\xc1");

/// The second third, in the next packet.
const SECOND_THIRD: Sent = Exactly([0x47, 0x10, 0x00, 0x38], b"\x00\x00\xe1\x00\xf0\x00\x1b");

/// The last third, in the packet behind that.
const LAST_THIRD: Sent = Filled(
    [0x47, 0x10, 0x00, 0x19],
    b"\xe1\x00\xf0\x00\x15\xbd\x4d\x56",
);

const VIDEO: Sent = Filled([0x47, 0x01, 0x00, 0x10], b"");

const THIRDS: [Carried; 4] = [
    Carried {
        name: "all",
        pid: 0x1000,
        packets: &[FIRST_THIRD, SECOND_THIRD, LAST_THIRD],
        sections: &[PMT],
    },
    Carried {
        name: "with video and a repeat",
        pid: 0x1000,
        packets: &[
            FIRST_THIRD,
            VIDEO,
            SECOND_THIRD,
            SECOND_THIRD,
            VIDEO,
            LAST_THIRD,
        ],
        sections: &[PMT],
    },
    Carried {
        name: "without the second",
        pid: 0x1000,
        packets: &[FIRST_THIRD, LAST_THIRD],
        sections: &[],
    },
    Carried {
        name: "without the first",
        pid: 0x1000,
        packets: &[SECOND_THIRD, LAST_THIRD],
        sections: &[],
    },
];

#[test]
fn a_section_in_three_packets(rt: HostRuntime) -> Result<(), Fail> {
    carry(rt.alloc(), &THIRDS)
}

const TO_THE_END: Sent = Exactly(
    [0x47, 0x40, 0x00, 0x31],
    b"\x08\x00\x01\xf0\x00\x2a\xb1\x04\xb2",
);

const PAST_THE_END: Sent = Exactly(
    [0x47, 0x40, 0x00, 0x31],
    b"\x09\x00\x01\xf0\x00\x2a\xb1\x04\xb2",
);

/// The rest of the PAT, and the PMT.
const BOTH: Sent = Filled(
    [0x47, 0x40, 0x00, 0x11],
    b"\x08\x00\x01\xf0\x00\x2a\xb1\x04\xb2\x02\xb0\x12\x00\x01\xc1\x00\x00\xe1\x00\xf0\x00\x1b\xe1\x00\xf0\x00\x15\xbd\x4d\x56",
);

/// A byte too few for the PAT.
const FEW: Sent = Filled(
    [0x47, 0x40, 0x00, 0x11],
    b"\x07\x00\x01\xf0\x00\x2a\xb1\x04\xb2\xb0\x00",
);

const POINTERS: [Carried; 6] = [
    Carried {
        name: "to the payload's end",
        pid: 0,
        packets: &[FRONT_HALF, TO_THE_END],
        sections: &[PAT],
    },
    Carried {
        name: "past it",
        pid: 0,
        packets: &[FRONT_HALF, PAST_THE_END],
        sections: &[],
    },
    Carried {
        name: "past it, and the counter counts all the same",
        pid: 0,
        packets: &[
            FRONT_HALF,
            PAST_THE_END,
            Exactly([0x47, 0x40, 0x00, 0x32], FRONT),
            Filled([0x47, 0x00, 0x00, 0x13], BACK),
        ],
        sections: &[PAT],
    },
    Carried {
        name: "another section begins behind them",
        pid: 0,
        packets: &[FRONT_HALF, BOTH],
        sections: &[PAT, PMT],
    },
    Carried {
        name: "another section alone",
        pid: 0,
        packets: &[BOTH],
        sections: &[PMT],
    },
    Carried {
        name: "they don't complete the section that was begun",
        pid: 0,
        packets: &[FRONT_HALF, FEW],
        sections: &[b"\xb2\xb0\x00"],
    },
];

#[test]
fn sections_behind_a_pointer(rt: HostRuntime) -> Result<(), Fail> {
    carry(rt.alloc(), &POINTERS)
}

/// A short section of another table.
const SHORT: &[u8] = b"\x42\xb0\x01\x07";

const ONE_BEHIND_ANOTHER: [Carried; 3] = [
    Carried {
        name: "two in a packet",
        pid: 0,
        packets: &[Filled(
            [0x47, 0x40, 0x00, 0x10],
            b"\x00\x00\xb0\x0d\x00\x01\xc1\x00\x00\x00\x01\xf0\x00\x2a\xb1\x04\xb2\x42\xb0\x01\x07",
        )],
        sections: &[PAT, SHORT],
    },
    Carried {
        name: "what follows a section in a packet without start indicator is left out",
        pid: 0,
        packets: &[
            Exactly([0x47, 0x40, 0x00, 0x3F], FRONT),
            Filled(
                [0x47, 0x00, 0x00, 0x10],
                b"\x00\x01\xf0\x00\x2a\xb1\x04\xb2\x42\xb0\x01\x07",
            ),
        ],
        sections: &[PAT],
    },
    Carried {
        name: "nothing begins behind stuffing",
        pid: 0,
        packets: &[Filled(
            [0x47, 0x40, 0x00, 0x10],
            b"\x00\x42\xb0\x01\x07\xff\x42\xb0\x01\x07",
        )],
        sections: &[SHORT],
    },
];

#[test]
fn sections_one_behind_another(rt: HostRuntime) -> Result<(), Fail> {
    carry(rt.alloc(), &ONE_BEHIND_ANOTHER)
}

const LONG: Sent = Filled([0x47, 0x50, 0x00, 0x10], b"\x00\x02\xb3\xfe");

const GOOD: Sent = Filled(
    [0x47, 0x50, 0x00, 0x11],
    b"\x00\x02\xb0\x12\x00\x01\xc1\x00\x00\xe1\x00\xf0\x00\x1b\xe1\x00\xf0\x00\x15\xbd\x4d\x56",
);

/// A section of another table is begun, with one byte.
const BEGUN: Sent = Exactly([0x47, 0x40, 0x00, 0x30], b"\x00\x42");

const TOO_GREAT: [Carried; 5] = [
    Carried {
        name: "alone",
        pid: 0x1000,
        packets: &[LONG],
        sections: &[],
    },
    Carried {
        name: "a good one behind",
        pid: 0x1000,
        packets: &[LONG, GOOD],
        sections: &[PMT],
    },
    Carried {
        name: "a good section in front",
        pid: 0,
        packets: &[Filled(
            [0x47, 0x40, 0x00, 0x10],
            b"\x00\x42\xb0\x01\x07\x42\xb3\xfe\x42\xb0\x01\x07",
        )],
        sections: &[SHORT],
    },
    Carried {
        name: "in the pointer's bytes",
        pid: 0,
        packets: &[
            BEGUN,
            Filled(
                [0x47, 0x40, 0x00, 0x11],
                b"\x02\xb3\xfe\x00\xb0\x0d\x00\x01\xc1\x00\x00\x00\x01\xf0\x00\x2a\xb1\x04\xb2",
            ),
        ],
        sections: &[],
    },
    Carried {
        name: "one less in the pointer's bytes",
        pid: 0,
        packets: &[
            BEGUN,
            Filled(
                [0x47, 0x40, 0x00, 0x11],
                b"\x02\xb3\xfd\x00\xb0\x0d\x00\x01\xc1\x00\x00\x00\x01\xf0\x00\x2a\xb1\x04\xb2",
            ),
        ],
        sections: &[PAT],
    },
];

#[test]
fn lengths_that_are_too_great(rt: HostRuntime) -> Result<(), Fail> {
    carry(rt.alloc(), &TOO_GREAT)
}

/// The choice of the PAT that the first section is.
fn chosen(alloc: Global, found: &[Vec<u8>]) -> Option<(u16, u16)> {
    let [first, ..] = found else {
        return None;
    };
    match Pat::read(alloc, first) {
        Ok(pat) => pat.choose(None),
        Err(_fault) => None,
    }
}

/// The PAT, and a section of 1,024 bytes, the most; and how many bytes are kept behind each packet.
const LONGEST: [(Sent, usize); 8] = [
    (FRONT_HALF, 8),
    (BACK_HALF, 0),
    (Filled([0x47, 0x40, 0x00, 0x12], b"\x00\x42\xb3\xfd"), 183),
    (Filled([0x47, 0x00, 0x00, 0x13], b""), 367),
    (Filled([0x47, 0x00, 0x00, 0x14], b""), 551),
    (Filled([0x47, 0x00, 0x00, 0x15], b""), 735),
    (Filled([0x47, 0x00, 0x00, 0x16], b""), 919),
    (Filled([0x47, 0x00, 0x00, 0x17], b""), 0),
];

fn keeps(
    rt: &impl Abort,
    alloc: Global,
    assembler: &mut Assembler,
    found: &mut Vec<Vec<u8>>,
) -> Result<(), Fail> {
    for (sent, kept) in &LONGEST {
        show(assembler, *sent, found)?;
        assert_same(rt, "kept", assembler.kept(), *kept);
    }
    assert_same(
        rt,
        "of two sections",
        (assembler.pid(), found.len(), chosen(alloc, found)),
        (0, 2, Some((1, 0x1000))),
    );
    Ok(())
}

#[test]
fn keeps_what_was_begun(rt: HostRuntime) -> Result<(), Fail> {
    let mut assembler = Assembler::new(rt.alloc(), 0);
    let mut found = Vec::new(rt.alloc());
    let end = keeps(&rt, rt.alloc(), &mut assembler, &mut found);
    drop((assembler, found));
    end
}
