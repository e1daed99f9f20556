//! The tables in force behind packets.

use crate::asserts::assert_same;
use crate::table_fixtures::Sent::{Carrying, Exactly, Filled};
use crate::table_fixtures::{PAT, PMT, PMT_WITH_SOUND, Sent, bytes_of};
use psi_tables::{Tables, Watch};
use std::alloc::Global;
use std::process::Abort;
use std::test::Fail;
use ts_packet::Packet;

/// The stream, the program, the PMT's PID and the video's of some tables.
type Told = Option<(u16, u16, u16, Option<u16>)>;

/// Packets, the program that is asked for, and the tables in force behind them.
struct Behind {
    name: &'static str,
    program: Option<u16>,
    packets: &'static [Sent],
    tables: Told,
}

/// Shows a packet to a watch.
pub(crate) fn show(watch: &mut Watch, bytes: &[u8; 188]) -> Result<(), Fail> {
    let packet = Packet::parse(bytes)?;
    watch.push(&packet)?;
    Ok(())
}

/// Shows packets to a watch.
fn show_all(watch: &mut Watch, packets: &[Sent]) -> Result<(), Fail> {
    for sent in packets {
        show(watch, &bytes_of(*sent))?;
    }
    Ok(())
}

/// What tables tell.
fn told(tables: Option<&Tables>) -> Told {
    let Some(tables) = tables else {
        return None;
    };
    Some((
        tables.stream_id(),
        tables.program(),
        tables.pmt_pid(),
        tables.video(),
    ))
}

/// Refuses packets behind which other tables are in force.
fn puts_in_force(watch: &mut Watch, case: &Behind) -> Result<(), Fail> {
    show_all(watch, case.packets)?;
    let told = told(watch.tables());
    if told == case.tables {
        return Ok(());
    }
    Err(Fail::new(format_args!("{}: {told:?}", case.name)))
}

/// Refuses the first packets behind which other tables are in force.
fn put_in_force(alloc: Global, cases: &[Behind]) -> Result<(), Fail> {
    for case in cases {
        let mut watch = Watch::new(alloc, case.program);
        let end = puts_in_force(&mut watch, case);
        drop(watch);
        end?;
    }
    Ok(())
}

/// Stream 2, and program 1 with its PMT on PID 0x1000. The CRCs of these sections come from a bitwise CRC-32/MPEG-2 in
/// Python.
const OTHER_STREAM: &[u8] = b"\x00\xb0\x0d\x00\x02\xc1\x00\x00\x00\x01\xf0\x00\xc6\x53\x61\xec";

/// Stream 1, and program 1 with its PMT on PID 0x200.
const OTHER_PID: &[u8] = b"\x00\xb0\x0d\x00\x01\xc1\x00\x00\x00\x01\xe2\x00\x9a\x12\x01\xae";

/// Stream 1, and program 2 with its PMT on PID 0x1000.
const OTHER_PROGRAM: &[u8] = b"\x00\xb0\x0d\x00\x01\xc1\x00\x00\x00\x02\xf0\x00\x28\xd8\xf1\x3b";

/// Program 2, H.264 on PID 0x300 with the PCR.
const PMT_OF_PROGRAM_2: &[u8] =
    b"\x02\xb0\x12\x00\x02\xc1\x00\x00\xe3\x00\xf0\x00\x1b\xe3\x00\xf0\x00\x74\x4a\xcb\x4c";

/// The PAT in a packet.
const PAT_PACKET: Sent = Carrying(0, 0, PAT);

/// The PMT in a packet.
const PMT_PACKET: Sent = Carrying(0x1000, 0, PMT);

/// The PMT with the next counter.
const NEXT_PMT_PACKET: Sent = Carrying(0x1000, 1, PMT);

/// The front of the PMT, at the end of a packet.
const FRONT_HALF: Sent = Exactly(
    [0x47, 0x50, 0x00, 0x30],
    b"\x00\x02\xb0\x12\x00\x01\xc1\x00\x00\xe1\x00",
);

/// The rest of it, in the next packet.
const BACK_HALF: Sent = Filled(
    [0x47, 0x10, 0x00, 0x11],
    b"\xf0\x00\x1b\xe1\x00\xf0\x00\x15\xbd\x4d\x56",
);

const VIDEO: Sent = Filled([0x47, 0x41, 0x00, 0x10], b"\x00\x00\x01\xe0");

const STANDARD: Told = Some((1, 1, 0x1000, Some(0x100)));

const ORDERS: [Behind; 5] = [
    Behind {
        name: "PAT and PMT",
        program: None,
        packets: &[PAT_PACKET, PMT_PACKET],
        tables: STANDARD,
    },
    Behind {
        name: "a PMT before its PAT isn't used",
        program: None,
        packets: &[PMT_PACKET, PAT_PACKET],
        tables: None,
    },
    Behind {
        name: "a PMT behind",
        program: None,
        packets: &[PMT_PACKET, PAT_PACKET, NEXT_PMT_PACKET],
        tables: STANDARD,
    },
    Behind {
        name: "a packet with the counter of one before the PAT is no repeat",
        program: None,
        packets: &[PMT_PACKET, PAT_PACKET, PMT_PACKET],
        tables: STANDARD,
    },
    Behind {
        name: "other packets don't matter",
        program: None,
        packets: &[VIDEO, PAT_PACKET, VIDEO, PMT_PACKET, VIDEO],
        tables: STANDARD,
    },
];

#[test]
fn tables_come_in_order(rt: HostRuntime) -> Result<(), Fail> {
    put_in_force(rt.alloc(), &ORDERS)
}

/// Stream 0x1234: the network PID 0x10, program 1 on 0x100, program 2 on 0x200. And a PMT of each.
const PROGRAMS: &[Sent] = &[
    Carrying(
        0,
        0,
        b"\x00\xb0\x15\x12\x34\xc1\x00\x00\x00\x00\xe0\x10\x00\x01\xe1\x00\x00\x02\xe2\x00\x38\xfc\x93\x56",
    ),
    Carrying(0x100, 0, PMT),
    Carrying(0x200, 0, PMT_OF_PROGRAM_2),
];

const ASKED: [Behind; 5] = [
    Behind {
        name: "none is asked for",
        program: None,
        packets: PROGRAMS,
        tables: Some((0x1234, 1, 0x100, Some(0x100))),
    },
    Behind {
        name: "program 1",
        program: Some(1),
        packets: PROGRAMS,
        tables: Some((0x1234, 1, 0x100, Some(0x100))),
    },
    Behind {
        name: "program 2",
        program: Some(2),
        packets: PROGRAMS,
        tables: Some((0x1234, 2, 0x200, Some(0x300))),
    },
    Behind {
        name: "program 3",
        program: Some(3),
        packets: PROGRAMS,
        tables: None,
    },
    Behind {
        name: "program 0",
        program: Some(0),
        packets: PROGRAMS,
        tables: None,
    },
];

#[test]
fn the_program_that_was_asked_for(rt: HostRuntime) -> Result<(), Fail> {
    put_in_force(rt.alloc(), &ASKED)
}

/// A PAT that chooses otherwise.
const OTHER: Sent = Carrying(0, 1, OTHER_PROGRAM);

/// The PMT of that choice.
const CHOSEN: Sent = Carrying(0x1000, 1, PMT_OF_PROGRAM_2);

const STAYS: [Behind; 5] = [
    Behind {
        name: "a PAT that chooses otherwise",
        program: None,
        packets: &[PAT_PACKET, PMT_PACKET, OTHER],
        tables: STANDARD,
    },
    Behind {
        name: "a PMT of a program that isn't chosen",
        program: None,
        packets: &[
            PAT_PACKET,
            PMT_PACKET,
            OTHER,
            Carrying(0x1000, 1, PMT_WITH_SOUND),
        ],
        tables: STANDARD,
    },
    Behind {
        name: "the PMT of the chosen one",
        program: None,
        packets: &[PAT_PACKET, PMT_PACKET, OTHER, CHOSEN],
        tables: Some((1, 2, 0x1000, Some(0x300))),
    },
    Behind {
        name: "where the other one was asked for",
        program: Some(1),
        packets: &[PAT_PACKET, PMT_PACKET, OTHER, CHOSEN],
        tables: STANDARD,
    },
    Behind {
        name: "a PAT and a PMT whose CRC is wrong",
        program: None,
        packets: &[
            PAT_PACKET,
            PMT_PACKET,
            Carrying(
                0,
                1,
                b"\x00\xb0\x0d\x00\x01\xc1\x00\x00\x00\x02\xf0\x00\x28\xd8\xf1\x3c",
            ),
            Carrying(
                0x1000,
                1,
                b"\x02\xb0\x12\x00\x01\xc1\x00\x00\xe1\x00\xf0\x00\x1b\xe1\x01\xf0\x00\x15\xbd\x4d\x56",
            ),
        ],
        tables: STANDARD,
    },
];

#[test]
fn tables_stay_in_force(rt: HostRuntime) -> Result<(), Fail> {
    put_in_force(rt.alloc(), &STAYS)
}

/// Program 1 with its PMT on PID 0.
const ON_0: Sent = Carrying(
    0,
    0,
    b"\x00\xb0\x0d\x00\x01\xc1\x00\x00\x00\x01\xe0\x00\x3a\xe0\x9f\xa1",
);

/// A PMT behind another such PAT, in one packet.
const BOTH: Sent = Carrying(
    0,
    1,
    b"\x00\xb0\x0d\x00\x02\xc1\x00\x00\x00\x01\xe0\x00\xd6\x02\xfa\xff\x02\xb0\x12\x00\x01\xc1\x00\x00\xe1\x00\xf0\x00\x1b\xe1\x00\xf0\x00\x15\xbd\x4d\x56",
);

/// Program 1 with its PMT on the PID of null packets.
const ON_8191: Sent = Carrying(
    0,
    0,
    b"\x00\xb0\x0d\x00\x01\xc1\x00\x00\x00\x01\xff\xff\x26\xc1\x79\x2e",
);

const ON_THE_PID_OF_PATS: [Behind; 5] = [
    Behind {
        name: "a PMT on PID 0",
        program: None,
        packets: &[ON_0, Carrying(0, 1, PMT)],
        tables: Some((1, 1, 0, Some(0x100))),
    },
    Behind {
        name: "by the choice before the packet",
        program: None,
        packets: &[ON_0, BOTH],
        tables: Some((1, 1, 0, Some(0x100))),
    },
    Behind {
        name: "no choice before it",
        program: None,
        packets: &[BOTH],
        tables: None,
    },
    Behind {
        name: "the PMT once more",
        program: None,
        packets: &[BOTH, Carrying(0, 2, PMT)],
        tables: Some((2, 1, 0, Some(0x100))),
    },
    Behind {
        name: "on the PID of null packets",
        program: None,
        packets: &[ON_8191, Carrying(0x1FFF, 0, PMT)],
        tables: Some((1, 1, 0x1FFF, Some(0x100))),
    },
];

#[test]
fn sections_on_the_pid_of_pats(rt: HostRuntime) -> Result<(), Fail> {
    put_in_force(rt.alloc(), &ON_THE_PID_OF_PATS)
}

/// Another choice and the same one, in one packet.
const TWO_PATS: Sent = Carrying(
    0,
    1,
    b"\x00\xb0\x0d\x00\x01\xc1\x00\x00\x00\x01\xe2\x00\x9a\x12\x01\xae\x00\xb0\x0d\x00\x01\xc1\x00\x00\x00\x01\xf0\x00\x2a\xb1\x04\xb2",
);

const STREAM: Sent = Carrying(0, 1, OTHER_STREAM);

const AWAY: Sent = Carrying(0, 1, OTHER_PID);

const BACK: Sent = Carrying(0, 2, PAT);

/// A PMT on the other PID.
const THERE: Sent = Carrying(0x200, 5, PMT);

const GATHERED: [Behind; 6] = [
    Behind {
        name: "in two packets",
        program: None,
        packets: &[PAT_PACKET, FRONT_HALF, BACK_HALF],
        tables: STANDARD,
    },
    Behind {
        name: "the same PID once more, with another stream id",
        program: None,
        packets: &[PAT_PACKET, FRONT_HALF, STREAM, BACK_HALF],
        tables: Some((2, 1, 0x1000, Some(0x100))),
    },
    Behind {
        name: "the last of two PATs brings no change",
        program: None,
        packets: &[PAT_PACKET, FRONT_HALF, TWO_PATS, BACK_HALF],
        tables: STANDARD,
    },
    Behind {
        name: "away, and back",
        program: None,
        packets: &[PAT_PACKET, FRONT_HALF, AWAY, BACK, BACK_HALF],
        tables: None,
    },
    Behind {
        name: "begun anew",
        program: None,
        packets: &[PAT_PACKET, FRONT_HALF, AWAY, BACK, FRONT_HALF, BACK_HALF],
        tables: STANDARD,
    },
    Behind {
        name: "on the other PID a counter that came before is no repeat",
        program: None,
        packets: &[PAT_PACKET, THERE, AWAY, THERE],
        tables: Some((1, 1, 0x200, Some(0x100))),
    },
];

#[test]
fn gathered_anew_where_the_pid_changes(rt: HostRuntime) -> Result<(), Fail> {
    put_in_force(rt.alloc(), &GATHERED)
}

/// A PMT with sound and then one without, in one packet.
const TWO_PMTS: Sent = Carrying(
    0x1000,
    0,
    b"\x02\xb0\x17\x00\x01\xc1\x00\x00\xe1\x00\xf0\x00\x1b\xe1\x00\xf0\x00\x0f\xe1\x01\xf0\x00\x2f\x44\xb9\
      \x9b\x02\xb0\x12\x00\x01\xc1\x00\x00\xe1\x00\xf0\x00\x1b\xe1\x00\xf0\x00\x15\xbd\x4d\x56",
);

fn has_the_last(rt: &impl Abort, watch: &mut Watch) -> Result<(), Fail> {
    show_all(watch, &[PAT_PACKET, TWO_PMTS])?;
    assert_same(
        rt,
        "has the last",
        watch.tables().map(Tables::section),
        Some(PMT),
    );
    Ok(())
}

#[test]
fn the_last_of_several(rt: HostRuntime) -> Result<(), Fail> {
    let mut watch = Watch::new(rt.alloc(), None);
    let end = has_the_last(&rt, &mut watch);
    drop(watch);
    end
}

const NONE_YET: [Behind; 2] = [
    Behind {
        name: "no packet",
        program: None,
        packets: &[],
        tables: None,
    },
    Behind {
        name: "a PAT",
        program: None,
        packets: &[PAT_PACKET],
        tables: None,
    },
];

#[test]
fn tables_from_the_next_packet_on(rt: HostRuntime) -> Result<(), Fail> {
    put_in_force(rt.alloc(), &NONE_YET)
}

/// The tables in force.
pub(crate) fn in_force(watch: &Watch) -> Result<&Tables, Fail> {
    match watch.tables() {
        Some(tables) => Ok(tables),
        None => Err(Fail::from("no tables")),
    }
}

/// Whether tables are of this section, and carry the video and the sound.
fn has(tables: &Tables, section: &[u8]) -> (bool, bool, bool) {
    (
        tables.section() == section,
        tables.carries(0x100),
        tables.carries(0x101),
    )
}

/// The tables of the PMT without sound are left as they were by a PMT with sound, which makes others.
fn change(rt: &impl Abort, watch: &mut Watch, first: &Tables) -> Result<(), Fail> {
    show_all(watch, &[Carrying(0x1000, 1, PMT_WITH_SOUND)])?;
    let second = in_force(watch)?;
    let same = (first.same(first), first.same(second));
    assert_same(
        rt,
        "change",
        (has(first, PMT), has(second, PMT_WITH_SOUND), same),
        ((true, true, false), (true, true, true), (true, false)),
    );
    Ok(())
}

fn change_behind(rt: &impl Abort, watch: &mut Watch) -> Result<(), Fail> {
    show_all(watch, &[PAT_PACKET, PMT_PACKET])?;
    let first = in_force(watch)?.copy()?;
    let end = change(rt, watch, &first);
    drop(first);
    end
}

#[test]
fn tables_that_change(rt: HostRuntime) -> Result<(), Fail> {
    let mut watch = Watch::new(rt.alloc(), None);
    let end = change_behind(&rt, &mut watch);
    drop(watch);
    end
}
