//! CRCs, and what is read from the sections of PATs and PMTs.

use crate::asserts::assert_same;
use crate::table_fixtures::{PAT, PMT, PMT_WITH_SOUND, first, write};
use psi_tables::{Pat, Pmt, TableFault, crc_32};
use std::alloc::Global;

/// Bytes and their CRC_32.
const CRCS: [(&[u8], u32); 6] = [
    (PAT, 0),
    (PMT, 0),
    (PMT_WITH_SOUND, 0),
    (
        b"\x00\xb0\x0d\x00\x01\xc1\x00\x00\x00\x01\xf0\x00",
        0x2AB1_04B2,
    ),
    // the check value of CRC-32/MPEG-2 in catalogues of CRCs
    (b"123456789", 0x0376_E6E7),
    (b"", 0xFFFF_FFFF),
];

#[test]
fn computes_crcs(rt: HostRuntime) {
    for (bytes, crc) in &CRCS {
        assert_same(&rt, bytes, crc_32(bytes), *crc);
    }
}

/// Sections and what is wrong with each as a PAT. The CRCs here come from a bitwise CRC-32/MPEG-2 in Python.
const FAULTY_PATS: [(&[u8], TableFault); 12] = [
    (
        b"\x00\xb0\x0d\x00\x01\xc1\x00\x00\x00\x01\xf0",
        TableFault::Short,
    ),
    // also of another table
    (
        b"\x02\xb0\x0d\x00\x01\xc1\x00\x00\x00\x01\xf0",
        TableFault::Short,
    ),
    (PMT, TableFault::WrongTable),
    // also with a wrong CRC
    (
        b"\x02\xb0\x0d\x00\x01\xc1\x00\x00\x00\x01\xf0\x00\x2a\xb1\x04\xb2",
        TableFault::WrongTable,
    ),
    (
        b"\x00\x30\x0d\x00\x01\xc1\x00\x00\x00\x01\xf0\x00\x29\x4a\x75\x31",
        TableFault::WrongTable,
    ),
    (
        b"\x00\xb0\x0d\x00\x01\xc1\x00\x00\x00\x01\xf0\x00\x2a\xb1\x04\xb3",
        TableFault::BadCrc,
    ),
    (
        b"\x00\xb0\x0d\x00\x01\xc0\x00\x00\x00\x01\xf0\x00\x65\xe6\x6c\xa3",
        TableFault::NotCurrent,
    ),
    (
        b"\x00\xb0\x0d\x00\x01\xc0\x01\x00\x00\x01\xf0\x00\x7e\xce\x61\xdb",
        TableFault::NotCurrent,
    ),
    (
        b"\x00\xb0\x0d\x00\x01\xc1\x01\x00\x00\x01\xf0\x00\x31\x99\x09\xca",
        TableFault::ManySections,
    ),
    (
        b"\x00\xb0\x0d\x00\x01\xc1\x00\x01\x00\x01\xf0\x00\x63\xbc\x63\x3f",
        TableFault::ManySections,
    ),
    (
        b"\x00\xb0\x0e\x00\x01\xc1\x00\x00\x00\x01\xf0\x00\xaf\xc1\xf9\xac",
        TableFault::BadLengths,
    ),
    (
        b"\x00\xb0\x0f\x00\x01\xc1\x00\x00\x00\x01\xf0\x00\x00\x02\xb1\x3b\x86\xd0",
        TableFault::BadLengths,
    ),
];

/// Sections and what is wrong with each as a PMT.
const FAULTY_PMTS: [(&[u8], TableFault); 10] = [
    (
        b"\x02\xb0\x0c\x00\x01\xc1\x00\x00\xe1\x00\xf0\x00\x00\x00\x00",
        TableFault::Short,
    ),
    (PAT, TableFault::WrongTable),
    (
        b"\x02\x30\x0d\x00\x01\xc1\x00\x00\xe1\x00\xf0\x00\x66\x0e\x6e\xb4",
        TableFault::WrongTable,
    ),
    (
        b"\x02\xb0\x12\x00\x01\xc1\x00\x00\xe1\x00\xf0\x00\x1b\xe1\x00\xf0\x00\x15\xbd\x4d\x57",
        TableFault::BadCrc,
    ),
    (
        b"\x02\xb0\x12\x00\x01\xc0\x00\x00\xe1\x00\xf0\x00\x1b\xe1\x00\xf0\x00\x12\x4b\xae\x50",
        TableFault::NotCurrent,
    ),
    (
        b"\x02\xb0\x12\x00\x01\xc1\x00\x01\xe1\x00\xf0\x00\x1b\xe1\x00\xf0\x00\x95\x2d\xed\x31",
        TableFault::ManySections,
    ),
    // section_length one too great
    (
        b"\x02\xb0\x13\x00\x01\xc1\x00\x00\xe1\x00\xf0\x00\x1b\xe1\x00\xf0\x00\xc8\xb2\xac\x24",
        TableFault::BadLengths,
    ),
    // descriptors of the program that pass the CRC
    (
        b"\x02\xb0\x12\x00\x01\xc1\x00\x00\xe1\x00\xf0\x06\x1b\xe1\x00\xf0\x00\x4f\x4d\x62\x46",
        TableFault::BadLengths,
    ),
    // descriptors of the stream that pass the CRC
    (
        b"\x02\xb0\x12\x00\x01\xc1\x00\x00\xe1\x00\xf0\x00\x1b\xe1\x00\xf0\x01\x11\x7c\x50\xe1",
        TableFault::BadLengths,
    ),
    // an entry cut short
    (
        b"\x02\xb0\x11\x00\x01\xc1\x00\x00\xe1\x00\xf0\x00\x1b\xe1\x00\xf0\x40\x42\xea\x03",
        TableFault::BadLengths,
    ),
];

/// A PMT with descriptors: program 3, PCR on 0x1FFF, H.264 on 0x1FF, AAC on 0x1F00, another type on 0x123.
const PMT_WITH_DESCRIPTORS: &[u8] =
    b"\x02\xb0\x2e\x00\x03\xc5\x00\x00\xff\xff\xf0\x06\x05\x04\x48\x44\x4d\x56\x1b\xe1\xff\xf0\x06\x28\x04\
      \x4d\x40\x1e\x3f\x0f\xff\x00\xf0\x06\x0a\x04\x65\x6e\x67\x00\x06\xe1\x23\xf0\x00\x8d\x23\x4e\x85";

/// Stream 0x1234: the network PID 0x10, program 1 on 0x100, program 2 on 0x200.
const PAT_WITH_NETWORK: &[u8] =
    b"\x00\xb0\x15\x12\x34\xc1\x00\x00\x00\x00\xe0\x10\x00\x01\xe1\x00\x00\x02\xe2\x00\x38\xfc\x93\x56";

/// A PAT without entries.
const EMPTY_PAT: &[u8] = b"\x00\xb0\x09\x00\x01\xc1\x00\x00\xef\x22\x62\x17";

/// The stream of a PAT, and what it chooses for each of some programs.
type Choices = (u16, [Option<(u16, u16)>; 4]);

fn choices(
    alloc: Global,
    section: &[u8],
    programs: [Option<u16>; 4],
) -> Result<Choices, TableFault> {
    let pat = Pat::read(alloc, section)?;
    let [a, b, c, d] = programs;
    let chosen = [pat.choose(a), pat.choose(b), pat.choose(c), pat.choose(d)];
    Ok((pat.transport_stream_id(), chosen))
}

const PATS: [(&[u8], [Option<u16>; 4], Choices); 3] = [
    (
        PAT,
        [None, Some(1), Some(2), Some(0)],
        (1, [Some((1, 0x1000)), Some((1, 0x1000)), None, None]),
    ),
    (
        PAT_WITH_NETWORK,
        [None, Some(0), Some(2), Some(3)],
        (
            0x1234,
            [Some((1, 0x100)), Some((0, 0x10)), Some((2, 0x200)), None],
        ),
    ),
    (
        EMPTY_PAT,
        [None, Some(0), Some(1), Some(2)],
        (1, [None, None, None, None]),
    ),
];

#[test]
fn reads_a_pat(rt: HostRuntime) {
    for (section, programs, chosen) in &PATS {
        assert_same(
            &rt,
            section,
            choices(rt.alloc(), section, *programs),
            Ok(*chosen),
        );
    }
}

/// The program of a PMT, its video, and whether it carries each of some PIDs.
type Carried = (u16, Option<u16>, [bool; 5]);

fn carried(alloc: Global, section: &[u8], pids: [u16; 5]) -> Result<Carried, TableFault> {
    let pmt = Pmt::read(alloc, section)?;
    let [a, b, c, d, e] = pids;
    let carried = [
        pmt.carries(a),
        pmt.carries(b),
        pmt.carries(c),
        pmt.carries(d),
        pmt.carries(e),
    ];
    Ok((pmt.program(), pmt.video(), carried))
}

const PMTS: [(&[u8], [u16; 5], Carried); 3] = [
    (
        PMT,
        [0x100, 0x101, 0x1B, 0, 0x1FFF],
        (1, Some(0x100), [true, false, false, false, false]),
    ),
    (
        PMT_WITH_SOUND,
        [0x100, 0x101, 0x1B, 0, 0x1FFF],
        (1, Some(0x100), [true, true, false, false, false]),
    ),
    (
        PMT_WITH_DESCRIPTORS,
        [0x1FF, 0x1F00, 0x123, 0x1FFF, 0x504],
        (3, Some(0x1FF), [true, true, true, true, false]),
    ),
];

#[test]
fn reads_a_pmt(rt: HostRuntime) {
    for (section, pids, there) in &PMTS {
        assert_same(
            &rt,
            section,
            carried(rt.alloc(), section, *pids),
            Ok(*there),
        );
    }
}

#[test]
fn tells_each_fault_of_a_pat(rt: HostRuntime) {
    for (section, fault) in &FAULTY_PATS {
        assert_same(
            &rt,
            section,
            Pat::read(rt.alloc(), section).err(),
            Some(*fault),
        );
    }
}

#[test]
fn tells_each_fault_of_a_pmt(rt: HostRuntime) {
    for (section, fault) in &FAULTY_PMTS {
        assert_same(
            &rt,
            section,
            Pmt::read(rt.alloc(), section).err(),
            Some(*fault),
        );
    }
}

/// The video of a PMT section of so many bytes, 1,024 or one more: these bytes, zero bytes of descriptors, one stream, the
/// CRC.
fn video_of_long(
    alloc: Global,
    front: &[u8],
    len: usize,
    crc: &[u8],
) -> Result<Option<u16>, TableFault> {
    let mut section = [0; 1025];
    write(&mut section, 0, front);
    write(&mut section, len.saturating_sub(9), b"\x1b\xe1\x00\xf0\x00");
    write(&mut section, len.saturating_sub(4), crc);
    Ok(Pmt::read(alloc, first(&section, len))?.video())
}

#[test]
fn reads_the_longest_section(rt: HostRuntime) {
    let longest = video_of_long(
        rt.alloc(),
        b"\x02\xb3\xfd\x00\x01\xc1\x00\x00\xe1\x00\xf3\xeb",
        1024,
        b"\x05\x26\x68\x59",
    );
    let longer = video_of_long(
        rt.alloc(),
        b"\x02\xb3\xfe\x00\x01\xc1\x00\x00\xe1\x00\xf3\xec",
        1025,
        b"\x1b\x80\x35\x9f",
    );
    assert_same(
        &rt,
        "reads the longest section",
        [longest, longer],
        [Ok(Some(0x100)), Err(TableFault::BadLengths)],
    );
}
