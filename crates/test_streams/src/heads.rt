//! The head that brings tables to a segment.

use crate::asserts::assert_same;
use crate::table_fixtures::Sent::Carrying;
use crate::table_fixtures::{PAT, PMT, bytes_of, described, filled, first};
use crate::watching::{in_force, show};
use psi_tables::{Watch, head, pmt_packets};
use std::alloc::Global;
use std::test::Fail;

/// How many packets of a head carry the PMT section, and the head.
type Head = (usize, Vec<u8>);

/// Shows a watch a PAT, and the packets that carry a PMT section.
fn show_tables(watch: &mut Watch, section: &[u8]) -> Result<(), Fail> {
    show(watch, &bytes_of(Carrying(0, 0, PAT)))?;
    show(watch, &filled(b"\x47\x50\x00\x10\x00", section))?;
    for counter in 0..5u8 {
        let (_, rest) = section.split_at(usize::min(
            183 + 184 * usize::from(counter),
            section.len(),
        ));
        if !rest.is_empty() {
            show(watch, &filled(&[0x47, 0x10, 0x00, 0x11 + counter], rest))?;
        }
    }
    Ok(())
}

/// The head of the tables that a watch is shown.
fn head_behind(
    alloc: Global,
    watch: &mut Watch,
    section: &[u8],
    counters: (u8, u8),
) -> Result<Head, Fail> {
    show_tables(watch, section)?;
    let tables = in_force(watch)?;
    Ok((
        pmt_packets(tables),
        head(alloc, tables, counters.0, counters.1)?,
    ))
}

/// The head of the tables that a PAT and a PMT with this section put in force.
fn head_of(alloc: Global, section: &[u8], counters: (u8, u8)) -> Result<Head, Fail> {
    let mut watch = Watch::new(alloc, None);
    let head = head_behind(alloc, &mut watch, section, counters);
    drop(watch);
    head
}

#[test]
fn head_of_the_standard_tables(rt: HostRuntime) -> Result<(), Fail> {
    let (_, head) = head_of(rt.alloc(), PMT, (0, 0))?;
    let packets = [
        bytes_of(Carrying(0, 0, PAT)),
        bytes_of(Carrying(0x1000, 0, PMT)),
    ];
    assert_same(
        &rt,
        "head of the standard tables",
        head.as_slice(),
        packets.as_flattened(),
    );
    Ok(())
}

/// What a packet begins with.
fn front(packet: &[u8; 188]) -> [u8; 5] {
    let [a, b, c, d, e, ..] = *packet;
    [a, b, c, d, e]
}

/// What each packet of a head of four begins with.
fn fronts(head: &[u8]) -> Option<[[u8; 5]; 4]> {
    let ([one, two, three, four], []) = head.as_chunks::<188>() else {
        return None;
    };
    Some([front(one), front(two), front(three), front(four)])
}

#[test]
fn counters_run_on_modulo_16(rt: HostRuntime) -> Result<(), Fail> {
    let section = described(400, b"\x82\xa3\x31\x4e");
    let (_, head) = head_of(rt.alloc(), first(&section, 400), (17, 15))?;
    assert_same(
        &rt,
        "counters run on modulo 16",
        fronts(&head),
        Some([
            *b"\x47\x40\x00\x11\x00",
            *b"\x47\x50\x00\x1f\x00",
            *b"\x47\x10\x00\x10\xaa",
            *b"\x47\x10\x00\x11\xaa",
        ]),
    );
    Ok(())
}

/// Lengths of PMT sections with their CRCs, how many packets carry them, and how long their heads are.
const SIZES: [(u16, &[u8], (usize, usize)); 6] = [
    (23, b"\x63\xa2\x3d\x30", (1, 376)),
    (183, b"\xea\xde\xf6\x92", (1, 376)),
    (184, b"\x02\xc3\x29\xae", (2, 564)),
    (367, b"\x5e\x2a\x4c\x0c", (2, 564)),
    (368, b"\xcc\x23\x9f\x19", (3, 752)),
    (1024, b"\xac\xe5\xc2\x22", (6, 1316)),
];

/// How many packets carry a PMT section of this length, and how long its head is.
fn size(alloc: Global, len: u16, crc: &[u8]) -> Result<(usize, usize), Fail> {
    let section = described(len, crc);
    let (packets, head) = head_of(alloc, first(&section, usize::from(len)), (0, 0))?;
    Ok((packets, head.len()))
}

#[test]
fn sections_of_one_packet_and_more(rt: HostRuntime) -> Result<(), Fail> {
    for (len, crc, sizes) in &SIZES {
        assert_same(&rt, len, size(rt.alloc(), *len, crc)?, *sizes);
    }
    Ok(())
}
