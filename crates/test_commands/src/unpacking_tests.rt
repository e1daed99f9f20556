//! What the segments of a playlist unpack to.
use crate::asserts::assert_same;
use crate::texts::{MEDIA, SALT, SALTED};
use aes_cbc::{Key, seal};
use fixture_standard_stream::{
    FRAME, KEY_FRAME, LAST_FRAME, PAT, PMT, SECOND_KEY_FRAME, append_packets,
};
use hls_check::{CheckFault, Checked, UnpackFault, check, check_listing, unpack};
use media_reading::{Entry, ListFault, Listing};
use playlist_text::salted_vector;
use std::alloc::{AllocError, Global};
use std::test::Fail;

/// The PAT with continuity_counter 1.
const NEXT_PAT: &[u8] =
    b"\x47\x40\x00\x11\x00\x00\xb0\x0d\x00\x01\xc1\x00\x00\x00\x01\xf0\x00\x2a\xb1\x04\xb2";

/// The PMT with continuity_counter 1.
const NEXT_PMT: &[u8] =
    b"\x47\x50\x00\x11\x00\x02\xb0\x12\x00\x01\xc1\x00\x00\xe1\x00\xf0\x00\x1b\xe1\x00\xf0\x00\x15\xbd\x4d\x56";

/// The PMT with a byte of its CRC changed.
const BAD_PMT: &[u8] =
    b"\x47\x50\x00\x10\x00\x02\xb0\x12\x00\x01\xc1\x00\x00\xe1\x00\xf0\x00\x1b\xe1\x00\xf0\x00\x15\xbd\x4d\x57";

/// The bodies of the standard stream's segments, a key frame and another frame each.
const BODIES: [&[u8]; 4] = [KEY_FRAME, FRAME, SECOND_KEY_FRAME, LAST_FRAME];

const KEY: [u8; 16] = [7; 16];

const OTHER_KEY: [u8; 16] = [9; 16];

const KEYS: [[u8; 16]; 2] = [KEY, OTHER_KEY];

/// A sealed segment: its packets, or none for 16 bytes of value 0; its key, its number, its salt, and how many bytes are cut off
/// at its end.
#[derive(Clone, Copy)]
struct Packed {
    packets: Option<[&'static [u8]; 4]>,
    key: [u8; 16],
    number: u64,
    salt: Option<[u8; 16]>,
    cut: usize,
}

/// The first segment of the standard stream.
const FIRST: Packed = Packed {
    packets: Some([PAT, PMT, KEY_FRAME, FRAME]),
    key: KEY,
    number: 0,
    salt: None,
    cut: 0,
};

/// The second one.
const SECOND: Packed = Packed {
    packets: Some([NEXT_PAT, NEXT_PMT, SECOND_KEY_FRAME, LAST_FRAME]),
    number: 1,
    ..FIRST
};

/// The second one under the second key.
const OTHER: Packed = Packed {
    key: OTHER_KEY,
    ..SECOND
};

/// The first one without its last byte.
const CUT: Packed = Packed { cut: 1, ..FIRST };

/// No packets.
const NO_HEAD: Packed = Packed {
    packets: None,
    ..FIRST
};

/// Appends what is sealed.
fn push_text(text: &mut Vec<u8>, packed: Packed) -> Result<(), AllocError> {
    match packed.packets {
        Some(packets) => append_packets(text, &packets),
        None => text.extend_from_slice(&[0; 16]),
    }
}

fn sealed(alloc: Global, packed: Packed) -> Result<Vec<u8>, AllocError> {
    let mut text = Vec::new(alloc);
    push_text(&mut text, packed)?;
    let vector = salted_vector(packed.salt, packed.number);
    let mut bytes = seal(alloc, &Key::new(packed.key), &vector, &text)?;
    bytes.truncate(bytes.len().saturating_sub(packed.cut));
    Ok(bytes)
}

fn all_sealed(alloc: Global, all: &[Packed]) -> Result<Vec<Vec<u8>>, AllocError> {
    let mut segments = Vec::new(alloc);
    for packed in all {
        segments.push(sealed(alloc, *packed)?)?;
    }
    Ok(segments)
}

/// What lists two segments under a salt or none, the second under the key of an index.
fn listing(alloc: Global, second_key: u64, salt: Option<[u8; 16]>) -> Result<Listing, AllocError> {
    let entries = vec![in alloc;
        Entry {
            number: 0,
            key: 0,
            micros: 6_000_000,
            discontinuity: false
        },
        Entry {
            number: 1,
            key: second_key,
            micros: 3_040_000,
            discontinuity: false
        },
    ]?;
    Ok(Listing {
        name: String::from_str(alloc, "v")?,
        target: 6,
        sequence: 0,
        discontinuity_sequence: 0,
        event: false,
        salt,
        entries,
        ended: true,
    })
}

/// Segments, the index of the key under which the second is listed, the salt that is listed, how many keys are handed in, and the
/// fault; without one they unpack to the bodies.
#[derive(Clone, Copy)]
struct Case {
    segments: &'static [Packed],
    second_key: u64,
    salt: Option<[u8; 16]>,
    keys: usize,
    fault: Option<UnpackFault>,
}

/// The standard stream.
const WHOLE: Case = Case {
    segments: &[FIRST, SECOND],
    second_key: 0,
    salt: None,
    keys: 2,
    fault: None,
};

const SALTED_SEGMENTS: &[Packed] = &[
    Packed {
        salt: Some(SALT),
        ..FIRST
    },
    Packed {
        salt: Some(SALT),
        ..SECOND
    },
];

/// What unpacks.
const UNPACKED: [Case; 5] = [
    WHOLE,
    Case {
        segments: &[FIRST, SECOND, NO_HEAD],
        ..WHOLE
    },
    Case {
        segments: SALTED_SEGMENTS,
        salt: Some(SALT),
        ..WHOLE
    },
    Case {
        segments: &[FIRST, OTHER],
        second_key: 1,
        ..WHOLE
    },
    // any counter of a PAT will do
    Case {
        segments: &[
            FIRST,
            Packed {
                packets: Some([PAT, NEXT_PMT, SECOND_KEY_FRAME, LAST_FRAME]),
                ..SECOND
            },
        ],
        ..WHOLE
    },
];

/// What is missing comes first, and what doesn't open before what has no head, each at its least entry.
const FAULTS: [Case; 11] = [
    Case {
        segments: &[CUT, OTHER],
        second_key: 1,
        keys: 1,
        fault: Some(UnpackFault::Missing(1)),
        ..WHOLE
    },
    Case {
        segments: &[CUT],
        fault: Some(UnpackFault::Missing(1)),
        ..WHOLE
    },
    Case {
        segments: &[NO_HEAD],
        fault: Some(UnpackFault::Missing(1)),
        ..WHOLE
    },
    Case {
        segments: &[CUT, OTHER],
        second_key: 1,
        fault: Some(UnpackFault::Closed(0)),
        ..WHOLE
    },
    Case {
        segments: &[FIRST, OTHER],
        fault: Some(UnpackFault::Closed(1)),
        ..WHOLE
    },
    Case {
        segments: &[NO_HEAD, Packed { cut: 1, ..SECOND }],
        fault: Some(UnpackFault::Closed(1)),
        ..WHOLE
    },
    Case {
        segments: &[NO_HEAD, SECOND],
        fault: Some(UnpackFault::NoHead(0)),
        ..WHOLE
    },
    Case {
        segments: &[
            NO_HEAD,
            Packed {
                number: 1,
                ..NO_HEAD
            },
        ],
        fault: Some(UnpackFault::NoHead(0)),
        ..WHOLE
    },
    Case {
        segments: &[SECOND, FIRST],
        fault: Some(UnpackFault::NoHead(0)),
        ..WHOLE
    },
    Case {
        segments: SALTED_SEGMENTS,
        fault: Some(UnpackFault::NoHead(0)),
        ..WHOLE
    },
    Case {
        segments: &[
            FIRST,
            Packed {
                packets: Some([PAT, BAD_PMT, SECOND_KEY_FRAME, LAST_FRAME]),
                ..SECOND
            },
        ],
        fault: Some(UnpackFault::NoHead(1)),
        ..WHOLE
    },
];

/// Whether bytes are the packets of both bodies.
fn are_bodies(alloc: Global, bytes: &[u8]) -> Result<bool, AllocError> {
    let mut wanted = Vec::new(alloc);
    append_packets(&mut wanted, &BODIES)?;
    Ok(bytes == wanted.as_slice())
}

/// Whether segments unpack to both bodies, or the fault.
fn unpacked(
    alloc: Global,
    listing: &Listing,
    segments: &[Vec<u8>],
    keys: &[[u8; 16]],
) -> Result<bool, UnpackFault> {
    let bytes = unpack(alloc, listing, segments, keys)?;
    match are_bodies(alloc, &bytes) {
        Ok(are) => Ok(are),
        Err(_) => Err(UnpackFault::NoMemory),
    }
}

/// What comes of a case where its segments are unpacked, and where they are counted.
fn told(
    alloc: Global,
    case: &Case,
) -> Result<(Result<bool, UnpackFault>, Result<Checked, UnpackFault>), AllocError> {
    let segments = all_sealed(alloc, case.segments)?;
    let listing = listing(alloc, case.second_key, case.salt)?;
    let keys = &KEYS[..case.keys.min(2)];
    Ok((
        unpacked(alloc, &listing, &segments, keys),
        check_listing(alloc, &listing, &segments, keys),
    ))
}

/// The first of some cases of which another thing is told: its fault, or how much its segments have, which are both bodies.
fn first_other(alloc: Global, cases: &[Case]) -> Result<Option<usize>, AllocError> {
    let whole = Checked {
        segments: 2,
        bytes: 752,
    };
    for (at, case) in cases.iter().enumerate() {
        let wanted = match case.fault {
            None => (Ok(true), Ok(whole)),
            Some(fault) => (Err(fault), Err(fault)),
        };
        if told(alloc, case)? != wanted {
            return Ok(Some(at));
        }
    }
    Ok(None)
}

#[test]
fn segments_unpack(rt: HostRuntime) -> Result<(), Fail> {
    let other = first_other(rt.alloc(), &UNPACKED)?;
    assert_same(&rt, "segments unpack", other, None);
    Ok(())
}

#[test]
fn segments_that_do_not_unpack(rt: HostRuntime) -> Result<(), Fail> {
    let other = first_other(rt.alloc(), &FAULTS)?;
    assert_same(&rt, "segments that don't unpack", other, None);
    Ok(())
}

/// Texts, the segments beside them, and what is told.
const TEXTS: [(&str, &[Packed], Result<Checked, CheckFault>); 5] = [
    (
        MEDIA,
        &[FIRST, SECOND],
        Ok(Checked {
            segments: 2,
            bytes: 752,
        }),
    ),
    (
        SALTED,
        SALTED_SEGMENTS,
        Ok(Checked {
            segments: 2,
            bytes: 752,
        }),
    ),
    (
        "",
        &[FIRST, SECOND],
        Err(CheckFault::Text(ListFault::NotProfile(1))),
    ),
    (
        MEDIA,
        &[CUT, SECOND],
        Err(CheckFault::Segments(UnpackFault::Closed(0))),
    ),
    (
        MEDIA,
        &[CUT],
        Err(CheckFault::Segments(UnpackFault::Missing(1))),
    ),
];

/// What is told of a text and the segments beside it.
fn checked(
    alloc: Global,
    text: &str,
    segments: &[Packed],
) -> Result<Result<Checked, CheckFault>, AllocError> {
    let segments = all_sealed(alloc, segments)?;
    Ok(check(alloc, text, &segments, &KEYS))
}

#[test]
fn playlists_and_their_segments(rt: HostRuntime) -> Result<(), Fail> {
    for (text, segments, told) in TEXTS {
        let came = checked(rt.alloc(), text, segments)?;
        assert_same(&rt, text, came, told);
    }
    Ok(())
}
