use crate::asserts::assert_same;
use crate::fixtures::SALT;
use playlist_text::{micros, salted_vector, vector};

#[test]
fn micros_of_ticks(rt: HostRuntime) {
    for (ticks, wanted) in [
        (0, 0),
        (1, 11),
        (5, 56),
        (9, 100),
        (3003, 33367),
        (540_000, 6_000_000),
        (u64::MAX, 204_963_823_041_217_240_167),
    ] {
        assert_same(&rt, ticks, micros(ticks), wanted);
    }
}

/// 258 in 16 bytes.
const NUMBER: [u8; 16] = [0, 0, 0, 0, 0, 0, 0, 0, 0, 0, 0, 0, 0, 0, 1, 2];

/// The salt with these bytes at its end.
fn salt_to(end: [u8; 2]) -> [u8; 16] {
    let mut salt = SALT;
    salt[14] = end[0];
    salt[15] = end[1];
    salt
}

#[test]
fn vectors_of_numbers(rt: HostRuntime) {
    for (case, came, wanted) in [
        ("258", vector(258), NUMBER),
        ("258 without a salt", salted_vector(None, 258), NUMBER),
        ("0", salted_vector(Some(SALT), 0), salt_to([0xFE, 0xFF])),
        ("1", salted_vector(Some(SALT), 1), salt_to([0xFE, 0xFE])),
        ("256", salted_vector(Some(SALT), 256), salt_to([0xFF, 0xFF])),
    ] {
        assert_same(&rt, case, came, wanted);
    }
}
