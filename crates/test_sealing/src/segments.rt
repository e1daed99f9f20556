//! Tests of keys and of sealed segments.

use crate::asserts::assert_same;
use crate::fixtures::{NEW_TABLES, key_of, plans_of, same};
use aes_cbc::{Key, OpenFault, open, seal};
use cutter::Plan;
use fixture_standard_stream::{KEY_FRAME, STREAM, filled};
use segment_job::{KeyFault, Keys, RangeFault, Sealed, SealedBytes, open_range, seal_plan, vector};
use std::alloc::{AllocError, Global};
use std::process::Abort;
use std::test::Fail;

#[test]
fn vectors_are_big_endian(rt: HostRuntime) {
    let last = [
        0, 0, 0, 0, 0, 0, 0, 0, 0xFF, 0xFF, 0xFF, 0xFF, 0xFF, 0xFF, 0xFF, 0xFF,
    ];
    same(&rt, "of 0", &vector(0), &[0; 16]);
    same(
        &rt,
        "of 258",
        &vector(258),
        &[0, 0, 0, 0, 0, 0, 0, 0, 0, 0, 0, 0, 0, 0, 1, 2],
    );
    same(&rt, "of the last number", &vector(u64::MAX), &last);
}

/// Stops a test where so many keys with this period rotate, or not for this reason.
fn check_rotation(
    rt: &impl Abort,
    alloc: Global,
    count: usize,
    period: u64,
    wanted: Option<KeyFault>,
) -> Result<(), AllocError> {
    let mut keys = Vec::new(alloc);
    keys.resize(count, [7; 16])?;
    let fault = Keys::new(keys, period).err();
    assert_same(rt, (count, period), fault, wanted);
    Ok(())
}

#[test]
fn keys_that_do_not_rotate(rt: HostRuntime) -> Result<(), Fail> {
    let table = [
        (0, 0, Some(KeyFault::NoKeys)),
        (0, 1, Some(KeyFault::NoKeys)),
        (4097, 1, Some(KeyFault::TooMany)),
        (4097, 0, Some(KeyFault::TooMany)),
        (1, 0, Some(KeyFault::ZeroPeriod)),
        (4096, 1, None),
        (1, u64::MAX, None),
    ];
    for (count, period, wanted) in table {
        check_rotation(&rt, rt.alloc(), count, period, wanted)?;
    }
    Ok(())
}

/// Two keys of sixteen such bytes, which take turns of two segments each, copied.
fn turns(alloc: Global, first: u8, second: u8) -> Result<Keys, Fail> {
    let keys = Vec::from_array(alloc, [[first; 16], [second; 16]])?;
    let keys = Keys::new(keys, 2)?;
    Ok(keys.copy()?)
}

#[test]
fn two_keys_take_turns(rt: HostRuntime) -> Result<(), Fail> {
    let keys = turns(rt.alloc(), 1, 2)?;
    for (n, index, byte) in [
        (0, 0, 1),
        (1, 0, 1),
        (2, 1, 2),
        (3, 1, 2),
        (4, 0, 1),
        (u64::MAX, 1, 2),
    ] {
        assert_same(&rt, n, (keys.index(n), keys.key(n)), (index, [byte; 16]));
    }
    Ok(())
}

/// Two keys that take turns of one segment each: the bytes 0 to 15, and the bytes 16 to 31.
fn two_keys(alloc: Global) -> Result<Keys, Fail> {
    let mut keys = Vec::new(alloc);
    keys.push(*b"\x00\x01\x02\x03\x04\x05\x06\x07\x08\x09\x0a\x0b\x0c\x0d\x0e\x0f")?;
    keys.push(*b"\x10\x11\x12\x13\x14\x15\x16\x17\x18\x19\x1a\x1b\x1c\x1d\x1e\x1f")?;
    Ok(Keys::new(keys, 1)?)
}

/// A salt of the bytes F0 to FF.
const SALT: &[u8; 16] = b"\xf0\xf1\xf2\xf3\xf4\xf5\xf6\xf7\xf8\xf9\xfa\xfb\xfc\xfd\xfe\xff";

/// One key, with that salt.
fn salted_key(alloc: Global) -> Result<Keys, Fail> {
    Ok(Keys::salted(Vec::from_array(alloc, [[7; 16]])?, 1, *SALT)?)
}

#[test]
fn salted_vectors(rt: HostRuntime) -> Result<(), Fail> {
    let keys = salted_key(rt.alloc())?;
    let keys = keys.copy()?;
    same(&rt, "of 0", &keys.vector(0), SALT);
    let wanted = b"\xf0\xf1\xf2\xf3\xf4\xf5\xf6\xf7\xf8\xf9\xfa\xfb\xfc\xfd\xfe\xfe";
    same(&rt, "of 1", &keys.vector(1), wanted);
    let wanted = b"\xf0\xf1\xf2\xf3\xf4\xf5\xf6\xf7\xf8\xf9\xfa\xfb\xfc\xfd\xff\xff";
    same(&rt, "of 256", &keys.vector(256), wanted);
    assert_same(&rt, "the salt", keys.salt(), Some(*SALT));
    let plain = two_keys(rt.alloc())?;
    same(
        &rt,
        "of 258, without a salt",
        &plain.vector(258),
        &vector(258),
    );
    assert_same(&rt, "no salt", plain.salt(), None);
    Ok(())
}

#[test]
fn a_run_goes_on_behind_another(rt: HostRuntime) -> Result<(), Fail> {
    let keys = turns(rt.alloc(), 1, 2)?.behind(3);
    let keys = keys.copy()?;
    for (n, number, index) in [
        (0, 3, 1),
        (1, 4, 0),
        (5, 8, 0),
        (u64::MAX, (1 << 64) + 2, 1),
    ] {
        assert_same(&rt, n, (keys.number(n), keys.index(n)), (number, index));
    }
    same(&rt, "of 255", &keys.vector(255), &vector(258));
    let salted = salted_key(rt.alloc())?.behind(200);
    let wanted = b"\xf0\xf1\xf2\xf3\xf4\xf5\xf6\xf7\xf8\xf9\xfa\xfb\xfc\xfd\xff\xff";
    same(&rt, "of 56 behind 200", &salted.vector(56), wanted);
    Ok(())
}

/// The plain text of a segment.
fn opened(alloc: Global, sealed: &Sealed<'_>) -> Result<Vec<u8>, OpenFault> {
    open(
        alloc,
        &Key::new(sealed.key()),
        &sealed.vector(),
        bytes_of(sealed),
    )
}

/// The bytes of a segment that was sealed in memory.
fn bytes_of<'a>(sealed: &'a Sealed<'_>) -> &'a [u8] {
    sealed.bytes().unwrap_or(&[])
}

/// How long a segment is, how long it is when it is opened, and how long its head is.
fn lengths(alloc: Global, plan: &Plan, keys: &Keys) -> Result<(usize, usize, u64), Fail> {
    let sealed = seal_plan(alloc, plan.lend(), keys)?;
    let text = opened(alloc, &sealed)?.len();
    Ok((bytes_of(&sealed).len(), text, sealed.head_len()))
}

/// Stops a test where the segments of two plans have other lengths.
fn check_lengths(
    rt: &impl Abort,
    alloc: Global,
    plans: &[Plan],
    keys: &Keys,
    wanted: &[(usize, usize, u64); 2],
) -> Result<(), Fail> {
    assert_same(rt, "plans", plans.len(), 2);
    for (plan, wanted) in plans.iter().zip(wanted) {
        let told = lengths(alloc, plan, keys)?;
        assert_same(rt, plan.number, told, *wanted);
    }
    Ok(())
}

#[test]
fn sizes_of_segments(rt: HostRuntime) -> Result<(), Fail> {
    let keys = two_keys(rt.alloc())?;
    let plans = plans_of(rt.alloc(), &STREAM)?;
    check_lengths(
        &rt,
        rt.alloc(),
        &plans,
        &keys,
        &[(768, 752, 376), (768, 752, 376)],
    )
}

#[test]
fn sizes_of_segments_where_the_tables_change(rt: HostRuntime) -> Result<(), Fail> {
    let keys = two_keys(rt.alloc())?;
    let plans = plans_of(rt.alloc(), &NEW_TABLES)?;
    check_lengths(
        &rt,
        rt.alloc(),
        &plans,
        &keys,
        &[(768, 752, 376), (576, 564, 376)],
    )
}

/// Stops a test where the segment of a plan isn't under its own key and vector, or its first or last block is another one.
fn check_blocks(
    rt: &impl Abort,
    alloc: Global,
    plan: &Plan,
    keys: &Keys,
    first: &[u8; 16],
    last: &[u8; 16],
) -> Result<(), AllocError> {
    let sealed = seal_plan(alloc, plan.lend(), keys)?;
    let number = plan.number;
    same(rt, "the key", &sealed.key(), &keys.key(number));
    same(rt, "the vector", &sealed.vector(), &vector(number));
    let begins = bytes_of(&sealed).starts_with(first);
    let ends = bytes_of(&sealed).ends_with(last);
    assert_same(rt, ("the blocks of", number), (begins, ends), (true, true));
    Ok(())
}

/// The same of two plans, by blocks from OpenSSL 3, `enc -aes-128-cbc`: the first and the last of each.
fn check_all_blocks(
    rt: &impl Abort,
    alloc: Global,
    plans: &[Plan],
    keys: &Keys,
) -> Result<(), AllocError> {
    let blocks: [(&[u8; 16], &[u8; 16]); 2] = [
        (
            b"\x06\xdf\x0c\x5f\xc1\xfd\xfb\xbf\xa9\xb0\xee\x3c\x7c\x13\x38\x1b",
            b"\x35\xe1\xac\x3a\xd9\xde\x0e\x06\x8d\xaf\xa7\x3f\x46\x78\xd8\xf6",
        ),
        (
            b"\x7e\xe6\x3c\x38\x32\x9a\x55\x00\x96\x88\xc5\x44\x4f\xe1\x29\x3a",
            b"\x29\x46\x3b\xf1\xea\xe3\xff\xc8\x59\x1f\x6f\x6d\x32\xd9\xfb\xc0",
        ),
    ];
    assert_same(rt, "plans", plans.len(), 2);
    for (plan, (first, last)) in plans.iter().zip(blocks) {
        check_blocks(rt, alloc, plan, keys, first, last)?;
    }
    Ok(())
}

#[test]
fn segments_are_sealed_as_others_seal_them(rt: HostRuntime) -> Result<(), Fail> {
    let keys = two_keys(rt.alloc())?;
    let plans = plans_of(rt.alloc(), &STREAM)?;
    Ok(check_all_blocks(&rt, rt.alloc(), &plans, &keys)?)
}

/// A value as it comes back from another place that may be another thread.
fn sent<T: Send>(value: T) -> T {
    value
}

/// Stops a test where the segment of a plan doesn't tell the keys that sealed it from others, or isn't made of its plan.
fn check_origin(
    rt: &impl Abort,
    alloc: Global,
    plan: &Plan,
    keys: &Keys,
    others: &Keys,
) -> Result<(), AllocError> {
    let sealed = seal_plan(alloc, plan.lend(), keys)?;
    same(
        rt,
        "the vector",
        &sealed.vector(),
        &keys.vector(plan.number),
    );
    let by = (sealed.is_by(keys), sealed.is_by(others));
    let size = sealed.size();
    let (origin, bytes) = sent(sealed).into_parts();
    let is_in_memory = match bytes {
        SealedBytes::InMemory(bytes) => bytes.len() as u64 == size,
        SealedBytes::InFile(_) => false,
    };
    assert_same(
        rt,
        plan.number,
        (by, origin.plan().number, size, is_in_memory),
        ((true, false), plan.number, 768, true),
    );
    Ok(())
}

/// The same of two plans.
fn check_origins(
    rt: &impl Abort,
    alloc: Global,
    plans: &[Plan],
    keys: &Keys,
    others: &Keys,
) -> Result<(), AllocError> {
    assert_same(rt, "plans", plans.len(), 2);
    for plan in plans {
        check_origin(rt, alloc, plan, keys, others)?;
    }
    Ok(())
}

#[test]
fn a_segment_tells_what_it_is(rt: HostRuntime) -> Result<(), Fail> {
    let keys = two_keys(rt.alloc())?;
    let others = key_of(rt.alloc(), 7)?;
    let plans = plans_of(rt.alloc(), &STREAM)?;
    Ok(check_origins(&rt, rt.alloc(), &plans, &keys, &others)?)
}

#[test]
fn segments_under_a_salt(rt: HostRuntime) -> Result<(), Fail> {
    let keys = salted_key(rt.alloc())?;
    let unsalted = key_of(rt.alloc(), 7)?;
    let plans = plans_of(rt.alloc(), &STREAM)?;
    check_origins(&rt, rt.alloc(), &plans, &keys, &unsalted)?;
    check_lengths(
        &rt,
        rt.alloc(),
        &plans,
        &keys,
        &[(768, 752, 376), (768, 752, 376)],
    )
}

/// Stops a test where the key frame of a segment, whose key is this, doesn't open alone under a vector.
fn check_frame(
    rt: &impl Abort,
    alloc: Global,
    key: [u8; 16],
    vector: &[u8; 16],
    bytes: &[u8],
) -> Result<(), RangeFault> {
    let text = open_range(alloc, &Key::new(key), vector, bytes, 376, 188)?;
    same(rt, "the key frame", &text, &filled(KEY_FRAME, &[]));
    Ok(())
}

/// The bytes of a segment, 0 but for the blocks of its key frame and the one before them.
fn blocks_of_the_frame(alloc: Global, bytes: &[u8]) -> Result<Vec<u8>, AllocError> {
    let mut blocks = Vec::from_slice(alloc, bytes)?;
    for at in 0..blocks.len() {
        if at < 352 || at >= 576 {
            blocks[at] = 0;
        }
    }
    Ok(blocks)
}

/// Stops a test where the key frame of a segment doesn't open alone.
fn check_frames(rt: &impl Abort, alloc: Global, sealed: &Sealed<'_>) -> Result<(), Fail> {
    check_frame(rt, alloc, sealed.key(), &[0; 16], bytes_of(sealed))?;
    check_frame(rt, alloc, sealed.key(), &[9; 16], bytes_of(sealed))?;
    let blocks = blocks_of_the_frame(alloc, bytes_of(sealed))?;
    Ok(check_frame(rt, alloc, sealed.key(), &[9; 16], &blocks)?)
}

/// The segment of the first plan, under two keys.
fn first_segment(alloc: Global, plans: &[Plan]) -> Result<Sealed<'_>, Fail> {
    let Some(plan) = plans.first() else {
        return Err(Fail::from("no plan"));
    };
    Ok(seal_plan(alloc, plan.lend(), &two_keys(alloc)?)?)
}

#[test]
fn a_frame_opens_alone(rt: HostRuntime) -> Result<(), Fail> {
    let plans = plans_of(rt.alloc(), &STREAM)?;
    let sealed = first_segment(rt.alloc(), &plans)?;
    check_frames(&rt, rt.alloc(), &sealed)
}

/// Stops a test where a range of bytes opens, or not for this reason.
fn check_fault(
    rt: &impl Abort,
    alloc: Global,
    bytes: &[u8],
    offset: u64,
    len: u64,
    wanted: Option<RangeFault>,
) {
    let fault = open_range(alloc, &Key::new([7; 16]), &[0; 16], bytes, offset, len).err();
    let size = bytes.len();
    assert_same(rt, (size, offset, len), fault, wanted);
}

#[test]
fn ranges_that_do_not_open(rt: HostRuntime) {
    let bytes = [0; 48];
    let whole = &bytes;
    let (short, _) = bytes.split_at(47);
    let outside = Some(RangeFault::Outside);
    let not_blocks = Some(RangeFault::NotBlocks);
    check_fault(&rt, rt.alloc(), whole, 48, 0, None);
    check_fault(&rt, rt.alloc(), whole, 48, 1, outside);
    check_fault(&rt, rt.alloc(), whole, 0, 49, outside);
    check_fault(&rt, rt.alloc(), whole, u64::MAX, 2, outside);
    check_fault(&rt, rt.alloc(), short, 0, 48, outside);
    check_fault(&rt, rt.alloc(), short, 0, 47, not_blocks);
    check_fault(&rt, rt.alloc(), &[], 0, 0, not_blocks);
    check_fault(&rt, rt.alloc(), whole, 0, 48, None);
}

/// A text, and its padding to whole blocks.
const PADDED: &[u8; 48] =
    b"a text of three blocks, padded to 48.\x0b\x0b\x0b\x0b\x0b\x0b\x0b\x0b\x0b\x0b\x0b";

/// Stops a test where a range of the sealed text opens to other bytes.
fn check_range(
    rt: &impl Abort,
    alloc: Global,
    sealed: &[u8],
    offset: usize,
    end: usize,
) -> Result<(), RangeFault> {
    let len = end.saturating_sub(offset) as u64;
    let part = open_range(
        alloc,
        &Key::new([7; 16]),
        &vector(5),
        sealed,
        offset as u64,
        len,
    )?;
    assert_same(
        rt,
        (offset, end),
        Some(part.as_slice()),
        PADDED.get(offset..end),
    );
    Ok(())
}

#[test]
fn every_range_of_a_text(rt: HostRuntime) -> Result<(), Fail> {
    let text = b"a text of three blocks, padded to 48.";
    let sealed = seal(rt.alloc(), &Key::new([7; 16]), &vector(5), text)?;
    for offset in 0..49 {
        for end in offset..49 {
            check_range(&rt, rt.alloc(), &sealed, offset, end)?;
        }
    }
    Ok(())
}
