use crate::asserts::assert_same;
use crate::fixtures::{BrokenReader, FullWriter, cipher, key_frame};
use crate::seal::sealed;
use aes_cbc::Key;
use commands::{CipherOptions, OpeningFault, open};
use item_io::ReaderSource;
use std::alloc::Global;
use std::test::Fail;

/// What `open` writes of an input.
fn opened(alloc: Global, cipher: &CipherOptions, input: &[u8]) -> Result<Vec<u8>, OpeningFault> {
    let mut input = ReaderSource::new(input);
    let mut output = Vec::new(alloc);
    open(alloc, &cipher.key, &cipher.vector, &mut input, &mut output)?;
    Ok(output)
}

#[test]
fn opens_what_was_sealed(rt: HostRuntime) -> Result<(), Fail> {
    let cipher = cipher(rt.alloc())?;
    let line = sealed(rt.alloc(), &key_frame())?;
    let packet = opened(rt.alloc(), &cipher, &line).map_err(|_| "packet")?;
    let begins = packet.starts_with(b"474100300140000001e000008080052100010001ffff");
    let ends = packet.ends_with(b"ffff\n");
    assert_same(
        &rt,
        "opens what was sealed",
        (packet.len(), begins, ends),
        (377, true, true),
    );
    Ok(())
}

#[test]
fn open_refuses_what_is_no_hex(rt: HostRuntime) -> Result<(), Fail> {
    let cipher = cipher(rt.alloc())?;
    let table: [&[u8]; 7] = [
        b"6",
        b"\n\n",
        b"69c4e0d86a7b0430d8cdb78070b4c55a\r\n",
        b"69c4e0d86a7b0430d8cdb78070b4c55a\n\n",
        b" 69c4e0d86a7b0430d8cdb78070b4c55a",
        b"69c4e0d86a7b0430\nd8cdb78070b4c55a\n",
        b"69c4e0d86a7b0430d8cdb78070b4c55g",
    ];
    for input in table {
        let told = opened(rt.alloc(), &cipher, input).err();
        assert_same(&rt, input, told, Some(OpeningFault::BadHex));
    }
    Ok(())
}

#[test]
fn open_refuses_what_was_not_sealed(rt: HostRuntime) -> Result<(), Fail> {
    let alloc = rt.alloc();
    let cipher = cipher(rt.alloc())?;
    let table: [(&[u8], OpeningFault); 4] = [
        (b"", OpeningFault::NotBlocks),
        (b"\n", OpeningFault::NotBlocks),
        (b"69c4e0d86a7b0430d8cdb78070b4c5", OpeningFault::NotBlocks),
        (
            b"79c4e0d86a7b0430d8cdb78070b4c55a",
            OpeningFault::BadPadding,
        ),
    ];
    for (input, wanted) in table {
        let told = opened(alloc, &cipher, input).err();
        assert_same(&rt, input, told, Some(wanted));
    }
    let other_vector = CipherOptions {
        key: Key::new(*cipher.key.as_bytes()),
        vector: [0; 16],
    };
    let told = opened(alloc, &other_vector, b"69c4e0d86a7b0430d8cdb78070b4c55a\n").err();
    assert_same(&rt, "another vector", told, Some(OpeningFault::BadPadding));
    Ok(())
}

#[test]
fn open_takes_either_case_and_a_missing_end(rt: HostRuntime) -> Result<(), Fail> {
    let cipher = cipher(rt.alloc())?;
    let table: [&[u8]; 3] = [
        b"69C4E0D86A7B0430d8cdb78070b4c55a",
        b"69c4e0d86a7b0430d8cdb78070b4c55a",
        b"69c4e0d86a7b0430d8cdb78070b4c55a\n",
    ];
    for input in table {
        let plain = opened(rt.alloc(), &cipher, input).map_err(|_| "opening")?;
        assert_same(&rt, input, plain.as_slice(), b"\n".as_slice());
    }
    Ok(())
}

#[test]
fn open_tells_a_failed_read(rt: HostRuntime) -> Result<(), Fail> {
    let alloc = rt.alloc();
    let cipher = cipher(rt.alloc())?;
    let line = sealed(alloc, &key_frame())?;
    let mut input = ReaderSource::new(BrokenReader { bytes: &line });
    let mut output = Vec::new(alloc);
    let answer = open(alloc, &cipher.key, &cipher.vector, &mut input, &mut output);
    assert_same(
        &rt,
        "a failed read",
        (answer, output.len()),
        (Err(OpeningFault::Unread), 0),
    );
    Ok(())
}

/// Whether `open` of a line tells that a writer with this much room is full, which then got so much of the whole output.
fn leaves(alloc: Global, cipher: &CipherOptions, line: &[u8], whole: &[u8], room: usize) -> bool {
    let mut input = ReaderSource::new(line);
    let mut output = FullWriter {
        taken: Vec::new(alloc),
        room,
    };
    let answer = open(alloc, &cipher.key, &cipher.vector, &mut input, &mut output);
    answer == Err(OpeningFault::Unwritten)
        && output.taken.len() == room
        && whole.starts_with(&output.taken)
}

#[test]
fn open_leaves_a_beginning(rt: HostRuntime) -> Result<(), Fail> {
    let cipher = cipher(rt.alloc())?;
    let line = sealed(rt.alloc(), &key_frame())?;
    let whole = opened(rt.alloc(), &cipher, &line).map_err(|_| "opening")?;
    let leave = [0, 1, 376].map(|room| leaves(rt.alloc(), &cipher, &line, &whole, room));
    assert_same(
        &rt,
        "open leaves a beginning",
        (whole.len(), leave),
        (377, [true; 3]),
    );
    Ok(())
}
