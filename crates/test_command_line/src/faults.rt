use crate::asserts::assert_same;
use command_line::Fault;
use commands::{
    CheckingFault, CipherFault, KeyListFault, LadderFault, LadderPackingFault, OpeningFault,
    SealingFault, SettingsFault,
};
use hls_check::{CheckFault, UnpackFault};
use media_reading::ListFault;
use pipeline::PackFault;
use read_ahead::InputFault;
use std::alloc::{AllocError, Global};
use std::process::Abort;
use std::test::Fail;

/// Stops a test where a fault prints otherwise, or ends with another status.
fn check(
    rt: &impl Abort,
    alloc: Global,
    fault: Fault,
    text: &str,
    status: u8,
) -> Result<(), AllocError> {
    let told = format!(in alloc; "{fault}")?;
    assert_same(rt, text, (told.as_str(), fault.status()), (text, status));
    Ok(())
}

#[test]
fn of_the_line(rt: HostRuntime) -> Result<(), Fail> {
    let table = [
        (Fault::NotUtf8, "tshls: NotUtf8\n", 2),
        (Fault::NoMemory, "tshls: NoMemory\n", 1),
        (Fault::Busy, "tshls: Busy\n", 1),
        (Fault::Cipher(CipherFault::BadKey), "tshls: BadKey\n", 2),
        (
            Fault::Cipher(CipherFault::BadVector),
            "tshls: BadVector\n",
            2,
        ),
        (Fault::Cipher(CipherFault::Unread), "tshls: Unread\n", 1),
        (
            Fault::Cipher(CipherFault::BadKeyFile(1)),
            "tshls: BadKeyFile 1\n",
            1,
        ),
        (Fault::Cipher(CipherFault::NoMemory), "tshls: NoMemory\n", 1),
        (Fault::KeyList(KeyListFault::BadKey), "tshls: BadKey\n", 2),
        (Fault::KeyList(KeyListFault::Unread), "tshls: Unread\n", 1),
        (
            Fault::KeyList(KeyListFault::BadKeyFile(2)),
            "tshls: BadKeyFile 2\n",
            1,
        ),
        (
            Fault::KeyList(KeyListFault::NoMemory),
            "tshls: NoMemory\n",
            1,
        ),
    ];
    for (fault, text, status) in table {
        check(&rt, rt.alloc(), fault, text, status)?;
    }
    Ok(())
}

#[test]
fn of_settings(rt: HostRuntime) -> Result<(), Fail> {
    let table = [
        (SettingsFault::BadKey, "tshls: BadKey\n", 2),
        (SettingsFault::BadSize, "tshls: BadSize\n", 2),
        (SettingsFault::BadVector, "tshls: BadVector\n", 2),
        (SettingsFault::TooMany, "tshls: TooMany\n", 1),
        (SettingsFault::ZeroPeriod, "tshls: ZeroPeriod\n", 1),
        (SettingsFault::Settings, "tshls: Settings\n", 1),
        (SettingsFault::Unread, "tshls: Unread\n", 1),
        (SettingsFault::BadKeyFile(3), "tshls: BadKeyFile 3\n", 1),
        (SettingsFault::NoMemory, "tshls: NoMemory\n", 1),
    ];
    for (fault, text, status) in table {
        check(&rt, rt.alloc(), Fault::from(fault), text, status)?;
    }
    Ok(())
}

#[test]
fn of_a_ladder(rt: HostRuntime) -> Result<(), Fail> {
    let table = [
        (LadderFault::BadEntry(3), "tshls: BadEntry 3\n", 2),
        (LadderFault::BadVector, "tshls: BadVector\n", 2),
        (LadderFault::TooMany, "tshls: TooMany\n", 1),
        (LadderFault::ZeroPeriod, "tshls: ZeroPeriod\n", 1),
        (LadderFault::Settings, "tshls: Settings\n", 1),
        (LadderFault::Unread, "tshls: Unread\n", 1),
        (LadderFault::BadKeyFile(4), "tshls: BadKeyFile 4\n", 1),
        (LadderFault::NoMemory, "tshls: NoMemory\n", 1),
    ];
    for (fault, text, status) in table {
        check(&rt, rt.alloc(), Fault::from(fault), text, status)?;
    }
    Ok(())
}

#[test]
fn of_packing_a_ladder(rt: HostRuntime) -> Result<(), Fail> {
    let table = [
        (
            LadderPackingFault::Packing(PackFault::LongSegment(1, 2)),
            "tshls: LongSegment 1 2\n",
        ),
        (LadderPackingFault::Unwritten, "tshls: Unwritten\n"),
        (LadderPackingFault::NoMemory, "tshls: NoMemory\n"),
    ];
    for (fault, text) in table {
        check(&rt, rt.alloc(), Fault::from(fault), text, 1)?;
    }
    Ok(())
}

#[test]
fn of_inputs(rt: HostRuntime) -> Result<(), Fail> {
    for (fault, text) in [
        (InputFault::Unread, "tshls: Unread\n"),
        (InputFault::NoMemory, "tshls: NoMemory\n"),
    ] {
        check(&rt, rt.alloc(), Fault::from(fault), text, 1)?;
    }
    Ok(())
}

#[test]
fn of_sealing(rt: HostRuntime) -> Result<(), Fail> {
    let table = [
        (SealingFault::Unread, "tshls: Unread\n"),
        (SealingFault::ReadLimit, "tshls: ReadLimit\n"),
        (SealingFault::Unwritten, "tshls: Unwritten\n"),
        (SealingFault::NoMemory, "tshls: NoMemory\n"),
    ];
    for (fault, text) in table {
        check(&rt, rt.alloc(), Fault::from(fault), text, 1)?;
    }
    Ok(())
}

#[test]
fn of_opening(rt: HostRuntime) -> Result<(), Fail> {
    let table = [
        (OpeningFault::Unread, "tshls: Unread\n"),
        (OpeningFault::ReadLimit, "tshls: ReadLimit\n"),
        (OpeningFault::BadHex, "tshls: BadHex\n"),
        (OpeningFault::NotBlocks, "tshls: NotBlocks\n"),
        (OpeningFault::BadPadding, "tshls: BadPadding\n"),
        (OpeningFault::Unwritten, "tshls: Unwritten\n"),
        (OpeningFault::NoMemory, "tshls: NoMemory\n"),
    ];
    for (fault, text) in table {
        check(&rt, rt.alloc(), Fault::from(fault), text, 1)?;
    }
    Ok(())
}

#[test]
fn of_packing(rt: HostRuntime) -> Result<(), Fail> {
    let table = [
        (PackFault::Settings, "tshls: Settings\n"),
        (PackFault::Read(0), "tshls: Read 0\n"),
        (PackFault::ReadLimit(0), "tshls: ReadLimit 0\n"),
        (PackFault::NoProgram(0), "tshls: NoProgram 0\n"),
        (PackFault::NoStart(0), "tshls: NoStart 0\n"),
        (PackFault::LongSegment(0, 3), "tshls: LongSegment 0 3\n"),
        (PackFault::BigSegment(0, 4), "tshls: BigSegment 0 4\n"),
        (PackFault::Limit(0), "tshls: Limit 0\n"),
        (PackFault::Outlet, "tshls: Outlet\n"),
        (PackFault::NoMemory, "tshls: NoMemory\n"),
        (PackFault::Held(1, 2), "tshls: Held 1 2\n"),
    ];
    for (fault, text) in table {
        check(&rt, rt.alloc(), Fault::from(fault), text, 1)?;
    }
    Ok(())
}

#[test]
fn of_checking(rt: HostRuntime) -> Result<(), Fail> {
    let table = [
        (CheckingFault::Unread, "tshls: Unread\n"),
        (CheckingFault::Unwritten, "tshls: Unwritten\n"),
        (CheckingFault::NoMemory, "tshls: NoMemory\n"),
        (
            CheckingFault::Faulty(CheckFault::Text(ListFault::NotProfile(7))),
            "tshls: NotProfile 7\n",
        ),
        (
            CheckingFault::Faulty(CheckFault::Text(ListFault::NoMemory)),
            "tshls: NoMemory\n",
        ),
        (
            CheckingFault::Faulty(CheckFault::Segments(UnpackFault::Missing(3))),
            "tshls: Missing 3\n",
        ),
        (
            CheckingFault::Faulty(CheckFault::Segments(UnpackFault::Closed(4))),
            "tshls: Closed 4\n",
        ),
        (
            CheckingFault::Faulty(CheckFault::Segments(UnpackFault::NoHead(0))),
            "tshls: NoHead 0\n",
        ),
        (
            CheckingFault::Faulty(CheckFault::Segments(UnpackFault::NoMemory)),
            "tshls: NoMemory\n",
        ),
    ];
    for (fault, text) in table {
        check(&rt, rt.alloc(), Fault::from(fault), text, 1)?;
    }
    Ok(())
}
