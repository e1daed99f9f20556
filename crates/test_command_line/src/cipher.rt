use super::words::{KEY, told};
use crate::asserts::assert_same;
use std::test::Fail;

const VECTOR: &str = "10013223544576679889baabdccdfeef";

#[test]
fn keys_on_the_command_line(rt: HostRuntime) -> Result<(), Fail> {
    let table = [
        (KEY, "", 0),
        ("000102030405060708090A0B0C0D0E0F", "", 0),
        ("@raw", "", 0),
        ("@line", "", 0),
        ("@bad", "tshls: BadKeyFile 1\n", 1),
        ("@none", "tshls: Unread\n", 1),
        ("@", "tshls: BadKey\n", 2),
        ("00", "tshls: BadKey\n", 2),
        ("", "tshls: BadKey\n", 2),
        ("000102030405060708090a0b0c0d0e0g", "tshls: BadKey\n", 2),
    ];
    for (key, text, status) in table {
        let told = told(rt.alloc(), &["tshls", "seal", "--key", key, "--seq", "0"])?;
        assert_same(&rt, key, (told.0.as_str(), told.1), (text, status));
    }
    Ok(())
}

#[test]
fn vectors_on_the_command_line(rt: HostRuntime) -> Result<(), Fail> {
    let table: [(&[&str], &str); 7] = [
        (&["tshls", "open", "--key", KEY], "tshls: BadVector\n"),
        (&["tshls", "open", "--key", "@none"], "tshls: BadVector\n"),
        (&["tshls", "seal", "--key", KEY], "tshls: BadVector\n"),
        (
            &["tshls", "seal", "--key", KEY, "--iv", VECTOR, "--seq", "0"],
            "tshls: BadVector\n",
        ),
        (
            &["tshls", "seal", "--key", KEY, "--iv", "00"],
            "tshls: BadVector\n",
        ),
        (&["tshls", "seal", "--key", "00"], "tshls: BadKey\n"),
        (
            &["tshls", "seal", "--key", "00", "--iv", "00"],
            "tshls: BadKey\n",
        ),
    ];
    for (words, text) in table {
        let told = told(rt.alloc(), words)?;
        assert_same(&rt, words, (told.0.as_str(), told.1), (text, 2));
    }
    let last = [
        "tshls",
        "open",
        "--key",
        KEY,
        "--seq",
        "18446744073709551615",
    ];
    assert_same(&rt, "the last number", told(rt.alloc(), &last)?.1, 0);
    Ok(())
}

#[test]
fn clap_refuses_with_status_2(rt: HostRuntime) -> Result<(), Fail> {
    let table: [&[&str]; 6] = [
        &["tshls"],
        &["tshls", "--help"],
        &["tshls", "pack"],
        &["tshls", "seal", "--seq", "0"],
        &[
            "tshls",
            "seal",
            "--key",
            KEY,
            "--seq",
            "18446744073709551616",
        ],
        &["tshls", "seal", "--key", KEY, "--seq", "-1"],
    ];
    for words in table {
        let told = told(rt.alloc(), words)?;
        assert_same(&rt, words, (told.0.is_empty(), told.1), (false, 2));
    }
    Ok(())
}
