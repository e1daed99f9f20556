use crate::asserts::assert_same;
use crate::fixtures::{UNBOUNDED, drain};
use read_ahead::{InputFault, InputFiles, open_paths};
use std::fs;
use std::test::Fail;

#[test]
fn a_path_that_cannot_be_opened(rt: HostRuntime) -> Result<(), Fail> {
    for paths in [["missing", "."], [".", "missing"], ["missing", "gone"]] {
        let opened = open_paths(rt, rt.alloc(), rt, &paths, UNBOUNDED);
        assert_same(&rt, paths, opened.err(), Some(InputFault::Unread));
    }
    Ok(())
}

#[test]
fn a_folder_fails_and_a_file_goes_on(rt: HostRuntime) -> Result<(), Fail> {
    fs::write(&rt, "pattern", b"\x00\x01\x02\x03".as_slice())?;
    let mut counts = Vec::new(rt.alloc());
    let mut failures = Vec::new(rt.alloc());
    if let Ok(sources) = open_paths(rt, rt.alloc(), rt, &[".", "pattern"], UNBOUNDED) {
        for source in sources {
            let mut source = source;
            let given = drain(rt.alloc(), &mut source, 100)?;
            counts.push(given.count)?;
            failures.push(given.failed)?;
        }
    }
    assert_same(
        &rt,
        "what each gives, and whether it fails",
        (counts.as_slice(), failures.as_slice()),
        ([0, 4].as_slice(), [true, false].as_slice()),
    );
    Ok(())
}

#[test]
fn a_plain_file_is_told_from_others(rt: HostRuntime) -> Result<(), Fail> {
    fs::write(&rt, "plain", b"\x00".as_slice())?;
    for (path, is_file) in [
        ("plain", true),
        (".", false),
        ("/dev/null", false),
        ("missing", false),
    ] {
        assert_same(&rt, path, InputFiles::is_file(&rt, path), is_file);
    }
    Ok(())
}

#[test]
fn no_paths_give_no_sources(rt: HostRuntime) -> Result<(), Fail> {
    let mut count = None;
    if let Ok(sources) = open_paths(rt, rt.alloc(), rt, &[], UNBOUNDED) {
        count = Some(sources.len());
    }
    assert_same(&rt, "no paths give no sources", count, Some(0));
    Ok(())
}
