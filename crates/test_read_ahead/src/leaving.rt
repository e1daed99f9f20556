use crate::asserts::assert_same;
use crate::fixtures::{Event, Given, Held, UNBOUNDED, drain, pattern_of, source_of, sources_of};
use item_io::Source;
use read_ahead::{OpenInput, open_all};
use std::alloc::Global;
use std::sync::{Arc, Wait};
use std::test::Fail;

/// What a reader of so many bytes gives.
const WHOLE: Given = Given {
    count: 40 << 20,
    wrong: 0,
    failed: false,
};

/// A reader of more than what is read ahead at the most, which tells when all of it was read.
fn long<R: Wait + Drop>(rt: R, ended: &Arc<Event, Global>) -> Result<Held<R>, Fail> {
    Ok(Held {
        rt,
        reader: pattern_of(40 << 20, 65_536),
        until: None,
        ended: Arc::try_clone(ended)?,
    })
}

#[test]
fn what_was_left_is_read_to_its_end(rt: HostRuntime) -> Result<(), Fail> {
    let ended = Event::new(rt.alloc())?;
    let mut buffer = [0; 100];
    let mut counts = Vec::new(rt.alloc());
    if let Some(mut source) = source_of(rt, rt.alloc(), long(rt, &ended)?)? {
        counts.push(source.read(&mut buffer).ok())?;
        source.leave();
        ended.wait(&rt);
    }
    assert_same(
        &rt,
        "what was left is read to its end",
        counts.as_slice(),
        [Some(100)].as_slice(),
    );
    Ok(())
}

#[test]
fn nothing_lies_ready_of_what_was_left(rt: HostRuntime) -> Result<(), Fail> {
    let ended = Event::new(rt.alloc())?;
    let mut bytes = None;
    if let Some(mut source) = source_of(rt, rt.alloc(), long(rt, &ended)?)? {
        let view = source.view()?;
        let _ = source.read(&mut [0; 100]);
        source.leave();
        ended.wait(&rt);
        let states = view.look(&rt, rt.alloc())?;
        bytes = states.first().map(|state| state.bytes);
    }
    assert_same(&rt, "nothing lies ready of what was left", bytes, Some(0));
    Ok(())
}

#[test]
fn what_was_dropped_is_read_to_its_end(rt: HostRuntime) -> Result<(), Fail> {
    let ended = Event::new(rt.alloc())?;
    if let Some(source) = source_of(rt, rt.alloc(), long(rt, &ended)?)? {
        drop(source);
        ended.wait(&rt);
    }
    Ok(())
}

#[test]
fn one_that_was_left_unread_is_read_to_its_end(rt: HostRuntime) -> Result<(), Fail> {
    let ended = Event::new(rt.alloc())?;
    let others = Event::new(rt.alloc())?;
    let (first, second) = (long(rt, &ended)?, long(rt, &others)?);
    if let Some((mut first, mut second)) = sources_of(rt, rt.alloc(), first, second)? {
        first.leave();
        let given = drain(rt.alloc(), &mut second, 18_800)?;
        assert_same(&rt, "the other", given, WHOLE);
        ended.wait(&rt);
        let is_ready = first.is_ready();
        let fails = first.read(&mut [0; 100]).is_err();
        assert_same(
            &rt,
            "ready, and fails, where it was left",
            (is_ready, fails),
            (false, true),
        );
    }
    Ok(())
}

#[test]
fn one_that_waits_unread_holds_up_no_other(rt: HostRuntime) -> Result<(), Fail> {
    let ended = Event::new(rt.alloc())?;
    let others = Event::new(rt.alloc())?;
    let (first, second) = (long(rt, &ended)?, long(rt, &others)?);
    if let Some((mut first, mut second)) = sources_of(rt, rt.alloc(), first, second)? {
        let given = drain(rt.alloc(), &mut second, 18_800)?;
        assert_same(&rt, "the other", given, WHOLE);
        let given = drain(rt.alloc(), &mut first, 18_800)?;
        assert_same(&rt, "the one that waited", given, WHOLE);
    }
    Ok(())
}

#[test]
fn a_silent_input_holds_up_no_other(rt: HostRuntime) -> Result<(), Fail> {
    let ended = Event::new(rt.alloc())?;
    let until = Event::new(rt.alloc())?;
    let silent = Held {
        rt,
        reader: pattern_of(5, 5),
        until: Some(Arc::try_clone(&until)?),
        ended: Arc::try_clone(&ended)?,
    };
    let other = Held {
        rt,
        reader: pattern_of(9, 9),
        until: None,
        ended: Arc::try_clone(&ended)?,
    };
    if let Some((mut first, mut second)) = sources_of(rt, rt.alloc(), silent, other)? {
        let count = second.read(&mut [0; 100]).ok();
        assert_same(
            &rt,
            "while it is silent",
            (count, first.is_ready()),
            (Some(9), false),
        );
        until.bring(&rt);
        let given = drain(rt.alloc(), &mut first, 100)?;
        let want = Given {
            count: 5,
            wrong: 0,
            failed: false,
        };
        assert_same(
            &rt,
            "the silent one",
            (given, first.is_ready()),
            (want, true),
        );
    }
    Ok(())
}

#[test]
fn waiting_ends_where_one_is_ready(rt: HostRuntime) -> Result<(), Fail> {
    let ended = Event::new(rt.alloc())?;
    let until = Event::new(rt.alloc())?;
    let silent = Held {
        rt,
        reader: pattern_of(5, 5),
        until: Some(Arc::try_clone(&until)?),
        ended: Arc::try_clone(&ended)?,
    };
    let other = Held {
        rt,
        reader: pattern_of(9, 9),
        until: None,
        ended: Arc::try_clone(&ended)?,
    };
    let mut inputs = Vec::new(rt.alloc());
    inputs.push(OpenInput { reader: silent })?;
    inputs.push(OpenInput { reader: other })?;
    let mut ready = Vec::new(rt.alloc());
    if let Ok(mut sources) = open_all(rt, rt.alloc(), inputs, UNBOUNDED) {
        Source::wait_any(&mut sources);
        for source in sources.iter_mut() {
            ready.push(source.is_ready())?;
        }
        if let Some(source) = sources.last_mut() {
            source.leave();
        }
        until.bring(&rt);
        Source::wait_any(&mut sources);
        for source in sources.iter_mut() {
            ready.push(source.is_ready())?;
        }
    }
    assert_same(
        &rt,
        "waiting ends where one is ready",
        ready.as_slice(),
        [false, true, true, false].as_slice(),
    );
    Ok(())
}
