//! The next bytes of a plain file are waited for, for a moment.

use crate::asserts::assert_same;
use crate::fixtures::{Event, Held, UNBOUNDED, pattern_of};
use item_io::Source;
use read_ahead::{Contents, Input, open_all};
use std::sync::{Arc, Wait};
use std::test::Fail;
use std::time::{Clock, Duration, Instant};

/// An input that is silent until something comes.
struct Waiting<R: Wait> {
    held: Held<R>,
    is_file: bool,
}

impl<R: Wait + Drop> Drop for Waiting<R> {
    fn drop(self) {
        let Waiting {
            held: _,
            is_file: _,
        } = self;
    }
}

impl<R: Wait> Contents for Waiting<R> {
    ghost use Rattle.std.specs.Prelude.{None};

    ghost holds = { λ _. None };
}

impl<R: Wait + Drop> Input for Waiting<R> {
    type Reader = Held<R>;

    fn may_wait(&self) -> bool {
        false
    }

    fn is_file(&self) -> bool {
        self.is_file
    }

    fn open(self) -> Option<Held<R>> {
        let Waiting { held, is_file: _ } = self;
        Some(held)
    }
}

/// Whether a source is ready, and whether it took at least two milliseconds to say so.
fn told_of<R: Clock, S: Source>(rt: &R, source: &mut S) -> (bool, bool) {
    let begun = Instant::now(rt);
    let is_ready = source.is_ready();
    let Ok(begun) = begun else {
        return (is_ready, true);
    };
    let taken = begun.elapsed(rt).unwrap_or(Duration::from_millis(2));
    (is_ready, taken >= Duration::from_millis(2))
}

#[test]
fn a_silent_plain_file_is_given_a_moment(rt: HostRuntime) -> Result<(), Fail> {
    for is_file in [false, true] {
        let (until, ended) = (Event::new(rt.alloc())?, Event::new(rt.alloc())?);
        let mut inputs = Vec::new(rt.alloc());
        inputs.push(Waiting {
            held: Held {
                rt,
                reader: pattern_of(9, 9),
                until: Some(Arc::try_clone(&until)?),
                ended,
            },
            is_file,
        })?;
        let mut told = None;
        if let Ok(mut sources) = open_all(rt, rt.alloc(), inputs, UNBOUNDED)
            && let Some(mut source) = sources.pop()
        {
            let (is_ready, is_late) = told_of(&rt, &mut source);
            told = Some((is_ready, is_late || !is_file));
        }
        until.bring(&rt);
        assert_same(&rt, ("a plain file", is_file), told, Some((false, true)));
    }
    Ok(())
}
