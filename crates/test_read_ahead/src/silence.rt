ghost use Rattle.std.specs.Prelude.{◌≡◌};

use crate::asserts::assert_same;
use crate::fixtures::{Event, Given, Pattern, UNBOUNDED, drain, pattern_of, pop_unread};
use item_io::Source;
use read_ahead::{Contents, Input, InputFault, Limits, OpenInput, open_all};
use std::alloc::Global;
use std::io::Read;
use std::sync::{Arc, Wait};
use std::test::Fail;
use std::time::{Clock, Duration};
use std::{io, thread};

/// Where an input is silent.
#[derive(Clone, Copy, Debug, PartialEq, Eq)]
enum Silence {
    Nowhere,
    AtOpening,
    BeforeByte(usize),
}

/// An input that is silent until something comes.
struct Silent<R: Wait> {
    rt: R,
    reader: Pattern,
    silence: Silence,
    until: Arc<Event, Global>,
    opens: bool,
}

impl<R: Wait + Drop> Drop for Silent<R> {
    fn drop(self) {
        let Silent {
            rt: _,
            reader: _,
            silence: _,
            until: _,
            opens: _,
        } = self;
    }
}

impl<R: Wait> Contents for Silent<R> {
    ghost use Rattle.std.specs.Prelude.{None};

    ghost holds = { λ _. None };
}

impl<R: Wait + Drop> Input for Silent<R> {
    type Reader = Silent<R>;

    fn may_wait(&self) -> bool {
        true
    }

    fn is_file(&self) -> bool {
        false
    }

    fn open(self) -> Option<Silent<R>> {
        if self.silence == Silence::AtOpening {
            self.until.wait(&self.rt);
        }
        if self.opens { Some(self) } else { None }
    }
}

impl<R: Wait> Read for Silent<R> {
    fn read(&mut self, buf: &mut [u8]) -> io::Result<usize> {
        if self.silence == Silence::BeforeByte(self.reader.at) {
            self.until.wait(&self.rt);
        }
        self.reader.read(buf)
    }
}

/// How long an input of these tests may be silent: longer than a busy machine takes to start its thread.
fn briefly() -> Limits {
    Limits {
        stall: Some(Duration::from_millis(1000)),
        ahead: None,
    }
}

const SILENCES: [(Silence, usize); 3] = [
    (Silence::AtOpening, 0),
    (Silence::BeforeByte(0), 0),
    (Silence::BeforeByte(6), 6),
];

#[test]
fn a_silent_input_fails_and_the_other_goes_on(rt: HostRuntime) -> Result<(), Fail> {
    for (silence, count) in SILENCES {
        let until = Event::new(rt.alloc())?;
        let mut inputs = Vec::new(rt.alloc());
        for silence in [silence, Silence::Nowhere] {
            inputs.push(Silent {
                rt,
                reader: pattern_of(9, 3),
                silence,
                until: Arc::try_clone(&until)?,
                opens: true,
            })?;
        }
        let mut given = Vec::new(rt.alloc());
        if let Ok(sources) = open_all(rt, rt.alloc(), inputs, briefly()) {
            for source in sources {
                let mut source = source;
                given.push(drain(rt.alloc(), &mut source, 100)?)?;
            }
        }
        until.bring(&rt);
        let want = [(count, 0, true), (9, 0, false)];
        for (given, want) in given.iter().zip(&want) {
            let Given {
                count,
                wrong,
                failed,
            } = *given;
            assert_same(&rt, silence, (count, wrong, failed), *want);
        }
        assert_same(&rt, (silence, "inputs"), given.len(), 2);
    }
    Ok(())
}

/// Whether a source that is silent is ready, fails, fails once more when something came, and isn't ready when it's left.
fn told_of<R: Wait + Clock, S: Source>(rt: &R, source: &mut S, until: &Event) -> [bool; 4]
    requires reads { S.input.reads source.old ≡ 0 }
    requires failures { S.input.failures source.old ≡ 0 }
{
    thread::sleep(rt, Duration::from_millis(1100));
    let is_ready = source.is_ready();
    let fails = source.read(&mut [0; 100]).is_err();
    until.bring(rt);
    thread::sleep(rt, Duration::from_millis(20));
    let fails_again = source.read(&mut [0; 100]).is_err();
    source.leave();
    [is_ready, fails, fails_again, !source.is_ready()]
}

#[test]
fn a_silent_input_is_ready_and_fails_for_good(rt: HostRuntime) -> Result<(), Fail> {
    for silence in [Silence::AtOpening, Silence::BeforeByte(0)] {
        let until = Event::new(rt.alloc())?;
        let mut inputs = Vec::new(rt.alloc());
        inputs.push(Silent {
            rt,
            reader: pattern_of(9, 9),
            silence,
            until: Arc::try_clone(&until)?,
            opens: true,
        })?;
        let mut told = [false; 4];
        if let Ok(mut sources) = open_all(rt, rt.alloc(), inputs, briefly())
            && let Some(mut source) = pop_unread(&mut sources)
        {
            told = told_of(&rt, &mut source, &until);
        }
        assert_same(&rt, silence, told, [true; 4]);
    }
    Ok(())
}

/// A reader that pauses before each read.
struct Slow<R: Clock> {
    rt: R,
    reader: Pattern,
    pause: Duration,
}

impl<R: Clock + Drop> Drop for Slow<R> {
    fn drop(self) {
        let Slow {
            rt: _,
            reader: _,
            pause: _,
        } = self;
    }
}

impl<R: Clock> Read for Slow<R> {
    fn read(&mut self, buf: &mut [u8]) -> io::Result<usize> {
        thread::sleep(&self.rt, self.pause);
        self.reader.read(buf)
    }
}

#[test]
fn silence_counts_from_the_last_bytes(rt: HostRuntime) -> Result<(), Fail> {
    let mut inputs = Vec::new(rt.alloc());
    inputs.push(OpenInput {
        reader: Slow {
            rt,
            reader: pattern_of(30, 1),
            pause: Duration::from_millis(50),
        },
    })?;
    let limits = Limits {
        stall: Some(Duration::from_millis(1000)),
        ahead: None,
    };
    let mut given = None;
    if let Ok(mut sources) = open_all(rt, rt.alloc(), inputs, limits)
        && let Some(mut source) = sources.pop()
    {
        given = Some(drain(rt.alloc(), &mut source, 100)?);
    }
    let want = Given {
        count: 30,
        wrong: 0,
        failed: false,
    };
    assert_same(&rt, "silence counts from the last bytes", given, Some(want));
    Ok(())
}

#[test]
fn one_that_waits_for_a_writer_holds_up_no_other(rt: HostRuntime) -> Result<(), Fail> {
    let until = Event::new(rt.alloc())?;
    let mut inputs = Vec::new(rt.alloc());
    for silence in [Silence::AtOpening, Silence::Nowhere] {
        inputs.push(Silent {
            rt,
            reader: pattern_of(9, 9),
            silence,
            until: Arc::try_clone(&until)?,
            opens: true,
        })?;
    }
    let mut counts = Vec::new(rt.alloc());
    if let Ok(sources) = open_all(rt, rt.alloc(), inputs, UNBOUNDED) {
        let mut sources = sources;
        if let Some(mut last) = sources.pop()
            && let Some(mut first) = sources.pop()
        {
            counts.push(drain(rt.alloc(), &mut last, 100)?.count)?;
            assert_same(&rt, "ready while it waits", first.is_ready(), false);
            until.bring(&rt);
            counts.push(drain(rt.alloc(), &mut first, 100)?.count)?;
        }
    }
    assert_same(
        &rt,
        "one that waits for a writer holds up no other",
        counts.as_slice(),
        [9, 9].as_slice(),
    );
    Ok(())
}

#[test]
fn what_is_refused_in_the_first_moment_is_not_begun(rt: HostRuntime) -> Result<(), Fail> {
    for silence in [Silence::Nowhere, Silence::AtOpening] {
        let until = Event::new(rt.alloc())?;
        let mut inputs = Vec::new(rt.alloc());
        for opens in [true, false] {
            inputs.push(Silent {
                rt,
                reader: pattern_of(9, 9),
                silence: if opens { silence } else { Silence::Nowhere },
                until: Arc::try_clone(&until)?,
                opens,
            })?;
        }
        let opened = open_all(rt, rt.alloc(), inputs, UNBOUNDED);
        until.bring(&rt);
        assert_same(&rt, silence, opened.err(), Some(InputFault::Unread));
    }
    Ok(())
}
