ghost use Rattle.std.specs.Prelude.{◌≡◌, ◌+◌, ◌<◌, ◌≤◌, ◌^◌, IfOk, IfSome};

use crate::asserts::assert_same;
use crate::fixtures::{Event, Held, lent_by, pattern_of, sources_of};
use item_io::{PIECE, Source};
use read_ahead::{Ahead, OpenInput};
use std::alloc::{AllocError, Global};
use std::sync::{Arc, Wait};
use std::test::Fail;
use std::thread::Threads;
use std::time::Clock;

/// A reader of so many bytes, which tells when all of them were read.
fn ended_by<R: Wait + Drop>(
    rt: R,
    ended: &Arc<Event, Global>,
    len: usize,
) -> Result<Held<R>, AllocError> {
    Ok(Held {
        rt,
        reader: pattern_of(len, 50_000),
        until: None,
        ended: Arc::try_clone(ended)?,
    })
}

/// The sources of two inputs of so many bytes, once all of both lies ready.
fn ready<R: Threads + Wait + Clock + Copy + Send + Sync + Drop + 'static>(
    rt: R,
    alloc: Global,
    lens: [usize; 2],
) -> Result<Option<(Ahead<R, OpenInput<Held<R>>>, Ahead<R, OpenInput<Held<R>>>)>, AllocError>
    ensures { IfOk result (λ some. IfSome some (λ two. (two.0.reads ≡ 0) × (two.0.failures ≡ 0) × (two.1.reads ≡ 0) × (two.1.failures ≡ 0))) }
{
    let (ended, other) = (Event::new(alloc)?, Event::new(alloc)?);
    let (first, second) = (
        ended_by(rt, &ended, lens[0])?,
        ended_by(rt, &other, lens[1])?,
    );
    let two = sources_of(rt, alloc, first, second)?;
    if two.is_some() {
        ended.wait(&rt);
        other.wait(&rt);
    }
    Ok(two)
}

/// How many bytes a source gives at a read.
fn given_by<S: Source>(source: &mut S, buffer: &mut [u8]) -> usize
    requires reads { S.input.reads source.old < 2 ^ 63 }
    requires failures { S.input.failures source.old < 2 ^ 63 }
    ensures reads { S.input.reads source.new ≤ S.input.reads source.old + 1 }
    ensures failures { S.input.failures source.new ≤ S.input.failures source.old + 1 }
{
    source.read(buffer).unwrap_or(0)
}

/// How many bytes a source gives at its first two reads.
fn two_reads<S: Source>(source: &mut S, buffer: &mut [u8]) -> (usize, usize)
    requires reads { S.input.reads source.old ≡ 0 }
    requires failures { S.input.failures source.old ≡ 0 }
{
    let first = given_by(source, buffer);
    (first, given_by(source, buffer))
}

/// How many bytes each of two sources gives that are read in turn: at its first read, and in so many turns.
fn given_in_turns<S: Source>(
    first: &mut S,
    second: &mut S,
    buffer: &mut [u8],
    turns: u32,
) -> ([usize; 2], [usize; 2])
    requires first { (S.input.reads first.old ≡ 0) × (S.input.failures first.old ≡ 0) }
    requires second { (S.input.reads second.old ≡ 0) × (S.input.failures second.old ≡ 0) }
{
    let mut begun = [0, 0];
    let mut all = [0usize, 0];
    for turn in 0..turns {
        let given = [given_by(first, buffer), given_by(second, buffer)];
        if turn == 0 {
            begun = given;
        }
        all = [
            all[0].saturating_add(given[0]),
            all[1].saturating_add(given[1]),
        ];
    }
    (begun, all)
}

/// How many bytes of two inputs lie ready, how many each gives at its first read, and in how many turns they are given.
const BACKLOGS: [([usize; 2], [usize; 2], u32); 7] = [
    ([10, 20], [10, 20], 1),
    ([18_800, 188], [18_800, 188], 1),
    ([18_801, 100], [9588, 100], 2),
    ([1_880_000, 18_800], [18_800, 376], 100),
    ([18_800, 1_880_000], [188, 18_800], 100),
    ([1_880_000, 0], [18_800, 0], 100),
    ([0, 60], [0, 60], 1),
];

#[test]
fn backlogs_shrink_together(rt: HostRuntime) -> Result<(), Fail> {
    let mut buffer = vec![in rt.alloc(); 0; PIECE]?;
    for (lens, first, turns) in BACKLOGS {
        let mut given = ([0, 0], [0, 0]);
        if let Some((mut one, mut other)) = ready(rt, rt.alloc(), lens)? {
            given = given_in_turns(&mut one, &mut other, &mut buffer, turns);
        }
        assert_same(&rt, (lens, turns), given, (first, lens));
    }
    Ok(())
}

#[test]
fn one_that_is_read_no_more_holds_up_none(rt: HostRuntime) -> Result<(), Fail> {
    let mut buffer = vec![in rt.alloc(); 0; PIECE]?;
    for (is_left, share, next) in [(false, 188, 188), (true, 1000, 0)] {
        let mut told = None;
        if let Some((mut one, mut other)) = ready(rt, rt.alloc(), [1000, 1_880_000])? {
            if is_left {
                other.leave();
            }
            let (count, more) = two_reads(&mut one, &mut buffer);
            told = Some((count, more, other.is_ready()));
        }
        assert_same(&rt, ("left", is_left), told, Some((share, next, !is_left)));
    }
    Ok(())
}

/// The pieces that a source gives of an input that lies ready: how many bytes it lends at once, and how many of them are wrong.
const PIECES: [(usize, [(usize, usize); 3]); 5] = [
    (10, [(10, 0), (0, 0), (0, 0)]),
    (18_800, [(18_800, 0), (0, 0), (0, 0)]),
    (18_801, [(9588, 0), (9213, 0), (0, 0)]),
    (51_000, [(17_108, 0), (17_108, 0), (16_784, 0)]),
    (56_400, [(18_800, 0), (18_800, 0), (18_800, 0)]),
];

/// The first three pieces that a source lends.
fn pieces_of<S: Source>(source: &mut S, buffer: &mut [u8]) -> [(usize, usize); 3]
    requires reads { S.input.reads source.old ≡ 0 }
    requires failures { S.input.failures source.old ≡ 0 }
{
    let first = lent_by(source, buffer, 0).unwrap_or((0, 1));
    let second = lent_by(source, buffer, first.0).unwrap_or((0, 1));
    let at = first.0.saturating_add(second.0);
    let third = lent_by(source, buffer, at).unwrap_or((0, 1));
    [first, second, third]
}

#[test]
fn pieces_are_lent_as_they_are_read(rt: HostRuntime) -> Result<(), Fail> {
    let mut buffer = vec![in rt.alloc(); 0; PIECE]?;
    for (len, want) in PIECES {
        let mut given = [(0, 0); 3];
        if let Some((mut one, _other)) = ready(rt, rt.alloc(), [len, 0])? {
            given = pieces_of(&mut one, &mut buffer);
        }
        assert_same(&rt, ("lent", len), given, want);
    }
    Ok(())
}
