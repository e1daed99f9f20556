//! Tests of the flow: all lists of a few events, played on a flow and on the model.

ghost use Rattle.std.specs.Prelude.{◌≡◌};

use crate::asserts::assert_same;
use crate::fixtures::{Things, keys_of, misses};
use crate::model::{Letter, Model, Seen};
use crate::told::{Name, Told, claimed, ended, fed, name, received};
use Letter::{Again, Close, Deliver, Feed, Hold, Mistake, Own, Publish, Refuse, Stop, Stray, Take};
use cutter::PlanRef;
use flow_core::{Claim, Flow, Taken};
use segment_job::{Keys, seal_plan};
use std::alloc::{AllocError, Global};
use std::marker::Brand;
use std::sync::ledger::{Blank, Ledger, Share};
use std::test::Fail;

/// All that two workers and two renditions can be told to do.
const LETTERS: [Letter; 17] = [
    Feed(0),
    Feed(1),
    Again,
    Letter::Claim(0),
    Letter::Claim(1),
    Deliver,
    Mistake,
    Refuse,
    Hold,
    Take,
    Stray,
    Own(0),
    Own(1),
    Close,
    Stop,
    Publish(0),
    Publish(1),
];

/// How many events there are in the longest lists.
const LONGEST: usize = 7;

/// The plan of a name, without a body.
fn plan(things: &Things, name: Name) -> Result<PlanRef<'_>, Fail> {
    for plan in &things.plans {
        if plan.number == name.1 {
            return Ok(PlanRef {
                rendition: name.0,
                body: &[],
                frames: &[],
                ..plan.lend()
            });
        }
    }
    Err(Fail::from("no such plan"))
}

/// A flow with the one share of each of its books, and the claims that stand.
struct Bench<'s, L: Ledger, M: Ledger> {
    flow: Flow<'s, L, M>,
    claimer: Share<L>,
    taker: Share<M>,
    claims: Vec<Claim<'s>>,
    ghost one_claimer: { claimer.parts ≡ 1 },
    ghost one_taker: { taker.parts ≡ 1 },
}

impl<'s, L: Ledger, M: Ledger> Bench<'s, L, M> {
    fn feed_once(&mut self, plan: PlanRef<'s>) -> Result<Told, Fail> {
        if plan.rendition >= self.flow.renditions() || plan.number > 9 {
            return Err(Fail::from("no such rendition"));
        }
        Ok(fed(self.flow.feed(plan)))
    }

    /// Feeds a plan, and once more where there was no memory, which changes nothing.
    fn feed(&mut self, things: &'s Things, plan_name: Option<Name>) -> Result<Told, Fail> {
        let Some(plan_name) = plan_name else {
            return Ok(Told::Nothing);
        };
        let plan = plan(things, plan_name)?;
        let seen = self.seen();
        let told = self.feed_once(plan)?;
        if told != Told::NoMemory(plan_name) {
            return Ok(told);
        }
        if self.seen() != seen {
            return Err(Fail::from("a refused plan changed something"));
        }
        self.feed_once(plan)
    }

    fn claim(&mut self, worker: usize) -> Result<Told, AllocError> {
        let Bench {
            flow,
            claimer,
            claims,
            ..
        } = self;
        claims.reserve(1)?;
        Ok(claimed(flow.claim(worker, claimer), claims))
    }

    /// Delivers a claim, sealed under these keys. It is refused where there is no memory to seal it.
    fn deliver(
        &mut self,
        alloc: Global,
        claim: Claim<'s>,
        keys: &Keys,
    ) -> Result<bool, AllocError> {
        match seal_plan(alloc, claim.plan(), keys) {
            Ok(segment) => Ok(self.flow.deliver(claim, segment)),
            Err(error) => {
                self.flow.refuse(claim);
                Err(error)
            }
        }
    }

    /// Ends the claim that stands the longest.
    fn finish(&mut self, things: &Things, letter: Letter) -> Result<Told, AllocError> {
        if self.claims.is_empty() {
            return Ok(Told::Nothing);
        }
        let claim = self.claims.remove(0);
        let stood = match letter {
            Refuse => self.flow.refuse(claim),
            Hold => self.flow.hold(claim),
            Deliver => self.deliver(things.alloc, claim, &things.right)?,
            _ => self.deliver(things.alloc, claim, &things.wrong)?,
        };
        Ok(ended(stood))
    }

    fn take(&mut self) -> Result<Told, Fail> {
        if self.flow.thrown() > 9 {
            return Err(Fail::from("too many were thrown away"));
        }
        let Bench { flow, taker, .. } = self;
        match flow.take(taker) {
            Some(Taken::Came(collected)) => Ok(Told::Came(collected.ready)),
            Some(Taken::Thrown) => Ok(Told::Thrown),
            None => Ok(Told::Nothing),
        }
    }

    /// Receives the segment of a plan, sealed under these keys.
    fn receive(
        &mut self,
        things: &'s Things,
        plan_name: Option<Name>,
        keys: &Keys,
    ) -> Result<Told, Fail> {
        let Some(plan_name) = plan_name else {
            return Ok(Told::Nothing);
        };
        let plan = plan(things, plan_name)?;
        if self.flow.thrown() > 9 {
            return Err(Fail::from("too many were thrown away"));
        }
        let segment = seal_plan(things.alloc, plan, keys)?;
        Ok(thrown(received(&self.flow.receive(segment))))
    }

    fn publish(&mut self, rendition: usize) -> Told {
        match self.flow.publish(rendition) {
            Some(segment) => Told::Shown(name(segment.plan())),
            None => Told::Nothing,
        }
    }

    fn close(&mut self, stops: bool) -> Told {
        let seen = self.seen();
        if seen.closed && (!stops || !seen.waits) {
            return Told::Nothing;
        }
        if stops {
            self.flow.stop();
        } else {
            self.flow.close();
        }
        Told::Done
    }

    /// What is seen of the flow.
    fn seen(&self) -> Seen {
        let queue = self.flow.queue();
        let collector = self.flow.collector();
        Seen {
            outstanding: queue.outstanding(),
            closed: queue.is_closed(),
            waits: queue.has_waiting(),
            done: queue.has_done(),
            thrown: self.flow.thrown(),
            room: collector.room(),
            next: (
                collector.following(0).unwrap_or(99),
                collector.following(1).unwrap_or(99),
            ),
        }
    }

    /// Does what a letter says, where the model has something to be done.
    fn step(&mut self, things: &'s Things, model: &Model, letter: Letter) -> Result<Told, Fail> {
        match letter {
            Feed(_) | Again => self.feed(things, model.plan(letter)),
            Letter::Claim(worker) => Ok(self.claim(worker)?),
            Deliver | Mistake | Refuse | Hold => Ok(self.finish(things, letter)?),
            Take => self.take(),
            Stray => self.receive(things, Some((0, 0)), &things.wrong),
            Own(rendition) => self.receive(things, model.missing(rendition), &things.right),
            Close | Stop => Ok(self.close(letter == Stop)),
            Publish(rendition) => Ok(self.publish(rendition)),
        }
    }

    /// Whether it misses the plans that the model misses.
    fn misses(&self, model: &Model, alloc: Global) -> Result<bool, AllocError> {
        let names = model.all_missing(alloc)?;
        misses(self.flow.collector(), &names)
    }

    /// Refuses what is claimed still, which can't be dropped.
    fn end(self) {
        let Bench {
            mut flow,
            claimer: _,
            taker: _,
            mut claims,
        } = self;
        while let Some(claim) = claims.pop() {
            flow.refuse(claim);
        }
        claims.destroy_empty();
    }
}

/// What a flow does with a segment that its collector gives back.
fn thrown(told: Told) -> Told {
    match told {
        Told::Stray(_) | Told::Double(_) => Told::Thrown,
        told => told,
    }
}

/// What came of one attempt.
#[derive(Clone, Copy, PartialEq, Eq)]
enum Tried {
    /// Something changed, and the flow is as the model.
    Event,
    /// Nothing changed, and the flow is as the model.
    Refused,
    Differs,
}

/// Does what a letter says on a flow and on the model, and compares them.
fn try_letter<'s, L: Ledger, M: Ledger>(
    things: &'s Things,
    bench: &mut Bench<'s, L, M>,
    model: &mut Model,
    letter: Letter,
) -> Result<Tried, Fail> {
    let told = bench.step(things, model, letter)?;
    if model.step(letter)? != told || model.seen() != bench.seen() {
        return Ok(Tried::Differs);
    }
    if !bench.misses(model, things.alloc)? {
        return Ok(Tried::Differs);
    }
    match told {
        Told::Nothing | Told::Full(_) | Told::Closed(_) | Told::Twice(_) => Ok(Tried::Refused),
        _ => Ok(Tried::Event),
    }
}

/// The next event of a list: the first letter from here on that changes something. The number of letters where none does.
fn next_event<'s, L: Ledger, M: Ledger>(
    things: &'s Things,
    bench: &mut Bench<'s, L, M>,
    model: &mut Model,
    from: usize,
) -> Result<Option<usize>, Fail> {
    for at in from..LETTERS.len() {
        match try_letter(things, bench, model, LETTERS[at])? {
            Tried::Event => return Ok(Some(at)),
            Tried::Refused => {}
            Tried::Differs => return Ok(None),
        }
    }
    Ok(Some(LETTERS.len()))
}

/// Plays the events of a list, and goes on with the first that can follow, up to the longest list. False where the flow
/// isn't as the model.
fn follow<'s, L: Ledger, M: Ledger>(
    things: &'s Things,
    bench: &mut Bench<'s, L, M>,
    model: &mut Model,
    path: &mut Vec<usize>,
) -> Result<bool, Fail> {
    for depth in 0..LONGEST {
        let known = path.get(depth).copied();
        let Some(at) = next_event(things, bench, model, known.unwrap_or(0))? else {
            return Ok(false);
        };
        if known != Some(at) {
            path.truncate(depth);
            path.push(at)?;
        }
        if at == LETTERS.len() {
            return Ok(true);
        }
    }
    Ok(true)
}

/// A flow of so many plans, on which nothing happened.
fn new_bench<'s, L: Ledger, M: Ledger>(
    alloc: Global,
    claims: Blank,
    takes: Blank,
    most: usize,
) -> Result<Bench<'s, L, M>, Fail>
    requires claims { (claims.name ≡ L.name) × (claims.parts ≡ L.parts) × (L.parts ≡ 1) }
    requires takes { (takes.name ≡ M.name) × (takes.parts ≡ M.parts) × (M.parts ≡ 1) }
{
    let keys = keys_of(alloc, 2)?;
    let (claims, claimer) = claims.open::<L>();
    let (takes, taker) = takes.open::<M>();
    Ok(Bench {
        flow: Flow::starting(alloc, keys, Vec::new(alloc), most, claims, takes)?,
        claimer,
        taker,
        claims: Vec::new(alloc),
    })
}

/// Plays a list on a flow and a model of so many plans.
fn play_with<L: Ledger, M: Ledger>(
    claims: Blank,
    takes: Blank,
    things: &Things,
    most: usize,
    path: &mut Vec<usize>,
) -> Result<bool, Fail>
    requires claims { (claims.name ≡ L.name) × (claims.parts ≡ L.parts) × (L.parts ≡ 1) }
    requires takes { (takes.name ≡ M.name) × (takes.parts ≡ M.parts) × (M.parts ≡ 1) }
{
    let mut bench = new_bench::<L, M>(things.alloc, claims, takes, most)?;
    let followed = follow(
        things,
        &mut bench,
        &mut Model::new(things.alloc, most),
        path,
    );
    bench.end();
    followed
}

/// The same, with books of its own.
fn play(things: &Things, most: usize, path: &mut Vec<usize>) -> Result<bool, Fail> {
    play_with::<Brand, Brand>(Blank::new(1), Blank::new(1), things, most, path)
}

/// Goes on to the next list. False where there is none.
fn go_on(path: &mut Vec<usize>) -> Result<bool, AllocError> {
    for _ in 0..=LONGEST {
        let Some(last) = path.pop() else {
            return Ok(false);
        };
        if last < LETTERS.len() {
            path.push(last + 1)?;
            return Ok(true);
        }
    }
    Ok(false)
}

/// How many lists were played, each list once, and whether all flows were as the model.
fn play_all(things: &Things, most: usize) -> Result<(u64, bool), Fail> {
    let mut path = Vec::new(things.alloc);
    for played in 0..1_000_000 {
        let same = play(things, most, &mut path)?;
        if !same || !go_on(&mut path)? {
            return Ok((played, same));
        }
    }
    Ok((1_000_000, false))
}

/// Plays all lists with so many plans outstanding at most.
fn plays(alloc: Global, most: usize) -> Result<(u64, bool), Fail> {
    let things = Things::new(alloc)?;
    play_all(&things, most)
}

#[test]
fn all_lists_in_a_queue_of_one(rt: HostRuntime) -> Result<(), Fail> {
    assert_same(
        &rt,
        "all lists in a queue of one",
        plays(rt.alloc(), 1)?,
        (83_753, true),
    );
    Ok(())
}

#[test]
fn all_lists_in_a_queue_of_two(rt: HostRuntime) -> Result<(), Fail> {
    assert_same(
        &rt,
        "all lists in a queue of two",
        plays(rt.alloc(), 2)?,
        (600_450, true),
    );
    Ok(())
}

#[test]
fn a_plan_from_its_feed_to_its_show(rt: HostRuntime) -> Result<(), Fail> {
    let things = Things::new(rt.alloc())?;
    // fed, claimed, delivered, taken, closed and shown
    let mut path = Vec::from_array(rt.alloc(), [0, 3, 5, 9, 13, 15])?;
    assert_same(
        &rt,
        "a plan from its feed to its show",
        play(&things, 1, &mut path)?,
        true,
    );
    Ok(())
}
