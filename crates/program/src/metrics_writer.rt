//! Writes the metrics of a run to a file.
ghost use Rattle.std.specs.Prelude.{◌≡◌, ◌<◌, IfOk, IfSome, IsErr, IsSome, List, None, OnErr, length, map, replicate};
ghost use Rattle.std.specs.String.{string_bytes};
ghost use Rattle.metrics.specs.Seens.{unseen};
ghost use Rattle.program.specs.Asked.{input_sample};
ghost use Rattle.program.specs.Metered.{AreSamplesOf, IsFileOf, IsMetered, IsSeenOn, IsTextOf, StaysWriter};

use crate::bulletin::Bulletin;
use crate::fault_names::faults_of;
use crate::file_answers::Put;
use crate::metrics_file::replace;
use crate::run_clock::{since, since_1970};
use crate::told::Tellings;
use crate::told_unwritten::{ToldUnwritten, tell_unwritten};
use metrics::{
    Glance, InputSample, Known, RunSample, Sighting, metrics_text, samples, seen_again, waiting,
};
use pipeline::{PackFault, Rendition};
use read_ahead::{InputState, InputsView};
use std::alloc::{AllocError, Global};
use std::fs::Files;
use std::io::Eprint;
use std::sync::{Arc, Wait};
use std::time::{Clock, Instant};

/// What is written of a run, and where to.
#[derive(Drop)]
pub struct Writer {
    path: String,
    names: Vec<String>,
    /// Microseconds from 1970 to the run's beginning.
    start: u128,
    /// When it began; none where there is no clock.
    begun: Option<Instant>,
    seen: Vec<Sighting>,
    /// The inputs; none where the ladder has none.
    inputs: Option<InputsView>,
    told: Arc<Tellings>,
    /// Told once, where the metrics couldn't be written.
    unwritten: Option<ToldUnwritten>,
}

/// What is known of a run at one moment, besides what its board shows: what it told, how its inputs stand, the fault that ended it,
/// if one did, and the time, in microseconds.
#[derive(Drop)]
struct RunMoment<'a> {
    told: &'a Bulletin,
    inputs: &'a [InputSample],
    last: Option<PackFault>,
    time: u128,
}

impl Writer {
    /// Of a run that begins now.
    pub fn new<R: Clock>(
        rt: &R,
        alloc: Global,
        renditions: &[Rendition],
        path: &str,
        inputs: Option<InputsView>,
        told: Arc<Tellings>,
    ) -> Result<Writer, AllocError>
        ensures names { IfOk result (λ writer. map string_bytes writer.names.items ≡ map (λ r. r.name) renditions.now) }
        ensures seen { IfOk result (λ writer. writer.seen.items ≡ replicate (length renditions.now) unseen) }
        ensures path { IfOk result (λ writer. string_bytes writer.path ≡ path.now) }
        ensures views { IfOk result (λ writer. (writer.inputs ≡ inputs) × (writer.told ≡ told)) }
        ensures untold { IfOk result (λ writer. writer.unwritten ≡ None) }
    {
        let path = String::from_str(alloc, path)?;
        let names = names_of(alloc, renditions)?;
        let seen = none_seen(alloc, renditions.len())?;
        Ok(Writer {
            path,
            names,
            start: since_1970(rt),
            begun: Instant::now(rt).ok(),
            seen,
            inputs,
            told,
            unwritten: None,
        })
    }

    /// Writes what was seen of a run, and the fault that it ended by. None where it couldn't, which was told.
    pub fn write<R: Files + Clock + Eprint + Wait>(
        &mut self,
        rt: &R,
        alloc: Global,
        glance: &Glance,
        fault: Option<PackFault>,
    ) -> Option<Put>
        // It stays the writer of this run.
        ensures kept { StaysWriter self.old self.new }

        // What was told once stays told.
        ensures told { IsSome self.old.unwritten → IsSome self.new.unwritten }

        // What was seen stands, or is seen again with what a board shows.
        ensures seen { IsSeenOn self.old.seen.items glance.now.counts.items self.new.seen.items }

        // Its file holds what was seen now and that fault, or it was told that the metrics can't be written.
        ensures put { IfSome result (IsFileOf self.old self.new glance.now fault) }
        ensures untold { result ≡ None → IsSome self.new.unwritten }
    {
        let put = self.put(rt, alloc, glance, fault);
        if put.is_none() {
            self.tell_once(rt);
        }
        put
    }

    /// Replaces the file by one of what was seen now. None where it couldn't.
    fn put<R: Files + Clock + Wait>(
        &mut self,
        rt: &R,
        alloc: Global,
        glance: &Glance,
        fault: Option<PackFault>,
    ) -> Option<Put>
        ensures kept { self.new ≡ record self.old { seen = self.new.seen } }
        ensures seen { IsSeenOn self.old.seen.items glance.now.counts.items self.new.seen.items }
        ensures put { IfSome result (IsFileOf self.old self.new glance.now fault) }
    {
        let Ok(text) = self.text(rt, alloc, glance, fault) else {
            return None;
        };
        replace(rt, alloc, &self.path, text).ok()
    }

    /// The metrics of what was seen now.
    fn text<R: Clock + Wait>(
        &mut self,
        rt: &R,
        alloc: Global,
        glance: &Glance,
        fault: Option<PackFault>,
    ) -> Result<Vec<u8>, AllocError>
        ensures ok { IfOk result (λ text. IsTextOf self.old self.new glance.now fault text.items) }
        ensures kept { self.new ≡ record self.old { seen = self.new.seen } }
        ensures seen { IsSeenOn self.old.seen.items glance.now.counts.items self.new.seen.items }
    {
        let now = since(rt, self.begun);
        self.seen = seen_again(alloc, &self.seen, &glance.counts, now)?;
        let text = self.text_at(rt, alloc, glance, fault, now)?;
        Ok(text)
    }

    /// The metrics at a time of the run, in microseconds.
    fn text_at<R: Clock + Wait>(
        &self,
        rt: &R,
        alloc: Global,
        glance: &Glance,
        fault: Option<PackFault>,
        now: u128,
    ) -> Result<Vec<u8>, AllocError>
        ensures { IfOk result (λ text. (told : Bulletin) × (inputs : List InputSample) × AreSamplesOf self.now.inputs inputs ×
            IsMetered (map string_bytes self.now.names.items) self.now.start glance.now told self.now.seen.items inputs fault now text.items) }
    {
        let told = self.told.so_far(rt);
        let inputs = self.input_samples(rt, alloc)?;
        let moment = RunMoment {
            told: &told,
            inputs: &inputs,
            last: fault,
            time: now,
        };
        let text = self.text_of(alloc, glance, &moment)?;
        Ok(text)
    }

    /// The metrics of what a board shows, at such a moment.
    fn text_of(
        &self,
        alloc: Global,
        glance: &Glance,
        moment: &RunMoment<'_>,
    ) -> Result<Vec<u8>, AllocError>
        ensures { IfOk result (λ text. IsMetered (map string_bytes self.now.names.items) self.now.start glance.now
            moment.now.told.now self.now.seen.items moment.now.inputs.now moment.now.last moment.now.time text.items) }
    {
        let faults = faults_of(moment.told, moment.last);
        let known = Known {
            seen: &self.seen,
            inputs: moment.inputs,
            faults: &faults,
        };
        let run = RunSample {
            start: self.start,
            waiting: waiting(moment.told.completed, glance),
            removed: moment.told.removed,
        };
        let texts = texts_of(alloc, &self.names)?;
        let all = samples(alloc, &texts, glance, known, moment.time)?;
        let text = metrics_text(alloc, run, &all)?;
        Ok(text)
    }

    /// How the inputs stand.
    fn input_samples<R: Clock + Wait>(
        &self,
        rt: &R,
        alloc: Global,
    ) -> Result<Vec<InputSample>, AllocError>
        // There is one of each input.
        ensures each { IfOk result (λ all. AreSamplesOf self.now.inputs all.items) }
        ensures scarce { OnErr result (IsSome self.now.inputs) }
    {
        match &self.inputs {
            Some(inputs) => samples_of(alloc, &inputs.look(rt, alloc)?),
            None => Ok(Vec::new(alloc)),
        }
    }

    /// Tells that the metrics can't be written, the first time.
    pub fn tell_once<R: Eprint>(&mut self, rt: &R)
        ensures kept { self.new ≡ record self.old { unwritten = self.new.unwritten } }
        ensures told { IsSome self.new.unwritten }
    {
        if self.unwritten.is_none() {
            self.unwritten = Some(tell_unwritten(rt));
        }
    }
}

/// The names of renditions.
fn names_of(alloc: Global, renditions: &[Rendition]) -> Result<Vec<String>, AllocError>
    ensures ok { IfOk result (λ names. map string_bytes names.items ≡ map (λ r. r.name) renditions.now) }
    ensures scarce { OnErr result (0 < length renditions.now) }
{
    let mut names = Vec::new(alloc);
    for rendition in renditions {
        names.push(rendition.name.clone()?)?;
    }
    Ok(names)
}

/// So many renditions, none of which was seen yet.
fn none_seen(alloc: Global, count: usize) -> Result<Vec<Sighting>, AllocError>
    ensures ok { IfOk result (λ seen. seen.items ≡ replicate count unseen) }
    ensures scarce { OnErr result (0 < count) }
{
    let mut seen = Vec::new(alloc);
    for _ in 0..count {
        seen.push(Sighting { count: 0, at: 0 })?;
    }
    Ok(seen)
}

/// Names, as texts that are borrowed.
fn texts_of<'a>(alloc: Global, names: &'a [String]) -> Result<Vec<&'a str>, AllocError>
    ensures ok { IfOk result (λ texts. map (λ t. t.now) texts.items ≡ map string_bytes names.now) }
    ensures scarce { OnErr result (0 < length names.now) }
{
    let mut texts: Vec<&str> = Vec::new(alloc);
    for name in names {
        texts.push(name.as_str())?;
    }
    Ok(texts)
}

/// What metrics tell of inputs that stand so.
fn samples_of(alloc: Global, states: &[InputState]) -> Result<Vec<InputSample>, AllocError>
    ensures all { IfOk result (λ all. all.items ≡ map input_sample states.now) }
    ensures none { IsErr result → 0 < length states.now }
{
    let mut all = Vec::new(alloc);
    for state in states {
        all.push(InputSample {
            ahead: state.bytes as u64,
            silent: state.silent.as_micros(),
        })?;
    }
    Ok(all)
}
