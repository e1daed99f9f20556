//! Which segments of a rendition are taken away.
ghost use Rattle.std.specs.Prelude.{◌≡◌, ◌+◌, ◌<◌, ◌≤◌, ◌^◌, ◌⊎◌, ◌++◌, ◌∷◌, [], length, Any, Decides, IfOk, IsErrOf, MatchResult, OnErr, OnOk};
ghost use Rattle.std.specs.String.{string_bytes};
ghost use Rattle.folder.specs.Pruning.{other_moves};
ghost use Rattle.media_reading.specs.MediaTexts.{WantsMemory};
ghost use Rattle.retention.specs.Steps.{IsKeptFrom};
ghost use Rattle.keeping.specs.Keepings.{ComesNext, GoesOn, IsLeft, IsNoted, IsStepOf, LetsGo, SweepsOn, below, new_keeping, resumed_keeping};
ghost use Rattle.keeping.specs.Keepings.{steps_before};

use crate::note_fault::NoteFault;
use crate::removing::{take_places, take_some};
use folder::{Folder, PruningFolder};
use ghost_list::GhostList;
use item_io::{FolderOutlet, OutletFault};
use media_reading::{ListFault, read_media};
use retention::{Retention, Step};
use std::alloc::{AllocError, Global};
use std::marker::Model;

/// What a rendition goes on behind: the number of the first segment that was listed when the run began, how many microseconds
/// each segment is kept beyond its own duration at least, how many each of those listed lasts, and the numbers of older
/// segments whose files are there still.
#[derive(Drop)]
pub struct Behind<'a> {
    pub base: u64,
    pub least: u64,
    pub earlier: &'a [u64],
    pub older: Vec<u64>,
}

/// A rendition whose segments are taken away once they may go.
///
/// Contracts see it as its name, the number of its first segment, how many of its segments were taken away, from the first
/// one on, and the steps of its retention: one for each segment that was listed when it began, and for each media playlist
/// that it was told. Besides, they see the numbers of older segments, and how many of those were taken away.
#[derive(Drop)]
pub struct Keeping {
    name: String,
    base: u64,
    gone: u64,
    kept: Retention,
    before: GhostList<u64>,
    older: Vec<u64>,
    swept: usize,
}

impl Model for Keeping {
    ghost use Rattle.keeping.specs.Keepings.{KeepingValue};
    ghost use Rattle.keeping.specs.State.{keeping_value, IsTied};

    ghost Value = { KeepingValue };

    ghost view = { keeping_value };

    ghost invariant = { IsTied };
}

impl Keeping {
    /// A rendition of this name of which no segment was listed yet: its first one will have number `base`. Each segment is
    /// kept at least `least` microseconds beyond its own duration, even if every playlist is shorter.
    pub fn new(alloc: Global, name: String, base: u64, least: u64) -> Keeping
        ensures { result ≡ new_keeping (string_bytes name) base least }
    {
        Keeping {
            name,
            base,
            gone: 0,
            kept: Retention::new(alloc, least),
            before: GhostList::new(),
            older: Vec::new(alloc),
            swept: 0,
        }
    }

    /// A rendition that goes on behind an earlier run. Once the first segment that was listed when it began may go, so may the
    /// older ones: those whose numbers are below `base`; others are passed over.
    pub fn behind(alloc: Global, name: String, behind: Behind<'_>) -> Result<Keeping, AllocError>
        ensures told { IfOk result (λ new. new ≡
            resumed_keeping (string_bytes name) behind.entry.base behind.entry.least behind.entry.earlier.now behind.entry.older.items) }

        // Memory can only be wanted for a row, or for an older segment's number.
        ensures scarce { OnErr result ((0 < length behind.entry.earlier.now) ⊎ Any (λ n. n < behind.entry.base) behind.entry.older.items) }
    {
        let older = numbers_below(alloc, behind.base, &behind.older)?;
        let mut before = GhostList::new();
        before.append(behind.earlier);
        Ok(Keeping {
            name,
            base: behind.base,
            gone: 0,
            kept: listed_so_far(alloc, behind.least, behind.earlier)?,
            before,
            older,
            swept: 0,
        })
    }

    /// How many of its segments were taken away, older ones with them.
    pub fn removed(&self) -> u128
        ensures is { result ≡ self.now.gone + self.now.swept }
        ensures small { result < 2 ^ 64 + 2 ^ 64 }
    {
        u128::from(self.gone) + self.swept as u128
    }

    /// Is told the text of the media playlist behind the next segment. One that isn't a media playlist, or doesn't go on from
    /// the one before, is refused; then, and where memory is refused, all is as it was.
    pub fn note(&mut self, alloc: Global, text: &str) -> Result<(), NoteFault>
        ensures ok { OnOk result (IsNoted self.old self.new text.now) }
        ensures err { OnErr result (self.new ≡ self.old) }
        ensures on { OnOk result (GoesOn self.new text.now) }
        ensures next { OnOk result (ComesNext self.old text.now) }
        ensures refused { IsErrOf result NoteFault.Refused → ¬ ComesNext self.old text.now }
        ensures scarce { IsErrOf result NoteFault.NoMemory → WantsMemory text.now ⊎ ComesNext self.old text.now }
    {
        let step = step_of(alloc, self.base, text)?;
        let count = self.kept.count();
        if step.first < self.kept.first_listed() || step.first > count || count >= 1 << 52 {
            return Err(NoteFault::Refused);
        }
        self.kept.push(step.micros, step.first)?;
        Ok(())
    }

    /// Looks at the text of the last media playlist, which lists no new segment. One that isn't a media playlist, or begins
    /// earlier than the one before, is refused.
    pub fn check(&self, alloc: Global, text: &str) -> Result<(), NoteFault>
        ensures on { OnOk result (GoesOn self.now text.now) }
        ensures refused { IsErrOf result NoteFault.Refused → ¬ GoesOn self.now text.now }
        ensures scarce { IsErrOf result NoteFault.NoMemory → WantsMemory text.now }
    {
        let step = step_of(alloc, self.base, text)?;
        if step.first < self.kept.first_listed() {
            return Err(NoteFault::Refused);
        }
        Ok(())
    }

    /// Whether this is its name.
    pub fn has_name(&self, name: &str) -> bool
        ensures { Decides result (name.now ≡ self.now.name) }
    {
        name == self.name.as_str()
    }

    /// Takes those segments away that may go and weren't taken away before, in the order of their numbers: all of them, or
    /// those before one that can't be removed. Once one has gone it takes older ones away, in the order in which they were
    /// given, but no more than 64 at a time.
    pub fn let_go<F: Folder>(
        &mut self,
        alloc: Global,
        files: &mut FolderOutlet<PruningFolder<F>>,
    ) -> Result<(), OutletFault>
        ensures gone { LetsGo self.old self.new (F.made files.old.folder) (F.made files.new.folder) }
        ensures all { OnOk result (IsKeptFrom self.new.kept.least self.new.kept.steps self.new.gone) }
        ensures older { OnOk result (SweepsOn self.old self.new) }

        // A failure leaves one that might have gone.
        ensures left { OnErr result (IsLeft self.old self.new) }
        ensures others { other_moves (F.made files.new.folder) ≡ other_moves (F.made files.old.folder) }
        ensures same { files.new ≡ record files.old { folder = files.new.folder } }
    {
        let until = self.kept.kept_from();
        take_places(files, alloc, &self.name, self.base, &mut self.gone, until)?;
        let some_went = self.gone > 0;
        if some_went {
            take_some(files, alloc, &self.name, &self.older, &mut self.swept)?;
        }
        Ok(())
    }
}

/// Those of some numbers that are below another one.
fn numbers_below(alloc: Global, base: u64, numbers: &[u64]) -> Result<Vec<u64>, AllocError>
    ensures { MatchResult result (λ some. some.items ≡ below base numbers.now) (λ _. Any (λ n. n < base) numbers.now) }
{
    let mut some = Vec::new(alloc);
    for number in numbers {
        if *number < base {
            some.push(*number)?;
        }
    }
    Ok(some)
}

/// The retention of segments that are all listed, of so many microseconds each. More than 2^52 are refused, as want of memory.
fn listed_so_far(alloc: Global, least: u64, micros: &[u64]) -> Result<Retention, AllocError>
    ensures told { IfOk result (λ kept. kept ≡ record { least = least; steps = steps_before micros.now }) }

    // Memory can only be wanted where there is a row.
    ensures scarce { OnErr result (0 < length micros.now) }
{
    can_be_counted(micros.len())?;
    let mut kept = Retention::new(alloc, least);
    for each in micros {
        kept.push(*each, 0)?;
    }
    Ok(kept)
}

/// Whether so many segments can be counted.
fn can_be_counted(count: usize) -> Result<(), AllocError>
    ensures { MatchResult result (λ _. count ≤ 2 ^ 52) (λ _. 2 ^ 52 < count) }
{
    if count as u64 > 1 << 52 {
        return Err(AllocError);
    }
    Ok(())
}

/// The step of a media playlist.
fn step_of(alloc: Global, base: u64, text: &str) -> Result<Step, NoteFault>
    ensures ok { IfOk result (IsStepOf base text.now) }

    // A text has one step; what is refused has none.
    ensures one { IfOk result (λ step. (other : Step) → IsStepOf base text.now other → other ≡ step) }
    ensures refused { IsErrOf result NoteFault.Refused → (step : Step) → ¬ IsStepOf base text.now step }
    ensures scarce { IsErrOf result NoteFault.NoMemory → WantsMemory text.now }
{
    let listing = match read_media(alloc, text) {
        Ok(listing) => listing,
        Err(ListFault::NoMemory) => return Err(NoteFault::NoMemory),
        Err(ListFault::NotProfile(_)) => return Err(NoteFault::Refused),
    };
    let Some(last) = listing.entries.last() else {
        return Err(NoteFault::Refused);
    };
    let Some(first) = listing.sequence.checked_sub(base) else {
        return Err(NoteFault::Refused);
    };
    Ok(Step {
        micros: last.micros,
        first,
    })
}
