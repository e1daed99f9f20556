ghost use Rattle.std.specs.Prelude.{◌≡◌, ◌⊎◌, ◌∷◌, [], length, IfOk, IfErr, OnOk};
ghost use Rattle.ladder_items.specs.declared.fault.PackFault.TheVariants.{Settings as SettingsFault, NoMemory};
ghost use Rattle.ladder_items.specs.Ladder.{IsAllowed};
ghost use Rattle.packing.specs.StreamPacking.{WritesPacked, PackingSays, NoneFailed, CountsSay};

use item_io::{LineOutlet, ReaderSource, lines_of_given_items_are_written};
use pipeline::{PackFault, Settings, pack_serial};
use std::alloc::Global;
use std::io::{Read, Write};

/// A reader and a writer behind a run, with how often they were used, and how the run ended.
#[derive(Drop)]
pub struct Packed<R, W> {
    pub source: ReaderSource<R>,
    pub outlet: LineOutlet<W>,
    pub answer: Result<(), PackFault>,
}

/// The one source of a run; it comes back where there is no memory for the list.
fn alone<S: Drop>(alloc: Global, source: S) -> Result<Vec<S>, S>
    ensures ok { IfOk result (λ sources. sources.items ≡ source ∷ []) }
    ensures err { IfErr result (λ back. back ≡ source) }
{
    let mut sources = Vec::new(alloc);
    match sources.push(source) {
        Ok(()) => Ok(sources),
        Err(refused) => Err(refused.value),
    }
}

/// Packs the stream of the one source into lines.
fn pack<R: Read, W: Write>(
    alloc: Global,
    sources: &mut Vec<ReaderSource<R>>,
    settings: &Settings,
    outlet: &mut LineOutlet<W>,
) -> Result<(), PackFault>
    requires alone { (source : _) × (sources.old.items ≡ source ∷ []) × (source.reads ≡ 0) × (source.failures ≡ 0) }
    requires fresh { outlet.old.failures ≡ 0 }
    ensures count { length sources.new.items ≡ 1 }
    ensures ok { OnOk result ((a b : _) → sources.old.items ≡ a ∷ [] → sources.new.items ≡ b ∷ [] →
        WritesPacked settings.now (R.remaining a.reader) (R.remaining b.reader) (W.contents outlet.old.writer) (W.contents outlet.new.writer)) }
    ensures ok_counts { OnOk result ((b : _) → sources.new.items ≡ b ∷ [] → NoneFailed b.failures outlet.new.failures) }
    ensures allowed { OnOk result (IsAllowed settings.now × (length settings.now.renditions ≡ 1)) }
    ensures fault { IfErr result (λ fault. (a b : _) → sources.old.items ≡ a ∷ [] → sources.new.items ≡ b ∷ [] →
        PackingSays settings.now (R.remaining a.reader) (R.remaining b.reader) (W.contents outlet.old.writer) (W.contents outlet.new.writer) fault) }
    ensures fault_counts { IfErr result (λ fault. (b : _) → sources.new.items ≡ b ∷ [] → CountsSay b.reads b.failures outlet.new.failures fault) }
    ensures breach { IfErr result (λ fault. ((IsAllowed settings.now × (length settings.now.renditions ≡ 1)) → ⊥) → fault ≡ SettingsFault) }
{
    lines_of_given_items_are_written();
    match pack_serial(alloc, sources, settings, outlet) {
        Err(fault) => return Err(fault),
        Ok(_) => {}
    }
    Ok(())
}

/// The command `one`: packs the stream that it reads into segments and playlists, and writes them as lines, one item
/// behind another.
///
/// Before Settings nothing is read or written. After a fault of the stream the writer has the lines of all that comes
/// before it; after NoMemory those of a prefix and nothing else, after Outlet a prefix of the next item's lines
/// besides.
pub fn one<R: Read + Drop, W: Write>(
    alloc: Global,
    settings: &Settings,
    input: R,
    output: W,
) -> Packed<R, W>
    ensures ok { OnOk result.answer (WritesPacked settings.now (R.remaining input) (R.remaining result.source.reader) (W.contents output)
        (W.contents result.outlet.writer)) }
    ensures ok_counts { OnOk result.answer (NoneFailed result.source.failures result.outlet.failures) }
    ensures allowed { OnOk result.answer (IsAllowed settings.now × (length settings.now.renditions ≡ 1)) }
    ensures fault { IfErr result.answer (PackingSays settings.now (R.remaining input) (R.remaining result.source.reader) (W.contents output)
        (W.contents result.outlet.writer)) }
    ensures fault_counts { IfErr result.answer (CountsSay result.source.reads result.source.failures result.outlet.failures) }
    ensures breach { IfErr result.answer (λ fault. ((IsAllowed settings.now × (length settings.now.renditions ≡ 1)) → ⊥) →
        (fault ≡ SettingsFault) ⊎ ((fault ≡ NoMemory) × (result.source.reads ≡ 0))) }
{
    let mut outlet = LineOutlet::new(alloc, output);
    let mut sources = match alone(alloc, ReaderSource::new(input)) {
        Ok(sources) => sources,
        Err(source) => {
            return Packed {
                source,
                outlet,
                answer: Err(PackFault::NoMemory),
            };
        }
    };
    let answer = pack(alloc, &mut sources, settings, &mut outlet);
    let Some(source) = sources.pop() else {
        unreachable!()
    };
    Packed {
        source,
        outlet,
        answer,
    }
}
