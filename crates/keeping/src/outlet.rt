ghost use Rattle.std.specs.Prelude.{◌≡◌, ℕ, List, ◌++◌, ◌+◌, ◌<◌, ◌^◌, ◌∷◌, [], true, false, length, Decides, IsErrOf, OnErr, OnOk};
ghost use Rattle.folder.specs.Pruning.{other_moves};
ghost use Rattle.item_io.specs.Items.{ItemValue, item_value, segment_with};
ghost use Rattle.item_io.specs.Outlets.{BreaksOff, Grows};
ghost use Rattle.item_io.specs.Views.{outlet_view};
ghost use Rattle.keeping.specs.Clearing.{AreCleared, missed_with};
ghost use Rattle.keeping.specs.Keepings.{AllWent, AreNotedBy, ComesInTurn, GoBehind, HasOwnName, IsLeftBehind, MayBeRefused, MayComeNext, MayWantMemory};
ghost use Rattle.keeping.specs.Keepings.{Stay, SweptBehind, keeping_at, removed_of};
ghost use Rattle.keeping.specs.Holding.{KeptBy, KeptUpTo};

use crate::keeping::Keeping;
use crate::note_fault::NoteFault;
use folder::{AheadFile, Folder, PruningFolder};
use ghost_list::GhostList;
use item_io::{FolderOutlet, Item, Outlet, OutletFault};
use std::alloc::Global;
use std::marker::Model;

/// An outlet that puts each item into a file of a folder, and behind each block of a rendition takes its segments away that may
/// go: those that no playlist has listed for their own duration and that of the longest playlist so far (RFC 8216, 6.2.2), in
/// the stream's own time. What can't be removed is tried again behind the next block of its rendition.
///
/// A put fails where a `FolderOutlet` fails, and where a media playlist isn't one, doesn't go on from the one before, or has
/// another name than its rendition, or that of another one.
#[derive(Drop)]
pub struct KeepingOutlet<F> {
    files: FolderOutlet<PruningFolder<F>>,
    alloc: Global,
    renditions: Vec<Keeping>,
    lags: bool,
    missed: GhostList<usize>,
}

impl<F> Model for KeepingOutlet<F> {
    ghost use Rattle.keeping.specs.Holding.{KeepingState};

    ghost Value = { KeepingState F };

    ghost view = { λ o. record { files = o.files; renditions = o.renditions.items; lags = o.lags; missed = o.missed.items } };
}

impl<F: Folder> KeepingOutlet<F> {
    /// Over an outlet of files. Rendition r of the items is the one at place r here; what has none there is only put.
    pub fn new(
        files: FolderOutlet<PruningFolder<F>>,
        alloc: Global,
        renditions: Vec<Keeping>,
    ) -> KeepingOutlet<F>
        ensures { result ≡ record { files = files; renditions = renditions.items; lags = false; missed = [] } }
    {
        KeepingOutlet {
            files,
            alloc,
            renditions,
            lags: false,
            missed: GhostList::new(),
        }
    }

    /// Whether a segment that might go behind the last item couldn't be removed.
    pub fn lags(&self) -> bool
        ensures { result ≡ self.now.lags }
    {
        self.lags
    }

    /// How many segments were taken away, of all renditions.
    pub fn removed(&self) -> u128
        ensures { result ≡ removed_of self.now.renditions }
    {
        removed_by(&self.renditions)
    }

    /// The outlet of files.
    pub fn into_files(self) -> FolderOutlet<PruningFolder<F>>
        ensures { result ≡ self.files }
    {
        let KeepingOutlet { files, .. } = self;
        files
    }
}

impl<F: Folder> Outlet for KeepingOutlet<F> {
    ghost output = { outlet_view (KeptBy F.made) (KeptUpTo F.made) (λ o. o.files.failures) };

    fn put(&mut self, item: &Item) -> Result<(), OutletFault>
        requires { self.old.files.failures < 2 ^ 63 }
        ensures grown { OnOk result (Grows (KeptBy F.made self.old) (KeptBy F.made self.new) (item_value item.now ∷ [])) }
        ensures ok { OnOk result (self.new.files.failures ≡ self.old.files.failures) }
        ensures kept { OnErr result (Grows (KeptBy F.made self.old) (KeptBy F.made self.new) []) }
        ensures refused { OnErr result (self.old.files.failures ≡ 0 →
            BreaksOff (KeptBy F.made self.old) (KeptUpTo F.made self.new) [] (item_value item.now)) }
        ensures failed { OnErr result (self.new.files.failures ≡ self.old.files.failures + 1) }

        // Behind a put that failed nothing is done to the folder.
        ensures untouched { 0 < self.old.files.failures → self.new.files.folder ≡ self.old.files.folder }

        // Nor is it before one that may not come next is refused.
        ensures unwritten { ¬ MayComeNext (item_value item.now) self.old.renditions → self.new.files.folder ≡ self.old.files.folder }

        // An item that wasn't put says nothing of what could be removed.
        ensures still { OnErr result (self.new.lags ≡ self.old.lags) }

        // No rendition is lost, nor takes the place of another one.
        ensures stay { Stay self.old.renditions self.new.renditions }

        // All that might go went behind the last item of a block, unless one couldn't be removed.
        ensures went { OnOk result (self.new.lags ≡ false → AllWent (item_value item.now) self.new.renditions) }

        // So did older ones, or 64 more of them.
        ensures older { OnOk result (self.new.lags ≡ false → SweptBehind (item_value item.now) self.old.renditions self.new.renditions) }

        // Where one couldn't be removed, it is left.
        ensures lags { OnOk result (self.new.lags ≡ true → IsLeftBehind (item_value item.now) self.old.renditions self.new.renditions) }

        // The renditions of which that was ever so.
        ensures missed { OnOk result (self.new.missed ≡ missed_with self.new.lags (item_value item.now) self.old.missed) }
        ensures unmissed { OnErr result (self.new.missed ≡ self.old.missed) }

        // Each other one is cleared behind its last block, if it was behind the last one before this item.
        ensures cleared { OnOk result ((items : List ItemValue) → AreCleared self.old.missed self.old.renditions items →
            AreCleared self.new.missed self.new.renditions (items ++ item_value item.now ∷ [])) }
    {
        if note(&mut self.renditions, self.alloc, item).is_err() {
            return Err(self.files.refuse());
        }
        if let Err(fault) = self.files.put(item) {
            return Err(fault);
        }
        self.lags = let_go(&mut self.renditions, self.alloc, &mut self.files, item).is_err();
        note_missed(&mut self.missed, self.lags, item);
        Ok(())
    }

    fn take(&mut self, rendition: usize, number: u64, name: &str, file: AheadFile) -> bool
        ensures taken { result ≡ true → Grows (KeptBy F.made self.old) (KeptBy F.made self.new)
            (segment_with rendition number name.now file.bytes ∷ []) }
        ensures kept { result ≡ false → Grows (KeptBy F.made self.old) (KeptBy F.made self.new) [] }
        ensures failures { self.new.files.failures ≡ self.old.files.failures }

        // Behind a put that failed no file is taken.
        ensures stays { 0 < self.old.files.failures → (result ≡ false) × (self.new.files.folder ≡ self.old.files.folder) }

        // No rendition is told of a segment, and behind it none goes.
        ensures renditions { self.new.renditions ≡ self.old.renditions }
        ensures missed { self.new.missed ≡ self.old.missed }
        ensures lags { result ≡ true → self.new.lags ≡ false }

        // A file that wasn't taken says nothing of what could be removed.
        ensures still { result ≡ false → self.new.lags ≡ self.old.lags }

        // Each rendition is cleared behind its last block, if it was before this segment.
        ensures cleared { result ≡ true → (items : List ItemValue) → AreCleared self.old.missed self.old.renditions items →
            AreCleared self.new.missed self.new.renditions (items ++ segment_with rendition number name.now file.bytes ∷ []) }
    {
        let took = self.files.take(rendition, number, name, file);
        self.lags = self.lags && !took;
        took
    }
}

/// How many segments of some renditions were taken away.
fn removed_by(renditions: &[Keeping]) -> u128
    ensures { result ≡ removed_of renditions.now }
{
    let mut all = 0;
    for keeping in renditions {
        all += keeping.removed();
    }
    all
}

/// Notes an item for its rendition, if it is a media playlist with a new segment. One that isn't that of the rendition of its
/// name, or doesn't go on from those before, is refused.
fn note(renditions: &mut Vec<Keeping>, alloc: Global, item: &Item) -> Result<(), NoteFault>
    ensures ok { OnOk result (AreNotedBy (item_value item.now) renditions.old.items renditions.new.items) }
    ensures err { OnErr result (renditions.new.items ≡ renditions.old.items) }
    ensures turn { OnOk result (ComesInTurn (item_value item.now) renditions.new.items) }
    ensures next { OnOk result (MayComeNext (item_value item.now) renditions.old.items) }
    ensures few { OnErr result (MayBeRefused (item_value item.now) renditions.old.items) }
    ensures refused { IsErrOf result NoteFault.Refused → ¬ MayComeNext (item_value item.now) renditions.old.items }
    ensures scarce { IsErrOf result NoteFault.NoMemory → MayWantMemory (item_value item.now) renditions.old.items }
{
    let Item::Media {
        rendition,
        ended,
        name,
        text,
        ..
    } = item
    else {
        return Ok(());
    };
    if !is_own_name(renditions, *rendition, name) {
        return Err(NoteFault::Refused);
    }
    if *rendition >= renditions.len() {
        return Ok(());
    }
    if *ended {
        return renditions[*rendition].check(alloc, text);
    }
    renditions[*rendition].note(alloc, text)
}

/// Whether a name is that of a rendition, if it is one of these, and of no other.
fn is_own_name(renditions: &[Keeping], rendition: usize, name: &str) -> bool
    ensures { Decides result (HasOwnName renditions.now name.now rendition) }
{
    for r in 0..renditions.len() {
        if has_name(renditions, r, name) != (r == rendition) {
            return false;
        }
    }
    true
}

/// Whether a name is that of this rendition.
fn has_name(renditions: &[Keeping], r: usize, name: &str) -> bool
    requires { r < length renditions.now }
    ensures { Decides result (name.now ≡ (keeping_at renditions.now r).name) }
{
    renditions[r].has_name(name)
}

/// Behind the last item of a block of a rendition, takes those of its segments away that may go.
fn let_go<F: Folder>(
    renditions: &mut Vec<Keeping>,
    alloc: Global,
    files: &mut FolderOutlet<PruningFolder<F>>,
    item: &Item,
) -> Result<(), OutletFault>
    ensures gone { GoBehind (item_value item.now) renditions.old.items renditions.new.items (F.made files.old.folder) (F.made files.new.folder) }
    ensures went { OnOk result (AllWent (item_value item.now) renditions.new.items) }
    ensures older { OnOk result (SweptBehind (item_value item.now) renditions.old.items renditions.new.items) }
    ensures left { OnErr result (IsLeftBehind (item_value item.now) renditions.old.items renditions.new.items) }
    ensures others { other_moves (F.made files.new.folder) ≡ other_moves (F.made files.old.folder) }
    ensures same { files.new ≡ record files.old { folder = files.new.folder } }
{
    let Item::Frames { rendition, .. } = item else {
        return Ok(());
    };
    if *rendition >= renditions.len() {
        return Ok(());
    }
    renditions[*rendition].let_go(alloc, files)
}

/// Notes the rendition of an item behind which a segment couldn't be removed.
fn note_missed(missed: &mut GhostList<usize>, lags: bool, item: &Item)
    ensures { missed.new.items ≡ missed_with lags (item_value item.now) missed.old.items }
{
    if let Item::Frames { rendition, .. } = item
        && lags
    {
        missed.push(rendition);
    }
}
