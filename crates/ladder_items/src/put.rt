ghost use Rattle.std.specs.Prelude.{◌≡◌, ◌+◌, ◌<◌, ◌^◌, [], ◌∷◌, ℕ, List, All, false, None, length, map, IfOk, IfErr, IfSome, OnOk, OnErr};
ghost use Rattle.std.specs.String.{string_bytes};
ghost use Rattle.item_io.specs.Items.{item_value, segment_with, MasterItem};
ghost use Rattle.master_playlist.specs.Faults.{fault_of};
ghost use Rattle.ladder_items.specs.Ladder.{unmeasured};
ghost use Rattle.ladder_items.specs.Masters.{master_of};
ghost use Rattle.ladder_items.specs.declared.fault.PackFault.TheVariants.{Outlet};
ghost use Rattle.ladder_items.specs.Putting.{PutAll, PutFewer, PutSome, SaysFailures};
ghost use Rattle.ladder_items.specs.Items.{segment_of, media_of, frames_of};
ghost use Rattle.segment_job.specs.Rotation.{number_of};
ghost use Rattle.segment_job.specs.Segments.{sealed_from};

use crate::fault::PackFault;
use crate::master::ladder_master;
use crate::playlists::Playlists;
use crate::settings::Rendition;
use folder::AheadFile;
use item_io::{Item, Outlet};
use segment_job::{Origin, Sealed, SealedBytes};
use std::alloc::{AllocError, Global};
use std::mem;

/// Puts an item.
fn put<O: Outlet>(outlet: &mut O, item: &Item) -> Result<(), PackFault>
    requires { O.output.failures outlet.old < 2 ^ 63 }
    ensures ok { OnOk result (PutAll O.output outlet.old outlet.new (item_value item.now ∷ [])) }
    ensures err { OnErr result (PutSome O.output outlet.old outlet.new (item_value item.now ∷ [])) }
    ensures left { OnErr result (PutFewer O.output outlet.old outlet.new (item_value item.now ∷ [])) }
    ensures fault { IfErr result (λ fault. SaysFailures fault (O.output.failures outlet.old) (O.output.failures outlet.new)) }
    ensures told { IfErr result (λ fault. fault ≡ Outlet) }
{
    match outlet.put(item) {
        Ok(()) => Ok(()),
        Err(_) => Err(PackFault::Outlet),
    }
}

/// Puts a sealed segment of rendition `r`. Where it stands in a file the outlet may take that; where the outlet doesn't, the segment is
/// sealed once more, in memory. Returns the buffer that it lay in then, in which another may be sealed.
pub fn put_segment<O: Outlet>(
    alloc: Global,
    outlet: &mut O,
    r: usize,
    rendition: &Rendition,
    sealed: Sealed<'_>,
) -> Result<Option<Vec<u8>>, PackFault>
    requires failures { O.output.failures outlet.old < 2 ^ 63 }
    requires number { number_of rendition.now.keys sealed.plan.number < 2 ^ 64 }
    ensures ok { OnOk result (PutAll O.output outlet.old outlet.new (segment_of r rendition.now sealed.entry ∷ [])) }
    ensures err { OnErr result (PutSome O.output outlet.old outlet.new (segment_of r rendition.now sealed.entry ∷ [])) }
    ensures left { OnErr result (PutFewer O.output outlet.old outlet.new (segment_of r rendition.now sealed.entry ∷ [])) }
    ensures buffer { IfOk result (λ buffer. IfSome buffer (λ it. it.items ≡ sealed.entry.bytes)) }
    ensures fault { IfErr result (λ fault. SaysFailures fault (O.output.failures outlet.old) (O.output.failures outlet.new)) }
{
    let (origin, bytes) = sealed.into_parts();
    let number = rendition.keys.number(origin.plan().number) as u64;
    match bytes {
        SealedBytes::InMemory(bytes) => {
            let buffer = put_bytes(outlet, r, rendition, number, bytes)?;
            Ok(Some(buffer))
        }
        SealedBytes::InFile(file) => put_file(alloc, outlet, r, rendition, number, &origin, file),
    }
}

/// Has the outlet take the file in which segment `number` of rendition `r` stands. Where it doesn't, seals the segment once more and puts
/// its bytes. Returns the buffer that they lie in then.
fn put_file<O: Outlet>(
    alloc: Global,
    outlet: &mut O,
    r: usize,
    rendition: &Rendition,
    number: u64,
    origin: &Origin<'_>,
    file: AheadFile,
) -> Result<Option<Vec<u8>>, PackFault>
    requires failures { O.output.failures outlet.old < 2 ^ 63 }
    requires origin { file.bytes ≡ (sealed_from origin.now).bytes }
    ensures ok { OnOk result (PutAll O.output outlet.old outlet.new (segment_with r number rendition.now.name file.bytes ∷ [])) }
    ensures err { OnErr result (PutSome O.output outlet.old outlet.new (segment_with r number rendition.now.name file.bytes ∷ [])) }
    ensures left { OnErr result (PutFewer O.output outlet.old outlet.new (segment_with r number rendition.now.name file.bytes ∷ [])) }
    ensures buffer { IfOk result (λ buffer. IfSome buffer (λ it. it.items ≡ file.bytes)) }
    ensures fault { IfErr result (λ fault. SaysFailures fault (O.output.failures outlet.old) (O.output.failures outlet.new)) }
{
    if outlet.take(r, number, &rendition.name, file) {
        return Ok(None);
    }
    let bytes = origin.seal(alloc)?;
    let buffer = put_bytes(outlet, r, rendition, number, bytes)?;
    Ok(Some(buffer))
}

/// Puts the bytes of segment `number` of rendition `r`, and gives them back.
fn put_bytes<O: Outlet>(
    outlet: &mut O,
    r: usize,
    rendition: &Rendition,
    number: u64,
    bytes: Vec<u8>,
) -> Result<Vec<u8>, PackFault>
    requires { O.output.failures outlet.old < 2 ^ 63 }
    ensures ok { OnOk result (PutAll O.output outlet.old outlet.new (segment_with r number rendition.now.name bytes.items ∷ [])) }
    ensures err { OnErr result (PutSome O.output outlet.old outlet.new (segment_with r number rendition.now.name bytes.items ∷ [])) }
    ensures left { OnErr result (PutFewer O.output outlet.old outlet.new (segment_with r number rendition.now.name bytes.items ∷ [])) }
    ensures buffer { IfOk result (λ buffer. buffer.items ≡ bytes.items) }
    ensures fault { IfErr result (λ fault. SaysFailures fault (O.output.failures outlet.old) (O.output.failures outlet.new)) }
{
    let mut item = Item::Segment {
        rendition: r,
        number,
        name: rendition.name.clone()?,
        bytes,
    };
    put(outlet, &item)?;
    let Item::Segment { bytes, .. } = &mut item else {
        unreachable!()
    };
    let none = Vec::new(*bytes.allocator());
    Ok(mem::replace(bytes, none))
}

/// The media playlist of rendition `r`, ended or not.
fn media(
    r: usize,
    rendition: &Rendition,
    playlists: &Playlists,
    ended: bool,
) -> Result<Item, AllocError>
    ensures { IfOk result (λ item. item_value item ≡ media_of r rendition.now playlists.now ended) }
{
    Ok(Item::Media {
        rendition: r,
        count: playlists.count(),
        ended,
        name: rendition.name.clone()?,
        text: playlists.media_text(ended)?,
    })
}

/// The I-frame playlist of rendition `r`, ended or not.
fn frames(
    r: usize,
    rendition: &Rendition,
    playlists: &Playlists,
    ended: bool,
) -> Result<Item, AllocError>
    ensures { IfOk result (λ item. item_value item ≡ frames_of r rendition.now playlists.now ended) }
{
    Ok(Item::Frames {
        rendition: r,
        count: playlists.count(),
        ended,
        name: rendition.name.clone()?,
        text: playlists.frames_text(ended)?,
    })
}

/// Puts both playlists of rendition `r`.
pub fn put_playlists<O: Outlet>(
    outlet: &mut O,
    r: usize,
    rendition: &Rendition,
    playlists: &Playlists,
    ended: bool,
) -> Result<(), PackFault>
    requires { O.output.failures outlet.old < 2 ^ 63 }
    ensures ok { OnOk result (PutAll O.output outlet.old outlet.new
        (media_of r rendition.now playlists.now ended ∷ frames_of r rendition.now playlists.now ended ∷ [])) }
    ensures err { OnErr result (PutSome O.output outlet.old outlet.new
        (media_of r rendition.now playlists.now ended ∷ frames_of r rendition.now playlists.now ended ∷ [])) }
    ensures left { OnErr result (PutFewer O.output outlet.old outlet.new
        (media_of r rendition.now playlists.now ended ∷ frames_of r rendition.now playlists.now ended ∷ [])) }
    ensures fault { IfErr result (λ fault. SaysFailures fault (O.output.failures outlet.old) (O.output.failures outlet.new)) }
{
    put(outlet, &media(r, rendition, playlists, ended)?)?;
    put(outlet, &frames(r, rendition, playlists, ended)?)?;
    Ok(())
}

/// Puts the master playlist of the renditions of which segments are known.
pub fn put_master<O: Outlet>(
    alloc: Global,
    outlet: &mut O,
    renditions: &[Rendition],
    playlists: &[Playlists],
) -> Result<(), PackFault>
    requires failures { O.output.failures outlet.old < 2 ^ 63 }
    requires going { All (λ shown. shown.ended ≡ false) playlists.now }
    requires each { length playlists.now ≡ length renditions.now }
    requires listable { fault_of (map unmeasured renditions.now) ≡ None }
    ensures ok { OnOk result (PutAll O.output outlet.old outlet.new (MasterItem (master_of renditions.now playlists.now) ∷ [])) }
    ensures err { OnErr result (PutSome O.output outlet.old outlet.new (MasterItem (master_of renditions.now playlists.now) ∷ [])) }
    ensures left { OnErr result (PutFewer O.output outlet.old outlet.new (MasterItem (master_of renditions.now playlists.now) ∷ [])) }
    ensures fault { IfErr result (λ fault. SaysFailures fault (O.output.failures outlet.old) (O.output.failures outlet.new)) }
{
    let item = Item::Master {
        text: ladder_master(alloc, renditions, playlists)?,
    };
    put(outlet, &item)
}
