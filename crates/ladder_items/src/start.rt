ghost use Rattle.std.specs.Prelude.{◌≡◌, ℕ, Some, length, slice_get, IfOk};
ghost use Rattle.ingest.specs.declared.lane.Lane.{Lane};
ghost use Rattle.ingest.specs.Lanes.{IsFirst};
ghost use Rattle.ladder_items.specs.Ladder.{IsAllowed};
ghost use Rattle.ladder_items.specs.Items.{shown_all};
ghost use Rattle.ladder_items.specs.Weave.{none_of};

use crate::playlists::Playlists;
use crate::settings::Settings;
use ingest::Lane;
use std::alloc::{AllocError, Global};

/// A lane for each rendition, whose input gave nothing yet.
pub fn first_lanes(alloc: Global, settings: &Settings) -> Result<Vec<Lane>, AllocError>
    requires { IsAllowed settings.now }
    ensures each { IfOk result (λ lanes. length lanes.items ≡ length settings.now.renditions) }
    ensures first { IfOk result (λ lanes. (k : ℕ) (lane : Lane) → slice_get lanes.items k ≡ Some lane → IsFirst k settings.now.cut lane) }
{
    let mut lanes = Vec::new(alloc);
    for r in 0..settings.renditions.len() {
        lanes.push(Lane::new(alloc, r, settings.cut))?;
    }
    Ok(lanes)
}

/// The playlists of each rendition, which has given nothing yet.
pub fn first_playlists(alloc: Global, settings: &Settings) -> Result<Vec<Playlists>, AllocError>
    requires { IsAllowed settings.now }
    ensures { IfOk result (λ playlists. playlists.items ≡ shown_all settings.now (none_of settings.now)) }
{
    let mut playlists = Vec::new(alloc);
    for rendition in &settings.renditions {
        let new = Playlists::new(
            alloc,
            &rendition.name,
            settings.cut.target,
            settings.window,
            settings.kind,
            rendition.salt,
        )?;
        playlists.push(new.behind(alloc, rendition.gone, &rendition.earlier)?)?;
    }
    Ok(playlists)
}
