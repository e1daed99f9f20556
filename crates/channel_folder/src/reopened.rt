use resume::Restored;
use std::marker::Model;

/// What the renditions of a ladder go on behind: for each what its playlists list, or that it has none; and the most
/// discontinuities that one with playlists had so far, if any has.
#[derive(Drop)]
pub struct Reopened {
    pub found: Vec<Option<Restored>>,
    pub most: Option<u128>,
}

impl Model for Reopened {
    ghost use Rattle.channel_folder.specs.Reopened.{ReopenedValue};

    ghost Value = { ReopenedValue };

    ghost view = { λ r. record { found = r.found.items; most = r.most } };
}
