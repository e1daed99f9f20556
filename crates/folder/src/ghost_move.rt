use ghost_list::GhostList;

/// A move of a folder, as only proofs read it.
#[derive(Drop)]
pub enum GhostMove {
    Written {
        name: GhostList<u8>,
        bytes: GhostList<u8>,
    },
    Renamed {
        old: GhostList<u8>,
        new: GhostList<u8>,
    },
    Removed {
        name: GhostList<u8>,
    },
    Seen {
        name: GhostList<u8>,
        there: bool,
    },
    Synced,
}
