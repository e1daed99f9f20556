use resume::Wanted;

/// A rendition that a run asks for: its name, and what its playlists have to be.
#[derive(Clone, Copy, Debug)]
pub struct Asked<'a> {
    pub name: &'a str,
    pub wanted: Wanted,
}
