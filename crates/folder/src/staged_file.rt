/// A file that is written and not yet placed: its part name, under which it stands, and the name that it gets.
#[derive(Drop)]
pub struct StagedFile {
    pub part: String,
    pub name: String,
}
