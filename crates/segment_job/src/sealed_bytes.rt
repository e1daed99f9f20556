use folder::AheadFile;

/// The bytes of a sealed segment: they lie in memory, or in a file that stands ready.
#[derive(Drop)]
pub enum SealedBytes {
    InMemory(Vec<u8>),
    InFile(AheadFile),
}
