//! Files under their names.

/// A file under its name, as a manifest gives it.
#[derive(Drop)]
pub struct SourceFile {
    pub name: String,
    pub bytes: Vec<u8>,
}
