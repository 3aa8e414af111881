//! What is generated.

/// The files of a project, each with its path, and the bytes of a script over them.
#[derive(Debug, Drop)]
pub struct Project {
    pub files: Vec<(String, Vec<u8>)>,
    pub script: Vec<u8>,
}
