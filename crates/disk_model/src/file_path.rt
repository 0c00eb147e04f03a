// Where a file is.

use std::path::{Path, PathBuf};

/// A name in the current folder, or a path that was put together from a folder and a name.
#[derive(Drop)]
pub enum FilePath {
    Here(&'static str),
    Joined(PathBuf),
}

impl FilePath {
    pub fn as_str(&self) -> &str {
        match self {
            FilePath::Here(name) => name,
            FilePath::Joined(path) => path.as_str(),
        }
    }

    /// The folder that the file is in.
    pub fn folder(&self) -> &str {
        match Path::new(self.as_str()).parent() {
            Some(folder) if !folder.as_str().is_empty() => folder.as_str(),
            _ => ".",
        }
    }
}
