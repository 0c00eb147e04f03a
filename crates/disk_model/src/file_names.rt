// What three files are called.

/// The names of a machine's three files, in its folder.
#[derive(Clone, Copy, Debug)]
pub struct FileNames {
    pub objects: &'static str,
    pub log_a: &'static str,
    pub log_b: &'static str,
}

impl FileNames {
    /// The names of the files of a store.
    pub const STORE: FileNames = FileNames {
        objects: "objects.rdo",
        log_a: "log_a.rdo",
        log_b: "log_b.rdo",
    };

    /// The names of the files of a backup, which may stand beside those of a store.
    pub const BACKUP: FileNames = FileNames {
        objects: "bak_objects.rdo",
        log_a: "bak_log_a.rdo",
        log_b: "bak_log_b.rdo",
    };
}
