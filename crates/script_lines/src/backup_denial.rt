ghost use Rattle.std.specs.Prelude.{◌≡◌};
ghost use Rattle.script_lines.specs.Replies.{backup_denial_name as name_in_words};

/// Why a line of a backup is refused, or a trim while a backup goes on.
#[derive(Clone, Copy, Debug, PartialEq, Eq)]
pub enum BackupDenial {
    /// A backup goes on.
    InBackup,
    /// No backup goes on.
    NoBackup,
    /// A store is there, where the backup would be made.
    AlreadyStore,
    /// Not all objects are copied.
    NotCopied,
}

/// Its name.
pub fn backup_denial_name(denial: BackupDenial) -> &'static [u8]
    ensures { result.now ≡ name_in_words denial }
{
    match denial {
        BackupDenial::InBackup => b"InBackup",
        BackupDenial::NoBackup => b"NoBackup",
        BackupDenial::AlreadyStore => b"AlreadyStore",
        BackupDenial::NotCopied => b"NotCopied",
    }
}
