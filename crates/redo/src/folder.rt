// The folder of the store.
use crate::unstarted::Unstarted;
use command_words::Asked;
use std::env;
use std::fs::{File, TryLockError};

/// Takes `-C DIR` off the words, behind the program's name, and enters the folder DIR.
pub fn enter(rt: HostRuntime, words: &mut Vec<String>) -> Result<(), Unstarted> {
    if words.len() < 3 || words[1].as_str() != "-C" {
        return Ok(());
    }
    words.remove(1);
    let folder = words.remove(1);
    match env::set_current_dir(&rt, folder.as_str()) {
        Ok(()) => Ok(()),
        Err(error) => Err(Unstarted::NoFolder { folder, error }),
    }
}

/// Whether the words end where the folder has to stand.
pub fn lacks_folder(words: &[String]) -> bool {
    match words {
        [_, option] => option.as_str() == "-C",
        _ => false,
    }
}

/// Locks the folder where a store is asked for, so that no second program uses it meanwhile. The lock ends where the file is
/// dropped, or with the process.
pub fn lock(rt: HostRuntime, asked: Asked) -> Result<Option<File>, Unstarted> {
    if matches!(asked, Asked::Demo { .. }) {
        return Ok(None);
    }
    let folder = match File::open(&rt, ".") {
        Ok(folder) => folder,
        Err(error) => return Err(Unstarted::NoLock(error)),
    };
    match folder.try_lock() {
        Ok(()) => Ok(Some(folder)),
        Err(TryLockError::WouldBlock) => Err(Unstarted::InUse),
        Err(TryLockError::Error(error)) => Err(Unstarted::NoLock(error)),
    }
}
