// The machine over files of a folder and the standard output. Nothing is proved of what they hold.
ghost use Rattle.std.specs.Prelude.{◌≡◌, IfOk};
ghost use Rattle.disk_model.specs.Untold.{untold, lawful_untold};

use crate::by_file::ByFile;
use crate::count::counted;
use crate::file_fault::{FileCall, FileFault, noted};
use crate::file_path::FilePath;
use crate::stored_file::StoredFile;
use crate::{Failed, FileNames, FileNo, Machine};
use std::alloc::{AllocError, Global};
use std::io::{self, Write};
use std::os::unix::fs::FileExt;
use std::path::Path;
use std::rt::Files;

/// Three files of a folder, and the standard output. It reports nothing of their content.
#[derive(Drop)]
pub struct FileMachine<R: Files + Print> {
    rt: R,
    files: ByFile<StoredFile<R>>,
    disk_faults: u64,
    say_faults: u64,
    fault: Option<FileFault>,
}

impl<R: Files + Print> FileMachine<R> {
    /// The files of the store in the current folder. It opens none yet.
    pub fn new(rt: R) -> Self
        ensures disk_faults { result.disk_faults ≡ 0 }
        ensures say_faults { result.say_faults ≡ 0 }
    {
        FileMachine::with_names(rt, FileNames::STORE)
    }

    /// The files of a backup in the current folder. It opens none yet.
    pub fn backup(rt: R) -> Self
        ensures disk_faults { result.disk_faults ≡ 0 }
        ensures say_faults { result.say_faults ≡ 0 }
    {
        FileMachine::with_names(rt, FileNames::BACKUP)
    }

    /// Files of other names in the current folder. It opens none yet.
    pub fn with_names(rt: R, names: FileNames) -> Self
        ensures disk_faults { result.disk_faults ≡ 0 }
        ensures say_faults { result.say_faults ≡ 0 }
    {
        let files = ByFile {
            objects: StoredFile::new(FilePath::Here(names.objects)),
            log_a: StoredFile::new(FilePath::Here(names.log_a)),
            log_b: StoredFile::new(FilePath::Here(names.log_b)),
        };
        FileMachine::over(rt, files)
    }

    /// Files of these names in this folder, which is the current one if it is empty. It opens none yet. In a folder that is
    /// missing, the files are missing too, and none can be made.
    pub fn in_folder(
        rt: R,
        alloc: Global,
        folder: &str,
        names: FileNames,
    ) -> Result<Self, AllocError>
    where
        R: Drop,
        ensures disk_faults { IfOk result (λ machine. machine.disk_faults ≡ 0) }
        ensures say_faults { IfOk result (λ machine. machine.say_faults ≡ 0) }
    {
        let folder = Path::new(folder);
        let files = ByFile {
            objects: StoredFile::new(FilePath::Joined(folder.join(alloc, names.objects)?)),
            log_a: StoredFile::new(FilePath::Joined(folder.join(alloc, names.log_a)?)),
            log_b: StoredFile::new(FilePath::Joined(folder.join(alloc, names.log_b)?)),
        };
        Ok(FileMachine::over(rt, files))
    }

    /// The first call on a file that failed, if one did.
    pub fn fault(&self) -> Option<&FileFault> {
        self.fault.as_ref()
    }

    /// Where a file is, from the current folder.
    pub fn path(&self, file: FileNo) -> &str {
        self.files.get(file).path()
    }

    fn over(rt: R, files: ByFile<StoredFile<R>>) -> Self
        ensures disk_faults { result.disk_faults ≡ 0 }
        ensures say_faults { result.say_faults ≡ 0 }
    {
        FileMachine {
            rt,
            files,
            disk_faults: 0,
            say_faults: 0,
            fault: None,
        }
    }
}

fn say_all(rt: &impl Print, bytes: &[u8]) -> io::Result<()> {
    let mut output = io::writer(rt);
    output.write_all(bytes)?;
    output.flush()
}

impl<R: Files + Print> Machine for FileMachine<R>
where
    R::File: FileExt,
{
    ghost disk = { λ s. untold s.disk_faults s.say_faults };

    ghost lawful = { λ s. lawful_untold s.disk_faults s.say_faults };

    fn size(&mut self, file: FileNo) -> Result<u64, Failed> {
        let answer = self.files.get_mut(file).size(&self.rt);
        let answer = noted(&mut self.fault, file, FileCall::Size, answer);
        counted(&mut self.disk_faults, answer)
    }

    fn read(&mut self, file: FileNo, at: u64, into: &mut [u8]) -> Result<usize, Failed> {
        let answer = self.files.get_mut(file).read(&self.rt, at, into);
        let answer = noted(&mut self.fault, file, FileCall::Read, answer);
        counted(&mut self.disk_faults, answer)
    }

    fn write_at(&mut self, file: FileNo, at: u64, bytes: &[u8]) -> Result<(), Failed> {
        let answer = self.files.get_mut(file).write(&self.rt, at, bytes);
        let answer = noted(&mut self.fault, file, FileCall::Write, answer);
        counted(&mut self.disk_faults, answer)
    }

    fn sync(&mut self, file: FileNo) -> Result<(), Failed> {
        let answer = self.files.get_mut(file).sync(&self.rt);
        let answer = noted(&mut self.fault, file, FileCall::Sync, answer);
        counted(&mut self.disk_faults, answer)
    }

    fn say(&mut self, bytes: &[u8]) -> Result<(), Failed> {
        counted(&mut self.say_faults, say_all(&self.rt, bytes))
    }
}
