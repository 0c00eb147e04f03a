// One file of a folder, opened at first use.
ghost use Rattle.std.specs.Prelude.{◌≤◌, length, IfOk};

use crate::file_path::FilePath;
use std::fs::{File, OpenFile, OpenOptions};
use std::io::{self, ErrorKind, Seek, SeekFrom};
use std::os::unix::fs::FileExt;
use std::rt::Files;

/// A file that may be missing, and is then empty. Only a write makes it.
#[derive(Drop)]
pub struct StoredFile<R: Files> {
    path: FilePath,
    opened: Option<R::File>,
    // The folder was synced since the file was opened, so the file's name is on the disk.
    named: bool,
    // A sync failed. The system may have dropped what it could not write, and would not say so again.
    unsure: bool,
}

impl<R: Files> StoredFile<R> {
    pub fn new(path: FilePath) -> Self {
        StoredFile {
            path,
            opened: None,
            named: false,
            unsure: false,
        }
    }

    pub fn path(&self) -> &str {
        self.path.as_str()
    }

    pub fn size(&mut self, rt: &R) -> io::Result<u64> {
        self.open(rt)?;
        match &mut self.opened {
            Some(file) => file.seek(SeekFrom::End(0)),
            None => Ok(0),
        }
    }

    pub fn read(&mut self, rt: &R, at: u64, into: &mut [u8]) -> io::Result<usize>
    where
        R::File: FileExt,
        ensures { IfOk result (λ n. n ≤ length into.old) }
    {
        self.open(rt)?;
        match &self.opened {
            Some(file) => read_at(file, at, into),
            None => Ok(0),
        }
    }

    /// Writes the bytes there. A write of no bytes lengthens a shorter file too.
    pub fn write(&mut self, rt: &R, at: u64, bytes: &[u8]) -> io::Result<()>
    where
        R::File: FileExt,
    {
        self.open_or_make(rt)?;
        match &mut self.opened {
            Some(file) if bytes.is_empty() => lengthen(file, at),
            Some(file) => file.write_all_at(bytes, at),
            None => Err(ErrorKind::NotFound.into()),
        }
    }

    /// Puts the file on the disk, and its name where a crash could still take that away. After a sync that failed, each
    /// later one fails.
    pub fn sync(&mut self, rt: &R) -> io::Result<()> {
        if self.unsure {
            return Err(ErrorKind::Other.into());
        }
        let answer = self.sync_whole(rt);
        self.unsure = answer.is_err();
        answer
    }

    fn sync_whole(&mut self, rt: &R) -> io::Result<()> {
        self.open(rt)?;
        let Some(file) = &self.opened else {
            return Ok(());
        };
        if self.named {
            // (bytes and length; the times of the file need not reach the disk)
            return file.sync_data();
        }
        file.sync_all()?;
        File::open(rt, self.path.folder())?.sync_all()?;
        self.named = true;
        Ok(())
    }

    // Opens the file where it is there.
    fn open(&mut self, rt: &R) -> io::Result<()> {
        if self.opened.is_some() {
            return Ok(());
        }
        match OpenOptions::new()
            .read(true)
            .write(true)
            .open(rt, self.path.as_str())
        {
            Ok(file) => self.opened = Some(file),
            Err(error) if error.kind() == ErrorKind::NotFound => {}
            Err(error) => return Err(error),
        }
        Ok(())
    }

    fn open_or_make(&mut self, rt: &R) -> io::Result<()> {
        if self.opened.is_none() {
            let mut how = OpenOptions::new();
            how.read(true).write(true).create(true);
            self.opened = Some(how.open(rt, self.path.as_str())?);
        }
        Ok(())
    }
}

// Reads until there is no room or nothing more.
fn read_at<F: FileExt>(file: &F, at: u64, into: &mut [u8]) -> io::Result<usize>
    ensures { IfOk result (λ n. n ≤ length into.old) }
{
    let mut count = 0;
    for _ in 0..u64::MAX {
        if count == into.len() {
            break;
        }
        match file.read_at(&mut into[count..], at.saturating_add(count as u64)) {
            Ok(0) => break,
            Ok(more) => count += more,
            Err(error) if error.kind() == ErrorKind::Interrupted => {}
            Err(error) => return Err(error),
        }
    }
    Ok(count)
}

// A shorter file becomes so long.
fn lengthen<F: Seek + OpenFile>(file: &mut F, len: u64) -> io::Result<()> {
    if file.seek(SeekFrom::End(0))? < len {
        file.set_len(len)?;
    }
    Ok(())
}
