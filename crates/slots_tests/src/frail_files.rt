// Real files and an output that do what the system may do: move less than was asked for, and fail.
use disk_model::FileNames;
use std::alloc::Allocator;
use std::cell::Cell;
use std::fmt::Display;
use std::fs::{File, Metadata, OpenFile, OpenOptions};
use std::io::{self, BufRead, ErrorKind, Lines, Read, Seek, SeekFrom, Write};
use std::os::unix::fs::FileExt;
use std::rt::Files;

/// The names of the files whose syncs can fail.
pub const FRAIL: FileNames = FileNames {
    objects: "frail_objects",
    log_a: "frail_log_a",
    log_b: "frail_log_b",
};

/// A folder whose sync can fail, as that of the current one can.
pub const INNER: &str = "frail_folder";

/// What fails: the first sync of a file or of a folder, the syncs of the objects after their first, or each write to the
/// output.
#[derive(Clone, Copy)]
pub enum Fails {
    Nothing,
    Objects,
    LogA,
    LogB,
    Folder,
    Inner,
    Later,
    Output,
}

impl Fails {
    fn sync_of(self, path: &str) -> bool {
        match self {
            Fails::Objects => path == FRAIL.objects,
            Fails::LogA => path == FRAIL.log_a,
            Fails::LogB => path == FRAIL.log_b,
            Fails::Folder => path == ".",
            Fails::Inner => path == INNER,
            Fails::Nothing | Fails::Later | Fails::Output => false,
        }
    }

    fn later_sync_of(self, path: &str) -> bool {
        matches!(self, Fails::Later) && path == FRAIL.objects
    }

    fn output(self) -> bool {
        matches!(self, Fails::Output)
    }
}

/// A runtime over real files, of which a read or a write moves one byte, and the first read is interrupted.
#[derive(Drop)]
pub struct FrailFiles<R: Files + Print> {
    pub rt: R,
    pub fails: Fails,
}

#[derive(Drop)]
pub struct FrailFile<F> {
    file: F,
    interrupts: Cell<bool>,
    fails: Cell<bool>,
    fails_later: bool,
}

impl<R: Files + Print> Print for FrailFiles<R> {
    fn print<D: Display + Drop>(&self, value: D) -> io::Result<()> {
        self.rt.print(value)
    }

    fn println<D: Display + Drop>(&self, value: D) -> io::Result<()> {
        self.rt.println(value)
    }

    fn write_all(&self, bytes: &[u8]) -> io::Result<()> {
        if self.fails.output() {
            return Err(ErrorKind::Other.into());
        }
        self.rt.write_all(bytes)
    }
}

impl<R: Files + Print> Files for FrailFiles<R> {
    type File = FrailFile<R::File>;

    type Dir = R::Dir;

    fn open_file(&self, how: &OpenOptions, path: &str) -> io::Result<FrailFile<R::File>> {
        Ok(FrailFile {
            file: self.rt.open_file(how, path)?,
            interrupts: Cell::new(true),
            fails: Cell::new(self.fails.sync_of(path)),
            fails_later: self.fails.later_sync_of(path),
        })
    }

    fn open_dir(&self, path: &str) -> io::Result<R::Dir> {
        self.rt.open_dir(path)
    }

    fn metadata(&self, path: &str) -> io::Result<Metadata> {
        self.rt.metadata(path)
    }

    fn symlink_metadata(&self, path: &str) -> io::Result<Metadata> {
        self.rt.symlink_metadata(path)
    }

    fn copy(&self, from: &str, to: &str) -> io::Result<u64> {
        self.rt.copy(from, to)
    }

    fn rename(&self, from: &str, to: &str) -> io::Result<()> {
        self.rt.rename(from, to)
    }

    fn remove_file(&self, path: &str) -> io::Result<()> {
        self.rt.remove_file(path)
    }

    fn create_dir(&self, path: &str) -> io::Result<()> {
        self.rt.create_dir(path)
    }

    fn remove_dir(&self, path: &str) -> io::Result<()> {
        self.rt.remove_dir(path)
    }

    fn remove_dir_all<A: Allocator>(&self, alloc: A, path: &str) -> io::Result<()> {
        self.rt.remove_dir_all(alloc, path)
    }
}

impl<F: Read> Read for FrailFile<F> {
    fn read(&mut self, into: &mut [u8]) -> io::Result<usize> {
        let count = into.len().min(1);
        self.file.read(&mut into[..count])
    }
}

impl<F: Write> Write for FrailFile<F> {
    fn write(&mut self, bytes: &[u8]) -> io::Result<usize> {
        self.file.write(&bytes[..bytes.len().min(1)])
    }

    fn flush(&mut self) -> io::Result<()> {
        self.file.flush()
    }
}

impl<F: Seek> Seek for FrailFile<F> {
    fn seek(&mut self, to: SeekFrom) -> io::Result<u64> {
        self.file.seek(to)
    }
}

impl<F: FileExt> FileExt for FrailFile<F> {
    fn read_at(&self, into: &mut [u8], at: u64) -> io::Result<usize> {
        if self.interrupts.replace(false) {
            return Err(ErrorKind::Interrupted.into());
        }
        let count = into.len().min(1);
        self.file.read_at(&mut into[..count], at)
    }

    fn write_at(&self, bytes: &[u8], at: u64) -> io::Result<usize> {
        self.file.write_at(&bytes[..bytes.len().min(1)], at)
    }
}

impl<F: OpenFile> OpenFile for FrailFile<F> {
    fn metadata(&self) -> io::Result<Metadata> {
        self.file.metadata()
    }

    fn set_len(&self, size: u64) -> io::Result<()> {
        self.file.set_len(size)
    }

    fn sync_all(&self) -> io::Result<()> {
        if self.fails.replace(false) {
            return Err(ErrorKind::Other.into());
        }
        self.file.sync_all()
    }

    fn sync_data(&self) -> io::Result<()> {
        if self.fails_later {
            return Err(ErrorKind::Other.into());
        }
        self.file.sync_data()
    }
}

/// A runtime with an input of no bytes.
pub struct FrailInput;

/// Its reader: the first read is interrupted.
#[derive(Drop)]
pub struct FrailReader {
    interrupts: bool,
}

impl Input for FrailInput {
    type Reader = FrailReader;

    fn read_line<A: Allocator + Clone>(&self, _buf: &mut String<A>) -> io::Result<usize> {
        Ok(0)
    }

    fn lines<A: Allocator>(&self, alloc: A) -> Lines<FrailReader, A> {
        self.reader().lines(alloc)
    }

    fn reader(&self) -> FrailReader {
        FrailReader { interrupts: true }
    }
}

impl Read for FrailReader {
    fn read(&mut self, _into: &mut [u8]) -> io::Result<usize> {
        if self.interrupts {
            self.interrupts = false;
            return Err(ErrorKind::Interrupted.into());
        }
        Ok(0)
    }
}

impl BufRead for FrailReader {
    fn fill_buf(&mut self) -> io::Result<&[u8]> {
        Ok(&[])
    }

    fn consume(&mut self, _amount: usize) {}
}
