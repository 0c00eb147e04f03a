// A machine for a glance at a store that another program may be using. It opens the files without the right to write, and keeps
// what is said. Nothing is proved of what the files hold.
ghost use Rattle.std.specs.Prelude.{◌≡◌, ◌≤◌, IfOk, IsErr, Ok as Right, length};
ghost use Rattle.disk_model.specs.Disk.{Rises};
ghost use Rattle.disk_model.specs.Untold.{lawful_untold, untold};

use disk_model::{Failed, FileNames, FileNo, Machine};
use std::alloc::Global;
use std::fs::{OpenFile, OpenOptions};
use std::io::{self, ErrorKind, Seek, SeekFrom};
use std::os::unix::fs::FileExt;
use std::rt::Files;

/// Three files, each of which may be missing.
#[derive(Drop)]
struct Opened<F> {
    objects: Option<F>,
    log_a: Option<F>,
    log_b: Option<F>,
}

impl<F> Opened<F> {
    fn get_mut(&mut self, file: FileNo) -> &mut Option<F> {
        match file {
            FileNo::Objects => &mut self.objects,
            FileNo::LogA => &mut self.log_a,
            FileNo::LogB => &mut self.log_b,
        }
    }
}

/// The three files of the store in the current folder, to be read alone, and what was said.
#[derive(Drop)]
pub struct GlanceMachine<R: Files> {
    files: Opened<R::File>,
    said: Vec<u8>,
    disk_faults: u64,
    say_faults: u64,
}

/// A file that is read alone; none where it is missing.
fn open_to_read<R: Files>(rt: &R, name: &str) -> io::Result<Option<R::File>> {
    match OpenOptions::new().read(true).open(rt, name) {
        Ok(file) => Ok(Some(file)),
        Err(error) if error.kind() == ErrorKind::NotFound => Ok(None),
        Err(error) => Err(error),
    }
}

impl<R: Files> GlanceMachine<R> {
    /// The files as they are called now. Nothing was said.
    pub fn new(rt: &R, alloc: Global) -> io::Result<Self> {
        let names = FileNames::STORE;
        let files = Opened {
            objects: open_to_read(rt, names.objects)?,
            log_a: open_to_read(rt, names.log_a)?,
            log_b: open_to_read(rt, names.log_b)?,
        };
        Ok(GlanceMachine {
            files,
            said: Vec::new(alloc),
            disk_faults: 0,
            say_faults: 0,
        })
    }

    /// What was said.
    pub fn said(&self) -> &[u8] {
        self.said.as_slice()
    }
}

// An answer, with an error counted.
fn counted<T: Drop, E: Drop>(faults: &mut u64, answer: Result<T, E>) -> Result<T, Failed>
    ensures value { (value : T) → result ≡ Right value → answer ≡ Right value }
    ensures cause { IsErr result → Rises faults.old faults.new }
    ensures later { faults.old ≤ faults.new }
{
    match answer {
        Ok(value) => Ok(value),
        Err(_) => {
            *faults = faults.saturating_add(1);
            Err(Failed)
        }
    }
}

// The fault of a call that writes.
fn refused(faults: &mut u64) -> Failed
    ensures cause { Rises faults.old faults.new }
    ensures later { faults.old ≤ faults.new }
{
    *faults = faults.saturating_add(1);
    Failed
}

fn size_of<F: Seek>(file: &mut Option<F>) -> io::Result<u64> {
    match file {
        Some(file) => file.seek(SeekFrom::End(0)),
        None => Ok(0),
    }
}

// Reads until there is no room or nothing more.
fn read_at<F: FileExt>(file: &F, at: u64, into: &mut [u8]) -> io::Result<usize>
    ensures { IfOk result (λ n. n ≤ length into.old) }
{
    let mut count = 0;
    for _ in 0..u64::MAX {
        if count == into.len() {
            break;
        }
        match file.read_at(&mut into[count..], at.saturating_add(count as u64)) {
            Ok(0) => break,
            Ok(more) => count += more,
            Err(error) if error.kind() == ErrorKind::Interrupted => {}
            Err(error) => return Err(error),
        }
    }
    Ok(count)
}

fn read_of<F: FileExt>(file: &mut Option<F>, at: u64, into: &mut [u8]) -> io::Result<usize>
    ensures { IfOk result (λ n. n ≤ length into.old) }
{
    match file {
        Some(file) => read_at(file, at, into),
        None => Ok(0),
    }
}

impl<R: Files> Machine for GlanceMachine<R>
where
    R::File: FileExt,
{
    ghost disk = { λ s. untold s.disk_faults s.say_faults };

    ghost lawful = { λ s. lawful_untold s.disk_faults s.say_faults };

    fn size(&mut self, file: FileNo) -> Result<u64, Failed> {
        let answer = size_of(self.files.get_mut(file));
        counted(&mut self.disk_faults, answer)
    }

    fn read(&mut self, file: FileNo, at: u64, into: &mut [u8]) -> Result<usize, Failed> {
        let answer = read_of(self.files.get_mut(file), at, into);
        counted(&mut self.disk_faults, answer)
    }

    fn write_at(&mut self, _file: FileNo, _at: u64, _bytes: &[u8]) -> Result<(), Failed> {
        Err(refused(&mut self.disk_faults))
    }

    fn sync(&mut self, _file: FileNo) -> Result<(), Failed> {
        Err(refused(&mut self.disk_faults))
    }

    fn say(&mut self, bytes: &[u8]) -> Result<(), Failed> {
        let answer = self.said.extend_from_slice(bytes);
        counted(&mut self.say_faults, answer)
    }
}
