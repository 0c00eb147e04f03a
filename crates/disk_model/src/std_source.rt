// The standard input. Nothing is proved of what it gives.
ghost use Rattle.std.specs.Prelude.{◌≡◌, ◌≤◌, [], length, IfOk};

use crate::count::counted;
use crate::{Failed, Source};
use std::io::{self, ErrorKind, Read};

/// The standard input. It reports nothing of its content.
#[derive(Drop)]
pub struct StdSource<R: Input> {
    reader: R::Reader,
    faults: u64,
}

impl<R: Input> StdSource<R> {
    /// Reads nothing yet.
    pub fn new(rt: &R) -> Self
        ensures { result.faults ≡ 0 }
    {
        StdSource {
            reader: rt.reader(),
            faults: 0,
        }
    }
}

// One read that no signal broke off.
fn read_some<S: Read>(reader: &mut S, into: &mut [u8]) -> io::Result<usize>
    ensures { IfOk result (λ n. n ≤ length into.old) }
{
    for _ in 0..u64::MAX {
        match reader.read(into) {
            Err(error) if error.kind() == ErrorKind::Interrupted => {}
            answer => return answer,
        }
    }
    Err(ErrorKind::Interrupted.into())
}

impl<R: Input> Source for StdSource<R> {
    ghost tells = { λ s. ⊥ };

    ghost left = { λ s. [] };

    ghost faults = { λ s. s.faults };

    fn read(&mut self, into: &mut [u8]) -> Result<usize, Failed> {
        counted(&mut self.faults, read_some(&mut self.reader, into))
    }
}
