ghost use Rattle.std.specs.Prelude.{◌≡◌};
ghost use Rattle.oper_core.specs.State.{is_among};

use oper_core::Objs;

/// A logged operation as the order sees it: its LSN, the objects that it reads and those that it writes, and
/// whether it is an identity write, which makes no difference to the order.
#[derive(Drop)]
pub struct Entry {
    pub lsn: u64,
    pub reads: Objs,
    pub writes: Objs,
    pub identity: bool,
}

impl Entry {
    /// Whether it reads the object.
    pub(crate) fn reads_object(&self, x: u32) -> bool
        ensures { result ≡ is_among x self.now.reads }
    {
        self.reads.as_slice().iter().any(|y| x == *y)
    }

    /// Whether it writes the object.
    pub(crate) fn writes_object(&self, x: u32) -> bool
        ensures { result ≡ is_among x self.now.writes }
    {
        self.writes.as_slice().iter().any(|y| x == *y)
    }
}
