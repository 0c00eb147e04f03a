// How much of a store is kept in memory.
ghost use Rattle.std.specs.Prelude.{◌≡◌};
ghost use Rattle.formats.specs.Objects.{IsInRange};
ghost use Rattle.restart.specs.Courses.{dirty_limit as dirty, redo_marks as marks_of};

use explain_core::Marks;
use formats::Params;
use running_store::objects_within;

/// How much of a store is kept in memory.
#[derive(Clone, Copy, Debug)]
pub struct Tuning {
    /// At least so many clean objects are cached, one or more.
    pub clean: usize,

    /// As many clean objects are cached as have at most so many bytes together, however long their values are.
    pub clean_bytes: usize,

    /// At least so many objects may be dirty before a redo installs thin nodes.
    pub redo_dirty: usize,

    /// As many objects may be dirty before that as have at most so many bytes together, however long their values are.
    pub redo_bytes: usize,

    /// No more than so many may be, however short.
    pub redo_most: usize,

    /// So many records may wait in the graph before a redo installs thin nodes.
    pub redo_waiting: u64,

    /// As many nodes at most are installed together as objects may be dirty, or so many, if that is more.
    pub redo_round: usize,
}

impl Tuning {
    /// A redo of a store with these numbers installs while more objects than this are dirty.
    fn dirty_limit(self, params: Params) -> usize
        requires { IsInRange params }
        ensures { result ≡ dirty self params }
    {
        objects_within(self.redo_dirty, self.redo_bytes, params).min(self.redo_most)
    }

    /// The marks by which a redo of a store with these numbers installs.
    pub(crate) fn redo_marks(self, params: Params) -> Marks
        requires { IsInRange params }
        ensures { result ≡ marks_of self params }
    {
        let dirty = self.dirty_limit(params);
        let most = dirty.max(self.redo_round);
        Marks {
            dirty,
            waiting: self.redo_waiting,
            most,
        }
    }
}
