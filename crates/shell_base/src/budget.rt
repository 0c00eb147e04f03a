// How much of a store the restart of a call keeps in memory.
ghost use Rattle.std.specs.Prelude.{◌≡◌, ◌<◌};
ghost use Rattle.formats.specs.declared.params.Params.{Params};
ghost use Rattle.restart.specs.Courses.{redo_marks};
ghost use Rattle.shell_base.specs.First.{marks_of};

use store_engine::Tuning;

/// How much of a store the restart of a call keeps in memory. While more values are dirty than that, or more records wait, a redo
/// installs, as many nodes together as values may be dirty, and 64 in any case: these wait for three syncs.
#[derive(Clone, Copy, Debug)]
pub enum Budget {
    /// 16 MiB of clean values, and in a redo 64 MiB of dirty ones, but 64 values of each, however long they are. A store of
    /// version 1 has at most 4,096 objects of at most 16,384 bytes, 64 MiB in all: so its redo installs nothing.
    Usual,
    /// One clean value, and in a redo 1 MiB of dirty ones, at least one of them and at most 1,024, and as many records that wait.
    Least,
}

impl Budget {
    /// The tuning of the restart.
    pub fn tuning(self) -> Tuning
        ensures clean { 0 < result.clean }
        ensures marks { (p : Params) → redo_marks result p ≡ marks_of self p }
    {
        match self {
            Budget::Usual => Tuning {
                clean: 64,
                clean_bytes: 1 << 24,
                redo_dirty: 64,
                redo_bytes: 1 << 26,
                redo_most: 1 << 26,
                redo_waiting: 1 << 28,
                redo_round: 64,
            },
            Budget::Least => Tuning {
                clean: 1,
                clean_bytes: 0,
                redo_dirty: 1,
                redo_bytes: 1 << 20,
                redo_most: 1024,
                redo_waiting: 1024,
                redo_round: 64,
            },
        }
    }
}
