// What came before the queue.
ghost use Rattle.std.specs.Prelude.{◌≡◌, ◌++◌, ℕ, List, []};
ghost use Rattle.std.specs.Borrow.{ftrue};
ghost use Rattle.std.specs.Coded.{coded_list};
ghost use Rattle.disk_model.specs.Call.{Call};
ghost use Rattle.write_queue.specs.Codes.{call_code};

use crate::lent::Lent;
use crate::queue::Queue;
use disk_model::GrowMem;
use std::marker::Model;

/// The files as they were handed in, and the calls that the caller has taken, in their order. Clauses alone read them, so they
/// take no memory.
#[derive(Drop)]
pub struct Past {
    ghost objects: { List ℕ },
    ghost log_a: { List ℕ },
    ghost log_b: { List ℕ },
    ghost taken: { List Call } by { coded_list call_code },
}

impl Model for Past {
    ghost also_owns = { λ _. ftrue };
}

impl Past {
    ghost use Rattle.disk_model.specs.Growing.{files_of};
    ghost use Rattle.disk_model.specs.declared.machine.FileNo.{FileNo as File};
    ghost use Rattle.write_queue.specs.Before.{first_of};
    ghost use Rattle.write_queue.specs.Handed.{handed};
    ghost use Rattle.write_queue.specs.Lent.{lent_files};
    ghost use Rattle.write_queue.specs.Waiting.{waiting};
    ghost use Rattle.disk_model.specs.declared.machine.FileNo.TheVariants.{Objects, LogA, LogB};

    /// Files that hold these bytes are handed in, and nothing is taken.
    pub fn first(objects: &[u8], log_a: &[u8], log_b: &[u8]) -> Past
        ensures files { (file : File) → first_of result file ≡ handed objects.now log_a.now log_b.now file }
        ensures none { result.taken ≡ [] }
    {
        Past::of_lent(&Lent::new(objects, log_a, log_b))
    }

    /// These files are handed in.
    pub fn of(_files: &GrowMem) -> Past
        ensures { result ≡ record { objects = files_of _files.now Objects; log_a = files_of _files.now LogA; log_b = files_of _files.now LogB; taken = [] } }
    {
        Past {}
    }

    /// These bytes are handed in.
    pub fn of_lent(_lent: &Lent<'_>) -> Past
        ensures { result ≡ record { objects = lent_files _lent.now Objects; log_a = lent_files _lent.now LogA; log_b = lent_files _lent.now LogB; taken = [] } }
    {
        Past {}
    }

    /// What waits is taken too.
    pub fn with(&self, _queue: &Queue) -> Past
        ensures { result ≡ record self.now { taken = self.now.taken ++ waiting _queue.now } }
    {
        Past {}
    }
}
