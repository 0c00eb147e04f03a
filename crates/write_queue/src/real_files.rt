// What the machines are worth for the real files.
ghost use Rattle.std.specs.Prelude.{◌↔◌, ◌++◌, ℕ, List, length};
ghost use Rattle.disk_model.specs.Disk.{Files};
ghost use Rattle.write_queue.specs.Before.{Makes, first_of};
ghost use Rattle.write_queue.specs.Lending as lending;
ghost use Rattle.write_queue.specs.Memory.{disk_of, taken_from, IsLeftByFront};
ghost use Rattle.write_queue.specs.declared.lent_mem.LentMem.{LentMem};
ghost use Rattle.write_queue.specs.declared.queue_mem.QueueMem.{QueueMem};

/// What the machine may leave since its queue was last taken is what a crash may leave of real files on which some front of the
/// queue was made, in order, and nothing else.
pub fn fronts_are_what_is_left()
    ensures { (m : QueueMem) (files : Files) (said : List ℕ) →
        (disk_of m).left_since (length (taken_from m)) files said ↔ IsLeftByFront m files said }
{}

/// The same of a machine over lent bytes, since they were lent. What its files hold is what may be lent next, once the calls that wait
/// are made and belong to the past.
pub fn lent_fronts_are_what_is_left()
    ensures fronts { (m : LentMem) (files : Files) (said : List ℕ) →
        (lending.disk_of m).left_since (length m.past.taken) files said ↔ lending.IsLeftByFront m files said }
    ensures again { (m : LentMem) → Makes (first_of m.past) (m.past.taken ++ lending.waiting_in m) (lending.disk_of m).reads }
{}
