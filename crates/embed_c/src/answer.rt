ghost use Rattle.std.specs.Prelude.{◌≡◌};
ghost use Rattle.write_queue.specs.Codes.{file_number as number_of_file};
ghost use Rattle.embed_c.specs.Answers.{alone, done_answer, number_of_refusal, of_exec, of_init, of_open, of_read, of_work, telling, told, told_end, told_value};
ghost use Rattle.embed_c.specs.PageMaps.{bytes_of, of_map, seen_as};
ghost use Rattle.embed_c.specs.Ranges.{of_hash, of_tree, told_found};

use disk_model::FileNo;
use hash_client::HashErr;
use hash_file::HashRefusal;
use key_entries::Short;
use logical_btree::TreeRefusal;
use map_client::{CallRefusal, MapErr};
use oper_core::Refusal;
use page_map::MapRefusal;
use range_calls::CallErr;
use store_engine::{ExecErr, InitErr, OpenErr, ReadErr, WorkErr};
use tree_client::TreeErr;

/// Up to three numbers beside an answer: of a log that is full what is used, needed, and the limit; of damage the file and the
/// place; of other answers one number, or zeros.
#[repr(C)]
#[derive(Clone, Copy)]
pub struct Detail {
    pub first: u64,
    pub second: u64,
    pub third: u64,
}

/// What C is told of a call: 0 where it is done, else why it is not.
#[derive(Clone, Copy)]
pub struct Answer {
    pub number: u32,
    pub detail: Detail,
}

impl Answer {
    /// A number with three beside it.
    pub fn telling(number: u32, first: u64, second: u64, third: u64) -> Answer
        ensures { result ≡ telling number first second third }
    {
        Answer {
            number,
            detail: Detail {
                first,
                second,
                third,
            },
        }
    }

    /// A number with nothing beside it.
    pub fn alone(number: u32) -> Answer
        ensures { result ≡ alone number }
    {
        Answer::telling(number, 0, 0, 0)
    }

    /// The call is done.
    pub fn done() -> Answer
        ensures { result ≡ done_answer }
    {
        Answer::alone(0)
    }

    fn damaged(file: FileNo, place: u64) -> Answer
        ensures { result ≡ telling 4 (number_of_file file) place 0 }
    {
        Answer::telling(4, u64::from(file_number(file)), place, 0)
    }

    /// A command was not done.
    pub fn of_exec(cause: ExecErr) -> Answer
        ensures { result ≡ of_exec cause }
    {
        match cause {
            ExecErr::Refused(refusal) => Answer::alone(number_of(refusal)),
            ExecErr::DiskFault => Answer::alone(5),
            ExecErr::Damaged { file, place } => Answer::damaged(file, place),
            ExecErr::LogFull { used, need, limit } => Answer::telling(16, used, need, limit),
            ExecErr::LsnEnd { lsn } => Answer::telling(17, lsn, 0, 0),
            ExecErr::Memory => Answer::alone(8),
        }
    }

    /// An object was not read.
    pub fn of_read(cause: ReadErr) -> Answer
        ensures { result ≡ of_read cause }
    {
        match cause {
            ReadErr::DiskFault => Answer::alone(5),
            ReadErr::Damaged { file, place } => Answer::damaged(file, place),
            ReadErr::Memory => Answer::alone(8),
        }
    }

    /// A force, an install or a trim was not done, or a group not begun.
    pub fn of_work(cause: WorkErr) -> Answer
        ensures { result ≡ of_work cause }
    {
        match cause {
            WorkErr::InGroup { commands } => Answer::telling(18, commands, 0, 0),
            WorkErr::InBackup { copied } => Answer::telling(20, u64::from(copied), 0, 0),
            WorkErr::LogFull { used, need, limit } => Answer::telling(16, used, need, limit),
            WorkErr::LsnEnd { lsn } => Answer::telling(17, lsn, 0, 0),
            WorkErr::Exhausted { epoch } => Answer::telling(17, epoch, 0, 0),
            WorkErr::DiskFault => Answer::alone(5),
            WorkErr::Damaged { file, place } => Answer::damaged(file, place),
            WorkErr::Memory => Answer::alone(8),
        }
    }

    /// A call on a tree was not done.
    pub fn of_tree(cause: TreeErr) -> Answer
        ensures { result ≡ of_tree cause }
    {
        match cause {
            CallErr::Refused(TreeRefusal::NoObject) => Answer::alone(32),
            CallErr::Refused(TreeRefusal::BadTree { object }) => {
                Answer::telling(44, u64::from(object), 0, 0)
            }
            CallErr::Refused(TreeRefusal::TreeFull { need, free }) => {
                Answer::telling(45, u64::from(need), u64::from(free), 0)
            }
            CallErr::Refused(TreeRefusal::NoKey) => Answer::alone(39),
            CallErr::Exec(cause) => Answer::of_exec(cause),
            CallErr::Memory => Answer::alone(8),
        }
    }

    /// A call on a hash file was not done.
    pub fn of_hash(cause: HashErr) -> Answer
        ensures { result ≡ of_hash cause }
    {
        match cause {
            CallErr::Refused(HashRefusal::NoObject) => Answer::alone(32),
            CallErr::Refused(HashRefusal::BadHash { object }) => {
                Answer::telling(46, u64::from(object), 0, 0)
            }
            CallErr::Refused(HashRefusal::HashFull { object }) => {
                Answer::telling(47, u64::from(object), 0, 0)
            }
            CallErr::Refused(HashRefusal::NoRoom { free }) => {
                Answer::telling(48, u64::from(free), 0, 0)
            }
            CallErr::Refused(HashRefusal::NoKey) => Answer::alone(39),
            CallErr::Exec(cause) => Answer::of_exec(cause),
            CallErr::Memory => Answer::alone(8),
        }
    }

    /// A call on a map was not done.
    pub fn of_map(cause: MapErr) -> Answer
        ensures { result ≡ of_map cause }
    {
        match cause {
            CallErr::Refused(CallRefusal::NoObject) => Answer::alone(32),
            CallErr::Refused(CallRefusal::NoPages) => Answer::alone(50),
            CallErr::Refused(CallRefusal::Map(MapRefusal::BadMap { object })) => {
                Answer::telling(51, u64::from(object), 0, 0)
            }
            CallErr::Refused(CallRefusal::Map(MapRefusal::TooLong)) => Answer::alone(52),
            CallErr::Refused(CallRefusal::Map(MapRefusal::MapFull)) => Answer::alone(53),
            CallErr::Refused(CallRefusal::Map(MapRefusal::NoKey)) => Answer::alone(39),
            CallErr::Exec(cause) => Answer::of_exec(cause),
            CallErr::Memory => Answer::alone(8),
        }
    }

    /// A store was not opened.
    pub fn of_open(cause: OpenErr) -> Answer
        ensures { result ≡ of_open cause }
    {
        match cause {
            OpenErr::NotAStore => Answer::alone(3),
            OpenErr::DiskFault => Answer::alone(5),
            OpenErr::Damaged { file, place } => Answer::damaged(file, place),
            OpenErr::Memory => Answer::alone(8),
        }
    }

    /// A store was not laid out.
    pub fn of_init(cause: InitErr) -> Answer
        ensures { result ≡ of_init cause }
    {
        match cause {
            InitErr::AlreadyStore => Answer::alone(6),
            InitErr::DiskFault => Answer::alone(5),
        }
    }
}

/// What C is told of a command.
pub fn exec_answer<T: Drop>(made: Result<T, ExecErr>) -> Answer
    ensures { result ≡ told of_exec made }
{
    match made {
        Ok(_) => Answer::done(),
        Err(cause) => Answer::of_exec(cause),
    }
}

/// What C is told of other work.
pub fn work_answer<T: Drop>(made: Result<T, WorkErr>) -> Answer
    ensures { result ≡ told of_work made }
{
    match made {
        Ok(_) => Answer::done(),
        Err(cause) => Answer::of_work(cause),
    }
}

/// What C is told of work that fails as a read does.
pub fn read_answer<T: Drop>(made: Result<T, ReadErr>) -> Answer
    ensures { result ≡ told of_read made }
{
    match made {
        Ok(_) => Answer::done(),
        Err(cause) => Answer::of_read(cause),
    }
}

/// What C is told of a value that was read.
pub fn value_answer(made: Result<Option<usize>, ReadErr>) -> Answer
    ensures { result ≡ told_value made }
{
    match made {
        Ok(Some(_)) => Answer::done(),
        Ok(None) => Answer::alone(32),
        Err(cause) => Answer::of_read(cause),
    }
}

/// What C is told of a group that was to end.
pub fn end_answer(made: Result<Option<u64>, WorkErr>) -> Answer
    ensures { result ≡ told_end made }
{
    match made {
        Ok(Some(_)) => Answer::done(),
        Ok(None) => Answer::alone(19),
        Err(cause) => Answer::of_work(cause),
    }
}

/// What C is told of a call that changes a tree.
pub fn tree_answer(made: Result<(), TreeErr>) -> Answer
    ensures { result ≡ told of_tree made }
{
    match made {
        Ok(()) => Answer::done(),
        Err(cause) => Answer::of_tree(cause),
    }
}

/// What C is told of a key that was looked for in a tree.
pub fn tree_found(made: Result<Option<Short>, TreeErr>) -> Answer
    ensures { result ≡ told_found of_tree made }
{
    match made {
        Ok(Some(_)) => Answer::done(),
        Ok(None) => Answer::alone(39),
        Err(cause) => Answer::of_tree(cause),
    }
}

/// What C is told of a call that changes a hash file.
pub fn hash_answer(made: Result<(), HashErr>) -> Answer
    ensures { result ≡ told of_hash made }
{
    match made {
        Ok(()) => Answer::done(),
        Err(cause) => Answer::of_hash(cause),
    }
}

/// What C is told of a key that was looked for in a hash file.
pub fn hash_found(made: Result<Option<Short>, HashErr>) -> Answer
    ensures { result ≡ told_found of_hash made }
{
    match made {
        Ok(Some(_)) => Answer::done(),
        Ok(None) => Answer::alone(39),
        Err(cause) => Answer::of_hash(cause),
    }
}

/// What C is told of a call on a map that looks for no key.
pub fn map_answer<T: Drop>(made: Result<T, MapErr>) -> Answer
    ensures { result ≡ told of_map made }
{
    match made {
        Ok(_) => Answer::done(),
        Err(cause) => Answer::of_map(cause),
    }
}

/// What C is told of a key that was looked for in a map.
pub fn map_found(made: Result<Option<Vec<u8>>, MapErr>) -> Answer
    ensures { result ≡ told_found of_map (seen_as bytes_of made) }
{
    match made {
        Ok(Some(_)) => Answer::done(),
        Ok(None) => Answer::alone(39),
        Err(cause) => Answer::of_map(cause),
    }
}

/// The number of a file: 0 of the objects, 1 of log A, 2 of log B.
pub fn file_number(file: FileNo) -> u32
    ensures { result ≡ number_of_file file }
{
    match file {
        FileNo::Objects => 0,
        FileNo::LogA => 1,
        FileNo::LogB => 2,
    }
}

fn number_of(refusal: Refusal) -> u32
    ensures { result ≡ number_of_refusal refusal }
{
    match refusal {
        Refusal::NoObject => 32,
        Refusal::Same => 33,
        Refusal::BadPlace => 34,
        Refusal::BadWidth => 35,
        Refusal::NotApp => 36,
        Refusal::NoInput => 37,
        Refusal::NotNode => 38,
        Refusal::NoKey => 39,
        Refusal::NodeFull => 40,
        Refusal::TooLarge => 41,
        Refusal::NotCode => 42,
        Refusal::Halted => 43,
        Refusal::NoPages => 50,
    }
}
