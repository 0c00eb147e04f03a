use key_entries::Short;
use op_codec::AllOps;
use page_ops::Text;

/// What is changed in a map of wide pages.
#[derive(Drop)]
pub enum MapChange {
    /// `mset LO HI KEY VAL`: the key gets this value.
    Set { key: Text, value: Text },
    /// `mdel LO HI KEY`: the key leaves the map, with its value.
    Delete { key: Text },
}

/// What is read of a map of wide pages. Where a key is asked that ends what is read, no bytes stand for the end of the map.
#[derive(Drop)]
pub enum MapQuestion {
    /// `mget LO HI KEY`: the value of the key.
    Get { key: Text },
    /// `mrange LO HI FROM TO LIMIT`: the keys from `from` up to `to`, which is left out, with their values: the first `limit` of them.
    Range { from: Text, to: Text, limit: u32 },
    /// `mback LO HI FROM TO LIMIT`: the last `limit` of these keys, the last one first, with their values.
    Back { from: Text, to: Text, limit: u32 },
    /// `mcount LO HI FROM TO`: how many these keys are.
    Count { from: Text, to: Text },
    /// `mnext LO HI KEY`: the first key above this one, with its value.
    Next { key: Text },
    /// `mprev LO HI KEY`: the last key below this one, with its value.
    Prev { key: Text },
}

/// What makes commands, as many as the values that are there ask for.
#[derive(Drop)]
pub enum Making {
    /// `arun A N`: the application takes so many steps, or as many as its input has bytes.
    AppRun {
        app: u32,
        steps: u32,
    },
    /// `prun A P N`: the program of an object takes so many steps on an application, or as many as it can.
    ProgramRun {
        app: u32,
        program: u32,
        steps: u32,
    },
    /// `tinsert LO HI KEY VAL`: the key gets this value, in the tree of the objects from `low` to `high`.
    TreeInsert {
        low: u32,
        high: u32,
        key: Short,
        value: Short,
    },
    /// `tdelete LO HI KEY`: the key leaves the tree, with its value.
    TreeDelete {
        low: u32,
        high: u32,
        key: Short,
    },
    /// `hset LO HI KEY VAL`: the key gets this value, in the hash file of the objects from `low` to `high`.
    HashPut {
        low: u32,
        high: u32,
        key: Short,
        value: Short,
    },
    /// `hdel LO HI KEY`: the key leaves the hash file, with its value.
    HashDelete {
        low: u32,
        high: u32,
        key: Short,
    },
    /// A change of the map of the objects from `low` to `high`.
    Map {
        low: u32,
        high: u32,
        change: MapChange,
    },
}

/// What reports values, and changes nothing.
#[derive(Drop)]
pub enum Question {
    /// `get X`: the value of the object.
    Get {
        object: u32,
    },
    /// `tget LO HI KEY`: the value of the key, in a tree.
    TreeGet {
        low: u32,
        high: u32,
        key: Short,
    },
    /// `trange LO HI FROM TO`: the keys from `from` up to `to`, which is left out, with their values.
    TreeRange {
        low: u32,
        high: u32,
        from: Short,
        to: Short,
    },
    /// `hget LO HI KEY`: the value of the key, in a hash file.
    HashGet {
        low: u32,
        high: u32,
        key: Short,
    },
    /// A question to the map of the objects from `low` to `high`.
    Map {
        low: u32,
        high: u32,
        question: MapQuestion,
    },
}

/// What changes no value and adds no command.
#[derive(Clone, Copy)]
pub enum Upkeep {
    /// `install`: one node of the write graph is installed, where there is one.
    Install,
    /// `drain`: all nodes are installed.
    Drain,
    /// `checkpoint`: a check is logged and made stable.
    Checkpoint,
    /// `trim`: the log is rewritten without the records that no redo needs.
    Trim,
}

/// Where a group of commands begins or ends, of which a crash leaves all or none, or is given up.
#[derive(Clone, Copy)]
pub enum Grouping {
    /// `begin`
    Begin,
    /// `end`
    End,
    /// `abort`: none of its commands stays.
    Abort,
}

/// What makes a backup of the store.
#[derive(Clone, Copy)]
pub enum Saving {
    /// `bstart`: a backup begins.
    Start,
    /// `bcopy K`: so many objects more are copied into it, or all that are left.
    Copy { count: u32 },
    /// `bfinish`: it becomes a store.
    Finish,
}

/// What a line asks.
#[derive(Drop)]
pub enum Line {
    /// `put X HEX`, `copy X Y`, `append X Y`, `cut X Y K`, `sort X Y W`, `swap X Y`, `exec A`, `aread A X`, `awrite A X`,
    /// `pexec A P`, `pread A X`, `pwrite A X`: one command, which is this operation.
    Run(AllOps),
    /// Several commands.
    Make(Making),
    /// Values.
    Ask(Question),
    /// `force`: all commands so far are made stable.
    Force,
    /// What changes no value and adds no command.
    Keep(Upkeep),
    /// The beginning or the end of a group, or that it is given up.
    Group(Grouping),
    /// A backup is started, gone on with or ended.
    Save(Saving),
    /// `stat`: the counts of the store are reported.
    Stat,
    /// A line without fields, or a comment: it gets no answer.
    Skip,
}
