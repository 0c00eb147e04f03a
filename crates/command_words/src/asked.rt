use formats::Params;

/// What the words of the command line ask.
#[derive(Clone, Copy, Debug, PartialEq, Eq)]
pub enum Asked {
    /// `init N CAP LIMIT`, perhaps `--pages`: a new store with these limits, and the operations on pages.
    Init(Params),
    /// `run`, or `run --tend`: a script is answered, and the store is tended before each line is read, or is not.
    Run { tend: bool },
    /// `dump`: the objects that are not empty are reported, and the number of commands.
    Dump,
    /// `demo --seed S --steps T`: a script of so many steps is made from the seed and answered, in memory.
    Demo { seed: u64, steps: u32 },
    /// `upgrade N CAP LIMIT`, perhaps `--pages`: the store gets these limits, where it stands.
    Upgrade(Params),
    /// `ship FROM`: the records of the log from this number on are said, as frames for a standby.
    Ship { from: u64 },
    /// `follow`, or `follow --same`: the frames of the input are taken in, as a standby, and are compared before, or are not.
    Follow { same: bool },
}
