ghost use Rattle.std.specs.Prelude.{◌≡◌};
ghost use Rattle.named_words.specs.Verbs.{name_of, name_part, name_verb, session_verb, value_verb, verb_in, verb_of};

use crate::word::is_word;

/// The commands on values.
#[derive(Clone, Copy, Debug, PartialEq, Eq)]
pub enum ValueVerb {
    Get,
    Set,
    SetNx,
    GetSet,
    GetDel,
    MGet,
    MSet,
    StrLen,
    Append,
    GetRange,
    Incr,
    Decr,
    IncrBy,
    DecrBy,
}

/// The commands on names.
#[derive(Clone, Copy, Debug, PartialEq, Eq)]
pub enum NameVerb {
    Del,
    Exists,
    Copy,
    Rename,
    RandomKey,
    DbSize,
    Scan,
    Keys,
}

/// The commands on the connection and the server.
#[derive(Clone, Copy, Debug, PartialEq, Eq)]
pub enum SessionVerb {
    Ping,
    Echo,
    Select,
    Quit,
    Multi,
    Exec,
    Discard,
    Watch,
    Unwatch,
    Client,
    Command,
    Config,
    Info,
    Wait,
    BgSave,
    Shutdown,
}

/// What stands behind CLIENT, COMMAND and CONFIG.
#[derive(Clone, Copy, Debug, PartialEq, Eq)]
pub enum Part {
    ClientSetName,
    ClientGetName,
    ClientId,
    ClientSetInfo,
    CommandCount,
    ConfigGet,
}

/// What a command's first word names.
#[derive(Clone, Copy, Debug, PartialEq, Eq)]
pub enum Verb {
    Values(ValueVerb),
    Names(NameVerb),
    Session(SessionVerb),
}

/// All of them, the commonest first.
pub(crate) const VERBS: [Verb; 38] = [
    Verb::Values(ValueVerb::Get),
    Verb::Values(ValueVerb::Set),
    Verb::Values(ValueVerb::Incr),
    Verb::Names(NameVerb::Del),
    Verb::Names(NameVerb::Exists),
    Verb::Values(ValueVerb::MGet),
    Verb::Values(ValueVerb::MSet),
    Verb::Session(SessionVerb::Multi),
    Verb::Session(SessionVerb::Exec),
    Verb::Session(SessionVerb::Ping),
    Verb::Values(ValueVerb::SetNx),
    Verb::Values(ValueVerb::GetSet),
    Verb::Values(ValueVerb::GetDel),
    Verb::Values(ValueVerb::StrLen),
    Verb::Values(ValueVerb::Append),
    Verb::Values(ValueVerb::GetRange),
    Verb::Values(ValueVerb::Decr),
    Verb::Values(ValueVerb::IncrBy),
    Verb::Values(ValueVerb::DecrBy),
    Verb::Names(NameVerb::Copy),
    Verb::Names(NameVerb::Rename),
    Verb::Names(NameVerb::RandomKey),
    Verb::Names(NameVerb::DbSize),
    Verb::Names(NameVerb::Scan),
    Verb::Names(NameVerb::Keys),
    Verb::Session(SessionVerb::Discard),
    Verb::Session(SessionVerb::Watch),
    Verb::Session(SessionVerb::Unwatch),
    Verb::Session(SessionVerb::Wait),
    Verb::Session(SessionVerb::Info),
    Verb::Session(SessionVerb::Echo),
    Verb::Session(SessionVerb::Select),
    Verb::Session(SessionVerb::Quit),
    Verb::Session(SessionVerb::Client),
    Verb::Session(SessionVerb::Command),
    Verb::Session(SessionVerb::Config),
    Verb::Session(SessionVerb::BgSave),
    Verb::Session(SessionVerb::Shutdown),
];

impl ValueVerb {
    // Its name, in lower case.
    fn name(self) -> &'static [u8]
        ensures { result.now ≡ value_verb self }
    {
        match self {
            ValueVerb::Get => b"get",
            ValueVerb::Set => b"set",
            ValueVerb::SetNx => b"setnx",
            ValueVerb::GetSet => b"getset",
            ValueVerb::GetDel => b"getdel",
            ValueVerb::MGet => b"mget",
            ValueVerb::MSet => b"mset",
            ValueVerb::StrLen => b"strlen",
            ValueVerb::Append => b"append",
            ValueVerb::GetRange => b"getrange",
            ValueVerb::Incr => b"incr",
            ValueVerb::Decr => b"decr",
            ValueVerb::IncrBy => b"incrby",
            ValueVerb::DecrBy => b"decrby",
        }
    }
}

impl NameVerb {
    // Its name, in lower case.
    fn name(self) -> &'static [u8]
        ensures { result.now ≡ name_verb self }
    {
        match self {
            NameVerb::Del => b"del",
            NameVerb::Exists => b"exists",
            NameVerb::Copy => b"copy",
            NameVerb::Rename => b"rename",
            NameVerb::RandomKey => b"randomkey",
            NameVerb::DbSize => b"dbsize",
            NameVerb::Scan => b"scan",
            NameVerb::Keys => b"keys",
        }
    }
}

impl SessionVerb {
    // Its name, in lower case.
    fn name(self) -> &'static [u8]
        ensures { result.now ≡ session_verb self }
    {
        match self {
            SessionVerb::Ping => b"ping",
            SessionVerb::Echo => b"echo",
            SessionVerb::Select => b"select",
            SessionVerb::Quit => b"quit",
            SessionVerb::Multi => b"multi",
            SessionVerb::Exec => b"exec",
            SessionVerb::Discard => b"discard",
            SessionVerb::Watch => b"watch",
            SessionVerb::Unwatch => b"unwatch",
            SessionVerb::Client => b"client",
            SessionVerb::Command => b"command",
            SessionVerb::Config => b"config",
            SessionVerb::Info => b"info",
            SessionVerb::Wait => b"wait",
            SessionVerb::BgSave => b"bgsave",
            SessionVerb::Shutdown => b"shutdown",
        }
    }
}

impl Part {
    /// Its name, as Redis has it in answers.
    pub fn name(self) -> &'static [u8]
        ensures { result.now ≡ name_part self }
    {
        match self {
            Part::ClientSetName => b"client|setname",
            Part::ClientGetName => b"client|getname",
            Part::ClientId => b"client|id",
            Part::ClientSetInfo => b"client|setinfo",
            Part::CommandCount => b"command|count",
            Part::ConfigGet => b"config|get",
        }
    }
}

impl Verb {
    /// Its name, in lower case.
    pub fn name(self) -> &'static [u8]
        ensures { result.now ≡ name_of self }
    {
        match self {
            Verb::Values(verb) => verb.name(),
            Verb::Names(verb) => verb.name(),
            Verb::Session(verb) => verb.name(),
        }
    }

    /// The command that a word names, whatever the case of its letters.
    pub fn of(word: &[u8]) -> Option<Verb>
        ensures { result ≡ verb_of word.now }
    {
        find(&VERBS, word)
    }
}

// The first of the commands that a word names.
fn find(verbs: &[Verb], word: &[u8]) -> Option<Verb>
    ensures { result ≡ verb_in verbs.now word.now }
{
    for verb in verbs {
        if is_word(word, verb.name()) {
            return Some(*verb);
        }
    }
    None
}
