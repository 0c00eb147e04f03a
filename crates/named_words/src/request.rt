use crate::when::When;

/// A request on names and their values, whose words lie in the bytes that it was read from.
#[derive(Clone, Copy, Debug)]
pub enum NameRequest<'a> {
    /// The value of a name.
    Get(&'a [u8]),
    /// A name is given a value; the value before may be asked for.
    Set {
        name: &'a [u8],
        value: &'a [u8],
        when: When,
        back: bool,
    },
    /// A name that is not there is given a value.
    SetNx(&'a [u8], &'a [u8]),
    /// A name is given a value, and the one before is answered.
    GetSet(&'a [u8], &'a [u8]),
    /// A name is deleted, and its value is answered.
    GetDel(&'a [u8]),
    /// The values of names.
    MGet(&'a [&'a [u8]]),
    /// Names and values in turn.
    MSet(&'a [&'a [u8]]),
    /// Names are deleted.
    Del(&'a [&'a [u8]]),
    /// How many of the names are there.
    Exists(&'a [&'a [u8]]),
    /// The length of a value.
    StrLen(&'a [u8]),
    /// Bytes are put behind a value.
    Append(&'a [u8], &'a [u8]),
    /// A part of a value.
    GetRange {
        name: &'a [u8],
        from: i64,
        to: i64,
    },
    /// A number is added to a value.
    IncrBy {
        name: &'a [u8],
        by: i64,
    },
    /// A value is given to a second name, too; one that is there may be replaced.
    Copy {
        from: &'a [u8],
        to: &'a [u8],
        replace: bool,
    },
    /// A value is given to another name.
    Rename {
        from: &'a [u8],
        to: &'a [u8],
    },
    /// One of the names.
    RandomKey,
    /// How many names there are.
    DbSize,
    /// The names from a cursor on, out of so many, that match a pattern.
    Scan {
        cursor: u64,
        pattern: Option<&'a [u8]>,
        count: u64,
    },
    /// The names that match a pattern.
    Keys(&'a [u8]),
}

/// A request of the connection or the server.
#[derive(Clone, Copy, Debug)]
pub enum SessionRequest<'a> {
    /// An answer, which may be a text of the client's.
    Ping(Option<&'a [u8]>),
    /// A text is answered.
    Echo(&'a [u8]),
    /// The database, of which there is one.
    Select,
    /// The connection ends.
    Quit,
    /// Requests follow that are done at once.
    Multi,
    /// They are done.
    Exec,
    /// They are dropped.
    Discard,
    /// They are to be done only if these names stay as they are.
    Watch(&'a [&'a [u8]]),
    /// They may be done however names are.
    Unwatch,
    /// The client has a name.
    SetClientName(&'a [u8]),
    /// The client's name.
    GetClientName,
    /// The client's number.
    ClientId,
    /// All clients.
    ListClients,
    /// What the client's library tells of itself.
    SetClientInfo,
    /// All commands.
    ListCommands,
    /// How many commands there are.
    CountCommands,
    /// What commands do.
    DescribeCommands(&'a [&'a [u8]]),
    /// The settings of these names.
    GetConfig(&'a [&'a [u8]]),
    /// What there is to tell of the server.
    Info(&'a [&'a [u8]]),
    /// The answer waits for so many standbys, and at most so many milliseconds.
    Wait { standbys: i64, milliseconds: u64 },
    /// A backup is made.
    BgSave,
    /// The server ends.
    Shutdown,
}

/// What a client asks.
#[derive(Clone, Copy, Debug)]
pub enum Request<'a> {
    Names(NameRequest<'a>),
    Session(SessionRequest<'a>),
}
