// RESP: that commands are found and replies written at all, and the texts of what is bad.
use oper_core::Memory;
use resp_words::{Found, Limits, ProtocolError, Reply, next_command};
use std::alloc::Global;
use std::test::Fail;

const LIMITS: Limits = Limits {
    words: 3,
    bytes: 10,
    line: 20,
};

// How many words the command has that the bytes begin with, and how many bytes it takes.
fn command(alloc: Global, bytes: &[u8]) -> Result<Option<(usize, usize)>, Memory> {
    match next_command(alloc, bytes, LIMITS)? {
        Found::Whole(command) => Ok(Some((command.words.len(), command.used))),
        Found::More | Found::Bad(_) => Ok(None),
    }
}

const COMMANDS: [(&[u8], usize, usize); 5] = [
    (b"*2\r\n$3\r\nGET\r\n$1\r\nk\r\n*1", 2, 20),
    (b"*0\r\n", 0, 4),
    (b"*1\r\n$10\r\n*1\r\n$1\r\na\n\r\n", 1, 21),
    (b"GET  k\r\nPING", 2, 8),
    (b"\n", 0, 1),
];

#[test]
fn a_command_is_found_once_it_is_whole(rt: HostRuntime) -> Result<(), Fail> {
    for (bytes, words, used) in COMMANDS {
        assert!(rt; command(rt.alloc(), bytes)? == Some((words, used)));
    }
    Ok(())
}

fn is_refused(alloc: Global, error: ProtocolError, text: &str) -> Result<bool, Fail> {
    Ok(error.to_string(alloc)?.as_str() == text)
}

const ERRORS: [(ProtocolError, &str); 5] = [
    (
        ProtocolError::BadCount,
        "ERR Protocol error: invalid multibulk length",
    ),
    (
        ProtocolError::NoDollar('+'),
        "ERR Protocol error: expected '$', got '+'",
    ),
    (
        ProtocolError::BadLength,
        "ERR Protocol error: invalid bulk length",
    ),
    (
        ProtocolError::LongLine,
        "ERR Protocol error: too big inline request",
    ),
    (
        ProtocolError::BadByte,
        "ERR Protocol error: a quote or a control byte in an inline request",
    ),
];

#[test]
fn what_is_bad_is_told_as_redis_tells_it(rt: HostRuntime) -> Result<(), Fail> {
    for (error, text) in ERRORS {
        assert!(rt; is_refused(rt.alloc(), error, text)?);
    }
    Ok(())
}

fn all_replies(alloc: Global) -> Result<Vec<u8>, Memory> {
    let mut bytes = Vec::new(alloc);
    Reply::Simple(b"OK").push(alloc, &mut bytes)?;
    Reply::Error(b"ERR no").push(alloc, &mut bytes)?;
    Reply::Integer(-7).push(alloc, &mut bytes)?;
    Reply::Bulk(b"abc").push(alloc, &mut bytes)?;
    Reply::Null.push(alloc, &mut bytes)?;
    Reply::Array(12).push(alloc, &mut bytes)?;
    Reply::NullArray.push(alloc, &mut bytes)?;
    Ok(bytes)
}

#[test]
fn replies_are_written(rt: HostRuntime) -> Result<(), Fail> {
    let bytes = all_replies(rt.alloc())?;
    assert!(rt;
        bytes.as_slice()
            == b"+OK\r\n-ERR no\r\n:-7\r\n$3\r\nabc\r\n$-1\r\n*12\r\n*-1\r\n".as_slice()
    );
    Ok(())
}
