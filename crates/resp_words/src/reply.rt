ghost use Rattle.std.specs.Prelude.{◌≡◌, ◌++◌, IfOk, OnErr, OnOk, length, take};
ghost use Rattle.std.specs.Fmt.{decimal, signed_decimal};
ghost use Rattle.resp_words.specs.Commands.{ended};
ghost use Rattle.resp_words.specs.Replies.{in_line, line_of, mark_of, reply_bytes, said};

use oper_core::Memory;
use std::alloc::Global;

/// What a client is answered.
#[derive(Clone, Copy)]
pub enum Reply<'a> {
    /// A text in one line, as `OK`.
    Simple(&'a [u8]),
    /// What went wrong, in one line, which begins with a word in capitals, as `ERR`.
    Error(&'a [u8]),
    /// A number.
    Integer(i64),
    /// A value.
    Bulk(&'a [u8]),
    /// No value.
    Null,
    /// The head of an array: so many replies follow it.
    Array(u32),
    /// No array.
    NullArray,
}

// A byte of a text in one line.
fn byte_in_line(byte: u8) -> u8
    ensures { result ≡ Rattle.resp_words.specs.Replies.byte_in_line byte }
{
    if byte == b'\r' || byte == b'\n' {
        return b' ';
    }
    byte
}

// A text in one line.
fn text_in_line(alloc: Global, text: &[u8]) -> Result<Vec<u8>, Memory>
    ensures { IfOk result (λ line. line.items ≡ in_line text.now) }
{
    let mut line = Vec::with_capacity(alloc, text.len())?;
    for byte in text {
        line.push(byte_in_line(*byte))?;
    }
    Ok(line)
}

// A number in digits.
fn count_text(alloc: Global, count: u64) -> Result<Vec<u8>, Memory>
    ensures { IfOk result (λ line. line.items ≡ decimal count) }
{
    let digits = count.to_string(alloc)?;
    Ok(digits.as_bytes().to_vec(alloc)?)
}

// A number in digits, with its sign.
fn number_text(alloc: Global, number: i64) -> Result<Vec<u8>, Memory>
    ensures { IfOk result (λ line. line.items ≡ signed_decimal number) }
{
    let digits = number.to_string(alloc)?;
    Ok(digits.as_bytes().to_vec(alloc)?)
}

// Appends a text and the end of its line. Without memory a part of them may stay behind the bytes.
fn push_ended(text: &[u8], into: &mut Vec<u8>) -> Result<(), Memory>
    ensures ok { OnOk result (into.new.items ≡ into.old.items ++ ended text.now) }
    ensures err { OnErr result (take (length into.old.items) into.new.items ≡ into.old.items) }
{
    into.extend_from_slice(text)?;
    into.extend_from_slice(b"\r\n")?;
    Ok(())
}

impl Reply<'_> {
    // The byte that tells what it is.
    fn mark(&self) -> u8
        ensures { result ≡ mark_of (said self.now) }
    {
        match self {
            Reply::Simple(_) => b'+',
            Reply::Error(_) => b'-',
            Reply::Integer(_) => b':',
            Reply::Bulk(_) | Reply::Null => b'$',
            Reply::Array(_) | Reply::NullArray => b'*',
        }
    }

    // The line behind it.
    fn line(&self, alloc: Global) -> Result<Vec<u8>, Memory>
        ensures { IfOk result (λ line. line.items ≡ line_of (said self.now)) }
    {
        match self {
            Reply::Simple(text) | Reply::Error(text) => text_in_line(alloc, text),
            Reply::Integer(number) => number_text(alloc, *number),
            Reply::Bulk(bytes) => count_text(alloc, bytes.len() as u64),
            Reply::Array(count) => count_text(alloc, u64::from(*count)),
            Reply::Null | Reply::NullArray => Ok(Vec::from_slice(alloc, b"-1")?),
        }
    }

    // Appends the reply. Without memory a part of it may stay behind the bytes.
    fn append(&self, alloc: Global, into: &mut Vec<u8>) -> Result<(), Memory>
        ensures ok { OnOk result (into.new.items ≡ into.old.items ++ reply_bytes (said self.now)) }
        ensures err { OnErr result (take (length into.old.items) into.new.items ≡ into.old.items) }
    {
        let line = self.line(alloc)?;
        into.push(self.mark())?;
        push_ended(&line, into)?;
        if let Reply::Bulk(bytes) = self {
            push_ended(bytes, into)?;
        }
        Ok(())
    }

    /// Appends the bytes of the reply. Without memory nothing is appended.
    pub fn push(&self, alloc: Global, into: &mut Vec<u8>) -> Result<(), Memory>
        ensures ok { OnOk result (into.new.items ≡ into.old.items ++ reply_bytes (said self.now)) }
        ensures err { OnErr result (into.new.items ≡ into.old.items) }
    {
        let whole = into.len();
        let appended = self.append(alloc, into);
        if appended.is_err() {
            into.truncate(whole);
        }
        appended
    }
}
