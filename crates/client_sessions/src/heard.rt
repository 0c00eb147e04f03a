/// What was heard of the bytes of a client.
#[derive(Clone, Copy)]
pub enum Heard<'a> {
    /// A command, which is done, and what follows it.
    Command(&'a [u8]),
    /// They may still become one.
    Rest,
    /// No command that is allowed: the client is told so, and nothing is kept of them.
    Refused,
}
