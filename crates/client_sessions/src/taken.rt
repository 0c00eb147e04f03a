/// What the bytes of a client begin with.
#[derive(Drop)]
pub enum Taken<'a> {
    /// A command of these words, and what follows it.
    Command(Vec<&'a [u8]>, &'a [u8]),
    /// They may still become one.
    Rest,
    /// No command that is allowed, and the client is told so.
    Refused(Vec<u8>),
}
