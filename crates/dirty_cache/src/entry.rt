use oper_core::ByteList;

/// An object's LSN, that of the record that wrote it last, and its value.
#[derive(Drop)]
pub struct Entry {
    pub lsn: u64,
    pub bytes: ByteList,
}
