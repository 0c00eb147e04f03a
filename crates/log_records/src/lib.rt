//! The log's records: commands, identity writes and checkpoints, as bytes and as a log.
//!
//! The one contract is [`RecordLog`]: commands and identity writes have consecutive LSNs, and a checkpoint names the one that
//! comes next. An append adds exactly one record, a force makes all of them stable or leaves those that were, and a rewrite
//! puts the records with an LSN from a base on, and a checkpoint, in the place of the log, or leaves the old one: it reads the log
//! twice, and has one record in memory at a time. A copy puts all records with an LSN into the log of a new store on another
//! machine in the same way. A [`LsnReader`] gives the records with an LSN one by one, a [`BlockReader`] those of one block
//! after the other, as bytes. A command's code may be made before it is added, which then takes no memory. Below it stands
//! the codec: a record is decoded exactly where the bytes begin with the code of one in the grammar, and no code is another's
//! beginning. The crate depends on log_blocks, whose blocks hold the records, on formats, whose grammar this is, on
//! dirty_page_table for the tables, on oper_core for the operations, on the machines of disk_model, and on byteorder for the LSNs
//! in the bytes.
#![tactic(auto)]

mod block_reader;
mod blocks_left;
mod codec;
mod copy_err;
mod copying;
mod counted;
mod encoding;
mod forcing;
mod loading;
mod log_copy;
mod lsn_reader;
mod measured;
mod measuring;
mod new_log;
mod placing;
mod planning;
mod put_err;
mod record_log;
mod record_reader;
mod rewrite_err;
mod rewriting;
mod stable;

pub use block_reader::BlockReader;
pub use codec::{decode, encode, one_record};
pub use copy_err::CopyErr;
pub use encoding::EncodedCommand;
pub use lsn_reader::LsnReader;
pub use record_log::RecordLog;
pub use rewrite_err::RewriteErr;
