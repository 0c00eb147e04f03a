//! The words of the command line, as clap reads them.
ghost use Rattle.std.specs.Prelude.{◌≡◌, IfOk, false};
ghost use Rattle.clap.specs.Words.{app_of, rule_of};
ghost use Rattle.redo_log.specs.Commands.{flag, number, redo_log, text};

use clap::{Arg, ArgAction, Command, value_parser};
use std::alloc::{AllocError, Global};

// The kinds, as help has them.
const KINDS: &str =
    "Kinds: put copy append cut sort swap exec aread awrite; leaf_put leaf_delete split_child split_root; pexec pread\n\
    pwrite; hash_begin bucket_put bucket_delete bucket_split; page_put page_set page_delete page_part page_absorb page_join\n\
    page_keep page_turn page_turn_two page_root page_free; identity, check.\n\n\
    With one of these options the lines of the header, of blocks and of the end are left out. No file is written.";

// An option with a number.
fn number<'a>(alloc: Global, id: &'a str) -> Arg<'a>
    ensures rule { rule_of result ≡ number id.entry.now }
    ensures local { result.global ≡ false }
{
    Arg::new(alloc, id)
        .long(id)
        .value_parser(value_parser!(u64))
}

// An option with a text.
fn text<'a>(alloc: Global, id: &'a str) -> Arg<'a>
    ensures rule { rule_of result ≡ text id.entry.now }
    ensures local { result.global ≡ false }
{
    Arg::new(alloc, id).long(id)
}

// An option without a value.
fn flag<'a>(alloc: Global, id: &'a str) -> Arg<'a>
    ensures rule { rule_of result ≡ flag id.entry.now }
    ensures local { result.global ≡ false }
{
    Arg::new(alloc, id).long(id).action(ArgAction::SetTrue)
}

/// The options of `redo_log`.
pub fn redo_log<'a>(alloc: Global) -> Result<Command<'a>, AllocError>
    ensures { IfOk result (λ c. app_of c ≡ redo_log) }
{
    let from = number(alloc, "from").help("Only records from this LSN on");
    let to = number(alloc, "to").help("Only records up to this LSN");
    let object = number(alloc, "object").help("Only records that read or write this object");
    let kind = text(alloc, "kind").help("Only records of this kind");
    let stats = flag(alloc, "stats").help("Counts these records by their kinds");
    let glance = flag(alloc, "glance").help(
        "Looks without a lock, while another program may use the store",
    );
    Command::new(alloc, "redo_log")
        .about(
            "Prints the log of the store in this folder: a line for its header, each block, each record, and its end",
        )
        .after_help(KINDS)
        .arg(from)?
        .arg(to)?
        .arg(object)?
        .arg(kind)?
        .arg(stats)?
        .arg(glance)
}
