//! The program `graph_bench`: it adds so many operations of one kind to a write graph, takes nodes out, and prints how many calls
//! that were. `bench/graph` measures it.
//!
//! The one contract: each entry that it adds has a number above all others, and there is room for it. It depends on
//! `write_graph`, `install_order` and `oper_core`.
#![tactic(auto)]

mod dice;
mod feed;
mod script;
mod works;

use feed::Feed;
use oper_core::Memory;
use std::alloc::{AllocError, Global};
use std::env;
use std::process::ExitCode;
use std::rt::Env;
use works::{Plan, Workload, works};

/// The words of the command line; none where one of them is no text.
fn words<R: Env + AllocGlobal>(rt: &R) -> Result<Vec<String>, AllocError> {
    match env::args(rt) {
        Ok(args) => args.collect(rt.alloc()),
        Err(_) => Ok(Vec::new(rt.alloc())),
    }
}

/// What the words ask for: a kind of work, how many operations, and how often all of it is done.
fn asked(words: &[String]) -> Option<(Workload, Plan, u32)> {
    let [_, name, count, times] = words else {
        return None;
    };
    let (work, removal) = works(name.as_str())?;
    let count = count.parse::<u32>().ok()?;
    let times = times.parse::<u32>().ok()?;
    Some((work, Plan { count, removal }, times))
}

/// Does the work once, and answers how many entries were added and nodes taken out.
fn done_once(alloc: Global, work: Workload, plan: Plan) -> Result<u64, Memory> {
    let mut feed = Feed::new(alloc)?;
    let ran = feed.run(work, plan);
    let calls = feed.calls();
    drop(feed);
    ran?;
    Ok(calls)
}

/// Does the work so often, and answers how many entries were added and nodes taken out.
fn done(alloc: Global, work: Workload, plan: Plan, times: u32) -> Result<u64, Memory> {
    let mut calls = 0u64;
    for _ in 0..times {
        calls = calls.saturating_add(done_once(alloc, work, plan)?);
    }
    Ok(calls)
}

fn main(rt: HostRuntime) -> ExitCode {
    let Ok(words) = words(&rt) else {
        return ExitCode::from(3);
    };
    let Some((work, plan, times)) = asked(words.as_slice()) else {
        let _told = eprintln!(rt; "usage: graph_bench WORK COUNT TIMES");
        return ExitCode::from(2);
    };
    let Ok(calls) = done(rt.alloc(), work, plan, times) else {
        return ExitCode::from(3);
    };
    let _told = println!(rt; "{calls}");
    ExitCode::from(0)
}
