//! Workloads of actions, for `bench/crates.py`, which times them.
//!
//! `ng_bench_acts WORKLOAD SIZE` does one workload and prints what it counted; nothing else is measured here. The
//! workloads:
//!
//! - `broadcast` broadcasts one event to so many listeners on a thousand scopes, and `emit` emits so many from the lowest of sixty scopes;
//! - `calls` calls a function so many times, and `destroy` destroys so many scopes with a listener each, one after another.
//!
//! It decides nothing and no other crate stands on it.
#![tactic(auto)]

mod acting;

use std::alloc::Global;
use std::{env, io};

/// A workload of a size, and what it counted.
fn counted(alloc: Global, workload: &str, size: u64) -> Option<u64> {
    match workload {
        "broadcast" => acting::heard(alloc, size),
        "emit" => acting::risen(alloc, size),
        "calls" => acting::called(alloc, size),
        "destroy" => acting::buried(alloc, size),
        _ => None,
    }
}

fn main(rt: HostRuntime) -> io::Result<()> {
    let alloc = rt.alloc();
    let mut words = env::args(&rt)?.skip(1);
    let workload = words.next();
    let size = words.next();
    if let (Some(workload), Some(size)) = (workload, size) {
        let size = size.as_str().parse::<u64>().unwrap_or(0);
        match counted(alloc, workload.as_str(), size) {
            Some(count) => println!(rt; "{} {} {}", workload.as_str(), size, count)?,
            None => println!(rt; "{} {} failed", workload.as_str(), size)?,
        }
    }
    Ok(())
}
